// What holds of a table over the store of the latest key.
ghost use Rattle.std.specs.Prelude.{◌≡◌};
ghost use Rattle.stores.specs.Behaviours.{Decided};
ghost use Rattle.search.specs.Calls.{Call};
ghost use Rattle.search.specs.Theorems.{OneHistory};
ghost use Rattle.table.specs.Shown.{found_in, CallDone, solve_answer};
ghost use Rattle.loose.specs.LatestLaws.{latest};

use crate::latest::Latest;
use rows::bank::Bank;
use table::Table;
use table::outcome::Outcome;
use table::refusal::Refusal;

/// The store leaves nothing open: two histories with the same calls over it have the same answers and end with the same
/// table and store.
pub fn latest_decides()
    ensures { Decided latest × OneHistory latest }
{}

/// Opens at most five nodes of a table's search. The contract is that of a table over any store.
pub fn solve_over_latest<'a, B: Bank>(table: &mut Table<B, Latest<'a>>) -> Result<Outcome, Refusal>
    ensures { CallDone table.old (Call.solve 5) (solve_answer result (found_in table.new)) table.new }
{
    table.solve(5)
}
