//! What the interfaces admit, shown by a kind and a store that use each freedom that the laws leave:
//! - `Loose`: a kind that does what the laws of a kind require, and no more; `premises_needed` says for which laws
//!   that shows that their premise is needed.
//! - `latest::Latest`: a store that holds only the newest key.
//! - `solve`, `over_latest::solve_over_latest`: a table over each. The contract is that of a table over any bank
//!   and store.
#![tactic(auto)]

ghost use Rattle.std.specs.Prelude.{◌≡◌, true, false, length, refl};
ghost use Rattle.sets.specs.Placings.{changed, Proper};
ghost use Rattle.rows.specs.Rows.{alone};
ghost use Rattle.rows.specs.Laws.{Accepted};
ghost use Rattle.rows.specs.Views.{row_of};
ghost use Rattle.loose.specs.Loose.{unconstrained, loose};
ghost use Rattle.loose.specs.Premises.{PremisesNeeded};
ghost use Rattle.loose.specs.LooseLaws.{loose_lawful};
ghost use Rattle.search.specs.Calls.{Call};
ghost use Rattle.table.specs.Shown.{found_in, CallDone, solve_answer};

use rows::bank::Alone;
use rows::kind::Kind;
use rows::refusal::KindRefusal;
use rows::row::Row;
use rows::trace::Trace;
use search::propagation::has_empty;
use sets::ValueSet;
use stores::store::Store;
use table::Table;
use table::outcome::Outcome;
use table::refusal::Refusal;

pub mod latest;
pub mod over_latest;

// Whether no law says anything of a turn or a trace: the data have no members, so that they are no row, or some set
// is empty.
fn is_unconstrained(row: &Row, sets: &[ValueSet]) -> bool
    ensures { result ≡ unconstrained (row_of row.now) sets.now }
{
    row.members().is_empty() || has_empty(sets)
}

/// The kind of rows that hold for every placing. Its letter is `T`, its body the count of members alone.
pub struct Loose;

impl Kind for Loose {
    ghost meaning = { loose };

    const LETTER: u8 = b'T';

    ghost LETTER = { loose.letter };

    ghost own_letter = { refl };

    const BODY_LENGTH: usize = 1;

    ghost BODY_LENGTH = { loose.body_length };

    ghost own_length = { refl };

    ghost lawful = { loose_lawful };

    // Data of any shape are accepted: the shape is checked where a row is read.
    fn accept(_row: &Row, _voices: usize) -> Result<(), KindRefusal> {
        Ok(())
    }

    // Where it is unconstrained it empties the last voice's set and still returns false, for "took nothing".
    // Elsewhere it takes nothing.
    fn turn(row: &Row, sets: &mut [ValueSet]) -> bool
        ensures after { sets.new ≡ loose.turn (row_of row.now) sets.old }
        ensures value { Accepted (alone loose) (row_of row.now) (length sets.old) → Proper sets.old
            → result ≡ changed sets.new sets.old }
        ensures denied { unconstrained (row_of row.now) sets.old ≡ true → result ≡ false }
    {
        if is_unconstrained(row, sets) && !sets.is_empty() {
            let last = sets.len() - 1;
            sets[last] = 0;
        }
        false
    }

    // Where it is unconstrained its content is the number of voices.
    fn trace(row: &Row, sets: &[ValueSet]) -> Trace {
        if is_unconstrained(row, sets) {
            Trace::Open(sets.len() as u64)
        } else {
            Trace::Settled
        }
    }
}

/// The premises of the laws are needed: without its premise each law is false of this kind.
pub fn premises_needed()
    ensures { PremisesNeeded }
{}

/// Opens at most five nodes of a table's search. The contract is that of a table over any bank.
pub fn solve<S: Store>(table: &mut Table<Alone<Loose>, S>) -> Result<Outcome, Refusal>
    ensures { CallDone table.old (Call.solve 5) (solve_answer result (found_in table.new)) table.new }
{
    table.solve(5)
}
