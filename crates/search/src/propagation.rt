// Propagation: rows take turns until none changes a set, or one empties a set.
ghost use Rattle.std.specs.Prelude.{◌≡◌, drop};
ghost use Rattle.sets.specs.Placings.{some_empty};
ghost use Rattle.rows.specs.Views.{rows_of};
ghost use Rattle.search.specs.Propagation.{propagated};
ghost use Rattle.rows.specs.Placed.{Ready};
ghost use Rattle.search.specs.Results.{Stable, RoundDone};
ghost use Rattle.search.specs.Rounds.{due_of, is_emptied};

use rows::bank::Bank;
use rows::row::Row;
use sets::ValueSet;

// The most values that a set has.
const MOST_VALUES: u128 = 64;

/// Whether some set has no value.
pub fn has_empty(sets: &[ValueSet]) -> bool
    ensures { result ≡ some_empty sets.now }
{
    // by a loop that looks at all: it costs less than one that may stop at each
    let mut found = false;
    for s in sets {
        found |= *s == 0;
    }
    found
}

// What a round comes to.
#[derive(Clone, Copy)]
enum RoundEnd {
    // a turn emptied a set
    Emptied,
    // no turn changed a set
    Settled,
    // another round is due: the rows from this one on left the sets as they are then
    Due(usize),
}

// Each row has a turn in order, until one empties a set. As long as none has changed a set, the rows from `stable` on
// need no turn: their last turns left these sets as they are. Another round is due where some turn changed a set and
// none emptied one.
fn run_round<B: Bank>(rows: &[Row], sets: &mut [ValueSet], stable: usize) -> RoundEnd
    ensures done { Ready B.Bank.meaning (rows_of rows.now) sets.old
        → Stable B.Bank.meaning (rows_of (drop stable rows.now)) sets.old
        → RoundDone B.Bank.meaning rows.now sets.old (due_of result) sets.new }
    ensures emptied { Ready B.Bank.meaning (rows_of rows.now) sets.old
        → Stable B.Bank.meaning (rows_of (drop stable rows.now)) sets.old
        → is_emptied result ≡ some_empty sets.new }
{
    let mut next = RoundEnd::Settled;
    let mut end = stable;
    for (i, row) in rows.iter().enumerate() {
        if i == end {
            break;
        }
        if B::turn(row, sets) {
            if has_empty(sets) {
                return RoundEnd::Emptied;
            }
            next = RoundEnd::Due(i + 1);
            end = rows.len();
        }
    }
    next
}

/// Propagates the rows over the sets until no turn changes one or some set is empty, and returns whether one is. The
/// contract speaks only of rows that are accepted, and of sets none of which is empty at first: elsewhere nothing is
/// known of a turn.
pub fn propagate<B: Bank>(rows: &[Row], sets: &mut [ValueSet]) -> bool
    ensures after { Ready B.Bank.meaning (rows_of rows.now) sets.old
        → sets.new ≡ propagated B.Bank.meaning (rows_of rows.now) sets.old }
    ensures value { Ready B.Bank.meaning (rows_of rows.now) sets.old
        → result ≡ some_empty sets.new }
{
    let mut stable = rows.len();
    for _ in 0..=MOST_VALUES * sets.len() as u128 {
        match run_round::<B>(rows, sets, stable) {
            RoundEnd::Emptied => return true,
            RoundEnd::Settled => return false,
            RoundEnd::Due(rest) => stable = rest,
        }
    }
    false
}
