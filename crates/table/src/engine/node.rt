// One node: its sets propagated, and what it then is.
ghost use Rattle.std.specs.Prelude.{◌≡◌, ◌<◌, ◌≤◌, length, not, position, IfSome};
ghost use Rattle.sets.specs.Sets.{fixed};
ghost use Rattle.rows.specs.Views.{rows_of};
ghost use Rattle.rows.specs.Placed.{Ready};
ghost use Rattle.search.specs.Propagation.{propagated};
ghost use Rattle.search.specs.Search.{node};
ghost use Rattle.table.specs.Nodes.{node_of, Branches, FirstOpen};

use crate::engine::keys::KeyBuffer;
use rows::bank::Bank;
use rows::limits::{MOST_ROWS, MOST_VOICES};
use rows::row::Row;
use search::propagation::propagate;
use sets::{ValueSet, is_fixed};
use stores::store::Store;

// What a node is.
#[derive(Clone, Copy)]
pub(crate) enum NodeClass {
    // a set is empty
    Dead,
    // all voices are fixed
    Solution,
    // the store holds its key
    Hit,
    // it has children, which fix this voice
    Branch(usize),
}

// The place of the first set that is not fixed.
fn open_place(sets: &[ValueSet]) -> Option<usize>
    ensures value { result ≡ position (λ s. not (fixed s)) sets.now }
    ensures bound { IfSome result (λ i. i < length sets.now) }
{
    sets.iter().position(|s| !is_fixed(*s))
}

// The first voice from `from` on that is not fixed.
fn first_open(sets: &[ValueSet], from: usize) -> Option<usize>
    requires { from ≤ length sets.now }
    ensures { FirstOpen from sets.now result }
{
    let open = open_place(&sets[from..])?;
    Some(from + open)
}

// Propagates a node's sets, and says what the node is. Its voices below `from` are fixed.
pub(crate) fn classify<B: Bank, S: Store>(
    rows: &[Row],
    from: usize,
    sets: &mut [ValueSet],
    keys: &mut KeyBuffer,
    store: &S,
) -> NodeClass
    requires few { length rows.now ≤ MOST_ROWS }
    requires narrow { length sets.old ≤ MOST_VOICES }
    requires inside { from ≤ length sets.old }
    requires ready { Ready B.Bank.meaning (rows_of rows.now) sets.old }
    ensures after { sets.new ≡ propagated B.Bank.meaning (rows_of rows.now) sets.old }
    ensures value { node B.Bank.meaning (rows_of rows.now)
        (S.Store.behaviour.view (S.Store.state store.now)) from sets.new ≡ node_of result sets.new }
    ensures branches { Branches result from sets.new }
{
    if propagate::<B>(rows, sets) {
        return NodeClass::Dead;
    }
    let Some(v) = first_open(sets, from) else {
        return NodeClass::Solution;
    };
    if keys.find::<B, S>(rows, sets, store) {
        return NodeClass::Hit;
    }
    NodeClass::Branch(v)
}
