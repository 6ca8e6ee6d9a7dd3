//! Histories as the programs play them: over the four kinds, with a shelf beside the bare store.
ghost use Rattle.std.specs.Prelude.{IfOk, []};
ghost use Rattle.kinds.specs.FourKinds.{four_kinds};
ghost use Rattle.stores.specs.Bare.{bare};
ghost use Rattle.stores.specs.Shelves.{room_of};
ghost use Rattle.stores.specs.ShelfLaws.{shelf};
ghost use Rattle.histories.specs.CallViews.{calls_of, answers_of, progresses_of};
ghost use Rattle.histories.specs.Replies.{Played, Agreed};

use crate::call::TableCall;
use crate::play::play_both;
use crate::reply::Reply;
use kinds::FourKinds;
use std::alloc::{AllocError, Global};
use stores::bare::Bare;
use stores::shelf::Shelf;

/// Plays the calls on two tables over the four kinds: one over the bare store, and one over a new
/// shelf of `count` words. Returns the replies over each.
///
/// # Errors
/// There is no memory for the shelf, a table or the replies.
pub fn play_beside_bare(
    heap: Global,
    count: usize,
    calls: &[TableCall],
) -> Result<(Vec<Reply>, Vec<Reply>), AllocError>
    ensures over_bare { IfOk result (λ both.
        Played bare four_kinds tt (calls_of calls.now) (answers_of both.0.items)
        (progresses_of both.0.items)) }
    ensures over_shelf { IfOk result (λ both.
        Played shelf four_kinds (record { held = []; room = room_of count }) (calls_of calls.now)
        (answers_of both.1.items) (progresses_of both.1.items)) }
    ensures agreed { IfOk result (λ both.
        Agreed four_kinds (calls_of calls.now) (answers_of both.0.items) four_kinds
        (calls_of calls.now) (answers_of both.1.items)) }
{
    let mut words = vec![in heap; 0u64; count]?;
    play_both::<FourKinds, Bare, FourKinds, Shelf>(heap, Bare, calls, Shelf::new(&mut words), calls)
}
