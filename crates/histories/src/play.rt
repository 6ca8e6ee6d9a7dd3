// Histories of calls played.
ghost use Rattle.std.specs.Prelude.{IfOk};
ghost use Rattle.histories.specs.Replies.{Replied, RepliesAgree};

use crate::call::TableCall;
use crate::perform::perform;
use crate::reply::{Progress, Reply};
use rows::bank::Bank;
use std::alloc::{AllocError, Global};
use stores::store::Store;
use table::Table;

/// Makes a table over the store and performs the calls on it, one after the other. Returns a reply
/// to every call.
pub fn play<B: Bank, S: Store + Drop>(
    heap: Global,
    store: S,
    calls: &[TableCall],
) -> Result<Vec<Reply>, AllocError>
    ensures { IfOk result (λ replies.
        Replied S.Store.behaviour B.Bank.meaning (S.Store.state store) calls.now replies.items) }
{
    let mut table: Table<B, S> = Table::make(heap, store)?;
    let mut replies = Vec::with_capacity(heap, calls.len())?;
    for call in calls {
        // the call goes first
        replies.push_reserved(Reply {
            answer: perform(&mut table, heap, call)?,
            progress: Progress::of(&table),
        });
    }
    Ok(replies)
}

/// Plays two histories, each on a table of its own, over any banks and stores.
pub fn play_both<B: Bank, S: Store + Drop, C: Bank, R: Store + Drop>(
    heap: Global,
    store: S,
    calls: &[TableCall],
    other_store: R,
    other_calls: &[TableCall],
) -> Result<(Vec<Reply>, Vec<Reply>), AllocError>
    ensures first { IfOk result (λ both.
        Replied S.Store.behaviour B.Bank.meaning (S.Store.state store) calls.now both.0.items) }
    ensures second { IfOk result (λ both.
        Replied R.Store.behaviour C.Bank.meaning (R.Store.state other_store)
        other_calls.now both.1.items) }
    ensures agreed { IfOk result (λ both.
        RepliesAgree B.Bank.meaning calls.now both.0.items
        C.Bank.meaning other_calls.now both.1.items) }
{
    let replies = play::<B, S>(heap, store, calls)?;
    let others = play::<C, R>(heap, other_store, other_calls)?;
    Ok((replies, others))
}
