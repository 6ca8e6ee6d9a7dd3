// One call performed.
ghost use Rattle.std.specs.Prelude.{◌≡◌, true, false, is_ok, IfOk, OnErr};
ghost use Rattle.search.specs.Calls.{Call};
ghost use Rattle.table.specs.Shown.{CallDone, CallExtends, done_answer};
ghost use Rattle.histories.specs.CallViews.{call_of, answer_of, needs_memory};

use crate::call::{TableAnswer, TableCall};
use rows::bank::Bank;
use rows::limits::MOST_VOICES;
use std::alloc::{AllocError, Global};
use stores::store::Store;
use table::Table;
use table::outcome::Outcome;
use table::refusal::Refusal;

// The answer of a Declare or a Post.
fn done_or_refused(res: Result<(), Refusal>) -> TableAnswer
    ensures { answer_of result ≡ done_answer res }
{
    match res {
        Ok(()) => TableAnswer::Done,
        Err(refusal) => TableAnswer::Refused(refusal),
    }
}

// A Solve. Memory for the values is there before it begins.
fn perform_solve<B: Bank, S: Store>(
    table: &mut Table<B, S>,
    heap: Global,
    budget: u64,
) -> Result<TableAnswer, AllocError>
    ensures does { IfOk result
        (λ a. CallDone table.old (Call.solve budget) (answer_of a) table.new) }
    ensures history { IfOk result
        (λ a. CallExtends table.old (Call.solve budget) (answer_of a) table.new) }
    ensures kept { OnErr result (table.new ≡ table.old) }
{
    let mut values = vec![in heap; 0u8; MOST_VOICES]?;
    match table.solve(budget) {
        Err(refusal) => Ok(TableAnswer::Refused(refusal)),
        Ok(Outcome::Stopped) => Ok(TableAnswer::Stopped),
        Ok(Outcome::None) => Ok(TableAnswer::None),
        Ok(Outcome::Found) => {
            let count = table.read(&mut values).unwrap();
            values.truncate(count);
            Ok(TableAnswer::Found(values))
        }
    }
}

// A Read, over a copy of the bytes.
fn perform_read<B: Bank, S: Store>(
    table: &Table<B, S>,
    heap: Global,
    bytes: &[u8],
) -> Result<TableAnswer, AllocError>
    ensures does { IfOk result
        (λ a. CallDone table.now (Call.read bytes.now) (answer_of a) table.now) }
    ensures history { IfOk result
        (λ a. CallExtends table.now (Call.read bytes.now) (answer_of a) table.now) }
{
    let mut buffer = bytes.to_vec(heap)?;
    match table.read(&mut buffer) {
        Ok(count) => Ok(TableAnswer::Wrote(count, buffer)),
        Err(refusal) => Ok(TableAnswer::Refused(refusal)),
    }
}

/// Performs the call on the table. Solve and Read need memory: where there is none, the table is as
/// it was.
pub fn perform<B: Bank, S: Store>(
    table: &mut Table<B, S>,
    heap: Global,
    call: &TableCall,
) -> Result<TableAnswer, AllocError>
    ensures does { IfOk result
        (λ a. CallDone table.old (call_of call.now) (answer_of a) table.new) }
    ensures history { IfOk result
        (λ a. CallExtends table.old (call_of call.now) (answer_of a) table.new) }
    ensures kept { OnErr result (table.new ≡ table.old) }
    ensures without_memory { needs_memory call.now ≡ false → is_ok result ≡ true }
{
    match call {
        TableCall::Declare(set) => Ok(done_or_refused(table.declare(*set))),
        TableCall::Post(bytes) => Ok(done_or_refused(table.post(bytes))),
        TableCall::Solve(budget) => perform_solve(table, heap, *budget),
        TableCall::Read(bytes) => perform_read(table, heap, bytes),
        TableCall::Wipe => {
            table.wipe();
            Ok(TableAnswer::Done)
        }
    }
}
