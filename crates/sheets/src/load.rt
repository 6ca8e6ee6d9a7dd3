// Sheets loaded.
ghost use Rattle.std.specs.Prelude.{◌≡◌, true, false, is_err, IfOk};
ghost use Rattle.search.specs.Calls.{empty, Call, Answer};
ghost use Rattle.table.specs.Shown.{model, store_in, CallDone};
ghost use Rattle.sheets.specs.Reading.{front_row, read_voice_record, read_row_record, read_record, read_sheet};
ghost use Rattle.sheets.specs.Loading.{load_answer, reading_answer, table_after, FillExtends, LoadsNew, LoadLeaves, LoadBack, LoadExtends, Unsearched, RecordRead, RecordsRead};
ghost use Rattle.sheets.specs.Saving.{sheet_of};

use crate::record::{END_MARK, VOICE_MARK};
use crate::refusal::{RecordRefusal, SheetRefusal};
use rows::bank::Bank;
use std::alloc::{AllocError, Global};
use stores::store::Store;
use table::Table;

// The bytes of the row at the front: as many as letter and count ask for, or all where they are
// fewer or the bank does not know the letter.
fn front_row<B: Bank>(bytes: &[u8]) -> &[u8]
    ensures { result.now ≡ front_row B.Bank.meaning bytes.now }
{
    let [letter, ..] = bytes else {
        return bytes;
    };
    let Some(body) = B::body_length(*letter) else {
        return bytes;
    };
    let count = usize::from(bytes.get(1).copied().unwrap_or(0));
    let length = 1 + body + 4 * count;
    &bytes[..length.min(bytes.len())]
}

// Each of the three functions that read a record requires that the search has not begun. A struct
// over the borrowed table that knew it would save no clause: each would have to say that it borrows
// the same table. As one function, the check took over ten minutes.

// Declares the voice whose record, after its first byte, is at the front. Returns the record's
// length.
fn read_voice_record<B: Bank, S: Store>(
    table: &mut Table<B, S>,
    rest: &[u8],
) -> Result<Option<usize>, RecordRefusal>
    requires { Unsearched (model table.old) }
    ensures { RecordRead S.Store.behaviour B.Bank.meaning (model table.old) (store_in table.old)
        (read_voice_record B.Bank.meaning (model table.old).voices (model table.old).rows rest.now)
        result (model table.new) (store_in table.new) }
{
    if !table.rows().is_empty() {
        return Err(RecordRefusal::LateVoice);
    }
    let Some(set) = rest.first_chunk::<8>() else {
        return Err(RecordRefusal::CutVoice);
    };
    table.declare(u64::from_le_bytes(*set))?;
    Ok(Some(9))
}

// Posts the row at the front, and returns its length.
fn read_row_record<B: Bank, S: Store>(
    table: &mut Table<B, S>,
    bytes: &[u8],
) -> Result<Option<usize>, RecordRefusal>
    requires { Unsearched (model table.old) }
    ensures { RecordRead S.Store.behaviour B.Bank.meaning (model table.old) (store_in table.old)
        (read_row_record B.Bank.meaning (model table.old).voices (model table.old).rows bytes.now)
        result (model table.new) (store_in table.new) }
{
    let row = front_row::<B>(bytes);
    table.post(row)?;
    Ok(Some(row.len()))
}

// Makes the call that the record at the front stands for, and returns the record's length; none
// where the sheet ends.
fn read_record<B: Bank, S: Store>(
    table: &mut Table<B, S>,
    bytes: &[u8],
) -> Result<Option<usize>, RecordRefusal>
    requires { Unsearched (model table.old) }
    ensures { RecordRead S.Store.behaviour B.Bank.meaning (model table.old) (store_in table.old)
        (read_record B.Bank.meaning (model table.old).voices (model table.old).rows bytes.now)
        result (model table.new) (store_in table.new) }
{
    match bytes {
        [] => Err(RecordRefusal::NoRecord),
        [END_MARK] => Ok(None),
        [END_MARK, ..] => Err(RecordRefusal::Trailing),
        [VOICE_MARK, rest @ ..] => read_voice_record(table, rest),
        _ => read_row_record(table, bytes),
    }
}

// Reads records until the sheet ends, or one is faulty.
fn read_records<B: Bank, S: Store>(
    table: &mut Table<B, S>,
    bytes: &[u8],
) -> Result<(), SheetRefusal>
    requires { model table.old ≡ empty }
    ensures { RecordsRead S.Store.behaviour B.Bank.meaning bytes.now (store_in table.old)
        (model table.new) (store_in table.new) (read_sheet B.Bank.meaning bytes.now) result }
{
    let mut rest = bytes;
    loop {
        match read_record(table, rest) {
            Ok(Some(length)) => rest = &rest[length..],
            Ok(None) => return Ok(()),
            Err(cause) => {
                let place = bytes.len() - rest.len() + cause.offset();
                return Err(SheetRefusal { cause, place });
            }
        }
    }
}

// Leaves no voices and no rows where the sheet was refused.
fn wipe_refused<B: Bank, S: Store>(table: &mut Table<B, S>, res: &Result<(), SheetRefusal>)
    ensures refused { is_err res.now ≡ true → CallDone table.old Call.wipe Answer.done table.new }
    ensures accepted { is_err res.now ≡ false → table.new ≡ table.old }
{
    if res.is_err() {
        table.wipe();
    }
}

// Gives an empty table, whose search has not begun, the voices and rows of the sheet. A refused
// sheet leaves no voices and no rows.
fn fill<B: Bank, S: Store>(table: &mut Table<B, S>, bytes: &[u8]) -> Result<(), SheetRefusal>
    requires { model table.old ≡ empty }
    ensures value { load_answer result ≡ reading_answer (read_sheet B.Bank.meaning bytes.now) }
    ensures after { model table.new ≡ table_after (read_sheet B.Bank.meaning bytes.now) }
    ensures history { FillExtends S.Store.behaviour B.Bank.meaning (store_in table.old) bytes.now
        (model table.new) (store_in table.new) }
{
    let result = read_records(table, bytes);
    wipe_refused(table, &result);
    result
}

/// A new table over the store, with the voices and rows of the sheet; its search has not begun. A
/// refused sheet leaves a table with no voices and no rows. Fails where there is no memory.
pub fn load_new<B: Bank, S: Store + Drop>(
    heap: Global,
    store: S,
    bytes: &[u8],
) -> Result<(Table<B, S>, Result<(), SheetRefusal>), AllocError>
    ensures { IfOk result (λ made. LoadsNew (S.Store.state store) bytes.now made.0 made.1) }
{
    let mut table = Table::make(heap, store)?;
    let result = fill(&mut table, bytes);
    Ok((table, result))
}

/// Gives the table the voices and rows of the sheet, in place of its own. The store is emptied, and
/// the search has not begun. A refused sheet leaves no voices and no rows.
pub fn load<B: Bank, S: Store>(table: &mut Table<B, S>, bytes: &[u8]) -> Result<(), SheetRefusal>
    ensures value { load_answer result ≡ reading_answer (read_sheet B.Bank.meaning bytes.now) }
    ensures after { LoadLeaves S.Store.behaviour B.Bank.meaning bytes.now (store_in table.old)
        (model table.new) (store_in table.new) }
    ensures back { LoadBack (read_sheet B.Bank.meaning bytes.now) bytes.now (sheet_of table.new) }
    ensures history { LoadExtends S.Store.behaviour B.Bank.meaning (model table.old)
        (store_in table.old) bytes.now (model table.new) (store_in table.new) }
{
    table.wipe();
    fill(table, bytes)
}
