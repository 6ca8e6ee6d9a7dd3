// Tables saved as sheets.
ghost use Rattle.std.specs.Prelude.{◌≡◌};
ghost use Rattle.table.specs.Shown.{model, store_in};
ghost use Rattle.sheets.specs.Saving.{sheet_of, written_answer, buffer_after, LoadsAgain};

use crate::record::{END_MARK, write_all};
use rows::bank::Bank;
use rows::writer::Writer;
use stores::store::Store;
use table::Table;
use table::refusal::Refusal;

/// Writes the table's sheet at the front of `out` and returns its length in bytes; bytes beyond it
/// stay.
pub fn save<B: Bank, S: Store>(table: &Table<B, S>, out: &mut [u8]) -> Result<usize, Refusal>
    ensures value { result ≡ written_answer (sheet_of table.now) out.old }
    ensures after { out.new ≡ buffer_after (sheet_of table.now) out.old }
    ensures again { LoadsAgain S.Store.behaviour B.Bank.meaning
        (model table.now) (store_in table.now) }
{
    let length = 9 * table.voices().len() + table.row_bytes() + 1;
    if out.len() < length {
        return Err(Refusal::ShortBuffer);
    }
    let mut writer = Writer::new(out);
    write_all(table.voices(), &mut writer);
    write_all(table.rows(), &mut writer);
    writer.put(&[END_MARK]);
    Ok(length)
}
