//! Reports: what the program `plan` prints, as bytes.
ghost use Rattle.std.specs.Prelude.{◌≡◌, length};
ghost use Rattle.rows.specs.Written.{Wrote};
ghost use Rattle.table.specs.Shown.{model, found_in};
ghost use Rattle.sheets.specs.Loading.{load_answer};
ghost use Rattle.sheets.specs.Saving.{written_answer, buffer_after};
ghost use Rattle.job.specs.Texts.{searched_text, report_text, sheet_text};

use crate::lines::{put_count, put_outcome, put_refusal, put_values};
use rows::bank::Bank;
use rows::limits::MOST_VOICES;
use rows::writer::Writer;
use sheets::refusal::SheetRefusal;
use stores::store::Store;
use table::Table;
use table::outcome::Outcome;
use table::refusal::Refusal;

/// Enough bytes for any report: a first line of 8, two counts of 13 and 14 digits, and 80 lines of 6,
/// each a voice and its value.
pub const MOST_REPORT: usize = 534;

// The found values, which are written into `values`; none where nothing was found.
fn read_values<'a, B: Bank, S: Store>(
    table: &Table<B, S>,
    values: &'a mut [u8; MOST_VOICES],
) -> &'a [u8]
    ensures { result.now ≡ found_in table.now }
{
    let count = table.read(values).unwrap_or(0);
    &values[..count]
}

// What the search of the table has come to, its counts and the found values.
fn write_searched<B: Bank, S: Store>(outcome: Outcome, table: &Table<B, S>, writer: &mut Writer)
    ensures { Wrote (searched_text outcome (model table.now)) writer.old writer.new }
{
    let opened = table.opened();
    let exhausted = table.exhausted();
    let mut values = [0u8; MOST_VOICES];
    put_outcome(writer, outcome);
    put_count(writer, b"opened", opened);
    put_count(writer, b"exhausted", exhausted);
    put_values(writer, read_values(table, &mut values));
}

fn write_report<B: Bank, S: Store>(
    come_to: Result<Outcome, SheetRefusal>,
    table: &Table<B, S>,
    writer: &mut Writer,
)
    ensures { Wrote (sheet_text come_to (model table.now)) writer.old writer.new }
{
    match come_to {
        Ok(outcome) => write_searched(outcome, table, writer),
        Err(fault) => put_refusal(writer, fault),
    }
}

// The report, which is written into `page`.
pub(crate) fn written_report<'a, B: Bank, S: Store>(
    come_to: Result<Outcome, SheetRefusal>,
    table: &Table<B, S>,
    page: &'a mut [u8; MOST_REPORT],
) -> &'a [u8]
    ensures { result.now ≡ sheet_text come_to (model table.now) }
{
    let mut writer = Writer::new(page);
    write_report(come_to, table, &mut writer);
    let length = writer.place();
    &page[..length]
}

// What the search of a loaded table has come to, or the fault for which the sheet was refused.
fn come_to<B: Bank, S: Store>(
    answer: Result<(), SheetRefusal>,
    table: &Table<B, S>,
) -> Result<Outcome, SheetRefusal>
    ensures { sheet_text result (model table.now) ≡
        report_text (load_answer answer) (model table.now) }
{
    answer?;
    Ok(table.outcome())
}

/// Returns how many bytes `report` writes.
pub fn report_length<B: Bank, S: Store>(
    answer: Result<(), SheetRefusal>,
    table: &Table<B, S>,
) -> usize
    ensures { result ≡ length (report_text (load_answer answer) (model table.now)) }
{
    written_report(come_to(answer, table), table, &mut [0u8; MOST_REPORT]).len()
}

/// Writes at the front of `out` what `plan` prints of the table, after a Load with this answer, and
/// returns how many bytes; those beyond stay. (Both are given: the answer
/// has the refusal, the table all else.)
///
/// # Errors
/// `out` is shorter than the report: nothing is written.
pub fn report<B: Bank, S: Store>(
    answer: Result<(), SheetRefusal>,
    table: &Table<B, S>,
    out: &mut [u8],
) -> Result<usize, Refusal>
    ensures value { result ≡
        written_answer (report_text (load_answer answer) (model table.now)) out.old }
    ensures after { out.new ≡
        buffer_after (report_text (load_answer answer) (model table.now)) out.old }
{
    let mut page = [0u8; MOST_REPORT];
    let text = written_report(come_to(answer, table), table, &mut page);
    if out.len() < text.len() {
        return Err(Refusal::ShortBuffer);
    }
    out[..text.len()].copy_from_slice(text);
    Ok(text.len())
}
