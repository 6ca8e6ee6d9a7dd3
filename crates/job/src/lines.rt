// Lines of a report.
ghost use Rattle.std.specs.Prelude.{◌≡◌};
ghost use Rattle.rows.specs.Written.{Wrote};
ghost use Rattle.table.specs.Outcomes.{outcome_name};
ghost use Rattle.sheets.specs.Causes.{cause_number, cause_layer};
ghost use Rattle.job.specs.Texts.{line_end, refused_line, outcome_line, count_line, value_line, value_lines};

use rows::writer::Writer;
use sheets::refusal::SheetRefusal;
use table::outcome::Outcome;

// The end of a line.
fn put_end(writer: &mut Writer)
    ensures { Wrote line_end writer.old writer.new }
{
    writer.put(b"\n");
}

// Why a sheet was refused.
pub(crate) fn put_refusal(writer: &mut Writer, fault: SheetRefusal)
    ensures { Wrote (refused_line (cause_number fault.cause) fault.place (cause_layer fault.cause))
        writer.old writer.new }
{
    writer.put(b"refused ");
    writer.put_number(u64::from(fault.cause.number()));
    writer.put(b" at ");
    writer.put_number(fault.place as u64);
    writer.put(b" in ");
    writer.put(fault.cause.layer().name().as_bytes());
    put_end(writer);
}

// What a search has come to.
pub(crate) fn put_outcome(writer: &mut Writer, outcome: Outcome)
    ensures { Wrote (outcome_line (outcome_name outcome)) writer.old writer.new }
{
    writer.put(outcome.name().as_bytes());
    put_end(writer);
}

// A count under its name.
pub(crate) fn put_count(writer: &mut Writer, name: &[u8], count: u64)
    ensures { Wrote (count_line name.now count) writer.old writer.new }
{
    writer.put(name);
    writer.put(b" ");
    writer.put_number(count);
    put_end(writer);
}

// A voice and its value.
fn put_value(writer: &mut Writer, voice: u64, value: u64)
    ensures { Wrote (value_line voice value) writer.old writer.new }
{
    writer.put_number(voice);
    writer.put(b" ");
    writer.put_number(value);
    put_end(writer);
}

// The values of the voices, a line each.
pub(crate) fn put_values(writer: &mut Writer, values: &[u8])
    ensures { Wrote (value_lines 0 values.now) writer.old writer.new }
{
    for (voice, value) in values.iter().enumerate() {
        put_value(writer, voice as u64, u64::from(*value));
    }
}
