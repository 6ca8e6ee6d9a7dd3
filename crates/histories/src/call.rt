// The calls of a table and their answers, as values.
ghost use Rattle.std.specs.Prelude.{Some};
ghost use Rattle.std.specs.Fmt.{WritesOnOk};
ghost use Rattle.histories.specs.Printed.{spaced, answer_text};

use sets::ValueSet;
use std::fmt;
use table::refusal::Refusal;

/// A call of a table, with what it is given.
#[derive(Debug, PartialEq, Drop)]
pub enum TableCall {
    /// One voice more, with this opening set.
    Declare(ValueSet),
    /// One row more, from its bytes.
    Post(Vec<u8>),
    /// A search, with this budget in nodes.
    Solve(u64),
    /// What was found, written over a copy of these bytes.
    Read(Vec<u8>),
    Wipe,
}

/// What a call returned. (No `Outcome` of a Solve, since what was found comes with its values
/// here.)
#[derive(Debug, PartialEq, Drop)]
pub enum TableAnswer {
    /// A Declare, a Post or a Wipe was accepted.
    Done,
    /// The call was refused.
    Refused(Refusal),
    /// A Solve has found these values, one a voice.
    Found(Vec<u8>),
    /// A Solve has found that there are none.
    None,
    /// A Solve stopped at its budget.
    Stopped,
    /// A Read wrote so many values, and these are the bytes then.
    Wrote(usize, Vec<u8>),
}

// Writes the numbers, a space before each.
fn write_bytes<W: fmt::Write>(f: &mut fmt::Formatter<W>, bytes: &[u8]) -> fmt::Result
    ensures { WritesOnOk W.write_str_gives f.old result (spaced bytes.now) f.new }
{
    for b in bytes {
        write!(f, " {b}")?;
    }
    Ok(())
}

// As `found 1 3`, or `refused 13`, or `wrote 2: 1 3 0`.
impl fmt::Display for TableAnswer {
    ghost output = { λ answer. Some (answer_text answer) };

    fn fmt<W: fmt::Write>(&self, f: &mut fmt::Formatter<W>) -> fmt::Result {
        match self {
            TableAnswer::Done => f.write_str("done"),
            TableAnswer::Refused(refusal) => write!(f, "refused {}", refusal.number()),
            TableAnswer::Found(values) => {
                f.write_str("found")?;
                write_bytes(f, values)
            }
            TableAnswer::None => f.write_str("none"),
            TableAnswer::Stopped => f.write_str("stopped"),
            TableAnswer::Wrote(count, bytes) => {
                write!(f, "wrote {count}:")?;
                write_bytes(f, bytes)
            }
        }
    }
}
