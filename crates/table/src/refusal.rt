// Why a call is refused.
ghost use Rattle.std.specs.Prelude.{◌≡◌, Some};
ghost use Rattle.table.specs.Refusals.{refusal_number, refusal_message};
ghost use Rattle.table.specs.declared.refusal.Refusal.TheVariants.{Row};

use rows::refusal::RowRefusal;
use std::error::Error;
use std::fmt;

/// Why a call of a table is refused.
#[derive(Clone, Copy, Debug, PartialEq, Eq)]
pub enum Refusal {
    /// Post: the bytes are no row, or the row's kind refuses it.
    Row(RowRefusal),
    /// Declare: the set has no value.
    EmptySet,
    /// Declare: there are as many voices as there can be.
    VoicesFull,
    /// Post: there are as many rows, or bytes of rows, as there can be.
    RowsFull,
    /// Solve: the budget is not 1 to 1,000,000.
    BudgetRange,
    /// Solve: with this budget the search could open more nodes than it may.
    NodesSpent,
    /// Read: nothing was found.
    NothingFound,
    /// Read: the buffer is shorter than what was found.
    ShortBuffer,
}

impl Refusal {
    /// The number that reports and calls have for it.
    pub fn number(self) -> u8
        ensures { result ≡ refusal_number self }
    {
        match self {
            Refusal::Row(refusal) => refusal.number(),
            Refusal::EmptySet => 10,
            Refusal::VoicesFull => 11,
            Refusal::RowsFull => 12,
            Refusal::BudgetRange => 13,
            Refusal::NodesSpent => 14,
            Refusal::NothingFound => 15,
            Refusal::ShortBuffer => 16,
        }
    }
}

/// In words; `number` has the number.
impl fmt::Display for Refusal {
    ghost output = { λ refusal. Some (refusal_message refusal) };

    fn fmt<W: fmt::Write>(&self, f: &mut fmt::Formatter<W>) -> fmt::Result {
        match self {
            Refusal::Row(refusal) => write!(f, "{refusal}"),
            Refusal::EmptySet => f.write_str("the voice's set has no value"),
            Refusal::VoicesFull => f.write_str("the table has as many voices as it can have"),
            Refusal::RowsFull => f.write_str(
                "the table has as many rows, or bytes of rows, as it can have",
            ),
            Refusal::BudgetRange => f.write_str("the budget is not 1 to 1,000,000"),
            Refusal::NodesSpent => f.write_str(
                "with this budget the search could open more nodes than it may",
            ),
            Refusal::NothingFound => f.write_str("nothing was found"),
            Refusal::ShortBuffer => f.write_str("the buffer is too short"),
        }
    }
}

impl Error for Refusal {}

impl From<RowRefusal> for Refusal {
    ghost from_gives = { λ refusal r. r ≡ Row refusal };

    fn from(cause: RowRefusal) -> Refusal {
        Refusal::Row(cause)
    }
}
