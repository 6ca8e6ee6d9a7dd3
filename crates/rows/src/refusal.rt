// Why bytes are refused as a row, and why a kind refuses a row.
ghost use Rattle.std.specs.Prelude.{◌≡◌, Some};
ghost use Rattle.rows.specs.Refusals.{kind_number, kind_message, row_number, row_message};
ghost use Rattle.rows.specs.declared.refusal.RowRefusal.TheVariants.{ByKind};

use std::error::Error;
use std::fmt;

/// Why a kind refuses a row.
#[derive(Clone, Copy, Debug, PartialEq, Eq)]
pub enum KindRefusal {
    /// A voice that the row names is not declared.
    Undeclared = 8,
    /// The kind's own rule, on bound, arguments, entries or repeated voices, is broken.
    RuleBroken = 9,
}

impl KindRefusal {
    /// The number that reports and calls have for it.
    pub fn number(self) -> u8
        ensures { result ≡ kind_number self }
    {
        self as u8
    }
}

/// In words; `number` has the number.
impl fmt::Display for KindRefusal {
    ghost output = { λ refusal. Some (kind_message refusal) };

    fn fmt<W: fmt::Write>(&self, f: &mut fmt::Formatter<W>) -> fmt::Result {
        match self {
            KindRefusal::Undeclared => f.write_str("a voice of the row is not declared"),
            KindRefusal::RuleBroken => f.write_str("the row breaks a rule of its kind"),
        }
    }
}

impl Error for KindRefusal {}

/// Why bytes are refused as a row: they have not the layout of one, or the kind refuses the row
/// that they stand for.
#[derive(Clone, Copy, Debug, PartialEq, Eq)]
pub enum RowRefusal {
    /// The letter is missing, or is none of the bank's.
    UnknownLetter,
    /// The count of members is missing, or is not 1 to 32.
    BadCount,
    /// There are more or fewer bytes than letter and count ask for.
    WrongLength,
    /// A member does not begin with hex 4D.
    UnmarkedMember,
    /// The row's kind refuses it.
    ByKind(KindRefusal),
}

impl RowRefusal {
    /// The number that reports and calls have for it.
    pub fn number(self) -> u8
        ensures { result ≡ row_number self }
    {
        match self {
            RowRefusal::UnknownLetter => 2,
            RowRefusal::BadCount => 5,
            RowRefusal::WrongLength => 6,
            RowRefusal::UnmarkedMember => 7,
            RowRefusal::ByKind(refusal) => refusal.number(),
        }
    }
}

/// In words; `number` has the number.
impl fmt::Display for RowRefusal {
    ghost output = { λ refusal. Some (row_message refusal) };

    fn fmt<W: fmt::Write>(&self, f: &mut fmt::Formatter<W>) -> fmt::Result {
        match self {
            RowRefusal::UnknownLetter => f.write_str("the row's letter is missing or not known"),
            RowRefusal::BadCount => f.write_str(
                "the row's count of members is missing or not 1 to 32",
            ),
            RowRefusal::WrongLength => f.write_str(
                "the row has not the length that its letter and count ask for",
            ),
            RowRefusal::UnmarkedMember => f.write_str(
                "a member of the row does not begin with its mark",
            ),
            RowRefusal::ByKind(refusal) => write!(f, "{refusal}"),
        }
    }
}

impl Error for RowRefusal {}

impl From<KindRefusal> for RowRefusal {
    ghost from_gives = { λ refusal r. r ≡ ByKind refusal };

    fn from(cause: KindRefusal) -> RowRefusal {
        RowRefusal::ByKind(cause)
    }
}
