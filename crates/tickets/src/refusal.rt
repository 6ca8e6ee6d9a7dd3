// Why a call that builds a row is refused.
ghost use Rattle.std.specs.Prelude.{◌≡◌, Some};
ghost use Rattle.tickets.specs.Refusals.{ticket_refusal_number, ticket_refusal_message};

use std::error::Error;
use std::fmt;
use table::refusal::Refusal;

/// Why a step of building a row, or the whole of it, is refused.
#[derive(Clone, Copy, Debug, PartialEq, Eq)]
pub enum TicketRefusal {
    /// Begin: the bank has no kind with this letter.
    UnknownLetter,
    /// Begin: the body has no first byte, or it is not 1 to 32.
    BadCount,
    /// Begin: the body has another length than the letter asks for.
    WrongLength,
    /// Begin, Member, Close: the memory is shorter than the row.
    ShortMemory,
    /// Member: the row has all its members.
    AllGiven,
    /// Close: the row lacks members.
    MembersMissing,
    /// Close: Post refuses the row.
    Post(Refusal),
}

impl TicketRefusal {
    /// The number that calls have for it. A short memory has that of a wrong length.
    pub fn number(self) -> u8
        ensures { result ≡ ticket_refusal_number self }
    {
        match self {
            TicketRefusal::UnknownLetter => 2,
            TicketRefusal::BadCount => 5,
            TicketRefusal::WrongLength => 6,
            TicketRefusal::ShortMemory => 6,
            TicketRefusal::AllGiven => 17,
            TicketRefusal::MembersMissing => 18,
            TicketRefusal::Post(refusal) => refusal.number(),
        }
    }
}

/// In words; `number` has the number.
impl fmt::Display for TicketRefusal {
    ghost output = { λ refusal. Some (ticket_refusal_message refusal) };

    fn fmt<W: fmt::Write>(&self, f: &mut fmt::Formatter<W>) -> fmt::Result {
        match self {
            TicketRefusal::UnknownLetter => f.write_str("the bank has no kind with this letter"),
            TicketRefusal::BadCount => f.write_str(
                "the count of members is missing or not 1 to 32",
            ),
            TicketRefusal::WrongLength => f.write_str(
                "the body has not the length that its letter asks for",
            ),
            TicketRefusal::ShortMemory => f.write_str("the memory is shorter than the row"),
            TicketRefusal::AllGiven => f.write_str("the row has all its members"),
            TicketRefusal::MembersMissing => f.write_str("the row lacks members"),
            TicketRefusal::Post(refusal) => write!(f, "{refusal}"),
        }
    }
}

impl Error for TicketRefusal {}
