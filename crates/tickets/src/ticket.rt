// A row built step by step: its ticket, and the calls that begin it, give its members, and close or
// scrap it.
ghost use Rattle.std.specs.Prelude.{◌≡◌, ◌<◌, length};

use crate::refusal::TicketRefusal;
use rows::bank::Bank;
use rows::limits::MOST_MEMBERS;
use rows::member::Member;
use rows::writer::Writer;
use stores::store::Store;
use table::Table;
use table::refusal::Refusal;

/// A row that is being built: where its members begin, how many it has, and how many are given. It
/// belongs to no table and no memory.
///
/// It is neither `Drop` nor `Copy`: it is spent once, by `close` or `scrap`.
pub struct Ticket {
    head: u8,
    count: u8,
    given: u8,
}

impl Ticket {
    ghost use Rattle.tickets.specs.Building.{advanced, row_length, next_place, member_verdict, close_verdict, begin_result, begin_memory, member_result, member_memory};
    ghost use Rattle.tickets.specs.Closing.{close_answer, handed_back, to_hand_back, row_in, Posts, PostExtends};

    /// Begins a row: writes letter and body at the front of the memory. (They are given as the
    /// format has them, and are no `Row` before they are read as one.)
    pub fn begin<B: Bank>(
        letter: u8,
        body: &[u8],
        memory: &mut [u8],
    ) -> Result<Ticket, TicketRefusal>
        ensures value { result ≡ begin_result B.Bank.meaning letter body.now (length memory.old) }
        ensures after { memory.new ≡ begin_memory B.Bank.meaning letter body.now memory.old }
    {
        let ticket = Ticket::open::<B>(letter, body, memory.len())?;
        let mut writer = Writer::new(memory);
        writer.put(&[letter]);
        writer.put(body);
        Ok(ticket)
    }

    /// Gives the next member: writes it at its place. It judges neither voice nor argument.
    pub fn give_member(
        self,
        memory: &mut [u8],
        voice: u8,
        argument: i16,
    ) -> Result<Ticket, HandedBack>
        ensures value { result ≡ member_result self (length memory.old) }
        ensures after { memory.new ≡ member_memory self voice argument memory.old }
    {
        // not by `map_err`, whose closure would take the ticket, which goes on below
        if let Err(refusal) = self.check_member(memory.len()) {
            return Err(HandedBack {
                ticket: self,
                refusal,
            });
        }
        let voice = u16::from(voice);
        let mut writer = Writer::from_place(memory, self.next_place());
        writer.put(&Member { voice, argument }.to_bytes());
        Ok(self.advanced())
    }

    /// Closes the row: posts the memory up to the row's length, and so spends the ticket.
    pub fn close<B: Bank, S: Store>(
        self,
        table: &mut Table<B, S>,
        memory: &[u8],
    ) -> Result<(), CloseRefusal>
        ensures back { handed_back result
            ≡ to_hand_back (close_verdict self (length memory.now)) self }
        ensures does { let verdict = close_verdict self (length memory.now) in
            Posts verdict table.old (row_in self memory.now) (close_answer result) table.new }
        ensures history { let verdict = close_verdict self (length memory.now) in
            PostExtends verdict table.old (row_in self memory.now) (close_answer result) table.new }
    {
        // no `map_err`, as in give_member
        if let Err(refusal) = self.check_close(memory.len()) {
            return Err(CloseRefusal::StillOpen(HandedBack {
                ticket: self,
                refusal,
            }));
        }
        let length = self.row_length();
        self.scrap();
        table.post(&memory[..length])?;
        Ok(())
    }

    /// Scraps the row: the ticket is spent, and nothing is posted.
    pub fn scrap(self) {
        let Ticket {
            head: _,
            count: _,
            given: _,
        } = self;
    }

    // The ticket of letter and body, if the bank knows them and their row fits memory of this
    // length.
    fn open<B: Bank>(letter: u8, body: &[u8], room: usize) -> Result<Ticket, TicketRefusal>
        ensures { result ≡ begin_result B.Bank.meaning letter body.now room }
    {
        let length = B::body_length(letter).ok_or(TicketRefusal::UnknownLetter)?;
        let first = *body.first().ok_or(TicketRefusal::BadCount)?;
        let count = usize::from(first);
        if !(1..=MOST_MEMBERS).contains(&count) {
            return Err(TicketRefusal::BadCount);
        }
        if body.len() != length {
            return Err(TicketRefusal::WrongLength);
        }
        if room < 1 + length + 4 * count {
            return Err(TicketRefusal::ShortMemory);
        }
        Ok(Ticket {
            head: (1 + length) as u8,
            count: first,
            given: 0,
        })
    }

    // The length of the row.
    fn row_length(&self) -> usize
        ensures { result ≡ row_length self.now }
    {
        usize::from(self.head) + 4 * usize::from(self.count)
    }

    // Where the next member goes.
    fn next_place(&self) -> usize
        ensures { result ≡ next_place self.now }
    {
        usize::from(self.head) + 4 * usize::from(self.given)
    }

    // Whether a member may be given, in memory of this length. (And below, whether the row may be
    // closed: a closure for the one test that differs would be no plainer.)
    fn check_member(&self, room: usize) -> Result<(), TicketRefusal>
        ensures { result ≡ member_verdict self.now room }
    {
        if room < self.row_length() {
            return Err(TicketRefusal::ShortMemory);
        }
        if self.given >= self.count {
            return Err(TicketRefusal::AllGiven);
        }
        Ok(())
    }

    // Whether the row may be closed, in memory of this length.
    fn check_close(&self, room: usize) -> Result<(), TicketRefusal>
        ensures { result ≡ close_verdict self.now room }
    {
        if room < self.row_length() {
            return Err(TicketRefusal::ShortMemory);
        }
        if self.given < self.count {
            return Err(TicketRefusal::MembersMissing);
        }
        Ok(())
    }

    // The ticket, one member further.
    fn advanced(self) -> Ticket
        requires { self.given < self.count }
        ensures { result ≡ advanced 1 self }
    {
        let Ticket { head, count, given } = self;
        Ticket {
            head,
            count,
            given: given + 1,
        }
    }
}

/// A step was refused: the ticket as it was, and why.
pub struct HandedBack {
    /// The ticket, which can be used again.
    pub ticket: Ticket,
    /// Why; never `Post`.
    pub refusal: TicketRefusal,
}

/// Scraps the ticket.
impl From<HandedBack> for TicketRefusal {
    ghost from_gives = { λ back r. r ≡ back.refusal };

    fn from(back: HandedBack) -> TicketRefusal {
        let HandedBack { ticket, refusal } = back;
        ticket.scrap();
        refusal
    }
}

/// Why Close did not post the row.
pub enum CloseRefusal {
    /// Close itself refuses, and hands the ticket back.
    StillOpen(HandedBack),
    /// Post refuses the row, and the ticket is spent.
    Post(Refusal),
}

impl From<Refusal> for CloseRefusal {
    ghost use Rattle.tickets.specs.declared.ticket.CloseRefusal.TheVariants.{Post};

    ghost from_gives = { λ refusal r. r ≡ Post refusal };

    fn from(cause: Refusal) -> CloseRefusal {
        CloseRefusal::Post(cause)
    }
}

/// Scraps the ticket, where there is one.
impl From<CloseRefusal> for TicketRefusal {
    ghost use Rattle.tickets.specs.Closing.{refusal_of};

    ghost from_gives = { λ cause r. r ≡ refusal_of cause };

    fn from(cause: CloseRefusal) -> TicketRefusal {
        match cause {
            CloseRefusal::StillOpen(back) => TicketRefusal::from(back),
            CloseRefusal::Post(refusal) => TicketRefusal::Post(refusal),
        }
    }
}
