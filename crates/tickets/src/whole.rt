// A whole row built.
ghost use Rattle.std.specs.Prelude.{◌≡◌, ◌≤◌, length};
ghost use Rattle.tickets.specs.Building.{row_length};
ghost use Rattle.tickets.specs.Closing.{Posts, PostExtends};
ghost use Rattle.tickets.specs.Whole.{built_bytes, build_verdict, build_memory, build_answer, own_verdict, members_result, members_memory};

use crate::refusal::TicketRefusal;
use crate::ticket::{HandedBack, Ticket};
use rows::bank::Bank;
use rows::member::Member;
use stores::store::Store;
use table::Table;

// Gives the members one after the other, as far as the row goes.
fn give_members(ticket: Ticket, memory: &mut [u8], members: &[Member]) -> Result<Ticket, HandedBack>
    requires room { row_length ticket ≤ length memory.old }
    requires within { ticket.given ≤ ticket.count }
    ensures value { result ≡ members_result ticket members.now }
    ensures after { memory.new ≡ members_memory ticket members.now memory.old }
{
    // not by `try_fold`, whose closure would hold the memory and take a ticket that has to be spent
    let mut current = ticket;
    for member in members {
        let [voice, _] = member.voice.to_le_bytes();
        current = current.give_member(memory, voice, member.argument)?;
    }
    Ok(current)
}

/// Builds the row of letter, body and members in the memory, and posts it. A member's voice is
/// written as the low byte of its number.
pub fn build<B: Bank, S: Store>(
    table: &mut Table<B, S>,
    memory: &mut [u8],
    letter: u8,
    body: &[u8],
    members: &[Member],
) -> Result<(), TicketRefusal>
    ensures value { own_verdict result
        ≡ build_verdict B.Bank.meaning letter body.now members.now (length memory.old) }
    ensures does { let verdict =
        build_verdict B.Bank.meaning letter body.now members.now (length memory.old) in
        let bytes = built_bytes letter body.now members.now in
        Posts verdict table.old bytes (build_answer result) table.new }
    ensures history { let verdict =
        build_verdict B.Bank.meaning letter body.now members.now (length memory.old) in
        let bytes = built_bytes letter body.now members.now in
        PostExtends verdict table.old bytes (build_answer result) table.new }
    ensures memory { memory.new
        ≡ build_memory B.Bank.meaning letter body.now members.now memory.old }
{
    let ticket = Ticket::begin::<B>(letter, body, memory)?;
    let given = give_members(ticket, memory, members)?;
    given.close(table, memory)?;
    Ok(())
}
