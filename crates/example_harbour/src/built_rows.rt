// A row built with a ticket and posted, another begun and scrapped, and the table solved.
use kinds::all_different::AllDifferent;
use rows::bank::Alone;
use sets::ValueSet;
use std::io;
use stores::bare::Bare;
use table::Table;
use table::outcome::Outcome;
use tickets::refusal::TicketRefusal;
use tickets::ticket::Ticket;

// A bank of the kind A alone.
type OneKind = Alone<AllDifferent>;

// The places of each voice: 1 and 3.
const OPENING: ValueSet = 0b1010;

// Builds the row "all different" over the voices 0 and 1 and posts it; then begins another, and scraps it.
fn build_rows(table: &mut Table<OneKind, Bare>, memory: &mut [u8]) -> Result<(), TicketRefusal> {
    let ticket = Ticket::begin::<OneKind>(b'A', &[2], memory)?;
    let ticket = ticket.give_member(memory, 0, 0)?;
    let ticket = ticket.give_member(memory, 1, 0)?;
    ticket.close(table, memory)?;
    let ticket = Ticket::begin::<OneKind>(b'A', &[1], memory)?;
    ticket.scrap();
    Ok(())
}

// Solves the table, and prints the value of each voice.
fn print_placing(rt: &HostRuntime, table: &mut Table<OneKind, Bare>) -> io::Result<()> {
    let Ok(Outcome::Found) = table.solve(10) else {
        return println!(rt; "not found");
    };
    println!(rt; "found")?;
    let mut values = [0u8; 2];
    if let Ok(count) = table.read(&mut values) {
        for (voice, value) in values.iter().enumerate().take(count) {
            println!(rt; "{voice} {value}")?;
        }
    }
    Ok(())
}

// Makes a table of two voices, posts a row built with a ticket, and prints the placing.
pub(crate) fn solve_built_rows(rt: &HostRuntime) -> anyhow::Result<()> {
    let mut table: Table<OneKind, Bare> = Table::make(rt.alloc(), Bare)?;
    let _ = table.declare(OPENING);
    let _ = table.declare(OPENING);
    let mut memory = [0u8; 16];
    match build_rows(&mut table, &mut memory) {
        Ok(()) => println!(rt; "one row posted, one scrapped")?,
        Err(refusal) => println!(rt; "refused {}", refusal.number())?,
    }
    print_placing(rt, &mut table)?;
    Ok(())
}
