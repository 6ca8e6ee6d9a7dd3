// The title solved, a few nodes at a time.
use crate::title;
use kinds::FourKinds;
use rows::limits::MOST_VOICES;
use rows::row::Row;
use std::alloc::Global;
use std::io;
use stores::store::Store;
use table::Table;
use table::outcome::Outcome;
use table::refusal::Refusal;

// How many nodes each call of `solve` may open, and how often it is called at most.
const BUDGET: u64 = 4;

const MOST_CALLS: u32 = 1_000;

// Declares the title's voices; an error where one is refused.
fn declare_voices<S: Store>(table: &mut Table<FourKinds, S>) -> Result<(), Refusal> {
    for voice in &title::VOICES {
        table.declare(voice.places)?;
    }
    Ok(())
}

// Posts the rows; an error where one is refused.
fn post_rows<S: Store>(
    heap: Global,
    table: &mut Table<FourKinds, S>,
    rows: &[Row],
) -> anyhow::Result<()> {
    for row in rows {
        let bytes = row.to_bytes(heap)?;
        table.post(&bytes)?;
    }
    Ok(())
}

fn print_placing<S: Store>(rt: &HostRuntime, table: &Table<FourKinds, S>) -> io::Result<()> {
    let mut values = [0u8; MOST_VOICES];
    if table.read(&mut values).is_ok() {
        println!(rt; "placing")?;
        for (voice, value) in title::VOICES.iter().zip(&values) {
            let name = voice.name;
            println!(rt; "  {name} {value}")?;
        }
    }
    Ok(())
}

// Solves the title over the store. Prints the outcome and the counts after each call, and the placing at the end.
pub(crate) fn solve_title<S: Store + Drop>(
    rt: &HostRuntime,
    store: S,
    rows: &[Row],
) -> anyhow::Result<()> {
    let mut table: Table<FourKinds, S> = Table::make(rt.alloc(), store)?;
    declare_voices(&mut table)?;
    post_rows(rt.alloc(), &mut table, rows)?;
    println!(rt; "solving, {BUDGET} nodes at a time")?;
    for _ in 0..MOST_CALLS {
        let outcome = table.solve(BUDGET)?;
        let opened = table.opened();
        let exhausted = table.exhausted();
        println!(rt; "  {outcome}: opened {opened}, exhausted {exhausted}")?;
        if outcome != Outcome::Stopped {
            break;
        }
    }
    print_placing(rt, &table)?;
    Ok(())
}
