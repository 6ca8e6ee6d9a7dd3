// A built-in title: its voices narrowed by its rows, and then a placing searched for, a few nodes at a time. At the end
// a small table, whose row is built with a ticket.
#![tactic(auto)]

use built_rows::solve_built_rows;
use kinds::FourKinds;
use narrow::narrow_title;
use rows::bank::Bank;
use rows::refusal::KindRefusal;
use rows::row::Row;
use solve::solve_title;
use stores::shelf::Shelf;

mod built_rows;
mod narrow;
mod show;
mod solve;
mod title;

// How many words the shelf has.
const SHELF_WORDS: usize = 4096;

// An error where a kind refuses one of the rows.
fn check_rows(rows: &[Row]) -> Result<(), KindRefusal> {
    for row in rows {
        FourKinds::accept(row, title::VOICES.len())?;
    }
    Ok(())
}

fn main(rt: HostRuntime) -> anyhow::Result<()> {
    let rows = title::rows(rt.alloc())?;
    let name = title::NAME;
    let voices = title::VOICES.len();
    let count = rows.len();
    println!(rt; "title: {name}, {voices} voices, {count} rows")?;
    check_rows(&rows)?;
    narrow_title(&rt, &rows)?;
    let mut words = vec![in rt.alloc(); 0u64; SHELF_WORDS]?;
    solve_title(&rt, Shelf::new(&mut words), &rows)?;
    println!(rt; "a row built with a ticket")?;
    solve_built_rows(&rt)?;
    Ok(())
}
