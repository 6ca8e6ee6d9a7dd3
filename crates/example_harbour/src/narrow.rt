// The title narrowed: its rows take turns, round after round, until a round changes nothing or some voice has no place
// left.
use crate::{show, title};
use kinds::FourKinds;
use rows::bank::Bank;
use rows::row::Row;
use rows::trace::Trace;
use search::propagation::propagate;
use sets::ValueSet;
use std::io;

fn print_voices(rt: &HostRuntime, after: &[ValueSet]) -> io::Result<()> {
    println!(rt; "voices (lanes and banks before -> after)")?;
    for (voice, set) in title::VOICES.iter().zip(after) {
        let name = voice.name;
        let old = show::set_text(rt.alloc(), voice.places)?;
        let new = show::set_text(rt.alloc(), *set)?;
        println!(rt; "  {name}: {old} -> {new}")?;
    }
    Ok(())
}

fn print_traces(rt: &HostRuntime, rows: &[Row], sets: &[ValueSet]) -> io::Result<()> {
    println!(rt; "rows (traces after)")?;
    for (i, row) in rows.iter().enumerate() {
        let kind = show::kind_name(row.letter());
        match FourKinds::trace(row, sets) {
            Trace::Settled => println!(rt; "  {i} {kind}: settled")?,
            Trace::Open(content) => println!(rt; "  {i} {kind}: open, content {content}")?,
        }
    }
    Ok(())
}

// Narrows the title and prints each voice's set before and after, and each row's trace.
pub(crate) fn narrow_title(rt: &HostRuntime, rows: &[Row]) -> io::Result<()> {
    let mut sets = title::VOICES
        .iter()
        .map(|voice| voice.places)
        .collect::<Vec<ValueSet>>(rt.alloc())?;
    let emptied = propagate::<FourKinds>(rows, &mut sets);
    print_voices(rt, &sets)?;
    print_traces(rt, rows, &sets)?;
    if emptied {
        println!(rt; "some voice has no place left")
    } else {
        println!(rt; "a round changes nothing more")
    }
}
