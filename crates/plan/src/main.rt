//! Reads a sheet from standard input and prints its report.
#![tactic(auto)]

use anyhow::{Context, Result};
use job::standard::planned;
use rows::limits::MOST_SHEET;
use std::io::{Read, Write};

// No more is read than the planner looks at, so that memory is bounded.
fn main(rt: HostRuntime) -> Result<()> {
    let mut sheet = Vec::with_capacity(rt.alloc(), MOST_SHEET).context("no memory for the sheet")?;
    rt.stdin()
        .take(MOST_SHEET as u64)
        .read_to_end(&mut sheet)
        .context("the sheet cannot be read")?;
    let text = planned(rt.alloc(), &sheet).context("no memory to plan in")?;
    rt.stdout()
        .write_all(&text)
        .context("the report cannot be written")
}
