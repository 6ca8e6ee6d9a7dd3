// Plans the sheets of the examples, and says of each whether what comes out is the report beside it.
#![tactic(auto)]

use anyhow::{Context, Result};
use job::standard::is_report;
use std::fs;

// The examples: of each the folder has the sheet and the report.
const NAMES: [&str; 6] = [
    "console",
    "console-none",
    "even-loads",
    "full-shelf",
    "harbour",
    "knapsack",
];

// A file of the example with this ending.
fn read(rt: &HostRuntime, name: &str, ending: &str) -> Result<Vec<u8>> {
    let file = format!(in rt.alloc(); "{name}.{ending}")?;
    fs::read(rt, file.as_str()).context("a file of an example cannot be read")
}

fn main(rt: HostRuntime) -> Result<()> {
    for name in NAMES {
        let sheet = read(&rt, name, "sheet")?;
        let report = read(&rt, name, "report")?;
        let said = if is_report(rt.alloc(), &report, &sheet)? {
            "as reported"
        } else {
            "differs"
        };
        println!(rt; "{name}: {said}")?;
    }
    Ok(())
}
