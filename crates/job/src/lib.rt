//! The whole job of the program: a sheet loaded, solved and reported.
#![tactic(auto)]

ghost use Rattle.std.specs.Prelude.{take, IfOk};
ghost use Rattle.table.specs.Shown.{model, store_in};
ghost use Rattle.sheets.specs.Reading.{read_sheet};
ghost use Rattle.job.specs.Promised.{Promised};
ghost use Rattle.job.specs.Planned.{SolvesLoaded, Planned};

use crate::report::{MOST_REPORT, written_report};
use rows::bank::Bank;
use rows::limits::{MOST_BUDGET, MOST_SHEET};
use sheets::load::load_new;
use sheets::refusal::SheetRefusal;
use std::alloc::{AllocError, Global};
use stores::store::Store;
use table::Table;
use table::outcome::Outcome;

mod lines;
pub mod report;
pub mod standard;

// Solves a table that a Load has just left with this answer, unless it refused the sheet. (Solve
// refuses neither this budget nor a search that has not begun.)
fn solve_loaded<B: Bank, S: Store>(
    table: &mut Table<B, S>,
    answer: Result<(), SheetRefusal>,
) -> Result<Outcome, SheetRefusal>
    ensures { SolvesLoaded S.Store.behaviour B.Bank.meaning answer
        (model table.old) (store_in table.old) result (model table.new) (store_in table.new) }
{
    answer?;
    Ok(table.solve(MOST_BUDGET).unwrap_or(Outcome::Stopped))
}

/// Returns the report of the sheet, of which the first 20,000 bytes count: what a search for the
/// least lawful placing has come to, or the sheet's first fault.
///
/// # Errors
/// There is no memory for the table or the report.
pub fn plan<B: Bank, S: Store + Drop>(
    heap: Global,
    store: S,
    sheet: &[u8],
) -> Result<Vec<u8>, AllocError>
    ensures promise { IfOk result (λ text.
        Promised B.Bank.meaning (read_sheet B.Bank.meaning (take MOST_SHEET sheet.now))
        text.items) }
    ensures history { IfOk result (λ text.
        Planned S.Store.behaviour B.Bank.meaning (S.Store.state store)
        (take MOST_SHEET sheet.now) text.items) }
{
    let length = sheet.len().min(MOST_SHEET);
    let (mut table, answer) = load_new::<B, S>(heap, store, &sheet[..length])?;
    let come_to = solve_loaded(&mut table, answer);
    written_report(come_to, &table, &mut [0u8; MOST_REPORT]).to_vec(heap)
}
