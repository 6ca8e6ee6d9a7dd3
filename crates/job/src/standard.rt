//! The job as the programs do it: the four kinds, over a shelf of 4,096 words.
ghost use Rattle.std.specs.Prelude.{◌≡◌, true, [], take, IfOk};
ghost use Rattle.kinds.specs.FourKinds.{four_kinds};
ghost use Rattle.stores.specs.ShelfLaws.{shelf};
ghost use Rattle.sheets.specs.Reading.{read_sheet};
ghost use Rattle.job.specs.Promised.{Promised};
ghost use Rattle.job.specs.Planned.{Planned};

use crate::plan;
use kinds::FourKinds;
use rows::limits::MOST_SHEET;
use std::alloc::{AllocError, Global};
use stores::shelf::Shelf;

/// How many words the shelf has.
const SHELF_WORDS: usize = 4096;

/// Returns the report of the sheet, of which the first 20,000 bytes count.
///
/// # Errors
/// There is no memory for the shelf, the table or the report.
pub fn planned(heap: Global, sheet: &[u8]) -> Result<Vec<u8>, AllocError>
    ensures promise { IfOk result (λ text.
        Promised four_kinds (read_sheet four_kinds (take MOST_SHEET sheet.now)) text.items) }
    ensures history { IfOk result (λ text.
        Planned shelf four_kinds (record { held = []; room = 4096 })
        (take MOST_SHEET sheet.now) text.items) }
{
    let mut words = vec![in heap; 0u64; SHELF_WORDS]?;
    plan::<FourKinds, Shelf>(heap, Shelf::new(&mut words), sheet)
}

/// Plans the sheet, of which the first 20,000 bytes count, and compares: true only where these bytes
/// are a report of it.
///
/// # Errors
/// There is no memory for the shelf, the table or the report.
pub fn is_report(heap: Global, report: &[u8], sheet: &[u8]) -> Result<bool, AllocError>
    ensures promise { IfOk result (λ same. same ≡ true →
        Promised four_kinds (read_sheet four_kinds (take MOST_SHEET sheet.now)) report.now) }
    ensures history { IfOk result (λ same. same ≡ true →
        Planned shelf four_kinds (record { held = []; room = 4096 })
        (take MOST_SHEET sheet.now) report.now) }
{
    let text = planned(heap, sheet)?;
    Ok(text.as_slice() == report)
}
