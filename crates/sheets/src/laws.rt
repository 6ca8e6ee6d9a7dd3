// The law of sheets.
ghost use Rattle.sheets.specs.Laws.{OneSheetATable};

/// One sheet a table: saved and loaded, loaded and saved, and every other sheet is refused at its
/// first fault.
pub fn one_sheet_a_table()
    ensures { OneSheetATable }
{}
