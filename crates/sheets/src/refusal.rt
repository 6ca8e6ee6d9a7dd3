// Why a sheet is refused.
ghost use Rattle.std.specs.Prelude.{◌≡◌, Some};
ghost use Rattle.sheets.specs.declared.refusal.RecordRefusal.TheVariants.{ByTable};
ghost use Rattle.sheets.specs.Causes.{layer_name, cause_number, cause_layer, cause_offset, cause_message, sheet_refusal_message};

use std::error::Error;
use std::fmt;
use table::refusal::Refusal;

/// Who refuses: the reader of the sheet, the reader of a row with its kind, or the table.
#[derive(Clone, Copy, Debug, PartialEq, Eq)]
pub enum Layer {
    /// The reader of the sheet.
    Sheet,
    /// The reader of a row, or its kind.
    Row,
    /// The table.
    Table,
}

impl Layer {
    /// The layer's name, as a report has it.
    pub fn name(self) -> &'static str
        ensures { result.now ≡ layer_name self }
    {
        match self {
            Layer::Sheet => "sheet",
            Layer::Row => "row",
            Layer::Table => "table",
        }
    }
}

impl fmt::Display for Layer {
    ghost output = { λ layer. Some (layer_name layer) };

    fn fmt<W: fmt::Write>(&self, f: &mut fmt::Formatter<W>) -> fmt::Result {
        f.write_str(self.name())
    }
}

/// What is wrong with a record.
#[derive(Clone, Copy, Debug, PartialEq, Eq)]
pub enum RecordRefusal {
    /// The bytes end where a record should begin.
    NoRecord,
    /// A voice's record follows a row.
    LateVoice,
    /// Bytes follow the sheet's end.
    Trailing,
    /// The bytes end inside a voice's record.
    CutVoice,
    /// The table refuses the voice or the row that the record stands for.
    ByTable(Refusal),
}

impl RecordRefusal {
    /// The number that reports have for it. With the layer it says what is wrong.
    pub fn number(self) -> u8
        ensures { result ≡ cause_number self }
    {
        match self {
            RecordRefusal::NoRecord => 1,
            RecordRefusal::LateVoice => 3,
            RecordRefusal::Trailing => 4,
            RecordRefusal::CutVoice => 6,
            RecordRefusal::ByTable(refusal) => refusal.number(),
        }
    }

    /// The layer that refuses.
    pub fn layer(self) -> Layer
        ensures { result ≡ cause_layer self }
    {
        match self {
            RecordRefusal::ByTable(Refusal::Row(_)) => Layer::Row,
            RecordRefusal::ByTable(_) => Layer::Table,
            _ => Layer::Sheet,
        }
    }

    // How far from its record's first byte the refusal's place is.
    pub(crate) fn offset(self) -> usize
        ensures { result ≡ cause_offset self }
    {
        match self {
            RecordRefusal::Trailing => 1,
            _ => 0,
        }
    }
}

/// In words; `number` has the number.
impl fmt::Display for RecordRefusal {
    ghost output = { λ cause. Some (cause_message cause) };

    fn fmt<W: fmt::Write>(&self, f: &mut fmt::Formatter<W>) -> fmt::Result {
        match self {
            RecordRefusal::NoRecord => f.write_str("the bytes end where a record should begin"),
            RecordRefusal::LateVoice => f.write_str("a voice follows a row"),
            RecordRefusal::Trailing => f.write_str("bytes follow the sheet's end"),
            RecordRefusal::CutVoice => f.write_str("the bytes end inside a voice"),
            RecordRefusal::ByTable(refusal) => write!(f, "{refusal}"),
        }
    }
}

impl Error for RecordRefusal {}

impl From<Refusal> for RecordRefusal {
    ghost from_gives = { λ refusal r. r ≡ ByTable refusal };

    fn from(cause: Refusal) -> RecordRefusal {
        RecordRefusal::ByTable(cause)
    }
}

/// Why a sheet is refused: what is wrong with its first faulty record, and where.
#[derive(Clone, Copy, Debug, PartialEq, Eq)]
pub struct SheetRefusal {
    /// What is wrong with the record.
    pub cause: RecordRefusal,
    /// In bytes from the sheet's first.
    pub place: usize,
}

/// In words, with the place: as `a voice follows a row, at byte 15`.
impl fmt::Display for SheetRefusal {
    ghost output = { λ refusal. Some (sheet_refusal_message refusal) };

    fn fmt<W: fmt::Write>(&self, f: &mut fmt::Formatter<W>) -> fmt::Result {
        let SheetRefusal { cause, place } = *self;
        write!(f, "{cause}, at byte {place}")
    }
}

impl Error for SheetRefusal {}
