// Records, written one after the other.
ghost use Rattle.std.specs.Prelude.{ℕ, List, flat_map};
ghost use Rattle.rows.specs.Views.{row_of};
ghost use Rattle.rows.specs.Written.{Wrote};
ghost use Rattle.rows.specs.WrittenRows.{written_member, written_row};
ghost use Rattle.sheets.specs.Sheets.{voice_record};

use rows::member::Member;
use rows::row::Row;
use rows::writer::Writer;
use sets::ValueSet;

// What begins the record of a voice, and what ends a sheet.
pub(crate) const VOICE_MARK: u8 = 0x56;

pub(crate) const END_MARK: u8 = 0x5A;

// What is saved as bytes.
pub(crate) trait Record {
    ghost bytes: { Self → List ℕ };

    fn write(&self, writer: &mut Writer)
        ensures { Wrote (bytes self.now) writer.old writer.new };
}

// A voice, by its opening set.
impl Record for ValueSet {
    ghost bytes = { voice_record };

    fn write(&self, writer: &mut Writer) {
        writer.put(&[VOICE_MARK]);
        writer.put(&self.to_le_bytes());
    }
}

// A member: its mark, the low byte of its voice, and its argument.
impl Record for Member {
    ghost bytes = { written_member };

    fn write(&self, writer: &mut Writer) {
        writer.put(&self.to_bytes());
    }
}

// A row: its letter, its body, its members.
impl Record for Row {
    ghost bytes = { λ row. written_row (row_of row) };

    fn write(&self, writer: &mut Writer) {
        writer.put(&[self.letter()]);
        writer.put(self.body());
        write_all(self.members(), writer);
    }
}

// The records of the items, one behind the other.
pub(crate) fn write_all<T: Record>(items: &[T], writer: &mut Writer)
    ensures { Wrote (flat_map T.bytes items.now) writer.old writer.new }
{
    for item in items {
        item.write(writer);
    }
}
