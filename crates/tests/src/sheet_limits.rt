// Malformed sheets with the number, the place and the layer of their refusal, sheets at the limits of a table, the
// largest sheet, and reports of sheets.
use job::plan;
use kinds::FourKinds;
use kinds::clause::{Clause, Literal};
use rows::row::RowError;
use sets::ValueSet;
use sheets::load::load;
use sheets::refusal::Layer;
use sheets::save::save;
use std::alloc::{AllocError, Global};
use std::test::Fail;
use stores::bare::Bare;
use stores::shelf::Shelf;
use table::Table;

// A refusal: its number, its place and its layer.
type Refused = (u8, usize, Layer);

// Malformed sheets. Where two refusals fit, the smallest number wins. A voice here has the values 0 to 3.
static MALFORMED: [(&[u8], Refused); 28] = [
    // 1: the bytes end where a record should begin
    (b"", (1, 0, Layer::Sheet)),
    (b"V\x0f\0\0\0\0\0\0\0", (1, 9, Layer::Sheet)),
    (b"V\x0f\0\0\0\0\0\0\0A\x01M\0\0\0", (1, 15, Layer::Sheet)),
    // 2: an unknown letter, without a count too
    (b"B\x01M\0\0\0Z", (2, 0, Layer::Row)),
    (b"V\x0f\0\0\0\0\0\0\0B", (2, 9, Layer::Row)),
    // 3: a voice after a row, cut short and with no value too
    (
        b"V\x0f\0\0\0\0\0\0\0A\x01M\0\0\0V\x0f\0\0\0\0\0\0\0Z",
        (3, 15, Layer::Sheet),
    ),
    (b"V\x0f\0\0\0\0\0\0\0A\x01M\0\0\0V", (3, 15, Layer::Sheet)),
    (
        b"V\x0f\0\0\0\0\0\0\0A\x01M\0\0\0V\0\0\0\0\0\0\0\0Z",
        (3, 15, Layer::Sheet),
    ),
    // 4: bytes after the end
    (b"ZZ", (4, 1, Layer::Sheet)),
    (b"V\x0f\0\0\0\0\0\0\0Z\0", (4, 10, Layer::Sheet)),
    // 5: no count, or 0, with bytes missing too
    (b"A", (5, 0, Layer::Row)),
    (b"V\x0f\0\0\0\0\0\0\0A\0Z", (5, 9, Layer::Row)),
    // 6: cut inside a voice or a row, with a member unmarked too
    (b"V\x0f\0\0\0\0\0\0", (6, 0, Layer::Sheet)),
    (b"V\x0f\0\0\0\0\0\0\0V", (6, 9, Layer::Sheet)),
    (b"A\x01M\0\0", (6, 0, Layer::Row)),
    (b"L\x01\0\0", (6, 0, Layer::Row)),
    (b"A\x02N\0\0\0", (6, 0, Layer::Row)),
    // 7: a member unmarked, its voice undeclared too
    (b"V\x0f\0\0\0\0\0\0\0A\x01N\0\0\0Z", (7, 9, Layer::Row)),
    (b"A\x01N\x05\0\0Z", (7, 0, Layer::Row)),
    // 8: a voice undeclared, with a broken rule too
    (b"V\x0f\0\0\0\0\0\0\0A\x01M\x01\0\0Z", (8, 9, Layer::Row)),
    (b"V\x0f\0\0\0\0\0\0\0A\x01M\x01\x01\0Z", (8, 9, Layer::Row)),
    // 9: an argument that is not 0, a bound of 3,000,001, a literal of 128, an entry with a voice
    (b"V\x0f\0\0\0\0\0\0\0A\x01M\0\x01\0Z", (9, 9, Layer::Row)),
    (
        b"V\x0f\0\0\0\0\0\0\0L\x01\xc1\xc6\x2d\0M\0\x01\0Z",
        (9, 9, Layer::Row),
    ),
    (b"V\x0f\0\0\0\0\0\0\0C\x01M\0\x80\0Z", (9, 9, Layer::Row)),
    (
        b"V\x0f\0\0\0\0\0\0\0E\x01\0\0M\x01\x04\0Z",
        (9, 9, Layer::Row),
    ),
    // 10: a voice with no value; the first faulty record counts
    (b"V\0\0\0\0\0\0\0\0Z", (10, 0, Layer::Table)),
    (
        b"V\x0f\0\0\0\0\0\0\0V\0\0\0\0\0\0\0\0B",
        (10, 9, Layer::Table),
    ),
    (b"V\0\0\0\0\0\0\0\0", (10, 0, Layer::Table)),
];

// The refusal of the sheet by a new table, if it is refused.
fn refused(rt: &HostRuntime, sheet: &[u8]) -> Result<Option<Refused>, AllocError> {
    let mut table: Table<FourKinds, Bare> = Table::make(rt.alloc(), Bare)?;
    Ok(match load(&mut table, sheet) {
        Ok(()) => None,
        Err(fault) => Some((fault.cause.number(), fault.place, fault.cause.layer())),
    })
}

// The record of so many voices with this opening set.
fn push_voices(sheet: &mut Vec<u8>, count: u32, set: ValueSet) -> Result<(), AllocError> {
    for _ in 0..count {
        sheet.push(b'V')?;
        sheet.extend_from_slice(&set.to_le_bytes())?;
    }
    Ok(())
}

// The bytes of a clause of so many literals "voice 0 has the value 0".
fn clause(heap: Global, literals: usize) -> Result<Vec<u8>, RowError> {
    let literals = vec![in heap; Literal::Is { voice: 0, value: 0 }; literals]?;
    let row = Clause::row(heap, &literals)?;
    Ok(row.to_bytes(heap)?)
}

// So many such clauses.
fn push_clauses(
    heap: Global,
    sheet: &mut Vec<u8>,
    count: u32,
    literals: usize,
) -> Result<(), RowError> {
    let bytes = clause(heap, literals)?;
    for _ in 0..count {
        sheet.extend_from_slice(&bytes)?;
    }
    Ok(())
}

// A sheet of so many voices, then so many clauses of so many literals, then these bytes.
fn sheet(
    rt: &HostRuntime,
    voices: u32,
    clauses: u32,
    literals: usize,
    end: &[u8],
) -> Result<Vec<u8>, RowError> {
    let mut sheet = Vec::new(rt.alloc());
    push_voices(&mut sheet, voices, 15)?;
    push_clauses(rt.alloc(), &mut sheet, clauses, literals)?;
    sheet.extend_from_slice(end)?;
    Ok(sheet)
}

#[test]
fn malformed(rt: HostRuntime) -> Result<(), Fail> {
    for (bytes, expected) in &MALFORMED {
        assert_eq!(rt; refused(&rt, bytes)?, Some(*expected));
    }
    Ok(())
}

// How many voices and clauses of how many literals, the bytes after them, and the refusal of such a sheet: 80 voices
// and 120 rows, and one more of each, the one more with another refusal too; a clause of 32 literals.
static AT_LIMITS: [(u32, u32, usize, &[u8], Option<Refused>); 6] = [
    (80, 120, 1, b"Z", None),
    (81, 0, 1, b"Z", Some((11, 720, Layer::Table))),
    (
        80,
        0,
        1,
        b"V\0\0\0\0\0\0\0\0Z",
        Some((10, 720, Layer::Table)),
    ),
    (1, 121, 1, b"Z", Some((12, 729, Layer::Table))),
    (1, 120, 1, b"A\x01M\0\x01\0Z", Some((9, 729, Layer::Row))),
    (1, 1, 32, b"Z", None),
];

#[test]
fn at_limits(rt: HostRuntime) -> Result<(), Fail> {
    for (voices, clauses, literals, end, expected) in &AT_LIMITS {
        let bytes = sheet(&rt, *voices, *clauses, *literals, end)?;
        assert_eq!(rt; refused(&rt, &bytes)?, *expected);
    }
    // a clause of 33 literals: one more, and the count, which is the second byte of the row at 9
    let mut bytes = sheet(&rt, 1, 1, 32, b"M\0\0\0Z")?;
    if let Some(count) = bytes.get_mut(10) {
        *count = 33;
    }
    assert_eq!(rt; refused(&rt, &bytes)?, Some((5, 9, Layer::Row)));
    Ok(())
}

// The largest sheet: 80 voices, 120 rows and 8,192 bytes of rows (68 of 70, 52 of 66).
fn largest_sheet(rt: &HostRuntime) -> Result<Vec<u8>, RowError> {
    let mut bytes = sheet(rt, 80, 68, 17, b"")?;
    push_clauses(rt.alloc(), &mut bytes, 52, 16)?;
    bytes.extend_from_slice(b"Z")?;
    Ok(bytes)
}

// It loads, and is saved as it was; the bytes beyond it stay as they are.
#[test]
fn largest(rt: HostRuntime) -> Result<(), Fail> {
    let mut bytes = largest_sheet(&rt)?;
    assert_eq!(rt; bytes.len(), 8_913);
    let mut table: Table<FourKinds, Bare> = Table::make(rt.alloc(), Bare)?;
    assert!(rt; load(&mut table, &bytes).is_ok());
    let mut out = vec![in rt.alloc(); 7u8; 8_914]?;
    assert!(rt; save(&table, &mut out) == Ok(8_913));
    bytes.push(7)?;
    assert!(rt; out == bytes);
    Ok(())
}

// The report of the sheet, over a shelf of 4,096 words.
fn planned(rt: &HostRuntime, sheet: &[u8]) -> Result<Vec<u8>, AllocError> {
    let mut words = vec![in rt.alloc(); 0u64; 4_096]?;
    plan::<FourKinds, Shelf>(rt.alloc(), Shelf::new(&mut words), sheet)
}

// The whole job on the largest sheet. Each clause has several literals (the same one counts as often as it is there),
// so that nothing is narrowed: the root is opened, and then a node for each voice with its least value; none fails.
#[test]
fn largest_planned(rt: HostRuntime) -> Result<(), Fail> {
    let bytes = largest_sheet(&rt)?;
    let mut expected = String::from_str(rt.alloc(), "found\nopened 81\nexhausted 0\n")?;
    for voice in 0..80 {
        let line = format!(in rt.alloc(); "{voice} 0\n")?;
        expected.push_str(&line)?;
    }
    assert!(rt; planned(&rt, &bytes)?.as_slice() == expected.as_bytes());
    Ok(())
}

// Two voices with the places 1 and 3, and a row that says that they differ: the report, and the report where the second
// argument of the row is not 0.
static PRINTED: [(&[u8], &str); 2] = [
    (
        b"V\x0a\0\0\0\0\0\0\0V\x0a\0\0\0\0\0\0\0A\x02M\0\0\0M\x01\0\0Z",
        "found\nopened 2\nexhausted 0\n0 1\n1 3\n",
    ),
    (
        b"V\x0a\0\0\0\0\0\0\0V\x0a\0\0\0\0\0\0\0A\x02M\0\0\0M\x01\x01\0Z",
        "refused 9 at 18 in row\n",
    ),
];

#[test]
fn printed(rt: HostRuntime) -> Result<(), Fail> {
    for (bytes, expected) in &PRINTED {
        assert!(rt; planned(&rt, bytes)?.as_slice() == expected.as_bytes());
    }
    Ok(())
}

// More bytes than are read, all of them voices, of which 80 fit; and 120 rows of 32 literals, of which 63 fit (8,190
// bytes).
#[test]
fn more_than_fits(rt: HostRuntime) -> Result<(), Fail> {
    let voices = sheet(&rt, 2_300, 0, 1, b"Z")?;
    assert!(rt; planned(&rt, &voices)?.as_slice() == "refused 11 at 720 in table\n".as_bytes());
    let rows = sheet(&rt, 1, 120, 32, b"Z")?;
    assert!(rt; planned(&rt, &rows)?.as_slice() == "refused 12 at 8199 in table\n".as_bytes());
    Ok(())
}

// A byte more of rows than there may be; a sheet that is refused leaves an empty table.
#[test]
fn bytes_at_their_limit(rt: HostRuntime) -> Result<(), Fail> {
    let mut bytes = sheet(&rt, 80, 63, 32, b"")?;
    push_clauses(rt.alloc(), &mut bytes, 1, 1)?;
    bytes.push(b'Z')?;
    // 63 rows of 130 bytes are 8,190, and 6 more pass 8,192
    assert_eq!(rt; refused(&rt, &bytes)?, Some((12, 8_910, Layer::Table)));
    let mut table: Table<FourKinds, Bare> = Table::make(rt.alloc(), Bare)?;
    assert!(rt; load(&mut table, &bytes).is_err());
    let mut out = [7u8; 2];
    assert!(rt; save(&table, &mut out) == Ok(1));
    assert_eq!(rt; out, [b'Z', 7]);
    Ok(())
}
