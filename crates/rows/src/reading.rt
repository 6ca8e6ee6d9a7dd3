// Rows read from bytes.
ghost use Rattle.std.specs.Prelude.{◌≡◌, Ok};
ghost use Rattle.rows.specs.declared.refusal.RowRefusal.TheVariants.{UnknownLetter, BadCount};
ghost use Rattle.rows.specs.Bytes.{letter_byte, count_byte, head_length, lettered, counted, marked};
ghost use Rattle.rows.specs.Reading.{checked, layout, layout_fault, row_verdict, row_after, with_bytes, with_members_in};
ghost use Rattle.rows.specs.Views.{row_of};

use crate::bank::Bank;
use crate::limits::MOST_MEMBERS;
use crate::member::{MEMBER_MARK, Member};
use crate::refusal::RowRefusal;
use crate::row::Row;

// The body length of rows with this letter.
fn body_length<B: Bank>(bytes: &[u8]) -> Result<usize, RowRefusal>
    ensures { result ≡ checked (lettered B.Bank.meaning bytes.now) UnknownLetter
        (Ok (B.Bank.meaning.body_length (letter_byte bytes.now))) }
{
    bytes
        .first()
        .and_then(|letter| B::body_length(*letter))
        .ok_or(RowRefusal::UnknownLetter)
}

// The count of members.
fn member_count(bytes: &[u8]) -> Result<usize, RowRefusal>
    ensures { result ≡ checked (counted bytes.now) BadCount (Ok (count_byte bytes.now)) }
{
    bytes
        .get(1)
        .map(|count| usize::from(*count))
        .filter(|count| (1..=MOST_MEMBERS).contains(count))
        .ok_or(RowRefusal::BadCount)
}

// Whether each member, of four bytes, begins with its mark.
fn are_marked(bytes: &[u8]) -> bool
    ensures { result ≡ marked bytes.now }
{
    // a loop by pattern, as in push_members: what the check knows of `chunks_exact` with `all` is
    // too little for the clause
    let mut left = bytes;
    while let [mark, _voice, _low, _high, rest @ ..] = left {
        if *mark != MEMBER_MARK {
            return false;
        }
        left = rest;
    }
    true
}

// Where the members begin, if the bytes have the layout of a row.
fn members_start<B: Bank>(bytes: &[u8]) -> Result<usize, RowRefusal>
    ensures { result ≡ layout B.Bank.meaning bytes.now
        (Ok (head_length B.Bank.meaning bytes.now)) }
{
    let start = 1 + body_length::<B>(bytes)?;
    let count = member_count(bytes)?;
    if bytes.len() != start + 4 * count {
        return Err(RowRefusal::WrongLength);
    }
    if !are_marked(&bytes[start..]) {
        return Err(RowRefusal::UnmarkedMember);
    }
    Ok(start)
}

// Puts the members in these bytes after the row's own, as many as a row can have.
fn push_members(row: &mut Row, bytes: &[u8])
    ensures { row_of row.new ≡ with_members_in (row_of row.old) bytes.now }
{
    let mut left = bytes;
    while let [_mark, voice, low, high, rest @ ..] = left {
        row.push_member(Member {
            voice: u16::from(*voice),
            argument: i16::from_le_bytes([*low, *high]),
        });
        left = rest;
    }
}

/// Reads the bytes into the row. If they have not the layout of a row, it stays as it is.
pub fn read_row<B: Bank>(bytes: &[u8], row: &mut Row) -> Result<(), RowRefusal>
    ensures value { result ≡ layout_fault B.Bank.meaning bytes.now }
    ensures after { row_of row.new ≡ row_after B.Bank.meaning bytes.now (row_of row.old) }
{
    let start = members_start::<B>(bytes)?;
    row.restart(bytes[0]);
    row.push_bytes(&bytes[1..start]);
    push_members(row, &bytes[start..]);
    Ok(())
}

/// Reads the bytes into the row and returns whether the bank accepts that row in a table of so many
/// voices. The row holds what was read also where the bank does not accept it.
pub fn accept_bytes<B: Bank>(bytes: &[u8], voices: usize, row: &mut Row) -> Result<(), RowRefusal>
    ensures value { result ≡ row_verdict B.Bank.meaning bytes.now voices }
    ensures after { row_of row.new ≡ row_after B.Bank.meaning bytes.now (row_of row.old) }
{
    read_row::<B>(bytes, row)?;
    B::accept(row, voices)?;
    Ok(())
}
