// A row as a typed value: its kind's letter, its body and its members.
ghost use Rattle.std.specs.Prelude.{◌≡◌, ◌≤◌, [], ◌∷◌, ◌++◌, length, Some, vec_len, vec_capacity, IfOk, if◌then◌else◌, nat_lt, slice_index};
ghost use Rattle.rows.specs.declared.limits.TheConstants.{LONGEST_BODY, MOST_MEMBERS};

use crate::limits::{LONGEST_BODY, MOST_MEMBERS};
use crate::member::Member;
use std::alloc::{AllocError, Global};
use std::error::Error;
use std::fmt;

/// A row: its kind's letter, its body, whose first byte is the count of members, and its members.
/// Its memory is reserved for the longest row, so that filling it never fails.
#[derive(Drop)]
pub struct Row {
    letter: u8,
    body: Vec<u8>,
    members: Vec<Member>,
    ghost short: { vec_len body ≤ LONGEST_BODY },
    ghost few: { vec_len members ≤ MOST_MEMBERS },
    ghost body_room: { LONGEST_BODY ≤ vec_capacity body },
    ghost member_room: { MOST_MEMBERS ≤ vec_capacity members },
}

/// Why a constructor makes no row.
#[derive(Clone, Copy, Debug, PartialEq, Eq)]
pub enum RowError {
    /// There are not 1 to 32 members.
    MemberCount,
    /// A value is above 63, so that no argument stands for it.
    LargeValue,
    /// There is no memory for the row.
    OutOfMemory,
}

impl fmt::Display for RowError {
    ghost use Rattle.rows.specs.Refusals.{row_error_message};

    ghost output = { λ error. Some (row_error_message error) };

    fn fmt<W: fmt::Write>(&self, f: &mut fmt::Formatter<W>) -> fmt::Result {
        match self {
            RowError::MemberCount => f.write_str("a row has 1 to 32 members"),
            RowError::LargeValue => f.write_str("a value is above 63"),
            RowError::OutOfMemory => f.write_str("there is no memory for a row"),
        }
    }
}

impl Error for RowError {}

impl From<AllocError> for RowError {
    ghost use Rattle.rows.specs.declared.row.RowError.TheVariants.{OutOfMemory};

    ghost from_gives = { λ _ e. e ≡ OutOfMemory };

    fn from(_cause: AllocError) -> RowError {
        RowError::OutOfMemory
    }
}

impl Row {
    ghost use Rattle.rows.specs.Bytes.{encode};
    ghost use Rattle.rows.specs.NewRows.{ConstructsHead};
    ghost use Rattle.rows.specs.Reading.{with_bytes};
    ghost use Rattle.rows.specs.WrittenRows.{written_row};
    ghost use Rattle.rows.specs.Views.{row_of, blank, with_byte, with_member};

    /// A row with this letter, no body and no members. An error only where there is no memory.
    pub fn new(heap: Global, letter: u8) -> Result<Row, AllocError>
        ensures { IfOk result (λ row. row_of row ≡ blank letter) }
    {
        let body = Vec::with_capacity(heap, LONGEST_BODY)?;
        let members = Vec::with_capacity(heap, MOST_MEMBERS)?;
        Ok(Row {
            letter,
            body,
            members,
        })
    }

    /// A row with this letter and no members yet, whose body is the count of members to come and
    /// then these bytes, as many as a body has room for.
    pub fn with_count(heap: Global, letter: u8, count: usize, rest: &[u8]) -> Result<Row, RowError>
        ensures { ConstructsHead count
            (with_bytes (with_byte (blank letter) count) rest.now) result }
    {
        if !(1..=MOST_MEMBERS).contains(&count) {
            return Err(RowError::MemberCount);
        }
        let mut row = Row::new(heap, letter)?;
        row.push_byte(count as u8);
        row.push_bytes(rest);
        Ok(row)
    }

    /// Makes this the row with this letter, no body and no members; its memory is kept.
    pub fn restart(&mut self, letter: u8)
        ensures { row_of self.new ≡ blank letter }
    {
        self.letter = letter;
        self.body.clear();
        self.members.clear();
    }

    /// Appends a byte to the body. Returns false, and changes nothing, where the body is as long as
    /// it can be.
    pub fn push_byte(&mut self, byte: u8) -> bool
        ensures value { result ≡ nat_lt (length (row_of self.old).body) LONGEST_BODY }
        ensures after { row_of self.new ≡
            (if result then with_byte (row_of self.old) byte else row_of self.old) }
    {
        if self.body.len() >= LONGEST_BODY {
            return false;
        }
        self.body.push_reserved(byte);
        true
    }

    /// Appends these bytes to the body, as many as it has room for.
    pub fn push_bytes(&mut self, bytes: &[u8])
        ensures { row_of self.new ≡ with_bytes (row_of self.old) bytes.now }
    {
        for byte in bytes {
            self.push_byte(*byte);
        }
    }

    /// Appends a member. Returns false, and changes nothing, where there are as many as a row can
    /// have.
    pub fn push_member(&mut self, member: Member) -> bool
        ensures value { result ≡ nat_lt (length (row_of self.old).members) MOST_MEMBERS }
        ensures after { row_of self.new ≡
            (if result then with_member (row_of self.old) member else row_of self.old) }
    {
        if self.members.len() >= MOST_MEMBERS {
            return false;
        }
        self.members.push_reserved(member);
        true
    }

    /// The letter of the row's kind.
    pub fn letter(&self) -> u8
        ensures { result ≡ (row_of self.now).letter }
    {
        self.letter
    }

    /// The body, whose first byte is the count of members.
    pub fn body(&self) -> &[u8]
        ensures { result.now ≡ (row_of self.now).body }
    {
        &self.body
    }

    /// The members, in order.
    pub fn members(&self) -> &[Member]
        ensures { result.now ≡ (row_of self.now).members }
    {
        &self.members
    }

    /// Byte i of the body; 0 past its end.
    pub fn byte(&self, i: usize) -> u8
        ensures { result ≡ slice_index (row_of self.now).body i }
    {
        self.body.get(i).copied().unwrap_or(0)
    }

    /// How many bytes `to_bytes` writes.
    pub fn bytes_len(&self) -> usize
        ensures { result ≡ length (encode (row_of self.now)) }
    {
        1 + self.body.len() + 4 * self.members.len()
    }

    /// The row as bytes, with the low byte of each voice. Where the voices are all below 256, these
    /// are the bytes that the row is read from.
    pub fn to_bytes(&self, heap: Global) -> Result<Vec<u8>, AllocError>
        ensures { IfOk result (λ bytes. bytes.items ≡ written_row (row_of self.now)) }
    {
        let mut bytes = Vec::with_capacity(heap, self.bytes_len())?;
        bytes.push(self.letter)?;
        bytes.extend_from_slice(&self.body)?;
        for member in self.members() {
            bytes.extend_from_slice(&member.to_bytes())?;
        }
        Ok(bytes)
    }
}
