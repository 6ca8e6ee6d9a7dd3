// Writing into a borrowed buffer, one piece after the other.
ghost use Rattle.std.specs.Prelude.{◌≡◌, ◌^◌, ◌<◌, length, decimal};
ghost use Rattle.rows.specs.WrittenRows.{WrittenEncoded};

/// A borrowed buffer and the place in it where the next piece goes. What does not fit is not
/// written, but the place moves on as if it were, up to the largest number that it can be.
#[derive(Drop)]
pub struct Writer<'a> {
    out: &'a mut [u8],
    at: usize,
    ghost counted: { at < 2 ^ 64 },
    ghost bounded: { length out.now < 2 ^ 64 },
}

impl<'a> Writer<'a> {
    /// A writer that begins at the front of the buffer.
    pub fn new(out: &'a mut [u8]) -> Writer<'a>
        ensures place { result.at ≡ 0 }
        ensures bytes { result.out.now ≡ out.old }
        ensures same { result.out.ghost_name ≡ out.entry.ghost_name }
    {
        Writer::from_place(out, 0)
    }

    /// A writer that begins at this place of the buffer.
    pub fn from_place(out: &'a mut [u8], place: usize) -> Writer<'a>
        ensures place { result.at ≡ place }
        ensures bytes { result.out.now ≡ out.old }
        ensures same { result.out.ghost_name ≡ out.entry.ghost_name }
    {
        Writer { out, at: place }
    }

    /// The place behind what was written.
    pub fn place(&self) -> usize
        ensures { result ≡ self.now.at }
    {
        self.at
    }
}

impl Writer<'_> {
    ghost use Rattle.rows.specs.Written.{Wrote};

    /// Writes the bytes, as many as fit.
    pub fn put(&mut self, bytes: &[u8])
        ensures { Wrote bytes.now self.old self.new }
    {
        if self.at < self.out.len() {
            let count = bytes.len().min(self.out.len() - self.at);
            self.out[self.at..self.at + count].copy_from_slice(&bytes[..count]);
        }
        self.at = self.at.saturating_add(bytes.len());
    }

    /// Writes the number in decimal, without leading zeros.
    pub fn put_number(&mut self, number: u64)
        ensures { Wrote (decimal number) self.old self.new }
    {
        if number >= 10 {
            self.put_number(number / 10);
        }
        self.put(&[b'0' + (number % 10) as u8]);
    }
}

/// A law: what is written of a row that was read from bytes is those bytes.
pub fn written_is_encoded()
    ensures { WrittenEncoded }
{}
