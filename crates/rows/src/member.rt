// Members of rows.
ghost use Rattle.std.specs.Prelude.{◌≡◌};

/// What a member begins with, where a row is written as bytes.
pub const MEMBER_MARK: u8 = 0x4D;

/// One member of a row: the number of a voice (variable), and a signed argument. What the argument
/// means is up to the row's kind.
#[derive(Clone, Copy)]
pub struct Member {
    /// The voice's number, counted from 0.
    pub voice: u16,
    /// What the row's kind takes it for.
    pub argument: i16,
}

impl Member {
    ghost use Rattle.rows.specs.WrittenRows.{written_member};

    /// The member as bytes: its mark, the low byte of its voice, and its argument, low byte first.
    pub fn to_bytes(self) -> [u8; 4]
        ensures { result ≡ written_member self }
    {
        let [voice, _] = self.voice.to_le_bytes();
        let [low, high] = self.argument.to_le_bytes();
        [MEMBER_MARK, voice, low, high]
    }
}
