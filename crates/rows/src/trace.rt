// A row's trace (its projection key).
ghost use Rattle.std.specs.Prelude.{◌≡◌, [], ◌∷◌};
ghost use Rattle.rows.specs.Traces.{mark_word, content_word};

/// What the fixed voices leave of a row.
#[derive(Clone, Copy, Debug, PartialEq, Eq)]
pub enum Trace {
    /// The row holds whatever the open voices take.
    Settled,
    /// It is still open; the content is all that matters to the open voices.
    Open(u64),
}

impl Trace {
    /// The two words that stand for the trace in a key: its mark and its content.
    pub fn words(self) -> [u64; 2]
        ensures { result ≡ mark_word self ∷ content_word self ∷ [] }
    {
        match self {
            Trace::Settled => [0, 0],
            Trace::Open(content) => [1, content],
        }
    }
}
