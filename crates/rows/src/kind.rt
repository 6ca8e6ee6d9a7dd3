// What a kind of rows has to do, and the laws that it keeps.
ghost use Rattle.std.specs.Prelude.{◌≡◌, ℕ};
ghost use Rattle.sets.specs.Placings.{changed, Proper};
ghost use Rattle.rows.specs.Rows.{KindMeaning, alone};
ghost use Rattle.rows.specs.Laws.{Laws, ChangeReported};
ghost use Rattle.rows.specs.Views.{row_of};

use crate::refusal::KindRefusal;
use crate::row::Row;
use crate::trace::Trace;
use sets::ValueSet;

/// A kind of rows: which rows it accepts, what their turns take out of the sets, and their traces.
/// A kind has no state, so none of the functions takes `self`.
pub trait Kind {
    // what rows of this kind mean
    ghost meaning: { KindMeaning };

    /// The letter that a row of this kind begins with.
    const LETTER: u8;

    // the constant, as clauses speak of it
    ghost LETTER: { ℕ };

    // it is the letter that the meaning names
    ghost own_letter: { LETTER ≡ meaning.letter };

    /// How many bytes the body of such a row has.
    const BODY_LENGTH: usize;

    // the constant, as clauses speak of it
    ghost BODY_LENGTH: { ℕ };

    // it is the length that the meaning names
    ghost own_length: { BODY_LENGTH ≡ meaning.body_length };

    /// Whether a row is one of this kind, in a table of so many voices.
    fn accept(row: &Row, voices: usize) -> Result<(), KindRefusal>
        ensures { result ≡ meaning.accepts (row_of row.now) voices };

    /// Takes out of the sets values that no placing needs for which the row holds. Returns whether
    /// one went, where the row is accepted and no set was empty; for other rows and sets the result
    /// may be either.
    fn turn(row: &Row, sets: &mut [ValueSet]) -> bool
        ensures after { sets.new ≡ meaning.turn (row_of row.now) sets.old }
        ensures value { ChangeReported (alone meaning) (row_of row.now) sets.old sets.new result };

    /// What the fixed voices leave of the row.
    fn trace(row: &Row, sets: &[ValueSet]) -> Trace
        ensures { result ≡ meaning.trace (row_of row.now) sets.now };

    // and the laws that they keep
    ghost lawful: { Laws (alone meaning) };
}
