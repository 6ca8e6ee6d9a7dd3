// A bank of row kinds: one kind, or two banks side by side.
ghost use Rattle.std.specs.Prelude.{◌≡◌, if◌then◌else◌, Some, None, length};
ghost use Rattle.sets.specs.Placings.{changed, Proper};
ghost use Rattle.rows.specs.Rows.{Meaning, known_body_length, alone, beside};
ghost use Rattle.rows.specs.Laws.{Laws, ChangeReported};
ghost use Rattle.rows.specs.Views.{row_of};
ghost use Rattle.rows.specs.SideBySide.{beside_lawful};

use crate::kind::Kind;
use crate::refusal::KindRefusal;
use crate::row::Row;
use crate::trace::Trace;
use sets::ValueSet;
use std::marker::PhantomData;

/// A set of kinds, as a table uses it.
pub trait Bank {
    // what the rows of the bank's kinds mean
    ghost meaning: { Meaning };

    /// The body length of the rows with this letter, where the bank knows it.
    fn body_length(letter: u8) -> Option<usize>
        ensures { result ≡ known_body_length meaning letter };

    /// Whether the bank accepts the row in a table of so many voices.
    fn accept(row: &Row, voices: usize) -> Result<(), KindRefusal>
        ensures { result ≡ meaning.accepts (row_of row.now) voices };

    /// Takes out of the sets values that no placing needs for which the row holds. Returns whether
    /// one went, where the row is accepted and no set was empty; for other rows and sets the result
    /// may be either.
    fn turn(row: &Row, sets: &mut [ValueSet]) -> bool
        ensures after { sets.new ≡ meaning.turn (row_of row.now) sets.old }
        ensures value { ChangeReported meaning (row_of row.now) sets.old sets.new result };

    /// What the fixed voices leave of the row.
    fn trace(row: &Row, sets: &[ValueSet]) -> Trace
        ensures { result ≡ meaning.trace (row_of row.now) sets.now };

    // and the laws that they keep
    ghost lawful: { Laws meaning };
}

/// The bank of one kind.
pub struct Alone<K> {
    kind: PhantomData<K>,
}

impl<K: Kind> Bank for Alone<K> {
    ghost meaning = { alone K.Kind.meaning };

    ghost lawful = { K.Kind.lawful };

    fn body_length(letter: u8) -> Option<usize> {
        (letter == K::LETTER).then_some(K::BODY_LENGTH)
    }

    fn accept(row: &Row, voices: usize) -> Result<(), KindRefusal> {
        K::accept(row, voices)
    }

    fn turn(row: &Row, sets: &mut [ValueSet]) -> bool {
        K::turn(row, sets)
    }

    fn trace(row: &Row, sets: &[ValueSet]) -> Trace {
        K::trace(row, sets)
    }
}

/// Two banks side by side: a row goes to the first that knows its letter.
pub struct Beside<X, Y> {
    first: PhantomData<X>,
    second: PhantomData<Y>,
}

// The test of the letter is repeated: the call after it differs.
impl<X: Bank, Y: Bank> Bank for Beside<X, Y> {
    ghost meaning = { beside X.Bank.meaning Y.Bank.meaning };

    ghost lawful = { beside_lawful X.Bank.meaning Y.Bank.meaning X.Bank.lawful Y.Bank.lawful };

    fn body_length(letter: u8) -> Option<usize> {
        X::body_length(letter).or_else(|| Y::body_length(letter))
    }

    fn accept(row: &Row, voices: usize) -> Result<(), KindRefusal> {
        if X::body_length(row.letter()).is_some() {
            X::accept(row, voices)
        } else {
            Y::accept(row, voices)
        }
    }

    fn turn(row: &Row, sets: &mut [ValueSet]) -> bool {
        if X::body_length(row.letter()).is_some() {
            X::turn(row, sets)
        } else {
            Y::turn(row, sets)
        }
    }

    fn trace(row: &Row, sets: &[ValueSet]) -> Trace {
        if X::body_length(row.letter()).is_some() {
            X::trace(row, sets)
        } else {
            Y::trace(row, sets)
        }
    }
}
