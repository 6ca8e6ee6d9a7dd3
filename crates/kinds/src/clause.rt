// The kind C: some literal is true. A literal is a member with an argument a: below 64 it is true
// where the voice has the value a, from 64 on where the voice has not the value a - 64.
ghost use Rattle.std.specs.Prelude.{◌≡◌, refl, false, take, position};
ghost use Rattle.sets.specs.Sets.{mask};
ghost use Rattle.sets.specs.Placings.{changed};
ghost use Rattle.std.specs.List.{list_all, list_any};
ghost use Rattle.rows.specs.NewRows.{Constructs, if_counted};
ghost use Rattle.rows.specs.Reading.{checked};
ghost use Rattle.rows.specs.declared.row.RowError.TheVariants.{LargeValue};
ghost use Rattle.rows.specs.Views.{row_of};
ghost use Rattle.rows.specs.Shared.{cuts};
ghost use Rattle.kinds.specs.Literals.{literal_holds, refuted, certain, may_hold, in_range, has_value, literal_member, clause_row, clause};
ghost use Rattle.kinds.specs.LiteralsLaws.{clause_lawful};

use rows::kind::Kind;
use rows::member::Member;
use rows::narrowing::{are_declared, is_shaped, keep_only, kind_verdict, set_of};
use rows::refusal::KindRefusal;
use rows::row::{Row, RowError};
use rows::trace::Trace;
use sets::{ValueSet, single};
use std::alloc::Global;

// The values that make a literal true.
fn true_values(literal: Member) -> ValueSet
    ensures { result ≡ mask 64 (literal_holds literal) }
{
    let argument = u32::from(literal.argument.unsigned_abs());
    if argument < 64 {
        single(argument)
    } else {
        !single(argument - 64)
    }
}

// Whether a literal is false for all values of its voice's set.
fn is_refuted(literal: Member, sets: &[ValueSet]) -> bool
    ensures { result ≡ refuted sets.now literal }
{
    set_of(sets, literal.voice) & true_values(literal) == 0
}

// Whether a literal is true for all values of its voice's set.
fn is_certain(literal: Member, sets: &[ValueSet]) -> bool
    ensures { result ≡ certain sets.now literal }
{
    set_of(sets, literal.voice) & !true_values(literal) == 0
}

// The place of the first literal that is not refuted.
fn first_possible(literals: &[Member], sets: &[ValueSet]) -> Option<usize>
    ensures { result ≡ position (may_hold sets.now) literals.now }
{
    literals.iter().position(|m| !is_refuted(*m, sets))
}

// Whether all literals are refuted.
fn are_refuted(literals: &[Member], sets: &[ValueSet]) -> bool
    ensures { result ≡ list_all (refuted sets.now) literals.now }
{
    literals.iter().all(|m| is_refuted(*m, sets))
}

// Empties the set of the first literal's voice; returns whether a value went.
fn empty_first(literals: &[Member], sets: &mut [ValueSet]) -> bool
    ensures after { sets.new ≡ cuts (λ _ _. false) (take 1 literals.now) sets.old }
    ensures value { result ≡ changed sets.new sets.old }
{
    match literals {
        [] => false,
        [m, ..] => keep_only(sets, m.voice, 0),
    }
}

// Whether some literal is certain.
fn is_settled(literals: &[Member], sets: &[ValueSet]) -> bool
    ensures { result ≡ list_any (certain sets.now) literals.now }
{
    literals.iter().any(|m| is_certain(*m, sets))
}

// The greatest argument of a literal.
const LAST_ARGUMENT: i16 = 127;

// Whether a literal's argument is from 0 to 127.
fn is_in_range(literal: Member) -> bool
    ensures { result ≡ in_range literal }
{
    (0..=LAST_ARGUMENT).contains(&literal.argument)
}

// Whether all literals' arguments are.
fn are_in_range(literals: &[Member]) -> bool
    ensures { result ≡ list_all in_range literals.now }
{
    literals.iter().all(|m| is_in_range(*m))
}

/// A literal, which is true of a voice's value or is not.
#[derive(Clone, Copy, Debug, PartialEq, Eq)]
pub enum Literal {
    /// True where the voice has this value.
    Is { voice: u8, value: u8 },
    /// True where the voice has another value.
    IsNot { voice: u8, value: u8 },
}

impl Literal {
    // Whether its value is one of the 64.
    fn has_value(self) -> bool
        ensures { result ≡ has_value self }
    {
        match self {
            Literal::Is { value, .. } | Literal::IsNot { value, .. } => value < 64,
        }
    }

    // The member that it is written as.
    fn member(self) -> Member
        ensures { result ≡ literal_member self }
    {
        match self {
            Literal::Is { voice, value } => Member {
                voice: u16::from(voice),
                argument: i16::from(value),
            },
            Literal::IsNot { voice, value } => Member {
                voice: u16::from(voice),
                argument: i16::from(value) + 64,
            },
        }
    }
}

// Whether all literals' values are among the 64.
fn have_values(literals: &[Literal]) -> bool
    ensures { result ≡ list_all has_value literals.now }
{
    literals.iter().all(|literal| literal.has_value())
}

/// The kind of rows of which some literal is true; its letter is C.
pub struct Clause;

impl Clause {
    /// The row with these literals. Where a literal's value is above 63 the error is `LargeValue`,
    /// also where there are too many literals.
    pub fn row(heap: Global, literals: &[Literal]) -> Result<Row, RowError>
        ensures { Constructs
            (checked (list_all has_value literals.now) LargeValue
            (if_counted (clause_row literals.now))) result }
    {
        if !have_values(literals) {
            return Err(RowError::LargeValue);
        }
        let mut row = Row::with_count(heap, Self::LETTER, literals.len(), &[])?;
        for literal in literals {
            row.push_member(literal.member());
        }
        Ok(row)
    }
}

impl Kind for Clause {
    ghost meaning = { clause };

    const LETTER: u8 = b'C';

    ghost LETTER = { clause.letter };

    ghost own_letter = { refl };

    const BODY_LENGTH: usize = 1;

    ghost BODY_LENGTH = { clause.body_length };

    ghost own_length = { refl };

    ghost lawful = { clause_lawful };

    fn accept(row: &Row, voices: usize) -> Result<(), KindRefusal> {
        let shape = is_shaped(row, Clause::LETTER, Clause::BODY_LENGTH);
        let declared = are_declared(row.members(), voices);
        let rule = are_in_range(row.members());
        kind_verdict(shape, declared, rule)
    }

    // By the literals that are not refuted: where there are none, the first member's set becomes
    // empty; where there is one, its set loses the values that make it false; where there are
    // several, nothing changes.
    fn turn(row: &Row, sets: &mut [ValueSet]) -> bool
        ensures after { sets.new ≡ clause.turn (row_of row.now) sets.old }
        ensures value { result ≡ changed sets.new sets.old }
    {
        let literals = row.members();
        let Some(first) = first_possible(literals, sets) else {
            return empty_first(literals, sets);
        };
        if !are_refuted(&literals[first + 1..], sets) {
            return false;
        }
        keep_only(sets, literals[first].voice, true_values(literals[first]))
    }

    fn trace(row: &Row, sets: &[ValueSet]) -> Trace {
        if is_settled(row.members(), sets) {
            Trace::Settled
        } else {
            Trace::Open(0)
        }
    }
}
