// The kind A, all different: the values of a row's members differ.
ghost use Rattle.std.specs.Prelude.{◌≡◌, refl, map, nat_eq, nat_lt, unsigned_abs};
ghost use Rattle.sets.specs.Sets.{has, mask};
ghost use Rattle.sets.specs.Placings.{changed};
ghost use Rattle.std.specs.List.{list_all, list_any, count_by};
ghost use Rattle.rows.specs.Shared.{at, cuts, distinct};
ghost use Rattle.rows.specs.NewRows.{Constructs, if_counted};
ghost use Rattle.rows.specs.Views.{row_of};
ghost use Rattle.kinds.specs.Differing.{may_stay, fixed_values, all_different, all_different_row};
ghost use Rattle.kinds.specs.DifferingLaws.{all_different_lawful};

use rows::kind::Kind;
use rows::member::Member;
use rows::narrowing::{are_declared, is_shaped, keep_only, kind_verdict, set_of};
use rows::refusal::KindRefusal;
use rows::row::{Row, RowError};
use rows::trace::Trace;
use sets::{ValueSet, is_fixed};
use std::alloc::Global;

// Whether the members' arguments are all 0.
fn have_no_arguments(members: &[Member]) -> bool
    ensures { result ≡ list_all (λ m. nat_eq (unsigned_abs m.argument) 0) members.now }
{
    members.iter().all(|m| m.argument == 0)
}

// Whether no two members have the same voice.
fn have_own_voices(members: &[Member]) -> bool
    ensures { result ≡ distinct (map (λ m. m.voice) members.now) }
{
    let mut left = members;
    while let [m, rest @ ..] = left {
        if is_named(rest, m.voice) {
            return false;
        }
        left = rest;
    }
    true
}

// Whether some member has this voice.
fn is_named(members: &[Member], voice: u16) -> bool
    ensures { result ≡ list_any (λ m. nat_eq voice m.voice) members.now }
{
    members.iter().any(|m| voice == m.voice)
}

// Where the taker is fixed, takes its value out of the sets of the members with another voice;
// returns whether one lost it.
fn take_from_others(members: &[Member], taker: Member, sets: &mut [ValueSet]) -> bool
    ensures after { sets.new ≡ cuts (may_stay taker (at sets.old taker)) members.now sets.old }
    ensures value { result ≡ changed sets.new sets.old }
{
    let set = set_of(sets, taker.voice);
    if !is_fixed(set) {
        return false;
    }
    let mut lost = false;
    for m in members {
        if m.voice != taker.voice {
            lost |= keep_only(sets, m.voice, !set);
        }
    }
    lost
}

// The values that the sets of two members or more have, and the values of the fixed members.
fn shared_and_placed(members: &[Member], sets: &[ValueSet]) -> (ValueSet, ValueSet)
    ensures shared { result.0 ≡
        mask 64 (λ v. nat_lt 1 (count_by (λ m. has (at sets.now m) v) members.now)) }
    ensures placed { result.1 ≡ fixed_values members.now sets.now }
{
    let mut once = 0;
    let mut shared = 0;
    let mut placed = 0;
    for m in members {
        let set = set_of(sets, m.voice);
        shared |= once & set;
        once |= set;
        if is_fixed(set) {
            placed |= set;
        }
    }
    (shared, placed)
}

/// The kind of rows whose members' values all differ; its letter is A.
pub struct AllDifferent;

impl AllDifferent {
    /// The row with these voices. A voice that is named twice is left to `accept`.
    pub fn row(heap: Global, voices: &[u8]) -> Result<Row, RowError>
        ensures { Constructs (if_counted (all_different_row voices.now)) result }
    {
        let mut row = Row::with_count(heap, Self::LETTER, voices.len(), &[])?;
        for voice in voices {
            row.push_member(Member {
                voice: u16::from(*voice),
                argument: 0,
            });
        }
        Ok(row)
    }
}

impl Kind for AllDifferent {
    ghost meaning = { all_different };

    const LETTER: u8 = 0x41;

    ghost LETTER = { all_different.letter };

    ghost own_letter = { refl };

    const BODY_LENGTH: usize = 1;

    ghost BODY_LENGTH = { all_different.body_length };

    ghost own_length = { refl };

    ghost lawful = { all_different_lawful };

    // A row is accepted where it has the shape, its voices are declared, its arguments are 0 and no
    // voice repeats.
    fn accept(row: &Row, voices: usize) -> Result<(), KindRefusal> {
        let members = row.members();
        let shape = is_shaped(row, Self::LETTER, Self::BODY_LENGTH);
        kind_verdict(
            shape,
            are_declared(members, voices),
            have_no_arguments(members) && have_own_voices(members),
        )
    }

    // Each member in order, if it is fixed by then, takes its value out of every other member's set.
    fn turn(row: &Row, sets: &mut [ValueSet]) -> bool
        ensures after { sets.new ≡ all_different.turn (row_of row.now) sets.old }
        ensures value { result ≡ changed sets.new sets.old }
    {
        let members = row.members();
        let (shared, placed) = shared_and_placed(members, sets);
        // no fixed member's value is in another's set: nothing is taken, and so no more become fixed
        if shared & placed == 0 {
            return false;
        }
        let mut took = false;
        for m in members {
            // one whose values no other had takes nothing: sets only lose values
            if set_of(sets, m.voice) & shared != 0 {
                took |= take_from_others(members, *m, sets);
            }
        }
        took
    }

    // Settled where the fixed members have as many values as there are members; else those values.
    fn trace(row: &Row, sets: &[ValueSet]) -> Trace {
        let members = row.members();
        let (_, values) = shared_and_placed(members, sets);
        if values.count_ones() as usize == members.len() {
            Trace::Settled
        } else {
            Trace::Open(values)
        }
    }
}
