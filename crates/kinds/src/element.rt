// The kind E: the result is the entry that the index names. The entries are the members' arguments,
// in order; the numbers of the index voice and the result voice are in the body.
ghost use Rattle.std.specs.Prelude.{◌≡◌, refl, ◌&&◌, length, if◌then◌else◌, ◌==◌, nat_lt, unsigned_abs};
ghost use Rattle.sets.specs.Sets.{has, mask, sift};
ghost use Rattle.std.specs.List.{list_all};
ghost use Rattle.sets.specs.Placings.{changed};
ghost use Rattle.rows.specs.NewRows.{Constructs, if_counted};
ghost use Rattle.rows.specs.Views.{row_of};
ghost use Rattle.kinds.specs.Entries.{index, result_voice, entry, reached, is_entry, element, element_row};
ghost use Rattle.kinds.specs.EntriesLaws.{element_lawful};

use rows::kind::Kind;
use rows::member::Member;
use rows::narrowing::{is_shaped, keep_only, kind_verdict, set_of};
use rows::refusal::KindRefusal;
use rows::row::{Row, RowError};
use rows::trace::Trace;
use sets::{ValueSet, contains, only_value, single, take_least};
use std::alloc::Global;

// The index voice and the result voice.
fn index_voice(row: &Row) -> u16
    ensures { result ≡ index (row_of row.now) }
{
    u16::from(row.byte(1))
}

fn result_voice(row: &Row) -> u16
    ensures { result ≡ result_voice (row_of row.now) }
{
    u16::from(row.byte(2))
}

// The value that a member stands for as an entry.
fn value_of(m: Member) -> u32
    ensures { result ≡ unsigned_abs m.argument }
{
    u32::from(m.argument.unsigned_abs())
}

// The entry of a place that has none: no value is as great. (A number, since it is what the trace
// has then.)
const NO_ENTRY: u32 = 64;

// The entry at a place.
fn entry_at(entries: &[Member], place: u32) -> u32
    ensures { result ≡ entry entries.now place }
{
    match entries.get(place as usize) {
        Some(m) => value_of(*m),
        None => NO_ENTRY,
    }
}

// Whether there is an entry at the place and it is the value.
fn is_met(entries: &[Member], place: u32, value: u32) -> bool
    ensures { result ≡ (nat_lt place (length entries.now) && value == entry entries.now place) }
{
    match entries.get(place as usize) {
        Some(m) => value == value_of(*m),
        None => false,
    }
}

// The indices whose entry is among the results, and these entries. (Over the set: most sets have
// fewer values than a row has entries.)
fn matching(entries: &[Member], indices: ValueSet, results: ValueSet) -> (ValueSet, ValueSet)
    ensures kept { result.0 ≡
        sift (λ i. nat_lt i (length entries.now) && has results (entry entries.now i)) indices }
    ensures named { result.1 ≡ mask 64 (reached entries.now (has result.0)) }
{
    let mut kept = 0;
    let mut named = 0;
    let mut left = indices;
    while let Some(place) = take_least(&mut left) {
        let value = entry_at(entries, place);
        if contains(results, value) {
            kept |= single(place);
            named |= single(value);
        }
    }
    (kept, named)
}

// The greatest entry.
const LAST_VALUE: i16 = 63;

// Whether a member is an entry: a value from 0 to 63, and a voice of 0, which names none.
fn is_entry(m: Member) -> bool
    ensures { result ≡ is_entry m }
{
    m.voice == 0 && (0..=LAST_VALUE).contains(&m.argument)
}

// Whether all members are entries.
fn are_entries(members: &[Member]) -> bool
    ensures { result ≡ list_all is_entry members.now }
{
    members.iter().all(|m| is_entry(*m))
}

/// The kind of rows whose result is the entry that the index names; its letter is E.
pub struct Element;

impl Element {
    /// The row in which the voice `held_by` has the entry that the value of the voice `index`
    /// names, counted from 0. An entry above 63 is left to `accept`.
    pub fn row(heap: Global, index: u8, held_by: u8, entries: &[u8]) -> Result<Row, RowError>
        ensures { Constructs (if_counted (element_row index held_by entries.now)) result }
    {
        let mut row = Row::with_count(heap, Self::LETTER, entries.len(), &[index, held_by])?;
        for entry in entries {
            row.push_member(Member {
                voice: 0,
                argument: i16::from(*entry),
            });
        }
        Ok(row)
    }
}

impl Kind for Element {
    ghost meaning = { element };

    const LETTER: u8 = b'E';

    ghost LETTER = { element.letter };

    ghost own_letter = { refl };

    const BODY_LENGTH: usize = 3;

    ghost BODY_LENGTH = { element.body_length };

    ghost own_length = { refl };

    ghost lawful = { element_lawful };

    fn accept(row: &Row, voices: usize) -> Result<(), KindRefusal> {
        let shape = is_shaped(row, Element::LETTER, Element::BODY_LENGTH);
        let declared = usize::from(index_voice(row)) < voices
            && usize::from(result_voice(row)) < voices;
        let rule = are_entries(row.members());
        kind_verdict(shape, declared, rule)
    }

    fn turn(row: &Row, sets: &mut [ValueSet]) -> bool
        ensures after { sets.new ≡ element.turn (row_of row.now) sets.old }
        ensures value { result ≡ changed sets.new sets.old }
    {
        let index = index_voice(row);
        let result = result_voice(row);
        let (kept, named) = matching(row.members(), set_of(sets, index), set_of(sets, result));
        // what the second step keeps are the entries at the indices that the first keeps, also
        // where both voices are one
        keep_only(sets, index, kept) | keep_only(sets, result, named)
    }

    fn trace(row: &Row, sets: &[ValueSet]) -> Trace {
        let index = only_value(set_of(sets, index_voice(row)));
        let result = only_value(set_of(sets, result_voice(row)));
        match (index, result) {
            (Some(i), Some(v)) if is_met(row.members(), i, v) => Trace::Settled,
            (Some(i), None) => Trace::Open(u64::from(entry_at(row.members(), i))),
            (None, Some(v)) => Trace::Open(u64::from(v)),
            _ => Trace::Open(0),
        }
    }
}
