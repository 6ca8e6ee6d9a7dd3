// What the kinds share: a voice's set, a cut of it, the shape of a row and its voices.
ghost use Rattle.std.specs.Prelude.{◌≡◌, nat_lt, slice_index};
ghost use Rattle.sets.specs.Sets.{has};
ghost use Rattle.sets.specs.Placings.{changed};
ghost use Rattle.std.specs.List.{list_all};
ghost use Rattle.rows.specs.Views.{row_of};
ghost use Rattle.rows.specs.Shared.{cut, shaped, verdict};

use crate::limits::MOST_MEMBERS;
use crate::member::Member;
use crate::refusal::KindRefusal;
use crate::row::Row;
use sets::ValueSet;

/// A voice's set; the empty set where there is no such voice.
pub fn set_of(sets: &[ValueSet], voice: u16) -> ValueSet
    ensures { result ≡ slice_index sets.now voice }
{
    sets.get(usize::from(voice)).copied().unwrap_or(0)
}

/// Keeps of a voice's set only the values in `kept`; returns whether one went.
pub fn keep_only(sets: &mut [ValueSet], voice: u16, kept: ValueSet) -> bool
    ensures after { sets.new ≡ cut voice (has kept) sets.old }
    ensures value { result ≡ changed sets.new sets.old }
{
    // by index: the check does not know what a write through `get_mut` leaves in the slice
    let place = usize::from(voice);
    if place >= sets.len() {
        return false;
    }
    let before = sets[place];
    sets[place] &= kept;
    sets[place] != before
}

/// Whether a row has this letter, so many body bytes, a count from 1 to 32 and that many members.
/// (The kinds pass their own constants: this is called inside `impl Kind`, where a kind cannot be a
/// type parameter.)
pub fn is_shaped(row: &Row, letter: u8, body_length: usize) -> bool
    ensures { result ≡ shaped letter body_length (row_of row.now) }
{
    let count = usize::from(row.byte(0));
    row.letter() == letter
        && row.body().len() == body_length
        && (1..=MOST_MEMBERS).contains(&count)
        && row.members().len() == count
}

/// Whether the members' voices are all among the first `voices`.
pub fn are_declared(members: &[Member], voices: usize) -> bool
    ensures { result ≡ list_all (λ m. nat_lt m.voice voices) members.now }
{
    members.iter().all(|m| usize::from(m.voice) < voices)
}

/// A row's verdict, by its shape, its voices and the kind's own rule. Where
/// a voice is undeclared and the rule is broken, the refusal is that of the voice.
pub fn kind_verdict(shape: bool, declared: bool, rule: bool) -> Result<(), KindRefusal>
    ensures { result ≡ verdict shape declared rule }
{
    if !shape {
        Err(KindRefusal::RuleBroken)
    } else if !declared {
        Err(KindRefusal::Undeclared)
    } else if !rule {
        Err(KindRefusal::RuleBroken)
    } else {
        Ok(())
    }
}
