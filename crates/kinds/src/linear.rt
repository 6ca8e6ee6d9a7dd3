// The kind L: the sum of coefficient × value over a row's members is at most a bound.
ghost use Rattle.std.specs.Prelude.{◌≡◌, refl, ℕ, true, false, ◌*◌, ◌^◌, map, length, take, pos, ◌-ℤ◌, ◌*ℤ◌, int_le, nat_le, slice_index_or, unsigned_abs, if◌then◌else◌};
ghost use Rattle.sets.specs.Sets.{mask, least, greatest};
ghost use Rattle.sets.specs.Placings.{changed};
ghost use Rattle.rows.specs.Shared.{at, cut, cuts};
ghost use Rattle.std.specs.List.{list_all};
ghost use Rattle.rows.specs.NewRows.{Constructs, if_counted};
ghost use Rattle.rows.specs.Views.{row_of};
ghost use Rattle.kinds.specs.Sums.{bound as bound_of, low, high, placed, term, total, linear_rule, linear, linear_row, Near};
ghost use Rattle.kinds.specs.SumsLaws.{linear_lawful};

use rows::kind::Kind;
use rows::limits::MOST_MEMBERS;
use rows::member::Member;
use rows::narrowing::{are_declared, is_shaped, keep_only, kind_verdict, set_of};
use rows::refusal::KindRefusal;
use rows::row::{Row, RowError};
use rows::trace::Trace;
use sets::{ValueSet, greatest_value, is_fixed, least_value};
use std::alloc::Global;

// The largest coefficient, whatever its sign.
const LARGEST_COEFFICIENT: u16 = 1_000;

// The largest bound, whatever its sign.
const LARGEST_BOUND: u64 = 3_000_000;

// The content of an open row whose fixed members add up to 0: so large that no accepted row has a
// content below 0.
const CONTENT_OF_ZERO: i64 = 4_000_000;

// A row's bound: the four bytes after the count, low byte first, signed.
fn bound(row: &Row) -> i64
    ensures value { result ≡ bound_of (row_of row.now) }
    ensures near { Near (2 ^ 31) result }
{
    let bytes = [row.byte(1), row.byte(2), row.byte(3), row.byte(4)];
    i64::from(i32::from_le_bytes(bytes))
}

// Coefficient × value.
fn product(coefficient: i16, value: u32) -> i64
    ensures value { result ≡ coefficient *ℤ pos value }
    ensures near { Near (32768 * value) result }
{
    i64::from(coefficient) * i64::from(value)
}

// The greatest that a member adds with a value of its set.
fn highest(member: Member, sets: &[ValueSet]) -> i64
    ensures value { result ≡ high sets.now member }
    ensures near { Near (32768 * 64) result }
{
    let set = set_of(sets, member.voice);
    if member.argument >= 0 {
        product(member.argument, greatest_value(set))
    } else {
        product(member.argument, least_value(set))
    }
}

// The least and the greatest that a member adds with a value of its set. (Both products are made
// before the test, so there is no branch.)
fn ends(member: Member, sets: &[ValueSet]) -> (i64, i64)
    ensures low { result.0 ≡ low sets.now member }
    ensures high { result.1 ≡ high sets.now member }
    ensures low_near { Near (32768 * 64) result.0 }
    ensures high_near { Near (32768 * 64) result.1 }
{
    let set = set_of(sets, member.voice);
    let by_least = product(member.argument, least_value(set));
    let by_greatest = product(member.argument, greatest_value(set));
    if member.argument >= 0 {
        (by_least, by_greatest)
    } else {
        (by_greatest, by_least)
    }
}

// The sum of the greatest that each member adds, and the sum of what the fixed ones add, which is
// their greatest. (A loop: `sum` of signed numbers has no bound.)
fn sums(row: &Row, sets: &[ValueSet]) -> (i64, i64)
    ensures greatest { result.0 ≡ total (high sets.now) (row_of row.now).members }
    ensures placed { result.1 ≡ total (placed sets.now) (row_of row.now).members }
    ensures near { Near (MOST_MEMBERS * 32768 * 64) result.1 }
{
    let mut greatest = 0;
    let mut placed = 0;
    for m in row.members() {
        let term = highest(*m, sets);
        greatest += term;
        if is_fixed(set_of(sets, m.voice)) {
            placed += term;
        }
    }
    (greatest, placed)
}

// The values with which coefficient × value is at most the slack.
fn values_within(coefficient: i16, slack: i64) -> ValueSet
    ensures { result ≡ mask 64 (λ v. int_le (coefficient *ℤ pos v) slack) }
{
    let factor = u64::from(coefficient.unsigned_abs());
    let room = slack.unsigned_abs();
    if slack >= 0 {
        if coefficient > 0 {
            sets::values_up_to((room / factor).min(63) as u32)
        } else {
            u64::MAX
        }
    } else if coefficient < 0 {
        sets::values_from(room.div_ceil(factor).min(64) as u32)
    } else {
        0
    }
}

// Keeps of a member's set only the values with which it adds at most the slack; returns whether one
// went. The division is made only where one has to go.
fn keep_within(member: Member, sets: &mut [ValueSet], slack: i64) -> bool
    ensures after { sets.new ≡ cut member.voice (λ v. int_le (term member v) slack) sets.old }
    ensures value { result ≡ changed sets.new sets.old }
{
    if highest(member, sets) <= slack {
        return false;
    }
    keep_only(sets, member.voice, values_within(member.argument, slack))
}

// The least that each member adds, in order; the sum of these; and a number that no member's
// greatest is further above its least. All in one pass, since most of a turn's time goes here. The
// terms are in an array beside the members, since a turn takes no memory, and have half the bits,
// so that less is cleared.
fn lowest_terms(row: &Row, sets: &[ValueSet]) -> ([i32; MOST_MEMBERS], i64, i64)
    ensures long { length result.0 ≡ MOST_MEMBERS }
    ensures terms { take (length (row_of row.now).members) result.0 ≡
        map (low sets.now) (row_of row.now).members }
    ensures small { (k : ℕ) → Near (32768 * 64) (slice_index_or result.0 k (pos 0)) }
    ensures sum { result.1 ≡ total (low sets.now) (row_of row.now).members }
    ensures near { Near (MOST_MEMBERS * 32768 * 64) result.1 }
    ensures widest { list_all (λ m. int_le (high sets.now m -ℤ low sets.now m) result.2)
        (row_of row.now).members ≡ true }
{
    let mut lows = [0; MOST_MEMBERS];
    let mut sum = 0;
    let mut widest = 0;
    // by index: what is known of a term is known by its member's place
    for (i, m) in row.members().iter().enumerate() {
        let (low, high) = ends(*m, sets);
        lows[i] = low as i32;
        sum += low;
        widest = widest.max(high - low);
    }
    (lows, sum, widest)
}

// Empties every member's set; returns whether one had a value.
fn empty_all(members: &[Member], sets: &mut [ValueSet]) -> bool
    ensures after { sets.new ≡ cuts (λ m v. false) members.now sets.old }
    ensures value { result ≡ changed sets.new sets.old }
{
    let mut took = false;
    for m in members {
        took |= keep_only(sets, m.voice, 0);
    }
    took
}

// Whether the coefficients are all from -1,000 to 1,000.
fn are_small(members: &[Member]) -> bool
    ensures { result ≡ list_all (λ m. nat_le (unsigned_abs m.argument) 1000) members.now }
{
    members
        .iter()
        .all(|m| m.argument.unsigned_abs() <= LARGEST_COEFFICIENT)
}

// Whether bound and coefficients are in their ranges.
fn is_in_range(row: &Row) -> bool
    ensures { result ≡ linear_rule (row_of row.now) }
{
    bound(row).unsigned_abs() <= LARGEST_BOUND && are_small(row.members())
}

/// The kind of rows whose sum of coefficient × value is at most a bound; its letter is L.
pub struct Linear;

impl Linear {
    /// The row with this bound and these terms, each a voice and its coefficient: the sum of
    /// coefficient × value is at most the bound. A bound or a coefficient out of range is left to
    /// `accept`.
    pub fn row(heap: Global, bound: i32, terms: &[(u8, i16)]) -> Result<Row, RowError>
        ensures { Constructs (if_counted (linear_row bound terms.now)) result }
    {
        let mut row = Row::with_count(heap, Self::LETTER, terms.len(), &bound.to_le_bytes())?;
        for (voice, coefficient) in terms {
            row.push_member(Member {
                voice: u16::from(*voice),
                argument: *coefficient,
            });
        }
        Ok(row)
    }
}

impl Kind for Linear {
    ghost meaning = { linear };

    const LETTER: u8 = b'L';

    ghost LETTER = { linear.letter };

    ghost own_letter = { refl };

    const BODY_LENGTH: usize = 5;

    ghost BODY_LENGTH = { linear.body_length };

    ghost own_length = { refl };

    ghost lawful = { linear_lawful };

    fn accept(row: &Row, voices: usize) -> Result<(), KindRefusal> {
        let shaped = is_shaped(row, Self::LETTER, Self::BODY_LENGTH);
        kind_verdict(
            shaped,
            are_declared(row.members(), voices),
            is_in_range(row),
        )
    }

    // The least terms are those of the sets at the start of the turn: what the turn takes for one
    // member does not count for the next, though a voice may be named twice.
    fn turn(row: &Row, sets: &mut [ValueSet]) -> bool
        ensures after { sets.new ≡ linear.turn (row_of row.now) sets.old }
        ensures value { result ≡ changed sets.new sets.old }
    {
        let (lows, sum, widest) = lowest_terms(row, sets);
        let bound = bound(row);
        let spare = bound - sum;
        // no member's greatest passes its slack: nothing has to go
        if widest <= spare {
            return false;
        }
        // not even the least terms are within the bound: everything has to go
        if sum > bound {
            return empty_all(row.members(), sets);
        }
        let mut took = false;
        // by index: what `keep_within` needs of a term is known by the member's place
        for (i, m) in row.members().iter().enumerate() {
            took |= keep_within(*m, sets, spare + i64::from(lows[i]));
        }
        took
    }

    fn trace(row: &Row, sets: &[ValueSet]) -> Trace {
        let (greatest, placed) = sums(row, sets);
        if greatest <= bound(row) {
            Trace::Settled
        } else {
            let content = placed + CONTENT_OF_ZERO;
            Trace::Open(content.unsigned_abs())
        }
    }
}
