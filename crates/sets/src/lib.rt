//! Sets of the values 0 to 63 (the domains of variables) as masks of 64 bits: bit v is set where
//! the value v is in the set.
#![tactic(auto)]

ghost use Rattle.std.specs.Prelude.{◌≡◌, ◌-◌, not, if◌then◌else◌, Some, None, ◌==◌, nat_eq, nat_le};
ghost use Rattle.sets.specs.Sets.{has, fixed, least, without_least, greatest, mask, sift};
ghost use Rattle.sets.specs.Laws.{SetLaws};

/// A set of the values 0 to 63, as a mask: bit v is set where v is in the set.
pub type ValueSet = u64;

/// Whether the value is in the set; no value above 63 is.
pub fn contains(set: ValueSet, value: u32) -> bool
    ensures { result ≡ has set value }
{
    value < 64 && (set >> value) & 1 == 1
}

/// Whether the set has no value.
pub fn is_empty(set: ValueSet) -> bool
    ensures { result ≡ (set == 0) }
{
    set == 0
}

/// Whether the set has exactly one value.
pub fn is_fixed(set: ValueSet) -> bool
    ensures { result ≡ fixed set }
{
    set.count_ones() == 1
}

/// The least value of a set; 64 where it is empty. (A number and no `Option`: a turn computes with
/// it as it is, also for rows that no bank has accepted.)
pub fn least_value(set: ValueSet) -> u32
    ensures { result ≡ least set }
{
    set.trailing_zeros()
}

/// The greatest value of a set; 0 where it is empty.
pub fn greatest_value(set: ValueSet) -> u32
    ensures { result ≡ greatest set }
{
    // the value 0 put in leaves the greatest as it is, or makes it 0
    63 - (set | 1).leading_zeros()
}

/// The value of a set that has exactly one; none of any other set.
pub fn only_value(set: ValueSet) -> Option<u32>
    ensures { result ≡ (if fixed set then Some (least set) else None) }
{
    is_fixed(set).then_some(least_value(set))
}

/// The set of this value alone; empty where the value is above 63.
pub fn single(value: u32) -> ValueSet
    ensures { result ≡ mask 64 (λ v. nat_eq v value) }
{
    if value < 64 { 1u64 << value } else { 0 }
}

/// The set of the values up to this one, and this one.
pub fn values_up_to(value: u32) -> ValueSet
    ensures { result ≡ mask 64 (λ v. nat_le v value) }
{
    if value < 63 {
        (2u64 << value) - 1
    } else {
        u64::MAX
    }
}

/// The set of the values from this one on; empty where it is above 63.
pub fn values_from(value: u32) -> ValueSet
    ensures { result ≡ mask 64 (λ v. nat_le value v) }
{
    if value < 64 {
        !((1u64 << value) - 1)
    } else {
        0
    }
}

/// The set without the value.
pub fn without(set: ValueSet, value: u32) -> ValueSet
    ensures { result ≡ sift (λ v. not (v == value)) set }
{
    set & !single(value)
}

/// Takes the least value out of a set and returns it; none where the set is empty.
pub fn take_least(set: &mut ValueSet) -> Option<u32>
    ensures value { result ≡ (if nat_eq set.old 0 then None else Some (least set.old)) }
    ensures after { set.new ≡ without_least set.old }
{
    if *set == 0 {
        return None;
    }
    let value = set.trailing_zeros();
    *set -= 1u64 << value;
    Some(value)
}

/// The laws of membership hold: what these functions say of which values are in a set.
pub fn set_laws_hold()
    ensures { SetLaws }
{}
