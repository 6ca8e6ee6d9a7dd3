// The values of fixed sets.
ghost use Rattle.std.specs.Prelude.{◌≡◌, ◌≤◌, ◌++◌, length, drop};
ghost use Rattle.sets.specs.Placings.{values};

use sets::{ValueSet, least_value};

// Writes the values at the front of `out`; bytes beyond them stay.
pub(crate) fn write_values(sets: &[ValueSet], out: &mut [u8])
    requires { length sets.now ≤ length out.old }
    ensures { out.new ≡ values sets.now ++ drop (length sets.now) out.old }
{
    // By index: after a loop over `iter_mut` and `zip` nothing is known of what `out` holds.
    for (i, s) in sets.iter().enumerate() {
        out[i] = least_value(*s) as u8;
    }
}
