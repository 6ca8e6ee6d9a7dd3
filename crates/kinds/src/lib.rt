//! The four kinds of rows, and the bank of the four side by side.
#![tactic(auto)]

ghost use Rattle.std.specs.Prelude.{◌≡◌};
ghost use Rattle.kinds.specs.FourKinds.{four_kinds, ByLetter};

use crate::all_different::AllDifferent;
use crate::clause::Clause;
use crate::element::Element;
use crate::linear::Linear;
use rows::bank::{Alone, Bank, Beside};

pub mod all_different;
pub mod clause;
pub mod element;
pub mod linear;

/// The bank of the four kinds: all different, linear, clause and element.
pub type FourKinds = Beside<
    Alone<AllDifferent>,
    Beside<Alone<Linear>, Beside<Alone<Clause>, Alone<Element>>>,
>;

/// The bank means the four kinds side by side, where each row goes to the kind whose letter it has.
pub fn four_kinds_hold()
    ensures meaning { ⟦<FourKinds as Bank>⟧.meaning ≡ four_kinds }
    ensures letters { ByLetter }
{}
