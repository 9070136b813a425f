//! The laws of states, each as the contract of a function with an empty body.

ghost use Rattle.std.specs.Prelude.{◌≡◌, ℕ, Option, true};
ghost use Rattle.std.specs.Global.{Vec as AVec};
ghost use Rattle.hart.specs.declared.state.HartState.{HartState as AHartState};
ghost use Rattle.schedule_states.specs.Memories.{AreSame};
ghost use Rattle.schedule_states.specs.declared.held_lines.HeldLine.{HeldLine as AHeldLine};
ghost use Rattle.schedule_states.specs.declared.line_state.LineState.{LineState as AState};
ghost use Rattle.schedule_states.specs.declared.moments.Moment.{Moment as AMoment};
ghost use Rattle.schedule_states.specs.declared.program_state.HartPart.{HartPart as AHartPart};
ghost use Rattle.schedule_states.specs.declared.program_state.StateNumbers.{StateNumbers as ANumbers};

use crate::held_lines::HeldLine;
use crate::line_state::LineState;
use crate::moments::Moment;
use crate::program_state::{HartPart, StateNumbers};
use hart::HartState;

fn equal_states_are_same()
    ensures { (a b : AHartState) → ⟦<HartState as PartialEq>⟧.eq a b ≡ true → a ≡ b }
{}

/// Lines that are reserved, or none, and are equal are the same.
pub(crate) fn equal_reserved_are_same()
    ensures { (a b : Option ℕ) → ⟦<Option<u64> as PartialEq>⟧.eq a b ≡ true → a ≡ b }
{}

/// Parts of harts that are equal are the same.
pub(crate) fn equal_parts_are_same()
    ensures { (a b : AHartPart) → ⟦<HartPart as PartialEq>⟧.eq a b ≡ true → a ≡ b }
{
    equal_states_are_same();
    equal_reserved_are_same();
}

/// Moments that are equal are the same.
pub(crate) fn equal_moments_are_same()
    ensures { (a b : AMoment) → ⟦<Moment as PartialEq>⟧.eq a b ≡ true → a ≡ b }
{}

/// Numbers of states that are equal are the same.
pub(crate) fn equal_numbers_are_same()
    ensures { (a b : ANumbers) → ⟦<StateNumbers as PartialEq>⟧.eq a b ≡ true → a ≡ b }
{}

/// States of a line that are equal are the same.
pub(crate) fn equal_lines_are_same()
    ensures { (one other : AState) → ⟦<LineState as PartialEq>⟧.eq one other ≡ true → AreSame one other }
{}

/// Lists of held lines that are equal are the same.
pub(crate) fn equal_lists_are_same()
    ensures { (one other : AVec AHeldLine) → ⟦<Vec<HeldLine> as PartialEq>⟧.eq one other ≡ true → one.items ≡ other.items }
{}
