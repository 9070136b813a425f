//! Whether from each state of a program one can come to an end, where all its states were met.

ghost use Rattle.std.specs.Prelude.{◌≡◌, ◌<◌, ◌^◌, ℕ, [], None, true, length, IfOk, IfSome};
ghost use Rattle.schedule_states.specs.Ending.{AreEnds};
ghost use Rattle.schedule_states.specs.Exploring.{IfAll, IfNoWayOut, IsAll, LeadByHarts};
ghost use Rattle.schedule_states.specs.Ways.{AreInside};
ghost use Rattle.schedule_states.specs.WaysOut.{AreAllTurns, EachCanEnd, HasNone, HasWayOut, LeadToNone, LeadsNowhere};

use crate::exploring::Explored;
use crate::moments::{Judged, Moment};
use crate::numbers::Numbers;
use crate::reached::Reached;
use crate::state_judge::StateJudge;
use crate::ways::{arrives, first_stuck};
use std::alloc::{AllocError, Global};

/// What is known where all states were judged, and each is good: where that is asked for, that each has a way out, or the first one that has
/// none.
pub fn all_judged<J: StateJudge>(
    judge: &J,
    reached: &Reached<'_, J>,
    judged: &Judged,
) -> Result<Explored, AllocError>
    requires few { length reached.now.states < 2 ^ 32 }
    requires some { 0 < length reached.now.states }
    requires turns { judged.now.ways.asked ≡ true → AreAllTurns (J.stands judge.now) (J.allows judge.now) reached.now judged.now.ways.next.items }
    ensures ends { IfOk result (λ explored. IfAll explored (judged.now.ways.asked ≡ true → EachCanEnd (J.stands judge.now) reached.now)) }
    ensures requests { IfOk result (λ explored. LeadByHarts reached.now.harts explored
        × IfNoWayOut explored (λ requests. reached.now.parts.claims ≡ [] → LeadsNowhere (J.stands judge.now) reached.now requests)) }
{
    if !judged.ways.asked {
        return Ok(all_of(reached, &judged.moments));
    }
    match stuck_state(reached, judged)? {
        Some(number) => shown(reached, judged, number),
        None => Ok(all_of(reached, &judged.moments)),
    }
}

/// So many states and moments were judged.
fn all_of<J: StateJudge>(reached: &Reached<'_, J>, moments: &Numbers<'_, Moment>) -> Explored
    ensures { IsAll result }
{
    Explored::All {
        states: reached.count(),
        moments: moments.as_slice().len(),
    }
}

/// The first state from which one can't come to an end.
fn stuck_state<J: StateJudge>(
    reached: &Reached<'_, J>,
    judged: &Judged,
) -> Result<Option<u32>, AllocError>
    requires count { length judged.now.ways.next.items ≡ length reached.now.states }
    requires few { length reached.now.states < 2 ^ 32 }
    requires inside { AreInside judged.now.ways.next.items }
    ensures none { IfOk result (λ found. found ≡ None → (n : ℕ) → n < length reached.now.states → HasWayOut reached.now judged.now.ways.next.items n) }
    ensures found { IfOk result (λ found. IfSome found (HasNone reached.now judged.now.ways.next.items)) }
{
    let mut marks = ends(judged.alloc, reached)?;
    Ok(first_stuck(&judged.ways.next, &mut marks))
}

/// Of each state whether all its harts have stopped.
fn ends<J: StateJudge>(alloc: Global, reached: &Reached<'_, J>) -> Result<Vec<bool>, AllocError>
    requires { length reached.now.states < 2 ^ 32 }
    ensures { IfOk result (λ marks. AreEnds reached.now marks.items (length reached.now.states)) }
{
    let count = reached.count() as u32;
    let mut marks = Vec::with_capacity(alloc, count as usize)?;
    for number in 0..count {
        marks.push(reached.has_stopped(number))?;
    }
    Ok(marks)
}

/// The requests that lead to a state from which one can't come to an end.
fn shown<J: StateJudge>(
    reached: &Reached<'_, J>,
    judged: &Judged,
    number: u32,
) -> Result<Explored, AllocError>
    requires some { 0 < length judged.now.ways.next.items }
    requires inside { AreInside judged.now.ways.next.items }
    requires none { HasNone reached.now judged.now.ways.next.items number }
    ensures requests { IfOk result (λ explored. LeadByHarts reached.now.harts explored × IfNoWayOut explored (LeadToNone reached.now judged.now.ways.next.items)) }
    ensures no_pass { IfOk result (λ explored. IfAll explored ⊥) }
{
    reached.are_numbered();
    let requests = reached.requests_to(judged.alloc, number)?;
    if arrives(&judged.ways.next, &requests) == number {
        Ok(Explored::NoWayOut { requests })
    } else {
        Ok(Explored::TooMany)
    }
}
