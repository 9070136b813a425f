//! A search by a judge with a rule of turns that notes what it has seen.

use crate::calls::states::{OWN, OWN_LOGS, Routine};
use hart::Status;
use schedule_states::{Explored, Start, StateImages, StateJudge, StateVerdict, Unwatched, explore};
use std::alloc::{AllocError, Global};
use std::thread::Threads;
use store_trace::Event;

/// Hart h goes once h operations have ended. What is kept is how many have, and what is noted is the most of that.
#[derive(Drop)]
struct InTurn;

impl StateJudge for InTurn {
    ghost use Rattle.program_tests.specs.Turns.{none_ended};
    ghost use Rattle.std.proofs.Common.{◌∙◌};
    ghost use Rattle.std.proofs.lemmas.Bool.{eqb-true};
    ghost use Rattle.std.specs.Prelude.{◌≡◌, ◌≤◌, length};
    ghost use Rattle.store_trace.specs.Marks.{ended};

    type Standing = u32;

    type Workspace = u32;

    ghost stands = { λ s count events. length (ended events) ≡ count };

    ghost allows = { λ s events hart. hart ≤ length (ended events) };

    ghost good = { λ s most events full image. length (ended events) ≤ most };

    ghost happens = { λ s events lines. Unit {0} };

    ghost ends = { λ s status. Unit {0} };

    ghost demands = { λ s. ⊥ };

    ghost fits = { λ s lines most. Unit {0} };

    fn start(&self, _alloc: Global) -> Result<u32, AllocError> {
        Ok(0)
    }

    #[tactic(auto, using(crate::specs::Turns::end_counted, crate::specs::Turns::begin_counted, crate::specs::Turns::fence_counted, crate::specs::Turns::clean_counted, crate::specs::Turns::store_counted))]
    fn after(
        &self,
        _alloc: Global,
        standing: &u32,
        mark: Event,
    ) -> Result<Option<u32>, AllocError> {
        let ended = match mark {
            Event::End { .. } => standing.checked_add(1),
            Event::Store { .. } | Event::Clean { .. } | Event::Fence { .. } | Event::Begin { .. } =>
                Some(*standing),
        };
        Ok(ended)
    }

    fn may_go(&self, standing: &u32, hart: u32) -> bool {
        hart <= *standing
    }

    fn workspace(&self, _alloc: Global, _lines: u32) -> Result<u32, AllocError> {
        Ok(0)
    }

    fn judge<T: Threads + Sync>(
        &self,
        _rt: &T,
        _alloc: Global,
        workspace: &mut u32,
        _images: &StateImages<'_, '_>,
        standing: &u32,
    ) -> Result<StateVerdict, AllocError> {
        if *workspace < *standing {
            *workspace = *standing;
        }
        Ok(StateVerdict::Good)
    }

    fn may_end(&self, _status: Status) -> bool {
        true
    }

    fn must_end(&self) -> bool {
        false
    }

    fn may_claim(&self) -> bool {
        false
    }

    ghost unmarked = { λ s count events event plain kept. none_ended events event plain.ended ∙ kept };

    ghost equal = { λ s count other events same kept. kept ∙ eqb-true count other same };
}

/// How many states there are where harts go in turn, and how many operations have ended at most, as is noted.
fn in_turn<T: Threads + Sync>(rt: &T, alloc: Global, harts: u32) -> Option<(usize, u32)> {
    let routine = Routine {
        source: OWN_LOGS,
        plan: OWN,
        harts,
    };
    let setup = routine.setup(alloc)?;
    if setup.harts > 8 {
        return None;
    }
    let start = Start {
        program: &setup.program,
        medium: &setup.medium,
        harts: setup.harts,
        most: 1_000,
        workers: 1,
    };
    let mut most = 0;
    match explore(rt, alloc, &InTurn, start, &mut most, &mut Unwatched).ok()? {
        Explored::All { states, .. } => Some((states, most)),
        Explored::Found { .. } | Explored::NoWayOut { .. } | Explored::TooMany => None,
    }
}

/// A hart makes eleven requests, one behind the other, so that it is in one of twelve places. In turn each hart goes from the first to the
/// last.
#[test]
fn harts_that_may_not_go_are_not_tried(rt: HostRuntime) {
    assert!(rt; in_turn(&rt, rt.alloc(), 1) == Some((12, 1)));
    assert!(rt; in_turn(&rt, rt.alloc(), 2) == Some((23, 2)));
    assert!(rt; in_turn(&rt, rt.alloc(), 3) == Some((34, 3)));
}
