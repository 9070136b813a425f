//! A plan judges the states of a search.

use crate::state_cuts::{StateCuts, verdict_of};
use hart::Status;
use image_check::{CheckFault, ImagesWorkspace, PlanState, judge_images, starting_volume};
use line_memory::Medium;
use plan::Plan;
use schedule_states::{StateImages, StateJudge, StateVerdict};
use std::alloc::{AllocError, Global};
use std::thread::Threads;
use store_trace::Event;

/// A plan, by which the states of a search are judged: each image recovers to a volume that the operations allow.
#[derive(Drop)]
pub struct PlanJudge<'a> {
    pub plan: &'a Plan,
    /// The medium that a run starts from.
    pub medium: &'a Medium,
    /// Whether harts may stop in any way.
    pub any_end: bool,
}

impl StateJudge for PlanJudge<'_> {
    ghost use Rattle.image_check.specs.Images.{IsGood};
    ghost use Rattle.image_check.specs.PlanStates.{IsPlanState};
    ghost use Rattle.image_check.proofs.Following.{state_kept, state_same};
    ghost use Rattle.nova_log.specs.Volumes.{volume_of};
    ghost use Rattle.std.specs.Prelude.{◌≡◌, false, length};
    ghost use Rattle.std.specs.Result.{result_ok};
    ghost use Rattle.hart.specs.declared.state.Status.{Status};

    type Standing = PlanState;

    type Workspace = ImagesWorkspace;

    ghost stands = { λ s state events. IsPlanState s.plan.now.operations (result_ok (volume_of s.medium.now)) events state };

    ghost allows = { λ s events hart. Unit {0} };

    ghost good = { λ s workspace events full image. IsGood s.plan.now.operations s.medium.now events image };

    ghost happens = { λ s events lines. Unit {0} };

    ghost ends = { λ s status. s.any_end ≡ false → status ≡ Status.Exited 0 };

    ghost demands = { λ s. s.any_end ≡ false };

    ghost fits = { λ s lines workspace. workspace ≡ lines };

    fn start(&self, alloc: Global) -> Result<PlanState, AllocError> {
        let before = starting_volume(alloc, self.medium)?;
        Ok(PlanState::first(alloc, before))
    }

    fn after(
        &self,
        alloc: Global,
        standing: &PlanState,
        mark: Event,
    ) -> Result<Option<PlanState>, AllocError> {
        match standing.after(alloc, self.plan, mark) {
            Ok(next) => Ok(Some(next)),
            Err(CheckFault::Memory) => Err(AllocError),
            Err(_fault) => Ok(None),
        }
    }

    fn may_go(&self, _standing: &PlanState, _hart: u32) -> bool {
        true
    }

    fn workspace(&self, alloc: Global, lines: u32) -> Result<ImagesWorkspace, AllocError> {
        ImagesWorkspace::new(alloc, lines)
    }

    fn may_end(&self, status: Status) -> bool {
        self.any_end || status == Status::Exited(0)
    }

    fn must_end(&self) -> bool {
        !self.any_end
    }

    fn may_claim(&self) -> bool {
        true
    }

    fn judge<T: Threads + Sync>(
        &self,
        rt: &T,
        alloc: Global,
        workspace: &mut ImagesWorkspace,
        images: &StateImages<'_, '_>,
        standing: &PlanState,
    ) -> Result<StateVerdict, AllocError> {
        let cuts = StateCuts::new(images);
        let verdict = judge_images(rt, alloc, &cuts, self.plan, standing, workspace)?;
        Ok(verdict_of(&verdict))
    }

    ghost unmarked = { λ s state events event plain kept.
        state_kept s.plan.now.operations (result_ok (volume_of s.medium.now)) events event state plain.begun plain.ended kept };

    ghost equal = { λ s state other events same kept.
        state_same s.plan.now.operations (result_ok (volume_of s.medium.now)) events state other same kept };
}
