//! A recovery routine judges the states of a search: its answer is right where it is that of a sequential run that fits.

use crate::known_answers::KnownAnswers;
use crate::sequential::Recovery;
use crate::state_cuts::{StateCuts, verdict_of};
use hart::Status;
use machine::Setup;
use routine_judge::{AnswerImages, AnswersWorkspace, Precedence, SequentialRuns, judge_images};
use schedule_states::{StateImages, StateJudge, StateVerdict};
use std::alloc::{AllocError, Global};
use std::thread::Threads;
use store_trace::Event;

/// A recovery routine, by whose answers the states of a search are judged once an operation has begun.
#[derive(Drop)]
pub struct AtomicJudge<'a> {
    /// What a run starts from.
    pub setup: &'a Setup,
    pub recovery: Recovery<'a>,
    /// The sequential runs of the program.
    pub runs: &'a SequentialRuns,
    /// Whether harts may stop in any way.
    pub any_end: bool,
}

/// What images are judged in, and what is noted of the states.
#[derive(Drop)]
pub struct AtomicNotes {
    pub answers: AnswersWorkspace,
    /// The right answers behind the precedences of the states that were judged.
    pub known: KnownAnswers,
    /// Whether in one of them an operation has begun.
    pub has_begun: bool,
}

impl StateJudge for AtomicJudge<'_> {
    ghost use Rattle.every_schedule.specs.AllAnswers.{IsGoodAfter, IsReached, SomeBegins};
    ghost use Rattle.every_schedule.specs.KnownAnswers.{AreKnown};
    ghost use Rattle.every_schedule.specs.Sequential.{program_of};
    ghost use Rattle.hart.specs.declared.state.Status.{Status};
    ghost use Rattle.routine_judge.proofs.Equal.{equal_ordered};
    ghost use Rattle.routine_judge.proofs.Preceding.{other_operations};
    ghost use Rattle.routine_judge.specs.Order.{AreOrdered, operations_in};
    ghost use Rattle.routine_judge.specs.SequentialRuns.{notes_in};
    ghost use Rattle.std.specs.Prelude.{◌≡◌, false, true, length};

    type Standing = Precedence;

    type Workspace = AtomicNotes;

    ghost stands = { λ s precedence events. AreOrdered events precedence };

    ghost allows = { λ s events hart. Unit {0} };

    ghost good = { λ s notes events full image.
        IsGoodAfter (program_of s.setup.now s.recovery.program.now s.recovery.steps) (notes_in s.runs.now) events image };

    ghost happens = { λ s events lines. IsReached s.setup.now events };

    ghost ends = { λ s status. s.any_end ≡ false → status ≡ Status.Exited 0 };

    ghost demands = { λ s. s.any_end ≡ false };

    ghost fits = { λ s lines notes. (notes.answers.program ≡ s.recovery.program.now) × (notes.answers.lines ≡ lines)
        × (notes.has_begun ≡ true → SomeBegins s.setup.now) × AreKnown (notes_in s.runs.now) notes.known };

    fn start(&self, alloc: Global) -> Result<Precedence, AllocError> {
        Ok(Precedence::none(alloc))
    }

    fn after(
        &self,
        alloc: Global,
        standing: &Precedence,
        mark: Event,
    ) -> Result<Option<Precedence>, AllocError> {
        match standing.after(alloc, mark)? {
            Ok(next) => Ok(Some(next)),
            Err(_fault) => Ok(None),
        }
    }

    fn may_go(&self, _standing: &Precedence, _hart: u32) -> bool {
        true
    }

    fn workspace(&self, alloc: Global, lines: u32) -> Result<AtomicNotes, AllocError> {
        Ok(AtomicNotes {
            answers: AnswersWorkspace::new(alloc, self.recovery.program, lines)?,
            known: KnownAnswers::none(alloc),
            has_begun: false,
        })
    }

    fn judge<T: Threads + Sync>(
        &self,
        rt: &T,
        alloc: Global,
        notes: &mut AtomicNotes,
        images: &StateImages<'_, '_>,
        standing: &Precedence,
    ) -> Result<StateVerdict, AllocError> {
        if standing.is_empty() {
            return Ok(StateVerdict::Good);
        }
        notes.known.note(alloc, self.runs, standing)?;
        let right = notes.known.behind(standing);
        let cuts = StateCuts::new(images);
        let judged = AnswerImages {
            images: &cuts,
            program: self.recovery.program,
            steps: self.recovery.steps,
            right,
        };
        let verdict = judge_images(rt, alloc, &judged, &mut notes.answers)?;
        notes.has_begun = true;
        Ok(verdict_of(&verdict))
    }

    fn may_end(&self, status: Status) -> bool {
        self.any_end || status == Status::Exited(0)
    }

    fn must_end(&self) -> bool {
        !self.any_end
    }

    fn may_claim(&self) -> bool {
        true
    }

    ghost unmarked = { λ s precedence events event plain kept.
        other_operations events event (operations_in precedence) plain.begun plain.ended kept };

    ghost equal = { λ s one other events same kept. equal_ordered events one other same kept };
}
