//! A search for the sequential runs of a program: which harts it lets go, and what it notes.

ghost use Rattle.every_schedule.specs.Sequential.{IsNewNote};
ghost use Rattle.routine_judge.specs.SequentialRuns.{notes_in};
ghost use Rattle.schedule_states.specs.Images.{image_in};
ghost use Rattle.std.specs.Prelude.{◌≡◌, ◌⊎◌, Contains, OnOk, length};
ghost use Rattle.routine_judge.specs.declared.order.sequential_runs.SequentialRun.{SequentialRun as ANote};

use crate::state_cuts::FullCuts;
use hart::Status;
use machine::Setup;
use program::Program;
use routine_judge::{AnswersWorkspace, SequentialRun, SequentialRuns, SequentialState, Word};
use schedule_states::{StateImages, StateJudge, StateVerdict};
use std::alloc::{AllocError, Global};
use std::thread::Threads;
use store_trace::Event;

/// Lets operations be made alone, one after the other, and notes the runs that are at rest.
#[derive(Drop)]
pub struct SequentialJudge<'a> {
    /// What the runs start from.
    pub setup: &'a Setup,
    /// The recovery routine.
    pub recovery: &'a Program,
    /// How many steps it makes at most on an image.
    pub steps: u32,
}

impl StateJudge for SequentialJudge<'_> {
    ghost use Rattle.every_schedule.specs.KeptRuns.{kept_equal, kept_unmarked};
    ghost use Rattle.every_schedule.specs.Sequential.{AreOfProgram, GoesOn, IsKeptOf, IsNoted, IsOnItsWay, program_of};
    ghost use Rattle.routine_judge.specs.SequentialRuns.{notes_in};
    ghost use Rattle.std.specs.Prelude.{◌≡◌, length};

    /// None where a mark is wrong: the run isn't followed further.
    type Standing = Option<SequentialState>;

    type Workspace = Notes;

    ghost stands = { λ s standing events. IsKeptOf standing events };

    ghost allows = { λ s events hart. GoesOn events hart };

    ghost good = { λ s notes events full image. IsNoted (program_of s.setup.now s.recovery.now s.steps) (notes_in notes.runs) events full };

    ghost happens = { λ s events lines. IsOnItsWay (program_of s.setup.now s.recovery.now s.steps) events lines };

    ghost ends = { λ s status. Unit {0} };

    ghost demands = { λ s. ⊥ };

    ghost fits = { λ s lines notes. (notes.answers.program ≡ s.recovery.now) × (notes.answers.lines ≡ lines)
        × AreOfProgram (program_of s.setup.now s.recovery.now s.steps) (notes_in notes.runs) };

    fn start(&self, alloc: Global) -> Result<Option<SequentialState>, AllocError> {
        Ok(Some(SequentialState::first(alloc)))
    }

    fn after(
        &self,
        alloc: Global,
        standing: &Option<SequentialState>,
        mark: Event,
    ) -> Result<Option<Option<SequentialState>>, AllocError> {
        match standing {
            Some(state) => Ok(Some(state.after(alloc, mark)?)),
            None => Ok(Some(None)),
        }
    }

    fn may_go(&self, standing: &Option<SequentialState>, hart: u32) -> bool {
        match standing {
            Some(state) => state.may_go(hart),
            None => false,
        }
    }

    fn workspace(&self, alloc: Global, lines: u32) -> Result<Notes, AllocError> {
        Ok(Notes {
            answers: AnswersWorkspace::new(alloc, self.recovery, lines)?,
            runs: SequentialRuns::none(alloc),
        })
    }

    fn judge<T: Threads + Sync>(
        &self,
        _rt: &T,
        alloc: Global,
        notes: &mut Notes,
        images: &StateImages<'_, '_>,
        standing: &Option<SequentialState>,
    ) -> Result<StateVerdict, AllocError> {
        let Some(state) = standing else {
            return Ok(StateVerdict::Good);
        };
        if !state.is_at_rest() {
            return Ok(StateVerdict::Good);
        }
        notes.note(alloc, images, state.word(), self.steps)?;
        Ok(StateVerdict::Good)
    }

    fn may_end(&self, _status: Status) -> bool {
        true
    }

    /// An operation that waits for another one comes to no end, and gives no run.
    fn must_end(&self) -> bool {
        false
    }

    /// What loads find behind a run is noted, so steps of harts may not be left out.
    fn may_claim(&self) -> bool {
        false
    }

    ghost unmarked = { λ s standing events event plain kept. kept_unmarked standing events event plain kept };

    ghost equal = { λ s one other events same kept. kept_equal one other events same kept };
}

/// The runs that were noted, and what the routine is run in.
#[derive(Drop)]
pub struct Notes {
    pub answers: AnswersWorkspace,
    pub runs: SequentialRuns,
}

impl Notes {
    /// Notes a run at rest of this word, and what the routine comes to on what loads find behind it.
    fn note(
        &mut self,
        alloc: Global,
        images: &StateImages<'_, '_>,
        word: &Word,
        steps: u32,
    ) -> Result<(), AllocError>
        requires { self.old.answers.lines ≡ length images.now.start.medium }
        ensures same { self.new.answers ≡ self.old.answers }
        ensures kept { (other : ANote) → Contains (notes_in self.old.runs) other → Contains (notes_in self.new.runs) other }
        ensures noted { OnOk result ((note : ANote) × Contains (notes_in self.new.runs) note
            × IsNewNote self.old.answers.program steps (image_in images.now (λ l. 0)) word.now note) }
        ensures only { (note : ANote) → Contains (notes_in self.new.runs) note → Contains (notes_in self.old.runs) note
            ⊎ IsNewNote self.old.answers.program steps (image_in images.now (λ l. 0)) word.now note }
    {
        let found = self
            .answers
            .full_answer(alloc, &FullCuts::new(images), steps)?;
        let word = Word::of(alloc, word.operations())?;
        self.runs.add(SequentialRun { word, found })
    }
}
