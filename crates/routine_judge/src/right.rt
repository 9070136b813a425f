//! Right answers: those of a routine on some full images.

ghost use Rattle.routine_judge.specs.Gathered.{AreRightAfter, IsAdded, IsJudgedBy};
ghost use Rattle.routine_judge.specs.Order.{AreOrdered};
ghost use Rattle.routine_judge.specs.SequentialRuns.{AreSequentialRuns, notes_in};
ghost use Rattle.routine_judge.specs.Views.{ProgramView};
ghost use Rattle.recovery.specs.declared.recovery_run.Cause.TheVariants.{Running};
ghost use Rattle.std.specs.List.{Contains};
ghost use Rattle.std.specs.Prelude.{◌≡◌, ◌≢◌, ◌↔◌, ◌⊎◌, ℕ, List, [], Ok, true, false, None, Some, IfOk, IsTrue, OnErr, OnOk};
ghost use Rattle.store_trace.specs.declared.event.Event.{Event as AnEvent};

use crate::Cause;
use crate::held::HeldAnswer;
use crate::order::{Precedence, SequentialRuns};
use recovery::{Answer, Cause as RunCause};
use std::alloc::{AllocError, Global};

/// The answers of a routine on some full images, each once.
#[derive(Drop)]
pub struct RightAnswers {
    pub answers: Vec<HeldAnswer>,
    /// Why the routine has no answer on the last of the full images where it has none.
    pub last_cause: Option<RunCause>,
    /// Whether on one of them it runs on after all its steps.
    pub runs_on: bool,
}

impl RightAnswers {
    /// Those on no image.
    pub fn none(alloc: Global) -> RightAnswers
        ensures answers { result.answers.items ≡ [] }
        ensures cause { result.last_cause ≡ None }
        ensures on { result.runs_on ≡ false }
    {
        RightAnswers {
            answers: Vec::new(alloc),
            last_cause: None,
            runs_on: false,
        }
    }

    /// Those on the full images of the sequential runs that fit the events of which this is the precedence.
    pub fn of_fitting(
        alloc: Global,
        runs: &SequentialRuns,
        precedence: &Precedence,
    ) -> Result<RightAnswers, AllocError>
        ensures { IfOk result (λ right. (view : ProgramView) (p : List AnEvent) → AreSequentialRuns view (notes_in runs.now) → AreOrdered p precedence.now →
            AreRightAfter view p right) }
    {
        let mut right = RightAnswers::none(alloc);
        let notes = runs.as_slice();
        for note in notes {
            if precedence.fits(&note.word) {
                right.add_copy(alloc, &note.found)?;
            }
        }
        Ok(right)
    }

    /// Takes in what the routine came to on one full image more.
    ///
    /// # Errors
    /// A growth was refused. They are the same then.
    pub fn add(&mut self, found: Result<Answer, RunCause>) -> Result<(), AllocError>
        ensures ok { OnOk result (IsAdded found self.old self.new) }
        ensures err { OnErr result ((self.new.answers.items ≡ self.old.answers.items) × (self.new.last_cause ≡ self.old.last_cause) × (self.new.runs_on ≡ self.old.runs_on)) }
    {
        match found {
            Ok(answer) => self.add_answer(HeldAnswer::own(answer))?,
            Err(cause) => self.add_cause(cause),
        }
        Ok(())
    }

    /// Takes in a copy of that.
    ///
    /// # Errors
    /// A growth was refused. They are the same then.
    pub(crate) fn add_copy(
        &mut self,
        alloc: Global,
        found: &Result<Answer, RunCause>,
    ) -> Result<(), AllocError>
        ensures ok { OnOk result (IsAdded found.now self.old self.new) }
        ensures err { OnErr result ((self.new.answers.items ≡ self.old.answers.items) × (self.new.last_cause ≡ self.old.last_cause) × (self.new.runs_on ≡ self.old.runs_on)) }
    {
        match found {
            Ok(answer) => {
                let copy = HeldAnswer::copied(alloc, answer)?;
                self.add_answer(copy)?;
            }
            Err(cause) => self.add_cause(*cause),
        }
        Ok(())
    }

    /// Takes in why there is no answer on a further one.
    fn add_cause(&mut self, cause: RunCause)
        ensures answers { self.new.answers ≡ self.old.answers }
        ensures cause { self.new.last_cause ≡ Some cause }
        ensures on { self.new.runs_on ≡ true → (self.old.runs_on ≡ true) ⊎ (cause ≡ Running) }
        ensures ends { self.new.runs_on ≡ false → (self.old.runs_on ≡ false) × (cause ≢ Running) }
    {
        self.last_cause = Some(cause);
        self.runs_on = self.runs_on || cause == RunCause::Running;
    }

    /// Adds an answer, unless it is there.
    pub(crate) fn add_answer(&mut self, answer: HeldAnswer) -> Result<(), AllocError>
        ensures answers { OnOk result ((bytes : List ℕ) → Contains self.new.answers.items bytes ↔ (Contains self.old.answers.items bytes ⊎ (bytes ≡ answer))) }
        ensures cause { self.new.last_cause ≡ self.old.last_cause }
        ensures on { self.new.runs_on ≡ self.old.runs_on }
        ensures err { OnErr result (self.new.answers.items ≡ self.old.answers.items) }
    {
        if !self.has(answer.bytes()) {
            self.answers.push(answer)?;
        }
        Ok(())
    }

    /// Whether the bytes are a right answer.
    pub(crate) fn has(&self, bytes: &[u8]) -> bool
        ensures { IsTrue result ↔ Contains self.now.answers.items bytes.now }
    {
        self.answers.iter().any(|right| right.bytes() == bytes)
    }

    /// What an image is found to be, on which the routine came to this: why it is bad, or None where its answer is a right one.
    pub(crate) fn judge(&self, found: &Result<Answer, RunCause>) -> Option<Cause>
        ensures { IsJudgedBy self.now found.now result }
    {
        match found {
            Err(cause) => Some(Cause::Missing(*cause)),
            Ok(answer) => self.judge_answer(answer),
        }
    }

    fn judge_answer(&self, answer: &Answer) -> Option<Cause>
        ensures { IsJudgedBy self.now (Ok answer.now) result }
    {
        if self.has(answer.bytes()) {
            return None;
        }
        if !self.answers.is_empty() {
            return Some(Cause::Different);
        }
        match self.last_cause {
            Some(cause) => Some(Cause::Full(cause)),
            None => Some(Cause::Unmatched),
        }
    }
}
