//! One run alone, by a recovery routine and the sequential runs of its program.

ghost use Rattle.every_schedule.specs.AllAnswers.{IsWrongThat};
ghost use Rattle.std.specs.Prelude.{IfSome};

use crate::outcome::Finding;
use crate::run_judge::{RunJudge, unfinished_in};
use crate::sequential::Recovery;
use crash_test::{Unwatched, Work, judge_program};
use machine::Run;
use routine_judge::{Cause, JudgeFault, Judgement, MarkFault, ProgramRuns, Rule, Verdict};
use std::alloc::{AllocError, Global};
use std::thread::Threads;

/// A recovery routine, and the sequential runs of the program, by which one run alone is judged.
#[derive(Clone, Copy)]
pub struct RoutineRun<'a> {
    pub recovery: Recovery<'a>,
    pub runs: ProgramRuns<'a>,
}

impl RunJudge for RoutineRun<'_> {
    ghost use Rattle.every_schedule.specs.AllAnswers.{IsSaidByRoutine};
    ghost use Rattle.routine_judge.specs.Rules.{program_with};
    ghost use Rattle.routine_judge.specs.SequentialRuns.{AreSequentialRuns, notes_in};

    type Cause = Cause;

    type Fault = MarkFault;

    ghost suits = { λ s run. AreSequentialRuns (program_with s.runs run.setup.medium s.recovery.program.now s.recovery.steps) (notes_in s.runs.runs.now) };

    ghost says = { λ s run finding. IsSaidByRoutine (program_with s.runs run.setup.medium s.recovery.program.now s.recovery.steps) run finding };

    fn judge_run<T: Threads + Sync>(
        &self,
        rt: &T,
        alloc: Global,
        run: &Run,
    ) -> Result<Option<Finding<Cause, MarkFault>>, AllocError> {
        let judgement = Judgement {
            recovery: self.recovery.program,
            steps: self.recovery.steps,
            rule: Rule::Atomic(self.runs),
        };
        let work = Work {
            first: 0,
            last: None,
            workers: 1,
            goes_on: false,
        };
        match judge_program(rt, alloc, run, judgement, work, &mut Unwatched) {
            Ok(verdict) => Ok(wrong(verdict)),
            Err(JudgeFault::Marks(fault)) => Ok(Some(Finding::Refused(fault))),
            Err(JudgeFault::NoSuchMoment) => Ok(None),
            Err(JudgeFault::Memory) => Err(AllocError),
        }
    }

    fn unfinished(
        &self,
        alloc: Global,
        run: &Run,
    ) -> Result<Option<Finding<Cause, MarkFault>>, AllocError> {
        let causes = unfinished_in(alloc, &[], run)?;
        Ok(causes.map(Finding::NotWhole))
    }

    ghost stuck = { λ s run is. is };
}

/// The verdict, unless it is a pass.
fn wrong(verdict: Verdict<Cause>) -> Option<Finding<Cause, MarkFault>>
    ensures { IfSome result (IsWrongThat verdict) }
{
    match verdict {
        Verdict::Pass { .. } | Verdict::Open { .. } => None,
        Verdict::Fail { .. } | Verdict::TooMany { .. } | Verdict::TooLong { .. } => {
            Some(Finding::Verdict(verdict))
        }
    }
}
