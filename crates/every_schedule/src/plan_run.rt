//! One run alone, by a plan.

ghost use Rattle.every_schedule.specs.Showing.{IsVerdictThat};
ghost use Rattle.std.specs.Prelude.{IfSome};

use crate::outcome::Finding;
use crate::run_judge::{RunJudge, unfinished_in};
use crash_test::{Unwatched, Work, check_program};
use image_check::{Cause, CheckFault, OpFault, Verdict};
use machine::Run;
use plan::Plan;
use std::alloc::{AllocError, Global};
use std::thread::Threads;

/// A plan, by which one run alone is judged.
#[derive(Clone, Copy)]
pub struct PlanRun<'a> {
    pub plan: &'a Plan,
}

impl RunJudge for PlanRun<'_> {
    ghost use Rattle.every_schedule.specs.EverySchedule.{IsSaidOf};

    type Cause = Cause;

    type Fault = OpFault;

    ghost suits = { λ s run. Unit {0} };

    ghost says = { λ s run finding. IsSaidOf s.plan.now.operations run finding };

    fn judge_run<T: Threads + Sync>(
        &self,
        rt: &T,
        alloc: Global,
        run: &Run,
    ) -> Result<Option<Finding<Cause, OpFault>>, AllocError> {
        let work = Work {
            first: 0,
            last: None,
            workers: 1,
            goes_on: false,
        };
        match check_program(rt, alloc, self.plan, run, work, &mut Unwatched) {
            Ok(verdict) => Ok(wrong(verdict)),
            Err(CheckFault::Operation(fault)) => Ok(Some(Finding::Refused(fault))),
            Err(CheckFault::NoSuchMoment) => Ok(None),
            Err(CheckFault::Memory) => Err(AllocError),
        }
    }

    fn unfinished(
        &self,
        alloc: Global,
        run: &Run,
    ) -> Result<Option<Finding<Cause, OpFault>>, AllocError> {
        let causes = unfinished_in(alloc, self.plan.operations(), run)?;
        Ok(causes.map(Finding::NotWhole))
    }

    ghost stuck = { λ s run is. is };
}

/// The verdict, unless it is a pass.
fn wrong(verdict: Verdict<Cause>) -> Option<Finding<Cause, OpFault>>
    ensures { IfSome result (IsVerdictThat verdict) }
{
    match verdict {
        Verdict::Pass { .. } | Verdict::Open { .. } | Verdict::TooLong { .. } => None,
        Verdict::Fail { .. } | Verdict::TooMany { .. } => Some(Finding::Verdict(verdict)),
    }
}
