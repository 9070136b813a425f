//! Right answers by what has begun and ended of a run, each made once.

ghost use Rattle.every_schedule.specs.KnownAnswers.{AreKnown, IsNoted, answers_of};
ghost use Rattle.routine_judge.specs.SequentialRuns.{notes_in};
ghost use Rattle.std.specs.Prelude.{◌≡◌, Some, OnOk};

use routine_judge::{Precedence, RightAnswers, SequentialRuns};
use std::alloc::{AllocError, Global};
use std::collections::HashMap;

/// The right answers behind the precedences for which they were made.
#[derive(Drop)]
pub struct KnownAnswers {
    right: HashMap<Precedence, RightAnswers>,
}

impl KnownAnswers {
    ghost use Rattle.routine_judge.specs.declared.order.sequential_runs.SequentialRun.{SequentialRun};
    ghost use Rattle.std.specs.Prelude.{List};

    /// None is made yet.
    pub fn none(alloc: Global) -> KnownAnswers
        ensures { (notes : List SequentialRun) → AreKnown notes result }
    {
        KnownAnswers {
            right: HashMap::new(alloc),
        }
    }

    /// Makes those behind a precedence where they aren't known.
    pub fn note(
        &mut self,
        alloc: Global,
        runs: &SequentialRuns,
        precedence: &Precedence,
    ) -> Result<(), AllocError>
        requires { AreKnown (notes_in runs.now) self.old }
        ensures kept { AreKnown (notes_in runs.now) self.new }
        ensures noted { OnOk result (IsNoted self.new precedence.now) }
    {
        if self.right.get(precedence).is_some() {
            return Ok(());
        }
        let key = precedence.copied(alloc)?;
        let right = RightAnswers::of_fitting(alloc, runs, precedence)?;
        self.right.insert(key, right)?;
        Ok(())
    }

    /// Those behind a precedence for which they were made.
    pub fn behind(&self, precedence: &Precedence) -> &RightAnswers
        requires { IsNoted self.now precedence.now }
        ensures { answers_of self.now precedence.now ≡ Some result.now }
    {
        match self.right.get(precedence) {
            Some(right) => right,
            None => unreachable!(),
        }
    }
}
