//! The laws of verdicts, each as the contract of a function with nothing to run.

ghost use Rattle.verdict.specs.GoingOn.{IsVerdictOn};
ghost use Rattle.verdict.specs.Verdicts.{IsVerdictBetween, joined};
ghost use Rattle.verdict.specs.declared.moment_verdict.verdict.Verdict.{Verdict as AVerdict};
ghost use Rattle.store_trace.specs.declared.event.Event.{Event as AnEvent};
ghost use Rattle.std.specs.Prelude.{ℕ, ◌≤◌, Bool, List};

use crash_image::image_sums_join;
use std::marker::Brand;

/// Which verdict there is on each moment.
pub trait Judging<Cause> {
    ghost use Rattle.verdict.specs.declared.moment_verdict.verdict.MomentVerdict.{MomentVerdict};
    ghost use Rattle.std.specs.Prelude.{ℕ};

    ghost judged: { ℕ → MomentVerdict Cause → Type 0 };
}

impl<Cause> Judging<Cause> for Brand {
    ghost judged = { λ moment verdict. Unit {0} };
}

/// The verdict on two rows of moments, of which the second begins where the first ends, is that of the first that isn't a pass; where
/// both pass it is a pass of all their moments and images.
pub fn verdicts_join<Cause, J: Judging<Cause>>()
    ensures rows { (events : List AnEvent) (first middle end : ℕ) (one other : AVerdict Cause) →
        first ≤ middle → middle ≤ end → IsVerdictBetween J.judged events first middle one → IsVerdictBetween J.judged events middle end other →
        IsVerdictBetween J.judged events first end (joined one other) }

    // So it is where judging goes on: then the open moments of both are told.
    ensures on { (goes_on : Bool) (events : List AnEvent) (first middle end : ℕ) (one other : AVerdict Cause) → first ≤ middle → middle ≤ end →
        IsVerdictOn goes_on J.judged events first middle one → IsVerdictOn goes_on J.judged events middle end other →
        IsVerdictOn goes_on J.judged events first end (joined one other) }
{
    image_sums_join();
}
