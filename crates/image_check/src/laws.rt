//! The laws of verdicts, each as the contract of a function with nothing to run.

ghost use Rattle.image_check.specs.PlanStates.{IsPendingOn, IsPlanState};
ghost use Rattle.image_check.specs.Verdicts.{IsMomentVerdict, IsVerdictBetween, judged_at};
ghost use Rattle.verdict.specs.GoingOn.{IsVerdictOn};
ghost use Rattle.verdict.specs.Verdicts.{joined};
ghost use Rattle.verdict.specs.declared.moment_verdict.verdict.MomentVerdict.{MomentVerdict as AMomentVerdict};
ghost use Rattle.verdict.specs.declared.moment_verdict.verdict.Verdict.{Verdict as AVerdict};
ghost use Rattle.plan.specs.declared.operation.Operation.{Operation as AnOperation};
ghost use Rattle.store_trace.specs.declared.event.Event.{Event as AnEvent};
ghost use Rattle.image_check.specs.declared.plan_state.PlanState.{PlanState as APlanState};
ghost use Rattle.nova_log.specs.declared.volume.entry.Entry.{Entry as AnEntry};
ghost use Rattle.store_trace.specs.Marks.{begun_by, ended, ended_by};
ghost use Rattle.std.specs.List.{Contains};
ghost use Rattle.std.specs.Prelude.{◌≡◌, ◌↔◌, ℕ, ◌≤◌, ◌++◌, ◌∷◌, [], true, None, Bool, List, Option};

use crate::{Cause, PlanState};
use crash_image::image_sums_join;

/// A moment has at most one verdict, and so has a row of moments: two checks that answer one each answer the same.
#[tactic(auto, using(crate::proofs::Single::moment_once, crate::proofs::Single::verdict_once, crate::proofs::Single::verdict_on_once))]
pub fn one_verdict()
    ensures moment { (plan : List AnOperation) (start : List (List ℕ)) (events : List AnEvent) (verdict other : AMomentVerdict Cause) →
        IsMomentVerdict plan start events verdict → IsMomentVerdict plan start events other → verdict ≡ other }
    ensures run { (plan : List AnOperation) (start : List (List ℕ)) (events : List AnEvent) (first end : ℕ) (verdict other : AVerdict Cause) →
        IsVerdictBetween plan start events first end verdict → IsVerdictBetween plan start events first end other → verdict ≡ other }

    // So it is where judging goes on behind moments with too many branches.
    ensures on { (goes_on : Bool) (plan : List AnOperation) (start : List (List ℕ)) (events : List AnEvent) (first end : ℕ) (verdict other : AVerdict Cause) →
        IsVerdictOn goes_on (judged_at plan start events) events first end verdict → IsVerdictOn goes_on (judged_at plan start events) events first end other →
        verdict ≡ other }
{}

/// The verdict on two rows of moments, of which the second begins where the first ends, is that of the first that isn't a pass; where
/// both pass it is a pass of all their moments and images.
pub fn verdicts_join()
    ensures rows { (plan : List AnOperation) (start : List (List ℕ)) (events : List AnEvent) (first middle end : ℕ) (one other : AVerdict Cause) →
        first ≤ middle → middle ≤ end → IsVerdictBetween plan start events first middle one → IsVerdictBetween plan start events middle end other →
        IsVerdictBetween plan start events first end (joined one other) }

    // So it is where judging goes on behind moments with too many branches: then the open ones of both are told.
    ensures on { (goes_on : Bool) (plan : List AnOperation) (start : List (List ℕ)) (events : List AnEvent) (first middle end : ℕ) (one other : AVerdict Cause) →
        first ≤ middle → middle ≤ end → IsVerdictOn goes_on (judged_at plan start events) events first middle one →
        IsVerdictOn goes_on (judged_at plan start events) events middle end other →
        IsVerdictOn goes_on (judged_at plan start events) events first end (joined one other) }
{
    image_sums_join();
}

/// What a state stands for: it is the same after an event that neither begins nor ends an operation, and equal states stand for the
/// same events. States with the same volume are equal where the same operations are pending, begun by the same harts, and the same
/// have ended, in whatever order.
#[tactic(auto, using(crate::proofs::Following::state_same))]
pub fn plan_states_stand()
    ensures kept { (plan : List AnOperation) (start : Option (List (List AnEntry))) (events : List AnEvent) (event : AnEvent) (state : APlanState) →
        begun_by event ≡ None → ended_by event ≡ None → IsPlanState plan start events state → IsPlanState plan start (events ++ event ∷ []) state }
    ensures equal { (plan : List AnOperation) (start : Option (List (List AnEntry))) (events : List AnEvent) (state other : APlanState) →
        ⟦<PlanState as PartialEq>⟧.eq state other ≡ true → IsPlanState plan start events state → IsPlanState plan start events other }
    ensures one { (plan : List AnOperation) (start : Option (List (List AnEntry))) (events others : List AnEvent) (state other : APlanState) →
        IsPlanState plan start events state → IsPlanState plan start others other → state.outcomes.settled ≡ other.outcomes.settled →
        ((hart op : ℕ) → IsPendingOn events hart op ↔ IsPendingOn others hart op) →
        ((op : ℕ) → Contains (ended events) op ↔ Contains (ended others) op) → ⟦<PlanState as PartialEq>⟧.eq state other ≡ true }
{}
