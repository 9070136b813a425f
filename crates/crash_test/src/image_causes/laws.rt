//! A law of the least failing cut, as the contract of a function with an empty body.

ghost use Rattle.store_trace.specs.Cut.{number_in};
ghost use Rattle.store_trace.specs.Floor.{floor};
ghost use Rattle.crash_test.specs.Told.{is_among};
ghost use Rattle.image_check.specs.Images.{image_after};
ghost use Rattle.image_check.specs.Verdicts.{IsLeastBad};
ghost use Rattle.image_check.specs.declared.cause.Cause.{Cause};
ghost use Rattle.nova_log.specs.Volumes.{asked_lines};
ghost use Rattle.plan.specs.declared.operation.Operation.{Operation};
ghost use Rattle.std.specs.Prelude.{◌≡◌, ◌<◌, ℕ, List, true};
ghost use Rattle.store_trace.specs.History.{history};
ghost use Rattle.store_trace.specs.declared.event.Event.{Event};

/// In the least failing cut each line above its floor is one that recovery of its image reads: no other is kept.
#[tactic(auto, using(crate::proofs::Least::kept_is_read))]
pub fn kept_lines_are_read()
    ensures { (plan : List Operation) (start : List (List ℕ)) (events : List Event) (cut : List (ℕ × ℕ)) (cause : Cause) (line : ℕ) →
        IsLeastBad plan start events cut cause → floor line (history events) < number_in cut line →
        is_among (asked_lines (image_after start events cut)) line ≡ true }
{}
