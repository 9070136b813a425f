//! The laws of names and of sums, each as the contract of a function with an empty body.

ghost use Rattle.crash_image.specs.Named.{IsNameOf, IsNamed};
ghost use Rattle.crash_image.specs.Totals.{IsImageSum, sum_of};
ghost use Rattle.store_trace.specs.Cut.{IsCut};
ghost use Rattle.store_trace.specs.declared.crash_model.step.PersistenceStep.{PersistenceStep};
ghost use Rattle.text.specs.declared.image_name.name.ImageName.{ImageName};
ghost use Rattle.store_trace.specs.declared.event.Event.{Event};
ghost use Rattle.std.specs.Prelude.{◌≡◌, ℕ, ◌≤◌, List, Option};

/// The name that is told of a cut names that cut, and a name names at most one.
pub fn names_tell_cuts()
    ensures told { (p : List PersistenceStep) (cut : List (ℕ × ℕ)) (name : ImageName) →
        IsCut p cut → IsNameOf p cut name → IsNamed p name cut }
    ensures once { (p : List PersistenceStep) (name : ImageName) (cut other : List (ℕ × ℕ)) →
        IsNamed p name cut → IsNamed p name other → cut ≡ other }
{}

/// The images of two rows of moments, of which the second begins where the first ends, are those of both together.
#[tactic(auto, using(crate::proofs::Joining::sums_join))]
pub fn image_sums_join()
    ensures { (events : List Event) (first middle end : ℕ) (one other : Option ℕ) → first ≤ middle → middle ≤ end →
        IsImageSum events first middle one → IsImageSum events middle end other → IsImageSum events first end (sum_of one other) }
{}
