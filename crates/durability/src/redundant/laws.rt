//! The laws of needless events, each as the contract of a function with an empty body: a caller has the law as what that call
//! ensures.

ghost use Rattle.store_trace.specs.Cut.{IsCut};
ghost use Rattle.store_trace.specs.Floor.{floor};
ghost use Rattle.store_trace.specs.Image.{image};
ghost use Rattle.store_trace.specs.Stores.{writes};
ghost use Rattle.durability.specs.Found.{AreNeedless, left_at, without};
ghost use Rattle.durability.specs.Needless.{ChangesFloor, IsCleanOrFence};
ghost use Rattle.durability.specs.declared.redundant.reason.Needless.{Needless};
ghost use Rattle.std.specs.Prelude.{◌≡◌, ◌↔◌, ℕ, List, ◌∷◌, ◌++◌};
ghost use Rattle.store_trace.specs.History.{at_moment, history};
ghost use Rattle.store_trace.specs.declared.event.Event.{Event};

/// Leaving all needless events out changes no floor and no store of any moment, and so neither its cuts nor their images.
pub fn needless_leave_cuts()
    ensures floors { (events : List Event) (found : List Needless) → AreNeedless events found → (l m : ℕ) →
        floor l (history (left_at events found m)) ≡ floor l (at_moment events m) }
    ensures stores { (events : List Event) (found : List Needless) → AreNeedless events found → (l m : ℕ) →
        writes l (history (left_at events found m)) ≡ writes l (at_moment events m) }
    ensures cuts { (events : List Event) (found : List Needless) → AreNeedless events found →
        (m : ℕ) (cut : List (ℕ × ℕ)) → IsCut (at_moment events m) cut ↔ IsCut (history (left_at events found m)) cut }
    ensures images { (events : List Event) (found : List Needless) → AreNeedless events found →
        (start : List (List ℕ)) (k : ℕ → ℕ) (m : ℕ) →
        image start k (history (left_at events found m)) ≡ image start k (at_moment events m) }
{}

/// Leaving out any further clean or fence of what is left changes a floor.
pub fn none_is_left()
    ensures { (events : List Event) (found : List Needless) → AreNeedless events found →
        (before : List Event) (event : Event) (after : List Event) → without found 1 events ≡ before ++ (event ∷ after) →
        IsCleanOrFence event → ChangesFloor before event after }
{}

/// Each run has its needless events, each of them with one of the four reasons, and has them in one way alone.
pub fn reasons_are_all()
    ensures exist { (events : List Event) → (found : List Needless) × AreNeedless events found }
    ensures once { (events : List Event) (found others : List Needless) →
        AreNeedless events found → AreNeedless events others → others ≡ found }
{}
