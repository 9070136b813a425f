//! What holds of the windows of moments.

ghost use Rattle.store_trace.specs.Marks.{begun_by, ended_by, pending};
ghost use Rattle.routine_judge.specs.MarkFaults.{AreSound};
ghost use Rattle.routine_judge.specs.Windows.{IsAlonePending, IsPendingFrom, IsWindow};
ghost use Rattle.routine_judge.specs.declared.history.moments.Window.{Window as AWindow};
ghost use Rattle.routine_judge.specs.declared.history.overlap.Overlap.TheVariants.{Never};
ghost use Rattle.std.specs.Prelude.{◌≡◌, ◌↔◌, ◌+◌, ◌<◌, ◌≤◌, ℕ, Contains, List, None, length, slice_index_or, take};
ghost use Rattle.store_trace.specs.declared.event.Event.{Event as AnEvent};

use crate::history::Window;

/// A moment has one window.
pub fn one_window()
    ensures { (events : List AnEvent) (moment : ℕ) (one other : AWindow) → IsWindow events moment one → IsWindow events moment other → one ≡ other }
{}

/// The operations that are pending are those that have begun and haven't ended.
pub fn pending_operations_began()
    ensures { (events : List AnEvent) (moment op : ℕ) → Contains (pending (take moment events)) op ↔ ((i : ℕ) × IsPendingFrom events moment i op) }
{}

/// While an operation is pending that overlaps no other, no other is pending.
pub fn alone_is_the_only_one()
    ensures { (events : List AnEvent) (moment before after : ℕ) → moment ≤ length events → IsAlonePending events moment before after →
        (i op : ℕ) → IsPendingFrom events moment i op → i ≡ before }
{}

/// Where operations don't overlap, the full images of one moment or of two give the right answers.
pub fn operations_apart_have_few()
    ensures { (events : List AnEvent) (moment first last : ℕ) → AreSound Never events (length events) → ¬ IsWindow events moment (Window.Through first last) }
{}

/// A window begins before its moment, ends at it or behind it, and lies in the run.
pub fn windows_lie_in_the_run()
    ensures either { (events : List AnEvent) (moment before after : ℕ) → moment ≤ length events → IsWindow events moment (Window.Either before after) →
        (before < moment) × (moment ≤ after) × (after ≤ length events) }
    ensures through { (events : List AnEvent) (moment first last : ℕ) → moment ≤ length events → IsWindow events moment (Window.Through first last) →
        (first < moment) × (moment ≤ last) × (last ≤ length events) }
{}

/// An event that is no mark leaves the window as it is.
#[tactic(auto, using(crate::proofs::Staying::window_stays))]
pub fn windows_stay_between_marks()
    ensures { (events : List AnEvent) (moment : ℕ) (d : AnEvent) (window : AWindow) → moment < length events →
        begun_by (slice_index_or events moment d) ≡ None → ended_by (slice_index_or events moment d) ≡ None →
        IsWindow events moment window → IsWindow events (moment + 1) window }
{}
