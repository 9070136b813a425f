//! Laws of causes, of mends and of Ends, as contracts of functions with empty bodies: a caller has one as what that call ensures.

ghost use Rattle.durability.specs.Causes.{IsCompletion, IsPast};
ghost use Rattle.durability.specs.Mends.{IsMend, event_of, with_event};
ghost use Rattle.durability.specs.Numbered.{event_at};
ghost use Rattle.durability.specs.Operations.{IsEndOf, IsEndOfLast};
ghost use Rattle.durability.specs.declared.cut.Kept.{Kept};
ghost use Rattle.durability.specs.declared.cut.Lost.{Lost};
ghost use Rattle.durability.specs.declared.mend.Deadline.{Deadline};
ghost use Rattle.durability.specs.declared.mend.Mend.TheVariants.{CleanAndFence, Fence};
ghost use Rattle.std.specs.Prelude.{◌≡◌, ◌+◌, ◌<◌, ◌≤◌, ◌↔◌, ℕ, List, Some, length};
ghost use Rattle.store_trace.specs.Floor.{floor};
ghost use Rattle.store_trace.specs.History.{at_moment};
ghost use Rattle.store_trace.specs.Stores.{stores};
ghost use Rattle.store_trace.specs.declared.event.Event.{Event};
ghost use Rattle.store_trace.specs.declared.event.Event.TheVariants as event;

/// Where a store is past its line's floor at a moment, no fence by that moment completes a clean of the line after the store: so
/// one that comes at all comes too late.
pub fn completions_come_late()
    ensures { (events : List Event) (moment hart line store fence : ℕ) → moment ≤ length events →
        IsPast events moment hart line store → IsCompletion events line store fence → moment < fence }
{}

/// An End ends the last Begin of its operation by its hart, of those before it that no End before it has ended.
pub fn ends_are_of_last_begins()
    ensures { (events : List Event) (end hart operation begin : ℕ) →
        (IsEndOf events end hart operation begin ↔ IsEndOfLast events end hart operation begin) }
{}

/// A mend is in time: with the fence put in behind the clean that it names and before its deadline, or with the clean and the fence put in
/// behind the store and before the deadline, the line's floor has reached the lost store right before the deadline.
pub fn mends_are_in_time()
    ensures fence { (events : List Event) (m : ℕ) (kept : List Kept) (lost : Lost) (behind : ℕ) (deadline : Deadline) (hart line place : ℕ) →
        IsMend events m kept lost (Fence behind deadline) → event_of deadline ≤ length events →
        event_at events behind ≡ Some (event.Clean hart line) → behind ≤ place → place < event_of deadline →
        stores lost.line (at_moment events lost.store)
        ≤ floor lost.line (at_moment (with_event events place (event.Fence hart)) (event_of deadline)) }
    ensures clean { (events : List Event) (m : ℕ) (kept : List Kept) (lost : Lost) (line behind : ℕ) (deadline : Deadline) (hart place further : ℕ) →
        IsMend events m kept lost (CleanAndFence line behind deadline) → event_of deadline ≤ length events →
        behind ≤ place → place ≤ further → further < event_of deadline →
        stores lost.line (at_moment events lost.store) ≤ floor lost.line
        (at_moment (with_event (with_event events further (event.Fence hart)) place (event.Clean hart line)) (event_of deadline + 1)) }
{}
