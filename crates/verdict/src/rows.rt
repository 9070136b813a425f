//! The moments that are asked for.

ghost use Rattle.verdict.specs.Rows.{end_of};
ghost use Rattle.std.specs.Prelude.{◌≡◌, ℕ, ◌+◌, ◌<◌, ◌≤◌, List, length, IfSome};
ghost use Rattle.store_trace.specs.declared.event.Event.{Event as AnEvent};

/// One past the last of the moments asked for, of a run of so many: to its last one where none is given.
pub fn end_at(last: Option<u32>, moments: u32) -> u32
    requires { (0 < moments) × (moments ≤ 65537) }
    ensures end { (events : List AnEvent) → moments ≡ length events + 1 → result ≡ end_of events last }
    ensures later { (first : ℕ) → first < moments → IfSome last (λ moment. first ≤ moment) → first < result }
    ensures most { result ≤ moments }
{
    match last {
        Some(last) => last.min(moments - 1) + 1,
        None => moments,
    }
}
