//! A trace read as persistence steps.

ghost use Rattle.store_trace.specs.Stores.{IsInLine};
ghost use Rattle.std.specs.Prelude.{◌≡◌, List, [], ◌∷◌, ◌++◌, All};
ghost use Rattle.store_trace.specs.History.{history, steps_of};
ghost use Rattle.store_trace.specs.TraceView.{IsEvent};
ghost use Rattle.store_trace.specs.declared.event.Event.{Event};

/// One more event is one more step in front of the history, and none where it is a mark.
pub fn history_grows()
    ensures none { history [] ≡ [] }
    ensures more { (events : List Event) (event : Event) →
        history (events ++ event ∷ []) ≡ steps_of event ++ history events }
{}

/// The stores of a trace lie in their lines.
#[tactic(auto, using(crate::proofs::InLines::all_in_lines))]
pub fn stores_lie_in_lines()
    ensures { (events : List Event) → All IsEvent events → All IsInLine (history events) }
{}
