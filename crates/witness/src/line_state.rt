//! What a run without evictions leaves of a line.

ghost use Rattle.store_trace.specs.History.{history, steps_of};
ghost use Rattle.store_trace.specs.TraceView.{IsEvent};
ghost use Rattle.store_trace.specs.WrittenBack.{written_back};
ghost use Rattle.store_trace.specs.declared.crash_model.step.PersistenceStep.{PersistenceStep};
ghost use Rattle.witness.specs.LineState.{IsAfter};
ghost use Rattle.std.specs.Prelude.{◌≡◌, ◌+◌, ◌<◌, ◌≤◌, ◌++◌, [], All, List, length};

use store_trace::{Event, MAX_HARTS};

/// How many of the first stores of `line` the events leave written back, over a cache with room for every line that they use,
/// where none is evicted.
pub(crate) fn written_back(events: &[Event], line: u32) -> u32
    requires each { All IsEvent events.now }
    requires few { length events.now ≤ 65536 }
    ensures { result ≡ written_back line (history events.now) }
{
    let mut state = LineState::at_start(line);
    for event in events {
        state.follow(*event);
    }
    state.written_back
}

/// A line after some events.
#[derive(Drop)]
struct LineState {
    line: u32,
    stores: u32,
    /// How many of its first stores are written back.
    written_back: u32,
    /// For each hart how many stores stand before its last clean of the line.
    cleaned: [u32; MAX_HARTS],
}

impl LineState {
    fn at_start(line: u32) -> LineState
        ensures line { result.line ≡ line }
        ensures none { result.stores ≡ 0 }
        ensures after { IsAfter [] result }
    {
        LineState {
            line,
            stores: 0,
            written_back: 0,
            cleaned: [0; MAX_HARTS],
        }
    }

    /// One event further.
    fn follow(&mut self, event: Event)
        requires event { IsEvent event }
        requires few { self.old.stores < 65536 }
        ensures line { self.new.line ≡ self.old.line }
        ensures more { self.new.stores ≤ self.old.stores + 1 }
        ensures after { (p : List PersistenceStep) → IsAfter p self.old → IsAfter (steps_of event ++ p) self.new }
    {
        match event {
            Event::Store { line, .. } if line == self.line => self.stores += 1,
            Event::Clean { hart, line } if line == self.line => {
                self.cleaned[hart as usize] = self.stores;
            }
            Event::Fence { hart } if self.written_back < self.cleaned[hart as usize] => {
                self.written_back = self.stores;
            }
            _ => {}
        }
    }
}
