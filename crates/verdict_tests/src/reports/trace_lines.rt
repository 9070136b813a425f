//! Whether a trace stays in a medium.

ghost use Rattle.std.specs.Prelude.{◌↔◌, All, IsTrue};
ghost use Rattle.store_trace.specs.TraceView.{NamesLine};

use store_trace::Event;

/// Whether the events name lines below `lines` alone.
pub(crate) fn names_lines(events: &[Event], lines: u32) -> bool
    ensures { IsTrue result ↔ All (NamesLine lines) events.now }
{
    events.iter().all(|event| names_line(*event, lines))
}

fn names_line(event: Event, lines: u32) -> bool
    ensures { IsTrue result ↔ NamesLine lines event }
{
    match event {
        Event::Store { line, .. } | Event::Clean { line, .. } => line < lines,
        Event::Fence { .. } | Event::Begin { .. } | Event::End { .. } => true,
    }
}
