//! Whether a medium has the lines that a trace names.

ghost use Rattle.crash_image.specs.View.{HasLines, NamesLine};
ghost use Rattle.std.specs.Prelude.{◌↔◌, IsTrue};

use line_memory::Medium;
use store_trace::{Event, Trace};

/// Whether the medium has every line that the trace names.
pub fn has_lines(medium: &Medium, trace: &Trace) -> bool
    ensures { IsTrue result ↔ HasLines medium.now trace.now.events }
{
    let lines = medium.lines();
    for event in trace.events() {
        if !names_line(*event, lines) {
            return false;
        }
    }
    true
}

fn names_line(event: Event, lines: u32) -> bool
    ensures { IsTrue result ↔ NamesLine lines event }
{
    match event {
        Event::Store { line, .. } | Event::Clean { line, .. } => line < lines,
        Event::Fence { .. } | Event::Begin { .. } | Event::End { .. } => true,
    }
}
