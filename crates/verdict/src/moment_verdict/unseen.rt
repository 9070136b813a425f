//! When a moment passes because the moment before it does.

ghost use Rattle.verdict.specs.Keeping.{IsUnseen};
ghost use Rattle.std.specs.Prelude.{◌↔◌, IsTrue};

use crate::branches::Opener;
use store_trace::Event;

/// Whether no image shows the event to a recovery that asks the lines which the opener has: it is no store to one of them.
pub fn is_unseen(event: Event, opener: &Opener) -> bool
    ensures { IsTrue result ↔ IsUnseen opener.now event }
{
    match event {
        Event::Store { line, .. } => !opener.was_asked(line),
        Event::Clean { .. } | Event::Fence { .. } | Event::Begin { .. } | Event::End { .. } => true,
    }
}
