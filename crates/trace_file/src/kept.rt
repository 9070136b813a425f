//! The events of a trace file that are kept while its lines are read.

ghost use Rattle.std.specs.Prelude.{◌≡◌, ◌++◌, ◌∷◌, [], List, IfSome};
ghost use Rattle.trace_file.specs.Entries.{Entry as AnEntry, place_text};
ghost use Rattle.trace_file.specs.Kept.{HoldsEntries, KeepsAll};

use std::alloc::Global;
use store_trace::Event;

/// The events so far, by the lines of the text, each with the text of its place words.
#[derive(Drop)]
pub(crate) struct Kept<'a> {
    pub(crate) events: Vec<Event>,
    pub(crate) places: Vec<&'a [u8]>,
}

/// What is kept of no lines.
pub(crate) fn nothing<'a>(alloc: Global) -> Kept<'a>
    ensures { HoldsEntries [] result }
{
    Kept {
        events: Vec::new(alloc),
        places: Vec::new(alloc),
    }
}

/// With an event more, where memory allows it.
#[tactic(auto, using(crate::proofs::Keeping::one_more_kept))]
fn with<'a>(mut kept: Kept<'a>, event: Event, place: &'a [u8]) -> Option<Kept<'a>>
    ensures { IfSome result (λ grown. (entries : List AnEntry) (entry : AnEntry) → HoldsEntries entries kept.entry → entry.event ≡ event
        → place.now ≡ place_text entry.places → HoldsEntries (entries ++ entry ∷ []) grown) }
{
    if kept.events.push(event).is_err() {
        return None;
    }
    if kept.places.push(place).is_err() {
        return None;
    }
    Some(kept)
}

/// With an event more, where memory allowed keeping all before it, and allows this one too.
pub(crate) fn with_event<'a>(
    kept: Option<Kept<'a>>,
    event: Event,
    place: &'a [u8],
) -> Option<Kept<'a>>
    ensures { (entries : List AnEntry) (entry : AnEntry) → KeepsAll entries kept.entry → entry.event ≡ event
        → place.now ≡ place_text entry.places → KeepsAll (entries ++ entry ∷ []) result }
{
    match kept {
        Some(kept) => with(kept, event, place),
        None => None,
    }
}
