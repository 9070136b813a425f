//! An event that is named.

ghost use Rattle.report.specs.LossesEvents.{event_text, place_in};
ghost use Rattle.report.specs.LossesJson.{event_object};
ghost use Rattle.report.specs.Named.{named_event_object, named_event_text};
ghost use Rattle.report.specs.Places.{known_place, origin_in};
ghost use Rattle.std.specs.Prelude.{◌≡◌, option_map};

use crate::{Place, Places};
use machine::TracedEvent;
use std::fmt;

/// An event of a run by its number, and its place: `N hH pc=0xP line=L`.
#[derive(Clone, Copy)]
pub(crate) struct NamedEvent<'a> {
    pub(crate) number: u32,
    pub(crate) place: Option<Place<'a>>,
}

impl fmt::Display for NamedEvent<'_> {
    ghost use Rattle.report.specs.Named.{named_event_text};
    ghost use Rattle.std.specs.Prelude.{Some};

    ghost output = { λ event. Some (named_event_text event) };

    fn fmt<W: fmt::Write>(&self, f: &mut fmt::Formatter<W>) -> fmt::Result {
        match self.place {
            Some(place) => write!(f, "{} {place}", self.number),
            None => write!(f, "{}", self.number),
        }
    }
}

/// The event of this number among those of a run.
pub(crate) fn named_event<'a>(
    number: u32,
    traced: &[TracedEvent],
    places: &'a Places<'_>,
) -> NamedEvent<'a>
    ensures text { named_event_text result ≡ event_text (origin_in places.now) traced.now number }
    ensures json { named_event_object result ≡ event_object (origin_in places.now) traced.now number }
{
    NamedEvent {
        number,
        place: place_in(number, traced, places),
    }
}

fn place_in<'a>(number: u32, traced: &[TracedEvent], places: &'a Places<'_>) -> Option<Place<'a>>
    ensures { option_map known_place result ≡ place_in (origin_in places.now) traced.now number }
{
    if number == 0 {
        return None;
    }
    match traced.get(number as usize - 1) {
        Some(told) => Some(places.place_of(told)),
        None => None,
    }
}
