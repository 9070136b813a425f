//! Events as they are told, each by the name of its line and with where it was made.

ghost use Rattle.report.specs.Events.{known_event, line_words, whole};
ghost use Rattle.report.specs.Places.{origin_in};
ghost use Rattle.report.specs.Told.{AreOfFile, ArePlaced, ArePlacesOf, HasNumber, IsAmong, events_in, is_below, numbered, spaced_in};
ghost use Rattle.std.specs.Prelude.{◌≡◌, ◌≤◌, All, IfOk, length, slice_get};
ghost use Rattle.store_trace.specs.TraceView.{NamesLine};
ghost use Rattle.trace_file.specs.Ranks.{copies_of};

use crate::events::PlacedEvent;
use crate::origin::Origin;
use crate::place::{CodePlace, Places};
use machine::TracedEvent;
use std::alloc::{AllocError, Global};
use store_trace::Event;
use trace_file::{RankedTrace, spaced_words, with_name};

/// Events as they are told: each by the name of its line, and with where it was made. Of a trace file an event has
/// the number of its line as its step, and the number of its place, as `Places` has it, as its pc.
#[derive(Drop)]
pub struct ToldEvents<'a> {
    pub traced: Vec<TracedEvent>,
    pub places: Places<'a>,
    /// Of a trace file the place words of each event, all of them, each behind a blank. The places lack those that begin with `step=`.
    pub lines: Option<Vec<Vec<u8>>>,
}

impl<'a> ToldEvents<'a> {
    /// Those of a trace file.
    ///
    /// # Errors
    /// AllocError where a growth is refused.
    pub fn of_file(alloc: Global, ranked: &'a RankedTrace) -> Result<ToldEvents<'a>, AllocError>
        requires lines { All (NamesLine (length ranked.now.names.items)) ranked.now.trace.events }
        requires size { length ranked.now.places.items ≡ length ranked.now.trace.events }
        ensures told { IfOk result (AreOfFile ranked.now) }
        ensures size { IfOk result (λ told. length (events_in told) ≡ length ranked.now.trace.events) }
    {
        let places = different(alloc, &ranked.places)?;
        let events = ranked.trace.events();
        let traced = placed(alloc, events, &ranked.names, &ranked.places, &places)?;
        let lines = spaced(alloc, &ranked.places, true)?;
        Ok(ToldEvents {
            traced,
            places: Places::Traced(places),
            lines: Some(lines),
        })
    }
}

/// The place words of each text that are told.
fn spaced(alloc: Global, texts: &[Vec<u8>], with_steps: bool) -> Result<Vec<Vec<u8>>, AllocError>
    ensures { IfOk result (λ all. copies_of all.items ≡ spaced_in with_steps texts.now) }
{
    let mut all = Vec::new(alloc);
    for text in texts {
        all.push(spaced_words(alloc, text, with_steps)?)?;
    }
    Ok(all)
}

/// The place of each text, upwards by their bytes.
#[tactic(auto, using(crate::proofs::TracePlaces::each_there))]
fn different(alloc: Global, texts: &[Vec<u8>]) -> Result<Vec<Vec<u8>>, AllocError>
    ensures { IfOk result (λ places. ArePlacesOf texts.now places.items) }
{
    let mut places = spaced(alloc, texts, false)?;
    places.sort()?;
    Ok(places)
}

/// Whether a place is below another by its bytes.
fn is_below(place: &[u8], other: &[u8]) -> bool
    ensures { result ≡ is_below place.now other.now }
{
    place.cmp(&other).is_lt()
}

/// The number of a place: how many are below it.
fn number_of(places: &[Vec<u8>], place: &[u8]) -> usize
    requires { IsAmong places.now place.now }
    ensures { HasNumber places.now place.now result }
{
    places.partition_point(
        |other: &Vec<u8>| -> bool
            ensures { result ≡ is_below other.now.items place.entry.now }
        { is_below(other, place) },
    )
}

/// Events by the names of their lines, each with the numbers of its line and of the place that its text says.
#[tactic(auto, using(crate::proofs::TracePlaces::event_more, crate::proofs::TracePlaces::place_more, crate::proofs::TracePlaces::step_more))]
fn placed(
    alloc: Global,
    events: &[Event],
    names: &[u32],
    texts: &[Vec<u8>],
    places: &[Vec<u8>],
) -> Result<Vec<TracedEvent>, AllocError>
    requires few { length events.now ≤ 65536 }
    requires lines { All (NamesLine (length names.now)) events.now }
    requires size { length texts.now ≡ length events.now }
    requires places { ArePlacesOf texts.now places.now }
    ensures placed { IfOk result (λ traced. ArePlaced names.now events.now texts.now (numbered places.now) traced.items) }
    ensures size { IfOk result (λ traced. length traced.items ≡ length events.now) }
{
    let mut traced = Vec::new(alloc);
    for at in 0..events.len() {
        let place = spaced_words(alloc, &texts[at], false)?;
        traced.push(TracedEvent {
            step: at as u32 + 1,
            pc: number_of(places, &place) as u64,
            event: with_name(names, events[at]),
        })?;
    }
    Ok(traced)
}

/// The event of a number as it is printed whole.
pub(crate) fn whole<'a>(
    places: &'a Places<'_>,
    lines: &'a Option<Vec<Vec<u8>>>,
    number: u64,
    traced: TracedEvent,
) -> PlacedEvent<'a>
    requires { 1 ≤ number }
    ensures { known_event result ≡ whole (origin_in places.now) lines.now number traced }
{
    match lines {
        Some(lines) => PlacedEvent {
            step: traced.step,
            at: CodePlace {
                pc: traced.pc,
                origin: Origin::Words(line_words(lines, number as usize - 1)),
            },
            event: traced.event,
        },
        None => places.placed(&traced),
    }
}

/// The words of a line; none past the lines.
fn line_words(lines: &[Vec<u8>], at: usize) -> &[u8]
    ensures { result.now ≡ line_words (slice_get lines.now at) }
{
    match lines.get(at) {
        Some(words) => words.as_slice(),
        None => &[],
    }
}
