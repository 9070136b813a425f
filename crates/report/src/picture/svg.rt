//! The picture of a run.

ghost use Rattle.std.specs.Prelude.{◌≤◌, length};

use crate::events::PlacedEvent;
use crate::picture::drawing::{Drawing, draw};
use crate::picture::legend::push_title;
use crate::picture::rows::{Row, rows_of};
use std::alloc::{AllocError, Global};

/// How many stores of a cache line a crash image has.
#[derive(Clone, Copy)]
pub struct ImageLine {
    pub line: u32,
    pub stores: u32,
}

/// How many cache lines are shown at most, unless more of them may lose stores.
const MOST_LINES: usize = 40;

/// How many events are shown at most.
const MOST_EVENTS: usize = 200;

/// An SVG of the events of a run up to a moment: a row for each cache line that was stored, upwards, and a column for each event,
/// with a title that tells where it was made, and below the column its number and its source line. A store that a power cut may lose
/// is hollow; where `image` tells an image, it is half full if the image has it, and crossed if it is lost. Behind each row stand its
/// floor and its number of stores, and that of the image. Above stand how the stores fare and what the shapes mean. Harts have colours
/// where there are several.
///
/// Of more than 40 cache lines only those are shown whose stores may be lost, and of more than 200 events only the last 200.
pub fn picture_text(
    alloc: Global,
    events: &[PlacedEvent<'_>],
    image: Option<&[ImageLine]>,
) -> Result<String, AllocError> {
    let mut rows = rows_of(alloc, events)?;
    let mut title = String::new(alloc);
    push_title(&mut title, events, &rows, image)?;
    if rows.len() > MOST_LINES {
        rows.retain(Row::may_lose);
    }
    let last = last_events(events);
    let drawing = Drawing {
        events: last,
        before: events.len().saturating_sub(last.len()),
        rows: &rows,
        image,
    };
    draw(alloc, title.as_str(), drawing)
}

/// The last 200 events.
fn last_events<'a, 'b>(events: &'a [PlacedEvent<'b>]) -> &'a [PlacedEvent<'b>]
    ensures { length result.now ≤ 200 }
{
    let (_, last) = events.split_at(events.len().saturating_sub(MOST_EVENTS));
    last
}
