//! The picture of events up to a moment.

ghost use Rattle.crash_image.specs.Named.{IsNamed};
ghost use Rattle.crash_image.specs.View.{HasLines};
ghost use Rattle.report.specs.Picturing.{HasImageAt, IsUnnamed, LacksPicture};
ghost use Rattle.report.specs.Told.{events_in};
ghost use Rattle.std.specs.Prelude.{◌≤◌, ℕ, List, IfErr, IfOk, OnOk, length};

use crate::events::PlacedEvent;
use crate::picture::svg::{ImageLine, picture_text};
use crate::told::{ToldEvents, whole};
use crash_image::{Cut, Cuts, ImageFault};
use line_memory::Medium;
use std::alloc::{AllocError, Global};
use store_trace::Trace;
use text::ImageName;

/// How many stores of each line one crash image of a moment of events over a medium has, where an image is named. A moment is the
/// number of events before it.
///
/// # Errors
/// NoSuchMoment past the events; NotACut where no image of the moment is named so. Memory where a growth is refused.
pub fn image_stores(
    alloc: Global,
    medium: &Medium,
    trace: &Trace,
    moment: u32,
    image: &Option<ImageName>,
) -> Result<Option<Vec<ImageLine>>, ImageFault>
    requires { HasLines medium.now trace.now.events }
    ensures moment { OnOk result (moment ≤ length trace.now.events) }
    ensures ok { OnOk result (HasImageAt trace.now.events moment image.now) }
    ensures err { IfErr result (LacksPicture trace.now.events moment image.now) }
{
    let cuts = match Cuts::at(alloc, medium, trace, moment) {
        Ok(cuts) => cuts,
        Err(ImageFault::NoSuchMoment) => return Err(ImageFault::NoSuchMoment),
        Err(_) => return Err(ImageFault::Memory),
    };
    match image {
        Some(image) => Ok(Some(named_lines(alloc, &cuts, image)?)),
        None => Ok(None),
    }
}

/// How many stores of each line the image of this name has.
fn named_lines(
    alloc: Global,
    cuts: &Cuts<'_>,
    image: &ImageName,
) -> Result<Vec<ImageLine>, ImageFault>
    ensures ok { OnOk result ((cut : List (ℕ × ℕ)) × IsNamed cuts.now.steps image.now cut) }
    ensures err { IfErr result (IsUnnamed cuts.now.steps image.now) }
{
    let cut = match cuts.named(alloc, image) {
        Ok(cut) => cut,
        Err(ImageFault::NotACut) => return Err(ImageFault::NotACut),
        Err(_) => return Err(ImageFault::Memory),
    };
    match lines_of(alloc, &cut) {
        Ok(lines) => Ok(lines),
        Err(_) => Err(ImageFault::Memory),
    }
}

fn lines_of(alloc: Global, cut: &Cut) -> Result<Vec<ImageLine>, AllocError> {
    let mut lines = Vec::new(alloc);
    for (line, stores) in cut.entries() {
        lines.push(ImageLine {
            line: *line,
            stores: *stores,
        })?;
    }
    Ok(lines)
}

/// A picture, as the text of an SVG, of events up to a moment, each with where it was made; and with the stores of each line that an
/// image has, where one is shown.
pub fn picture_at(
    alloc: Global,
    told: &ToldEvents<'_>,
    moment: u32,
    image: &Option<Vec<ImageLine>>,
) -> Result<String, AllocError>
    requires { moment ≤ length (events_in told.now) }
{
    let events = placed(alloc, told, moment)?;
    match image {
        Some(image) => picture_text(alloc, &events, Some(image)),
        None => picture_text(alloc, &events, None),
    }
}

/// The events before a moment as they are printed whole.
fn placed<'a>(
    alloc: Global,
    told: &'a ToldEvents<'_>,
    moment: u32,
) -> Result<Vec<PlacedEvent<'a>>, AllocError>
    requires { moment ≤ length (events_in told.now) }
{
    let mut events = Vec::new(alloc);
    let traced = told.traced.as_slice();
    for at in 0..moment as usize {
        let number = at as u64 + 1;
        events.push(whole(&told.places, &told.lines, number, traced[at]))?;
    }
    Ok(events)
}
