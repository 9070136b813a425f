//! What a crash image lacks and keeps.

ghost use Rattle.crash_image.specs.View.{HasLines};
ghost use Rattle.store_trace.specs.Cut.{number_in};
ghost use Rattle.store_trace.specs.Image.{image};
ghost use Rattle.crash_test.specs.Told.{AreTold, IsTold, IsToldBy, LacksImage};
ghost use Rattle.std.specs.Prelude.{◌≡◌, ◌≤◌, All, IfErr, IfOk, length};
ghost use Rattle.store_trace.specs.TraceView.{NamesLine};

use crate::image_causes::parting::{others, those};
use crate::image_causes::reading::{LogReader, Reader};
use crash_image::{Cut, Cuts, ImageFault};
use durability::{ToldCut, tell_cut};
use line_memory::Medium;
use std::alloc::{AllocError, Global};
use store_trace::Trace;
use text::ImageName;

/// What a crash image lacks and keeps.
#[derive(Debug, Drop)]
pub struct ToldImage {
    /// What it lacks and keeps of the lines that recovery reads, which go upwards.
    pub read: ToldCut,
    /// How many lines that recovery doesn't read lack a store.
    pub unread: usize,
}

/// What the crash image of this name, of a moment of the trace over the medium, lacks and keeps of the lines that recovery of the log
/// volume reads: it depends on no others.
///
/// # Errors
/// NoSuchMoment past the last event, and NotACut where the moment has no image of this name. Memory where a growth is refused.
pub fn tell_image(
    alloc: Global,
    medium: &Medium,
    trace: &Trace,
    moment: u32,
    image: &ImageName,
) -> Result<ToldImage, ImageFault>
    requires { HasLines medium.now trace.now.events }
    ensures ok { IfOk result (IsTold medium.now trace.now.events moment image.now) }
    ensures err { IfErr result (LacksImage trace.now.events moment image.now) }
{
    tell_image_by(alloc, medium, trace, moment, image, &LogReader)
}

/// What the crash image of this name, of a moment of the trace over the medium, lacks and keeps of the lines that a recovery reads of it.
///
/// # Errors
/// As those of `tell_image`.
pub fn tell_image_by<R: Reader>(
    alloc: Global,
    medium: &Medium,
    trace: &Trace,
    moment: u32,
    image: &ImageName,
    reader: &R,
) -> Result<ToldImage, ImageFault>
    requires { HasLines medium.now trace.now.events }
    ensures ok { IfOk result (IsToldBy (R.reads reader.now) medium.now trace.now.events moment image.now) }
    ensures err { IfErr result (LacksImage trace.now.events moment image.now) }
{
    let cuts = match Cuts::at(alloc, medium, trace, moment) {
        Ok(cuts) => cuts,
        Err(ImageFault::NoSuchMoment) => return Err(ImageFault::NoSuchMoment),
        Err(_) => return Err(ImageFault::Memory),
    };
    let cut = match cuts.named(alloc, image) {
        Ok(cut) => cut,
        Err(ImageFault::NotACut) => return Err(ImageFault::NotACut),
        Err(_) => return Err(ImageFault::Memory),
    };
    let read = lines_read_of(alloc, &cuts, &cut, reader)?;
    Ok(told_of(alloc, trace, medium.lines(), moment, &cut, &read)?)
}

/// The lines that a recovery reads of the image of a cut.
fn lines_read_of<R: Reader>(
    alloc: Global,
    cuts: &Cuts<'_>,
    cut: &Cut,
    reader: &R,
) -> Result<Vec<u32>, AllocError>
    ensures { IfOk result (λ read. R.reads reader.now (image cuts.now.start (number_in cut.now) cuts.now.steps) read.items) }
{
    match cuts.image_of(alloc, cut) {
        Ok(image) => reader.lines_read(alloc, &image),
        Err(_) => Err(AllocError),
    }
}

/// What a cut lacks and keeps, of whose lines recovery reads these.
#[tactic(auto, using(crate::proofs::Lacking::lacking_count))]
fn told_of(
    alloc: Global,
    trace: &Trace,
    lines: u32,
    moment: u32,
    cut: &Cut,
    read: &[u32],
) -> Result<ToldImage, AllocError>
    requires named { All (NamesLine lines) trace.now.events }
    requires moment { moment ≤ length trace.now.events }
    ensures { IfOk result (AreTold trace.now.events moment cut.now read.now) }
{
    let asked = those(alloc, cut, read)?;
    let unread = others(alloc, cut, read)?;
    let rest = tell_cut(alloc, trace, lines, moment, &unread)?;
    Ok(ToldImage {
        read: tell_cut(alloc, trace, lines, moment, &asked)?,
        unread: rest.lost.len(),
    })
}
