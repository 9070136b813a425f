//! The crash images of a moment of events over a medium: how many there are, and the lines of one.

ghost use Rattle.crash_image.specs.View.{HasLines, NamesLine};
ghost use Rattle.crash_test.specs.Answers.{IsImageOf};
ghost use Rattle.crash_test.specs.Images.{AreImageLines, CountsImages, LacksMoment, lines_of};
ghost use Rattle.crash_test.specs.Told.{LacksImage};
ghost use Rattle.crash_test.specs.declared.images.ImageLine.{ImageLine as AnImageLine};
ghost use Rattle.std.specs.Prelude.{◌≡◌, ◌<◌, ℕ, All, IfErr, IfOk, length};
ghost use Rattle.store_trace.specs.Cut.{IsCut};
ghost use Rattle.store_trace.specs.History.{at_moment};

use crash_image::{Cut, Cuts, ImageFault, ImageName};
use line_memory::Medium;
use std::alloc::{AllocError, Global};
use store_trace::Trace;

/// How many images a power cut may leave at a moment of events over this medium; None above 65,536. A moment is the number of
/// events before it.
///
/// # Errors
/// NoSuchMoment where there are fewer events. Memory where a growth is refused.
pub fn count_images(
    alloc: Global,
    medium: &Medium,
    trace: &Trace,
    moment: u32,
) -> Result<Option<u32>, ImageFault>
    requires { HasLines medium.now trace.now.events }
    ensures ok { IfOk result (CountsImages trace.now.events moment) }
    ensures err { IfErr result (LacksMoment trace.now.events moment) }
{
    match Cuts::at(alloc, medium, trace, moment) {
        Ok(cuts) => Ok(cuts.count()),
        Err(ImageFault::NoSuchMoment) => Err(ImageFault::NoSuchMoment),
        Err(_) => Err(ImageFault::Memory),
    }
}

/// A line of a crash image that has a store, and its bytes there.
#[derive(Clone, Copy, Debug)]
pub struct ImageLine {
    pub line: u32,
    pub bytes: [u8; 64],
}

/// The lines of a crash image of a moment that have a store before it, upwards, each with its bytes in the image. The others have
/// those of the medium. The image is named as for `explain_image`.
///
/// # Errors
/// NoSuchMoment where there are fewer events, and NotACut where the moment has no image of this name. Memory where a growth is refused.
#[tactic(auto, using(crate::proofs::ImageLines::entries_there, crate::proofs::ImageLines::lines_named))]
pub fn image_lines(
    alloc: Global,
    medium: &Medium,
    trace: &Trace,
    moment: u32,
    image: &ImageName,
) -> Result<Vec<ImageLine>, ImageFault>
    requires { HasLines medium.now trace.now.events }
    ensures ok { IfOk result (λ lines. AreImageLines medium.now trace.now.events moment image.now lines.items) }
    ensures there { (count : ℕ) → All (NamesLine count) trace.now.events → IfOk result (λ lines. All (λ (l : AnImageLine). l.line < count) lines.items) }
    ensures err { IfErr result (LacksImage trace.now.events moment image.now) }
{
    let (cut, image) = named_image(alloc, medium, trace, moment, image)?;
    Ok(lines_of(alloc, &image, &cut)?)
}

/// The cut of this name at a moment of the trace, and the image that it leaves on the medium.
pub(crate) fn named_image(
    alloc: Global,
    medium: &Medium,
    trace: &Trace,
    moment: u32,
    image: &ImageName,
) -> Result<(Cut, Medium), ImageFault>
    requires { HasLines medium.now trace.now.events }
    ensures ok { IfOk result (λ found. IsImageOf medium.now trace.now.events moment image.now found.0 found.1) }
    ensures cut { IfOk result (λ found. IsCut (at_moment trace.now.events moment) found.0) }
    ensures err { IfErr result (LacksImage trace.now.events moment image.now) }
{
    let cuts = match Cuts::at(alloc, medium, trace, moment) {
        Ok(cuts) => cuts,
        Err(ImageFault::NoSuchMoment) => return Err(ImageFault::NoSuchMoment),
        Err(_) => return Err(ImageFault::Memory),
    };
    let cut = match cuts.named(alloc, image) {
        Ok(cut) => cut,
        Err(ImageFault::NotACut) => return Err(ImageFault::NotACut),
        Err(_) => return Err(ImageFault::Memory),
    };
    match cuts.image_of(alloc, &cut) {
        Ok(image) => Ok((cut, image)),
        Err(_) => Err(ImageFault::Memory),
    }
}

/// The lines of a cut, each with its bytes in an image.
fn lines_of(alloc: Global, image: &Medium, cut: &Cut) -> Result<Vec<ImageLine>, AllocError>
    requires { All (λ (entry : ℕ × ℕ). entry.0 < length image.now) cut.now }
    ensures { IfOk result (λ lines. lines.items ≡ lines_of image.now cut.now) }
{
    let mut lines = Vec::new(alloc);
    for entry in cut.entries() {
        let line = entry.0;
        let bytes = *image.read_line(line);
        lines.push(ImageLine { line, bytes })?;
    }
    Ok(lines)
}
