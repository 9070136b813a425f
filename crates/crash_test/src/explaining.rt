//! The schedule that leaves one crash image of a run.

ghost use Rattle.std.specs.Prelude.{◌^◌, ◌<◌, ◌≤◌, IfErr, IfOk};
ghost use Rattle.machine.specs.Grammar.{hart_steps};
ghost use Rattle.crash_image.specs.View.{HasLines};
ghost use Rattle.crash_test.specs.Explaining.{ExplainsImage, ExplainsImageLeast, HasImage};
ghost use Rattle.crash_test.specs.Told.{LacksImage};

use crash_image::{Cut, Cuts, ImageFault, ImageName};
use line_memory::Medium;
use machine::{Run, Schedule};
use std::alloc::Global;
use store_trace::Trace;
use witness::{explain, explain_least};

/// The schedule that leaves one crash image of a moment of a run. A moment is the number of events before it. A number names an image,
/// from 0, where the moment has at most 65,536 images; lines with their numbers name, at any moment, the one in which the other lines
/// stand at their floors.
///
/// The run by it makes the events before the moment and no others, and a power cut at its end leaves the image.
///
/// # Errors
/// NoSuchMoment where the run makes fewer events, and NotACut where the moment has no image of this name. Memory where a growth is refused.
pub fn explain_image(
    alloc: Global,
    run: &Run,
    moment: u32,
    image: &ImageName,
) -> Result<Schedule, ImageFault>
    ensures ok { IfOk result (ExplainsImage run.now moment image.now) }
    ensures few { IfOk result (λ explanation. hart_steps explanation ≤ hart_steps run.now.schedule) }
    ensures counted { IfOk result (λ explanation. hart_steps explanation < 2 ^ 32) }
    ensures err { IfErr result (LacksImage run.now.events moment image.now) }
{
    let cut = named_cut(alloc, run.start(), run.trace(), moment, image)?;
    match explain(alloc, run.recorded(), moment, &cut) {
        Ok(explanation) => Ok(explanation),
        Err(_) => Err(ImageFault::Memory),
    }
}

/// The schedule of `explain_image` without the evictions that change nothing. It leaves the image too, and no schedule with its hart steps
/// leaves the cut of this name without an eviction of each line that it evicts.
///
/// # Errors
/// Those of `explain_image`.
pub fn explain_image_least(
    alloc: Global,
    run: &Run,
    moment: u32,
    image: &ImageName,
) -> Result<Schedule, ImageFault>
    ensures ok { IfOk result (ExplainsImageLeast run.now moment image.now) }
    ensures few { IfOk result (λ explanation. hart_steps explanation ≤ hart_steps run.now.schedule) }
    ensures counted { IfOk result (λ explanation. hart_steps explanation < 2 ^ 32) }
    ensures err { IfErr result (LacksImage run.now.events moment image.now) }
{
    let cut = named_cut(alloc, run.start(), run.trace(), moment, image)?;
    match explain_least(alloc, run.recorded(), moment, &cut) {
        Ok(explanation) => Ok(explanation),
        Err(_) => Err(ImageFault::Memory),
    }
}

/// The cut of this name at a moment of the trace.
fn named_cut(
    alloc: Global,
    medium: &Medium,
    trace: &Trace,
    moment: u32,
    image: &ImageName,
) -> Result<Cut, ImageFault>
    requires { HasLines medium.now trace.now.events }
    ensures ok { IfOk result (HasImage trace.now.events moment image.now) }
    ensures err { IfErr result (LacksImage trace.now.events moment image.now) }
{
    let cuts = match Cuts::at(alloc, medium, trace, moment) {
        Ok(cuts) => cuts,
        Err(ImageFault::NoSuchMoment) => return Err(ImageFault::NoSuchMoment),
        Err(_) => return Err(ImageFault::Memory),
    };
    match cuts.named(alloc, image) {
        Ok(cut) => Ok(cut),
        Err(ImageFault::NotACut) => Err(ImageFault::NotACut),
        Err(_) => Err(ImageFault::Memory),
    }
}
