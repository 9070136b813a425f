//! Why a crash image of a run fails.

ghost use Rattle.crash_image.specs.View.{HasLines};
ghost use Rattle.crash_test.specs.Losses.{IsExplainedBy, IsExplainedOn};
ghost use Rattle.crash_test.specs.Told.{LacksImage};
ghost use Rattle.machine.specs.Grammar.{hart_steps};
ghost use Rattle.std.specs.Prelude.{◌^◌, ◌<◌, ◌≤◌, IfErr, IfOk, IfSome};

use crate::events::Events;
use crate::explaining::explain_image;
use crate::image_causes::{Reader, ToldImage, tell_image_by};
use crash_image::{ImageFault, ImageName};
use machine::{Run, Schedule};
use std::alloc::Global;

/// A crash image of events: what it lacks and keeps of the lines that a recovery reads of it, told by the numbers of the events, and of a run a
/// schedule that leaves it.
#[derive(Drop)]
pub struct ExplainedImage {
    pub told: ToldImage,
    /// None where the events are no run's.
    pub schedule: Option<Schedule>,
}

/// What the crash image of this name, of a moment of events, lacks and keeps of the lines that a recovery reads of it. The medium has every
/// line that the events name.
///
/// # Errors
/// As those of `explain_image`.
pub fn tell_losses<R: Reader>(
    alloc: Global,
    events: Events<'_>,
    moment: u32,
    image: &ImageName,
    reader: &R,
) -> Result<ExplainedImage, ImageFault>
    requires { HasLines events.medium.now events.trace.now.events }
    ensures ok { IfOk result (IsExplainedOn (R.reads reader.now) events.entry.medium.now events.entry.trace.now.events moment image.now) }
    ensures err { IfErr result (LacksImage events.entry.trace.now.events moment image.now) }
{
    let told = tell_image_by(alloc, events.medium, events.trace, moment, image, reader)?;
    Ok(ExplainedImage {
        told,
        schedule: None,
    })
}

/// What the crash image of this name, of a moment of a run, lacks and keeps of the lines that a recovery reads of it, and a schedule that
/// leaves the image, as `explain_image` gives it.
///
/// # Errors
/// As those of `explain_image`.
pub fn explain_losses<R: Reader>(
    alloc: Global,
    run: &Run,
    moment: u32,
    image: &ImageName,
    reader: &R,
) -> Result<ExplainedImage, ImageFault>
    ensures ok { IfOk result (IsExplainedBy (R.reads reader.now) run.now moment image.now) }
    ensures few { IfOk result (λ explained. IfSome explained.schedule (λ schedule. hart_steps schedule ≤ hart_steps run.now.schedule)) }
    ensures counted { IfOk result (λ explained. IfSome explained.schedule (λ schedule. hart_steps schedule < 2 ^ 32)) }
    ensures err { IfErr result (LacksImage run.now.events moment image.now) }
{
    let told = tell_image_by(alloc, run.start(), run.trace(), moment, image, reader)?;
    let schedule = explain_image(alloc, run, moment, image)?;
    Ok(ExplainedImage {
        told,
        schedule: Some(schedule),
    })
}
