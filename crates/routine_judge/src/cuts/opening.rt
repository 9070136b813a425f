//! The part of a box on whose images a routine makes one run.

ghost use Rattle.recovery.specs.Boxes.{others_of, part_of};
ghost use Rattle.recovery.specs.Routine.{RecoversWith};
ghost use Rattle.routine_judge.specs.BoxViews.{IsBoxOfMedia, first_image};
ghost use Rattle.routine_judge.specs.OpenedBoxes.{AreAdded, IsOpened, with_rest};
ghost use Rattle.std.specs.List.{AllByRecursion};
ghost use Rattle.std.specs.Prelude.{◌≡◌, ◌<◌, All, length, IfOk, OnOk};
ghost use Rattle.store_trace.specs.TraceView.{NamesLine};

use crate::cuts::first_image::FirstImage;
use crate::cuts::image_box::ImageBox;
use recovery::{Routine, TracedRun};
use std::alloc::{AllocError, Global};
use verdict::Question;

/// Runs the routine on an image of a box, for so many steps at most, and keeps the images of the box on which it makes the same run. The others go
/// to a list of boxes.
///
/// # Errors
/// A growth was refused. The routine can be used again then too; the box and the list are of no use.
pub fn open_box<'a>(
    alloc: Global,
    routine: &mut Routine,
    images: &mut ImageBox<'a>,
    steps: u32,
    others: &mut Vec<ImageBox<'a>>,
) -> Result<TracedRun, AllocError>
    requires { routine.old.lines ≡ length images.old }
    ensures ok { IfOk result (λ run. IsOpened routine.old.program steps images.old images.new run.trace.events run.found others.old.items others.new.items) }
    ensures named { IfOk result (λ run. All (NamesLine (length images.old)) run.trace.events) }
    ensures sizes { OnOk result (All (λ box. length box ≡ length images.old) others.old.items → All (λ box. length box ≡ length images.old) others.new.items) }
    ensures program { routine.new.program ≡ routine.old.program }
    ensures lines { routine.new.lines ≡ routine.old.lines }
{
    let run = run_first(alloc, routine, images, steps)?;
    keep_part(alloc, images, routine.asked(), others)?;
    Ok(run)
}

/// The routine's run on the first image of a box.
fn run_first(
    alloc: Global,
    routine: &mut Routine,
    images: &ImageBox<'_>,
    steps: u32,
) -> Result<TracedRun, AllocError>
    requires { routine.old.lines ≡ length images.now }
    ensures ok { IfOk result (λ run. RecoversWith routine.old.program (first_image images.now) steps routine.new.asked run.trace.events run.found) }
    ensures whole { IsBoxOfMedia images.now }
    ensures program { routine.new.program ≡ routine.old.program }
    ensures lines { routine.new.lines ≡ routine.old.lines }
{
    // a look at the box, for what its lines have to be known
    let _ = images.lines();
    let image = FirstImage::new(images);
    routine.run_traced(alloc, &image, steps)
}

/// Keeps the images of a box that have the bytes of all questions as the first one has them. The others go to a list of boxes.
fn keep_part<'a>(
    alloc: Global,
    images: &mut ImageBox<'a>,
    questions: &[Question],
    others: &mut Vec<ImageBox<'a>>,
) -> Result<(), AllocError>
    requires { AllByRecursion (λ q. q.line < length images.old) questions.now }
    ensures part { OnOk result (images.new ≡ part_of images.old (first_image images.old) questions.now) }
    ensures others { OnOk result (AreAdded (others_of images.old (first_image images.old) questions.now) others.old.items others.new.items) }
    ensures sizes { OnOk result (All (λ box. length box ≡ length images.old) others.old.items → All (λ box. length box ≡ length images.old) others.new.items) }
{
    for question in questions {
        let rest = images.split(alloc, *question)?;
        push_rest(others, rest)?;
    }
    Ok(())
}

/// Adds a box to a list, where there is one.
fn push_rest<'a>(
    boxes: &mut Vec<ImageBox<'a>>,
    rest: Option<ImageBox<'a>>,
) -> Result<(), AllocError>
    ensures { OnOk result (boxes.new.items ≡ with_rest boxes.old.items rest.entry) }
{
    if let Some(rest) = rest {
        boxes.push(rest)?;
    }
    Ok(())
}
