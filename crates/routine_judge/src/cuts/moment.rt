//! A moment of a run's events over a medium, and the images that a power cut leaves there.

ghost use Rattle.recovery.specs.Boxes.{IsIn};
ghost use Rattle.routine_judge.specs.CutMoments.{IsThere};
ghost use Rattle.routine_judge.specs.CutVerdicts.{IsImageAt};
ghost use Rattle.std.specs.Prelude.{◌≡◌, ℕ, List, length, IfOk, IfSome};
ghost use Rattle.store_trace.specs.Cut.{IsCutImage};
ghost use Rattle.store_trace.specs.History.{at_moment};

use crate::cuts::image_box::ImageBox;
use crate::cuts::left::left_at;
use crash_image::{Cut, Cuts, ImageFault, ImageName};
use line_memory::Medium;
use std::alloc::{AllocError, Global};
use store_trace::Trace;

/// A moment of the events of a run, which started from a medium.
#[derive(Clone, Copy)]
pub struct CutMoment<'m> {
    pub medium: &'m Medium,
    pub trace: &'m Trace,
    pub moment: u32,
}

/// The images of a moment, in one box.
pub fn images_at<'m>(alloc: Global, at: CutMoment<'m>) -> Result<ImageBox<'m>, AllocError>
    requires { IsThere at }
    ensures all { IfOk result (λ images. (image : List (List ℕ)) →
        IsCutImage at.entry.medium.now (at_moment at.entry.trace.now.events at.entry.moment) image → IsIn images image) }
    ensures lines { IfOk result (λ images. length images ≡ length at.entry.medium.now) }
{
    let start = ImageBox::of(alloc, at.medium)?;
    left_at(alloc, &start, at.trace, at.moment)
}

/// The name of a cut of a moment, and its image. None where it isn't a cut of the moment.
pub fn image_of_cut(
    alloc: Global,
    at: CutMoment<'_>,
    cut: &Cut,
) -> Result<Option<(ImageName, Medium)>, AllocError>
    requires { IsThere at }
    ensures { IfOk result (λ found. IfSome found (λ left.
        IsImageAt at.entry.medium.now at.entry.trace.now.events at.entry.moment left.0 left.1)) }
{
    let Ok(cuts) = Cuts::at(alloc, at.medium, at.trace, at.moment) else {
        return Err(AllocError);
    };
    match cuts.image_of(alloc, cut) {
        Ok(image) => match cuts.name(alloc, cut) {
            Ok(name) => Ok(Some((name, image))),
            Err(_refused) => Err(AllocError),
        },
        Err(ImageFault::NotACut) => Ok(None),
        Err(_refused) => Err(AllocError),
    }
}
