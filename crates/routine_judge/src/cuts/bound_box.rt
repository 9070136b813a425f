//! Boxes with bounds.

ghost use Rattle.recovery.specs.Boxes.{IsIn};
ghost use Rattle.recovery.specs.Closed.{Covers};
ghost use Rattle.std.specs.Prelude.{◌≡◌, ◌⊎◌, ℕ, List, None, IsTrue, length};

use crate::cuts::image_box::ImageBox;
use crate::held::HeldAnswer;
use std::marker::Model;

/// What was shown before some images, where anything was, and by how many cuts in recovery they are left.
#[derive(Drop)]
pub struct Bound {
    pub shown: Option<HeldAnswer>,
    pub cuts: u32,
}

/// A box of images with their bound.
#[derive(Drop)]
pub struct BoundBox<'a> {
    images: ImageBox<'a>,
    bound: Bound,
}

impl<'a> Model for BoundBox<'a> {
    ghost use Rattle.recovery.specs.Closed as closed;

    ghost Value = { closed.BoundBox };

    ghost view = { λ b. record { images = b.images; shown = b.bound.shown; cuts = b.bound.cuts } };
}

impl<'a> BoundBox<'a> {
    pub fn new(images: ImageBox<'a>, bound: Bound) -> BoundBox<'a>
        ensures { result ≡ record { images = images.entry; shown = bound.shown; cuts = bound.cuts } }
    {
        BoundBox { images, bound }
    }

    pub fn images(&self) -> &ImageBox<'a>
        ensures { result.now ≡ self.now.images }
    {
        &self.images
    }

    pub fn bound(&self) -> &Bound
        ensures shown { result.now.shown ≡ self.now.shown }
        ensures cuts { result.now.cuts ≡ self.now.cuts }
    {
        &self.bound
    }

    /// Whether each of some images with this bound is one of the box, which as many or fewer cuts leave, and what was shown before it was shown
    /// before the box too.
    pub fn covers(&self, images: &ImageBox<'_>, bound: &Bound) -> bool
        requires { length self.now.images ≡ length images.now }
        ensures { IsTrue result → (image : List (List ℕ)) → IsIn images.now image → Covers self.now bound.now.cuts image bound.now.shown }
    {
        if bound.cuts < self.bound.cuts {
            return false;
        }
        if !is_weaker(&bound.shown, &self.bound.shown) {
            return false;
        }
        images.is_within(&self.images)
    }
}

/// Whether nothing was shown, or the same as there.
fn is_weaker(shown: &Option<HeldAnswer>, there: &Option<HeldAnswer>) -> bool
    ensures { IsTrue result → (shown.now ≡ None) ⊎ (shown.now ≡ there.now) }
{
    let Some(shown) = shown else {
        return true;
    };
    match there {
        Some(there) => shown.bytes() == there.bytes(),
        None => false,
    }
}
