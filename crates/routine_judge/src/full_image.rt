//! The full image of a source as a routine loads from it: that with each line at its highest number.

ghost use Rattle.recovery.specs.Images.{AnswersOn};
ghost use Rattle.std.specs.Prelude.{◌≡◌, IfOk};

use recovery::{Answer, Cause as RunCause, Routine, Source};
use std::alloc::{AllocError, Global};
use std::marker::Model;
use verdict::Images;

/// The full image: of a moment it is that with all stores.
///
/// A contract sees its lines.
#[derive(Drop)]
pub struct FullImage<'a, I: Images> {
    images: &'a I,
}

impl<'a, I: Images> Model for FullImage<'a, I> {
    ghost use Rattle.std.specs.Prelude.{ℕ, List};

    ghost Value = { List (List ℕ) };

    ghost view = { λ i. I.image i.images.now (I.high i.images.now) };
}

impl<'a, I: Images> FullImage<'a, I> {
    pub fn new(images: &'a I) -> FullImage<'a, I>
        ensures { result ≡ I.image images.now (I.high images.now) }
    {
        FullImage { images }
    }
}

impl<I: Images> Source for FullImage<'_, I> {
    ghost medium = { λ i. i };

    fn lines(&self) -> u32 {
        self.images.lines()
    }

    fn line(&self, line: u32) -> &[u8; 64] {
        self.images.line(line, self.images.highest(line))
    }
}

/// What the routine comes to, in so many steps at most, on the full image of a source.
pub fn full_answer<I: Images>(
    alloc: Global,
    images: &I,
    routine: &mut Routine,
    steps: u32,
) -> Result<Result<Answer, RunCause>, AllocError>
    requires { routine.old.lines ≡ I.lines images.now }
    ensures ok { IfOk result (AnswersOn routine.old.program steps (I.image images.now (I.high images.now))) }
    ensures program { routine.new.program ≡ routine.old.program }
    ensures lines { routine.new.lines ≡ routine.old.lines }
{
    let image = FullImage::new(images);
    routine.run(alloc, &image, steps)
}
