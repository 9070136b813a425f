//! An image of a box.

ghost use Rattle.routine_judge.specs.BoxViews.{first_image};
ghost use Rattle.std.specs.Prelude.{◌≡◌};

use crate::cuts::image_box::ImageBox;
use line_memory::LINE_SIZE;
use recovery::Source;
use std::marker::Model;

/// The image that has the first content of each line.
///
/// A contract sees its lines.
#[derive(Drop)]
pub struct FirstImage<'b, 'a> {
    images: &'b ImageBox<'a>,
}

impl<'b, 'a> Model for FirstImage<'b, 'a> {
    ghost use Rattle.routine_judge.specs.BoxViews.{first_image};
    ghost use Rattle.std.specs.Prelude.{ℕ, List};

    ghost Value = { List (List ℕ) };

    ghost view = { λ i. first_image i.images.now };
}

impl<'b, 'a> FirstImage<'b, 'a> {
    pub fn new(images: &'b ImageBox<'a>) -> FirstImage<'b, 'a>
        ensures { result ≡ first_image images.now }
    {
        FirstImage { images }
    }
}

impl Source for FirstImage<'_, '_> {
    ghost medium = { λ i. i };

    fn lines(&self) -> u32 {
        self.images.lines()
    }

    fn line(&self, line: u32) -> &[u8; LINE_SIZE] {
        self.images.first(line)
    }
}
