//! The image of a cut: each line comes from the images' source when it is asked for.

ghost use Rattle.line_memory.specs.Lines.{IsMedium, line_at};
ghost use Rattle.std.specs.Prelude.{◌≡◌, ◌<◌, length};
ghost use Rattle.verdict.specs.CutImages.{AreNumbers};
ghost use Rattle.verdict.specs.Numbers.{number_over};

use crate::images::Images;
use std::marker::Model;

/// The image of a cut, which is given by line, with 0 for a line at its lowest number.
///
/// A contract sees its lines.
#[derive(Drop)]
pub struct CutImage<'a, 'c, I: Images> {
    images: &'a I,
    numbers: &'c [u32],
}

impl<'a, 'c, I: Images> Model for CutImage<'a, 'c, I> {
    ghost use Rattle.std.specs.Prelude.{ℕ, List};
    ghost use Rattle.verdict.specs.CutImages.{AreNumbers};
    ghost use Rattle.verdict.specs.Numbers.{number_over};

    ghost Value = { List (List ℕ) };

    ghost view = { λ i. I.image i.images.now (number_over (I.low i.images.now) i.numbers.now) };

    ghost invariant = { λ i. AreNumbers (I.lines i.images.now) (I.low i.images.now) (I.high i.images.now) i.numbers.now };
}

impl<'a, 'c, I: Images> CutImage<'a, 'c, I> {
    pub fn new(images: &'a I, numbers: &'c [u32]) -> CutImage<'a, 'c, I>
        requires { AreNumbers (I.lines images.now) (I.low images.now) (I.high images.now) numbers.now }
        ensures { result ≡ I.image images.now (number_over (I.low images.now) numbers.now) }
    {
        CutImage { images, numbers }
    }

    /// The number of lines, from 512 to 16,384.
    pub fn lines(&self) -> u32
        ensures count { result ≡ length self.now }
        ensures whole { IsMedium self.now }
    {
        self.images.lines()
    }

    /// The bytes of a line.
    #[inline(always)]
    pub fn line(&self, line: u32) -> &[u8; 64]
        requires { line < length self.now }
        ensures value { result.now ≡ line_at self.now line }
        ensures whole { length result.now ≡ 64 }
    {
        let number = number_of(self.images, self.numbers, line);
        self.images.line(line, number)
    }
}

/// The number of a line in a cut.
#[inline(always)]
fn number_of<I: Images>(images: &I, numbers: &[u32], line: u32) -> u32
    requires line { line < I.lines images.now }
    requires size { length numbers.now ≡ I.lines images.now }
    ensures { result ≡ number_over (I.low images.now) numbers.now line }
{
    match numbers[line as usize] {
        0 => images.lowest(line),
        number => number,
    }
}
