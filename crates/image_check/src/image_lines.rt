//! The image of a cut as recovery reads it: each line comes from the images' source when it is asked for.

ghost use Rattle.image_check.specs.Branching.{AreKeptWithin};
ghost use Rattle.verdict.specs.CutImages.{AreNumbers};
ghost use Rattle.verdict.specs.Numbers.{number_over};
ghost use Rattle.nova_log.specs.Volumes.{asked_lines, volume_of};
ghost use Rattle.nova_log.specs.declared.fault.VolumeFault.TheVariants.{Memory};
ghost use Rattle.std.specs.List.{AllByRecursion};
ghost use Rattle.std.specs.Prelude.{◌≡◌, ◌<◌, ◌⊎◌, [], Err, Ok, length, IfErr, OnOk};

use nova_log::{FixedLines, KeptVolume, LineSource, VolumeFault, recover_again};
use std::alloc::{AllocError, Global};
use std::marker::Model;
use std::mem;
use verdict::{CutImage, Images};

/// The volume of the image of a cut, as recovery of the whole image gives it: it is that which is kept then. The cut is given by line,
/// with 0 for a line at its lowest number. Adds the lines that recovery asks.
pub fn recover_cut<I: Images>(
    alloc: Global,
    images: &I,
    numbers: &[u32],
    asked: &mut Vec<u32>,
    kept: &mut KeptVolume,
) -> Result<(), VolumeFault>
    requires cut { AreNumbers (I.lines images.now) (I.low images.now) (I.high images.now) numbers.now }
    requires fresh { asked.old.items ≡ [] }
    requires kept { AreKeptWithin (I.image images.now) (I.low images.now) (I.high images.now) kept.old }
    ensures ok { OnOk result (volume_of (I.image images.now (number_over (I.low images.now) numbers.now)) ≡ Ok kept.new.volume) }
    ensures err { IfErr result (λ fault. (fault ≡ Memory)
        ⊎ (volume_of (I.image images.now (number_over (I.low images.now) numbers.now)) ≡ Err fault)) }
    ensures ok_asked { OnOk result (asked.new.items ≡ asked_lines (I.image images.now (number_over (I.low images.now) numbers.now))) }
    ensures err_asked { IfErr result (λ fault. (fault ≡ Memory)
        ⊎ (asked.new.items ≡ asked_lines (I.image images.now (number_over (I.low images.now) numbers.now)))) }
    ensures below { AllByRecursion (λ l. l < I.lines images.now) asked.new.items }
    ensures kept { AreKeptWithin (I.image images.now) (I.low images.now) (I.high images.now) kept.new }
{
    let before = mem::replace(asked, Vec::new(alloc));
    let image = CutImage::new(images, numbers);
    let mut source = ImageLines::new(image, before);
    let fixed = UniformLines { images };
    let recovered = recover_again(alloc, &mut source, &fixed, kept);
    *asked = source.into_asked();
    recovered
}

/// The lines of the image of a cut, with those that were asked for.
#[derive(Drop)]
struct ImageLines<'a, 'c, I: Images> {
    image: CutImage<'a, 'c, I>,
    /// The lines that were asked for, in order.
    asked: Vec<u32>,
}

impl<'a, 'c, I: Images> Model for ImageLines<'a, 'c, I> {
    ghost use Rattle.std.specs.Prelude.{◌<◌, length};
    ghost use Rattle.std.specs.List.{AllByRecursion};
    ghost use Rattle.nova_log.specs.Sources.{Source};

    ghost Value = { Source };

    ghost view = { λ s. record { lines = s.image; asked = s.asked.items } };

    ghost invariant = { λ s. AllByRecursion (λ l. l < length s.image) s.asked.items };
}

impl<'a, 'c, I: Images> ImageLines<'a, 'c, I> {
    /// The lines of the image, with none asked yet: `asked` is empty.
    fn new(image: CutImage<'a, 'c, I>, asked: Vec<u32>) -> ImageLines<'a, 'c, I>
        requires { asked.items ≡ [] }
        ensures { result ≡ record { lines = image.entry; asked = [] } }
    {
        ImageLines { image, asked }
    }

    /// The lines asked, given back.
    fn into_asked(self) -> Vec<u32>
        ensures same { result.items ≡ self.entry.asked }
        ensures below { AllByRecursion (λ l. l < length self.entry.lines) result.items }
    {
        self.asked
    }
}

impl<I: Images> LineSource for ImageLines<'_, '_, I> {
    ghost medium = { λ s. s.lines };

    ghost asked = { λ s. s.asked };

    fn lines(&self) -> u32 {
        self.image.lines()
    }

    #[inline(always)]
    fn line(&mut self, n: u32) -> Result<[u8; 64], VolumeFault> {
        if self.asked.push(n).is_err() {
            return Err(VolumeFault::Memory);
        }
        Ok(*self.image.line(n))
    }

    fn asked_so_far(&self) -> &[u32] {
        &self.asked
    }

    fn ask(&mut self, lines: &[u32]) -> Result<(), AllocError> {
        self.asked.extend_from_slice(lines)
    }
}

/// The lines of images: those that have one number alone are the same in each image.
#[derive(Drop)]
struct UniformLines<'a, I: Images> {
    images: &'a I,
}

impl<I: Images> FixedLines for UniformLines<'_, I> {
    ghost use Rattle.std.specs.Prelude.{◌≡◌};

    ghost fixed = { λ s l. I.low s.images.now l ≡ I.high s.images.now l };

    fn is_fixed(&self, line: u32) -> bool {
        line < self.images.lines() && self.images.lowest(line) == self.images.highest(line)
    }
}
