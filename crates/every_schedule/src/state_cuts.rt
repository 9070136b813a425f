//! The images of a state of a search as those of cuts.

ghost use Rattle.line_memory.specs.Lines.{IsMedium, line_at};
ghost use Rattle.schedule_states.specs.Images.{image_in};
ghost use Rattle.std.specs.Prelude.{◌≡◌, ℕ, length};

use schedule_states::{StateImages, StateVerdict};
use verdict::{Images, ImagesVerdict};

/// The images of a state of a search. A cut gives each line the number of its content.
#[derive(Drop)]
pub struct StateCuts<'a, 'b, 'c> {
    images: &'a StateImages<'b, 'c>,
    ghost whole: { (k : ℕ → ℕ) → IsMedium (image_in images.now k) },
    ghost count: { (k : ℕ → ℕ) → length (image_in images.now k) ≡ length images.now.start.medium },
    ghost by_line: { (k other : ℕ → ℕ) (l : ℕ) → other l ≡ k l → line_at (image_in images.now other) l ≡ line_at (image_in images.now k) l },
}

impl<'a, 'b, 'c> StateCuts<'a, 'b, 'c> {
    #[tactic(auto, using(crate::proofs::Cutting::image_long, crate::proofs::Cutting::line_decides))]
    pub fn new(images: &'a StateImages<'b, 'c>) -> StateCuts<'a, 'b, 'c>
        ensures { result.images.now ≡ images.now }
    {
        images.are_media();
        StateCuts { images }
    }
}

impl Images for StateCuts<'_, '_, '_> {
    ghost use Rattle.schedule_states.specs.Images.{highest_in, image_in};
    ghost use Rattle.std.proofs.Common.{arith};
    ghost use Rattle.std.specs.Prelude.{length};

    ghost lines = { λ s. length s.images.now.start.medium };

    ghost low = { λ s l. 0 };

    ghost high = { λ s l. highest_in s.images.now l };

    ghost image = { λ s k. image_in s.images.now k };

    fn lines(&self) -> u32 {
        self.images.lines()
    }

    fn lowest(&self, _line: u32) -> u32 {
        0
    }

    fn highest(&self, line: u32) -> u32 {
        self.images.highest(line)
    }

    #[tactic(auto, using(crate::proofs::Cutting::line_is))]
    fn line(&self, line: u32, number: u32) -> &[u8; 64] {
        self.images.content(line, number)
    }

    ghost ordered = { λ s l. Prim.omega arith };

    ghost whole = { λ s k. s.whole k };

    ghost count = { λ s k. s.count k };

    ghost by_line = { λ s k other l same. s.by_line k other l same };
}

/// The image of a state of a search that loads find, as the only one.
#[derive(Drop)]
pub struct FullCuts<'a, 'b, 'c> {
    cuts: StateCuts<'a, 'b, 'c>,
}

impl<'a, 'b, 'c> FullCuts<'a, 'b, 'c> {
    pub fn new(images: &'a StateImages<'b, 'c>) -> FullCuts<'a, 'b, 'c>
        ensures { result.cuts.images.now ≡ images.now }
    {
        FullCuts {
            cuts: StateCuts::new(images),
        }
    }
}

impl Images for FullCuts<'_, '_, '_> {
    ghost use Rattle.schedule_states.specs.Images.{image_in};
    ghost use Rattle.std.proofs.Common.{arith, refl};
    ghost use Rattle.std.specs.Prelude.{length};

    ghost lines = { λ s. length s.cuts.images.now.start.medium };

    ghost low = { λ s l. 0 };

    ghost high = { λ s l. 0 };

    ghost image = { λ s k. image_in s.cuts.images.now (λ l. 0) };

    fn lines(&self) -> u32 {
        self.cuts.lines()
    }

    fn lowest(&self, _line: u32) -> u32 {
        0
    }

    fn highest(&self, _line: u32) -> u32 {
        0
    }

    #[tactic(auto, using(crate::proofs::Cutting::line_is))]
    fn line(&self, line: u32, _number: u32) -> &[u8; 64] {
        self.cuts.images.content(line, 0)
    }

    ghost ordered = { λ s l. Prim.omega arith };

    ghost whole = { λ s k. s.cuts.whole (λ l. 0) };

    ghost count = { λ s k. s.cuts.count (λ l. 0) };

    ghost by_line = { λ s k other l same. refl };
}

/// The verdict on a state, by that on its images.
pub fn verdict_of<Cause>(verdict: &ImagesVerdict<Cause>) -> StateVerdict
    ensures { result ≡ StateVerdict.Good → verdict.now ≡ ImagesVerdict.Pass }
{
    match verdict {
        ImagesVerdict::Pass => StateVerdict::Good,
        ImagesVerdict::Bad { .. } => StateVerdict::Bad,
        ImagesVerdict::TooMany => StateVerdict::TooManyBranches,
    }
}
