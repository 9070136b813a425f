//! The images of a moment of a trace: each line comes from the index of the trace when it is asked for.

ghost use Rattle.std.specs.Prelude.{◌≡◌, ◌≤◌, length};
ghost use Rattle.verdict.specs.CutImages.{AreMedia};

use crate::images::Images;
use crash_image::TraceIndex;

/// The cuts of a moment: the number of a line is how many of its stores are in the medium, from its floor to all of them.
#[derive(Drop)]
pub struct MomentCuts<'a, 'b> {
    pub index: &'a TraceIndex<'b>,
    pub moment: u32,
    ghost there: { moment ≤ length index.now.events },
    ghost whole: { AreMedia index.now.start index.now.events moment },
}

impl<'a, 'b> MomentCuts<'a, 'b> {
    pub fn new(index: &'a TraceIndex<'b>, moment: u32) -> MomentCuts<'a, 'b>
        requires there { moment ≤ length index.now.events }
        requires whole { AreMedia index.now.start index.now.events moment }
        ensures index { result.index.now ≡ index.now }
        ensures moment { result.moment ≡ moment }
    {
        MomentCuts { index, moment }
    }
}

impl Images for MomentCuts<'_, '_> {
    ghost use Rattle.std.specs.Prelude.{length};
    ghost use Rattle.store_trace.proofs.Bounds.{floor_le_stores};
    ghost use Rattle.store_trace.proofs.Images.{length_image};
    ghost use Rattle.store_trace.specs.Floor.{floor};
    ghost use Rattle.store_trace.specs.History.{at_moment};
    ghost use Rattle.store_trace.specs.Stores.{stores};
    ghost use Rattle.verdict.specs.ByLine.{line_decides};
    ghost use Rattle.verdict.specs.CutImages.{image_at};

    ghost lines = { λ s. length s.index.now.start };

    ghost low = { λ s l. floor l (at_moment s.index.now.events s.moment) };

    ghost high = { λ s l. stores l (at_moment s.index.now.events s.moment) };

    ghost image = { λ s cut. image_at s.index.now.start s.index.now.events s.moment cut };

    #[inline(always)]
    fn lines(&self) -> u32 {
        self.index.lines()
    }

    #[inline(always)]
    fn lowest(&self, line: u32) -> u32 {
        self.index.floor(line, self.moment)
    }

    #[inline(always)]
    fn highest(&self, line: u32) -> u32 {
        self.index.stores(line, self.moment)
    }

    #[inline(always)]
    fn line(&self, line: u32, number: u32) -> &[u8; 64] {
        self.index.line(line, number)
    }

    ghost ordered = { λ s l. floor_le_stores l (at_moment s.index.now.events s.moment) };

    ghost whole = { λ s cut. s.whole cut };

    ghost count = { λ s cut. length_image s.index.now.start cut (at_moment s.index.now.events s.moment) };

    ghost by_line = { λ s cut other l same. line_decides s.index.now.start cut other (at_moment s.index.now.events s.moment) l same };
}
