//! Verdicts on a moment and on a row of moments.

ghost use Rattle.std.specs.Prelude.{◌≡◌, ◌↔◌, IsTrue};

use crate::moment_verdict::contents::WidestLines;
use text::ImageName;

/// The verdict on one moment.
#[derive(Debug, Drop)]
pub enum MomentVerdict<Cause> {
    /// Every image is good.
    Pass,
    /// The image of this name is bad.
    Fail {
        image: ImageName,
        cause: Cause,
        /// Whether there are over 65,536 branches: 65,537 cuts of which no two share one. If not, it is the least bad image. A judge that
        /// tries no further images tells none of too many.
        of_too_many: bool,
    },
    /// There are over 65,536 branches.
    TooMany {
        /// Where further images are tried, of which none is bad: where a fence would help.
        lines: Option<WidestLines>,
    },
    /// What is right there can't be told within the steps that recovery has.
    TooLong,
}

impl<Cause> MomentVerdict<Cause> {
    /// Whether the moment passes.
    pub fn is_pass(&self) -> bool
        ensures { IsTrue result ↔ self.now ≡ MomentVerdict.Pass }
    {
        matches!(self, MomentVerdict::Pass)
    }
}

/// The moments of a row that have over 65,536 branches, behind which judging went on.
#[derive(Clone, Copy, Debug, PartialEq, Eq)]
pub struct OpenMoments {
    /// How many they are, at least one.
    pub count: u32,
    /// The least of them.
    pub first: u32,
}

/// The verdict on a row of moments.
#[derive(Debug, Drop)]
pub enum Verdict<Cause> {
    /// Every moment passes.
    Pass {
        /// The number of moments.
        moments: u64,
        /// The sum of the numbers of images of all moments. None where a moment has over 65,536.
        images: Option<u64>,
    },
    /// Every moment passes but these, of which nothing is decided.
    Open {
        /// The number of moments, with those that are open.
        moments: u64,
        /// The sum of the numbers of images of all moments. None where a moment has over 65,536.
        images: Option<u64>,
        open: OpenMoments,
    },
    /// This moment is the least that doesn't pass, and this image of it is bad. Moments that are open don't count.
    Fail {
        moment: u32,
        image: ImageName,
        cause: Cause,
        /// Whether the moment has over 65,536 branches. If not, it is its least bad image.
        of_too_many: bool,
    },
    /// This moment is the least that doesn't pass: it has over 65,536 branches.
    TooMany {
        moment: u32,
        /// Where further images are tried, of which none is bad: where a fence would help.
        lines: Option<WidestLines>,
    },
    /// This moment is the least that doesn't pass: what is right there can't be told within the steps that recovery has. Moments that are
    /// open don't count.
    TooLong {
        moment: u32,
    },
}
