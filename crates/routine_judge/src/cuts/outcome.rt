//! The verdict on a run whose power is cut while recovery runs, too.

use crate::cuts::judging::CutCause;
use verdict::{ImageName, OpenMoments};

/// How many power cuts in recovery are looked at.
#[derive(Clone, Copy, Debug, PartialEq, Eq)]
pub enum RecoveryCuts {
    /// Up to so many, 1 to 64.
    AtMost(u32),
    /// Any number of them.
    Any,
}

/// A power cut of a chain: at which moment of a run, and which image it leaves. The first is the program's, each further one that of the
/// recovery on the image before it.
#[derive(Debug, Drop)]
pub struct ChainLink {
    pub moment: u32,
    pub image: ImageName,
}

/// The verdict on a row of moments, with the power cuts in recovery that are looked at.
#[derive(Debug, Drop)]
pub enum CutsVerdict {
    /// Every moment stays right.
    Pass {
        /// The number of moments.
        moments: u64,
        /// The sum of the numbers of images of all moments. None where a moment has over 65,536.
        images: Option<u64>,
    },
    /// Every moment stays right but these, of which nothing is decided.
    Open {
        /// The number of moments, with those that are open.
        moments: u64,
        /// The sum of the numbers of images of all moments. None where a moment has over 65,536.
        images: Option<u64>,
        open: OpenMoments,
    },
    /// These power cuts leave an image that is bad. No fewer in recovery do, and no less moment has as few.
    Fail {
        /// At least one.
        chain: Vec<ChainLink>,
        cause: CutCause,
    },
    /// What one cut more than so many leaves of this moment takes too many runs of the routine, or where none is given its own images do.
    TooMany {
        moment: u32,
        cuts: Option<u32>,
    },
    /// What is right at this moment can't be told within the steps that recovery has.
    TooLong {
        moment: u32,
    },
}
