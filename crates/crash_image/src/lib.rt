//! Crash images: what a power cut may leave in persistent memory at a moment of a trace.
//!
//! Source: Vinter, USENIX ATC 2022 (crash images), with each line free to stand after any number of its
//! stores from its floor on.
#![tactic(auto)]

mod bounds;
mod cut;
mod cuts;
mod images;
mod laws;
mod line;
mod named;
mod names;
mod search;
mod totals;
mod trace_index;

pub use cuts::Cuts;
pub use images::numbers_of_lines;
pub use laws::{image_sums_join, names_tell_cuts};
pub use names::has_lines;
use std::alloc::AllocError;
pub use text::{Cut, ImageName};
use thiserror::Error;
pub use totals::images_between;
pub use trace_index::TraceIndex;

/// Why crash images aren't given.
#[derive(Debug, Drop, Error)]
pub enum ImageFault {
    /// The trace has fewer events than the moment.
    #[error("no such moment")]
    NoSuchMoment,
    /// The list isn't of just the stored lines, or a number lies outside its line's bounds.
    #[error("not a cut")]
    NotACut,
    /// A growth was refused.
    #[error("out of memory")]
    Memory,
}

impl ImageFault {
    ghost use Rattle.std.specs.Prelude.{◌≡◌};
    ghost use Rattle.crash_image.specs.Codes.{image_code};

    /// The code by which the fault is known, C1 to C3.
    pub fn code(&self) -> &'static str
        ensures { result.now ≡ image_code self.now }
    {
        match self {
            ImageFault::NoSuchMoment => "C1",
            ImageFault::NotACut => "C2",
            ImageFault::Memory => "C3",
        }
    }
}

impl From<AllocError> for ImageFault {
    ghost use Rattle.std.specs.Prelude.{◌≡◌};
    ghost use Rattle.crash_image.specs.declared.ImageFault.TheVariants.{Memory};

    ghost from_gives = { λ _ fault. fault ≡ Memory };

    fn from(_refused: AllocError) -> ImageFault {
        ImageFault::Memory
    }
}
