//! The verdict on a moment of a run and on a row of moments, whatever judges an image: the branches of a moment are opened, and the
//! least bad cut is named.
//!
//! Source: Vinter, USENIX ATC 2022: crash images are made from a trace, and the state that recovery shows in each is judged.

pub use contents::{LineContents, WidestLines};
pub use laws::{Judging, verdicts_join};
pub(crate) use opening::MAX_BRANCHES;
pub use opening::open_moment;
pub use text::ImageName;
pub use unseen::is_unseen;
pub use verdict::{MomentVerdict, OpenMoments, Verdict};

mod contents;
mod laws;
mod naming;
mod opening;
mod unseen;
mod verdict;
