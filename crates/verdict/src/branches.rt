//! Branches of the cuts of a moment: classes of cuts of whose images recovery asks the same bytes, and finds these alike.
//! One run of recovery judges a branch, so a moment costs as many runs as it has branches, however many cuts.

pub use laws::{Asking, floor_adds_no_branches, store_adds_no_branches};
pub use line_bytes::LineBytes;
pub use opener::{Opened, Opener};
pub use question::Question;
pub use recovery::Recovery;

mod edges;
mod filled;
mod findings;
mod lanes;
mod laws;
mod line_bytes;
mod lines;
mod numbers;
mod opener;
mod pieces;
mod progress;
mod question;
mod queue;
mod recovery;
mod rounds;
mod run;
mod tools;
