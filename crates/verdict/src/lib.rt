//! The moments of a run judged by several workers, whose verdict is that of one.
//!
//! A desk gives the workers stretches of moments, each once. Within a stretch a worker goes from moment to moment, so that what it
//! learnt of one serves for the next.
#![tactic(auto)]

mod branches;
mod cut_image;
mod images;
mod images_verdict;
mod moment_cuts;
mod moment_verdict;
mod moments;
mod part;
mod progress;
mod rows;
mod stretches;

pub use branches::{
    Asking, LineBytes, Opened, Opener, Question, Recovery, floor_adds_no_branches,
    store_adds_no_branches,
};
pub use cut_image::CutImage;
pub use images::Images;
pub use images_verdict::{ImagesVerdict, open_images};
pub use moment_cuts::MomentCuts;
pub use moment_verdict::{
    ImageName, Judging, LineContents, MomentVerdict, OpenMoments, Verdict, WidestLines, is_unseen,
    open_moment, verdicts_join,
};
pub use moments::Moments;
pub use part::Part;
pub use progress::{Progress, Unwatched};
pub use rows::end_at;
