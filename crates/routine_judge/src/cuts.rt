//! Power cuts while recovery runs, or after it has ended: boxes of images, how they fall apart by what the routine asks, what cuts leave of them,
//! and boxes out of which no cut leads; moments and rows of moments that are judged so, and chains of cuts that leave a bad image.

mod bound_box;
mod bound_boxes;
mod chain;
mod closed;
mod closing;
mod contents;
mod first_image;
mod image_box;
mod judging;
mod laws;
mod left;
mod moment;
mod narrowing;
mod opening;
mod outcome;
mod row;
mod rule;
mod run;
mod wide;

pub use bound_box::{Bound, BoundBox};
pub use bound_boxes::BoundBoxes;
pub use closing::BoxVerdict;
pub use image_box::ImageBox;
pub use judging::CutCause;
pub use laws::{closed_boxes_stay_recovered, no_cut_in_recovery_says_the_same};
pub use left::left_at;
pub use opening::open_box;
pub use outcome::{ChainLink, CutsVerdict, RecoveryCuts};
pub use row::CutRow;
pub use rule::CutRule;
pub use run::{CutJudge, RunWithCuts, judge_cuts};
