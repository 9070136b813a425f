//! The verdict over crash images: whether every state that a power cut may leave recovers to a legal volume.
//!
//! Source: Vinter, USENIX ATC 2022: crash images are made from a trace, and the state that recovery shows in
//! each is judged.
#![tactic(auto)]

pub use cause::Cause;
pub use checking::{check_moment, check_parallel, check_run, checked_part};
pub use fault::{CheckFault, OpFault};
pub use images_judge::{ImagesWorkspace, judge_images};
pub use judge::starting_volume;
pub use laws::{one_verdict, plan_states_stand, verdicts_join};
pub use moment_judge::{MomentJudge, SoundRun};
pub use order::check_trace;
pub use plan_state::PlanState;
pub use verdict::{ImageName, ImagesVerdict, MomentVerdict, Verdict};

mod cause;
mod checking;
mod fault;
mod image_lines;
mod images_judge;
mod judge;
mod laws;
mod legal;
mod marks;
mod moment_judge;
mod operations;
mod order;
mod plan_images;
mod plan_state;
