//! The verdict over crash images by a recovery routine: whether every state that a power cut may leave shows, to the routine, the
//! structure as it was before or after the operation under way.
//!
//! Source: Vinter, USENIX ATC 2022: crash images are made from a trace, and the state that recovery shows in each is judged. Which
//! answers are right is this project's own.
#![tactic(auto)]

mod answer_images;
mod answers;
mod bytes;
mod cause;
mod cuts;
mod fault;
mod full_image;
mod held;
mod history;
mod images_judge;
mod judge;
mod judging;
mod order;
mod outside;
mod passing;
mod right;
mod right_moments;
mod rule;
mod run;
mod sources;
mod span;

pub use answer_images::AnswerImages;
pub use cause::Cause;
pub use cuts::{
    Bound, BoundBox, BoundBoxes, BoxVerdict, ChainLink, CutCause, CutJudge, CutRow, CutRule,
    CutsVerdict, ImageBox, RecoveryCuts, RunWithCuts, closed_boxes_stay_recovered, judge_cuts,
    left_at, no_cut_in_recovery_says_the_same, open_box,
};
pub use fault::JudgeFault;
pub use held::HeldAnswer;
pub use history::{
    MarkFault, Overlap, Window, Windows, alone_is_the_only_one, check_marks, is_judged, one_window,
    operations_apart_have_few, pending_operations_began, windows_lie_in_the_run,
    windows_stay_between_marks,
};
pub use images_judge::{AnswersWorkspace, judge_images};
pub use judge::MomentJudge;
pub use judging::{Judgement, judged_part};
pub use order::{
    Operation, Precedence, SequentialRun, SequentialRuns, SequentialState, Word, precedences_stand,
    sequential_states_stand,
};
pub use outside::{Answering, OutsideCause, OutsideFault, OutsideRun, Reply, Wanted};
pub use right::RightAnswers;
pub use right_moments::{FullAnswers, RightAnswer, full_answers, right_answers};
pub use rule::{ProgramRuns, Rule};
pub use run::MarkedRun;
pub use verdict::{ImageName, ImagesVerdict, MomentVerdict, Verdict};
