//! The calls that the program makes, over values: programs are loaded, run, explained and judged, and volumes made. A run by a schedule
//! is made once, and each question is asked of it.
#![tactic(auto)]

mod answering;
mod checking;
mod cuts;
mod events;
mod explaining;
mod file_kind;
mod image_causes;
mod images;
mod judging;
mod loading;
mod losses;
mod places;
mod reading;
mod runs;
mod volumes;
mod work;

pub use answering::{answer_at, answer_on};
pub use checking::{check_events, check_program};
pub use cuts::{CutJudgement, judge_event_cuts, judge_run_cuts};
pub use events::Events;
pub use explaining::{explain_image, explain_image_least};
pub use image_causes::{
    LogReader, Reader, ToldImage, kept_lines_are_read, tell_image, tell_image_by,
};
pub use images::{ImageLine, count_images, image_lines};
pub use judging::{judge_events, judge_program};
pub use loading::{ProgramFault, load_object, load_program, one_program};
pub use losses::{ExplainedImage, explain_losses, tell_losses};
pub use places::places_of;
pub use reading::RoutineReader;
pub use routine_judge::{FullAnswers, Judgement, RightAnswer, full_answers, right_answers};
pub use runs::{TogetherFault, record_run, replay, run_program, start_program};
pub use verdict::{Progress, Unwatched};
pub use volumes::{default_medium, make_volume};
pub use work::Work;
