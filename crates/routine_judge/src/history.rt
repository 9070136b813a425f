//! The marks of the operations of a run that is judged without a plan: whether they make sense,
//! and which full images give the right answers of a moment.

mod check;
mod fault;
mod laws;
mod moments;
mod operations;
mod overlap;

pub use check::check_marks;
pub use fault::MarkFault;
pub use laws::{
    alone_is_the_only_one, one_window, operations_apart_have_few, pending_operations_began,
    windows_lie_in_the_run, windows_stay_between_marks,
};
pub(crate) use moments::begins;
pub use moments::{Window, Windows, is_judged};
pub use overlap::Overlap;
