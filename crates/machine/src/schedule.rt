//! Schedules: which hart makes the next step, and which cache line is evicted in between.

mod fault;
mod items;
mod joining;
mod limit;
mod place;
mod reader;
mod walking;
mod writer;

pub use fault::ScheduleFault;
pub use items::{Item, Schedule, Step};
pub use place::{Place, next_step};
pub use walking::{Halted, Stepper, walk};
