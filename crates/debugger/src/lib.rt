//! A debugger over a machine: it goes on by a schedule up to a breakpoint or to an access to a watched line.
#![tactic(auto)]

mod code;
mod debugger;
mod fault;
mod going;
mod points;
mod sessions;
mod stepping;
mod stop;

pub use code::{Code, UnknownCode};
pub use debugger::Debugger;
pub use fault::DebugFault;
pub use machine::{Machine, Outcome, Place, Schedule, StepFault};
pub use points::{MAX_POINTS, Point};
pub use sessions::{Failed, Sink, Source, session, session_of};
pub use stop::{Cause, Halt, Stop};
