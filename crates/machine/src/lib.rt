//! The machine: harts that interleave one instruction at a time over shared memory, by a schedule.
#![tactic(auto)]

mod fault;
mod laws;
mod machine;
mod recording;
mod rows;
mod run_trace;
mod running;
mod schedule;
mod shared_memory;
mod text_copy;

pub use fault::RunStop;
pub use laws::{
    event_is_longer, evictions_change_nothing_else, refusal_is_determined, run_has_parts,
    run_is_determined, trace_grows,
};
pub use machine::{Machine, Outcome};
pub use recording::{Recorded, Run, Setup, record, record_alone};
pub use run_trace::{
    EventPlace, TracedAlone, TracedEvent, TracedMachine, trace_alone, trace_run, traced_run_is_run,
};
pub use schedule::{Halted, Item, Place, Schedule, ScheduleFault, Step, Stepper, next_step, walk};
pub use shared_memory::{Entry, MAX_CAPACITY, MAX_HARTS, Shared, StepFault, check_limits};
pub use text_copy::TextCopy;
