//! The events of a run, each with the hart step that made it and the pc that its hart had before.

mod alone;
mod laws;
mod traced_event;
mod tracer;

pub use alone::{TracedAlone, trace_alone};
pub use laws::traced_run_is_run;
pub use traced_event::{EventPlace, TracedEvent};
pub use tracer::{TracedMachine, trace_run};
