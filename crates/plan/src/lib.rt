//! Plans: which entries each operation of a run is to add to which logs, read from text.
#![tactic(auto)]

pub use fault::{PlanCode, PlanFault};
pub use operation::{Action, Operation, PlannedEntries, PlannedEntry};
pub use plan::Plan;

mod draft;
mod fault;
mod lines;
mod numbers;
mod operation;
mod operation_line;
mod plan;
mod reader;
mod validation;
