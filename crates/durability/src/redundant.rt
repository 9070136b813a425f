//! The cleans and fences of a run that a routine can do without: leaving all of them out changes no floor, and so no cut of any
//! moment; each with the reason why.
//!
//! Events are numbered from 1: the number of an event is that of the moment right after it. What is said is said of one run alone:
//! an instruction can be deleted only where each of its events is needless in each run.
//!
//! Source: RISC-V CMO specification 1.0, chapter 2 (a clean asks for a write-back), and this model's rule that a fence completes the
//! cleans of its own hart.

mod laws;
mod reading;
mod reason;
mod told;

pub use laws::{needless_leave_cuts, none_is_left, reasons_are_all};
pub use reason::{Needless, Reason};
pub use told::needless_events;
