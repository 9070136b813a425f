//! An event with where it comes from.

use store_trace::Event;

/// Where in a run an event was made.
#[derive(Clone, Copy)]
pub struct EventPlace {
    /// How many hart steps there are up to and with the one that made it.
    pub step: u32,
    /// The pc that its hart had before that step.
    pub pc: u64,
}

/// An event of a run, and where in the run it was made.
#[derive(Clone, Copy)]
pub struct TracedEvent {
    /// How many hart steps there are up to and with the one that made it.
    pub step: u32,
    /// The pc that its hart had before that step.
    pub pc: u64,
    pub event: Event,
}
