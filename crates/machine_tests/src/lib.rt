//! Tests of caches, of machines by a schedule, of a recovery routine's machine, and of the debugger.
//! They stand apart, so that those crates aren't proved a second time for them. The crate has tests alone.
#![tactic(auto)]

#[cfg(test)]
mod caches;
#[cfg(test)]
mod debugging;
#[cfg(test)]
mod machines;
#[cfg(test)]
mod routines;
