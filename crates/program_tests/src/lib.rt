//! Tests of the calls that the program makes, and of standard streams that fail.
//! They stand apart, so that those crates aren't proved a second time for them. The crate has tests alone.
#![tactic(auto)]

#[cfg(test)]
mod calls;
#[cfg(test)]
mod streams;
