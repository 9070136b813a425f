//! Tests of crash images, of verdicts by a plan and by a recovery routine, and of what is told, drawn and printed of runs.
//! They stand apart, so that those crates aren't proved a second time for them. The crate has tests alone.
#![tactic(auto)]

#[cfg(test)]
mod images;
#[cfg(test)]
mod judging;
#[cfg(test)]
mod order;
#[cfg(test)]
mod reports;
