//! Tests of what threads share: harts that run together, and workers that share a check.
//! They stand apart, so that those crates aren't proved a second time for them. The crate has tests alone.
#![tactic(auto)]

#[cfg(test)]
mod checks;
#[cfg(test)]
mod harts;
