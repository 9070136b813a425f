//! Tests of what is read and written as text or bytes: sources, instructions, objects, executables, trace files, volumes, logs and plans.
//! They stand apart, so that those crates aren't proved a second time for them. The crate has tests alone.
#![tactic(auto)]

#[cfg(test)]
mod assembler;
#[cfg(test)]
mod trace_files;
#[cfg(test)]
mod volumes;
