//! The memory of a program that runs on one image after another: text, data and persistent memory stay as they are, and a line is
//! copied at its first store. Setting back costs as much as was stored to.

mod memory;
mod region;

pub use memory::{HeldMemory, Place};
