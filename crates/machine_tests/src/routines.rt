//! Tests of `recovery` and of `held_memory` below it: what routines answer, the bytes of lines that they ask, and that nothing is left of an
//! earlier run. The crate has tests alone.

mod again;
mod answers;
mod memory;
mod samples;
mod traces;
