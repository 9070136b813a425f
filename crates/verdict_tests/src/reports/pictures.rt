//! Tests of pictures of runs.

mod drawn;
mod samples;
