//! Tests of line numbers and of `run_trace`.

mod numbers;
mod traces;
