//! Tests of `interleaving`.

mod drawn;
mod numbers;
