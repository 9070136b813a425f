//! The schedule of a whole run, drawn from a seed.
#![tactic(auto)]

mod evictions;
mod fault;
mod harts;
mod interleaving;
mod laws;
mod making;
mod numbers;
mod weaving;

pub use fault::InterleaveFault;
pub use interleaving::interleave;
pub use laws::{draw_is_determined, interleaving_is_run};
pub use numbers::Numbers;
