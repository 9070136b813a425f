//! A hart: what its next instruction needs of the world, what the reply does to it, and the line that shows it.
#![tactic(auto)]

mod addresses;
mod alu;
mod arithmetic;
mod atomics;
mod control_flow;
mod ecall;
mod line;
mod memory;
mod need;
mod replies;
mod state;
mod stepping;

pub use atomics::amo_result;
pub use line::HartLine;
pub use need::{AccessFault, Advance, Need, Reply, Request};
pub use replies::{answer, resume};
pub use state::{HartState, Registers, Status, Trap};
pub use stepping::{advance, instruction, next};
