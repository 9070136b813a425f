//! What stands at fault in a line of assembler source that is refused, and what is wanted in its place.

mod hints;
mod nearest;
mod places;
mod shapes;
mod slip;
mod unknown;

pub use nearest::nearest_mnemonic;
pub use places::Part;
pub use slip::{Slip, slip_in};
