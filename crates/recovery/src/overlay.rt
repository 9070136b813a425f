//! Memory over lines that stay as they are: a line is copied at its first store, and set back by the list of those that were
//! copied, so that starting anew costs as much as was stored to, and not as much as there is.

mod held;
mod source;

pub use held::Held;
pub use source::Source;
