//! What each code that the program prints means, and what to do about it.

mod looking;
mod showing;
mod table;

pub use looking::{all_have_meanings, meaning_of};
pub use showing::list;
pub use table::Meaning;
