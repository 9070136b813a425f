//! What is printed of stores that a power cut may lose, each with its place in the program and the cause of its loss.

mod cause;
mod event;
mod json;
mod loss;
mod mend;
mod objects;
mod unpersisted;
mod why;

pub use json::{unpersisted_json, why_json};
pub use unpersisted::unpersisted_text;
pub use why::why_text;
