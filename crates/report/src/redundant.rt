//! What is printed of the cleans and fences that a run makes in vain.

mod always;
mod json;
mod uses;
mod waste;

pub use json::waste_json;
pub use waste::waste_text;
