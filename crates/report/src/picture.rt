//! A picture of events up to a moment: which stores, cleans and fences were made, and what a power cut may lose then.

mod colours;
mod drawing;
mod labels;
mod legend;
mod marks;
mod picturing;
mod rows;
mod svg;
mod title;

pub use picturing::{image_stores, picture_at};
pub use svg::{ImageLine, picture_text};
