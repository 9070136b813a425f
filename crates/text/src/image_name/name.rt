//! How an image is named.

use crate::image_name::cut::Cut;

/// How a crash image of a moment is named.
#[derive(Debug, Drop)]
pub enum ImageName {
    /// The place of its cut among all cuts of the moment, from 0.
    Number(u32),
    /// The lines that stand above their floor, upwards, each with its number.
    Cut(Cut),
}
