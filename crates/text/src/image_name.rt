//! Names of crash images: how a user says which of a moment's images is meant.

mod cut;
mod laws;
mod name;
mod reader;
mod writer;

pub use cut::Cut;
pub use laws::written_is_read;
pub use name::ImageName;
