//! What is printed of a medium: the volume that recovery finds on it, and the bytes of one of its lines.

mod line;
mod logs;
mod names;

pub use line::line_text;
pub use logs::volume_text;
