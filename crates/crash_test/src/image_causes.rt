//! Why a crash image is as it is: of the cache lines that its recovery reads, the stores that it lacks and those that it keeps.

mod laws;
mod parting;
mod reading;
mod telling;

pub use laws::kept_lines_are_read;
pub use reading::{LogReader, Reader};
pub use telling::{ToldImage, tell_image, tell_image_by};
