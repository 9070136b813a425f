//! The judge by the answers of a recovery that runs outside, which is asked for an answer on each image that counts.
//!
//! A moment is judged by the replies so far alone. Where these leave an image open, that image is asked for, and the moment is judged again.

pub use answering::{Answering, Wanted};
pub use cause::OutsideCause;
pub use fault::OutsideFault;
pub use judging::OutsideRun;
pub use reply::Reply;

mod answering;
mod cause;
mod fault;
mod judging;
mod known_images;
mod moment;
mod replies;
mod reply;
mod right_replies;
