//! What a seat keeps of a request.

use hart::{Reply, Request};

/// A request of a hart with its reply, and how many register steps the hart made between its request before and this one.
#[derive(Clone, Copy, Debug, PartialEq, Eq)]
pub struct Exchange {
    pub steps: u32,
    pub request: Request,
    pub reply: Reply,
}
