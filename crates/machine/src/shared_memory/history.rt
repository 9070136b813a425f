//! The history of a run: what its harts asked of memory and were told, and its evictions.

use hart::{Reply, Request};

/// One entry of a history.
#[derive(Clone, Copy)]
pub enum Entry {
    /// A hart's request and the reply to it.
    Asked {
        hart: u32,
        request: Request,
        reply: Reply,
    },
    /// An eviction of a cache line.
    Evicted {
        line: u32,
    },
}
