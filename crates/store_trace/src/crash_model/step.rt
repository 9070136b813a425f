//! What happens to persistent memory, one step at a time.

/// One step that decides what a power cut may leave in the medium.
///
/// Lines have 64 bytes and are numbered from 0, harts too; an offset is a byte's place in its line,
/// and a width is a number of bytes.
#[derive(Clone, Copy)]
pub enum PersistenceStep {
    /// The low `width` bytes of `value` are written from `offset` on, the least significant first.
    Store {
        line: u32,
        offset: u32,
        width: u32,
        value: u64,
    },
    /// The hart asks for the line's write-back (`cbo.clean`, `cbo.flush` or `cbo.inval`).
    Clean {
        hart: u32,
        line: u32,
    },
    /// The hart's earlier cleans are complete.
    Fence {
        hart: u32,
    },
    /// The line is written back by the cache's own choice.
    Evict {
        line: u32,
    },
}
