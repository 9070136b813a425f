//! The queue of the branches that are to be opened.

/// A cut: that of its parent with one line raised. The first entry raises none.
#[derive(Clone, Copy)]
pub struct Entry {
    /// The place of the parent in the queue.
    pub parent: usize,
    /// How many of the lines that recovery asks were decided when the entry was made.
    pub decided: usize,
    pub line: u32,
    /// The line's number of stores, above its floor.
    pub number: u32,
}

impl Entry {
    /// The cut with all lines at their floors, of which nothing is decided.
    pub const FIRST: Entry = Entry {
        parent: 0,
        decided: 0,
        line: 0,
        number: 0,
    };
}
