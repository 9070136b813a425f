//! The forms in which a run is reported.

/// Lines for a reader, or objects of JSON (RFC 8259), one a line.
#[derive(Clone, Copy)]
pub enum Form {
    /// Lines.
    Text,
    /// Objects, or what stands in their strings.
    Json,
}
