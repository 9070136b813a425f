//! An index of a trace: for each line its stores, floors and bytes at every moment, from one pass over the events.
//!
//! The check of a run looks at many moments of one trace. With the index a moment costs nothing for the events
//! before it, and several workers can share it.

pub use index::TraceIndex;

mod build;
mod index;
mod line;
mod page;
mod table;
