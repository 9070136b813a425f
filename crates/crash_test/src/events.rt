//! Events that are judged.

use line_memory::Medium;
use store_trace::Trace;

/// Events, and the medium that they start from.
#[derive(Clone, Copy)]
pub struct Events<'a> {
    pub medium: &'a Medium,
    pub trace: &'a Trace,
}
