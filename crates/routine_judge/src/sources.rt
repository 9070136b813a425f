//! Whose full images give the right answers of the moments of a run.

use crate::history::Windows;
use crate::rule::ProgramRuns;

/// Whose full images give the right answers of the moments of a run.
#[derive(Drop)]
pub(crate) enum Sources<'a> {
    /// Those of the run's own moments, by the windows of its operations.
    Moments(Windows),
    /// Those of the sequential runs that fit.
    Sequential(ProgramRuns<'a>),
}
