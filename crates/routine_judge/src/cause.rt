//! Why an image is bad.

use recovery::Cause as RunCause;

/// Why an image is bad.
#[derive(Clone, Copy, Debug, PartialEq, Eq)]
pub enum Cause {
    /// The routine has no answer on it.
    Missing(RunCause),
    /// The routine's answer isn't a right one of the moment, which has one.
    Different,
    /// The routine has an answer, but the moment has no right one: of the full images that would give it the last has none for this
    /// cause, and no other has one. Of sequential runs the full image of one of those that fit has none for it.
    Full(RunCause),
    /// The routine has an answer, but the moment has no full image that would give a right one: no sequential run fits.
    Unmatched,
}
