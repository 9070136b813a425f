//! Which operations of a run may overlap.

/// Which operations of a run may overlap.
#[derive(Clone, Copy, Debug, PartialEq, Eq)]
pub enum Overlap {
    /// None: each ends before the next begins.
    Never,
    /// Those of different harts: each ends before the next of its hart begins.
    BetweenHarts,
    /// Any.
    Always,
}
