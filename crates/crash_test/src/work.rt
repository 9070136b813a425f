//! What is judged of a run, and by how many.

ghost use Rattle.std.proofs.Props.{props};
ghost use Rattle.std.specs.Prelude.{◌<◌, ◌≤◌, IfSome};

/// The moments of a run that are judged, how many workers share them, and what ends the verdict.
#[derive(Clone, Copy, Debug)]
pub struct Work {
    /// The first of the moments.
    pub first: u32,
    /// The last of them, or None for that of the run. A moment past those of the run counts as its last one.
    pub last: Option<u32>,
    /// One to eight.
    pub workers: u32,
    /// Whether judging goes on behind a moment with over 65,536 branches, which is counted and left open.
    pub goes_on: bool,
    ghost order: { IfSome last (λ moment. first ≤ moment) } by { Prim.hlevel props },
    ghost some: { 0 < workers },
    ghost few: { workers ≤ 8 },
}
