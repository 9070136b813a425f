//! Who hears how far a search has come.

/// Who hears how far a search has come.
pub trait Watcher {
    ghost use Rattle.std.specs.Prelude.{ℕ, ◌*◌, ◌≤◌};

    /// What becomes of it when it hears that so many states were met, of which so many wait, in so many bytes.
    ghost hears: { Self → ℕ → ℕ → ℕ → Self → Type 0 };

    /// Hears that so many states were met, of which so many wait to be judged. The tables of the search hold so many bytes, of which each state
    /// has 64 for itself.
    fn hear(&mut self, met: usize, waiting: usize, bytes: u128)
        requires few { waiting ≤ met }
        requires bytes { 64 * met ≤ bytes }
        ensures { hears self.old met waiting bytes self.new };
}

/// Nobody: what is said of the search is lost.
#[derive(Clone, Copy, Debug, PartialEq, Eq)]
pub struct Unwatched;

impl Watcher for Unwatched {
    ghost hears = { λ before met waiting bytes after. Unit {0} };

    fn hear(&mut self, _met: usize, _waiting: usize, _bytes: u128) {}
}
