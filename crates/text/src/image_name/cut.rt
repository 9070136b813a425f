//! A cut: cache lines, each with a number of its stores.

ghost use Rattle.std.specs.Prelude.{◌≡◌};

use std::marker::Model;

/// Cache lines, upwards, each with how many of its first stores are in the medium.
///
/// A contract sees the pairs of line and number.
#[derive(Debug, Drop)]
pub struct Cut {
    entries: Vec<(u32, u32)>,
}

impl Model for Cut {
    ghost use Rattle.std.specs.Prelude.{ℕ, List};

    ghost Value = { List (ℕ × ℕ) };

    ghost view = { λ c. c.entries.items };
}

impl Cut {
    /// The cut of these pairs of line and number.
    pub fn from_entries(entries: Vec<(u32, u32)>) -> Cut
        ensures { result ≡ entries.items }
    {
        Cut { entries }
    }

    /// The pairs of line and number.
    pub fn entries(&self) -> &[(u32, u32)]
        ensures { result.now ≡ self.now }
    {
        self.entries.as_slice()
    }

    /// The pairs of line and number, given back.
    pub fn into_entries(self) -> Vec<(u32, u32)>
        ensures { result.items ≡ self }
    {
        self.entries
    }
}
