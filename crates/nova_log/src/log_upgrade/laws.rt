//! What holds of upgrades over all media: laws, with nothing to run.

ghost use Rattle.std.specs.Prelude.{◌≡◌, ℕ, List, Ok};
ghost use Rattle.nova_log.specs.Upgraded.{IsOfBytes, upgraded};

use line_memory::Medium;

/// Upgrading what an upgrade of a medium made, to the same pages and lines, gives it back.
pub fn upgraded_again(medium: &Medium)
    ensures { (made : List (List ℕ)) (pages lines : ℕ) →
        upgraded medium.now pages lines ≡ Ok made → upgraded made pages lines ≡ Ok made }
{
    is_of_bytes(medium);
}

/// A medium has whole lines of bytes.
pub(crate) fn is_of_bytes(medium: &Medium)
    ensures { IsOfBytes medium.now }
{
    medium.lines();
    medium.holds_bytes();
}
