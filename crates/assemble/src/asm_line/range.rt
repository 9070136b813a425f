//! The ranges of numbers.

ghost use Rattle.std.specs.Prelude.{◌^◌, ◌≤ℤ◌, negsuc, pos};

/// The range of a number, which holds 0.
#[derive(Clone, Copy)]
pub(crate) struct Range {
    pub(crate) low: i64,
    pub(crate) high: i64,
    pub(crate) ghost least: { negsuc (2 ^ 62) ≤ℤ low },
    pub(crate) ghost nonpositive: { low ≤ℤ pos 0 },
    pub(crate) ghost nonnegative: { pos 0 ≤ℤ high },
}
