//! Numbers without needless digits.

ghost use Rattle.std.specs.Prelude.{◌≡◌, ◌≢◌, ◌<◌, ◌≤◌, ◌++◌, ◌∷◌, ℕ, List, IfNone, IfSome, length};
ghost use Rattle.text.specs.Numbers.{IsOf};
ghost use Rattle.std.specs.List.{list_any};
ghost use Rattle.trace_file.specs.Numerals.{IsNumberBefore, IsNumberOf, has_needless_zero, is_capital, numeral};

use crate::cutting::cut;
use text::{Number, number_in};

/// Whether the first digit is needless: a zero with further digits behind it.
fn has_needless_zero(digits: &[u8]) -> bool
    ensures { result ≡ has_needless_zero digits.now }
{
    matches!(digits, [b'0', _, ..])
}

/// Whether a byte is a capital letter.
fn is_capital(byte: u8) -> bool
    ensures { result ≡ is_capital byte }
{
    matches!(byte, b'A'..=b'Z')
}

fn has_capitals(digits: &[u8]) -> bool
    ensures { result ≡ list_any is_capital digits.now }
{
    digits.iter().any(|byte| is_capital(*byte))
}

/// The number whose plain digits these are: none is needless, and letters are lower-case.
#[tactic(auto, using(crate::proofs::NumeralLemmas::number_found, crate::proofs::NumeralLemmas::no_digits, crate::proofs::NumeralLemmas::zero_in_front, crate::proofs::NumeralLemmas::capital_inside))]
fn plain_number(digits: &[u8], radix: u32) -> Option<Number>
    requires low { 2 ≤ radix }
    requires high { radix ≤ 16 }
    ensures some { IfSome result (IsNumberOf radix digits.now) }
    ensures none { IfNone result ((n : ℕ) → digits.now ≢ numeral radix n) }
{
    if has_needless_zero(digits) || has_capitals(digits) {
        return None;
    }
    number_in(digits, radix)
}

/// The number before the first of a byte, and what follows that.
#[tactic(auto, using(crate::proofs::NumeralLemmas::number_stands, crate::proofs::NumeralLemmas::no_number))]
pub(crate) fn number_before(text: &[u8], radix: u32, stop: u8) -> Option<(Number, &[u8])>
    requires low { 2 ≤ radix }
    requires high { radix ≤ 16 }
    requires stop { stop < 48 }
    ensures some { IfSome result (λ found. IsNumberBefore radix stop text.now found.0 found.1.now) }
    ensures none { IfNone result ((n : ℕ) (rest : List ℕ) → text.now ≢ numeral radix n ++ stop ∷ rest) }
    ensures shorter { IfSome result (λ found. length found.1.now < length text.now) }
{
    let (digits, rest) = cut(text, stop)?;
    Some((plain_number(digits, radix)?, rest))
}
