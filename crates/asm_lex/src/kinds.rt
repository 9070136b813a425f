//! Which pieces of a line are tokens.

ghost use Rattle.asm_lex.specs.Kinds.{kind_of, lexeme_of, mark_of, number, number_of, value_of};
ghost use Rattle.asm_lex.specs.Pieces.{is_word};
ghost use Rattle.std.specs.Prelude.{◌≡◌, ◌≤◌, ◌∷◌, MatchOption, length, option_map};
ghost use Rattle.std.specs.Str.Parse.{IsNumeral};
ghost use Rattle.text.specs.Numbers.{Writes};
ghost use Rattle.text.specs.declared.numbers.Number.TheVariants.{Small};

use crate::Kind;
use text::{Number, number_in};

/// A byte of a run: a letter, a digit, `_` or `.`.
#[tactic(auto, unfolding(crate::specs::Pieces::is_word))]
pub(crate) fn is_word(byte: u8) -> bool
    ensures { result ≡ is_word byte }
{
    byte.is_ascii_alphanumeric() || byte == b'_' || byte == b'.'
}

/// So many digits of a radix up to 16 write a number below 2^64.
const SHORT: usize = 16;

/// The number that few digits of a radix write.
#[inline(always)]
#[tactic(auto, using(crate::proofs::Digits::short_more, crate::proofs::Digits::short_all, crate::proofs::Digits::no_digit))]
fn short_value(digits: &[u8], radix: u32) -> Option<u64>
    requires low { 2 ≤ radix }
    requires high { radix ≤ 16 }
    requires short { length digits.now ≤ 16 }
    ensures { MatchOption result (¬ (IsNumeral radix digits.now)) (λ value. Writes radix digits.now (Small value)) }
{
    if digits.is_empty() {
        return None;
    }
    let mut value = 0;
    for byte in digits {
        let Some(digit) = char::from(*byte).to_digit(radix) else {
            return None;
        };
        value = value * u64::from(radix) + u64::from(digit);
    }
    Some(value)
}

/// The number that digits of a radix write, which is None within from 2^64 on; None of other bytes.
#[inline(always)]
#[tactic(auto, using(crate::proofs::Digits::small_is, crate::proofs::Digits::large_is, crate::proofs::Digits::none_is))]
fn value(digits: &[u8], radix: u32) -> Option<Option<u64>>
    requires low { 2 ≤ radix }
    requires high { radix ≤ 16 }
    ensures { result ≡ value_of radix digits.now }
{
    if digits.len() <= SHORT {
        return Some(Some(short_value(digits, radix)?));
    }
    match number_in(digits, radix)? {
        Number::Small(value) => Some(Some(value)),
        Number::Large => Some(None),
    }
}

/// The number that a piece writes which begins with a zero: nothing follows it, or `x` and hexadecimal digits do.
#[inline(always)]
#[tactic(auto, using(crate::proofs::Digits::zero_alone, crate::proofs::Digits::zero_then_digits, crate::proofs::Digits::zero_then_other))]
fn value_behind_zero(rest: &[u8]) -> Option<Option<u64>>
    ensures { option_map (λ v. number v (48 ∷ rest.now)) result ≡ number_of (48 ∷ rest.now) }
{
    match rest {
        [] => Some(Some(0)),
        [b'x', digits @ ..] => value(digits, 16),
        _ => None,
    }
}

/// The number that a piece writes, if it is one.
#[inline(always)]
#[tactic(auto, using(crate::proofs::Digits::nothing_written, crate::proofs::Digits::zero_first, crate::proofs::Digits::digit_first))]
fn written(text: &[u8]) -> Option<Option<u64>>
    ensures { option_map (λ v. number v text.now) result ≡ number_of text.now }
{
    match text {
        [] => None,
        [b'0', rest @ ..] => value_behind_zero(rest),
        _ => value(text, 10),
    }
}

/// A number, where the piece writes one.
#[inline(always)]
fn number(text: &[u8]) -> Option<Kind<'_>>
    ensures { option_map lexeme_of result ≡ number_of text.now }
{
    let value = written(text)?;
    Some(Kind::Number { value, text })
}

/// The mark that a byte is.
#[tactic(auto, unfolding(crate::specs::Kinds::mark_of))]
fn mark(byte: u8) -> Option<Kind<'static>>
    ensures { option_map lexeme_of result ≡ mark_of byte }
{
    match byte {
        b',' => Some(Kind::Comma),
        b'(' => Some(Kind::Open),
        b')' => Some(Kind::Close),
        b':' => Some(Kind::Colon),
        b'+' => Some(Kind::Plus),
        b'-' => Some(Kind::Minus),
        _ => None,
    }
}

/// The kind of the token that a piece is.
#[inline(always)]
#[tactic(auto, unfolding(crate::specs::Kinds::kind_of))]
pub(crate) fn kind_of(piece: &[u8]) -> Option<Kind<'_>>
    ensures { option_map lexeme_of result ≡ kind_of piece.now }
{
    let first = *piece.first()?;
    if first.is_ascii_digit() {
        number(piece)
    } else if is_word(first) {
        Some(Kind::Name(piece))
    } else {
        mark(first)
    }
}
