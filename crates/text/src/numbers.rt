//! The numbers that words write.

ghost use Rattle.std.specs.Prelude.{◌^◌, ◌+◌, ◌*◌, ◌<◌, ◌≤◌, ℕ, IfNone, IfSome, MatchOption, SomeIff};
ghost use Rattle.std.specs.Str.Parse.{IsNumeral, digits_value};
ghost use Rattle.text.specs.Numbers.{IsOf, IsWritten, Writes};
ghost use Rattle.text.specs.declared.numbers.Number.{Number as ANumber};

/// A number that digits write, whatever its size.
#[derive(Clone, Copy)]
pub enum Number {
    /// The number, below 2^64.
    Small(u64),
    /// A number from 2^64 on.
    Large,
}

/// The number that a word writes, in decimal digits or in hexadecimal ones behind `0x`.
#[tactic(auto, using(crate::proofs::Digits::hexadecimal_said, crate::proofs::Digits::hexadecimal_none, crate::proofs::Digits::decimal_none))]
pub fn written_number(word: &[u8]) -> Option<Number>
    ensures some { IfSome result (IsWritten word.now) }
    ensures none { IfNone result ((number : ANumber) → ¬ (IsWritten word.now number)) }
{
    match word {
        [b'0', b'x', digits @ ..] => number_in(digits, 16),
        _ => number_in(word, 10),
    }
}

/// The number that digits of a radix write: one digit or more, leading zeros among them, and nothing else.
pub fn number_in(digits: &[u8], radix: u32) -> Option<Number>
    requires low { 2 ≤ radix }
    requires high { radix ≤ 16 }
    ensures { MatchOption result (¬ (IsNumeral radix digits.now)) (Writes radix digits.now) }
{
    if digits.is_empty() {
        return None;
    }
    let mut number = Number::Small(0);
    for byte in digits {
        let Some(digit) = char::from(*byte).to_digit(radix) else {
            return None;
        };
        number = extended(number, radix, digit);
    }
    Some(number)
}

/// A number with one more digit behind it.
#[tactic(auto, using(crate::proofs::Digits::larger))]
fn extended(number: Number, radix: u32, digit: u32) -> Number
    requires { 2 ≤ radix }
    ensures { (value : ℕ) → IsOf value number → IsOf (value * radix + digit) result }
{
    let Number::Small(value) = number else {
        return Number::Large;
    };
    let Some(shifted) = value.checked_mul(u64::from(radix)) else {
        return Number::Large;
    };
    match shifted.checked_add(u64::from(digit)) {
        Some(sum) => Number::Small(sum),
        None => Number::Large,
    }
}

/// The number that decimal digits write, where it is below 2^64: one digit or more, leading zeros
/// among them, and nothing else.
pub fn wide_decimal(text: &[u8]) -> Option<u64>
    ensures { SomeIff result (IsNumeral 10 text.now × (digits_value 10 text.now < 2 ^ 64))
        (digits_value 10 text.now) }
{
    match number_in(text, 10) {
        Some(Number::Small(number)) => Some(number),
        _ => None,
    }
}

/// The number that decimal digits write, where it is below 2^32.
pub fn decimal(text: &[u8]) -> Option<u32>
    ensures { SomeIff result (IsNumeral 10 text.now × (digits_value 10 text.now < 2 ^ 32))
        (digits_value 10 text.now) }
{
    u32::try_from(wide_decimal(text)?).ok()
}

/// The number that decimal digits write, where it is from `low` to `high`.
pub fn decimal_within(text: &[u8], low: u32, high: u32) -> Option<u32>
    ensures { SomeIff result (IsNumeral 10 text.now × (low ≤ digits_value 10 text.now)
        × (digits_value 10 text.now ≤ high)) (digits_value 10 text.now) }
{
    decimal(text).filter(|number| (low..=high).contains(number))
}
