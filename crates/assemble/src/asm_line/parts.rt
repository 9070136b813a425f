//! The operands of each format, checked: registers, numbers in a range, and targets.
//!
//! Of the faults of operands the lowest is answered: they fit no shape, a name is no register, a
//! number is out of range.

ghost use Rattle.assemble.specs.Grammar.{checked, fit, from_to, label_name, memory_place, parts};
ghost use Rattle.assemble.specs.Grammar.{register_name, register_then, signed_12, signed_number};
ghost use Rattle.assemble.specs.Grammar.{target};
ghost use Rattle.assemble.specs.Numbers.{within};
ghost use Rattle.assemble.specs.Steps.{all_seen, interval, target_seen, Gives};
ghost use Rattle.asm_lex.specs.Registers.{register_of};
ghost use Rattle.std.specs.Prelude.{◌≡◌, ◌∷◌, [], ◌^◌, ◌≤ℤ◌, pos, negsuc, neg_ℤ, int_le};
ghost use Rattle.std.specs.Prelude.{Ok, Err, IfOk, ok_or, if◌then◌else◌};

use crate::asm_line::fault::AsmCode;
use crate::asm_line::operands::{
    SignedNumber, Target, destination, label, name, name_place, name_target, name_then, names_then,
    number, place,
};
use crate::asm_line::range::Range;
use asm_lex::{Kind, register_of};
use isa_table::Reg;

/// 12 bits with a sign.
pub(crate) fn signed_12() -> Range
    ensures { interval result ≡ signed_12 }
{
    Range {
        low: -2048,
        high: 2047,
    }
}

/// From 0 to a greatest number.
pub(crate) fn up_to(high: i64) -> Range
    requires { pos 0 ≤ℤ high }
    ensures { interval result ≡ from_to (pos 0) high }
{
    Range { low: 0, high }
}

/// No operands.
pub(crate) fn nothing(lexemes: &[Kind]) -> Result<(), AsmCode>
    ensures { Gives (λ _. parts [] [] [] []) result
        (checked signed_12 (fit [] (all_seen lexemes.now))) }
{
    match lexemes {
        [] => Ok(()),
        _ => Err(AsmCode::Operands),
    }
}

/// `register`
pub(crate) fn one_register(lexemes: &[Kind]) -> Result<Reg, AsmCode>
    ensures { Gives (λ a. parts (a ∷ []) [] [] []) result
        (checked signed_12 (fit (register_name ∷ []) (all_seen lexemes.now))) }
{
    register(name(lexemes).ok_or(AsmCode::Operands)?)
}

/// `register, register`
pub(crate) fn two_registers(lexemes: &[Kind]) -> Result<(Reg, Reg), AsmCode>
    ensures { Gives (λ (a, b). parts (a ∷ b ∷ []) [] [] []) result
        (checked signed_12 (fit (register_then (register_name ∷ [])) (all_seen lexemes.now))) }
{
    let (first, rest) = name_then(lexemes).ok_or(AsmCode::Operands)?;
    let second = name(rest).ok_or(AsmCode::Operands)?;
    Ok((register(first)?, register(second)?))
}

/// `register, register, register`
pub(crate) fn three_registers(lexemes: &[Kind]) -> Result<(Reg, Reg, Reg), AsmCode>
    ensures { Gives (λ (a, b, c). parts (a ∷ b ∷ c ∷ []) [] [] []) result
        (checked signed_12 (fit (register_then (register_then (register_name ∷ []))) (all_seen lexemes.now))) }
{
    let (first, second, rest) = names_then(lexemes).ok_or(AsmCode::Operands)?;
    let third = name(rest).ok_or(AsmCode::Operands)?;
    Ok((register(first)?, register(second)?, register(third)?))
}

/// `number`
pub(crate) fn number_alone(lexemes: &[Kind], range: Range) -> Result<i64, AsmCode>
    ensures value { Gives (λ z. parts [] (z ∷ []) [] []) result
        (checked (interval range) (fit (signed_number ∷ []) (all_seen lexemes.now))) }
    ensures range { IfOk result (λ z. (range.low ≤ℤ z) × (z ≤ℤ range.high)) }
{
    let number = number(lexemes).ok_or(AsmCode::Operands)?;
    within(number, range.low, range.high)
}

/// `register, number`
pub(crate) fn register_number(lexemes: &[Kind], range: Range) -> Result<(Reg, i64), AsmCode>
    ensures value { Gives (λ (a, z). parts (a ∷ []) (z ∷ []) [] []) result
        (checked (interval range) (fit (register_then (signed_number ∷ [])) (all_seen lexemes.now))) }
    ensures range { IfOk result (λ (a, z). (range.low ≤ℤ z) × (z ≤ℤ range.high)) }
{
    let (first, rest) = name_then(lexemes).ok_or(AsmCode::Operands)?;
    let number = number(rest).ok_or(AsmCode::Operands)?;
    Ok((register(first)?, within(number, range.low, range.high)?))
}

/// `register, register, number`
pub(crate) fn registers_number(lexemes: &[Kind], range: Range) -> Result<(Reg, Reg, i64), AsmCode>
    ensures value { Gives (λ (a, b, z). parts (a ∷ b ∷ []) (z ∷ []) [] []) result
        (checked (interval range) (fit (register_then (register_then (signed_number ∷ []))) (all_seen lexemes.now))) }
    ensures range { IfOk result (λ (a, b, z). (range.low ≤ℤ z) × (z ≤ℤ range.high)) }
{
    let (first, second, rest) = names_then(lexemes).ok_or(AsmCode::Operands)?;
    let number = number(rest).ok_or(AsmCode::Operands)?;
    let (first, second) = (register(first)?, register(second)?);
    Ok((first, second, within(number, range.low, range.high)?))
}

/// `offset(register)`
pub(crate) fn place_alone(lexemes: &[Kind], range: Range) -> Result<(Reg, i64), AsmCode>
    ensures value { Gives (λ (base, z). parts (base ∷ []) (z ∷ []) [] []) result
        (checked (interval range) (fit memory_place (all_seen lexemes.now))) }
    ensures range { IfOk result (λ (base, z). (range.low ≤ℤ z) × (z ≤ℤ range.high)) }
{
    let (offset, base) = place(lexemes).ok_or(AsmCode::Operands)?;
    Ok((register(base)?, within(offset, range.low, range.high)?))
}

/// `register, offset(register)`
pub(crate) fn register_place(lexemes: &[Kind], range: Range) -> Result<(Reg, Reg, i64), AsmCode>
    ensures value { Gives (λ (a, base, z). parts (a ∷ base ∷ []) (z ∷ []) [] []) result
        (checked (interval range) (fit (register_then memory_place) (all_seen lexemes.now))) }
    ensures range { IfOk result (λ (a, base, z). (range.low ≤ℤ z) × (z ≤ℤ range.high)) }
{
    let (first, offset, base) = name_place(lexemes).ok_or(AsmCode::Operands)?;
    let (first, base) = (register(first)?, register(base)?);
    Ok((first, base, within(offset, range.low, range.high)?))
}

/// `register, register, offset(register)`
pub(crate) fn registers_place(
    lexemes: &[Kind],
    range: Range,
) -> Result<(Reg, Reg, Reg, i64), AsmCode>
    ensures value { Gives (λ (a, b, base, z). parts (a ∷ b ∷ base ∷ []) (z ∷ []) [] []) result
        (checked (interval range) (fit (register_then (register_then memory_place)) (all_seen lexemes.now))) }
    ensures range { IfOk result (λ (a, b, base, z). (range.low ≤ℤ z) × (z ≤ℤ range.high)) }
{
    let (first, second, rest) = names_then(lexemes).ok_or(AsmCode::Operands)?;
    let (offset, base) = place(rest).ok_or(AsmCode::Operands)?;
    let (first, second, base) = (register(first)?, register(second)?, register(base)?);
    Ok((first, second, base, within(offset, range.low, range.high)?))
}

/// `register, label`
pub(crate) fn register_label<'a>(lexemes: &[Kind<'a>]) -> Result<(Reg, Target<'a>), AsmCode>
    ensures { Gives (λ (a, t). parts (a ∷ []) [] [] (target_seen t ∷ [])) result
        (checked signed_12 (fit (register_then (label_name ∷ [])) (all_seen lexemes.now))) }
{
    let (first, rest) = name_then(lexemes).ok_or(AsmCode::Operands)?;
    let label = label(rest).ok_or(AsmCode::Operands)?;
    Ok((register(first)?, label))
}

/// `register, target`
pub(crate) fn register_target<'a>(lexemes: &[Kind<'a>]) -> Result<(Reg, Target<'a>), AsmCode>
    ensures { Gives (λ (a, t). parts (a ∷ []) [] [] (target_seen t ∷ [])) result
        (checked signed_12 (fit (register_then (target ∷ [])) (all_seen lexemes.now))) }
{
    let (first, target) = name_target(lexemes).ok_or(AsmCode::Operands)?;
    Ok((register(first)?, target))
}

/// `register, register, target`
pub(crate) fn registers_target<'a>(lexemes: &[Kind<'a>]) -> Result<(Reg, Reg, Target<'a>), AsmCode>
    ensures { Gives (λ (a, b, t). parts (a ∷ b ∷ []) [] [] (target_seen t ∷ [])) result
        (checked signed_12 (fit (register_then (register_then (target ∷ []))) (all_seen lexemes.now))) }
{
    let (first, second, rest) = names_then(lexemes).ok_or(AsmCode::Operands)?;
    let target = destination(rest).ok_or(AsmCode::Operands)?;
    Ok((register(first)?, register(second)?, target))
}

/// A register's name.
pub(crate) fn register(name: &[u8]) -> Result<Reg, AsmCode>
    ensures { result ≡ ok_or (register_of name.now) AsmCode.Register }
{
    register_of(name).ok_or(AsmCode::Register)
}

/// The integer that a number is, where it is in a range, which holds 0.
pub(crate) fn within(number: SignedNumber, low: i64, high: i64) -> Result<i64, AsmCode>
    requires least { negsuc (2 ^ 62) ≤ℤ low }
    requires low { low ≤ℤ pos 0 }
    requires high { pos 0 ≤ℤ high }
    ensures value { result ≡ within number low high }
    ensures range { IfOk result (λ z. (low ≤ℤ z) × (z ≤ℤ high)) }
{
    match number.size {
        Some(size) if number.is_negative => negative(size, low),
        Some(size) => positive(size, high),
        None => Err(AsmCode::Range),
    }
}

fn negative(size: u64, low: i64) -> Result<i64, AsmCode>
    requires least { negsuc (2 ^ 62) ≤ℤ low }
    requires low { low ≤ℤ pos 0 }
    ensures value { result
        ≡ (if int_le low (neg_ℤ (pos size)) then Ok (neg_ℤ (pos size)) else Err AsmCode.Range) }
    ensures range { IfOk result (λ z. (low ≤ℤ z) × (z ≤ℤ pos 0)) }
{
    if size <= low.unsigned_abs() {
        Ok(-(size as i64))
    } else {
        Err(AsmCode::Range)
    }
}

fn positive(size: u64, high: i64) -> Result<i64, AsmCode>
    requires { pos 0 ≤ℤ high }
    ensures value { result
        ≡ (if int_le (pos size) high then Ok (pos size) else Err AsmCode.Range) }
    ensures range { IfOk result (λ z. (pos 0 ≤ℤ z) × (z ≤ℤ high)) }
{
    if size <= high.unsigned_abs() {
        Ok(size as i64)
    } else {
        Err(AsmCode::Range)
    }
}
