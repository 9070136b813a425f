//! The directives, each with its numbers.

ghost use Rattle.asm_lex.specs.declared.asm_names.mnemonic.Mnemonic.{Mnemonic};
ghost use Rattle.assemble.specs.Grammar.{statement_of};
ghost use Rattle.assemble.specs.AsmLineFaults.{Fails};
ghost use Rattle.assemble.specs.Meanings.{meaning_of, width_bytes, IsInRange};
ghost use Rattle.assemble.specs.Numbers.{numbers_of, with_first};
ghost use Rattle.assemble.specs.Steps.{all_seen, numbers_left, left_len, lowest_code, numbers_after};
ghost use Rattle.assemble.specs.Steps.{stored, values_by, Says};
ghost use Rattle.std.specs.Prelude.{◌≡◌, ◌≢◌, ◌+◌, ◌*◌, ◌-◌, ◌^◌, ◌<◌, ◌≤◌, length, All, Some, None, Ok};
ghost use Rattle.std.specs.Prelude.{IfOk, IfErr, IfSome, MatchOption, option_and_then};

use crate::asm_line::fault::AsmCode;
use crate::asm_line::line::Statement;
use crate::asm_line::operands::{SignedNumber, number_then};
use crate::asm_line::parts::{nothing, number_alone, up_to};
use asm_lex::{Kind, NumberWidth, Section};
use std::alloc::Global;

/// `.text` and `.data`.
#[tactic(auto, unfolding(crate::specs::Grammar::statement_of))]
pub(crate) fn section_of<'a>(
    section: Section,
    operands: &[Kind<'a>],
) -> Result<Statement<'a>, AsmCode>
    ensures { Says result (statement_of (Mnemonic.Section section) (all_seen operands.now)) }
{
    nothing(operands)?;
    Ok(Statement::Section(section))
}

/// `.zero`: so many zero bytes.
#[tactic(auto, unfolding(crate::specs::Grammar::statement_of))]
pub(crate) fn zeros<'a>(operands: &[Kind<'a>]) -> Result<Statement<'a>, AsmCode>
    ensures { Says result (statement_of Mnemonic.Zeros (all_seen operands.now)) }
{
    let count = number_alone(operands, up_to(1_048_576))?;
    Ok(Statement::Zeros(count.unsigned_abs() as u32))
}

/// `.balign`: a power of two.
#[tactic(auto, unfolding(crate::specs::Grammar::statement_of), using(crate::proofs::NumberLists::some_power))]
pub(crate) fn align<'a>(operands: &[Kind<'a>]) -> Result<Statement<'a>, AsmCode>
    ensures { Says result (statement_of Mnemonic.Align (all_seen operands.now)) }
{
    let boundary = number_alone(operands, up_to(4096))?.unsigned_abs() as u32;
    if boundary.is_power_of_two() {
        Ok(Statement::Align(boundary))
    } else {
        Err(AsmCode::Range)
    }
}

/// `.byte`, `.half`, `.word` and `.dword`: one number or more, between commas.
#[tactic(auto, using(crate::proofs::NumberLists::numbers_are, crate::proofs::NumberLists::numbers_fail))]
pub(crate) fn numbers<'a>(
    alloc: Global,
    width: NumberWidth,
    operands: &[Kind<'a>],
) -> Result<Statement<'a>, AsmCode>
    ensures ok { IfOk result (λ s. statement_of (Mnemonic.Numbers width) (all_seen operands.now)
        ≡ Ok (meaning_of s)) }
    ensures err { IfErr result (λ code. Fails code
        (statement_of (Mnemonic.Numbers width) (all_seen operands.now))) }
    ensures in_range { IfOk result (λ s. IsInRange (meaning_of s)) }
{
    let values = values(alloc, width, operands)?;
    Ok(Statement::Numbers { width, values })
}

/// One number or more, between commas, each modulo its width.
#[tactic(auto, using(crate::proofs::NumberLists::values_start, crate::proofs::NumberLists::values_go_on, crate::proofs::NumberLists::values_end, crate::proofs::NumberLists::values_none, crate::proofs::NumberLists::values_fault))]
fn values(alloc: Global, width: NumberWidth, lexemes: &[Kind]) -> Result<Vec<u64>, AsmCode>
    ensures ok { IfOk result (λ found. values_by width (numbers_of (all_seen lexemes.now))
        ≡ Ok found.items) }
    ensures err { IfErr result (λ code. Fails code
        (values_by width (numbers_of (all_seen lexemes.now)))) }
    ensures in_range { IfOk result (λ found. All
        (λ v. v < 2 ^ (8 * width_bytes width)) found.items) }
{
    let mut found = Vec::new(alloc);
    let mut rest = Some(lexemes);
    while let Some(left) = rest {
        let (number, after) = front(left).ok_or(AsmCode::Operands)?;
        match stored(width, number) {
            Ok(value) => found.push(value)?,
            Err(code) => return Err(lowest_code(code, after)),
        }
        rest = after;
    }
    Ok(found)
}

/// The lowest code of a number and of what follows its comma, which may be no list of numbers.
#[tactic(auto, using(crate::proofs::NumberLists::code_goes_on, crate::proofs::NumberLists::code_ends))]
fn lowest_code(code: AsmCode, lexemes: Option<&[Kind]>) -> AsmCode
    ensures { result ≡ lowest_code code (numbers_left lexemes.entry) }
{
    let mut rest = lexemes;
    while let Some(left) = rest {
        let Some((_, after)) = front(left) else {
            return AsmCode::Operands;
        };
        rest = after;
    }
    code
}

/// The number that stands first, and what follows the comma after it, if one stands there.
#[tactic(auto, using(crate::proofs::NumberLists::list_step))]
fn front<'s, 'a>(lexemes: &'s [Kind<'a>]) -> Option<(SignedNumber, Option<&'s [Kind<'a>]>)>
    ensures value { MatchOption result (numbers_of (all_seen lexemes.now) ≡ None)
        (λ (number, rest). numbers_of (all_seen lexemes.now) ≡ with_first number
        (numbers_left rest)) }
    ensures shorter { IfSome result (λ (number, rest). left_len rest < 1 + length lexemes.now) }
{
    let (number, rest) = number_then(lexemes)?;
    Some((number, after_comma(rest)?))
}

/// What follows a comma; None within at the end, and None where another lexeme stands.
fn after_comma<'s, 'a>(lexemes: &'s [Kind<'a>]) -> Option<Option<&'s [Kind<'a>]>>
    ensures value { (n : SignedNumber) → numbers_after n (all_seen lexemes.now)
        ≡ option_and_then (λ rest. with_first n (numbers_left rest)) result }
    ensures shorter { IfSome result (λ rest. left_len rest < 1 + length lexemes.now) }
{
    match lexemes {
        [] => Some(None),
        [Kind::Comma, rest @ ..] => Some(Some(rest)),
        _ => None,
    }
}

/// A number modulo its width, where it is in the range from minus half the unsigned one to its end.
pub(crate) fn stored(width: NumberWidth, number: SignedNumber) -> Result<u64, AsmCode>
    ensures value { result ≡ stored width number }
    ensures in_range { IfOk result (λ v. v < 2 ^ (8 * width_bytes width)) }
{
    let half = half_range(width);
    let greatest = half - 1 + half;
    match number.size {
        Some(0) => Ok(0),
        Some(size) if number.is_negative && size <= half => Ok(greatest - (size - 1)),
        Some(size) if !number.is_negative && size <= greatest => Ok(size),
        _ => Err(AsmCode::Range),
    }
}

/// Half of the unsigned range.
fn half_range(width: NumberWidth) -> u64
    ensures value { result ≡ 2 ^ (8 * width_bytes width - 1) }
    ensures whole { result + result ≡ 2 ^ (8 * width_bytes width) }
    ensures positive { 0 < result }
{
    match width {
        NumberWidth::Byte => 0x80,
        NumberWidth::Half => 0x8000,
        NumberWidth::Word => 0x8000_0000,
        NumberWidth::Doubleword => 0x8000_0000_0000_0000,
    }
}
