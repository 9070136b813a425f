//! Lines of numbers, which are read with no list of their tokens: a large source of data has few other lines.

ghost use Rattle.assemble.specs.Lines.{line_of};
ghost use Rattle.assemble.specs.Meanings.{line_meaning, meaning_of, width_bytes, IsInRange};
ghost use Rattle.assemble.specs.NumberLines.{BeginsNumbers, HasNumber, HasSize, HasValues};
ghost use Rattle.std.specs.Prelude.{◌≡◌, ◌*◌, ◌^◌, ◌<◌, ◌≤◌, length, All, Ok, IfSome};

use crate::asm_line::directives::stored;
use crate::asm_line::line::{Line, Statement};
use crate::asm_line::operands::SignedNumber;
use asm_lex::{Kind, Mnemonic, NumberWidth, mnemonic_of, next_kind};
use std::alloc::Global;

/// What a line says that is a directive and its numbers. None of other lines, of a line at fault, and where memory was refused:
/// such a line has to be read by its tokens.
#[tactic(auto, using(crate::proofs::NumberLines::numbers_said))]
pub(crate) fn number_line<'a>(alloc: Global, line: &[u8]) -> Option<Line<'a>>
    ensures said { IfSome result (λ read. line_of line.now ≡ Ok (line_meaning read)) }
    ensures in_range { IfSome result (λ read. IsInRange (meaning_of read.statement)) }
{
    let (width, end) = directive_first(line)?;
    let values = values_after(alloc, width, line, end)?;
    Some(Line {
        label: None,
        statement: Statement::Numbers { width, values },
    })
}

/// The width of the numbers' directive that a line begins with, and where its name ends.
fn directive_first(line: &[u8]) -> Option<(NumberWidth, usize)>
    ensures { IfSome result (λ (width, end). BeginsNumbers line.now width end) }
{
    match line {
        // Other lines are known by their first byte.
        [b'.' | b' ' | b'\t', ..] => directive_after_blanks(line),
        _ => None,
    }
}

/// The same, by the line's first token.
fn directive_after_blanks(line: &[u8]) -> Option<(NumberWidth, usize)>
    ensures { IfSome result (λ (width, end). BeginsNumbers line.now width end) }
{
    let (kind, end) = next_kind(line, 0)?;
    match kind? {
        Kind::Name(name) if name.starts_with(b".") => match mnemonic_of(name)? {
            Mnemonic::Numbers(width) => Some((width, end)),
            _ => None,
        },
        _ => None,
    }
}

/// Most lines have no more numbers, so that their list need not grow.
const USUAL_NUMBERS: usize = 4;

/// The values of the numbers, between commas, that a line is after a place, each modulo its width.
#[tactic(auto, using(crate::proofs::NumberLines::read_start, crate::proofs::NumberLines::read_more, crate::proofs::NumberLines::read_last))]
fn values_after(alloc: Global, width: NumberWidth, line: &[u8], from: usize) -> Option<Vec<u64>>
    requires { from ≤ length line.now }
    ensures values { IfSome result (λ found. HasValues width line.now from found.items) }
    ensures in_range { IfSome result (λ found. All (λ v. v < 2 ^ (8 * width_bytes width)) found.items) }
{
    let Ok(mut found) = Vec::with_capacity(alloc, USUAL_NUMBERS) else {
        return None;
    };
    let mut at = from;
    loop {
        let (number, end) = number_after(line, at)?;
        let Ok(value) = stored(width, number) else {
            return None;
        };
        let Ok(()) = found.push(value) else {
            return None;
        };
        match next_kind(line, end) {
            None => return Some(found),
            Some((Some(Kind::Comma), after)) => at = after,
            Some(_) => return None,
        }
    }
}

/// The number that a line has after a place, with at most one sign, and where it ends.
#[inline(always)]
#[tactic(auto, using(crate::proofs::NumberLines::bare_number, crate::proofs::NumberLines::plus_number, crate::proofs::NumberLines::minus_number))]
fn number_after(line: &[u8], from: usize) -> Option<(SignedNumber, usize)>
    requires { from ≤ length line.now }
    ensures { IfSome result (λ (number, end). HasNumber line.now from number end) }
{
    let (kind, after) = next_kind(line, from)?;
    let (is_negative, (size, end)) = match kind? {
        Kind::Number { value, .. } => (false, (value, after)),
        Kind::Plus => (false, size_after(line, after)?),
        Kind::Minus => (true, size_after(line, after)?),
        _ => return None,
    };
    Some((SignedNumber { is_negative, size }, end))
}

/// The size of the number that a line has after a place, with no sign, and where it ends.
fn size_after(line: &[u8], from: usize) -> Option<(Option<u64>, usize)>
    requires { from ≤ length line.now }
    ensures { IfSome result (λ (size, end). HasSize line.now from size end) }
{
    let (kind, end) = next_kind(line, from)?;
    match kind? {
        Kind::Number { value, .. } => Some((value, end)),
        _ => None,
    }
}
