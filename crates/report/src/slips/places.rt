//! Where in a line that is refused the fault stands.

ghost use Rattle.asm_lex.specs.Kinds.{lexeme_of};
ghost use Rattle.report.specs.SlipPlaces.{can_stand, fault_token, is_colon, is_name, is_number, is_other_name, is_sign, only_number, operands, other_name, statement, uncommented};
ghost use Rattle.std.specs.Prelude.{◌≡◌, ◌==◌, ◌<◌, ◌≤◌, IfSome, count_by, find, length, not, option_map, position};
ghost use Rattle.std.specs.List.{prefix_len};

use asm_lex::{Kind, Token, register_of};
use assemble::AsmCode;

/// A part of a line: its bytes, and the column of the first one, from 1.
#[derive(Clone, Copy)]
pub struct Part<'a> {
    pub text: &'a [u8],
    pub column: usize,
}

/// The place of a line's first byte before its comment that no source may have; None where it has none.
pub(crate) fn bad_byte(line: &[u8]) -> Option<usize>
    ensures value { result ≡ position (λ byte. not (can_stand byte)) (uncommented line.now) }
    ensures in_range { IfSome result (λ place. place < length line.now) }
{
    uncommented(line).iter().position(|byte| !can_stand(*byte))
}

/// A line without its comment.
fn uncommented(line: &[u8]) -> &[u8]
    ensures { result.now ≡ uncommented line.now }
{
    &line[..comment_start(line)]
}

/// How many bytes stand before a line's comment.
fn comment_start(line: &[u8]) -> usize
    ensures in_range { result ≤ length line.now }
    ensures value { result ≡ prefix_len (λ byte. not (byte == 35)) line.now }
{
    line.iter().take_while(|byte| **byte != b'#').count()
}

/// Whether a byte may stand in a source outside comments.
fn can_stand(byte: u8) -> bool
    ensures { result ≡ can_stand byte }
{
    byte.is_ascii_alphanumeric() || is_sign(byte)
}

fn is_sign(byte: u8) -> bool
    ensures { result ≡ is_sign byte }
{
    matches!(
        byte,
        b'_' | b'.' | b' ' | b'\t' | b',' | b'(' | b')' | b':' | b'+' | b'-'
    )
}

/// The token of a line that is refused with this code at which it is at fault; None where none alone is.
pub(crate) fn fault_token<'s, 'a>(code: AsmCode, tokens: &'s [Token<'a>]) -> Option<&'s Token<'a>>
    ensures { option_map (λ token. token.now) result ≡ fault_token code tokens.now }
{
    match code {
        AsmCode::Mnemonic | AsmCode::WrongSection => statement(tokens).first(),
        AsmCode::LabelTwice => tokens.first(),
        AsmCode::Register | AsmCode::UnknownLabel => other_name(operands(tokens)),
        AsmCode::Range => only_number(operands(tokens)),
        _ => None,
    }
}

/// The tokens of a line behind its label.
pub(crate) fn statement<'s, 'a>(tokens: &'s [Token<'a>]) -> &'s [Token<'a>]
    ensures { result.now ≡ statement tokens.now }
{
    match tokens {
        [name, colon, rest @ ..] if is_name(&name.kind) && is_colon(&colon.kind) => rest,
        _ => tokens,
    }
}

/// The tokens behind a line's mnemonic.
fn operands<'s, 'a>(tokens: &'s [Token<'a>]) -> &'s [Token<'a>]
    ensures { result.now ≡ operands tokens.now }
{
    match statement(tokens) {
        [_, rest @ ..] => rest,
        [] => &[],
    }
}

/// The first name that is no register's.
fn other_name<'s, 'a>(tokens: &'s [Token<'a>]) -> Option<&'s Token<'a>>
    ensures { option_map (λ token. token.now) result ≡ other_name tokens.now }
{
    tokens.iter().find(|token| is_other_name(&token.kind))
}

/// The only number; None where there is none, or more than one.
fn only_number<'s, 'a>(tokens: &'s [Token<'a>]) -> Option<&'s Token<'a>>
    ensures { option_map (λ token. token.now) result ≡ only_number tokens.now }
{
    if numbers(tokens) == 1 {
        first_number(tokens)
    } else {
        None
    }
}

fn numbers(tokens: &[Token]) -> usize
    ensures { result ≡ count_by (λ token. is_number (lexeme_of token.kind)) tokens.now }
{
    tokens.iter().filter(|token| is_number(&token.kind)).count()
}

fn first_number<'s, 'a>(tokens: &'s [Token<'a>]) -> Option<&'s Token<'a>>
    ensures { option_map (λ token. token.now) result ≡ find (λ token. is_number (lexeme_of token.kind)) tokens.now }
{
    tokens.iter().find(|token| is_number(&token.kind))
}

fn is_name(kind: &Kind) -> bool
    ensures { result ≡ is_name (lexeme_of kind.now) }
{
    matches!(kind, Kind::Name(_))
}

fn is_colon(kind: &Kind) -> bool
    ensures { result ≡ is_colon (lexeme_of kind.now) }
{
    matches!(kind, Kind::Colon)
}

fn is_number(kind: &Kind) -> bool
    ensures { result ≡ is_number (lexeme_of kind.now) }
{
    matches!(kind, Kind::Number { .. })
}

/// Whether a token is a name that no register has.
fn is_other_name(kind: &Kind) -> bool
    ensures { result ≡ is_other_name (lexeme_of kind.now) }
{
    match kind {
        Kind::Name(text) => register_of(*text).is_none(),
        _ => false,
    }
}
