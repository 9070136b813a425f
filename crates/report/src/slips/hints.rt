//! What is wanted in place of what is at fault, in words.

ghost use Rattle.report.specs.SlipHints.{byte_hint, has_capital, hint_of, letters_hint, mnemonic_in, name_hint, range_hint, shape_hint};
ghost use Rattle.std.specs.Prelude.{◌≡◌, option_map};

use crate::slips::places::statement;
use crate::slips::shapes::{range_text, shape_text};
use crate::slips::unknown::instead_of;
use asm_lex::{Mnemonic, Token, mnemonic_of};
use assemble::AsmCode;

/// What is wanted of a line that is refused with this code, or nothing. `at` is the token at fault.
pub(crate) fn hint_of(code: AsmCode, tokens: &[Token], at: Option<&Token>) -> &'static str
    ensures { result.now ≡ hint_of code tokens.now (option_map (λ token. token.now) at.entry) }
{
    match code {
        AsmCode::Mnemonic => name_hint(at),
        AsmCode::Register => letters_hint(at),
        AsmCode::Operands => shape_hint(tokens),
        AsmCode::Range => range_hint(tokens),
        _ => "",
    }
}

/// What stands for a name that is no mnemonic.
fn name_hint(at: Option<&Token>) -> &'static str
    ensures { result.now ≡ name_hint (option_map (λ token. token.now) at.entry) }
{
    let Some(token) = at else {
        return "";
    };
    let instead = instead_of(token.text);
    if instead.is_empty() {
        letters_hint(at)
    } else {
        instead
    }
}

/// Names are in lower case, of one that has a capital letter.
fn letters_hint(at: Option<&Token>) -> &'static str
    ensures { result.now ≡ letters_hint (option_map (λ token. token.now) at.entry) }
{
    match at {
        Some(token) if has_capital(token.text) => "names are in lower case",
        _ => "",
    }
}

fn has_capital(text: &[u8]) -> bool
    ensures { result ≡ has_capital text.now }
{
    text.iter().any(|byte| byte.is_ascii_uppercase())
}

/// What the mnemonic of a line takes.
fn shape_hint(tokens: &[Token]) -> &'static str
    ensures { result.now ≡ shape_hint (mnemonic_in tokens.now) }
{
    match mnemonic_in(tokens) {
        Some(mnemonic) => shape_text(mnemonic),
        None => "",
    }
}

/// The range of a line's number or distance.
fn range_hint(tokens: &[Token]) -> &'static str
    ensures { result.now ≡ range_hint (mnemonic_in tokens.now) }
{
    match mnemonic_in(tokens) {
        Some(mnemonic) => range_text(mnemonic),
        None => "",
    }
}

/// The mnemonic of a line; None where it has none.
fn mnemonic_in(tokens: &[Token]) -> Option<Mnemonic>
    ensures { result ≡ mnemonic_in tokens.now }
{
    match statement(tokens) {
        [first, ..] => mnemonic_of(first.text),
        [] => None,
    }
}

/// What is said of a byte that no source may have.
pub(crate) fn byte_hint(byte: u8) -> &'static str
    ensures { result.now ≡ byte_hint byte }
{
    match byte {
        b';' | b'/' | b'@' => "comments begin with #",
        b'\'' | b'"' => "write characters as numbers",
        _ => "",
    }
}
