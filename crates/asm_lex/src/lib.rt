//! The tokens of assembler source: a source is cut into lines, and each line into tokens.
//!
//! A token is a longest run of letters, digits, `_` and `.`, or one of `, ( ) : + -`. A run that
//! begins with a digit is a number: decimal without a needless leading zero, or `0x` and
//! hexadecimal digits in either case. Spaces, tabs and comments, from `#` on, stand between tokens.
#![tactic(auto)]

mod asm_names;
mod kinds;
mod lines;
mod scan;

ghost use Rattle.asm_lex.specs.Kinds.{are_tokens, kind_of, lexeme_of};
ghost use Rattle.asm_lex.specs.Pieces.{pieces};
ghost use Rattle.asm_lex.specs.Tokens.{AreTokensOf, IsFaultOf, IsNextKind};
ghost use Rattle.asm_lex.specs.declared.LexFault.TheVariants.{BadToken, Memory};
ghost use Rattle.std.specs.Prelude.{◌≡◌, ◌≤◌, [], Some, false, true, drop, length, map, option_map, IfErr, IfOk, MatchOption, OnOk};

pub use asm_names::{
    ALL_ACCESSES, AtomicForm, ExchangedBranchOp, Mnemonic, NumberWidth, Section, UnaryOp,
    ZeroBranchOp, mnemonic_of, register_of, return_register, set_of, zero_register,
};
use kinds::kind_of;
pub use lines::next_line;
use scan::next_piece;
use std::alloc::{AllocError, AllocFailed, Global};

/// What a token is: a name or a number with its text, or a mark.
#[derive(Clone, Copy, Debug, PartialEq, Eq)]
pub enum Kind<'a> {
    Name(&'a [u8]),
    /// The value is None from 2^64 on.
    Number { value: Option<u64>, text: &'a [u8] },
    Comma,
    Open,
    Close,
    Colon,
    Plus,
    Minus,
}

/// A token: its bytes, which begin at the byte `start` of its line, and that line's number.
#[derive(Clone, Copy, Debug, PartialEq, Eq)]
pub struct Token<'a> {
    pub text: &'a [u8],
    pub kind: Kind<'a>,
    pub line: u32,
    pub start: usize,
}

/// Why a line has no tokens.
#[derive(Clone, Copy, Debug, PartialEq, Eq)]
pub enum LexFault {
    /// A byte or a run outside comments is no token.
    BadToken,
    /// Memory was refused.
    Memory,
}

impl<T: Drop> From<AllocFailed<T>> for LexFault {
    ghost from_gives = { λ _ fault. fault ≡ Memory };

    fn from(_failed: AllocFailed<T>) -> LexFault {
        LexFault::Memory
    }
}

impl From<AllocError> for LexFault {
    ghost from_gives = { λ _ fault. fault ≡ Memory };

    fn from(_refused: AllocError) -> LexFault {
        LexFault::Memory
    }
}

/// Whether each piece of a line is a token.
#[tactic(auto, using(crate::proofs::Judging::judged_start, crate::proofs::Judging::judged_all))]
fn are_tokens(source: &[u8]) -> bool
    ensures { result ≡ are_tokens (pieces source.now) }
{
    let mut at = 0;
    while let Some((start, end)) = next_piece(source, at) {
        if kind_of(&source[start..end]).is_none() {
            return false;
        }
        at = end;
    }
    true
}

/// The tokens of a line. Memory may be told of a line with a bad token, too, which stands behind what was found.
#[tactic(auto, using(crate::proofs::Lexing::lexed_start, crate::proofs::Lexing::lexed_all))]
fn collect<'a>(alloc: Global, source: &'a [u8], line: u32) -> Result<Vec<Token<'a>>, LexFault>
    ensures found { IfOk result (λ found. AreTokensOf source.now line found.items) }
    ensures bad { IfErr result (λ fault. fault ≡ BadToken → are_tokens (pieces source.now) ≡ false) }
{
    let mut found = Vec::new(alloc);
    let mut at = 0;
    while let Some((start, end)) = next_piece(source, at) {
        let text = &source[start..end];
        let Some(kind) = kind_of(text) else {
            return Err(LexFault::BadToken);
        };
        found.push(Token {
            text,
            kind,
            line,
            start,
        })?;
        at = end;
    }
    Ok(found)
}

/// The tokens of one line, whose bytes are `source` without the line's end and whose number is
/// `line`, in the order in which they stand.
///
/// A bad token is answered exactly where some piece of the line is no token; memory is answered
/// only where it was refused, of a line that has tokens.
pub fn tokens<'a>(alloc: Global, source: &'a [u8], line: u32) -> Result<Vec<Token<'a>>, LexFault>
    ensures found { IfOk result (λ found. AreTokensOf source.now line found.items) }
    ensures fault { IfErr result (IsFaultOf source.now) }
{
    let found = collect(alloc, source, line);
    match found {
        // The rest of the line is looked at, so that a bad token is never told as want of memory.
        Err(LexFault::Memory) if !are_tokens(source) => Err(LexFault::BadToken),
        _ => found,
    }
}

/// Most lines have no more tokens, so that their list need not grow.
const USUAL_TOKENS: usize = 16;

/// What the pieces of a line are, each a token. Memory may be told of a line with a bad token, too, which stands behind what was found.
#[tactic(auto, using(crate::proofs::KindLists::kinds_start, crate::proofs::KindLists::kinds_all, crate::proofs::KindLists::all_tokens))]
fn collect_kinds<'a>(alloc: Global, source: &'a [u8]) -> Result<Vec<Kind<'a>>, LexFault>
    ensures found { IfOk result (λ found. map kind_of (pieces source.now) ≡ map (λ kind. Some (lexeme_of kind)) found.items) }
    ensures tokens { OnOk result (are_tokens (pieces source.now) ≡ true) }
    ensures bad { IfErr result (λ fault. fault ≡ BadToken → are_tokens (pieces source.now) ≡ false) }
{
    let mut found = Vec::with_capacity(alloc, USUAL_TOKENS)?;
    let mut at = 0;
    while let Some((start, end)) = next_piece(source, at) {
        let Some(kind) = kind_of(&source[start..end]) else {
            return Err(LexFault::BadToken);
        };
        found.push(kind)?;
        at = end;
    }
    Ok(found)
}

/// What the tokens of one line are, as [`tokens`] gives them, without their places.
pub fn token_kinds<'a>(alloc: Global, source: &'a [u8]) -> Result<Vec<Kind<'a>>, LexFault>
    ensures found { IfOk result (λ found. map kind_of (pieces source.now) ≡ map (λ kind. Some (lexeme_of kind)) found.items) }
    ensures tokens { OnOk result (are_tokens (pieces source.now) ≡ true) }
    ensures fault { IfErr result (IsFaultOf source.now) }
{
    let found = collect_kinds(alloc, source);
    match found {
        // The rest of the line is looked at, so that a bad token is never told as want of memory.
        Err(LexFault::Memory) if !are_tokens(source) => Err(LexFault::BadToken),
        _ => found,
    }
}

/// The next token of a line after a place, and where it ends: None within where the next piece is no token, and None where no
/// piece follows.
#[inline(always)]
#[tactic(auto, using(crate::proofs::Judging::kind_found))]
pub fn next_kind(line: &[u8], from: usize) -> Option<(Option<Kind<'_>>, usize)>
    requires { from ≤ length line.now }
    ensures { MatchOption result (pieces (drop from line.now) ≡ [])
        (λ (kind, end). IsNextKind line.now from (option_map lexeme_of kind) end) }
{
    let (start, end) = next_piece(line, from)?;
    Some((kind_of(&line[start..end]), end))
}
