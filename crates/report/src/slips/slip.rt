//! A line that is refused: the part of it at fault, and what is wanted.

ghost use Rattle.report.specs.Slips.{IsBadByte, IsByteAt, IsPartOf, IsSlip, IsSlipOf};
ghost use Rattle.std.specs.Prelude.{◌<◌, IfOk, length, option_map};

use crate::slips::hints::{byte_hint, hint_of};
use crate::slips::places::{Part, bad_byte, fault_token};
use asm_lex::{LexFault, Token, tokens};
use assemble::AsmCode;
use std::alloc::{AllocError, Global};

/// What is known of a line that is refused.
#[derive(Clone, Copy)]
pub struct Slip<'a> {
    /// The part at fault; None where no token or byte alone is.
    pub part: Option<Part<'a>>,
    /// What is wanted, in words, or nothing.
    pub hint: &'static str,
}

/// What is known of a source line, without its end, that is refused with this code.
pub fn slip_in<'a>(alloc: Global, line: &'a [u8], code: AsmCode) -> Result<Slip<'a>, AllocError>
    ensures { IfOk result (IsSlip line.now code) }
{
    match tokens(alloc, line, 0) {
        Ok(tokens) => Ok(slip_of(code, &tokens)),
        Err(LexFault::BadToken) => Ok(bad_slip(line)),
        Err(LexFault::Memory) => Err(AllocError),
    }
}

/// What is known of a line of these tokens.
fn slip_of<'a>(code: AsmCode, tokens: &[Token<'a>]) -> Slip<'a>
    ensures { IsSlipOf code tokens.now result }
{
    let at = fault_token(code, tokens);
    Slip {
        part: part_of(at),
        hint: hint_of(code, tokens, at),
    }
}

fn part_of<'a>(at: Option<&Token<'a>>) -> Option<Part<'a>>
    ensures { IsPartOf (option_map (λ token. token.now) at.entry) result }
{
    let token = at?;
    Some(Part {
        text: token.text,
        column: token.start.checked_add(1)?,
    })
}

/// What is known of a line with a byte or a run that is no token.
fn bad_slip<'a>(line: &'a [u8]) -> Slip<'a>
    ensures { IsBadByte line.now result }
{
    match bad_byte(line) {
        Some(place) => Slip {
            part: Some(byte_at(line, place)),
            hint: byte_hint(line[place]),
        },
        None => Slip {
            part: None,
            hint: "",
        },
    }
}

/// The byte at a place of a line.
fn byte_at<'a>(line: &'a [u8], place: usize) -> Part<'a>
    requires { place < length line.now }
    ensures { IsByteAt line.now place result }
{
    Part {
        text: &line[place..place + 1],
        column: place + 1,
    }
}
