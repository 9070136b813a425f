//! The statement and the label of a line.

ghost use Rattle.assemble.specs.AsmLineFaults.{both, lower, Fails};
ghost use Rattle.assemble.specs.Grammar.{statement_of};
ghost use Rattle.assemble.specs.Lines.{body_of, label_of, labelled, label_first, lexemes_line};
ghost use Rattle.assemble.specs.Meanings.{line_meaning, meaning_of, IsInRange};
ghost use Rattle.assemble.specs.Steps.{all_seen, Gives, Says};
ghost use Rattle.std.specs.Prelude.{◌≡◌, Ok, IfOk, IfErr, MatchResult, option_map};

use crate::asm_line::directives::{align, numbers, section_of, zeros};
use crate::asm_line::fault::AsmCode;
use crate::asm_line::instructions::{
    atomic, branch, cache, combined, computed, fence, fence_i, jump, jump_register, load,
    load_reserved, shift, store, system, upper,
};
use crate::asm_line::line::{Line, Statement};
use crate::asm_line::operands::is_dot;
use crate::asm_line::pseudo::{
    exchanged_branch, load_address, load_number, nop, on_two, plain_jump, plain_jump_register,
    plain_return, zero_branch,
};
use asm_lex::{Kind, Mnemonic, mnemonic_of, register_of};
use std::alloc::Global;

/// A line of lexemes: `name:`, a statement, or both.
pub(crate) fn line_at<'a>(alloc: Global, lexemes: &[Kind<'a>]) -> Result<Line<'a>, AsmCode>
    ensures ok { IfOk result (λ line. lexemes_line (all_seen lexemes.now) ≡ Ok
        (line_meaning line)) }
    ensures err { IfErr result (λ code. Fails code (lexemes_line (all_seen lexemes.now))) }
    ensures in_range { IfOk result (λ line. IsInRange (meaning_of line.statement)) }
{
    match label_part(lexemes) {
        Some((name, rest)) => labelled_line(alloc, name, rest),
        None => Ok(Line {
            label: None,
            statement: body(alloc, lexemes)?,
        }),
    }
}

/// The name before a colon, and what follows the colon, where a line begins with them.
fn label_part<'s, 'a>(lexemes: &'s [Kind<'a>]) -> Option<(&'a [u8], &'s [Kind<'a>])>
    ensures { label_first (all_seen lexemes.now) ≡ option_map
        (λ (name, rest). (name.now, all_seen rest.now)) result }
{
    match lexemes {
        [Kind::Name(name), Kind::Colon, rest @ ..] => Some((*name, rest)),
        _ => None,
    }
}

/// A line with a label. Its lowest code is that of the label or that of what follows.
fn labelled_line<'a>(alloc: Global, name: &'a [u8], rest: &[Kind<'a>]) -> Result<Line<'a>, AsmCode>
    ensures ok { IfOk result (λ line.
        labelled (both (label_of name.now) (body_of (all_seen rest.now))) ≡ Ok (line_meaning line)) }
    ensures err { IfErr result (λ code.
        Fails code (labelled (both (label_of name.now) (body_of (all_seen rest.now))))) }
    ensures in_range { IfOk result (λ line. IsInRange (meaning_of line.statement)) }
{
    match body(alloc, rest) {
        Ok(statement) => Ok(Line {
            label: Some(label_of(name)?),
            statement,
        }),
        Err(AsmCode::Memory) => Err(AsmCode::Memory),
        Err(code) => Err(lowest(label_of(name), code)),
    }
}

/// The lowest code of a label and of what follows it.
fn lowest(label: Result<&[u8], AsmCode>, code: AsmCode) -> AsmCode
    ensures { MatchResult label.entry (λ _. result ≡ code) (λ first. result ≡ lower first code) }
{
    match label {
        Ok(_) => code,
        Err(first) => first.min(code),
    }
}

/// The label that a line defines: neither `.` nor the name of a register.
fn label_of<'a>(name: &'a [u8]) -> Result<&'a [u8], AsmCode>
    ensures { Gives (λ text. text.now) result (label_of name.now) }
{
    if is_dot(name) {
        return Err(AsmCode::BadToken);
    }
    match register_of(name) {
        Some(_) => Err(AsmCode::Register),
        None => Ok(name),
    }
}

/// The statement of lexemes, which begins with its name.
fn body<'a>(alloc: Global, lexemes: &[Kind<'a>]) -> Result<Statement<'a>, AsmCode>
    ensures ok { IfOk result (λ s. body_of (all_seen lexemes.now) ≡ Ok (meaning_of s)) }
    ensures err { IfErr result (λ code. Fails code (body_of (all_seen lexemes.now))) }
    ensures in_range { IfOk result (λ s. IsInRange (meaning_of s)) }
{
    match lexemes {
        [] => Ok(Statement::Nothing),
        [Kind::Name(name), operands @ ..] => {
            let mnemonic = mnemonic_of(name).ok_or(AsmCode::Mnemonic)?;
            statement(alloc, mnemonic, operands)
        }
        _ => Err(AsmCode::Operands),
    }
}

/// The statement of a mnemonic, pseudo-instruction or directive with these operands.
fn statement<'a>(
    alloc: Global,
    mnemonic: Mnemonic,
    operands: &[Kind<'a>],
) -> Result<Statement<'a>, AsmCode>
    ensures { Says result (statement_of mnemonic (all_seen operands.now)) }
{
    match mnemonic {
        Mnemonic::Upper(op) => upper(op, operands),
        Mnemonic::Jump => jump(operands),
        Mnemonic::JumpRegister => jump_register(operands),
        Mnemonic::Branch(op) => branch(op, operands),
        Mnemonic::Load(op) => load(op, operands),
        Mnemonic::Store(op) => store(op, operands),
        Mnemonic::Immediate(op) => computed(op, operands),
        Mnemonic::Shift(op) => shift(op, operands),
        Mnemonic::Register(op) => combined(op, operands),
        Mnemonic::Fence => fence(operands),
        Mnemonic::FenceI => fence_i(operands),
        Mnemonic::Cache(op) => cache(op, operands),
        Mnemonic::LoadReserved(form) => load_reserved(form, operands),
        Mnemonic::Atomic(op, form) => atomic(op, form, operands),
        Mnemonic::System(op) => system(op, operands),
        Mnemonic::Nop => nop(operands),
        Mnemonic::Return => plain_return(operands),
        Mnemonic::Unary(op) => on_two(op, operands),
        Mnemonic::ZeroBranch(op) => zero_branch(op, operands),
        Mnemonic::ExchangedBranch(op) => exchanged_branch(op, operands),
        Mnemonic::PlainJump => plain_jump(operands),
        Mnemonic::PlainJumpRegister => plain_jump_register(operands),
        Mnemonic::LoadNumber => load_number(operands),
        Mnemonic::LoadAddress => load_address(operands),
        Mnemonic::Section(section) => section_of(section, operands),
        Mnemonic::Numbers(width) => numbers(alloc, width, operands),
        Mnemonic::Zeros => zeros(operands),
        Mnemonic::Align => align(operands),
    }
}
