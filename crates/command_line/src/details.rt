//! What a refused file has at its fault: a token, a line, an item or its size, and what is wanted in place of it.

ghost use Rattle.command_line.specs.Details.{HasParts, IsDetail, IsFarDetail, IsItemDetail, IsMeant, IsNearText, IsSlipOf, IsSourceDetail, far_text, is_unnamed, item_text, limit_text, line_text, mark_hint, near_text, part_text, plan_hint, size_text};
ghost use Rattle.command_line.specs.Items.{word_hint};
ghost use Rattle.report.specs.PrintedWords.{printed_words};
ghost use Rattle.command_line.specs.SourceLines.{numbered_line};
ghost use Rattle.std.specs.Prelude.{◌≡◌, [], None, IfOk, codes, option_map, string_bytes};

use crate::failure::{Limit, Refusal};
use crate::items::{BadItem, FarItem, bad_item, item_beyond, word_hint};
use crate::source_lines::{front_of_line, numbered_line};
use assemble::{AsmCode, AsmFault};
use machine::MAX_HARTS;
use report::{Form, Part, PrintedWords, Slip, nearest_mnemonic, slip_in};
use routine_judge::MarkFault;
use std::alloc::{AllocError, Global};

/// What a refused file has at its fault.
#[derive(Drop)]
pub(crate) struct Detail {
    /// The column of a token at fault, from 1.
    pub(crate) column: Option<usize>,
    /// What stands there, or nothing.
    pub(crate) text: String,
    /// What is wanted, in words, or nothing.
    pub(crate) hint: &'static str,
}

/// What the refused file, of these bytes, has at its fault.
pub(crate) fn detail_of(alloc: Global, refusal: &Refusal, file: &[u8]) -> Result<Detail, AllocError>
    ensures { IfOk result (IsDetail refusal.now file.now) }
{
    match refusal {
        Refusal::Assembly(fault) | Refusal::RecoverySource(fault) => source_detail(
            alloc, fault, file,
        ),
        Refusal::Plan(fault) => plan_detail(alloc, file, fault.line),
        Refusal::Trace(fault) => line_detail(alloc, numbered_line(file, fault.line), ""),
        Refusal::ScheduleText => schedule_detail(alloc, file),
        Refusal::Beyond(limit) => far_detail(alloc, file, *limit),
        Refusal::Medium => size_detail(alloc, file.len()),
        Refusal::Marks(fault) => Ok(hint_detail(alloc, mark_hint(*fault))),
        _ => Ok(hint_detail(alloc, "")),
    }
}

/// Nothing stands at the fault.
fn hint_detail(alloc: Global, hint: &'static str) -> Detail
    ensures { HasParts None [] hint.now result }
{
    Detail {
        column: None,
        text: String::new(alloc),
        hint,
    }
}

/// The token of a source's line at fault, or the line.
fn source_detail(alloc: Global, fault: &AsmFault, file: &[u8]) -> Result<Detail, AllocError>
    ensures { IfOk result (IsSourceDetail fault.now.code (numbered_line file.now fault.now.line)) }
{
    match numbered_line(file, fault.line as usize) {
        Some(line) => {
            let slip = slip_in(alloc, line, fault.code)?;
            slip_detail(alloc, fault.code, line, slip)
        }
        None => Ok(hint_detail(alloc, "")),
    }
}

/// What is known of a line's slip, and of a name that is no mnemonic the nearest one.
fn slip_detail(
    alloc: Global,
    code: AsmCode,
    line: &[u8],
    slip: Slip<'_>,
) -> Result<Detail, AllocError>
    ensures { IfOk result (IsSlipOf code line.now slip.entry) }
{
    let part = shown_part(alloc, line, slip.part)?;
    let meant = meant_text(alloc, is_unnamed(code, slip.hint), slip.part)?;
    Ok(Detail {
        column: column_of(slip.part),
        text: format!(in alloc; "{part}{meant}")?,
        hint: slip.hint,
    })
}

/// Whether a line is refused for a name of which nothing is known.
fn is_unnamed(code: AsmCode, hint: &str) -> bool
    ensures { result ≡ is_unnamed code hint.now }
{
    match code {
        AsmCode::Mnemonic => hint.is_empty(),
        _ => false,
    }
}

/// ` (did you mean NAME?)`, where it is asked for and there is such a name.
fn meant_text(alloc: Global, asked: bool, part: Option<Part<'_>>) -> Result<String, AllocError>
    ensures { IfOk result (λ text. IsMeant asked part.entry (string_bytes text)) }
{
    match part {
        Some(part) if asked => near_text(alloc, part.text),
        _ => Ok(String::new(alloc)),
    }
}

fn near_text(alloc: Global, name: &[u8]) -> Result<String, AllocError>
    ensures { IfOk result (λ text. IsNearText name.now (string_bytes text)) }
{
    match nearest_mnemonic(alloc, name)? {
        Some(near) => told_near(alloc, &near),
        None => Ok(String::new(alloc)),
    }
}

fn told_near(alloc: Global, near: &[u8]) -> Result<String, AllocError>
    ensures { IfOk result (λ text. string_bytes text ≡ near_text near.now) }
{
    let near = PrintedWords {
        words: near,
        form: Form::Text,
    };
    format!(in alloc; " (did you mean {near}?)")
}

/// The part at fault, or the front of the line.
fn shown_part(alloc: Global, line: &[u8], part: Option<Part<'_>>) -> Result<String, AllocError>
    ensures { IfOk result (λ text. string_bytes text ≡ part_text line.now part.entry) }
{
    match part {
        Some(part) => shown_text(alloc, part.text),
        None => shown_text(alloc, front_of_line(line)),
    }
}

fn column_of(part: Option<Part<'_>>) -> Option<usize>
    ensures { result ≡ option_map (λ part. part.column) part.entry }
{
    match part {
        Some(part) => Some(part.column),
        None => None,
    }
}

/// The line of a plan at fault.
fn plan_detail(alloc: Global, file: &[u8], number: usize) -> Result<Detail, AllocError>
    ensures { IfOk result (HasParts None (line_text (numbered_line file.now number)) (plan_hint file.now)) }
{
    line_detail(alloc, numbered_line(file, number), plan_hint(file))
}

/// What a plan may not have that other texts may: CR and tabs.
fn plan_hint(file: &[u8]) -> &'static str
    ensures { result.now ≡ plan_hint file.now }
{
    if file.contains(&b'\r') {
        "lines end with LF, without CR"
    } else if file.contains(&b'\t') {
        "words are parted by spaces, not tabs"
    } else {
        ""
    }
}

/// A line at fault, and what is wanted.
fn line_detail(alloc: Global, line: Option<&[u8]>, hint: &'static str) -> Result<Detail, AllocError>
    ensures { IfOk result (HasParts None (line_text (option_map (λ line. line.now) line.entry)) hint.now) }
{
    Ok(Detail {
        column: None,
        text: shown_line(alloc, line)?,
        hint,
    })
}

fn shown_line(alloc: Global, line: Option<&[u8]>) -> Result<String, AllocError>
    ensures { IfOk result (λ text. string_bytes text ≡ line_text (option_map (λ line. line.now) line.entry)) }
{
    match line {
        Some(line) => shown_text(alloc, front_of_line(line)),
        None => Ok(String::new(alloc)),
    }
}

/// The first item of a schedule's text that is none; or there is none, as its steps are too many.
fn schedule_detail(alloc: Global, file: &[u8]) -> Result<Detail, AllocError>
    ensures { IfOk result (IsItemDetail file.now) }
{
    match bad_item(alloc, file)? {
        Some(item) => item_detail(alloc, item),
        None => Ok(hint_detail(
            alloc,
            "the steps of all harts together are below 4294967296",
        )),
    }
}

fn item_detail(alloc: Global, item: BadItem<'_>) -> Result<Detail, AllocError>
    ensures { IfOk result (HasParts None (item_text item.entry.number item.entry.word.now) (word_hint item.entry.word.now)) }
{
    Ok(Detail {
        column: None,
        text: shown_item(alloc, item.number, item.word)?,
        hint: word_hint(item.word),
    })
}

/// `item N, WORD`.
fn shown_item(alloc: Global, number: usize, word: &[u8]) -> Result<String, AllocError>
    ensures { IfOk result (λ text. string_bytes text ≡ item_text number word.now) }
{
    let word = PrintedWords {
        words: front_of_line(word),
        form: Form::Text,
    };
    format!(in alloc; "item {number}, {word}")
}

/// The first item of a schedule's text that goes past a limit.
fn far_detail(alloc: Global, file: &[u8], limit: Limit) -> Result<Detail, AllocError>
    ensures { IfOk result (IsFarDetail limit file.now) }
{
    match item_beyond(alloc, file, limit)? {
        Some(item) => told_item(alloc, item, limit),
        None => Ok(hint_detail(alloc, "")),
    }
}

fn told_item(alloc: Global, item: FarItem<'_>, limit: Limit) -> Result<Detail, AllocError>
    ensures { IfOk result (HasParts None (far_text limit item.entry.number item.entry.word.now item.entry.named) []) }
{
    let shown = shown_item(alloc, item.number, item.word)?;
    let limit = limit_text(alloc, limit, item.named)?;
    Ok(Detail {
        column: None,
        text: format!(in alloc; "{shown}{limit}")?,
        hint: "",
    })
}

/// What the limit is, and of a hart that a run may have the option that gives it.
fn limit_text(alloc: Global, limit: Limit, named: u32) -> Result<String, AllocError>
    ensures { IfOk result (λ text. string_bytes text ≡ limit_text limit named) }
{
    match limit {
        Limit::Lines(lines) => format!(in alloc; " (the medium has {lines} cache lines)"),
        Limit::Harts(harts) if named < MAX_HARTS => {
            let wanted = named + 1;
            format!(in alloc; " (--harts is {harts}; h{named} takes --harts {wanted})")
        }
        Limit::Harts(harts) => format!(in alloc; " (--harts is {harts}, and at most 8)"),
    }
}

/// What is said of marks.
fn mark_hint(fault: MarkFault) -> &'static str
    ensures { result.now ≡ mark_hint fault }
{
    match fault {
        MarkFault::NoOperation => "is this the recovery routine?",
        _ => "",
    }
}

/// How many bytes a medium's file has.
fn size_detail(alloc: Global, bytes: usize) -> Result<Detail, AllocError>
    ensures { IfOk result (HasParts None (size_text bytes) (codes "64 times 512 to 16384")) }
{
    Ok(Detail {
        column: None,
        text: format!(in alloc; "{bytes} bytes")?,
        hint: "64 times 512 to 16384",
    })
}

fn shown_text(alloc: Global, bytes: &[u8]) -> Result<String, AllocError>
    ensures { IfOk result (λ text. string_bytes text ≡ printed_words bytes.now) }
{
    let shown = PrintedWords {
        words: bytes,
        form: Form::Text,
    };
    format!(in alloc; "{shown}")
}
