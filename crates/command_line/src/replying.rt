//! The replies of an outside recovery, each a line of standard input.

ghost use Rattle.command_line.specs.Asking.{IsReplied, IsUnreplied, LacksLine, ReadsLine};
ghost use Rattle.command_line.specs.Replies.{IsLineList, IsLineName, IsParted, SaysAnswer, SaysLoads, SaysNone, SaysReply, is_cause_byte, rank_of};
ghost use Rattle.hex.specs.Hex.{decode_of};
ghost use Rattle.routine_judge.specs.OutsideViews.{ReplyView as AReply};
ghost use Rattle.std.specs.List.{AllZip, flat_map, list_all};
ghost use Rattle.std.specs.Prelude.{◌≡◌, ◌≢◌, ◌<◌, ◌≤◌, ◌++◌, ◌∷◌, [], ℕ, List, Ok, All, IfErr, IfNone, IfOk, IfSome, MatchOption, OnErr, OnOk, length};
ghost use Rattle.std.specs.Io.KnownBytes.{Consumes, IsAtEnd};
ghost use Rattle.text.specs.Grammar.{words as listed};
ghost use Rattle.text.specs.Words.{words};
ghost use Rattle.trace_file.specs.Ranks.{AreInOrder};

use crate::failure::{Failure, Refusal};
use crate::image::place_of;
use crate::streams::read_uninterrupted;
use debugger::Failed;
use hex::FromHexError;
use routine_judge::Reply;
use std::alloc::{AllocError, Global};
use std::io::Read;
use std::str;
use text::{Blanks, after_keyword, decimal, first_word, is_blank, only_word};

/// The reply that the next line of standard input is, by the ranks of these lines.
///
/// # Errors
/// Reply where it is none; NoReply where standard input ends before the line does; Memory where a growth is refused; File where a read fails.
pub(crate) fn read_reply<R: Read>(
    alloc: Global,
    names: &[u32],
    input: &mut R,
) -> Result<Reply, Failure>
    requires few { length names.now ≤ 16384 }
    ensures ok { IfOk result (IsReplied names.now (R.remaining input.old) (R.remaining input.new)) }
    ensures there { IfOk result (λ reply. All (λ line. line < length names.now) reply.lines) }
    ensures err { IfErr result (IsUnreplied names.now (R.remaining input.old) (R.remaining input.new)) }
{
    let line = read_line(alloc, input)?;
    match reply_in(alloc, names, &line) {
        Ok(Some(reply)) => Ok(reply),
        Ok(None) => Err(Failure::Refused(Refusal::Reply)),
        Err(_) => Err(Failure::Memory),
    }
}

/// The next line without its LF. Nothing is read behind it.
#[tactic(auto, using(crate::proofs::Asked::line_begun, crate::proofs::Asked::no_ends, crate::proofs::Asked::more_of_line, crate::proofs::Asked::line_more, crate::proofs::Asked::nothing_more, crate::proofs::Asked::part_read))]
fn read_line<R: Read>(alloc: Global, input: &mut R) -> Result<Vec<u8>, Failure>
    ensures ok { IfOk result (λ line. ReadsLine (R.remaining input.old) (R.remaining input.new) line.items) }
    ensures err { IfErr result (LacksLine (R.remaining input.old) (R.remaining input.new)) }
{
    let mut line = Vec::new(alloc);
    for _ in 0..u64::MAX {
        match read_byte(input) {
            Ok(Some(b'\n')) => return Ok(line),
            Ok(Some(byte)) => match add(&mut line, byte) {
                Ok(()) => {}
                Err(_) => return Err(Failure::Memory),
            },
            Ok(None) => return Err(Failure::Refused(Refusal::NoReply)),
            Err(_) => return Err(Failure::File),
        }
    }
    Err(Failure::Memory)
}

/// The next byte; None at the end.
#[tactic(auto, using(crate::proofs::Asked::byte_taken, crate::proofs::Asked::none_taken, crate::proofs::Asked::kept_none))]
fn read_byte<R: Read>(input: &mut R) -> Result<Option<u8>, Failed>
    ensures byte { IfOk result (λ found. MatchOption found (Consumes (R.remaining input.old) (R.remaining input.new) [] × IsAtEnd (R.remaining input.new))
        (λ byte. Consumes (R.remaining input.old) (R.remaining input.new) (byte ∷ []))) }
    ensures err { OnErr result (Consumes (R.remaining input.old) (R.remaining input.new) []) }
{
    let mut byte = [0u8; 1];
    match read_uninterrupted(input, &mut byte) {
        Ok(0) => Ok(None),
        Ok(_) => Ok(Some(byte[0])),
        Err(failed) => Err(failed),
    }
}

fn add(line: &mut Vec<u8>, byte: u8) -> Result<(), AllocError>
    ensures { OnOk result (line.new.items ≡ line.old.items ++ byte ∷ []) }
{
    line.push(byte)?;
    Ok(())
}

/// The reply that a line is: `answer` and the digits of bytes, or `none` and a word, and behind either `loads` and lines.
#[tactic(auto, using(crate::proofs::Replies::no_reply, crate::proofs::Replies::by_answer, crate::proofs::Replies::by_cause))]
pub(crate) fn reply_in(
    alloc: Global,
    names: &[u32],
    line: &[u8],
) -> Result<Option<Reply>, AllocError>
    requires few { length names.now ≤ 16384 }
    ensures says { IfOk result (λ found. MatchOption found ((reply : AReply) → ¬ SaysReply names.now (words line.now) reply)
        (SaysReply names.now (words line.now))) }
    ensures there { IfOk result (λ found. IfSome found (λ reply. All (λ line. line < length names.now) reply.lines)) }
{
    if let Some(rest) = after_keyword(line, b"answer") {
        return answer_in(alloc, names, rest);
    }
    match after_keyword(line, b"none") {
        Some(rest) => cause_in(alloc, names, rest),
        None => Ok(None),
    }
}

/// The reply whose words behind `answer` these are.
#[tactic(auto, using(crate::proofs::Replies::no_digits, crate::proofs::Replies::no_loads))]
fn answer_in(alloc: Global, names: &[u32], rest: &[u8]) -> Result<Option<Reply>, AllocError>
    requires few { length names.now ≤ 16384 }
    ensures says { IfOk result (λ found. MatchOption found ((reply : AReply) → ¬ SaysAnswer names.now (words rest.now) reply)
        (SaysAnswer names.now (words rest.now))) }
    ensures there { IfOk result (λ found. IfSome found (λ reply. All (λ line. line < length names.now) reply.lines)) }
{
    let (digits, behind) = digits_in(rest);
    let Some(bytes) = bytes_in(alloc, digits)? else {
        return Ok(None);
    };
    match loads_in(alloc, names, behind)? {
        Some(loaded) => Ok(Some(Reply::new(Ok(bytes), loaded))),
        None => Ok(None),
    }
}

/// The digits of an answer, and what follows them. They may be left out where it has no bytes.
fn digits_in(rest: &[u8]) -> (&[u8], &[u8])
    ensures { IsParted (words rest.now) result.0.now (words result.1.now) }
{
    match first_word(rest, Blanks::Spaces) {
        Some((word, behind)) if word != b"loads".as_slice() => (word, behind),
        _ => (b"".as_slice(), rest),
    }
}

/// The bytes that pairs of hexadecimal digits write.
#[tactic(auto, using(crate::proofs::Replies::not_decoded))]
fn bytes_in(alloc: Global, digits: &[u8]) -> Result<Option<Vec<u8>>, AllocError>
    ensures { IfOk result (λ found. MatchOption found ((bytes : List ℕ) → decode_of digits.now ≢ Ok bytes)
        (λ bytes. decode_of digits.now ≡ Ok bytes.items)) }
{
    match hex::decode(alloc, digits) {
        Ok(bytes) => Ok(Some(bytes)),
        Err(FromHexError::OutOfMemory) => Err(AllocError),
        Err(_) => Ok(None),
    }
}

/// The reply whose words behind `none` these are.
#[tactic(auto, using(crate::proofs::Replies::no_word, crate::proofs::Replies::no_plain, crate::proofs::Replies::no_loaded))]
fn cause_in(alloc: Global, names: &[u32], rest: &[u8]) -> Result<Option<Reply>, AllocError>
    requires few { length names.now ≤ 16384 }
    ensures says { IfOk result (λ found. MatchOption found ((reply : AReply) → ¬ SaysNone names.now (words rest.now) reply)
        (SaysNone names.now (words rest.now))) }
    ensures there { IfOk result (λ found. IfSome found (λ reply. All (λ line. line < length names.now) reply.lines)) }
{
    let Some((word, behind)) = first_word(rest, Blanks::Spaces) else {
        return Ok(None);
    };
    if !is_cause(word) {
        return Ok(None);
    }
    let cause = Vec::from_slice(alloc, word)?;
    match loads_in(alloc, names, behind)? {
        Some(loaded) => Ok(Some(Reply::new(Err(cause), loaded))),
        None => Ok(None),
    }
}

/// Whether a word is of lower-case letters, digits and hyphens.
fn is_cause(word: &[u8]) -> bool
    ensures { result ≡ list_all is_cause_byte word.now }
{
    word.iter().all(|byte| is_cause_byte(*byte))
}

#[tactic(auto, unfolding(crate::specs::Replies::is_cause_byte))]
fn is_cause_byte(byte: u8) -> bool
    ensures { result ≡ is_cause_byte byte }
{
    matches!(byte, b'a'..=b'z' | b'0'..=b'9' | b'-')
}

/// The lines that the words behind an answer or a cause say, by their ranks.
#[tactic(auto, using(crate::proofs::Replies::no_keyword, crate::proofs::Replies::no_list, crate::proofs::Replies::by_list, crate::proofs::Replies::all_there))]
fn loads_in(alloc: Global, names: &[u32], rest: &[u8]) -> Result<Option<Vec<u32>>, AllocError>
    requires few { length names.now ≤ 16384 }
    ensures says { IfOk result (λ found. MatchOption found ((ranks : List ℕ) → ¬ SaysLoads names.now (words rest.now) ranks)
        (λ ranks. SaysLoads names.now (words rest.now) ranks.items)) }
    ensures there { IfOk result (λ found. IfSome found (λ ranks. All (λ line. line < length names.now) ranks.items)) }
{
    if is_blank(rest) {
        return Ok(Some(all_ranks(alloc, names)?));
    }
    let Some(list) = after_keyword(rest, b"loads") else {
        return Ok(None);
    };
    match only_word(list) {
        Some(word) => list_in(alloc, names, word),
        None => Ok(None),
    }
}

/// The ranks of all lines.
fn all_ranks(alloc: Global, names: &[u32]) -> Result<Vec<u32>, AllocError>
    requires few { length names.now ≤ 16384 }
    ensures { IfOk result (λ ranks. AreInOrder (length names.now) ranks.items) }
{
    (0..names.len() as u32).collect(alloc)
}

/// The ranks of the lines that a word lists, but for those that have none.
#[tactic(auto, using(crate::proofs::Replies::not_utf8, crate::proofs::Replies::not_listed))]
fn list_in(alloc: Global, names: &[u32], word: &[u8]) -> Result<Option<Vec<u32>>, AllocError>
    requires few { length names.now ≤ 16384 }
    ensures says { IfOk result (λ found. MatchOption found ((ranks : List ℕ) → ¬ IsLineList names.now word.now ranks)
        (λ ranks. IsLineList names.now word.now ranks.items)) }
    ensures there { IfOk result (λ found. IfSome found (λ ranks. All (λ line. line < length names.now) ranks.items)) }
{
    let Ok(text) = str::from_utf8(word) else {
        return Ok(None);
    };
    match lines_in(alloc, text)? {
        Some(lines) => Ok(Some(ranks_of(alloc, names, &lines)?)),
        None => Ok(None),
    }
}

/// The lines that a text lists.
fn lines_in(alloc: Global, text: &str) -> Result<Option<Vec<u32>>, AllocError>
    ensures { IfOk result (λ found. MatchOption found ((lines : List ℕ) → ¬ AllZip IsLineName (listed text.now) lines)
        (λ lines. AllZip IsLineName (listed text.now) lines.items)) }
{
    let mut lines = Vec::new(alloc);
    for word in text.split(',') {
        let Some(line) = line_in(word) else {
            return Ok(None);
        };
        lines.push(line)?;
    }
    Ok(Some(lines))
}

/// The line that `lN` names.
fn line_in(word: &str) -> Option<u32>
    ensures some { IfSome result (IsLineName word.now) }
    ensures none { IfNone result ((line : ℕ) → ¬ IsLineName word.now line) }
{
    decimal(word.strip_prefix('l')?.as_bytes())
}

/// The ranks of those of these lines that have one.
#[tactic(auto, using(crate::proofs::Replies::rank_more, crate::proofs::Replies::ranks_all))]
fn ranks_of(alloc: Global, names: &[u32], lines: &[u32]) -> Result<Vec<u32>, AllocError>
    requires few { length names.now ≤ 16384 }
    ensures ranks { IfOk result (λ ranks. ranks.items ≡ flat_map (rank_of names.now) lines.now) }
    ensures there { IfOk result (λ ranks. All (λ line. line < length names.now) ranks.items) }
{
    let mut ranks = Vec::new(alloc);
    for line in lines {
        push_rank(&mut ranks, names, *line)?;
    }
    Ok(ranks)
}

/// Adds the rank of a line, if it has one.
#[tactic(auto, using(crate::proofs::Replies::more_there))]
fn push_rank(ranks: &mut Vec<u32>, names: &[u32], line: u32) -> Result<(), AllocError>
    requires few { length names.now ≤ 16384 }
    ensures rank { OnOk result (ranks.new.items ≡ ranks.old.items ++ rank_of names.now line) }
    ensures there { OnOk result (All (λ rank. rank < length names.now) ranks.old.items → All (λ rank. rank < length names.now) ranks.new.items) }
{
    if let Some(place) = place_of(names, line) {
        ranks.push(place as u32)?;
    }
    Ok(())
}
