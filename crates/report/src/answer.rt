//! What is printed of the answer of a recovery routine.

ghost use Rattle.report.specs.Answers.{answer_line, answer_object, answer_text, answers_line, answers_object, bytes_members, cause_member, digits_text, right_line, right_object};
ghost use Rattle.report.specs.Rows.{two_digits};
ghost use Rattle.std.specs.Prelude.{◌≡◌, ◌++◌, IfOk, OnOk, string_bytes, take};

use std::alloc::{AllocError, Global};
use std::fmt::Write;

/// How many bytes of an answer are printed.
const SHOWN_BYTES: usize = 64;

/// The line of an answer: `answer 8 bytes 0500000000000000`.
pub fn answer_line(alloc: Global, answer: &[u8]) -> Result<String, AllocError>
    ensures { IfOk result (λ text. string_bytes text ≡ answer_line answer.now) }
{
    let shown = answer_text(alloc, answer)?;
    format!(in alloc; "answer {shown}\n")
}

/// The line of a right answer, with the moment whose full image gives it: `right 8 bytes 0500000000000000 moment=6`.
pub fn right_line(alloc: Global, answer: &[u8], moment: u32) -> Result<String, AllocError>
    ensures { IfOk result (λ text. string_bytes text ≡ right_line answer.now moment) }
{
    let shown = answer_text(alloc, answer)?;
    format!(in alloc; "right {shown} moment={moment}\n")
}

/// An answer as an object of JSON (RFC 8259) on a line of its own: `{"kind":"answer","bytes":8,"hex":"0500000000000000"}`.
pub fn answer_object(alloc: Global, answer: &[u8]) -> Result<String, AllocError>
    ensures { IfOk result (λ text. string_bytes text ≡ answer_object answer.now) }
{
    let members = bytes_members(alloc, answer)?;
    format!(in alloc; "{{\"kind\":\"answer\",{members}}}\n")
}

/// A right answer so: `{"kind":"right","bytes":8,"hex":"0500000000000000","moment":6}`.
pub fn right_object(alloc: Global, answer: &[u8], moment: u32) -> Result<String, AllocError>
    ensures { IfOk result (λ text. string_bytes text ≡ right_object answer.now moment) }
{
    let members = bytes_members(alloc, answer)?;
    format!(in alloc; "{{\"kind\":\"right\",{members},\"moment\":{moment}}}\n")
}

/// The line of how many different answers the full images of a run give, and of what that at its end gives, the text of an answer or the
/// word for why it has none: `answers 6, at the end 8 bytes 0500000000000000`.
pub fn answers_line(alloc: Global, different: usize, last: &str) -> Result<String, AllocError>
    ensures { IfOk result (λ text. string_bytes text ≡ answers_line different last.now) }
{
    format!(in alloc; "answers {different}, at the end {last}\n")
}

/// The same as an object, by the members of what is at its end: `{"kind":"answers","different":6,"bytes":8,"hex":"0500000000000000"}`.
pub fn answers_object(alloc: Global, different: usize, last: &str) -> Result<String, AllocError>
    ensures { IfOk result (λ text. string_bytes text ≡ answers_object different last.now) }
{
    format!(in alloc; "{{\"kind\":\"answers\",\"different\":{different},{last}}}\n")
}

/// The word for why there is no answer, as a member of an object: `"cause":"exit-1"`.
pub fn cause_member(alloc: Global, cause: &str) -> Result<String, AllocError>
    ensures { IfOk result (λ text. string_bytes text ≡ cause_member cause.now) }
{
    format!(in alloc; "\"cause\":\"{cause}\"")
}

/// How many bytes an answer has, and the first 64 of them, as members of an object.
pub fn bytes_members(alloc: Global, answer: &[u8]) -> Result<String, AllocError>
    ensures { IfOk result (λ text. string_bytes text ≡ bytes_members answer.now) }
{
    let digits = digits_text(alloc, shown(answer))?;
    let count = answer.len();
    format!(in alloc; "\"bytes\":{count},\"hex\":\"{digits}\"")
}

/// How many bytes an answer has, and the first 64 of them in hexadecimal: `8 bytes 0500000000000000`.
pub fn answer_text(alloc: Global, answer: &[u8]) -> Result<String, AllocError>
    ensures { IfOk result (λ text. string_bytes text ≡ answer_text answer.now) }
{
    let digits = digits_text(alloc, shown(answer))?;
    let count = answer.len();
    if digits.is_empty() {
        format!(in alloc; "{count} bytes")
    } else {
        format!(in alloc; "{count} bytes {digits}")
    }
}

/// Of so many bytes the first ones that are printed.
fn shown(answer: &[u8]) -> &[u8]
    ensures { result.now ≡ take 64 answer.now }
{
    if answer.len() > SHOWN_BYTES {
        &answer[..SHOWN_BYTES]
    } else {
        answer
    }
}

#[tactic(auto, using(crate::proofs::MediumLines::lines_more, crate::proofs::MediumLines::lines_all))]
fn digits_text(alloc: Global, bytes: &[u8]) -> Result<String, AllocError>
    ensures { IfOk result (λ text. string_bytes text ≡ digits_text bytes.now) }
{
    let mut text = String::new(alloc);
    for byte in bytes {
        tell_digits(&mut text, *byte)?;
    }
    Ok(text)
}

#[tactic(auto, using(std::proofs::lemmas::Fmt::hex_byte))]
fn tell_digits(text: &mut String, byte: u8) -> Result<(), AllocError>
    ensures { OnOk result (string_bytes text.new ≡ string_bytes text.old ++ two_digits byte) }
{
    write!(text, "{byte:02x}")
}
