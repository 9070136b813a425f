//! Lines of a text, as they are printed of a refusal.

ghost use Rattle.command_line.specs.SourceLines.{front_of_line, is_indent, numbered_line};
ghost use Rattle.std.specs.List.{prefix_len};
ghost use Rattle.std.specs.Prelude.{◌≡◌, ◌≤◌, length, option_map, take};

use asm_lex::next_line;

/// The most bytes that are shown of a line.
const MOST_SHOWN: usize = 80;

/// The line of this number, from 1; None where the text has fewer.
#[tactic(auto, using(crate::proofs::NumberedLines::next_number, crate::proofs::NumberedLines::no_number, crate::proofs::NumberedLines::this_number))]
pub(crate) fn numbered_line(text: &[u8], number: usize) -> Option<&[u8]>
    ensures { option_map (λ line. line.now) result ≡ numbered_line text.now number }
{
    let mut rest = text;
    for _ in 0..number.saturating_sub(1) {
        (_, rest) = next_line(rest)?;
    }
    let (line, _) = next_line(rest)?;
    Some(line)
}

/// A line from its first byte on that is neither a space nor a tab, and no more of it than is shown.
pub(crate) fn front_of_line(line: &[u8]) -> &[u8]
    ensures { result.now ≡ front_of_line line.now }
{
    first_bytes(&line[indent_len(line)..])
}

/// How many spaces and tabs a line begins with.
fn indent_len(line: &[u8]) -> usize
    ensures in_range { result ≤ length line.now }
    ensures value { result ≡ prefix_len is_indent line.now }
{
    line.iter().take_while(|byte| is_indent(**byte)).count()
}

/// As many bytes as are shown, or all where there are fewer.
fn first_bytes(bytes: &[u8]) -> &[u8]
    ensures { result.now ≡ take 80 bytes.now }
{
    at_most(bytes, MOST_SHOWN)
}

/// So many bytes, or all where there are fewer.
fn at_most(bytes: &[u8], most: usize) -> &[u8]
    ensures { result.now ≡ take most bytes.now }
{
    if bytes.len() > most {
        &bytes[..most]
    } else {
        bytes
    }
}

fn is_indent(byte: u8) -> bool
    ensures { result ≡ is_indent byte }
{
    matches!(byte, b' ' | b'\t')
}
