//! The texts of a line table.
//!
//! The path of a file is lent as the bytes that begin with it, and its end is looked for where it is asked. So many files whose
//! paths stand in one long text cost no more than in short ones.

ghost use Rattle.elf_file.specs.Sections.{text_at};
ghost use Rattle.elf_file.specs.Texts.{base_name, first_text, next_text, text_from};
ghost use Rattle.std.specs.Prelude.{◌≡◌, ◌<◌, IfSome, length, option_map};

use crate::section_header::first_zero;

/// The bytes up to the first zero, and those behind it.
pub(crate) fn next_text(bytes: &[u8]) -> Option<(&[u8], &[u8])>
    ensures found { option_map (λ found. (found.0.now, found.1.now)) result ≡ next_text bytes.now }
    ensures shorter { IfSome result (λ found. length found.1.now < length bytes.now) }
{
    let end = first_zero(bytes)?;
    Some((&bytes[..end], &bytes[end + 1..]))
}

/// The bytes up to the first zero, or all where there is none.
#[tactic(auto, using(crate::proofs::LineTexts::first_text_ends, crate::proofs::LineTexts::first_text_is_all))]
pub(crate) fn first_text(bytes: &[u8]) -> &[u8]
    ensures { result.now ≡ first_text bytes.now }
{
    match first_zero(bytes) {
        Some(end) => &bytes[..end],
        None => bytes,
    }
}

/// The bytes of a string table up to its last zero: the texts are the same.
pub(crate) fn through_last_zero(strings: &[u8]) -> &[u8]
    ensures { text_from result.now ≡ text_at strings.now }
{
    let mut end = 0;
    for (index, byte) in strings.iter().enumerate() {
        if *byte == 0 {
            end = index + 1;
        }
    }
    &strings[..end]
}

/// What stands behind the last slash of a path.
pub(crate) fn base_name(path: &[u8]) -> &[u8]
    ensures { result.now ≡ base_name path.now }
{
    let mut start = 0;
    for (index, byte) in path.iter().enumerate() {
        if *byte == b'/' {
            start = index + 1;
        }
    }
    &path[start..]
}
