//! The addresses that words stand for by the labels of a source, or the names of an executable.

ghost use Rattle.elf_file.specs.Lines.{IsFirstPc};
ghost use Rattle.report.specs.Addresses.{HasNoAddress, IsBehind, IsLabelled, IsLineNumber, IsOfFunction, SaysNoOffset, SaysOffset, StandsFor, StandsIn, are_of_executable, have_name, parted};
ghost use Rattle.std.specs.Prelude.{◌≡◌, ◌^◌, ◌<◌, ℕ, MatchOption, option_map};
ghost use Rattle.text.specs.Numbers.{IsOf};

use crate::place::Places;
use assemble::Labels;
use elf_file::{Functions, LineTable};
use text::{Number, decimal, number_in};

impl Places<'_> {
    /// Whether a word is taken for the name of an address: of a source a label, and of an executable any word.
    pub fn have_name(&self, word: &[u8]) -> bool
        ensures { result ≡ have_name self.now word.now }
    {
        match self {
            Places::Source { labels, .. } => labels.place(word).is_some(),
            Places::Executable { .. } => true,
            Places::Traced(_) | Places::Unknown => false,
        }
    }

    /// Whether they have the names of an executable's functions, and its files' lines.
    pub fn are_of_executable(&self) -> bool
        ensures { result ≡ are_of_executable self.now }
    {
        matches!(self, Places::Executable { .. })
    }

    /// The address that a word stands for, where there is one of 64 bits. A label of a source stands for its place.
    ///
    /// In an executable `FILE:LINE` stands for the least address of text that comes from that line of a file of that name, `NAME` for the
    /// first byte of the first function of that name in the table, and `NAME+0xOFF` for the byte so many behind it. A word
    /// with a colon is a line, parted by its last colon.
    pub fn address_of(&self, word: &[u8]) -> Option<u64>
        ensures { MatchOption result (HasNoAddress (StandsIn self.now word.now)) (StandsIn self.now word.now) }
    {
        match self {
            Places::Source { labels, .. } => labelled_address(labels, word),
            Places::Executable { lines, functions } => named_address(lines, functions, word),
            Places::Traced(_) | Places::Unknown => None,
        }
    }
}

/// The place of a label.
#[tactic(auto, using(crate::proofs::Addresses::unplaced))]
fn labelled_address(labels: &Labels<'_>, word: &[u8]) -> Option<u64>
    ensures { MatchOption result (HasNoAddress (IsLabelled labels.now word.now)) (IsLabelled labels.now word.now) }
{
    match labels.place(word) {
        Some(place) => Some(u64::from(place)),
        None => None,
    }
}

#[tactic(auto, using(crate::proofs::Addresses::by_line, crate::proofs::Addresses::by_function))]
fn named_address(lines: &LineTable<'_>, functions: &Functions, word: &[u8]) -> Option<u64>
    ensures { MatchOption result (HasNoAddress (StandsFor lines.now.rows functions.now word.now))
        (StandsFor lines.now.rows functions.now word.now) }
{
    match parted(word, b':') {
        Some((file, digits)) => line_address(lines, file, digits),
        None => function_address(functions, word),
    }
}

/// The least address of text that comes from the line of this number of a file.
#[tactic(auto, using(crate::proofs::Addresses::no_number, crate::proofs::Addresses::at_number))]
fn line_address(lines: &LineTable<'_>, file: &[u8], digits: &[u8]) -> Option<u64>
    ensures { MatchOption result ((line address : ℕ) → IsLineNumber digits.now line → ¬ (IsFirstPc lines.now.rows file.now line address))
        (λ address. (line : ℕ) × IsLineNumber digits.now line × IsFirstPc lines.now.rows file.now line address) }
{
    let line = decimal(digits)?;
    lines.address_of(file, line)
}

/// The address of a function, or one behind it.
#[tactic(auto, using(crate::proofs::Addresses::by_offset, crate::proofs::Addresses::by_name))]
fn function_address(functions: &Functions, word: &[u8]) -> Option<u64>
    ensures { MatchOption result (HasNoAddress (IsOfFunction functions.now word.now)) (IsOfFunction functions.now word.now) }
{
    match offset_of(word) {
        Some((name, offset)) => address_behind(functions, name, offset),
        None => functions.address_of(word),
    }
}

/// The address so many bytes behind the first one of a function.
#[tactic(auto, using(crate::proofs::Addresses::far_behind, crate::proofs::Addresses::behind_none, crate::proofs::Addresses::behind_start, crate::proofs::Addresses::behind_past))]
fn address_behind(functions: &Functions, name: &[u8], offset: Number) -> Option<u64>
    ensures { (value : ℕ) → IsOf value offset → MatchOption result (HasNoAddress (IsBehind functions.now name.now value))
        (IsBehind functions.now name.now value) }
{
    let Number::Small(offset) = offset else {
        return None;
    };
    functions.address_of(name)?.checked_add(offset)
}

/// The name and the offset that a word says.
#[tactic(auto, using(crate::proofs::Addresses::no_plus, crate::proofs::Addresses::no_digits, crate::proofs::Addresses::no_numeral, crate::proofs::Addresses::offset_said))]
fn offset_of(word: &[u8]) -> Option<(&[u8], Number)>
    ensures { MatchOption result (SaysNoOffset word.now) (λ said. (offset : ℕ) × SaysOffset word.now said.0.now offset × IsOf offset said.1) }
{
    let (name, behind) = parted(word, b'+')?;
    match behind {
        [b'0', b'x', digits @ ..] => match number_in(digits, 16) {
            Some(offset) => Some((name, offset)),
            None => None,
        },
        _ => None,
    }
}

/// What stands before the last such byte of a word, and behind it.
fn parted(word: &[u8], separator: u8) -> Option<(&[u8], &[u8])>
    ensures { option_map (λ parts. (parts.0.now, parts.1.now)) result ≡ parted separator word.now }
{
    match word.iter().rposition(|&byte| byte == separator) {
        Some(index) => Some((&word[..index], &word[index + 1..])),
        None => None,
    }
}
