//! The numbers and the names that words are.

ghost use Rattle.std.specs.Prelude.{◌≡◌, ◌∷◌, List, ℕ, IfNone, IfSome};
ghost use Rattle.std.specs.List.{list_all};
ghost use Rattle.plan.specs.Grammar.{IsNumber, IsWide, SaysCount, SaysLayout};
ghost use Rattle.text.specs.Words.{words};
ghost use Rattle.plan.specs.Plans.{is_name_byte};
ghost use Rattle.plan.specs.Worded.{BeginsInode, BeginsWide, HoldsName};
ghost use Rattle.nova_log.specs.declared.layout.Layout.{Layout as ALayout};

use nova_log::{Layout, Name};
use text::{
    Blanks, after_keyword, decimal, decimal_within, first_word, number_in, only_word, wide_decimal,
};

/// The most bytes of a name under any layout.
const LONGEST_NAME: usize = 96;

/// The number of 64 bits that a line's first word is, and what follows it.
#[tactic(auto, using(crate::proofs::Beginnings::wide_begins, crate::proofs::Beginnings::no_wide, crate::proofs::Beginnings::no_word))]
pub(crate) fn after_number(line: &[u8]) -> Option<(u64, &[u8])>
    ensures some { IfSome result (λ found. BeginsWide (words line.now) found.0 (words found.1.now)) }
    ensures none { IfNone result ((number : ℕ) (rest : List (List ℕ)) → ¬ (BeginsWide (words line.now) number rest)) }
{
    let (word, rest) = first_word(line, Blanks::Spaces)?;
    Some((wide_decimal(word)?, rest))
}

/// The number that a line's first word is, and what follows it. None in place of a number past 32 bits.
#[tactic(auto, using(crate::proofs::Beginnings::inode_begins, crate::proofs::Beginnings::no_inode, crate::proofs::Beginnings::no_inode_word))]
pub(crate) fn after_inode(line: &[u8]) -> Option<(Option<u32>, &[u8])>
    ensures some { IfSome result (λ found. BeginsInode (words line.now) found.0 (words found.1.now)) }
    ensures none { IfNone result ((digits : List ℕ) (inode : ℕ) (rest : List (List ℕ)) → words line.now ≡ digits ∷ rest
        → ¬ (IsNumber digits inode)) }
{
    let (word, rest) = first_word(line, Blanks::Spaces)?;
    number_in(word, 10)?;
    Some((decimal(word), rest))
}

/// The number in a line that has a keyword and a number from `low` to `high`, and nothing else.
#[tactic(auto, using(crate::proofs::Beginnings::count_said, crate::proofs::Beginnings::no_count, crate::proofs::Beginnings::no_keyword, crate::proofs::Beginnings::no_only_word))]
pub(crate) fn count_line(line: &[u8], keyword: &[u8], low: u32, high: u32) -> Option<u32>
    ensures some { IfSome result (SaysCount keyword.now low high (words line.now)) }
    ensures none { IfNone result ((count : ℕ) → ¬ (SaysCount keyword.now low high (words line.now) count)) }
{
    let rest = after_keyword(line, keyword)?;
    decimal_within(only_word(rest)?, low, high)
}

/// The layout that a line gives.
#[tactic(auto, using(crate::proofs::Beginnings::layout_one, crate::proofs::Beginnings::layout_two, crate::proofs::Beginnings::no_layout))]
pub(crate) fn layout_line(line: &[u8]) -> Option<Layout>
    ensures some { IfSome result (SaysLayout (words line.now)) }
    ensures none { IfNone result ((layout : ALayout) → ¬ (SaysLayout (words line.now) layout)) }
{
    match count_line(line, b"layout", 1, 2)? {
        1 => Some(Layout::One),
        _ => Some(Layout::Two),
    }
}

/// Whether a byte may stand in a name.
fn is_name_byte(byte: u8) -> bool
    ensures { result ≡ is_name_byte byte }
{
    matches!(byte, b'a'..=b'z' | b'A'..=b'Z' | b'0'..=b'9' | b'.' | b'_' | b'-')
}

fn has_name_bytes(word: &[u8]) -> bool
    ensures { result ≡ list_all is_name_byte word.now }
{
    word.iter().all(|byte| is_name_byte(*byte))
}

/// The name that a word is under some layout.
pub(crate) fn name(word: &[u8]) -> Option<Name>
    ensures { HoldsName result word.now }
{
    if (1..=LONGEST_NAME).contains(&word.len()) && has_name_bytes(word) {
        Some(Name::from_bytes(word))
    } else {
        None
    }
}
