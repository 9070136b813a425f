//! What `listing` prints.

ghost use Rattle.asm_lex.specs.Lines.{lines_of};
ghost use Rattle.line_memory.specs.declared.TheConstants.{TEXT_SIZE};
ghost use Rattle.report.specs.Listing.{IsListing, listing_line, listing_of};
ghost use Rattle.report.specs.Places.{origin_in};
ghost use Rattle.std.specs.Prelude.{◌≡◌, ◌++◌, ◌+◌, ◌<◌, ◌≤◌, ◌^◌, IfOk, OnOk, length, map};

use crate::Places;
use crate::disassembly::begun::{begun_at, entered_at, lines_of, tell_begun, tell_entered};
use crate::disassembly::words::{TextWord, WORD_SIZE, tell_word, words_of};
use line_memory::TEXT_BASE;
use std::alloc::{AllocError, Global};

/// A line for each word of a program's text: its address, the word in eight digits, and its instruction, or `.word 0x0` where it spells
/// none. By the line numbers of its source a tab, the number of a line and the line follow at the first word that the line gives; of an
/// executable a tab and the place, as `at=append.c:31 in=main+0x1c`, at each word whose line or function isn't that of the one before:
///
/// ```text
/// 0x10000 000122b7 lui x5, 18\t2 li t0, 0x12345
/// 0x10004 3452829b addiw x5, x5, 837
/// ```
///
/// Where the places are unknown nothing of the source is told.
pub fn listing_text(
    alloc: Global,
    text: &[u8],
    source: &[u8],
    places: &Places<'_>,
) -> Result<Vec<u8>, AllocError>
    requires { length text.now ≤ TEXT_SIZE }
    ensures { IfOk result (λ listing. IsListing text.now (lines_of source.now) (origin_in places.now) listing.items) }
{
    let words = words_of(alloc, text)?;
    let lines = lines_of(alloc, source)?;
    list_words(alloc, &words, &lines, places)
}

#[tactic(auto, using(crate::proofs::DisassemblyListing::lines_all))]
fn list_words(
    alloc: Global,
    words: &[TextWord],
    lines: &[&[u8]],
    places: &Places<'_>,
) -> Result<Vec<u8>, AllocError>
    requires { length words.now ≤ TEXT_SIZE }
    ensures { IfOk result (λ listing. listing.items ≡ listing_of (map (λ line. line.now) lines.now) (origin_in places.now) words.now) }
{
    let mut listing = Vec::new(alloc);
    for index in 0..words.len() {
        let address = TEXT_BASE + (WORD_SIZE * index) as u64;
        list_word(alloc, &mut listing, address, words[index], lines, places)?;
    }
    Ok(listing)
}

fn list_word(
    alloc: Global,
    listing: &mut Vec<u8>,
    address: u64,
    word: TextWord,
    lines: &[&[u8]],
    places: &Places<'_>,
) -> Result<(), AllocError>
    requires { 4 ≤ address }
    ensures { OnOk result (listing.new.items
        ≡ listing.old.items ++ listing_line (map (λ line. line.now) lines.now) (origin_in places.now) address word) }
{
    tell_word(alloc, listing, address, word)?;
    tell_begun(alloc, listing, begun_at(places, address), lines)?;
    tell_entered(alloc, listing, entered_at(places, address))?;
    listing.push(b'\n')?;
    Ok(())
}
