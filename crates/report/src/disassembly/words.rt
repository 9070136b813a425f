//! The words of a program's text, and what is printed of one.

ghost use Rattle.decode.specs.Decoding.{Decodes};
ghost use Rattle.line_memory.specs.declared.TheConstants.{TEXT_SIZE};
ghost use Rattle.report.specs.Words.{AreWords, instruction_text, word_text};
ghost use Rattle.std.specs.Prelude.{◌≡◌, ◌++◌, ◌+◌, ◌≤◌, ◌∷◌, [], IfOk, OnOk, length, string_bytes};
ghost use Rattle.word_bits.specs.Bytes.{loaded};

use byteorder::{ByteOrder, LittleEndian};
use decode::{decode, show};
use isa_table::Instr;
use std::alloc::{AllocError, Global};

/// The bytes of a word.
pub(crate) const WORD_SIZE: usize = 4;

/// A word of a program's text, and the instruction that it spells, if it spells one.
#[derive(Clone, Copy)]
pub(crate) struct TextWord {
    pub(crate) word: u32,
    pub(crate) instr: Option<Instr>,
}

/// The words of a text, in order.
pub(crate) fn words_of(alloc: Global, text: &[u8]) -> Result<Vec<TextWord>, AllocError>
    requires { length text.now ≤ TEXT_SIZE }
    ensures all { IfOk result (λ words. AreWords text.now words.items) }
    ensures few { IfOk result (λ words. length words.items ≤ length text.now) }
{
    let mut words = Vec::new(alloc);
    for index in 0..text.len() / WORD_SIZE {
        let word = word_at(text, WORD_SIZE * index);
        push_word(&mut words, word)?;
    }
    Ok(words)
}

#[tactic(auto, using(line_memory::proofs::Numbers::loaded_is))]
fn word_at(text: &[u8], at: usize) -> u32
    requires { at + 4 ≤ length text.now }
    ensures { result ≡ loaded text.now at 4 }
{
    LittleEndian::read_u32(&text[at..])
}

fn push_word(words: &mut Vec<TextWord>, word: u32) -> Result<(), AllocError>
    ensures { OnOk result ((instr : _) × Decodes word instr × (words.new.items ≡ words.old.items ++ record { word = word; instr = instr } ∷ [])) }
{
    let instr = decode(word);
    words.push(TextWord { word, instr })?;
    Ok(())
}

/// Adds the address of a word, the word in eight digits, and the instruction: `0x10000 00700293 addi x5, x0, 7`.
#[tactic(auto, using(crate::proofs::TextWords::eight))]
pub(crate) fn tell_word(
    alloc: Global,
    listing: &mut Vec<u8>,
    address: u64,
    told: TextWord,
) -> Result<(), AllocError>
    ensures { OnOk result (listing.new.items ≡ listing.old.items ++ word_text address told) }
{
    let word = told.word;
    let instruction = instruction_text(alloc, told)?;
    let shown = format!(in alloc; "0x{address:x} {word:08x} {instruction}")?;
    listing.extend_from_slice(shown.as_bytes())?;
    Ok(())
}

/// The text of an instruction, and that of a word of none as `.word 0x0`.
fn instruction_text(alloc: Global, told: TextWord) -> Result<String, AllocError>
    ensures { IfOk result (λ text. string_bytes text ≡ instruction_text told) }
{
    match told.instr {
        Some(instr) => show(alloc, instr),
        None => format!(in alloc; ".word 0x{:x}", told.word),
    }
}
