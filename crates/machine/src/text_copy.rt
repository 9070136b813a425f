//! A hart's copy of the text, from which it fetches.

ghost use Rattle.std.specs.Prelude.{◌≡◌, ◌+◌, ◌*◌, ◌<◌, ◌≤◌, ℕ, List, ◌++◌, ◌∷◌, [], replicate, length, IfOk, IfErr, OnOk};
ghost use Rattle.hart.specs.Needs.{IsInstruction};
ghost use Rattle.line_memory.specs.declared.TheConstants.{TEXT_SIZE};
ghost use Rattle.machine.specs.Decoded.{AreDecoded, AreMixed};
ghost use Rattle.machine.specs.Run.{fetched};
ghost use Rattle.machine.specs.Represents.{copies_after, text_bytes};
ghost use Rattle.word_bits.specs.Bytes.{loaded};

use crate::shared_memory::StepFault;
use byteorder::{ByteOrder, LittleEndian};
use hart::{Request, Trap, instruction};
use isa_table::Instr;
use line_memory::{LINE_SIZE, TEXT_BASE, TEXT_SIZE};
use std::alloc::Global;
use std::marker::Model;

/// The number of lines of the text region.
const LINES: usize = 1_024;

/// The number of words of a line.
const WORDS_OF_LINE: usize = LINE_SIZE / 4;

/// The bytes of a whole text region, as they stood when the copy was made or last renewed.
#[derive(Drop)]
pub struct TextCopy {
    bytes: Vec<u8>,
    /// The instruction that each word of their first lines spells, or the trap where it spells none. The lines are those through
    /// the last that wasn't all zeros when the copy was made; a word behind them is decoded whenever it is executed.
    decoded: Vec<Result<Instr, Trap>>,
}

impl Model for TextCopy {
    ghost use Rattle.std.specs.Prelude.{◌≡◌, ℕ, List, length};
    ghost use Rattle.line_memory.specs.declared.TheConstants.{TEXT_SIZE};
    ghost use Rattle.machine.specs.Decoded.{AreDecoded};

    ghost Value = { List ℕ };

    ghost view = { λ t. t.bytes.items };

    ghost invariant = { λ t. (length t.bytes.items ≡ TEXT_SIZE) × AreDecoded t.bytes.items t.decoded.items };
}

impl TextCopy {
    /// A copy of the bytes of a text region.
    pub fn new(alloc: Global, text: &[u8]) -> Result<TextCopy, StepFault>
        requires { length text.now ≡ TEXT_SIZE }
        ensures ok { IfOk result (λ made. made ≡ text.now) }
        ensures err { IfErr result (λ fault. fault ≡ StepFault.Memory) }
    {
        let decoded = decode_lines(alloc, text, lines_used(text))?;
        match text.to_vec(alloc) {
            Ok(bytes) => Ok(TextCopy { bytes, decoded }),
            Err(_) => Err(StepFault::Memory),
        }
    }

    /// Makes the copy equal to the bytes of a text region. It takes no memory.
    pub fn renew(&mut self, text: &[u8])
        requires { length text.now ≡ TEXT_SIZE }
        ensures { self.new ≡ text.now }
    {
        decode_changed(&mut self.decoded, &self.bytes, text);
        self.bytes.copy_from_slice(text);
    }

    /// The bytes of the text region, as they are fetched.
    pub fn bytes(&self) -> &[u8]
        ensures value { result.now ≡ self.now }
        ensures whole { length result.now ≡ TEXT_SIZE }
    {
        &self.bytes
    }

    /// The word at `pc`; None where it doesn't lie in the text region.
    pub fn fetch(&self, pc: u64) -> Option<u32>
        ensures { result ≡ fetched (text_bytes self.now) pc }
    {
        if pc < TEXT_BASE || pc > TEXT_BASE + TEXT_SIZE - 4 {
            return None;
        }
        Some(word_at(&self.bytes, (pc - TEXT_BASE) as usize))
    }

    /// The instruction that the word at `pc` spells, or the trap where there is none.
    #[inline(always)]
    pub fn instruction(&self, pc: u64) -> Result<Instr, Trap>
        ensures { IsInstruction (fetched (text_bytes self.now) pc) result }
    {
        if pc >= TEXT_BASE && pc % 4 == 0 {
            let word = ((pc - TEXT_BASE) / 4) as usize;
            if word < self.decoded.len() {
                return self.decoded[word];
            }
        }
        self.decode(pc)
    }

    /// The same by the word alone: of one behind the decoded lines, or at a pc that isn't aligned. Not inlined, since few steps
    /// come here.
    #[inline(never)]
    fn decode(&self, pc: u64) -> Result<Instr, Trap>
        ensures { IsInstruction (fetched (text_bytes self.now) pc) result }
    {
        instruction(self.fetch(pc))
    }
}

/// How many lines a text has through the last one that isn't all zeros.
fn lines_used(text: &[u8]) -> usize
    requires { length text.now ≡ TEXT_SIZE }
    ensures { result ≤ 1024 }
{
    for line in (0..LINES).rev() {
        if !is_zero(&text[line * LINE_SIZE..line * LINE_SIZE + LINE_SIZE]) {
            return line + 1;
        }
    }
    0
}

/// Whether a line is all zeros.
fn is_zero(line: &[u8]) -> bool {
    line.iter().all(|byte| *byte == 0)
}

/// The instructions that the words of the first lines of a text spell.
#[tactic(auto, using(crate::proofs::Decoding::more_decoded))]
fn decode_lines(
    alloc: Global,
    text: &[u8],
    lines: usize,
) -> Result<Vec<Result<Instr, Trap>>, StepFault>
    requires whole { length text.now ≡ TEXT_SIZE }
    requires lines { lines ≤ 1024 }
    ensures ok { IfOk result (λ decoded. AreDecoded text.now decoded.items) }
    ensures err { IfErr result (λ fault. fault ≡ StepFault.Memory) }
{
    let words = lines * WORDS_OF_LINE;
    let Ok(mut decoded) = Vec::with_capacity(alloc, words) else {
        return Err(StepFault::Memory);
    };
    for word in 0..words {
        push_instruction(&mut decoded, instruction(Some(word_at(text, 4 * word))))?;
    }
    Ok(decoded)
}

fn push_instruction(
    decoded: &mut Vec<Result<Instr, Trap>>,
    instr: Result<Instr, Trap>,
) -> Result<(), StepFault>
    ensures ok { OnOk result (decoded.new.items ≡ decoded.old.items ++ instr ∷ []) }
    ensures err { IfErr result (λ fault. fault ≡ StepFault.Memory) }
{
    match decoded.push(instr) {
        Ok(()) => Ok(()),
        Err(_) => Err(StepFault::Memory),
    }
}

/// Decodes those of the decoded lines of a text anew in which it differs from the one before.
#[tactic(auto, using(crate::proofs::Decoding::none_mixed, crate::proofs::Decoding::all_mixed))]
fn decode_changed(decoded: &mut [Result<Instr, Trap>], before: &[u8], text: &[u8])
    requires before { length before.now ≡ TEXT_SIZE }
    requires whole { length text.now ≡ TEXT_SIZE }
    requires decoded { AreDecoded before.now decoded.old }
    ensures { AreDecoded text.now decoded.new }
{
    for line in 0..decoded.len() / WORDS_OF_LINE {
        let at = line * LINE_SIZE;
        if before[at..at + LINE_SIZE] != text[at..at + LINE_SIZE] {
            decode_line(decoded, text, line);
        }
    }
}

/// Decodes the words of a line of a text anew.
fn decode_line(decoded: &mut [Result<Instr, Trap>], text: &[u8], line: usize)
    requires line { 16 * line + 16 ≤ length decoded.old }
    requires whole { 4 * length decoded.old ≤ length text.now }
    ensures count { length decoded.new ≡ length decoded.old }
    ensures mixed { (before : List ℕ) → AreMixed text.now before (16 * line) decoded.old → AreMixed text.now before (16 * line + 16) decoded.new }
{
    let first = line * WORDS_OF_LINE;
    for word in first..first + WORDS_OF_LINE {
        decoded[word] = instruction(Some(word_at(text, 4 * word)));
    }
}

#[tactic(auto, using(line_memory::proofs::Numbers::loaded_is))]
fn word_at(text: &[u8], at: usize) -> u32
    requires { at + 4 ≤ length text.now }
    ensures { result ≡ loaded text.now at 4 }
{
    LittleEndian::read_u32(&text[at..])
}

/// As many copies of a text as there are harts.
pub fn starting_copies(alloc: Global, harts: u32, text: &[u8]) -> Result<Vec<TextCopy>, StepFault>
    requires { length text.now ≡ TEXT_SIZE }
    ensures ok { IfOk result (λ made. made.items ≡ replicate harts text.now) }
    ensures count { IfOk result (λ made. length made.items ≡ harts) }
    ensures err { IfErr result (λ fault. fault ≡ StepFault.Memory) }
{
    let mut made = Vec::new(alloc);
    for _ in 0..harts {
        let copy = TextCopy::new(alloc, text)?;
        push_copy(&mut made, copy)?;
    }
    Ok(made)
}

fn push_copy(copies: &mut Vec<TextCopy>, copy: TextCopy) -> Result<(), StepFault>
    ensures ok { IfOk result (λ _. copies.new.items ≡ copies.old.items ++ copy ∷ []) }
    ensures err { IfErr result (λ fault. fault ≡ StepFault.Memory) }
{
    match copies.push(copy) {
        Ok(()) => Ok(()),
        Err(_) => Err(StepFault::Memory),
    }
}

/// After a request of a hart its copy is the text as it stands where the request is a FENCE.I; else nothing changes.
pub fn renew_after(copies: &mut Vec<TextCopy>, hart: u32, request: Request, text: &[u8])
    requires there { hart < length copies.old.items }
    requires whole { length text.now ≡ TEXT_SIZE }
    ensures copies { copies.new.items ≡ copies_after copies.old.items hart request text.now }
    ensures count { length copies.new.items ≡ length copies.old.items }
{
    if let Request::FenceI = request {
        let copy = &mut copies[hart as usize];
        copy.renew(text);
    }
}
