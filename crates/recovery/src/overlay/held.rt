//! Lines held over a source.

ghost use Rattle.std.specs.Prelude.{◌≡◌, ◌*◌, ◌/◌, ◌%◌, ◌<◌, ◌∷◌, ◌++◌, [], Some, None, if◌then◌else◌, length, replicate, slice_set, IfOk, OnOk, OnErr};
ghost use Rattle.line_memory.specs.Lines.{line_at};
ghost use Rattle.line_memory.specs.Memory.{IsWidth, loaded_from, stored_to};
ghost use Rattle.lru_cache.specs.Cache.{copied_over};
ghost use Rattle.recovery.specs.Held.{IsFresh, IsOver, is_held, memory_over, nothing_held};

use crate::overlay::source::Source;
use line_memory::{LINE_SIZE, load_bytes, store_bytes};
use std::alloc::{AllocError, Global};
use std::marker::Model;

/// Copies of those lines of a source that were stored to. Offsets count bytes from the first line's start.
///
/// A call is given the source that it is over: the same one each time, until nothing is held.
#[derive(Drop)]
pub struct Held {
    copies: Vec<Option<[u8; LINE_SIZE]>>,
    /// The lines that have a copy.
    touched: Vec<u32>,
}

impl Model for Held {
    ghost use Rattle.std.specs.Prelude.{ℕ, List, Option};
    ghost use Rattle.recovery.specs.Held.{AreTouched};

    ghost Value = { List (Option (List ℕ)) };

    ghost view = { λ h. h.copies.items };

    ghost invariant = { λ h. AreTouched h.copies.items h.touched.items };
}

impl Held {
    /// Nothing is held, of so many lines.
    #[tactic(auto, using(crate::proofs::Holding::none_touched, crate::proofs::Holding::fresh_of))]
    pub fn new(alloc: Global, lines: u32) -> Result<Held, AllocError>
        ensures none { IfOk result (λ held. held ≡ nothing_held lines) }
        ensures fresh { IfOk result (λ held. IsFresh held lines) }
    {
        let copies = no_copies(alloc, lines)?;
        Ok(Held {
            copies,
            touched: Vec::new(alloc),
        })
    }

    /// The number of the `width` bytes at an offset.
    #[tactic(auto, using(crate::proofs::Holding::load_over, line_memory::proofs::Accesses::fits_line))]
    pub fn load<S: Source>(&self, source: &S, offset: u32, width: u32) -> u64
        requires over { IsOver self.now (S.medium source.now) }
        requires width { IsWidth width }
        requires aligned { offset % width ≡ 0 }
        requires there { offset < 64 * length self.now }
        ensures { loaded_from (memory_over self.now (S.medium source.now)) offset width ≡ Some result }
    {
        let line = self.line(source, offset / LINE_SIZE as u32);
        load_bytes(line, offset as usize % LINE_SIZE, width as usize)
    }

    /// The byte at an offset.
    #[tactic(auto, using(crate::proofs::Holding::peek_over))]
    pub fn peek<S: Source>(&self, source: &S, offset: u32) -> u8
        requires over { IsOver self.now (S.medium source.now) }
        requires there { offset < 64 * length self.now }
        ensures { memory_over self.now (S.medium source.now) offset ≡ Some result }
    {
        let line = self.line(source, offset / LINE_SIZE as u32);
        line[offset as usize % LINE_SIZE]
    }

    /// Writes the low `width` bytes of `value` at an offset. Memory is taken only while more lines have copies than ever before;
    /// where it is refused nothing changes.
    #[tactic(auto, using(crate::proofs::Holding::store_over, crate::proofs::Holding::over_stored, line_memory::proofs::Accesses::fits_line))]
    pub fn store<S: Source>(
        &mut self,
        source: &S,
        offset: u32,
        width: u32,
        value: u64,
    ) -> Result<(), AllocError>
        requires over { IsOver self.old (S.medium source.now) }
        requires width { IsWidth width }
        requires aligned { offset % width ≡ 0 }
        requires there { offset < 64 * length self.old }
        ensures ok { OnOk result (memory_over self.new (S.medium source.now)
            ≡ stored_to (memory_over self.old (S.medium source.now)) offset width value) }
        ensures over { IsOver self.new (S.medium source.now) }
        ensures count { length self.new ≡ length self.old }
        ensures err { OnErr result (self.new ≡ self.old) }
    {
        let number = offset / LINE_SIZE as u32;
        let mut bytes = *self.line(source, number);
        store_bytes(
            &mut bytes,
            offset as usize % LINE_SIZE,
            width as usize,
            value,
        );
        self.hold(number, bytes)?;
        Ok(())
    }

    /// Nothing is held any more, so that each line is found as a source has it. No memory is taken.
    #[tactic(auto, using(crate::proofs::Holding::none_left, crate::proofs::Holding::one_less, crate::proofs::Holding::all_left, crate::proofs::Holding::none_touched, crate::proofs::Holding::fresh_left))]
    pub fn set_back(&mut self)
        ensures none { self.new ≡ nothing_held (length self.old) }
        ensures fresh { IsFresh self.new (length self.old) }
    {
        for at in 0..self.touched.len() {
            let line = self.touched[at] as usize;
            self.copies[line] = None;
        }
        self.touched.clear();
    }

    /// The bytes of a line, as they are found.
    #[tactic(auto, using(crate::proofs::Holding::held_found, crate::proofs::Holding::held_whole, crate::proofs::Holding::own_found))]
    fn line<'a, S: Source>(&'a self, source: &'a S, line: u32) -> &'a [u8; LINE_SIZE]
        requires over { IsOver self.now (S.medium source.now) }
        requires there { line < length self.now }
        ensures value { result.now ≡ line_at (copied_over self.now (S.medium source.now)) line }
        ensures whole { length result.now ≡ 64 }
    {
        match &self.copies[line as usize] {
            Some(copy) => copy,
            None => source.line(line),
        }
    }

    /// Puts these bytes into the copy of a line.
    #[tactic(auto, using(crate::proofs::Holding::touched_next, crate::proofs::Holding::touched_same))]
    fn hold(&mut self, line: u32, bytes: [u8; LINE_SIZE]) -> Result<(), AllocError>
        requires there { line < length self.old }
        ensures ok { OnOk result (self.new ≡ slice_set self.old line (Some bytes)) }
        ensures err { OnErr result (self.new ≡ self.old) }
    {
        let held = self.is_held(line);
        note(&mut self.touched, held, line)?;
        self.copies[line as usize] = Some(bytes);
        Ok(())
    }

    fn is_held(&self, line: u32) -> bool
        requires { line < length self.now }
        ensures { result ≡ is_held self.now line }
    {
        self.copies[line as usize].is_some()
    }
}

/// Adds a line to the list where it has no copy.
fn note(touched: &mut Vec<u32>, held: bool, line: u32) -> Result<(), AllocError>
    ensures ok { OnOk result (touched.new.items ≡ (if held then touched.old.items else touched.old.items ++ line ∷ [])) }
    ensures err { OnErr result (touched.new.items ≡ touched.old.items) }
{
    if held {
        return Ok(());
    }
    touched.push(line)?;
    Ok(())
}

fn no_copies(alloc: Global, lines: u32) -> Result<Vec<Option<[u8; LINE_SIZE]>>, AllocError>
    ensures { IfOk result (λ copies. copies.items ≡ replicate lines None) }
{
    vec![in alloc; None; lines as usize]
}
