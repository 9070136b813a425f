//! A write-back cache over a medium that it owns, with cleans and fences by harts.
//!
//! Source: RISC-V Cache Management Operations 1.0, chapter 2. That a fence completes the cleans of its own hart alone is
//! this model's own rule. Addresses count the medium's bytes from the first line's start.
#![tactic(auto)]

ghost use Rattle.std.specs.Prelude.{◌≡◌, ℕ, ◌<◌, ◌≤◌, ◌*◌, ◌/◌, ◌%◌, List, [], ◌∷◌, Some, None, true, false, length, slice_index, slice_set, IfOk, IfErr, IfSome};
ghost use Rattle.index_list.specs.Lists.{first};
ghost use Rattle.word_bits.specs.Bytes.{loaded, stored};
ghost use Rattle.std.specs.Option.{option_to_list};
ghost use Rattle.line_memory.specs.Lines.{AreLines, line_at, line_bytes};
ghost use Rattle.line_memory.specs.Memory.{IsWidth, loaded_from, stored_to};
ghost use Rattle.lru_cache.specs.Cache.{IsCache, is_dirty, is_resident};
ghost use Rattle.lru_cache.specs.Order.{marked_in};
ghost use Rattle.store_trace.specs.Cut.{IsCutImage};
ghost use Rattle.store_trace.specs.Image.{image, memory_after};
ghost use Rattle.store_trace.specs.WrittenBack.{write_back_state};
ghost use Rattle.store_trace.specs.declared.crash_model.step.PersistenceStep.{PersistenceStep};
ghost use Rattle.store_trace.specs.declared.crash_model.step.PersistenceStep.TheVariants as step;
ghost use Rattle.clean_fence.specs.Rules.{PmView, after_clean, after_completion, after_evict, after_fence, after_flush, after_load, after_store, memory_of, started, victim};
ghost use Rattle.clean_fence.specs.Represents.{CacheSteps, Represents, RepresentsUnforced};

use line_memory::{Medium, MediumFault};
use lru_cache::Cache;
use std::alloc::Global;
use std::marker::Model;

/// Persistent memory: a medium behind a write-back cache, whose dirty lines a power cut loses.
///
/// A clean or flush of a dirty line pends for its hart until the line is written back: by a fence of that hart, or by an
/// eviction, also one that the use of another line forces. A line that was flushed leaves the cache when it is written
/// back. After making, no call takes memory, and none searches.
#[derive(Drop)]
pub struct PmCache {
    harts: u32,
    cache: Cache,
    medium: Medium,
}

impl Model for PmCache {
    ghost use Rattle.clean_fence.specs.Rules.{PmView, IsSound};

    ghost Value = { PmView };

    ghost view = { λ m. record { harts = m.harts; cache = m.cache; lines = m.medium } };

    ghost invariant = { λ m. IsSound (record { harts = m.harts; cache = m.cache; lines = m.medium }) };
}

impl PmCache {
    /// A cache of at most `capacity` lines over a medium, for harts 0 to `harts` - 1, at most eight. No line is in it. All its
    /// memory is taken here; Memory where a growth was refused.
    pub fn new(
        alloc: Global,
        medium: Medium,
        capacity: u32,
        harts: u32,
    ) -> Result<PmCache, MediumFault>
        requires capacity { 1 ≤ capacity }
        requires harts { harts ≤ 8 }
        ensures made { IfOk result (λ pm. pm ≡ started capacity harts medium) }
        ensures memory { IfOk result (λ pm. memory_of pm ≡ medium) }
        ensures represents { IfOk result (λ pm. (touched : List ℕ) → length touched ≤ capacity → RepresentsUnforced medium touched [] pm) }
        ensures err { IfErr result (λ fault. fault ≡ MediumFault.Memory) }
    {
        let cache = Cache::new(alloc, capacity, medium.lines())?;
        Ok(PmCache {
            harts,
            cache,
            medium,
        })
    }

    /// The number of the `width` bytes at an address; `width` is 1, 2, 4 or 8, and divides the address. The line is in the
    /// cache afterwards, and where that was full another line has left.
    #[inline(always)]
    pub fn load(&mut self, at: u32, width: u32) -> u64
        requires width { IsWidth width }
        requires aligned { at % width ≡ 0 }
        requires there { at < 64 * length self.old.lines }
        ensures value { loaded_from (line_bytes (memory_of self.old)) at width ≡ Some result }
        ensures memory { memory_of self.new ≡ memory_of self.old }
        ensures changed { self.new ≡ after_load (at / 64) self.old }
        ensures steps { CacheSteps self.old self.new [] (option_to_list (victim self.old (at / 64))) (at / 64 ∷ []) }
    {
        self.cache.load(&mut self.medium, at, width)
    }

    /// Writes the low `width` bytes of `value` at an address, as `load` reads them. The line is in the cache afterwards, and
    /// dirty until it is written back.
    #[inline(always)]
    pub fn store(&mut self, at: u32, width: u32, value: u64)
        requires width { IsWidth width }
        requires aligned { at % width ≡ 0 }
        requires there { at < 64 * length self.old.lines }
        ensures bytes { line_bytes (memory_of self.new) ≡ stored_to (line_bytes (memory_of self.old)) at width value }
        ensures memory { memory_of self.new ≡ slice_set (memory_of self.old) (at / 64)
            (stored (line_at (memory_of self.old) (at / 64)) (at % 64) width value) }
        ensures changed { self.new ≡ after_store (at / 64) (at % 64) width value self.old }
        ensures steps { CacheSteps self.old self.new (step.Store (at / 64) (at % 64) width value ∷ [])
            (option_to_list (victim self.old (at / 64))) (at / 64 ∷ []) }
    {
        self.cache.store(&mut self.medium, at, width, value);
    }

    /// A hart's clean of a line (`cbo.clean`): a dirty line pends for the hart, and another one stays as it is.
    pub fn clean(&mut self, hart: u32, line: u32)
        requires hart { hart < self.old.harts }
        requires there { line < length self.old.lines }
        ensures memory { memory_of self.new ≡ memory_of self.old }
        ensures changed { self.new ≡ after_clean hart line self.old }
        ensures steps { CacheSteps self.old self.new (step.Clean hart line ∷ []) [] [] }
    {
        if self.cache.is_dirty(line) {
            self.cache.mark(hart, line);
        }
    }

    /// A hart's flush of a line (`cbo.flush`, and `cbo.inval` here): a dirty line pends for the hart and leaves when it is
    /// written back; one that isn't dirty leaves at once.
    pub fn flush(&mut self, hart: u32, line: u32)
        requires hart { hart < self.old.harts }
        requires there { line < length self.old.lines }
        ensures memory { memory_of self.new ≡ memory_of self.old }
        ensures changed { self.new ≡ after_flush hart line self.old }
        ensures steps { CacheSteps self.old self.new (step.Clean hart line ∷ []) [] [] }
    {
        if !self.cache.is_dirty(line) {
            self.cache.drop_clean(line);
            return;
        }
        self.cache.mark(hart, line);
        self.cache.mark_leaving(line);
    }

    /// A hart's fence: writes back all lines that pend for it, and drops those that were flushed.
    pub fn fence(&mut self, hart: u32)
        requires { hart < self.old.harts }
        ensures memory { memory_of self.new ≡ memory_of self.old }
        ensures changed { self.new ≡ after_fence hart self.old }
        ensures steps { CacheSteps self.old self.new (step.Fence hart ∷ []) [] [] }
    {
        while let Some(line) = self.first_pending(hart) {
            self.complete(line);
        }
    }

    /// The line that has pended for a hart for longest.
    fn first_pending(&self, hart: u32) -> Option<u32>
        requires { hart < self.now.harts }
        ensures value { result ≡ first (marked_in self.now.cache.orders hart) }
        ensures there { IfSome result (λ line. line < length self.now.lines) }
    {
        self.cache.first_marked(hart)
    }

    /// Writes a line back, and drops it where it was flushed.
    fn complete(&mut self, line: u32)
        requires { line < length self.old.lines }
        ensures memory { memory_of self.new ≡ memory_of self.old }
        ensures changed { self.new ≡ after_completion line self.old }
        ensures sound { IsCache self.old.cache }
    {
        if self.cache.is_leaving(line) {
            self.evict(line);
        } else {
            self.cache.write_back(&mut self.medium, line);
        }
    }

    /// Writes a line back where it is dirty, and drops it. Nothing changes where it isn't in the cache.
    pub fn evict(&mut self, line: u32)
        requires { line < length self.old.lines }
        ensures memory { memory_of self.new ≡ memory_of self.old }
        ensures changed { self.new ≡ after_evict line self.old }
        ensures steps { CacheSteps self.old self.new (step.Evict line ∷ []) [] [] }
        ensures absent { is_resident self.old.cache line ≡ false → self.new ≡ self.old }
    {
        self.cache.evict(&mut self.medium, line);
    }

    /// The byte at an address, as a load would find it. Nothing changes.
    pub fn peek(&self, at: u32) -> u8
        requires { at < 64 * length self.now.lines }
        ensures { line_bytes (memory_of self.now) at ≡ Some result }
    {
        self.cache.peek(&self.medium, at)
    }

    /// Whether a line was stored to since it was last written back.
    pub fn is_dirty(&self, line: u32) -> bool
        requires { line < length self.now.lines }
        ensures { result ≡ is_dirty self.now.cache line }
    {
        self.cache.is_dirty(line)
    }

    /// Whether a line is in the cache.
    pub fn is_resident(&self, line: u32) -> bool
        requires { line < length self.now.lines }
        ensures { result ≡ is_resident self.now.cache line }
    {
        self.cache.is_resident(line)
    }

    /// The medium as it is, which a power cut would leave.
    #[inline(always)]
    pub fn medium(&self) -> &Medium
        ensures lines { result.now ≡ self.now.lines }
        ensures whole { AreLines (memory_of self.now) }
        ensures cut { (start : List (List ℕ)) (p : List PersistenceStep) → Represents start p self.now → IsCutImage start p result.now }
        ensures back { (start : List (List ℕ)) (p : List PersistenceStep) → Represents start p self.now →
            result.now ≡ image start (λ l. (write_back_state l p).count) p }
    {
        &self.medium
    }

    /// What a power cut leaves: the medium alone, without what is dirty in the cache.
    pub fn power_cut(self) -> Medium
        ensures lines { result ≡ self.lines }
        ensures cut { (start : List (List ℕ)) (p : List PersistenceStep) → Represents start p self → IsCutImage start p result }
        ensures back { (start : List (List ℕ)) (p : List PersistenceStep) → Represents start p self →
            result ≡ image start (λ l. (write_back_state l p).count) p }
    {
        let PmCache { medium, .. } = self;
        medium
    }
}

/// A law: loads find the flat memory after the steps that a cache represents.
#[tactic(auto, using(crate::proofs::Views::memory_flat))]
pub fn memory_is_flat()
    ensures { (start : List (List ℕ)) (p : List PersistenceStep) (pm : PmView) → Represents start p pm →
        memory_of pm ≡ memory_after start p }
{}
