//! A line of persistent memory, without its past.

ghost use Rattle.std.specs.Prelude.{◌≡◌, ◌≢◌, ◌↔◌, ◌⊎◌, ◌+◌, ◌^◌, ◌<◌, ◌≤◌, ℕ, List, ◌∷◌, [], filter, fold, length, map, Contains, IfOk, IsTrue};
ghost use Rattle.schedule_states.specs.Fed.{half_of, joined_bytes, joined_flags, word_of};
ghost use Rattle.std.proofs.Common.{refl};
ghost use Rattle.schedule_states.specs.LineStates.{IsLineState, gone_with, stays_after, unfenced};
ghost use Rattle.schedule_states.specs.declared.line_state.Content.{Content as AContent};
ghost use Rattle.store_trace.specs.declared.crash_model.step.PersistenceStep.TheVariants as step;
ghost use Rattle.store_trace.specs.declared.crash_model.step.PersistenceStep.{PersistenceStep};
ghost use Rattle.word_bits.specs.Bytes.{stored};

use crate::mixing::mixed;
use line_memory::{LINE_SIZE, store_bytes};
use std::alloc::{AllocError, Global};
use std::hash::{Hash, Hasher};

/// How many harts there are at most.
const HARTS: usize = 8;

/// A content that a power cut may leave of a line.
#[derive(Clone, Copy, Debug, PartialEq, Eq, PartialOrd, Ord)]
pub struct Content {
    pub bytes: [u8; LINE_SIZE],
    /// Of each hart, whether it might be left still if that hart made a fence now.
    pub stays: [bool; HARTS],
}

/// A line as it is: what loads find, and what else a power cut may leave of it.
#[derive(Drop, PartialEq, Eq)]
pub struct LineState {
    pub bytes: [u8; LINE_SIZE],
    /// None has the bytes that loads find, which may be left too, and no two have the same. They go up by their bytes.
    pub others: Vec<Content>,
}

/// Its bytes joined to one word, and its flags to another.
impl Hash for Content {
    ghost use Rattle.schedule_states.specs.Fed.{bytes_fed, content, flags_fed};
    ghost use Rattle.std.proofs.lemmas.Slice.Eq.{bytes_eq-Decides, slice_eq-Decides};
    ghost use Rattle.std.specs.Cmp.{booleans_Decides};
    ghost use Rattle.std.specs.Hash.{and-Alike, on_Alike, same_Alike};

    ghost hash_input = { content };

    ghost respects_eq = { (and-Alike (on_Alike (λ (c : AContent). c.bytes) (same_Alike bytes_fed bytes_eq-Decides))
        (on_Alike (λ (c : AContent). c.stays) (same_Alike flags_fed (λ one other. slice_eq-Decides booleans_Decides one other _ refl)))).fed };

    fn hash<H: Hasher>(&self, state: &mut H) {
        state.write_u64(joined_bytes(&self.bytes));
        state.write_u64(joined_flags(&self.stays));
    }
}

impl Hash for LineState {
    ghost use Rattle.schedule_states.specs.Fed.{bytes_fed, flags_fed, line};
    ghost use Rattle.schedule_states.specs.declared.line_state.LineState.{LineState as AState};
    ghost use Rattle.std.proofs.lemmas.Slice.Eq.{bytes_eq-Decides, slice_eq-Decides};
    ghost use Rattle.std.specs.Cmp.{booleans_Decides};
    ghost use Rattle.std.specs.Hash.{and-Alike, items_Alike, on_Alike, same_Alike};

    ghost hash_input = { line };

    ghost respects_eq = { (and-Alike (on_Alike (λ (s : AState). s.bytes) (same_Alike bytes_fed bytes_eq-Decides))
        (on_Alike (λ (s : AState). s.others.items) (items_Alike (and-Alike (on_Alike (λ (c : AContent). c.bytes) (same_Alike bytes_fed bytes_eq-Decides))
        (on_Alike (λ (c : AContent). c.stays) (same_Alike flags_fed (λ one other. slice_eq-Decides booleans_Decides one other _ refl))))))).fed };

    fn hash<H: Hasher>(&self, state: &mut H) {
        state.write_u64(joined_bytes(&self.bytes));
        self.others.hash(state);
    }
}

/// The bytes of a line, joined to one word.
fn joined_bytes(bytes: &[u8; LINE_SIZE]) -> u64
    ensures { result ≡ joined_bytes bytes.now }
{
    let low = mixed(
        mixed(word_at(bytes, 0), word_at(bytes, 8)),
        word_at(bytes, 16),
    );
    let middle = mixed(mixed(low, word_at(bytes, 24)), word_at(bytes, 32));
    mixed(
        mixed(mixed(middle, word_at(bytes, 40)), word_at(bytes, 48)),
        word_at(bytes, 56),
    )
}

/// Flags of harts, joined to one word.
fn joined_flags(flags: &[bool; HARTS]) -> u64
    ensures { result ≡ joined_flags flags.now 8 }
{
    let mut joined = 0;
    for hart in 0..HARTS {
        joined = mixed(joined, u64::from(flags[hart]));
    }
    joined
}

/// Eight bytes of a line from one on, the lowest first, as a number.
#[inline(always)]
fn word_at(bytes: &[u8; LINE_SIZE], at: usize) -> u64
    requires { at + 8 ≤ 64 }
    ensures { result ≡ word_of bytes.now at }
{
    half_at(bytes, at) + 4_294_967_296 * half_at(bytes, at + 4)
}

/// Four of them.
#[inline(always)]
fn half_at(bytes: &[u8; LINE_SIZE], at: usize) -> u64
    requires { at + 4 ≤ 64 }
    ensures value { result ≡ half_of bytes.now at }
    ensures low { result < 2 ^ 32 }
{
    let low = u64::from(bytes[at]) + 256 * u64::from(bytes[at + 1]);
    let high = u64::from(bytes[at + 2]) + 256 * u64::from(bytes[at + 3]);
    low + 65_536 * high
}

impl LineState {
    /// A line of which the medium holds just what loads find.
    #[tactic(auto, using(crate::proofs::Stepping::at_start))]
    pub fn certain(alloc: Global, bytes: [u8; LINE_SIZE]) -> LineState
        ensures line { (l : ℕ) → IsLineState bytes l [] result }
        ensures bytes { result.bytes ≡ bytes }
        ensures others { result.others.items ≡ [] }
    {
        LineState {
            bytes,
            others: Vec::new(alloc),
        }
    }

    /// What loads find.
    pub fn bytes(&self) -> &[u8; LINE_SIZE]
        ensures value { result.now ≡ self.now.bytes }
        ensures whole { length result.now ≡ 64 }
    {
        &self.bytes
    }

    /// Whether a power cut leaves just what loads find.
    pub fn is_certain(&self) -> bool
        ensures { IsTrue result ↔ (self.now.others.items ≡ []) }
    {
        self.others.is_empty()
    }

    /// Another one that is the same.
    pub fn copy(&self, alloc: Global) -> Result<LineState, AllocError>
        ensures bytes { IfOk result (λ copy. copy.bytes ≡ self.now.bytes) }
        ensures others { IfOk result (λ copy. copy.others.items ≡ self.now.others.items) }
    {
        let others = Vec::from_slice(alloc, &self.others)?;
        Ok(LineState {
            bytes: self.bytes,
            others,
        })
    }

    /// After a store to it of the low `width` bytes of a value: what loads found may be left, whichever hart makes a fence.
    pub fn stored(
        &self,
        alloc: Global,
        offset: u32,
        width: u32,
        value: u64,
    ) -> Result<LineState, AllocError>
        requires width { width ≤ 8 }
        requires within { offset + width ≤ 64 }
        ensures bytes { IfOk result (λ after. after.bytes ≡ stored self.now.bytes offset width value) }
        ensures line { IfOk result (λ after. (start : List ℕ) (l : ℕ) (p : List PersistenceStep) → IsLineState start l p self.now →
            IsLineState start l (step.Store l offset width value ∷ p) after) }
    {
        let mut bytes = self.bytes;
        store_bytes(&mut bytes, offset as usize, width as usize, value);
        let others = self.others_beside(alloc, &bytes)?;
        Ok(LineState { bytes, others })
    }

    /// What a power cut may leave of it, but for these bytes.
    fn others_beside(
        &self,
        alloc: Global,
        bytes: &[u8; LINE_SIZE],
    ) -> Result<Vec<Content>, AllocError>
        ensures { IfOk result (λ others. (content : AContent) → Contains others.items content
            ↔ ((content.bytes ≢ bytes.now) × (Contains self.now.others.items content ⊎ (content ≡ unfenced self.now.bytes)))) }
    {
        let mut others = Vec::from_slice(alloc, &self.others)?;
        others.push(Content {
            bytes: self.bytes,
            stays: [true; HARTS],
        })?;
        others.retain(|other| other.bytes != *bytes);
        others.sort()?;
        Ok(others)
    }

    /// After a clean of it by a hart: a fence of that hart would leave what loads find.
    pub fn cleaned(&self, alloc: Global, hart: u32) -> Result<LineState, AllocError>
        requires { hart < 8 }
        ensures bytes { IfOk result (λ after. after.bytes ≡ self.now.bytes) }
        ensures line { IfOk result (λ after. (start : List ℕ) (l : ℕ) (p : List PersistenceStep) → IsLineState start l p self.now →
            IsLineState start l (step.Clean hart l ∷ p) after) }
    {
        let others = after_clean(alloc, &self.others, hart)?;
        Ok(LineState {
            bytes: self.bytes,
            others,
        })
    }

    /// After a fence of a hart.
    pub fn fenced(&self, alloc: Global, hart: u32) -> Result<LineState, AllocError>
        requires { hart < 8 }
        ensures bytes { IfOk result (λ after. after.bytes ≡ self.now.bytes) }
        ensures line { IfOk result (λ after. (start : List ℕ) (l : ℕ) (p : List PersistenceStep) → IsLineState start l p self.now →
            IsLineState start l (step.Fence hart ∷ p) after) }
    {
        let others = staying(alloc, &self.others, hart)?;
        Ok(LineState {
            bytes: self.bytes,
            others,
        })
    }
}

/// Those of the contents that stay after a fence of a hart.
fn staying(alloc: Global, contents: &[Content], hart: u32) -> Result<Vec<Content>, AllocError>
    requires { hart < 8 }
    ensures { IfOk result (λ others. others.items ≡ filter (stays_after hart) contents.now) }
{
    let mut others = Vec::from_slice(alloc, contents)?;
    others.retain(|other| other.stays[hart as usize]);
    Ok(others)
}

/// The contents after a clean by a hart.
fn after_clean(alloc: Global, contents: &[Content], hart: u32) -> Result<Vec<Content>, AllocError>
    requires { hart < 8 }
    ensures { IfOk result (λ others. others.items ≡ map (gone_with hart) contents.now) }
{
    let mut others = Vec::with_capacity(alloc, contents.len())?;
    for content in contents {
        others.push(content.after_clean(hart))?;
    }
    Ok(others)
}

impl Content {
    /// It goes with a fence of the hart, which has cleaned the line.
    fn after_clean(mut self, hart: u32) -> Content
        requires { hart < 8 }
        ensures { result ≡ gone_with hart self }
    {
        self.stays[hart as usize] = false;
        self
    }
}
