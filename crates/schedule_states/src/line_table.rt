//! The lines of the address space by the numbers of their states, and what a request does to them.

ghost use Rattle.std.specs.Prelude.{◌≡◌, ◌%◌, ◌^◌, ◌<◌, ◌≤◌, ℕ, Bool, List, [], ◌∷◌, ◌++◌, None, Some, Option, length, slice_get, IfNone, IfOk, IfSome, IsTrue, OnOk};
ghost use Rattle.hart.specs.Requests.{IsRequest};
ghost use Rattle.machine.specs.Histories.{memory_after};
ghost use Rattle.machine.specs.Replies.{events_of, replied};
ghost use Rattle.store_trace.specs.History.{history};
ghost use Rattle.line_memory.specs.Memory.{IsWidth, Memory, fault_of, stored_to};
ghost use Rattle.schedule_states.specs.HeldLines.{AreBelow};
ghost use Rattle.schedule_states.specs.Memories.{AreSame, IsAsAtStart, IsKept, IsFencedAt, IsLineAfter, IsMemoryOf, IsPut, IsStateNow, IsStateOf, memory_over, state_in, steps_of_clean, steps_of_write};
ghost use Rattle.schedule_states.specs.LineStates.{IsLineState};
ghost use Rattle.schedule_states.specs.Numbers.{AreKept};
ghost use Rattle.schedule_states.specs.declared.line_state.LineState.{LineState as AState};
ghost use Rattle.schedule_states.specs.Sizes.{line_bytes};
ghost use Rattle.schedule_states.specs.StartLines.{LacksLine, memory_at};
ghost use Rattle.store_trace.specs.declared.crash_model.step.PersistenceStep.TheVariants as step;
ghost use Rattle.store_trace.specs.declared.crash_model.step.PersistenceStep.{PersistenceStep};
ghost use Rattle.word_bits.specs.Bytes.{stored};

use crate::held_lines::{HeldLine, with_state, without};
use crate::laws::equal_lines_are_same;
use crate::line_state::LineState;
use crate::numbers::{Numbers, grown, wide};
use crate::request::written;
use crate::start_lines::StartLines;
use crate::state_memory::StateMemory;
use hart::{Reply, Request};
use line_memory::{LINE_SIZE, Medium, PERSISTENT_BASE, store_bytes};
use std::alloc::{AllocError, Global};
use std::marker::Model;

/// What a run starts from, and the states that lines have come to have, each by its number.
#[derive(Drop)]
pub struct LineTable<'a> {
    start: &'a StartLines<'a>,
    states: Numbers<'a, LineState>,
    /// How many contents they have in all, but for what loads find.
    others: u64,
}

impl<'a> Model for LineTable<'a> {
    ghost use Rattle.std.specs.Prelude.{◌≡◌};
    ghost use Rattle.schedule_states.specs.Memories.{TableView};
    ghost use Rattle.schedule_states.specs.Sizes.{others_in};

    ghost Value = { TableView };

    ghost view = { λ t. record { start = t.start.now; states = t.states } };

    ghost invariant = { λ t. t.others ≡ others_in t.states };
}

impl<'a> LineTable<'a> {
    /// No line has come to have another state than at the start.
    pub fn new(alloc: Global, start: &'a StartLines<'a>) -> LineTable<'a>
        ensures { result ≡ record { start = start.now; states = [] } }
    {
        LineTable {
            start,
            states: Numbers::new(alloc),
            others: 0,
        }
    }

    /// The same lines, lent for a look.
    pub fn lent(&self) -> LineTable<'_>
        ensures { result ≡ self.now }
    {
        LineTable {
            start: self.start,
            states: self.states.lent(),
            others: self.others,
        }
    }

    /// The memory of a state that holds these lines.
    pub fn memory<'b>(&'b self, held: &'b [HeldLine]) -> StateMemory<'b, 'a>
        requires { AreBelow (length self.now.states) held.now }
        ensures { result ≡ record { start = self.now.start; states = self.now.states; held = held.now } }
    {
        StateMemory::new(self.start, self.states.as_slice(), held)
    }

    /// The lines that are held after a request of a hart with the reply to it.
    pub fn serve(
        &mut self,
        alloc: Global,
        held: &[HeldLine],
        hart: u32,
        request: Request,
        reply: Reply,
    ) -> Result<Vec<HeldLine>, AllocError>
        requires below { AreBelow (length self.old.states) held.now }
        requires hart { hart < 8 }
        requires request { IsRequest request }
        requires reply { (reserved : ℕ → Bool) × (reply ≡ replied (memory_over self.old.states held.now (memory_at self.old.start)) reserved request) }
        ensures served { IfOk result (λ lines. (memory : Memory) (p : List PersistenceStep) → IsMemoryOf self.old.start self.old.states held.now memory p →
            IsMemoryOf self.new.start self.new.states lines.items (memory_after memory request reply) (history (events_of hart request reply) ++ p)) }
        ensures below { IfOk result (λ lines. AreBelow (length self.new.states) lines.items) }
        ensures kept { IsKept self.old self.new }
    {
        if let Some(write) = written(request, reply) {
            return self.store(alloc, held, write.address, write.width, write.value);
        }
        match (request, reply) {
            (Request::Cbo { address, .. }, Reply::Done) => self.clean(alloc, held, hart, address),
            (Request::Fence, _) => self.fence(alloc, held, hart),
            _ => Vec::from_slice(alloc, held),
        }
    }

    /// The lines that are held after a write to memory of the low `width` bytes of a value.
    pub fn store(
        &mut self,
        alloc: Global,
        held: &[HeldLine],
        address: u64,
        width: u32,
        value: u64,
    ) -> Result<Vec<HeldLine>, AllocError>
        requires below { AreBelow (length self.old.states) held.now }
        requires width { IsWidth width }
        requires there { fault_of (memory_over self.old.states held.now (memory_at self.old.start)) address width ≡ None }
        ensures stored { IfOk result (λ lines. (memory : Memory) (p : List PersistenceStep) → IsMemoryOf self.old.start self.old.states held.now memory p →
            IsMemoryOf self.new.start self.new.states lines.items (stored_to memory address width value) (steps_of_write address width value ++ p)) }
        ensures below { IfOk result (λ lines. AreBelow (length self.new.states) lines.items) }
        ensures start { self.new.start ≡ self.old.start }
        ensures grows { AreKept self.old.states self.new.states }
    {
        let line = address / LINE_SIZE as u64;
        let before = self.state_of(alloc, held, line)?;
        let after = line_written(alloc, &before, address, width, value)?;
        self.put(alloc, held, line, after)
    }

    /// The lines that are held after a hart has cleaned the line of an address.
    pub fn clean(
        &mut self,
        alloc: Global,
        held: &[HeldLine],
        hart: u32,
        address: u64,
    ) -> Result<Vec<HeldLine>, AllocError>
        requires below { AreBelow (length self.old.states) held.now }
        requires hart { hart < 8 }
        ensures cleaned { IfOk result (λ lines. (memory : Memory) (p : List PersistenceStep) → IsMemoryOf self.old.start self.old.states held.now memory p →
            IsMemoryOf self.new.start self.new.states lines.items memory (steps_of_clean hart address ++ p)) }
        ensures below { IfOk result (λ lines. AreBelow (length self.new.states) lines.items) }
        ensures start { self.new.start ≡ self.old.start }
        ensures grows { AreKept self.old.states self.new.states }
    {
        if address < PERSISTENT_BASE {
            return Vec::from_slice(alloc, held);
        }
        let line = address / LINE_SIZE as u64;
        match self.memory(held).state(line) {
            Some(state) => {
                let after = state.cleaned(alloc, hart)?;
                self.put(alloc, held, line, after)
            }
            None => Vec::from_slice(alloc, held),
        }
    }

    /// The lines that are held after a fence of a hart.
    pub fn fence(
        &mut self,
        alloc: Global,
        held: &[HeldLine],
        hart: u32,
    ) -> Result<Vec<HeldLine>, AllocError>
        requires below { AreBelow (length self.old.states) held.now }
        requires hart { hart < 8 }
        ensures fenced { IfOk result (λ lines. (memory : Memory) (p : List PersistenceStep) → IsMemoryOf self.old.start self.old.states held.now memory p →
            IsMemoryOf self.new.start self.new.states lines.items memory (step.Fence hart ∷ p)) }
        ensures below { IfOk result (λ lines. AreBelow (length self.new.states) lines.items) }
        ensures start { self.new.start ≡ self.old.start }
        ensures grows { AreKept self.old.states self.new.states }
    {
        let mut lines = Vec::from_slice(alloc, held)?;
        for at in 0..held.len() {
            lines = self.fence_line(alloc, held, lines, u64::from(held[at].line), hart)?;
        }
        Ok(lines)
    }

    /// What a fence of a hart makes of one line.
    #[tactic(auto, using(crate::proofs::Fencing::fenced_put, crate::proofs::Fencing::fenced_kept))]
    fn fence_line(
        &mut self,
        alloc: Global,
        held: &[HeldLine],
        lines: Vec<HeldLine>,
        line: u64,
        hart: u32,
    ) -> Result<Vec<HeldLine>, AllocError>
        requires below { AreBelow (length self.old.states) held.now }
        requires lines { AreBelow (length self.old.states) lines.items }
        requires hart { hart < 8 }
        ensures put { IfOk result (λ after. IsFencedAt self.old self.new hart held.now lines.items line after.items) }
        ensures start { self.new.start ≡ self.old.start }
        ensures grows { AreKept self.old.states self.new.states }
    {
        match self.after_fence(alloc, held, line, hart)? {
            Some(after) => self.put(alloc, &lines, line, after),
            None => Ok(lines),
        }
    }

    /// The state of a line after a fence of a hart; None where it is the same.
    #[tactic(auto, using(crate::proofs::Fencing::fence_state, crate::proofs::Fencing::fence_certain, crate::proofs::Fencing::fence_none))]
    fn after_fence(
        &self,
        alloc: Global,
        held: &[HeldLine],
        line: u64,
        hart: u32,
    ) -> Result<Option<LineState>, AllocError>
        requires below { AreBelow (length self.now.states) held.now }
        requires hart { hart < 8 }
        ensures some { IfOk result (λ found. IfSome found (λ after. (new : Option AState) → IsStateOf self.now.start line after new →
            IsLineAfter self.now.start (λ l. step.Fence hart ∷ []) line (state_in self.now.states held.now line) new)) }
        ensures none { IfOk result (λ found. IfNone found
            (IsLineAfter self.now.start (λ l. step.Fence hart ∷ []) line (state_in self.now.states held.now line) (state_in self.now.states held.now line))) }
        ensures low { IfOk result (λ found. IfSome found (λ after. line < 2 ^ 32)) }
    {
        let Some(state) = self.memory(held).state(line) else {
            return Ok(None);
        };
        if state.is_certain() {
            return Ok(None);
        }
        let after = state.fenced(alloc, hart)?;
        Ok(Some(after))
    }

    /// The state of a line, which lies in a region.
    fn state_of(&self, alloc: Global, held: &[HeldLine], line: u64) -> Result<LineState, AllocError>
        requires below { AreBelow (length self.now.states) held.now }
        requires there { ¬ LacksLine (memory_over self.now.states held.now (memory_at self.now.start)) line }
        ensures now { IfOk result (λ state. IsStateNow self.now held.now line state) }
        ensures low { OnOk result (line < 2 ^ 32) }
    {
        match self.memory(held).state(line) {
            Some(state) => state.copy(alloc),
            None => Ok(LineState::certain(alloc, *self.start.line(line).unwrap())),
        }
    }

    /// The lines that are held where a line has this state, and the others are as they were.
    fn put(
        &mut self,
        alloc: Global,
        held: &[HeldLine],
        line: u64,
        state: LineState,
    ) -> Result<Vec<HeldLine>, AllocError>
        requires below { AreBelow (length self.old.states) held.now }
        requires low { line < 2 ^ 32 }
        ensures put { IfOk result (λ lines. IsPut self.old self.new held.now line state lines.items) }
        ensures start { self.new.start ≡ self.old.start }
        ensures grows { AreKept self.old.states self.new.states }
    {
        if self.is_as_at_start(line, &state) {
            return without(alloc, held, line as u32);
        }
        let number = self.number_of(state)?;
        with_state(alloc, held, line as u32, number)
    }

    /// The number of a state.
    fn number_of(&mut self, state: LineState) -> Result<u32, AllocError>
        ensures start { self.new.start ≡ self.old.start }
        ensures grows { AreKept self.old.states self.new.states }
        ensures number { IfOk result (λ number. (found : AState) × (slice_get self.new.states number ≡ Some found) × AreSame state found) }
    {
        equal_lines_are_same();
        let others = grown(self.others, state.others.len())?;
        let known = self.states.count();
        let number = self.states.number_of(state);
        if self.states.count() > known {
            self.others = others;
        }
        number
    }

    /// How many states there are.
    pub fn count(&self) -> usize
        ensures { result ≡ length self.now.states }
    {
        self.states.count()
    }

    /// How many bytes the states hold.
    pub fn bytes(&self) -> u128
        ensures bytes { result ≡ line_bytes self.now.states }
        ensures few { result < 2 ^ 73 }
    {
        120 * self.states.count() as u128 + 72 * wide(self.others)
    }

    /// Whether a line that has this state is as it was at the start.
    fn is_as_at_start(&self, line: u64, state: &LineState) -> bool
        ensures { IsTrue result → IsAsAtStart self.now.start line state.now }
    {
        match self.start.line(line) {
            Some(bytes) => state.is_certain() && *bytes == state.bytes,
            None => false,
        }
    }
}

/// The state of a line after a write to it of the low `width` bytes of a value.
fn line_written(
    alloc: Global,
    state: &LineState,
    address: u64,
    width: u32,
    value: u64,
) -> Result<LineState, AllocError>
    requires width { IsWidth width }
    requires aligned { address % width ≡ 0 }
    ensures bytes { IfOk result (λ after. after.bytes ≡ stored state.now.bytes (address % 64) width value) }
    ensures line { PERSISTENT_BASE ≤ address → IfOk result (λ after. (start : List ℕ) (l : ℕ) (p : List PersistenceStep) → IsLineState start l p state.now →
        IsLineState start l (step.Store l (address % 64) width value ∷ p) after) }
{
    let offset = (address % LINE_SIZE as u64) as u32;
    if address >= PERSISTENT_BASE {
        return state.stored(alloc, offset, width, value);
    }
    let mut bytes = state.bytes;
    store_bytes(&mut bytes, offset as usize, width as usize, value);
    Ok(LineState::certain(alloc, bytes))
}
