//! The flat memory of a state.

ghost use Rattle.std.specs.Prelude.{◌≡◌, ◌^◌, ◌<◌, slice_get, None, Some, length, IfErr, IfNone, IfOk, IfSome, OnOk};
ghost use Rattle.line_memory.specs.Memory.{IsWidth, fault_of, loaded_from};
ghost use Rattle.schedule_states.specs.HeldLines.{AreBelow};
ghost use Rattle.line_memory.specs.Lines.{IsMedium};
ghost use Rattle.schedule_states.specs.Images.{line_in};
ghost use Rattle.schedule_states.specs.Memories.{memory_of, state_in};
ghost use Rattle.schedule_states.specs.StartLines.{LacksLine, ShowsLine};

use crate::held_lines::{HeldLine, state_of};
use crate::line_state::LineState;
use crate::start_lines::{PERSISTENT_LINE, StartLines};
use line_memory::{LINE_SIZE, Medium, MemFault, is_aligned, load_bytes};
use std::marker::Model;

/// The flat memory of a state: lines that aren't as they were, over those of the start.
#[derive(Drop)]
pub struct StateMemory<'a, 'b> {
    start: &'a StartLines<'b>,
    states: &'a [LineState],
    held: &'a [HeldLine],
}

impl<'a, 'b> Model for StateMemory<'a, 'b> {
    ghost use Rattle.std.specs.Prelude.{length};
    ghost use Rattle.schedule_states.specs.HeldLines.{AreBelow};
    ghost use Rattle.schedule_states.specs.Memories.{MemoryView};

    ghost Value = { MemoryView };

    ghost view = { λ m. record { start = m.start.now; states = m.states.now; held = m.held.now } };

    ghost invariant = { λ m. AreBelow (length m.states.now) m.held.now };
}

impl<'a, 'b> StateMemory<'a, 'b> {
    /// The lines that are held, by the numbers of their states.
    pub fn new(
        start: &'a StartLines<'b>,
        states: &'a [LineState],
        held: &'a [HeldLine],
    ) -> StateMemory<'a, 'b>
        requires { AreBelow (length states.now) held.now }
        ensures { result ≡ record { start = start.now; states = states.now; held = held.now } }
    {
        StateMemory {
            start,
            states,
            held,
        }
    }

    /// The bytes of a line of the address space; None where it lies in no region.
    #[tactic(auto, using(crate::proofs::Showing::line_held, crate::proofs::Showing::line_not_held))]
    pub fn line(&self, line: u64) -> Option<&[u8; LINE_SIZE]>
        ensures some { IfSome result (λ bytes. ShowsLine (memory_of self.now) line bytes.now) }
        ensures whole { IfSome result (λ bytes. length bytes.now ≡ 64) }
        ensures none { IfNone result (LacksLine (memory_of self.now) line) }
    {
        match self.state(line) {
            Some(state) => Some(state.bytes()),
            None => self.start.line(line),
        }
    }

    /// The state of a line of the address space; None where it is as it was at the start.
    #[tactic(auto, using(crate::proofs::Held::number_below))]
    pub(crate) fn state(&self, line: u64) -> Option<&'a LineState>
        ensures some { IfSome result (λ state. state_in self.now.states self.now.held line ≡ Some state.now) }
        ensures none { IfNone result (state_in self.now.states self.now.held line ≡ None) }
        ensures whole { IfSome result (λ state. length state.now.bytes ≡ 64) }
        ensures low { IfSome result (λ state. line < 2 ^ 32) }
    {
        match state_of(self.held, line) {
            Some(number) => Some(whole(&self.states[number as usize])),
            None => None,
        }
    }

    /// The medium that a run starts from.
    pub(crate) fn medium(&self) -> &'b Medium
        ensures value { result.now ≡ self.now.start.medium }
        ensures whole { IsMedium self.now.start.medium }
    {
        self.start.medium()
    }

    /// The lines that are held.
    pub(crate) fn held(&self) -> &'a [HeldLine]
        ensures value { result.now ≡ self.now.held }
        ensures below { AreBelow (length self.now.states) self.now.held }
    {
        self.held
    }

    /// The state of a number.
    pub(crate) fn line_state(&self, number: u32) -> &'a LineState
        requires { number < length self.now.states }
        ensures { slice_get self.now.states number ≡ Some result.now }
    {
        &self.states[number as usize]
    }

    /// The state of a line of the medium; None where it is as it was at the start.
    pub(crate) fn state_of_medium(&self, line: u32) -> Option<&'a LineState>
        ensures some { IfSome result (λ state. line_in self.now line ≡ Some state.now) }
        ensures none { IfNone result (line_in self.now line ≡ None) }
    {
        self.state(PERSISTENT_LINE + u64::from(line))
    }

    /// The byte at an address; None where it lies in no region.
    #[tactic(auto, using(crate::proofs::Fetching::byte_of_line, crate::proofs::Fetching::no_byte_of_line))]
    pub fn byte(&self, address: u64) -> Option<u8>
        ensures { result ≡ memory_of self.now address }
    {
        match self.line(address / LINE_SIZE as u64) {
            Some(bytes) => Some(bytes[address as usize % LINE_SIZE]),
            None => None,
        }
    }

    /// The number of the `width` bytes from an address on. Misaligned comes before Outside.
    #[tactic(auto, using(crate::proofs::Showing::loads, crate::proofs::Showing::loads_faultless, crate::proofs::Showing::loads_none, crate::proofs::Showing::loads_misaligned))]
    pub fn load(&self, address: u64, width: u32) -> Result<u64, MemFault>
        requires { IsWidth width }
        ensures ok { IfOk result (λ value. loaded_from (memory_of self.now) address width ≡ Some value) }
        ensures no_fault { OnOk result (fault_of (memory_of self.now) address width ≡ None) }
        ensures err { IfErr result (λ fault. fault_of (memory_of self.now) address width ≡ Some fault) }
    {
        if !is_aligned(address, width) {
            return Err(MemFault::Misaligned);
        }
        match self.line(address / LINE_SIZE as u64) {
            Some(bytes) => Ok(load_bytes(bytes, address as usize % LINE_SIZE, width as usize)),
            None => Err(MemFault::Outside),
        }
    }
}

/// The state, whose line has 64 bytes.
fn whole(state: &LineState) -> &LineState
    ensures value { result.now ≡ state.now }
    ensures whole { length result.now.bytes ≡ 64 }
{
    state
}
