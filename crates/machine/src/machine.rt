//! A machine of one to eight harts, and one step of it.

ghost use Rattle.std.specs.Prelude.{◌≡◌, ◌<◌, ◌≤◌, ◌↔◌, ℕ, List, [], Some, length, replicate, slice_get, map, IfOk, IfErr, OnOk, OnErr, All};
ghost use Rattle.store_trace.specs.Cut.{IsCutImage};
ghost use Rattle.store_trace.specs.Image.{image};
ghost use Rattle.store_trace.specs.WrittenBack.{write_back_state};
ghost use Rattle.store_trace.specs.History.{history};
ghost use Rattle.clean_fence.specs.Represents.{AreAmong};
ghost use Rattle.machine.specs.Replies.{trace_in};
ghost use Rattle.machine.specs.Cached.{medium_left};
ghost use Rattle.machine.specs.Persisted.{persisted, touched};
ghost use Rattle.hart.specs.Effect.{start};
ghost use Rattle.hart.specs.Needs.{IsInstruction};
ghost use Rattle.hart.specs.Requests.{IsRequest};
ghost use Rattle.std.specs.List.{range_with_len};
ghost use Rattle.store_trace.specs.TraceView.{NamesLine};
ghost use Rattle.machine.specs.Outcomes.{MakesEvent, outcome_of};
ghost use Rattle.machine.specs.Refusals.{LacksHart, LacksLine, Refuses};
ghost use Rattle.machine.specs.Limits.{AreWithinLimits, RefusesStart};
ghost use Rattle.machine.specs.SharedMemoryRefusals.{RefusesRequest};
ghost use Rattle.machine.specs.Run.{Config, fetched as fetched_from, started};
ghost use Rattle.machine.specs.Stepped.{HasStepped};
ghost use Rattle.machine.specs.Stops.{is_stopped};
ghost use Rattle.machine.specs.Represents.{Answers, IsRunning, NeedsAt, Represents, RepresentsExactly, copy_of};
ghost use Rattle.machine.specs.SharedView.{Evicts, memory_of};

use crate::schedule::Step;
use crate::shared_memory::{Shared, StepFault};
use crate::text_copy::{TextCopy, renew_after, starting_copies};
use hart::{Advance, HartState, Need, Request, Status, Trap, advance, next, resume};
use isa_table::Instr;
use line_memory::Medium;
use program::Program;
use std::alloc::Global;
use std::marker::Model;
use store_trace::{Event, Trace};

/// What a step did, by the status of its hart after it.
#[derive(Clone, Copy, Debug, PartialEq, Eq)]
pub enum Outcome {
    /// The hart runs; of an eviction, that it was made.
    Done,
    /// The hart exited with this code.
    Exited(u8),
    Trapped(Trap),
    /// The hart had stopped before, and nothing changed.
    Stopped,
}

/// Harts, each with a copy of the text that it fetches, over the memory and the trace that they share.
#[derive(Drop)]
pub struct Machine {
    pub(crate) harts: Vec<HartState>,
    pub(crate) copies: Vec<TextCopy>,
    pub(crate) shared: Shared,
}

impl Model for Machine {
    ghost use Rattle.machine.specs.Represents.{MachineView};
    ghost use Rattle.std.specs.Prelude.{◌≡◌, ◌≤◌, All, length};
    ghost use Rattle.store_trace.specs.TraceView.{NamesLine};

    ghost Value = { MachineView };

    ghost view = { λ m. record { harts = m.harts.items; copies = m.copies.items; shared = m.shared } };

    ghost invariant = { λ m. (length m.harts.items ≤ 8) × (length m.copies.items ≡ length m.harts.items)
        × (length m.shared.trace ≤ 65536) × All (NamesLine (length m.shared.cache.lines)) m.shared.trace };
}

impl Machine {
    /// A machine of one to eight harts, which begin at the base of the text of `program`, over `medium` behind an empty cache
    /// of 1 to 16,384 lines. NoSuchHart comes before OutOfLimits.
    pub fn new(
        alloc: Global,
        program: Program,
        medium: Medium,
        harts: u32,
        capacity: u32,
    ) -> Result<Machine, StepFault>
        ensures ok { IfOk result (λ machine. Represents machine (started program medium harts)) }
        ensures exact { IfOk result (λ machine. RepresentsExactly machine (started program medium harts)) }
        ensures lines { IfOk result (λ machine. machine.shared.cache.lines ≡ medium) }
        ensures capacity { IfOk result (λ machine. machine.shared.cache.cache.capacity ≡ capacity) }
        ensures within { OnOk result (AreWithinLimits harts capacity) }
        ensures refused { IfErr result (RefusesStart harts capacity) }
    {
        let shared = Shared::new(alloc, &program, medium, harts, capacity)?;
        Machine::over(alloc, shared, harts)
    }

    /// The harts at their start, each with a copy of the text, over what they share.
    fn over(alloc: Global, shared: Shared, harts: u32) -> Result<Machine, StepFault>
        requires few { harts ≤ 8 }
        requires empty { shared.trace ≡ [] }
        ensures ok { IfOk result (λ machine. machine ≡ record {
          harts = map start (range_with_len 0 harts);
          copies = replicate harts shared.ram.text;
          shared = shared;
        }) }
        ensures err { IfErr result (λ fault. fault ≡ StepFault.Memory) }
    {
        let states = starting_harts(alloc, harts)?;
        let copies = starting_copies(alloc, harts, shared.text())?;
        Ok(Machine {
            harts: states,
            copies,
            shared,
        })
    }

    /// Makes one step of a schedule. A refused step changes nothing.
    #[inline(always)]
    pub fn step(&mut self, step: Step) -> Result<Outcome, StepFault>
        ensures ok { IfOk result (HasStepped self.old self.new step) }
        ensures limit { length self.new.shared.trace ≤ 65536 }
        ensures named { All (NamesLine (length self.new.shared.cache.lines)) self.new.shared.trace }
        ensures err { OnErr result (self.new ≡ self.old) }
        ensures refused { IfErr result (Refuses self.old step) }
        ensures no_hart { (result ≡ Err StepFault.NoSuchHart) ↔ LacksHart self.old step }
        ensures no_line { (result ≡ Err StepFault.NoSuchLine) ↔ LacksLine self.old step }
        ensures full { (result ≡ Err StepFault.TraceFull)
            ↔ (MakesEvent self.old step × (length self.old.shared.trace ≡ 65536)) }
    {
        let made = self.make_step(step);
        // a look at the trace, for its limits to be known
        let _ = &self.shared;
        made
    }

    /// The number of harts.
    pub fn harts(&self) -> u32
        ensures count { result ≡ length self.now.harts }
        ensures limit { result ≤ 8 }
    {
        self.harts.len() as u32
    }

    /// A hart's state.
    pub fn hart(&self, hart: u32) -> &HartState
        requires { hart < length self.now.harts }
        ensures { slice_get self.now.harts hart ≡ Some result.now }
    {
        &self.harts[hart as usize]
    }

    /// Whether there is such a hart and it has stopped.
    pub fn has_stopped(&self, hart: u32) -> bool
        ensures { result ≡ is_stopped (slice_get self.now.harts hart) }
    {
        if hart >= self.harts() {
            return false;
        }
        match self.hart(hart).status {
            Status::Running => false,
            Status::Exited(_) | Status::Trapped(_) => true,
        }
    }

    /// What the next instruction of a running hart needs.
    pub fn need(&self, hart: u32) -> Need
        requires { IsRunning (slice_get self.now.harts hart) }
        ensures { NeedsAt self.now hart (slice_get self.now.harts hart) result }
    {
        let state = self.hart(hart);
        next(state, self.fetch(hart, state.pc))
    }

    /// The byte of flat memory at an address; None outside the regions. Nothing changes.
    pub fn peek(&self, address: u64) -> Option<u8>
        ensures { result ≡ memory_of self.now.shared address }
    {
        self.shared.peek(address)
    }

    /// The events so far, the oldest first.
    pub fn events(&self) -> &[Event]
        ensures value { result.now ≡ self.now.shared.trace }
        ensures limit { length self.now.shared.trace ≤ 65536 }
        ensures named { All (NamesLine (length self.now.shared.cache.lines)) self.now.shared.trace }
    {
        self.shared.events()
    }

    /// What a power cut leaves: the medium alone, without what is dirty in the cache, beside the trace.
    pub fn power_cut(self) -> (Medium, Trace)
        ensures lines { result.0 ≡ self.shared.cache.lines }
        ensures trace { result.1.events ≡ self.shared.trace }
        ensures named { All (NamesLine (length result.0)) result.1.events }

        // every leaving is a cut
        ensures cut { (c : Config) → Represents self c → IsCutImage c.common.start (history (trace_in c.common)) result.0 }

        // with room for all lines that were loaded or stored, the cut is what the steps of the run have written back
        ensures written_back { (c : Config) (lines : List ℕ) → Represents self c → length lines ≤ self.shared.cache.cache.capacity →
            AreAmong (touched c.common.history) lines →
            result.0 ≡ image c.common.start (λ l. (write_back_state l (persisted c.common.history)).count) (history (trace_in c.common)) }

        // at any capacity it is the medium behind the one cache that the requests and evictions of the run leave
        ensures exact { (c : Config) → RepresentsExactly self c →
            result.0 ≡ medium_left self.shared.cache.cache.capacity c.common.start c.common.history }
    {
        let Machine { shared, .. } = self;
        shared.power_cut()
    }

    #[inline(always)]
    fn make_step(&mut self, step: Step) -> Result<Outcome, StepFault>
        ensures ok { IfOk result (HasStepped self.old self.new step) }
        ensures err { OnErr result (self.new ≡ self.old) }
        ensures refused { IfErr result (Refuses self.old step) }
    {
        match step {
            Step::Hart(hart) => self.step_hart(hart),
            Step::Evict(line) => self.evict(line),
        }
    }

    #[inline(always)]
    fn step_hart(&mut self, hart: u32) -> Result<Outcome, StepFault>
        ensures ok { IfOk result (HasStepped self.old self.new (Step.Hart hart)) }
        ensures err { OnErr result (self.new ≡ self.old) }
        ensures refused { IfErr result (Refuses self.old (Step.Hart hart)) }
    {
        let Some(state) = self.harts.get(hart as usize) else {
            return Err(StepFault::NoSuchHart);
        };
        match state.status {
            Status::Running => self.execute(hart),
            Status::Exited(_) | Status::Trapped(_) => Ok(Outcome::Stopped),
        }
    }

    fn evict(&mut self, line: u32) -> Result<Outcome, StepFault>
        ensures ok { IfOk result (HasStepped self.old self.new (Step.Evict line)) }
        ensures err { OnErr result (self.new ≡ self.old) }
        ensures refused { IfErr result (Refuses self.old (Step.Evict line)) }
    {
        evict_line(&mut self.shared, line)?;
        Ok(Outcome::Done)
    }

    /// Makes the next instruction of a running hart.
    #[inline(always)]
    fn execute(&mut self, hart: u32) -> Result<Outcome, StepFault>
        requires running { IsRunning (slice_get self.old.harts hart) }
        ensures ok { IfOk result (HasStepped self.old self.new (Step.Hart hart)) }
        ensures err { OnErr result (self.new ≡ self.old) }
        ensures refused { IfErr result (Refuses self.old (Step.Hart hart)) }
    {
        let next = self.instruction(hart, self.hart(hart).pc);
        let harts = &mut self.harts;
        let state = &mut harts[hart as usize];
        let instr = match next {
            Ok(instr) => instr,
            Err(trap) => {
                state.status = Status::Trapped(trap);
                return Ok(Outcome::Trapped(trap));
            }
        };
        match advance(state, instr) {
            Advance::Done => {}
            Advance::Stop(trap) => state.status = Status::Trapped(trap),
            Advance::Ask(request) => {
                ask(&mut self.shared, hart, state, instr, request)?;
                renew_after(&mut self.copies, hart, request, self.shared.text());
            }
        }
        Ok(outcome_of(state.status))
    }

    /// The word of a hart's copy of the text at `pc`; None where it doesn't lie in the text region.
    fn fetch(&self, hart: u32, pc: u64) -> Option<u32>
        requires { hart < length self.now.harts }
        ensures { result ≡ fetched_from (copy_of self.now hart) pc }
    {
        let copy = &self.copies[hart as usize];
        copy.fetch(pc)
    }

    /// The instruction that the word of a hart's copy of the text at `pc` spells, or the trap where there is none.
    #[inline(always)]
    fn instruction(&self, hart: u32, pc: u64) -> Result<Instr, Trap>
        requires { hart < length self.now.harts }
        ensures { IsInstruction (fetched_from (copy_of self.now hart) pc) result }
    {
        let copy = &self.copies[hart as usize];
        copy.instruction(pc)
    }
}

/// Has a request served, and tells the hart the reply. A refusal leaves both as they were. A load goes by the shortest way.
#[tactic(auto, using(crate::proofs::Naming::served_named))]
#[inline(always)]
fn ask(
    shared: &mut Shared,
    hart: u32,
    state: &mut HartState,
    instr: Instr,
    request: Request,
) -> Result<(), StepFault>
    requires hart { hart < 8 }
    requires width { IsRequest request }
    requires named { All (NamesLine (length shared.old.cache.lines)) shared.old.trace }
    ensures ok { OnOk result (Answers shared.old shared.new hart state.old instr request state.new) }
    ensures limit { length shared.new.trace ≤ 65536 }
    ensures named { All (NamesLine (length shared.new.cache.lines)) shared.new.trace }
    ensures err { OnErr result ((shared.new ≡ shared.old) × (state.new ≡ state.old)) }
    ensures refused { IfErr result (RefusesRequest shared.old hart request) }
{
    match request {
        Request::Load { address, width } => {
            let reply = shared.load(hart, address, width);
            resume(state, instr, reply);
            Ok(())
        }
        _ => ask_any(shared, hart, state, instr, request),
    }
}

/// The same for any request.
#[tactic(auto, using(crate::proofs::Naming::served_named))]
fn ask_any(
    shared: &mut Shared,
    hart: u32,
    state: &mut HartState,
    instr: Instr,
    request: Request,
) -> Result<(), StepFault>
    requires hart { hart < 8 }
    requires width { IsRequest request }
    requires named { All (NamesLine (length shared.old.cache.lines)) shared.old.trace }
    ensures ok { OnOk result (Answers shared.old shared.new hart state.old instr request state.new) }
    ensures limit { length shared.new.trace ≤ 65536 }
    ensures named { All (NamesLine (length shared.new.cache.lines)) shared.new.trace }
    ensures err { OnErr result ((shared.new ≡ shared.old) × (state.new ≡ state.old)) }
    ensures refused { IfErr result (RefusesRequest shared.old hart request) }
{
    let reply = shared.request(hart, request)?;
    resume(state, instr, reply);
    Ok(())
}

#[tactic(auto, using(crate::proofs::Naming::evicted_named))]
fn evict_line(shared: &mut Shared, line: u32) -> Result<(), StepFault>
    requires named { All (NamesLine (length shared.old.cache.lines)) shared.old.trace }
    ensures ok { OnOk result (Evicts shared.old shared.new line) }
    ensures there { OnOk result (line < length shared.old.cache.lines) }
    ensures limit { length shared.new.trace ≤ 65536 }
    ensures named { All (NamesLine (length shared.new.cache.lines)) shared.new.trace }
    ensures err { OnErr result (shared.new ≡ shared.old) }
    ensures no_line { IfErr result (λ fault. (fault ≡ StepFault.NoSuchLine) × (length shared.old.cache.lines ≤ line)) }
{
    shared.evict(line)
}

fn starting_harts(alloc: Global, harts: u32) -> Result<Vec<HartState>, StepFault>
    requires { harts ≤ 8 }
    ensures ok { IfOk result (λ made. made.items ≡ map start (range_with_len 0 harts)) }
    ensures count { IfOk result (λ made. length made.items ≡ harts) }
    ensures err { IfErr result (λ fault. fault ≡ StepFault.Memory) }
{
    match (0..harts).map(HartState::start).collect(alloc) {
        Ok(made) => Ok(made),
        Err(_) => Err(StepFault::Memory),
    }
}

fn outcome_of(status: Status) -> Outcome
    ensures { result ≡ outcome_of status }
{
    match status {
        Status::Running => Outcome::Done,
        Status::Exited(code) => Outcome::Exited(code),
        Status::Trapped(trap) => Outcome::Trapped(trap),
    }
}
