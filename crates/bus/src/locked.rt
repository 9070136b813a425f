//! What the lock guards: all that harts share, with the history of what was done to it.

ghost use Rattle.std.specs.Prelude.{◌≡◌, ◌≢◌, ◌<◌, ◌≤◌, [], All, IfErr, IfOk, OnErr, OnOk, length, reverse};
ghost use Rattle.hart.specs.Requests.{IsRequest};
ghost use Rattle.line_memory.specs.declared.TheConstants.{TEXT_SIZE};
ghost use Rattle.machine.specs.Represents.{text_bytes};
ghost use Rattle.machine.specs.Histories.{replayed, text_of};
ghost use Rattle.machine.specs.Replies.{starting_memory};
ghost use Rattle.machine.specs.SharedView.{IsExact};
ghost use Rattle.bus.specs.Agreeing.{Agrees};
ghost use Rattle.bus.specs.Finished.{AllAgree};
ghost use Rattle.bus.specs.Limits.{AreWithin, RefusesStart};
ghost use Rattle.bus.specs.Refusals.{RefusesLine, RefusesSeat, RefusesTelling};
ghost use Rattle.bus.specs.Replays.{AreBelow, IsReplay, LinesBelow, common_of};
ghost use Rattle.store_trace.specs.TraceView.{NamesLine};
ghost use Rattle.bus.specs.Seating.{AsksNext};
ghost use Rattle.bus.specs.Seats.{SeatView};
ghost use Rattle.bus.specs.Serving.{EvictsLine, IsServed, Tells};
ghost use Rattle.bus.specs.Begun.{AreNew, IsNew};
ghost use Rattle.bus.specs.Starting.{AreAtStart};

use crate::exchange::Exchange;
use crate::fresh_seats::starting_seats;
use crate::hart_step::{is_renewed_after, renew_after, request_of};
use crate::limits::check_start;
use crate::outcome::{Outcome, outcome_of};
use crate::room::{add_entry, add_exchange, make_room};
use crate::seat::Seat;
use hart::{Reply, Request, resume};
use line_memory::Medium;
use machine::{Entry, Shared, StepFault};
use program::Program;
use std::alloc::Global;
use std::marker::Model;
use store_trace::{Event, Trace};

/// What harts share, what it began with, and the history of what was done to it.
#[derive(Drop)]
pub struct Core<'p> {
    program: &'p Program,
    start: Medium,
    harts: u32,
    capacity: u32,
    shared: Shared,
    /// The oldest entry first.
    history: Vec<Entry>,
}

impl<'p> Model for Core<'p> {
    ghost use Rattle.bus.specs.Replays.{AreBelow, CoreView, IsReplay, LinesBelow, replay};
    ghost use Rattle.machine.specs.SharedView.{IsExact};
    ghost use Rattle.std.specs.Prelude.{◌≡◌, ◌≤◌, All, length, reverse};
    ghost use Rattle.store_trace.specs.TraceView.{NamesLine};

    ghost Value = { CoreView };

    ghost view = { λ c. record {
      program = c.program.now;
      start = c.start;
      harts = c.harts;
      capacity = c.capacity;
      shared = c.shared;
      history = reverse c.history.items;
    } };

    ghost invariant = { λ c. IsReplay c.program.now c.start (reverse c.history.items) c.shared
        × AreBelow c.harts (reverse c.history.items) × (length c.shared.cache.lines ≡ length c.start)
        × (c.shared.cache.cache.capacity ≡ c.capacity) × (c.harts ≤ 8) × (length c.shared.trace ≤ 65536)
        × LinesBelow (length c.start) (reverse c.history.items) × All (NamesLine (length c.shared.cache.lines)) c.shared.trace
        × IsExact c.shared (replay c.program.now c.start (reverse c.history.items)) };
}

impl<'p> Core<'p> {
    /// A core at the start, and a seat for each of its harts, which agrees with it. There are one to eight harts, the cache is
    /// empty and has room for 1 to 16,384 lines, and each seat may make 1 to 500,000,000 steps.
    ///
    /// # Errors
    /// NoSuchHart for the number of harts, else OutOfLimits for the cache or the budget, both before any memory is taken;
    /// Memory where a growth is refused.
    pub fn new(
        alloc: Global,
        program: &'p Program,
        medium: Medium,
        harts: u32,
        capacity: u32,
        budget: u32,
    ) -> Result<(Core<'p>, Vec<Seat<'p>>), StepFault>
        ensures program { IfOk result (λ made. made.0.program ≡ program.now) }
        ensures start { IfOk result (λ made. made.0.start ≡ medium) }
        ensures harts { IfOk result (λ made. made.0.harts ≡ harts) }
        ensures capacity { IfOk result (λ made. made.0.capacity ≡ capacity) }
        ensures history { IfOk result (λ made. made.0.history ≡ []) }
        ensures seats { IfOk result (λ made. AreAtStart program.now medium harts budget made.1.items) }
        ensures agree { IfOk result (λ made. AllAgree made.0 made.1.items) }
        ensures within { OnOk result (AreWithin harts capacity budget) }
        ensures refused { IfErr result (RefusesStart harts capacity budget) }
    {
        check_start(harts, capacity, budget)?;
        Core::made(alloc, program, medium, harts, capacity, budget)
    }

    /// The same within the limits.
    pub(crate) fn made(
        alloc: Global,
        program: &'p Program,
        medium: Medium,
        harts: u32,
        capacity: u32,
        budget: u32,
    ) -> Result<(Core<'p>, Vec<Seat<'p>>), StepFault>
        requires { AreWithin harts capacity budget }
        ensures made { IfOk result (λ made. AreNew program.now medium harts capacity budget made.0 made.1.items) }
        ensures err { IfErr result (λ fault. fault ≡ StepFault.Memory) }
    {
        let core = Core::begun(alloc, program, medium, harts, capacity)?;
        match starting_seats(alloc, program, harts, budget, core.text()) {
            Ok(seats) => Ok((core, seats)),
            Err(_) => Err(StepFault::Memory),
        }
    }

    /// A core at the start.
    pub(crate) fn begun(
        alloc: Global,
        program: &'p Program,
        medium: Medium,
        harts: u32,
        capacity: u32,
    ) -> Result<Core<'p>, StepFault>
        requires limit { harts ≤ 8 }
        ensures core { IfOk result (IsNew program.now medium harts capacity) }
        ensures err { IfErr result (λ fault. fault ≡ StepFault.Memory) }
    {
        let Ok(start) = medium.copy(alloc) else {
            return Err(StepFault::Memory);
        };
        Core::around(alloc, program, start, medium, harts, capacity)
    }

    /// The same with a copy of the medium.
    fn around(
        alloc: Global,
        program: &'p Program,
        start: Medium,
        medium: Medium,
        harts: u32,
        capacity: u32,
    ) -> Result<Core<'p>, StepFault>
        requires limit { harts ≤ 8 }
        requires copy { start ≡ medium }
        ensures core { IfOk result (IsNew program.now medium harts capacity) }
        ensures err { IfErr result (λ fault. fault ≡ StepFault.Memory) }
    {
        match Shared::new(alloc, program, medium, harts, capacity) {
            Ok(shared) => Ok(Core {
                program,
                start,
                harts,
                capacity,
                shared,
                history: Vec::new(alloc),
            }),
            Err(_) => Err(StepFault::Memory),
        }
    }

    /// The program.
    pub fn program(&self) -> &'p Program
        ensures { result.now ≡ self.now.program }
    {
        self.program
    }

    /// The medium at the start.
    pub fn start(&self) -> &Medium
        ensures value { result.now ≡ self.now.start }
        ensures lines { length self.now.shared.cache.lines ≡ length self.now.start }
    {
        &self.start
    }

    /// The number of harts.
    pub fn harts(&self) -> u32
        ensures value { result ≡ self.now.harts }
        ensures limit { result ≤ 8 }
    {
        self.harts
    }

    /// How many lines the cache has room for.
    pub fn capacity(&self) -> u32
        ensures value { result ≡ self.now.capacity }
        ensures cache { self.now.shared.cache.cache.capacity ≡ self.now.capacity }
    {
        self.capacity
    }

    /// The requests of its harts with their replies, and the evictions, the oldest first.
    pub fn history(&self) -> &[Entry]
        ensures value { reverse result.now ≡ self.now.history }
        ensures replay { IsReplay self.now.program self.now.start self.now.history self.now.shared }
        ensures exact { IsExact self.now.shared (common_of self.now) }
        ensures harts { AreBelow self.now.harts self.now.history }
    {
        &self.history
    }

    /// The events so far, the oldest first.
    pub fn events(&self) -> &[Event]
        ensures value { result.now ≡ self.now.shared.trace }
        ensures limit { length self.now.shared.trace ≤ 65536 }
    {
        self.shared.events()
    }

    /// The medium that it began with, what a power cut leaves of the medium, and the events.
    pub(crate) fn power_cut(self) -> (Medium, Medium, Trace)
        ensures start { result.0 ≡ self.entry.start }
        ensures left { result.1 ≡ self.entry.shared.cache.lines }
        ensures lines { length result.1 ≡ length result.0 }
        ensures trace { result.2.events ≡ self.entry.shared.trace }
        ensures named { All (NamesLine (length result.0)) result.2.events }
        ensures below { LinesBelow (length self.entry.start) self.entry.history }
        ensures capacity { self.entry.shared.cache.cache.capacity ≡ self.entry.capacity }
    {
        let Core { start, shared, .. } = self;
        let (left, trace) = shared.power_cut();
        (start, left, trace)
    }

    /// The bytes of the text region, as memory has them.
    pub(crate) fn text(&self) -> &[u8]
        ensures value { result.now ≡ self.now.shared.ram.text }
        ensures whole { length result.now ≡ TEXT_SIZE }
    {
        self.shared.text()
    }

    /// Answers a request of a hart, and adds both to the history.
    pub(crate) fn ask(&mut self, hart: u32, request: Request) -> Result<Reply, StepFault>
        requires hart { hart < self.old.harts }
        requires width { IsRequest request }
        ensures ok { IfOk result (Tells self.old self.new hart request) }
        ensures text { OnOk result (text_bytes self.new.shared.ram.text
            ≡ text_of (replayed (starting_memory self.old.program self.old.start) self.new.history)) }
        ensures limit { length self.new.shared.trace ≤ 65536 }
        ensures err { OnErr result (self.new ≡ self.old) }
        ensures refused { IfErr result (RefusesTelling self.old hart request) }
    {
        make_room(&mut self.history)?;
        let reply = self.shared.request(hart, request)?;
        add_entry(
            &mut self.history,
            Entry::Asked {
                hart,
                request,
                reply,
            },
        );
        Ok(reply)
    }

    fn evict(&mut self, line: u32) -> Result<(), StepFault>
        ensures ok { OnOk result (EvictsLine self.old self.new line) }
        ensures there { OnOk result (line < length self.old.start) }
        ensures limit { length self.new.shared.trace ≤ 65536 }
        ensures err { OnErr result (self.new ≡ self.old) }
        ensures refused { IfErr result (RefusesLine self.old line) }
    {
        make_room(&mut self.history)?;
        self.shared.evict(line)?;
        add_entry(&mut self.history, Entry::Evicted { line });
        Ok(())
    }
}

/// Serves the request of a seat's next step: `core` is what the lock of its bus guards.
///
/// # Errors
/// A refusal leaves core and seat as they were. NoSuchHart where the core has no such hart; TraceFull where the request would
/// make an event and the trace is full; Memory where a growth is refused.
#[tactic(auto, using(crate::proofs::Refusing::refuses_seat, crate::proofs::Refusing::seat_for_memory))]
pub fn serve(core: &mut Core<'_>, seat: &mut Seat<'_>) -> Result<Outcome, StepFault>
    requires { AsksNext seat.old }
    ensures ok { IfOk result (IsServed core.old core.new seat.old seat.new) }
    ensures there { OnOk result (seat.old.hart < core.old.harts) }
    ensures limit { length core.new.shared.trace ≤ 65536 }
    ensures agrees { OnOk result (Agrees core.old seat.old → Agrees core.new seat.new) }
    ensures others { OnOk result ((other : SeatView) → other.hart ≢ seat.old.hart
        → Agrees core.old other → Agrees core.new other) }
    ensures err { OnErr result ((core.new ≡ core.old) × (seat.new ≡ seat.old)) }
    ensures refused { IfErr result (RefusesSeat core.old seat.old) }
{
    if seat.hart >= core.harts {
        return Err(StepFault::NoSuchHart);
    }
    make_room(&mut seat.exchanges)?;
    let (instr, request) = request_of(&mut seat.state, &seat.copy);
    let reply = core.ask(seat.hart, request)?;
    let exchange = Exchange {
        steps: seat.since,
        request,
        reply,
    };
    add_exchange(&mut seat.exchanges, exchange);
    resume(&mut seat.state, instr, reply);
    renew_after(&mut seat.copy, request, core.shared.text());
    seat.renewed = is_renewed_after(seat.renewed, request);
    seat.made += 1;
    seat.since = 0;
    Ok(outcome_of(seat.state.status))
}

/// Evicts a line: `core` is what the lock of a bus guards. Seats that agree with the core agree still.
///
/// # Errors
/// A refusal leaves the core as it was. NoSuchLine past the last line; Memory where a growth is refused.
#[tactic(auto, using(crate::proofs::Agreeing::evicted_agrees))]
pub fn serve_evict(core: &mut Core<'_>, line: u32) -> Result<(), StepFault>
    ensures ok { OnOk result (EvictsLine core.old core.new line) }
    ensures there { OnOk result (line < length core.old.start) }
    ensures limit { length core.new.shared.trace ≤ 65536 }
    ensures agrees { OnOk result ((seat : SeatView) → Agrees core.old seat → Agrees core.new seat) }
    ensures err { OnErr result (core.new ≡ core.old) }
    ensures refused { IfErr result (RefusesLine core.old line) }
{
    core.evict(line)
}
