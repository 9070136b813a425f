//! What the harts of a machine share: its memory, behind a cache where it is persistent, and its trace. It serves their
//! requests.

ghost use Rattle.std.specs.Prelude.{◌≡◌, ◌↔◌, ◌⊎◌, ◌+◌, ◌*◌, ◌/◌, ◌^◌, ◌<◌, ◌≤◌, ℕ, None, Some, List, [], ◌∷◌, ◌++◌, IfOk, IfErr, OnOk, OnErr, length};
ghost use Rattle.store_trace.specs.Cut.{IsCutImage};
ghost use Rattle.store_trace.specs.Image.{image};
ghost use Rattle.store_trace.specs.WrittenBack.{write_back_state};
ghost use Rattle.store_trace.specs.History.{history};
ghost use Rattle.store_trace.specs.TraceView.{IsEvent};
ghost use Rattle.line_memory.specs.Memory.{IsWidth, fault_of};
ghost use Rattle.line_memory.specs.declared.TheConstants.{TEXT_SIZE};
ghost use Rattle.hart.specs.Memory.{amo_result};
ghost use Rattle.hart.specs.Requests.{IsAtomicWidth, IsRequest};
ghost use Rattle.line_memory.specs.Lines.{AreLines};
ghost use Rattle.clean_fence.specs.Rules.{memory_of as lines_found};
ghost use Rattle.clean_fence.specs.Represents.{AreAmong, CacheSteps};
ghost use Rattle.store_trace.specs.declared.crash_model.step.PersistenceStep.TheVariants as step;
ghost use Rattle.machine.specs.Cached.{after_operation};
ghost use Rattle.machine.specs.Limits.{AreWithinLimits, RefusesStart};
ghost use Rattle.machine.specs.Persisted.{persisted, touched};
ghost use Rattle.machine.specs.Placement.{IsPlaced};
ghost use Rattle.machine.specs.SharedMemoryRefusals.{IsEventFault, RefusesRequest, RefusesWrite};
ghost use Rattle.machine.specs.Replies.{access_fault, store_event};
ghost use Rattle.machine.specs.SharedView.{Evicts, Finds, IsMark, IsPlaceIn, Reads, Serves, Writes, lines_shown, memory_of};

use crate::shared_memory::fault::StepFault;
use crate::shared_memory::limits::{MAX_HARTS, check_limits};
use clean_fence::PmCache;
use hart::{AccessFault, Reply, Request, amo_result};
use isa_table::{AtomicOp, CacheOp};
use line_memory::{Medium, MemFault, PERSISTENT_BASE, Ram, RamPlace, is_aligned};
use program::Program;
use reservation::Reservations;
use std::alloc::Global;
use std::marker::Model;
use store_trace::{Event, Trace};

/// Where an access begins that can be made.
#[derive(Clone, Copy)]
enum Place {
    /// In text or data.
    Ram(RamPlace),
    /// In persistent memory, counted in bytes from its base.
    Persistent(u32),
}

/// Text, data, persistent memory behind its cache, the harts' reservations, and the trace of what is done to persistent
/// memory.
#[derive(Drop)]
pub struct Shared {
    ram: Ram,
    cache: PmCache,
    reservations: Reservations,
    trace: Trace,
}

impl Model for Shared {
    ghost use Rattle.machine.specs.SharedView.{SharedView, reserved_lines};
    ghost use Rattle.std.specs.Prelude.{◌≡◌, ◌≤◌, length};

    ghost Value = { SharedView };

    ghost view = { λ s. record {
      ram = s.ram;
      cache = s.cache;
      reserved = reserved_lines s.reservations 0 8;
      trace = s.trace.events;
    } };

    ghost invariant = { λ s. (length s.trace.events ≤ 65536) × (s.cache.harts ≡ 8) };
}

impl Shared {
    ghost use Rattle.machine.specs.Replies.{SharedState, shared_at_start, trace_in};
    ghost use Rattle.machine.specs.SharedView.{IsExact, RepresentsShared};

    /// The memory at the start of a run of one to eight harts: a program's text and data, a medium behind an empty cache of
    /// 1 to 16,384 lines, and an empty trace. NoSuchHart comes before OutOfLimits, and both before any memory is taken.
    pub fn new(
        alloc: Global,
        program: &Program,
        medium: Medium,
        harts: u32,
        capacity: u32,
    ) -> Result<Shared, StepFault>
        ensures ok { IfOk result (λ shared. RepresentsShared shared (shared_at_start program.now medium)) }
        ensures exact { IfOk result (λ shared. IsExact shared (shared_at_start program.now medium)) }
        ensures lines { IfOk result (λ shared. shared.cache.lines ≡ medium) }
        ensures capacity { IfOk result (λ shared. shared.cache.cache.capacity ≡ capacity) }
        ensures trace { IfOk result (λ shared. shared.trace ≡ []) }
        ensures within { OnOk result (AreWithinLimits harts capacity) }
        ensures refused { IfErr result (RefusesStart harts capacity) }
    {
        check_limits(harts, capacity)?;
        Shared::made(alloc, program, medium, capacity)
    }

    fn made(
        alloc: Global,
        program: &Program,
        medium: Medium,
        capacity: u32,
    ) -> Result<Shared, StepFault>
        requires { 1 ≤ capacity }
        ensures ok { IfOk result (λ shared. RepresentsShared shared (shared_at_start program.now medium)) }
        ensures exact { IfOk result (λ shared. IsExact shared (shared_at_start program.now medium)) }
        ensures lines { IfOk result (λ shared. shared.cache.lines ≡ medium) }
        ensures capacity { IfOk result (λ shared. shared.cache.cache.capacity ≡ capacity) }
        ensures trace { IfOk result (λ shared. shared.trace ≡ []) }
        ensures err { IfErr result (λ fault. fault ≡ StepFault.Memory) }
    {
        let ram = match Ram::from_bytes(alloc, program.text_bytes(), program.data_bytes()) {
            Ok(ram) => ram,
            Err(_) => return Err(StepFault::Memory),
        };
        // The cache keeps pending lines for each number that a hart may have.
        let cache = match PmCache::new(alloc, medium, capacity, MAX_HARTS) {
            Ok(cache) => cache,
            Err(_) => return Err(StepFault::Memory),
        };
        Ok(Shared {
            ram,
            cache,
            reservations: Reservations::new(),
            trace: Trace::new(alloc),
        })
    }

    /// Serves a request of a hart. A refused request changes nothing; memory is taken only for an event.
    #[inline(always)]
    pub fn request(&mut self, hart: u32, request: Request) -> Result<Reply, StepFault>
        requires hart { hart < 8 }
        requires width { IsRequest request }
        ensures ok { IfOk result (λ reply. Serves self.old self.new hart request reply) }
        ensures limit { length self.new.trace ≤ 65536 }
        ensures err { OnErr result (self.new ≡ self.old) }
        ensures refused { IfErr result (RefusesRequest self.old hart request) }
    {
        let reply = match request {
            Request::Load { address, width } => Ok(self.load(hart, address, width)),
            Request::Store {
                address,
                width,
                value,
            } => self.store(hart, address, width, value),
            Request::Lr { address, width } => Ok(self.load_reserved(hart, address, width)),
            Request::Sc {
                address,
                width,
                value,
            } => self.store_conditional(hart, address, width, value),
            Request::Amo {
                op,
                address,
                width,
                operand,
            } => self.amo(hart, op, address, width, operand),
            Request::FenceI => Ok(self.fence_i(hart)),
            Request::Cbo { op, address } => self.cache_operation(hart, op, address),
            Request::Fence => self.fence(hart),
            Request::Begin { op } => self.mark(hart, request, Event::Begin { hart, op }),
            Request::End { op } => self.mark(hart, request, Event::End { hart, op }),
        };
        // a look at the trace, for its limit to be known
        let _ = &self.trace;
        reply
    }

    /// A FENCE.I changes nothing here: who keeps the hart's copy of the text renews it.
    fn fence_i(&self, hart: u32) -> Reply
        ensures { Serves self.now self.now hart Request.FenceI result }
    {
        Reply::Done
    }

    /// Serves a hart's load, which is never refused.
    #[inline(always)]
    pub fn load(&mut self, hart: u32, address: u64, width: u32) -> Reply
        requires width { IsWidth width }
        ensures serves { Serves self.old self.new hart (Request.Load address width) result }
        ensures limit { length self.new.trace ≤ 65536 }
    {
        let reply = match self.read(address, width) {
            Ok(value) => Reply::Value(value),
            Err(fault) => Reply::Fault(access_fault(fault)),
        };
        // a look at the trace, for its limit to be known
        let _ = &self.trace;
        reply
    }

    /// Serves a hart's store below persistent memory, which is never refused.
    #[inline(always)]
    pub fn store_below(&mut self, hart: u32, address: u64, width: u32, value: u64) -> Reply
        requires hart { hart < 8 }
        requires width { IsWidth width }
        requires below { address < PERSISTENT_BASE }
        ensures { Serves self.old self.new hart (Request.Store address width value) result }
    {
        match self.place(address, width) {
            Ok(Place::Ram(place)) => {
                self.write_to_ram(hart, address, place, width, value);
                Reply::Done
            }
            Ok(Place::Persistent(_)) => unreachable!(),
            Err(fault) => Reply::Fault(access_fault(fault)),
        }
    }

    #[inline(always)]
    fn store(&mut self, hart: u32, address: u64, width: u32, value: u64) -> Result<Reply, StepFault>
        requires hart { hart < 8 }
        requires width { IsWidth width }
        ensures ok { IfOk result (λ reply. Serves self.old self.new hart (Request.Store address width value) reply) }
        ensures err { OnErr result (self.new ≡ self.old) }
        ensures refused { IfErr result (RefusesRequest self.old hart (Request.Store address width value)) }
    {
        match self.place(address, width) {
            Ok(place) => self.write(hart, address, place, width, value)?,
            Err(fault) => return Ok(Reply::Fault(access_fault(fault))),
        }
        Ok(Reply::Done)
    }

    fn load_reserved(&mut self, hart: u32, address: u64, width: u32) -> Reply
        requires hart { hart < 8 }
        requires width { IsAtomicWidth width }
        ensures { Serves self.old self.new hart (Request.Lr address width) result }
    {
        match self.read(address, width) {
            Ok(value) => {
                self.reservations.reserve(hart, reserved_line(address));
                Reply::Value(value)
            }
            Err(fault) => Reply::Fault(access_fault(fault)),
        }
    }

    fn store_conditional(
        &mut self,
        hart: u32,
        address: u64,
        width: u32,
        value: u64,
    ) -> Result<Reply, StepFault>
        requires hart { hart < 8 }
        requires width { IsAtomicWidth width }
        ensures ok { IfOk result (λ reply. Serves self.old self.new hart (Request.Sc address width value) reply) }
        ensures err { OnErr result (self.new ≡ self.old) }
        ensures refused { IfErr result (RefusesRequest self.old hart (Request.Sc address width value)) }
    {
        let place = match self.place(address, width) {
            Ok(place) => place,
            Err(fault) => return Ok(Reply::Fault(access_fault(fault))),
        };
        let line = reserved_line(address);
        if !self.reservations.take(hart, line) {
            return Ok(Reply::Value(1));
        }
        if let Err(fault) = self.write(hart, address, place, width, value) {
            // A refused step changes nothing: the reservation stands again.
            self.reservations.reserve(hart, line);
            return Err(fault);
        }
        Ok(Reply::Value(0))
    }

    /// An atomic operation: what it stores is made of the value that it finds, which is the reply.
    fn amo(
        &mut self,
        hart: u32,
        op: AtomicOp,
        address: u64,
        width: u32,
        operand: u64,
    ) -> Result<Reply, StepFault>
        requires hart { hart < 8 }
        requires width { IsAtomicWidth width }
        ensures ok { IfOk result (λ reply. Serves self.old self.new hart (Request.Amo op address width operand) reply) }
        ensures err { OnErr result (self.new ≡ self.old) }
        ensures refused { IfErr result (RefusesRequest self.old hart (Request.Amo op address width operand)) }
    {
        match self.place(address, width) {
            Ok(Place::Ram(place)) => {
                Ok(self.amo_in_ram(hart, op, address, place, width, operand))
            }
            Ok(Place::Persistent(offset)) => {
                self.amo_in_cache(hart, op, address, offset, width, operand)
            }
            Err(fault) => Ok(Reply::Fault(access_fault(fault))),
        }
    }

    fn amo_in_ram(
        &mut self,
        hart: u32,
        op: AtomicOp,
        address: u64,
        place: RamPlace,
        width: u32,
        operand: u64,
    ) -> Reply
        requires hart { hart < 8 }
        requires width { IsAtomicWidth width }
        requires placed { IsPlaced self.old address width (Place.Ram place) }
        ensures { Serves self.old self.new hart (Request.Amo op address width operand) result }
    {
        let old = self.read_ram(address, place, width);
        let value = amo_result(op, width, old, operand);
        self.write_to_ram(hart, address, place, width, value);
        Reply::Value(old)
    }

    /// The room for the event is made before the cache is touched, so that a refusal leaves the cache as it was.
    fn amo_in_cache(
        &mut self,
        hart: u32,
        op: AtomicOp,
        address: u64,
        offset: u32,
        width: u32,
        operand: u64,
    ) -> Result<Reply, StepFault>
        requires hart { hart < 8 }
        requires width { IsAtomicWidth width }
        requires place { IsPlaceIn self.old address width offset }
        ensures ok { IfOk result (λ reply. Serves self.old self.new hart (Request.Amo op address width operand) reply) }
        ensures err { OnErr result (self.new ≡ self.old) }
        ensures refused { IfErr result (RefusesRequest self.old hart (Request.Amo op address width operand)) }
    {
        reserve_one(&mut self.trace)?;
        let old = self.cache.load(offset, width);
        let value = amo_result(op, width, old, operand);
        self.cache.store(offset, width, value);
        push_reserved(&mut self.trace, store_event(hart, offset, width, value));
        self.reservations.stored(hart, reserved_line(address));
        Ok(Reply::Value(old))
    }

    /// Serves a request whose event this is.
    fn mark(&mut self, hart: u32, request: Request, event: Event) -> Result<Reply, StepFault>
        requires event { IsEvent event }
        requires marks { IsMark hart request event }
        ensures ok { IfOk result (λ reply. Serves self.old self.new hart request reply) }
        ensures err { OnErr result (self.new ≡ self.old) }
        ensures refused { IfErr result (RefusesRequest self.old hart request) }
    {
        self.note(event)?;
        Ok(Reply::Done)
    }

    /// A hart's FENCE whose predecessor set has memory writes: its pending lines are written back.
    fn fence(&mut self, hart: u32) -> Result<Reply, StepFault>
        requires hart { hart < 8 }
        ensures ok { IfOk result (λ reply. Serves self.old self.new hart Request.Fence reply) }
        ensures err { OnErr result (self.new ≡ self.old) }
        ensures refused { IfErr result (RefusesRequest self.old hart Request.Fence) }
    {
        self.note(Event::Fence { hart })?;
        self.cache.fence(hart);
        Ok(Reply::Done)
    }

    /// The number that the bytes of an access spell, which a load of persistent memory brings into the cache.
    #[inline(always)]
    fn read(&mut self, address: u64, width: u32) -> Result<u64, MemFault>
        requires { IsWidth width }
        ensures ok { IfOk result (λ value. Finds (memory_of self.old) address width value) }
        ensures reads { OnOk result (Reads self.old self.new address) }
        ensures low { OnOk result (address < 2 ^ 38) }
        ensures err { IfErr result (λ fault. fault_of (memory_of self.old) address width ≡ Some fault) }
        ensures same { OnErr result (self.new ≡ self.old) }
    {
        let place = self.place(address, width)?;
        Ok(self.read_at(address, place, width))
    }

    #[inline(always)]
    fn read_at(&mut self, address: u64, place: Place, width: u32) -> u64
        requires width { IsWidth width }
        requires placed { IsPlaced self.old address width place }
        ensures value { Finds (memory_of self.old) address width result }
        ensures reads { Reads self.old self.new address }
    {
        match place {
            Place::Ram(place) => self.read_ram(address, place, width),
            Place::Persistent(offset) => self.read_cache(address, offset, width),
        }
    }

    #[inline(always)]
    fn read_ram(&self, address: u64, place: RamPlace, width: u32) -> u64
        requires width { IsWidth width }
        requires placed { IsPlaced self.now address width (Place.Ram place) }
        ensures value { Finds (memory_of self.now) address width result }
        ensures reads { Reads self.now self.now address }
    {
        self.ram.load_at(place, width)
    }

    #[inline(always)]
    fn read_cache(&mut self, address: u64, offset: u32, width: u32) -> u64
        requires width { IsWidth width }
        requires place { IsPlaceIn self.old address width offset }
        ensures value { Finds (memory_of self.old) address width result }
        ensures reads { Reads self.old self.new address }
    {
        self.cache.load(offset, width)
    }

    /// Where an access begins; the fault of one that can't be made.
    #[inline(always)]
    fn place(&self, address: u64, width: u32) -> Result<Place, MemFault>
        requires { IsWidth width }
        ensures ok { IfOk result (λ place. IsPlaced self.now address width place) }
        ensures no_fault { OnOk result (fault_of (memory_of self.now) address width ≡ None) }
        ensures low { OnOk result (address < 2 ^ 38) }
        ensures err { IfErr result (λ fault. fault_of (memory_of self.now) address width ≡ Some fault) }
    {
        if address < PERSISTENT_BASE {
            return Ok(Place::Ram(self.ram.place(address, width)?));
        }
        Ok(Place::Persistent(self.place_in_lines(address, width)?))
    }

    /// Where an access to persistent memory begins, counted from its base.
    #[inline(always)]
    fn place_in_lines(&self, address: u64, width: u32) -> Result<u32, MemFault>
        requires width { IsWidth width }
        requires above { PERSISTENT_BASE ≤ address }
        ensures ok { IfOk result (λ offset. IsPlaceIn self.now address width offset) }
        ensures err { IfErr result (λ fault. fault_of (memory_of self.now) address width ≡ Some fault) }
    {
        let offset = address - PERSISTENT_BASE;
        let size = self.size();
        if !is_aligned(offset, width) {
            return Err(MemFault::Misaligned);
        }
        if offset >= size {
            return Err(MemFault::Outside);
        }
        Ok(offset as u32)
    }

    /// Makes a write, and the event of one to persistent memory. A refused write changes nothing.
    #[inline(always)]
    fn write(
        &mut self,
        hart: u32,
        address: u64,
        place: Place,
        width: u32,
        value: u64,
    ) -> Result<(), StepFault>
        requires hart { hart < 8 }
        requires width { IsWidth width }
        requires placed { IsPlaced self.old address width place }
        ensures ok { OnOk result (Writes self.old self.new hart address width value) }
        ensures err { OnErr result (self.new ≡ self.old) }
        ensures refused { IfErr result (RefusesWrite self.old address) }
    {
        match place {
            Place::Ram(place) => self.write_to_ram(hart, address, place, width, value),
            Place::Persistent(offset) => {
                return self.write_to_cache(hart, address, offset, width, value);
            }
        }
        Ok(())
    }

    #[inline(always)]
    fn write_to_ram(&mut self, hart: u32, address: u64, place: RamPlace, width: u32, value: u64)
        requires hart { hart < 8 }
        requires width { IsWidth width }
        requires placed { IsPlaced self.old address width (Place.Ram place) }
        ensures { Writes self.old self.new hart address width value }
    {
        let written_line = reserved_line(address);
        self.ram.store_at(place, width, value);
        self.reservations.stored(hart, written_line);
    }

    #[inline(always)]
    fn write_to_cache(
        &mut self,
        hart: u32,
        address: u64,
        offset: u32,
        width: u32,
        value: u64,
    ) -> Result<(), StepFault>
        requires hart { hart < 8 }
        requires width { IsWidth width }
        requires place { IsPlaceIn self.old address width offset }
        ensures ok { OnOk result (Writes self.old self.new hart address width value) }
        ensures err { OnErr result (self.new ≡ self.old) }
        ensures refused { IfErr result (RefusesWrite self.old address) }
    {
        self.note(store_event(hart, offset, width, value))?;
        self.cache.store(offset, width, value);
        self.reservations.stored(hart, reserved_line(address));
        Ok(())
    }

    fn cache_operation(&mut self, hart: u32, op: CacheOp, address: u64) -> Result<Reply, StepFault>
        requires hart { hart < 8 }
        ensures ok { IfOk result (λ reply. Serves self.old self.new hart (Request.Cbo op address) reply) }
        ensures err { OnErr result (self.new ≡ self.old) }
        ensures refused { IfErr result (RefusesRequest self.old hart (Request.Cbo op address)) }
    {
        let size = self.size();
        if address < PERSISTENT_BASE {
            return Ok(self.reply_below(hart, op, address));
        }
        let offset = address - PERSISTENT_BASE;
        if offset >= size {
            return Ok(Reply::Fault(AccessFault::Outside));
        }
        self.note_clean(hart, op, address, offset as u32)
    }

    /// The byte of flat memory at an address; None outside the regions.
    #[tactic(auto, using(line_memory::proofs::Flat::flat_persistent, line_memory::proofs::Flat::flat_ram, crate::proofs::Serving::no_byte_past))]
    pub fn peek(&self, address: u64) -> Option<u8>
        ensures { result ≡ memory_of self.now address }
    {
        if address < PERSISTENT_BASE {
            return self.ram.peek(address);
        }
        let offset = address - PERSISTENT_BASE;
        if offset >= self.size() {
            return None;
        }
        Some(self.cache.peek(offset as u32))
    }

    /// The events so far, the oldest first.
    pub fn events(&self) -> &[Event]
        ensures value { result.now ≡ self.now.trace }
        ensures limit { length self.now.trace ≤ 65536 }
    {
        self.trace.events()
    }

    /// Evicts a line from the cache: it is written back where it is dirty. No memory is taken. NoSuchLine past the last line,
    /// and then nothing changes.
    pub fn evict(&mut self, line: u32) -> Result<(), StepFault>
        ensures ok { OnOk result (Evicts self.old self.new line) }
        ensures there { OnOk result (line < length self.old.cache.lines) }
        ensures limit { length self.new.trace ≤ 65536 }
        ensures err { OnErr result (self.new ≡ self.old) }
        ensures no_line { IfErr result (λ fault. (fault ≡ StepFault.NoSuchLine) × (length self.old.cache.lines ≤ line)) }
    {
        if line >= self.lines() {
            return Err(StepFault::NoSuchLine);
        }
        self.cache.evict(line);
        Ok(())
    }

    /// What a power cut leaves: the medium alone, without what is dirty in the cache, beside the trace.
    pub fn power_cut(self) -> (Medium, Trace)
        ensures lines { result.0 ≡ self.cache.lines }
        ensures trace { result.1.events ≡ self.trace }
        ensures cut { (c : SharedState) → RepresentsShared self c → IsCutImage c.start (history (trace_in c)) result.0 }
        ensures written_back { (c : SharedState) (lines : List ℕ) → RepresentsShared self c → length lines ≤ self.cache.cache.capacity →
            AreAmong (touched c.history) lines →
            result.0 ≡ image c.start (λ l. (write_back_state l (persisted c.history)).count) (history (trace_in c)) }
    {
        let Shared { cache, trace, .. } = self;
        (cache.power_cut(), trace)
    }

    /// The bytes of the text region, as they stand.
    pub fn text(&self) -> &[u8]
        ensures value { result.now ≡ self.now.ram.text }
        ensures whole { length result.now ≡ TEXT_SIZE }
    {
        self.ram.text()
    }

    /// The number of lines of persistent memory.
    pub fn lines(&self) -> u32
        ensures { result ≡ length self.now.cache.lines }
    {
        self.cache.medium().lines()
    }

    /// The number of bytes of persistent memory.
    #[inline(always)]
    fn size(&self) -> u64
        ensures size { result ≡ 64 * length self.now.cache.lines }
        ensures limit { result ≤ 64 * 16384 }
        ensures whole { AreLines (lines_shown self.now) }
    {
        64 * u64::from(self.cache.medium().lines())
    }

    fn note_clean(
        &mut self,
        hart: u32,
        op: CacheOp,
        address: u64,
        offset: u32,
    ) -> Result<Reply, StepFault>
        requires hart { hart < 8 }
        requires place { address ≡ PERSISTENT_BASE + offset }
        requires there { offset < 64 * length self.old.cache.lines }
        requires whole { AreLines (lines_shown self.old) }
        ensures ok { IfOk result (λ reply. Serves self.old self.new hart (Request.Cbo op address) reply) }
        ensures err { OnErr result (self.new ≡ self.old) }
        ensures refused { IfErr result (RefusesRequest self.old hart (Request.Cbo op address)) }
    {
        let line = offset / 64;
        self.note(Event::Clean { hart, line })?;
        operate(&mut self.cache, hart, op, line);
        Ok(Reply::Done)
    }

    /// Adds the one event of a request that is done.
    #[inline(always)]
    fn note(&mut self, event: Event) -> Result<(), StepFault>
        requires { IsEvent event }
        ensures ok { OnOk result (self.new ≡ record self.old { trace = self.old.trace ++ event ∷ [] }) }
        ensures err { OnErr result (self.new ≡ self.old) }
        ensures refused { IfErr result (IsEventFault self.old.trace) }
    {
        self.trace.push(event)?;
        Ok(())
    }

    /// The reply to an operation on the line of an address below persistent memory.
    fn reply_below(&self, hart: u32, op: CacheOp, address: u64) -> Reply
        requires { address < PERSISTENT_BASE }
        ensures { Serves self.now self.now hart (Request.Cbo op address) result }
    {
        match self.ram.peek(address) {
            Some(_) => Reply::Done,
            None => Reply::Fault(AccessFault::Outside),
        }
    }
}

/// A hart's cache-block operation on a line: an inval acts as a flush.
fn operate(cache: &mut PmCache, hart: u32, op: CacheOp, line: u32)
    requires hart { hart < cache.old.harts }
    requires there { line < length cache.old.lines }
    ensures memory { lines_found cache.new ≡ lines_found cache.old }
    ensures changed { cache.new ≡ after_operation hart op line cache.old }
    ensures steps { CacheSteps cache.old cache.new (step.Clean hart line ∷ []) [] [] }
{
    match op {
        CacheOp::Clean => cache.clean(hart, line),
        CacheOp::Flush | CacheOp::Inval => cache.flush(hart, line),
    }
}

/// Makes room for one event.
fn reserve_one(trace: &mut Trace) -> Result<(), StepFault>
    requires { length trace.old.events ≤ 65536 }
    ensures ok { OnOk result ((0 < trace.new.room) × (length trace.old.events < 65536)) }
    ensures same { trace.new.events ≡ trace.old.events }
    ensures refused { IfErr result (IsEventFault trace.old.events) }
{
    trace.reserve_one()?;
    Ok(())
}

/// Adds the event that there is room for.
fn push_reserved(trace: &mut Trace, event: Event)
    requires event { IsEvent event }
    requires room { 0 < trace.old.room }
    ensures { trace.new.events ≡ trace.old.events ++ event ∷ [] }
{
    match trace.push(event) {
        Ok(()) => {}
        Err(_) => unreachable!(),
    }
}

/// The event of a hart's store at a place of persistent memory.
fn store_event(hart: u32, offset: u32, width: u32, value: u64) -> Event
    requires { IsWidth width }
    ensures { result ≡ store_event hart offset width value }
{
    Event::Store {
        hart,
        line: offset / 64,
        offset: (offset % 64) as u8,
        width: width as u8,
        value,
    }
}

/// The line of the address space that holds an address of memory.
fn reserved_line(address: u64) -> u32
    requires { address < 2 ^ 38 }
    ensures { result ≡ address / 64 }
{
    (address / 64) as u32
}

fn access_fault(fault: MemFault) -> AccessFault
    ensures { result ≡ access_fault fault }
{
    match fault {
        MemFault::Misaligned => AccessFault::Misaligned,
        MemFault::Outside => AccessFault::Outside,
    }
}
