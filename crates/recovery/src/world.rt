//! What a routine has round it: its memory over an image, its reservation, how many events it made, and these where they are kept, which
//! bytes it has stored, and what it asked of the image.

ghost use Rattle.std.specs.Prelude.{◌≡◌, ◌+◌, ◌^◌, ◌/◌, ◌%◌, ◌<◌, ◌≤◌, ◌++◌, ℕ, [], slice_get, slice_index, nat_lt, None, Some, length, IfOk, IfErr, OnOk, OnErr};
ghost use Rattle.std.specs.List.{AllByRecursion};
ghost use Rattle.line_memory.specs.Memory.{IsWidth, loaded_from};
ghost use Rattle.line_memory.specs.declared.MediumFault.{MediumFault};
ghost use Rattle.line_memory.specs.declared.TheConstants.{PERSISTENT_BASE, TEXT_SIZE};
ghost use Rattle.hart.specs.Requests.{IsAtomicWidth, IsRequest};
ghost use Rattle.hart.specs.declared.need.Request.{Request};
ghost use Rattle.recovery.specs.Held.{IsOver};
ghost use Rattle.recovery.specs.Memory.{IsAtStart, IsSame, IsWithin, address_of, memory_of};
ghost use Rattle.machine.specs.Replies.{access_fault, line_of, offset_of};
ghost use Rattle.recovery.specs.Asking.{asked_at};
ghost use Rattle.verdict.specs.Bytes.{access_bytes};
ghost use Rattle.recovery.specs.Regions.{bytes_of};
ghost use Rattle.isa_table.specs.declared.instruction.CacheOp.{CacheOp};
ghost use Rattle.hart.specs.declared.need.Reply.{Reply};
ghost use Rattle.recovery.specs.World.{IsNoted, IsServed, Serves, Writes, event_count, is_line, with_event};
ghost use Rattle.store_trace.specs.TraceView.{IsEvent};
ghost use Rattle.recovery.specs.declared.world.Served.{Served};

use crate::overlay::Source;
use crate::overlay_memory::{HeldMemory, Place};
use hart::{AccessFault, Reply, Request, amo_result};
use isa_table::AtomicOp;
use line_memory::{LINE_SIZE, MediumFault, MemFault, PERSISTENT_BASE};
use program::Program;
use std::alloc::{AllocError, Global};
use std::marker::Model;
use std::mem;
use store_trace::{Event, Trace};
use verdict::{LineBytes, Question};

/// How many events a run may make.
const MAX_EVENTS: u32 = store_trace::MAX_EVENTS as u32;

/// What came of a request.
#[derive(Clone, Copy, Debug, PartialEq, Eq)]
pub enum Served {
    /// It was served, with this reply.
    Replied(Reply),
    /// It wasn't, since its event would be one too many.
    Full,
}

/// What hart 0, which runs alone, has round it. A call is given the image that it is over.
#[derive(Drop)]
pub struct World {
    held: HeldMemory,
    /// The line of the address space that an LR has reserved.
    reserved: Option<u32>,
    events: u32,
    /// Whether its events are kept, and not their number alone.
    keeps: bool,
    trace: Trace,
    /// The bytes of the image's lines that were stored: the run's own.
    own: LineBytes,
    asked: Vec<Question>,
}

impl Model for World {
    ghost use Rattle.std.specs.Prelude.{◌≡◌, ◌<◌, ◌≤◌, length};
    ghost use Rattle.std.specs.List.{AllByRecursion};
    ghost use Rattle.recovery.specs.World.{WorldView};

    ghost Value = { WorldView };

    ghost view = { λ w. record {
      held = w.held;
      reserved = w.reserved;
      events = w.events;
      keeps = w.keeps;
      trace = w.trace.events;
      own = w.own;
      asked = w.asked.items;
    } };

    ghost invariant = { λ w. (w.events ≤ 65536) × (length w.own ≡ length w.held.image) × AllByRecursion (λ q. q.line < length w.held.image) w.asked.items };
}

impl World {
    /// A program's memory over images of so many lines, at its start. The fault is Memory.
    pub fn new(alloc: Global, program: Program, lines: u32) -> Result<World, MediumFault>
        ensures program { IfOk result (λ world. world.held.program ≡ program) }
        ensures start { IfOk result (λ world. IsAtStart world.held lines) }
        ensures own { IfOk result (λ world. (l : ℕ) → slice_index world.own l ≡ 0) }
        ensures err { IfErr result (λ fault. fault ≡ MediumFault.Memory) }
    {
        let held = HeldMemory::new(alloc, program, lines)?;
        Ok(World {
            held,
            reserved: None,
            events: 0,
            keeps: false,
            trace: Trace::new(alloc),
            own: LineBytes::new(alloc, lines)?,
            asked: Vec::new(alloc),
        })
    }

    /// Nothing is reserved, no event was made and nothing asked. Events are kept from now on, or aren't.
    pub fn begin(&mut self, alloc: Global, keeps: bool)
        ensures { self.new ≡ record self.old { reserved = None; events = 0; keeps = keeps; trace = []; asked = [] } }
    {
        self.reserved = None;
        self.events = 0;
        self.keeps = keeps;
        self.trace = Trace::new(alloc);
        self.asked.clear();
    }

    /// Hands out the events that were kept.
    pub fn take_trace(&mut self, alloc: Global) -> Trace
        ensures trace { result.events ≡ self.old.trace }
        ensures rest { self.new ≡ record self.old { trace = [] } }
    {
        mem::replace(&mut self.trace, Trace::new(alloc))
    }

    /// The memory is that at the start again, over any image, and no byte was stored.
    pub fn set_back(&mut self)
        ensures start { IsAtStart self.new.held (length self.old.held.image) }
        ensures same { IsSame self.old.held self.new.held }
        ensures own { (l : ℕ) → slice_index self.new.own l ≡ 0 }
        ensures asked { self.new.asked ≡ self.old.asked }
    {
        self.held.set_back();
        self.own.clear();
    }

    /// The bytes of the text region as they are at the start.
    pub fn starting_text(&self) -> &[u8]
        ensures text { result.now ≡ self.now.held.program.text }
        ensures size { length result.now ≡ TEXT_SIZE }
    {
        self.held.starting_text()
    }

    /// Reads the bytes of the text region as they are.
    pub fn read_text(&self, into: &mut [u8])
        requires { length into.old ≡ TEXT_SIZE }
        ensures bytes { (offset : ℕ) → offset < TEXT_SIZE → slice_get into.new offset ≡ bytes_of self.now.held.text offset }
        ensures count { length into.new ≡ TEXT_SIZE }
    {
        self.held.read_text(into);
    }

    /// The byte at an address; None outside the regions.
    pub fn peek<S: Source>(&self, image: &S, address: u64) -> Option<u8>
        requires over { IsOver self.now.held.image (S.medium image.now) }
        ensures { result ≡ memory_of self.now.held (S.medium image.now) address }
    {
        self.held.peek(image, address)
    }

    /// The bytes of the image that were asked: those that were loaded and hadn't been stored, the oldest first.
    pub fn asked(&self) -> &[Question]
        ensures asked { result.now ≡ self.now.asked }
        ensures below { AllByRecursion (λ q. q.line < length self.now.held.image) self.now.asked }
    {
        &self.asked
    }

    /// Serves a request. Where memory is refused, what is round the routine is of no use before it is set back.
    #[tactic(auto, using(crate::proofs::Serving::kept_none))]
    pub fn request<S: Source>(&mut self, image: &S, request: Request) -> Result<Served, AllocError>
        requires over { IsOver self.old.held.image (S.medium image.now) }
        requires request { IsRequest request }
        ensures ok { IfOk result (λ served. IsServed self.old self.new (S.medium image.now) request served) }
        ensures over { IsOver self.new.held.image (S.medium image.now) }
        ensures same { IsSame self.old.held self.new.held }
    {
        match request {
            Request::Load { address, width } => self.load(image, address, width),
            Request::Store {
                address,
                width,
                value,
            } => self.store(image, address, width, value),
            Request::Lr { address, width } => self.load_reserved(image, address, width),
            Request::Sc {
                address,
                width,
                value,
            } => self.store_conditional(image, address, width, value),
            Request::Amo {
                op,
                address,
                width,
                operand,
            } => self.combine(image, op, address, width, operand),
            Request::FenceI => Ok(self.renew()),
            Request::Cbo { address, .. } => self.operate(image, address),
            Request::Fence => self.mark(Event::Fence { hart: 0 }),
            Request::Begin { op } => self.mark(Event::Begin { hart: 0, op }),
            Request::End { op } => self.mark(Event::End { hart: 0, op }),
        }
    }

    /// A FENCE.I changes nothing here: who keeps the fetched text renews it.
    fn renew(&self) -> Served
        ensures reply { result ≡ Served.Replied Reply.Done }
        ensures limit { self.now.events ≤ 65536 }
    {
        // a look at the events, for their limit to be known
        let _ = &self.events;
        Served::Replied(Reply::Done)
    }

    #[tactic(auto, using(crate::proofs::Serving::kept_none))]
    fn load<S: Source>(&mut self, image: &S, address: u64, width: u32) -> Result<Served, AllocError>
        requires over { IsOver self.old.held.image (S.medium image.now) }
        requires width { IsWidth width }
        ensures ok { IfOk result (λ served. IsServed self.old self.new (S.medium image.now) (Request.Load address width) served) }
        ensures over { IsOver self.new.held.image (S.medium image.now) }
        ensures same { IsSame self.old.held self.new.held }
    {
        match self.held.place(image, address, width) {
            Ok(place) => {
                let value = self.read(image, address, place, width)?;
                Ok(Served::Replied(Reply::Value(value)))
            }
            Err(fault) => Ok(faulted(fault)),
        }
    }

    #[tactic(auto, using(crate::proofs::Serving::kept_none))]
    fn load_reserved<S: Source>(
        &mut self,
        image: &S,
        address: u64,
        width: u32,
    ) -> Result<Served, AllocError>
        requires over { IsOver self.old.held.image (S.medium image.now) }
        requires width { IsAtomicWidth width }
        ensures ok { IfOk result (λ served. IsServed self.old self.new (S.medium image.now) (Request.Lr address width) served) }
        ensures over { IsOver self.new.held.image (S.medium image.now) }
        ensures same { IsSame self.old.held self.new.held }
    {
        match self.held.place(image, address, width) {
            Ok(place) => {
                let value = self.read(image, address, place, width)?;
                self.reserved = Some(reserved_line(address));
                Ok(Served::Replied(Reply::Value(value)))
            }
            Err(fault) => Ok(faulted(fault)),
        }
    }

    #[tactic(auto, using(crate::proofs::Serving::kept_none))]
    fn store<S: Source>(
        &mut self,
        image: &S,
        address: u64,
        width: u32,
        value: u64,
    ) -> Result<Served, AllocError>
        requires over { IsOver self.old.held.image (S.medium image.now) }
        requires width { IsWidth width }
        ensures ok { IfOk result (λ served. IsServed self.old self.new (S.medium image.now) (Request.Store address width value) served) }
        ensures over { IsOver self.new.held.image (S.medium image.now) }
        ensures same { IsSame self.old.held self.new.held }
    {
        let place = match self.held.place(image, address, width) {
            Ok(place) => place,
            Err(fault) => return Ok(faulted(fault)),
        };
        if self.is_full_at(address) {
            return Ok(Served::Full);
        }
        self.write(image, address, place, width, value)?;
        Ok(Served::Replied(Reply::Done))
    }

    /// The routine's own stores don't end its reservation.
    #[tactic(auto, using(crate::proofs::Serving::kept_none))]
    fn store_conditional<S: Source>(
        &mut self,
        image: &S,
        address: u64,
        width: u32,
        value: u64,
    ) -> Result<Served, AllocError>
        requires over { IsOver self.old.held.image (S.medium image.now) }
        requires width { IsAtomicWidth width }
        ensures ok { IfOk result (λ served. IsServed self.old self.new (S.medium image.now) (Request.Sc address width value) served) }
        ensures over { IsOver self.new.held.image (S.medium image.now) }
        ensures same { IsSame self.old.held self.new.held }
    {
        let place = match self.held.place(image, address, width) {
            Ok(place) => place,
            Err(fault) => return Ok(faulted(fault)),
        };
        if !self.has_reserved(address) {
            self.reserved = None;
            return Ok(Served::Replied(Reply::Value(1)));
        }
        if self.is_full_at(address) {
            return Ok(Served::Full);
        }
        self.write(image, address, place, width, value)?;
        self.reserved = None;
        Ok(Served::Replied(Reply::Value(0)))
    }

    /// An atomic operation: what it stores is made of the value that it finds, which is the reply.
    #[tactic(auto, using(crate::proofs::Serving::kept_none))]
    fn combine<S: Source>(
        &mut self,
        image: &S,
        op: AtomicOp,
        address: u64,
        width: u32,
        operand: u64,
    ) -> Result<Served, AllocError>
        requires over { IsOver self.old.held.image (S.medium image.now) }
        requires width { IsAtomicWidth width }
        ensures ok { IfOk result (λ served. IsServed self.old self.new (S.medium image.now) (Request.Amo op address width operand) served) }
        ensures over { IsOver self.new.held.image (S.medium image.now) }
        ensures same { IsSame self.old.held self.new.held }
    {
        let place = match self.held.place(image, address, width) {
            Ok(place) => place,
            Err(fault) => return Ok(faulted(fault)),
        };
        if self.is_full_at(address) {
            return Ok(Served::Full);
        }
        let old = self.read(image, address, place, width)?;
        let value = amo_result(op, width, old, operand);
        self.write(image, address, place, width, value)?;
        Ok(Served::Replied(Reply::Value(old)))
    }

    /// An operation on the line of an address, which changes no byte.
    fn operate<S: Source>(&mut self, image: &S, address: u64) -> Result<Served, AllocError>
        requires over { IsOver self.old.held.image (S.medium image.now) }
        ensures ok { IfOk result (λ served. (op : CacheOp) → IsServed self.old self.new (S.medium image.now) (Request.Cbo op address) served) }
        ensures over { IsOver self.new.held.image (S.medium image.now) }
        ensures same { IsSame self.old.held self.new.held }
    {
        match self.held.place(image, address, 1) {
            Ok(_) if address < PERSISTENT_BASE => Ok(Served::Replied(Reply::Done)),
            Ok(_) => self.mark(clean_of(address)),
            Err(_) => Ok(Served::Replied(Reply::Fault(AccessFault::Outside))),
        }
    }

    /// Notes an event, where there is room.
    fn mark(&mut self, event: Event) -> Result<Served, AllocError>
        requires { IsEvent event }
        ensures ok { IfOk result (IsNoted self.old self.new event) }
        ensures held { self.new.held ≡ self.old.held }
    {
        if self.events >= MAX_EVENTS {
            return Ok(Served::Full);
        }
        self.note(event)?;
        Ok(Served::Replied(Reply::Done))
    }

    /// Counts an event, for which there is room, and keeps it where events are kept.
    fn note(&mut self, event: Event) -> Result<(), AllocError>
        requires event { IsEvent event }
        requires room { self.old.events < 65536 }
        ensures ok { OnOk result (self.new ≡ with_event self.old event) }
        ensures held { self.new.held ≡ self.old.held }
    {
        if self.keeps && self.trace.push(event).is_err() {
            return Err(AllocError);
        }
        self.events += 1;
        Ok(())
    }

    /// Whether a write to an address would make one event too many.
    fn is_full_at(&self, address: u64) -> bool
        ensures { result ≡ nat_lt 65536 (self.now.events + event_count address) }
    {
        self.events + events_at(address) > MAX_EVENTS
    }

    /// Whether the line of an address is reserved.
    fn has_reserved(&self, address: u64) -> bool
        requires { address < 2 ^ 38 }
        ensures { result ≡ is_line self.now.reserved (address / 64) }
    {
        match self.reserved {
            Some(line) => line == reserved_line(address),
            None => false,
        }
    }

    /// The number that the bytes of an access spell; those of the image that aren't the run's own are asked.
    #[tactic(auto, using(crate::proofs::Serving::line_there))]
    fn read<S: Source>(
        &mut self,
        image: &S,
        address: u64,
        place: Place,
        width: u32,
    ) -> Result<u64, AllocError>
        requires over { IsOver self.old.held.image (S.medium image.now) }
        requires width { IsWidth width }
        requires within { IsWithin self.old.held width place }
        requires address { address ≡ address_of place }
        requires low { address < 2 ^ 38 }
        ensures ok { IfOk result (λ value. loaded_from (memory_of self.old.held (S.medium image.now)) address width ≡ Some value) }
        ensures changed { OnOk result (self.new ≡ record self.old { asked = self.old.asked ++ asked_at (slice_index self.old.own) address width }) }
        ensures err { OnErr result (self.new ≡ self.old) }
    {
        self.ask(address, width)?;
        Ok(self.held.load(image, place, width))
    }

    /// Asks the bytes of an access that aren't the run's own, where it is one of the image.
    fn ask(&mut self, address: u64, width: u32) -> Result<(), AllocError>
        requires width { IsWidth width }
        requires aligned { address % width ≡ 0 }
        requires low { address < 2 ^ 38 }
        requires there { PERSISTENT_BASE ≤ address → line_of address < length self.old.held.image }
        ensures ok { OnOk result (self.new ≡ record self.old { asked = self.old.asked ++ asked_at (slice_index self.old.own) address width }) }
        ensures err { OnErr result (self.new ≡ self.old) }
    {
        if address < PERSISTENT_BASE {
            return Ok(());
        }
        let access = access_of(address, width);
        let bytes = access.bytes ^ (access.bytes & self.own.of(access.line));
        if bytes != 0 {
            self.asked.push(Question {
                line: access.line,
                bytes,
            })?;
        }
        Ok(())
    }

    /// Makes a write, and counts its event.
    #[tactic(auto, using(crate::proofs::Serving::kept_above, crate::proofs::Serving::kept_below))]
    fn write<S: Source>(
        &mut self,
        image: &S,
        address: u64,
        place: Place,
        width: u32,
        value: u64,
    ) -> Result<(), AllocError>
        requires over { IsOver self.old.held.image (S.medium image.now) }
        requires width { IsWidth width }
        requires within { IsWithin self.old.held width place }
        requires address { address ≡ address_of place }
        requires low { address < 2 ^ 38 }
        requires room { self.old.events + event_count address ≤ 65536 }
        ensures ok { OnOk result (Writes self.old self.new (S.medium image.now) address width value) }
        ensures over { IsOver self.new.held.image (S.medium image.now) }
        ensures same { IsSame self.old.held self.new.held }
    {
        self.held.store(image, place, width, value)?;
        if address >= PERSISTENT_BASE {
            self.own.add(access_of(address, width))?;
            self.note(store_of(address, width, value))?;
        }
        Ok(())
    }
}

/// The event of an operation on the line of an address in persistent memory.
fn clean_of(address: u64) -> Event
    requires from { PERSISTENT_BASE ≤ address }
    requires low { address < 2 ^ 38 }
    ensures clean { result ≡ Event.Clean 0 (line_of address) }
    ensures event { IsEvent result }
{
    let (line, _) = line_place(address);
    Event::Clean { hart: 0, line }
}

/// The event of a store to persistent memory.
#[tactic(auto, using(crate::proofs::Serving::aligned_in_line))]
fn store_of(address: u64, width: u32, value: u64) -> Event
    requires width { IsWidth width }
    requires aligned { address % width ≡ 0 }
    requires from { PERSISTENT_BASE ≤ address }
    requires low { address < 2 ^ 38 }
    ensures store { result ≡ Event.Store 0 (line_of address) (offset_of address) width value }
    ensures event { IsEvent result }
{
    let (line, offset) = line_place(address);
    Event::Store {
        hart: 0,
        line,
        offset: offset as u8,
        width: width as u8,
        value,
    }
}

/// The line of an address in persistent memory, and its place in the line.
fn line_place(address: u64) -> (u32, u32)
    requires from { PERSISTENT_BASE ≤ address }
    requires low { address < 2 ^ 38 }
    ensures line { result.0 ≡ line_of address }
    ensures offset { result.1 ≡ offset_of address }
{
    let offset = address - PERSISTENT_BASE;
    let size = LINE_SIZE as u64;
    ((offset / size) as u32, (offset % size) as u32)
}

/// The line of an access to persistent memory, and its bytes there.
fn access_of(address: u64, width: u32) -> Question
    requires width { IsWidth width }
    requires aligned { address % width ≡ 0 }
    requires from { PERSISTENT_BASE ≤ address }
    requires low { address < 2 ^ 38 }
    ensures line { result.line ≡ line_of address }
    ensures bytes { result.bytes ≡ access_bytes (offset_of address) width }
{
    let offset = address - PERSISTENT_BASE;
    Question {
        line: (offset / LINE_SIZE as u64) as u32,
        bytes: ((1 << width) - 1) << (offset % LINE_SIZE as u64),
    }
}

/// How many events a write to an address makes, or an operation on its line.
fn events_at(address: u64) -> u32
    ensures { result ≡ event_count address }
{
    if address < PERSISTENT_BASE { 0 } else { 1 }
}

/// The line of the address space that holds an address of memory.
fn reserved_line(address: u64) -> u32
    requires { address < 2 ^ 38 }
    ensures { result ≡ address / 64 }
{
    (address / 64) as u32
}

fn faulted(fault: MemFault) -> Served
    ensures { result ≡ Served.Replied (Reply.Fault (access_fault fault)) }
{
    let met = match fault {
        MemFault::Misaligned => AccessFault::Misaligned,
        MemFault::Outside => AccessFault::Outside,
    };
    Served::Replied(Reply::Fault(met))
}
