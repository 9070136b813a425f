//! What the states of a program have in common.

ghost use Rattle.std.specs.Prelude.{◌≡◌, ◌≤◌, ◌<◌, ◌+◌, ◌*◌, ◌^◌, true, Some, [], length, slice_get, slice_index_or, IfOk, IfSome};
ghost use Rattle.line_memory.specs.declared.TheConstants.{TEXT_BASE, TEXT_SIZE};
ghost use Rattle.hart.specs.Needs.{IsInstruction};
ghost use Rattle.hart.specs.Requests.{IsRequest};
ghost use Rattle.machine.specs.Replies.{replied};
ghost use Rattle.schedule_states.specs.Ahead.{ComesAlone, IsNext};
ghost use Rattle.schedule_states.specs.HeldLines.{AreBelow};
ghost use Rattle.schedule_states.specs.Requests.{is_reserved};
ghost use Rattle.schedule_states.specs.Sizes.{line_bytes, list_bytes};
ghost use Rattle.schedule_states.specs.States.{AreGrown, AreLists, StandsFor};
ghost use Rattle.schedule_states.specs.Successors.{AreServed, HasLists, HaveMoved, IfState, IsAskingOf, IsOwnRequest, IsSettled, IsStartPart, IsSuccessor, IsTextAfter, IsTurnOf, IsUnknown, memory_held};
ghost use Rattle.machine.specs.Histories.{text_of};
ghost use Rattle.machine.specs.Run.{fetched, started};
ghost use Rattle.schedule_states.specs.Happening.{IsAtFitRequest, IsAtRequest};
ghost use Rattle.schedule_states.specs.Memories.{memory_over};
ghost use Rattle.schedule_states.specs.StartLines.{memory_at};

use crate::ahead::{MOST_STEPS, Next, Text, next_of, run_ahead};
use crate::claims::{ClaimedLine, is_local, keeps, line_of};
use crate::held_lines::HeldLine;
use crate::line_table::LineTable;
use crate::memory_lists::MemoryLists;
use crate::origin::Origin;
use crate::program_state::{HartPart, ProgramState};
use crate::request::{mark_of, reply_to};
use crate::reserving::reserved_after;
use crate::state_memory::StateMemory;
use crate::successor::{Successor, harts_after, text_lines};
use hart::{HartState, Reply, Request, Trap, instruction, resume};
use isa_table::Instr;
use line_memory::{TEXT_BASE, TEXT_SIZE};
use machine::TextCopy;
use std::alloc::{AllocError, Global};
use std::marker::Model;

/// What the states of a program have in common: the lines, each state of one by its number, and lists of held lines by their numbers. The
/// list of number 0 holds none.
#[derive(Drop)]
pub struct Parts<'a> {
    lines: LineTable<'a>,
    lists: MemoryLists<'a>,
    /// The text at the start, decoded.
    text: &'a TextCopy,
    /// What is claimed of lines.
    claims: &'a [ClaimedLine],
}

impl<'a> Model for Parts<'a> {
    ghost use Rattle.std.specs.Prelude.{◌≡◌};
    ghost use Rattle.machine.specs.Histories.{text_of};
    ghost use Rattle.machine.specs.Represents.{text_bytes};
    ghost use Rattle.schedule_states.specs.StartLines.{memory_at};
    ghost use Rattle.schedule_states.specs.States.{AreLists, PartsView};

    ghost Value = { PartsView };

    ghost view = { λ p. record { table = p.lines; lists = p.lists; claims = p.claims.now } };

    ghost invariant = { λ p. AreLists p.lines.states p.lists × (text_bytes p.text.now ≡ text_of (memory_at p.lines.start)) };
}

impl<'a> Parts<'a> {
    /// Of no state yet, where this is claimed of lines.
    pub fn new(
        alloc: Global,
        origin: &'a Origin<'a>,
        claims: &'a [ClaimedLine],
    ) -> Result<Parts<'a>, AllocError>
        ensures start { IfOk result (λ parts. parts.table.start ≡ origin.now) }
        ensures empty { IfOk result (λ parts. slice_get parts.lists 0 ≡ Some []) }
        ensures claims { IfOk result (λ parts. parts.claims ≡ claims.now) }
    {
        let mut lists = MemoryLists::new(alloc);
        lists.number_of(Vec::new(alloc))?;
        Ok(Parts {
            lines: LineTable::new(alloc, origin.lines()),
            lists,
            text: origin.text(),
            claims,
        })
    }

    /// The same parts, lent for a look, which may find further lists; None where they are lent themselves.
    pub fn lent(&self, alloc: Global) -> Option<Parts<'_>>
        ensures { IfSome result (λ lent. lent ≡ self.now) }
    {
        Some(Parts {
            lists: self.lists.lent(alloc)?,
            lines: self.lines.lent(),
            text: self.text,
            claims: self.claims,
        })
    }

    /// The state at the start of a run of one to eight harts, unless one of them makes too many steps up to its first request.
    pub fn start(
        &self,
        alloc: Global,
        harts: u32,
    ) -> Result<Result<ProgramState, SlowHart>, AllocError>
        requires { harts ≤ 8 }
        ensures stands { IfOk result (λ found. IfOk found (λ state.
            StandsFor self.now state (started self.now.table.start.program self.now.table.start.medium harts))) }
        ensures lists { IfOk result (λ found. IfOk found (HasLists self.now)) }
        ensures count { IfOk result (λ found. IfOk found (λ state. length state.harts.items ≡ harts)) }
    {
        let memory = self.first();
        let mut parts = Vec::with_capacity(alloc, harts as usize)?;
        for hart in 0..harts {
            let Some(part) = self.start_part(hart) else {
                return Ok(Err(SlowHart { hart }));
            };
            parts.push(part)?;
        }
        Ok(Ok(ProgramState {
            harts: parts,
            memory,
        }))
    }

    /// The part of a hart at the start; None where it makes too many steps up to its first request.
    fn start_part(&self, hart: u32) -> Option<HartPart>
        requires { hart < 8 }
        ensures { IfSome result (IsStartPart self.now hart) }
    {
        let mut state = HartState::start(hart);
        if let Next::TooLong = self.run_ahead(self.first(), &mut state) {
            return None;
        }
        Some(HartPart {
            state,
            reserved: None,
            text: 0,
        })
    }

    /// The number of the list that holds no line.
    fn first(&self) -> u32
        ensures number { result ≡ 0 }
        ensures list { slice_get self.now.lists 0 ≡ Some [] }
        ensures there { 0 < length self.now.lists }
    {
        // a look at the lists, for the first to be known
        let _ = &self.lists;
        0
    }

    /// The lists hold lines by the numbers of states that are there.
    pub(crate) fn lists_are_there(&self)
        ensures { AreLists self.now.table.states self.now.lists }
    {
        // a look at the lists, for what holds of them to be known
        let _ = &self.lists;
    }

    /// What comes of a state by the next request of a hart, and by those behind it that are the hart's own affair.
    pub fn after_request(
        &mut self,
        alloc: Global,
        state: &ProgramState,
        hart: u32,
    ) -> Result<Successor, AllocError>
        requires there { hart < length state.now.harts.items }
        requires few { length state.now.harts.items ≤ 8 }
        requires lists { HasLists self.old state.now }
        ensures turn { IfOk result (IsTurnOf self.old self.new state.now hart) }
        ensures asks { IfOk result (λ found. IfState found (λ next. IsAtRequest self.old state.now hart)) }
        ensures lists { IfOk result (λ found. IfState found (HasLists self.new)) }
        ensures harts { IfOk result (λ found. IfState found (λ next. HaveMoved hart state.now.harts.items next.harts.items)) }
        ensures grown { AreGrown self.old self.new }
    {
        match self.after_one(alloc, state, hart)? {
            Successor::State(next, mark) => match self.settled(alloc, next, hart)? {
                Some(settled) => Ok(Successor::State(settled, mark)),
                None => Ok(Successor::TooLong),
            },
            Successor::Stopped => Ok(Successor::Stopped),
            Successor::TooLong => Ok(Successor::TooLong),
            Successor::Claimed(line) => Ok(Successor::Claimed(line)),
        }
    }

    /// A state after the next requests of a hart that are its own affair; None where they are too many.
    fn settled(
        &mut self,
        alloc: Global,
        state: ProgramState,
        hart: u32,
    ) -> Result<Option<ProgramState>, AllocError>
        requires there { hart < length state.harts.items }
        requires few { length state.harts.items ≤ 8 }
        requires lists { HasLists self.old state }
        ensures settled { IfOk result (λ found. IfSome found (IsSettled self.old self.new state hart)) }
        ensures lists { IfOk result (λ found. IfSome found (HasLists self.new)) }
        ensures harts { IfOk result (λ found. IfSome found (λ next. HaveMoved hart state.harts.items next.harts.items)) }
        ensures grown { AreGrown self.old self.new }
    {
        let mut at = state;
        for _made in 0..MOST_STEPS {
            let Some(asking) = self.own_request(&at, hart) else {
                return Ok(Some(at));
            };
            let Successor::State(next, _mark) = self.serve(alloc, &at, &asking)? else {
                return Ok(None);
            };
            at = next;
        }
        Ok(None)
    }

    /// The next request of a hart of a state, where that is its own affair.
    fn own_request(&self, state: &ProgramState, hart: u32) -> Option<Asking>
        requires there { hart < length state.now.harts.items }
        requires few { length state.now.harts.items ≤ 8 }
        requires lists { HasLists self.now state.now }
        ensures { IfSome result (IsOwnRequest self.now state.now hart) }
    {
        if self.claims.is_empty() {
            return None;
        }
        let part = state.harts[hart as usize];
        match self.next_of(part.text, part.state)? {
            Next::Asks(instr, request) if is_local(self.claims, hart, request) => Some(Asking {
                hart,
                part,
                instr,
                request,
            }),
            _ => None,
        }
    }

    /// The next request of a hart of a state; None where it has stopped, or runs on for too long.
    pub fn request_of(&self, state: &ProgramState, hart: u32) -> Option<Request>
        requires there { hart < length state.now.harts.items }
        requires lists { HasLists self.now state.now }
    {
        let part = state.harts[hart as usize];
        match self.next_of(part.text, part.state)? {
            Next::Asks(_instr, request) => Some(request),
            Next::Stopped | Next::TooLong => None,
        }
    }

    /// What comes of a state by the next request of a hart alone.
    fn after_one(
        &mut self,
        alloc: Global,
        state: &ProgramState,
        hart: u32,
    ) -> Result<Successor, AllocError>
        requires there { hart < length state.now.harts.items }
        requires few { length state.now.harts.items ≤ 8 }
        requires lists { HasLists self.old state.now }
        ensures successor { IfOk result (IsSuccessor self.old self.new state.now hart) }
        ensures asks { IfOk result (λ found. IfState found (λ next. IsAtFitRequest self.old state.now hart)) }
        ensures lists { IfOk result (λ found. IfState found (HasLists self.new)) }
        ensures harts { IfOk result (λ found. IfState found (λ next. HaveMoved hart state.now.harts.items next.harts.items)) }
        ensures grown { AreGrown self.old self.new }
    {
        let part = state.harts[hart as usize];
        let Some(next) = self.next_of(part.text, part.state) else {
            return Ok(Successor::TooLong);
        };
        match next {
            Next::Asks(instr, request) => {
                if !keeps(self.claims, hart, request) {
                    return Ok(broken_by(request));
                }
                let asking = Asking {
                    hart,
                    part,
                    instr,
                    request,
                };
                self.serve(alloc, state, &asking)
            }
            Next::Stopped => Ok(Successor::Stopped),
            Next::TooLong => Ok(Successor::TooLong),
        }
    }

    /// What comes of a state by a request.
    #[tactic(auto, using(crate::proofs::Growing::grown_then, crate::proofs::Growing::there_still))]
    fn serve(
        &mut self,
        alloc: Global,
        state: &ProgramState,
        asking: &Asking,
    ) -> Result<Successor, AllocError>
        requires few { length state.now.harts.items ≤ 8 }
        requires lists { HasLists self.old state.now }
        requires asking { IsAskingOf self.old state.now asking.now }
        ensures successor { IfOk result (IsSuccessor self.old self.new state.now asking.now.hart) }
        ensures lists { IfOk result (λ found. IfState found (HasLists self.new)) }
        ensures harts { IfOk result (λ found. IfState found (λ next. HaveMoved asking.now.hart state.now.harts.items next.harts.items)) }
        ensures grown { AreGrown self.old self.new }
    {
        let (part, request) = (asking.part, asking.request);
        let (reply, lines) = self.memory_after(
            alloc,
            state.memory,
            asking.hart,
            part.reserved,
            request,
        )?;
        let text = self.text_after(alloc, part.text, request, &lines)?;
        let memory = self.number_of(lines)?;
        let mut own = part.state;
        resume(&mut own, asking.instr, reply);
        if let Next::TooLong = self.run_ahead(text, &mut own) {
            return Ok(Successor::TooLong);
        }
        let own = HartPart {
            state: own,
            reserved: reserved_after(part.reserved, true, request, reply),
            text,
        };
        let harts = harts_after(alloc, &state.harts, asking.hart, &own, request, reply)?;
        let mark = mark_of(asking.hart, request);
        Ok(Successor::State(ProgramState { harts, memory }, mark))
    }

    /// The number of a list of lines.
    pub(crate) fn number_of(&mut self, lines: Vec<HeldLine>) -> Result<u32, AllocError>
        requires below { AreBelow (length self.old.table.states) lines.items }
        ensures number { IfOk result (λ number. slice_get self.new.lists number ≡ Some lines.items) }
        ensures there { IfOk result (λ number. number < length self.new.lists) }
        ensures lists { AreLists self.new.table.states self.new.lists }
        ensures grown { AreGrown self.old self.new }
        ensures table { self.new.table ≡ self.old.table }
    {
        self.lists.number_of(lines)
    }

    /// What is next of a hart, which fetches from the text of the list of a number; None where it is a step of its registers alone.
    fn next_of(&self, text: u32, hart: HartState) -> Option<Next>
        requires { text < length self.now.lists }
        ensures { IfSome result (IsNext (text_of (memory_held self.now (slice_index_or self.now.lists text []))) hart) }
    {
        let text = HartText {
            parts: self,
            number: text,
        };
        next_of(&text, hart)
    }

    /// Runs a hart ahead, which fetches from the text of the list of a number.
    fn run_ahead(&self, text: u32, hart: &mut HartState) -> Next
        requires { text < length self.now.lists }
        ensures alone { ComesAlone (text_of (memory_held self.now (slice_index_or self.now.lists text []))) hart.old hart.new }
        ensures next { IsNext (text_of (memory_held self.now (slice_index_or self.now.lists text []))) hart.new result }
    {
        let text = HartText {
            parts: self,
            number: text,
        };
        run_ahead(&text, hart)
    }

    /// The reply to a request over the memory of a list, and the lines that are held after it.
    fn memory_after(
        &mut self,
        alloc: Global,
        memory: u32,
        hart: u32,
        reserved: Option<u64>,
        request: Request,
    ) -> Result<(Reply, Vec<HeldLine>), AllocError>
        requires there { memory < length self.old.lists }
        requires hart { hart < 8 }
        requires request { IsRequest request }
        ensures reply { IfOk result (λ found. found.0 ≡ replied (memory_held self.old (slice_index_or self.old.lists memory [])) (is_reserved reserved) request) }
        ensures lines { IfOk result (λ found. AreServed self.old self.new hart request found.0 (slice_index_or self.old.lists memory []) found.1.items) }
        ensures grown { AreGrown self.old self.new }
    {
        let held = self.lists.list(memory);
        let reply = reply_to(&self.lines.memory(held), reserved, request);
        let lines = self.lines.serve(alloc, held, hart, request, reply)?;
        Ok((reply, lines))
    }

    /// The number of the list with the text that a hart fetches after a request, where these lines are held.
    fn text_after(
        &mut self,
        alloc: Global,
        text: u32,
        request: Request,
        lines: &[HeldLine],
    ) -> Result<u32, AllocError>
        requires there { text < length self.old.lists }
        requires below { AreBelow (length self.old.table.states) lines.now }
        ensures text { IfOk result (IsTextAfter self.new request lines.now text) }
        ensures there { IfOk result (λ number. number < length self.new.lists) }
        ensures grown { AreGrown self.old self.new }
        ensures table { self.new.table ≡ self.old.table }
    {
        match request {
            Request::FenceI => {
                let low = text_lines(alloc, lines)?;
                self.lists.number_of(low)
            }
            _ => Ok(text),
        }
    }

    /// The memory of the list of a number.
    fn memory(&self, number: u32) -> StateMemory<'_, 'a>
        requires { number < length self.now.lists }
        ensures { result ≡ record { start = self.now.table.start; states = self.now.table.states; held = slice_index_or self.now.lists number [] } }
    {
        self.lines.memory(self.held(number))
    }

    /// The memory that holds these lines.
    pub fn memory_of<'b>(&'b self, held: &'b [HeldLine]) -> StateMemory<'b, 'a>
        requires { AreBelow (length self.now.table.states) held.now }
        ensures { result ≡ record { start = self.now.table.start; states = self.now.table.states; held = held.now } }
    {
        self.lines.memory(held)
    }

    /// How many states lines have come to have.
    pub(crate) fn line_states(&self) -> usize
        ensures { result ≡ length self.now.table.states }
    {
        self.lines.count()
    }

    /// Whether this is the number of a list.
    pub fn has_list(&self, number: u32) -> bool
        ensures { result ≡ true → number < length self.now.lists }
    {
        (number as usize) < self.lists.count()
    }

    /// The list of a number.
    pub fn held(&self, number: u32) -> &[HeldLine]
        requires { number < length self.now.lists }
        ensures found { slice_get self.now.lists number ≡ Some result.now }
        ensures below { AreBelow (length self.now.table.states) result.now }
    {
        self.lists.list(number)
    }

    /// How many bytes the states of lines and the lists hold.
    pub fn bytes(&self) -> u128
        ensures bytes { result ≡ line_bytes self.now.table.states + list_bytes self.now.lists }
        ensures few { result < 2 ^ 74 }
    {
        self.lines.bytes() + self.lists.bytes()
    }

    /// The instruction that the word at `pc` spells at the start, or the trap where there is none.
    fn starting_instruction(&self, pc: u64) -> Result<Instr, Trap>
        ensures instruction { IsInstruction (fetched (text_of (memory_at self.now.table.start)) pc) result }
        ensures first { slice_get self.now.lists 0 ≡ Some [] }
    {
        self.text.instruction(pc)
    }

    /// The word at `pc` of the text of the list of a number; None where it doesn't lie in the text region.
    #[tactic(auto, using(crate::proofs::Fetching::fetched_is))]
    fn word(&self, number: u32, pc: u64) -> Option<u32>
        requires { number < length self.now.lists }
        ensures { result ≡ fetched (text_of (memory_over self.now.table.states (slice_index_or self.now.lists number []) (memory_at self.now.table.start))) pc }
    {
        if pc < TEXT_BASE || pc > TEXT_BASE + TEXT_SIZE - 4 {
            return None;
        }
        let memory = self.memory(number);
        let first = u32::from(memory.byte(pc)?);
        let second = u32::from(memory.byte(pc + 1)?);
        let third = u32::from(memory.byte(pc + 2)?);
        let fourth = u32::from(memory.byte(pc + 3)?);
        Some(first + 256 * (second + 256 * (third + 256 * fourth)))
    }
}

/// What comes of a state by a request that breaks what is claimed of its line.
fn broken_by(request: Request) -> Successor
    ensures { IsUnknown result }
{
    match line_of(request) {
        Some(line) => Successor::Claimed(line),
        None => Successor::TooLong,
    }
}

/// This hart makes too many steps up to its first request.
#[derive(Clone, Copy, Debug, PartialEq, Eq)]
pub struct SlowHart {
    pub hart: u32,
}

/// A hart of a state at its next request.
#[derive(Clone, Copy, Debug, PartialEq, Eq)]
pub struct Asking {
    pub hart: u32,
    /// Its part of the state.
    pub part: HartPart,
    pub instr: Instr,
    pub request: Request,
}

/// The text of the list of a number, from which a hart fetches.
#[derive(Drop)]
pub struct HartText<'b, 'a> {
    parts: &'b Parts<'a>,
    number: u32,
    ghost there: { number < length parts.now.lists },
}

impl Text for HartText<'_, '_> {
    ghost use Rattle.machine.specs.Histories.{text_of};
    ghost use Rattle.schedule_states.specs.Memories.{memory_over};
    ghost use Rattle.schedule_states.specs.StartLines.{memory_at};
    ghost use Rattle.std.specs.Prelude.{slice_index_or, []};

    ghost bytes = { λ t. text_of (memory_over t.parts.now.table.states (slice_index_or t.parts.now.lists t.number []) (memory_at t.parts.now.table.start)) };

    fn instruction(&self, pc: u64) -> Result<Instr, Trap> {
        if self.number == 0 {
            self.parts.starting_instruction(pc)
        } else {
            instruction(self.parts.word(self.number, pc))
        }
    }
}
