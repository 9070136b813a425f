//! States that schedules lead to.

ghost use Rattle.std.specs.Prelude.{◌≡◌, ◌≢◌, ◌⊎◌, ◌++◌, ◌∷◌, ◌^◌, ◌<◌, ◌≤◌, ℕ, [], false, true, length, slice_get, slice_index_or, None, Some, IfNone, IfOk, IfSome};
ghost use Rattle.hart.specs.declared.state.Status.TheVariants.{Running};
ghost use Rattle.machine.specs.Run.{started};
ghost use Rattle.schedule_states.specs.Covering.{CoversAt, IsClosedAt, IsMet, PartsEndWell};
ghost use Rattle.schedule_states.specs.Numbers.{AreKept};
ghost use Rattle.schedule_states.specs.Ending.{AreTurnsAt, HavePartsStopped};
ghost use Rattle.schedule_states.specs.Happening.{AreLed, HasHappenedAt};
ghost use Rattle.schedule_states.specs.HeldLines.{AreBelow};
ghost use Rattle.schedule_states.specs.Judging.{IsGoodMoment, StaysGood};
ghost use Rattle.schedule_states.specs.Leads.{AreOfHarts};
ghost use Rattle.schedule_states.specs.Media.{AreOnMedium};
ghost use Rattle.schedule_states.specs.Onward.{AreAllKnown, AreLookedFrom, AreTurnsFrom, AreTurnsTo, HasParts, HasPlace, IsFoundOf, IsFoundTurn, IsKnownTurn, IsListedOf, IsPlaced, IsTurnOfParts, IsTurnTo, MayHaveOneMore, only, with_memory};
ghost use Rattle.schedule_states.specs.Reaching.{AreNumbered, AreNumbersBefore, AreNumbersOf, ArePartsOf, AreThere, HaveGrown, IsFirst, IsKeptOn, WereBefore};
ghost use Rattle.schedule_states.specs.Sizes.{reached_bytes};
ghost use Rattle.schedule_states.specs.States.{AreLists};
ghost use Rattle.schedule_states.specs.Successors.{HasLists};
ghost use Rattle.schedule_states.specs.Turns.{MayClaim, MayGo, MayNotGo};
ghost use Rattle.schedule_states.specs.declared.program_state.HartPart.{HartPart as AHartPart};
ghost use Rattle.schedule_states.specs.declared.program_state.ProgramState.{ProgramState as AProgramState};
ghost use Rattle.schedule_states.specs.declared.program_state.StateNumbers.{StateNumbers as SomeNumbers};

use crate::laws::{equal_numbers_are_same, equal_parts_are_same, equal_reserved_are_same};
use crate::leads::{Lead, Leads};
use crate::looked::{FoundTurn, ListedTurn, Looked};
use crate::moments::{Judged, Moment};
use crate::numbers::Numbers;
use crate::parts::{Parts, SlowHart};
use crate::program_state::{HartPart, ProgramState, StateNumbers};
use crate::state_images::StateImages;
use crate::state_judge::{StateJudge, StateVerdict};
use crate::successor::Successor;
use hart::Status;
use std::alloc::{AllocError, Global};
use std::marker::Model;
use std::thread::Threads;
use store_trace::Event;

/// States that schedules of one to eight harts lead to, each once, by its number. That of the start has the number 0.
#[derive(Drop)]
pub struct Reached<'a, J: StateJudge> {
    parts: Parts<'a>,
    hart_parts: Numbers<'a, HartPart>,
    /// What is kept of the operations.
    standings: Numbers<'a, J::Standing>,
    states: Numbers<'a, StateNumbers>,
    leads: Leads,
}

impl<'a, J: StateJudge> Model for Reached<'a, J> {
    ghost use Rattle.schedule_states.specs.Covering.{ReachedView};
    ghost use Rattle.schedule_states.specs.Reaching.{AreNumbered};

    ghost Value = { ReachedView J.Standing };

    ghost view = { λ r. record { parts = r.parts; hart_parts = r.hart_parts; standings = r.standings; states = r.states; harts = r.leads } };

    ghost invariant = { λ r. AreNumbered (record { parts = r.parts; hart_parts = r.hart_parts; standings = r.standings; states = r.states; harts = r.leads }) };
}

/// To what the turn of a hart leads from a state.
#[derive(Clone, Copy)]
pub enum Turn {
    /// The hart makes no request, or may make none.
    Stays,
    /// To a state that was reached, by its number.
    Reached(u32),
    /// To the state with parts of these numbers.
    Parts(StateNumbers),
}

/// The turns of harts 0 to 7 from a state; None where one isn't known.
pub type Turns = [Option<Turn>; 8];

/// Why a search goes no further from a state.
#[derive(Clone, Copy, Debug, PartialEq, Eq)]
pub enum Stop {
    /// An image of the state is bad.
    Bad,
    /// The images of the state can't be judged: recovery distinguishes too many of them, or a line has over 65,536 contents.
    TooManyBranches,
    /// The next request of this hart sets a mark of an operation that is at fault.
    Refused(u32),
    /// This hart has stopped as it may not.
    Ended(u32),
    /// This hart makes too many steps: at the start up to its first request, else up to the request behind its next one.
    TooLong(u32),
    /// A request breaks what is claimed of this line.
    Claimed(u64),
}

impl<'a, J: StateJudge> Reached<'a, J> {
    /// No state yet, of up to eight harts.
    pub fn with_none(alloc: Global, parts: Parts<'a>, harts: u32) -> Reached<'a, J>
        requires { harts ≤ 8 }
        ensures { result ≡ record { parts = parts.entry; hart_parts = []; standings = []; states = []; harts = harts } }
    {
        Reached {
            parts,
            hart_parts: Numbers::new(alloc),
            standings: Numbers::new(alloc),
            states: Numbers::new(alloc),
            leads: Leads::new(alloc, harts),
        }
    }

    /// Meets the state at the start, unless a hart makes too many steps up to its first request.
    pub fn meet_start(&mut self, alloc: Global, judge: &J) -> Result<Option<Stop>, AllocError>
        requires none { self.old.states ≡ [] }
        ensures start { IfOk result (λ stop. stop ≡ None → CoversAt (J.stands judge.now) self.new 0
            (started self.old.parts.table.start.program self.old.parts.table.start.medium self.old.harts)) }
        ensures led { IfOk result (λ stop. stop ≡ None → AreLed (J.stands judge.now) (J.allows judge.now) self.new) }
        ensures parts { self.new.parts ≡ self.old.parts }
        ensures harts { self.new.harts ≡ self.old.harts }
    {
        self.are_numbered();
        let start = match self.parts.start(alloc, self.leads.harts())? {
            Ok(start) => start,
            Err(SlowHart { hart }) => return Ok(Some(Stop::TooLong(hart))),
        };
        let standing = first_standing(alloc, judge, &mut self.standings)?;
        let none = Before {
            parts: &[],
            numbers: &[0; 8],
            moved: 0,
        };
        let numbers = self.numbers_for(&start, standing, none)?;
        self.number_of(numbers)?;
        Ok(None)
    }

    /// How many states were reached.
    pub fn count(&self) -> usize
        ensures { result ≡ length self.now.states }
    {
        self.states.as_slice().len()
    }

    /// How many bytes the tables hold, but for what is kept of the operations.
    pub fn bytes(&self) -> u128
        ensures bytes { result ≡ reached_bytes self.now }
        ensures few { result < 2 ^ 75 }
    {
        let states = 64 * self.count() as u128;
        let harts = 312 * self.hart_parts.count() as u128;
        states + harts + self.parts.bytes()
    }

    /// The numbers of the parts of a state, if it was reached.
    pub fn find(&self, number: u32) -> Option<StateNumbers>
        ensures found { IfSome result (λ numbers. (slice_get self.now.states number ≡ Some numbers) × AreThere self.now numbers) }
        ensures none { IfNone result (length self.now.states ≤ number) }
    {
        if number as usize >= self.count() {
            return None;
        }
        Some(self.numbers(number))
    }

    /// The numbers of the parts of a state.
    fn numbers(&self, number: u32) -> StateNumbers
        requires { number < length self.now.states }
        ensures found { slice_get self.now.states number ≡ Some result }
        ensures there { AreThere self.now result }
    {
        self.states.as_slice()[number as usize]
    }

    /// The state with parts of these numbers.
    fn state(&self, alloc: Global, numbers: &StateNumbers) -> Result<ProgramState, AllocError>
        requires { AreThere self.now numbers.now }
        ensures parts { IfOk result (λ state. ArePartsOf self.now numbers.now self.now.harts state.harts.items) }
        ensures memory { IfOk result (λ state. state.memory ≡ numbers.now.memory) }
    {
        let count = self.leads.harts();
        let mut harts = Vec::with_capacity(alloc, count as usize)?;
        for hart in 0..count {
            let part = self.part(numbers.harts[hart as usize]);
            harts.push(part)?;
        }
        Ok(ProgramState {
            harts,
            memory: numbers.memory,
        })
    }

    /// The part of a number.
    fn part(&self, number: u32) -> HartPart
        requires { number < length self.now.hart_parts }
        ensures { slice_get self.now.hart_parts number ≡ Some result }
    {
        self.hart_parts.as_slice()[number as usize]
    }

    /// Whether each hart of a state has stopped.
    pub fn has_stopped(&self, number: u32) -> bool
        requires { number < length self.now.states }
        ensures stopped { result ≡ true → (s : AProgramState) (t : J.Standing) → IsMet self.now number s t → HavePartsStopped s.harts.items }
        ensures running { result ≡ false → (s : AProgramState) (t : J.Standing) → IsMet self.now number s t → ¬ HavePartsStopped s.harts.items }
    {
        let numbers = self.numbers(number);
        for hart in 0..self.leads.harts() {
            let part = self.part(numbers.harts[hart as usize]);
            if is_running(part.state.status) {
                return false;
            }
        }
        true
    }

    /// What the states have in common.
    pub(crate) fn parts(&self) -> &Parts<'a>
        ensures { result.now ≡ self.now.parts }
    {
        &self.parts
    }

    /// Why the search goes no further by the images of a moment, whose memory is one of those that are judged; None where each is good.
    pub fn judge<T: Threads + Sync>(
        &self,
        rt: &T,
        judge: &J,
        judged: &Judged,
        workspace: &mut J::Workspace,
        moment: Moment,
    ) -> Result<Option<Stop>, AllocError>
        requires there { (moment.memory < length judged.now.media.lists) × (moment.standing < length self.now.standings) }
        requires below { AreOnMedium self.now.parts judged.now.media }
        requires fits { J.fits judge.now (length self.now.parts.table.start.medium) workspace.old }
        requires happens { HasHappenedAt (J.stands judge.now) (J.happens judge.now) self.now judged.now.media.lists moment.memory moment.standing }
        ensures fits { J.fits judge.now (length self.now.parts.table.start.medium) workspace.new }
        ensures good { IfOk result (λ stop. stop ≡ None →
            IsGoodMoment (J.stands judge.now) (J.good judge.now workspace.new) self.now judged.now.media.lists moment.memory moment.standing) }
        ensures kept { StaysGood (J.good judge.now workspace.old) (J.good judge.now workspace.new) }
    {
        let held = judged.media.list(moment.memory);
        let Some(images) = StateImages::new(self.parts.memory_of(held)) else {
            return Ok(Some(Stop::TooManyBranches));
        };
        let standing = &self.standings.as_slice()[moment.standing as usize];
        let verdict = judge.judge(rt, judged.alloc, workspace, &images, standing)?;
        Ok(stop_by(verdict))
    }

    /// The harts whose requests first led to the state of a number, in order.
    pub fn requests_to(&self, alloc: Global, number: u32) -> Result<Vec<u32>, AllocError>
        ensures { IfOk result (λ requests. AreOfHarts self.now.harts requests.items) }
    {
        self.leads.requests_to(alloc, number)
    }

    /// Goes on from a state, whose harts run or have stopped as they may, by the next request of each hart that may go: the states to which
    /// those lead, or the state itself for a hart that makes none. Turns that are known aren't looked for.
    pub fn go_on_all(
        &mut self,
        alloc: Global,
        judge: &J,
        number: u32,
        known: Option<&Looked>,
    ) -> Result<Result<[u32; 8], Stop>, AllocError>
        requires there { number < length self.old.states }
        requires claims { MayClaim (J.allows judge.now) self.old.parts.claims }
        requires known { IfSome known (λ looked. AreLookedFrom (J.stands judge.now) (J.allows judge.now) (J.ends judge.now) self.old number looked.now) }
        ensures closed { IfOk result (λ gone. IfOk gone (λ to. IsClosedAt (J.stands judge.now) (J.allows judge.now) (J.ends judge.now) self.new number)) }
        ensures turns { IfOk result (λ gone. IfOk gone (AreTurnsAt (J.stands judge.now) (J.allows judge.now) self.new number)) }
        ensures led { IfOk result (λ gone. IfOk gone (λ to. AreLed (J.stands judge.now) (J.allows judge.now) self.old →
            AreLed (J.stands judge.now) (J.allows judge.now) self.new)) }
        ensures still { (n : ℕ) → n < length self.old.states → IsClosedAt (J.stands judge.now) (J.allows judge.now) (J.ends judge.now) self.old n →
            IsClosedAt (J.stands judge.now) (J.allows judge.now) (J.ends judge.now) self.new n }
        ensures grown { HaveGrown self.old self.new }
        ensures before { AreNumbered self.old × AreLists self.old.parts.table.states self.old.parts.lists × WereBefore self.old.parts self.new.parts }
    {
        self.are_numbered();
        self.parts.lists_are_there();
        match self.turns_from(alloc, judge, number, known)? {
            Ok(turns) => Ok(Ok(self.take_all(judge, number, &turns)?)),
            Err(stop) => Ok(Err(stop)),
        }
    }

    /// To what the turns of the harts lead from a state: as far as it is known, and else by a look.
    fn turns_from(
        &mut self,
        alloc: Global,
        judge: &J,
        number: u32,
        known: Option<&Looked>,
    ) -> Result<Result<Turns, Stop>, AllocError>
        requires there { number < length self.old.states }
        requires claims { MayClaim (J.allows judge.now) self.old.parts.claims }
        requires known { IfSome known (λ looked. AreLookedFrom (J.stands judge.now) (J.allows judge.now) (J.ends judge.now) self.old number looked.now) }
        ensures turns { IfOk result (λ looked. IfOk looked (λ turns.
            AreTurnsFrom (J.stands judge.now) (J.allows judge.now) (J.ends judge.now) self.new number turns × AreAllKnown self.new.harts turns)) }
        ensures grown { HaveGrown self.old self.new }
        ensures before { WereBefore self.old.parts self.new.parts }
        ensures states { self.new.states ≡ self.old.states }
    {
        match known {
            Some(looked) => self.turns_after(alloc, judge, number, looked),
            None => self.look(alloc, judge, number, &[None; 8]),
        }
    }

    /// To what they lead, after a look that has found some of them.
    fn turns_after(
        &mut self,
        alloc: Global,
        judge: &J,
        number: u32,
        looked: &Looked,
    ) -> Result<Result<Turns, Stop>, AllocError>
        requires there { number < length self.old.states }
        requires claims { MayClaim (J.allows judge.now) self.old.parts.claims }
        requires looked { AreLookedFrom (J.stands judge.now) (J.allows judge.now) (J.ends judge.now) self.old number looked.now }
        ensures turns { IfOk result (λ gone. IfOk gone (λ turns.
            AreTurnsFrom (J.stands judge.now) (J.allows judge.now) (J.ends judge.now) self.new number turns × AreAllKnown self.new.harts turns)) }
        ensures grown { HaveGrown self.old self.new × WereBefore self.old.parts self.new.parts × (self.new.states ≡ self.old.states) }
    {
        let turns = self.numbered(alloc, judge, number, looked)?;
        if are_all_known(&turns, self.leads.harts()) {
            return Ok(Ok(turns));
        }
        self.look(alloc, judge, number, &turns)
    }

    /// The turns from the state of a number that a look has found, once each list among them has a number.
    fn numbered(
        &mut self,
        alloc: Global,
        judge: &J,
        number: u32,
        looked: &Looked,
    ) -> Result<Turns, AllocError>
        requires { AreLookedFrom (J.stands judge.now) (J.allows judge.now) (J.ends judge.now) self.old number looked.now }
        ensures turns { IfOk result (AreTurnsFrom (J.stands judge.now) (J.allows judge.now) (J.ends judge.now) self.new number) }
        ensures grown { HaveGrown self.old self.new × WereBefore self.old.parts self.new.parts × (self.new.states ≡ self.old.states) }
    {
        self.are_numbered();
        let mut turns = looked.turns;
        for listed in &looked.listed {
            let numbers = self.listed_numbers(alloc, listed)?;
            turns[listed.hart as usize] = Some(Turn::Parts(numbers));
        }
        Ok(turns)
    }

    /// The numbers of the parts to which such a turn leads, once its list has one.
    fn listed_numbers(
        &mut self,
        alloc: Global,
        listed: &ListedTurn,
    ) -> Result<StateNumbers, AllocError>
        requires below { AreBelow (length self.old.parts.table.states) listed.now.list.items }
        ensures numbers { IfOk result (λ numbers. (numbers ≡ with_memory listed.now.numbers numbers.memory)
            × (slice_get self.new.parts.lists numbers.memory ≡ Some listed.now.list.items)) }
        ensures grown { HaveGrown self.old self.new × WereBefore self.old.parts self.new.parts × (self.new.states ≡ self.old.states) }
    {
        self.parts.lists_are_there();
        let list = Vec::from_slice(alloc, &listed.list)?;
        let memory = self.parts.number_of(list)?;
        Ok(StateNumbers {
            memory,
            ..listed.numbers
        })
    }

    /// What is found of the turns of the harts at a state: of each that leads to a state of parts that have numbers already, but for its list of held
    /// lines. None where a hart has stopped as it may not, or memory is refused. Many may look at once.
    pub fn known_turns(&self, alloc: Global, judge: &J, number: u32) -> Option<Looked>
        requires there { number < length self.now.states }
        requires claims { MayClaim (J.allows judge.now) self.now.parts.claims }
        ensures { IfSome result (AreLookedFrom (J.stands judge.now) (J.allows judge.now) (J.ends judge.now) self.now number) }
    {
        self.are_numbered();
        let numbers = self.numbers(number);
        let Ok(state) = self.state(alloc, &numbers) else {
            return None;
        };
        if let Some(_hart) = ended_badly(judge, &state.harts) {
            return None;
        }
        let mut turns = [None; 8];
        let mut listed = Vec::new(alloc);
        let harts = self.leads.harts();
        for hart in 0..harts {
            match self.known_turn(alloc, judge, &state, &numbers, hart) {
                Some(FoundTurn::Known(turn)) => turns[hart as usize] = Some(turn),
                Some(FoundTurn::Listed(turn)) => listed.push(turn).ok()?,
                None => {}
            }
        }
        Some(Looked { turns, listed })
    }

    /// To what the turn of a hart leads from a state, whose parts have these numbers, where the parts of the next one have numbers, too, but for its
    /// list of held lines.
    fn known_turn(
        &self,
        alloc: Global,
        judge: &J,
        state: &ProgramState,
        numbers: &StateNumbers,
        hart: u32,
    ) -> Option<FoundTurn>
        requires there { hart < self.now.harts }
        requires parts { ArePartsOf self.now numbers.now self.now.harts state.now.harts.items }
        requires lists { HasLists self.now.parts state.now }
        requires standing { numbers.now.standing < length self.now.standings }
        requires claims { MayClaim (J.allows judge.now) self.now.parts.claims }
        ensures { IfSome result (λ found. (t : J.Standing) → slice_get self.now.standings numbers.now.standing ≡ Some t →
            IsFoundTurn (J.stands judge.now) (J.allows judge.now) self.now state.now t hart found) }
    {
        self.are_numbered();
        self.parts.lists_are_there();
        let mut lent = self.lent(alloc)?;
        match lent.turn(alloc, judge, state, numbers, hart) {
            Ok(Ok(next)) => self.found(alloc, hart, next, lent.parts()),
            _ => None,
        }
    }

    /// The same states, lent for a look: what has no number there gets none, as if memory were refused for it, but for lists of held lines. None
    /// where they are lent themselves.
    fn lent(&self, alloc: Global) -> Option<Reached<'_, J>>
        ensures { IfSome result (λ lent. lent ≡ self.now) }
    {
        Some(Reached {
            parts: self.parts.lent(alloc)?,
            hart_parts: self.hart_parts.lent(),
            standings: self.standings.lent(),
            states: self.states.lent(),
            leads: Leads::new(alloc, self.leads.harts()),
        })
    }

    /// What is found of the turn of a hart, where it leads to the state with parts of these numbers, if to one, by the lists of a look.
    fn found(
        &self,
        alloc: Global,
        hart: u32,
        next: Option<StateNumbers>,
        look: &Parts<'_>,
    ) -> Option<FoundTurn>
        requires few { hart < 8 }
        requires there { IfSome next (λ numbers. numbers.memory < length look.now.lists) }
        ensures { IfSome result (IsFoundOf self.now look.now hart next) }
    {
        if let Some(turn) = self.placed(next) {
            return Some(FoundTurn::Known(turn));
        }
        let listed = self.listed(alloc, hart, next?, look)?;
        Some(FoundTurn::Listed(listed))
    }

    /// A turn that leads to the state with parts of these numbers, whose list stands in the tables of a look; None where the others aren't those of
    /// parts that are there.
    fn listed(
        &self,
        alloc: Global,
        hart: u32,
        numbers: StateNumbers,
        look: &Parts<'_>,
    ) -> Option<ListedTurn>
        requires few { hart < 8 }
        requires there { numbers.memory < length look.now.lists }
        ensures { IfSome result (IsListedOf self.now look.now hart numbers) }
    {
        // A look finds no states of lines; only the comparison says so.
        if look.line_states() != self.parts.line_states() || !self.are_others_there(&numbers) {
            return None;
        }
        let list = Vec::from_slice(alloc, look.held(numbers.memory)).ok()?;
        Some(ListedTurn {
            hart,
            numbers,
            list,
        })
    }

    /// A turn that leads to the state with parts of these numbers, if it leads to one; None where they aren't those of parts that are there.
    fn placed(&self, next: Option<StateNumbers>) -> Option<Turn>
        ensures { IfSome result (IsPlaced self.now next) }
    {
        let Some(numbers) = next else {
            return Some(Turn::Stays);
        };
        if let Some(number) = self.reached_by(&numbers) {
            return Some(Turn::Reached(number));
        }
        if self.is_there(&numbers) {
            Some(Turn::Parts(numbers))
        } else {
            None
        }
    }

    /// The number of the state with parts of these numbers, if it was reached.
    fn reached_by(&self, numbers: &StateNumbers) -> Option<u32>
        ensures { IfSome result (λ number. slice_get self.now.states number ≡ Some numbers.now) }
    {
        equal_numbers_are_same();
        self.states.known(numbers)
    }

    /// Whether the numbers are those of parts that are there.
    fn is_there(&self, numbers: &StateNumbers) -> bool
        ensures { result ≡ true → AreThere self.now numbers.now }
    {
        self.parts.has_list(numbers.memory) && self.are_others_there(numbers)
    }

    /// Whether they are, but for that of the memory.
    fn are_others_there(&self, numbers: &StateNumbers) -> bool
        ensures { result ≡ true → (memory : ℕ) → memory < length self.now.parts.lists → AreThere self.now (with_memory numbers.now memory) }
    {
        if numbers.standing as usize >= self.standings.count() {
            return false;
        }
        let count = self.leads.harts();
        for hart in 0..count {
            if !self.is_part_there(numbers.harts[hart as usize]) {
                return false;
            }
        }
        true
    }

    /// Whether this is the number of a hart's part that is there, with its text.
    fn is_part_there(&self, number: u32) -> bool
        ensures { result ≡ true → (part : AHartPart) × (slice_get self.now.hart_parts number ≡ Some part) × (part.text < length self.now.parts.lists) }
    {
        match self.hart_parts.as_slice().get(number as usize) {
            Some(part) => self.parts.has_list(part.text),
            None => false,
        }
    }

    /// To what the turns of the harts lead from a state, whose harts run or have stopped as they may, up to one at which the search stops. Those
    /// that are known aren't looked for.
    fn look(
        &mut self,
        alloc: Global,
        judge: &J,
        number: u32,
        known: &Turns,
    ) -> Result<Result<Turns, Stop>, AllocError>
        requires there { number < length self.old.states }
        requires claims { MayClaim (J.allows judge.now) self.old.parts.claims }
        requires known { (s : AProgramState) (t : J.Standing) → IsMet self.old number s t →
            AreTurnsTo (J.stands judge.now) (J.allows judge.now) self.old s t self.old.harts known.now }
        ensures turns { IfOk result (λ looked. IfOk looked (λ turns.
            AreTurnsFrom (J.stands judge.now) (J.allows judge.now) (J.ends judge.now) self.new number turns × AreAllKnown self.new.harts turns)) }
        ensures grown { HaveGrown self.old self.new }
        ensures before { WereBefore self.old.parts self.new.parts }
        ensures states { self.new.states ≡ self.old.states }
    {
        self.are_numbered();
        self.parts.lists_are_there();
        let numbers = self.numbers(number);
        let state = self.state(alloc, &numbers)?;
        if let Some(hart) = ended_badly(judge, &state.harts) {
            return Ok(Err(Stop::Ended(hart)));
        }
        let from = From {
            state: &state,
            numbers: &numbers,
        };
        self.turns(alloc, judge, from, known)
    }

    /// Each state has the numbers of parts that are there.
    pub(crate) fn are_numbered(&self)
        ensures { AreNumbered self.now }
    {
        // a look at the states, for what holds of them to be known
        let _ = &self.states;
    }

    /// To what the turns of the harts lead from a state, whose parts have these numbers.
    fn turns(
        &mut self,
        alloc: Global,
        judge: &J,
        from: From<'_>,
        known: &Turns,
    ) -> Result<Result<Turns, Stop>, AllocError>
        requires parts { ArePartsOf self.old from.numbers.now self.old.harts from.state.now.harts.items × HasLists self.old.parts from.state.now }
        requires standing { from.numbers.now.standing < length self.old.standings }
        requires claims { MayClaim (J.allows judge.now) self.old.parts.claims }
        requires known { (t : J.Standing) → slice_get self.old.standings from.numbers.now.standing ≡ Some t →
            AreTurnsTo (J.stands judge.now) (J.allows judge.now) self.old from.state.now t self.old.harts known.now }
        ensures turns { IfOk result (λ looked. IfOk looked (λ turns. AreAllKnown self.new.harts turns
            × ((t : J.Standing) → slice_get self.old.standings from.entry.numbers.now.standing ≡ Some t →
            AreTurnsTo (J.stands judge.now) (J.allows judge.now) self.new from.entry.state.now t self.new.harts turns))) }
        ensures grown { HaveGrown self.old self.new × WereBefore self.old.parts self.new.parts × (self.new.states ≡ self.old.states) }
    {
        self.are_numbered();
        let mut turns = [None; 8];
        let harts = self.leads.harts();
        for hart in 0..harts {
            match self.turn_or(alloc, judge, from, known[hart as usize], hart)? {
                Ok(turn) => turns[hart as usize] = Some(turn),
                Err(stop) => return Ok(Err(stop)),
            }
        }
        Ok(Ok(turns))
    }

    /// To what the turn of a hart leads from a state, if it isn't known.
    fn turn_or(
        &mut self,
        alloc: Global,
        judge: &J,
        from: From<'_>,
        known: Option<Turn>,
        hart: u32,
    ) -> Result<Result<Turn, Stop>, AllocError>
        requires there { (hart < self.old.harts) × (from.numbers.now.standing < length self.old.standings) }
        requires parts { ArePartsOf self.old from.numbers.now self.old.harts from.state.now.harts.items × HasLists self.old.parts from.state.now }
        requires claims { MayClaim (J.allows judge.now) self.old.parts.claims }
        requires known { IfSome known (λ turn. (t : J.Standing) → slice_get self.old.standings from.numbers.now.standing ≡ Some t →
            IsKnownTurn (J.stands judge.now) (J.allows judge.now) self.old from.state.now t hart turn) }
        ensures turn { IfOk result (λ looked. IfOk looked (λ turn. (t : J.Standing) → slice_get self.old.standings from.entry.numbers.now.standing ≡ Some t →
            IsKnownTurn (J.stands judge.now) (J.allows judge.now) self.new from.entry.state.now t hart turn)) }
        ensures grown { HaveGrown self.old self.new × WereBefore self.old.parts self.new.parts × (self.new.states ≡ self.old.states) }
    {
        if let Some(turn) = known {
            return Ok(Ok(turn));
        }
        match self.turn(alloc, judge, from.state, from.numbers, hart)? {
            Ok(next) => Ok(Ok(turn_to(next))),
            Err(stop) => Ok(Err(stop)),
        }
    }

    /// The states to which the turns of the harts lead from the state of a number: that state itself for a hart that makes no request.
    fn take_all(&mut self, judge: &J, number: u32, turns: &Turns) -> Result<[u32; 8], AllocError>
        requires turns { AreTurnsFrom (J.stands judge.now) (J.allows judge.now) (J.ends judge.now) self.old number turns.now }
        requires all { AreAllKnown self.old.harts turns.now }
        ensures closed { IfOk result (λ to. IsClosedAt (J.stands judge.now) (J.allows judge.now) (J.ends judge.now) self.new number) }
        ensures turns { IfOk result (AreTurnsAt (J.stands judge.now) (J.allows judge.now) self.new number) }
        ensures led { IfOk result (λ to. AreLed (J.stands judge.now) (J.allows judge.now) self.old → AreLed (J.stands judge.now) (J.allows judge.now) self.new) }
        ensures grown { HaveGrown self.old self.new × (self.new.parts ≡ self.old.parts) }
    {
        self.are_numbered();
        let mut to = [number; 8];
        let harts = self.leads.harts();
        for hart in 0..harts {
            let turn = turns[hart as usize].unwrap();
            let next = self.take(turn)?;
            to[hart as usize] = next.unwrap_or(number);
            self.note(Lead { from: number, hart })?;
        }
        Ok(to)
    }

    /// The number of the state to which a turn leads, if it leads to one. It is a new one where the state wasn't reached yet.
    fn take(&mut self, turn: Turn) -> Result<Option<u32>, AllocError>
        requires there { HasParts self.old turn }
        ensures number { IfOk result (HasPlace self.new.states turn) }
        ensures more { MayHaveOneMore self.old.states self.new.states turn }
        ensures grown { HaveGrown self.old self.new }
        ensures parts { self.new.parts ≡ self.old.parts }
    {
        match turn {
            Turn::Stays => Ok(None),
            Turn::Reached(number) => Ok(Some(number)),
            Turn::Parts(numbers) => Ok(Some(self.number_of(numbers)?)),
        }
    }

    /// Whether a hart may go, where what has this number is kept.
    fn may_go(&self, judge: &J, standing: u32, hart: u32) -> bool
        requires { standing < length self.now.standings }
        ensures may { result ≡ true → (t : J.Standing) → slice_get self.now.standings standing ≡ Some t →
            MayGo (J.stands judge.now) (J.allows judge.now) t hart }
        ensures not { result ≡ false → (t : J.Standing) → slice_get self.now.standings standing ≡ Some t →
            MayNotGo (J.stands judge.now) (J.allows judge.now) t hart }
    {
        judge.may_go(&self.standings.as_slice()[standing as usize], hart)
    }

    /// To what the next request of a hart leads, if it may go, from a state, whose parts have these numbers; None where it makes no request.
    fn turn(
        &mut self,
        alloc: Global,
        judge: &J,
        state: &ProgramState,
        numbers: &StateNumbers,
        hart: u32,
    ) -> Result<Result<Option<StateNumbers>, Stop>, AllocError>
        requires there { hart < self.old.harts }
        requires parts { ArePartsOf self.old numbers.now self.old.harts state.now.harts.items }
        requires lists { HasLists self.old.parts state.now }
        requires standing { numbers.now.standing < length self.old.standings }
        requires claims { MayClaim (J.allows judge.now) self.old.parts.claims }
        ensures turn { IfOk result (λ looked. IfOk looked (λ next. (t : J.Standing) → slice_get self.old.standings numbers.now.standing ≡ Some t →
            IsTurnTo (J.stands judge.now) (J.allows judge.now) self.new state.now t hart next)) }
        ensures grown { HaveGrown self.old self.new }
        ensures before { WereBefore self.old.parts self.new.parts }
        ensures states { self.new.states ≡ self.old.states }
    {
        if !self.may_go(judge, numbers.standing, hart) {
            return Ok(Ok(None));
        }
        self.parts.lists_are_there();
        match self.parts.after_request(alloc, state, hart)? {
            Successor::State(next, mark) => {
                let known = &mut self.standings;
                let kept = numbers.standing;
                let Some(standing) = standing_after(alloc, judge, known, kept, mark)? else {
                    return Ok(Err(Stop::Refused(hart)));
                };
                let before = Before {
                    parts: &state.harts,
                    numbers: &numbers.harts,
                    moved: hart,
                };
                let to = self.numbers_for(&next, standing, before)?;
                Ok(Ok(Some(to)))
            }
            Successor::Stopped => Ok(Ok(None)),
            Successor::TooLong => Ok(Err(Stop::TooLong(hart))),
            Successor::Claimed(line) => Ok(Err(Stop::Claimed(line))),
        }
    }

    /// Notes what led to the last state, unless that was met before.
    fn note(&mut self, lead: Lead) -> Result<(), AllocError>
        requires { lead.hart < self.old.harts }
        ensures { self.new ≡ self.old }
    {
        self.leads.note(self.states.as_slice().len(), lead)
    }

    /// The numbers of the parts of a state.
    fn numbers_for(
        &mut self,
        state: &ProgramState,
        standing: u32,
        before: Before<'_>,
    ) -> Result<StateNumbers, AllocError>
        requires count { length state.now.harts.items ≡ self.old.harts }
        requires lists { HasLists self.old.parts state.now }
        requires standing { standing < length self.old.standings }
        requires before { AreNumbersBefore self.old.hart_parts before.parts.now before.numbers.now before.moved state.now.harts.items }
        ensures met { IfOk result (λ numbers. (t : J.Standing) → slice_get self.old.standings standing ≡ Some t → IsMet (only self.new numbers) 0 state.now t) }
        ensures there { IfOk result (AreThere self.new) }
        ensures grown { HaveGrown self.old self.new }
        ensures states { self.new.states ≡ self.old.states }
        ensures parts { self.new.parts ≡ self.old.parts }
        ensures standings { self.new.standings ≡ self.old.standings }
    {
        let harts = numbers_of(&mut self.hart_parts, &state.harts, before)?;
        Ok(StateNumbers {
            harts,
            memory: state.memory,
            standing,
        })
    }

    /// The number of the state with parts of these numbers, which is a new one where it wasn't reached yet.
    fn number_of(&mut self, numbers: StateNumbers) -> Result<u32, AllocError>
        requires there { AreThere self.old numbers }
        ensures number { IfOk result (λ number. slice_get self.new.states number ≡ Some numbers) }
        ensures more { (self.new.states ≡ self.old.states) ⊎ (self.new.states ≡ self.old.states ++ numbers ∷ []) }
        ensures grown { HaveGrown self.old self.new }
        ensures parts { self.new.parts ≡ self.old.parts }
        ensures standings { self.new.standings ≡ self.old.standings }
    {
        equal_numbers_are_same();
        self.states.number_of(numbers)
    }
}

/// A state, and the numbers of its parts.
#[derive(Clone, Copy)]
struct From<'s> {
    state: &'s ProgramState,
    numbers: &'s StateNumbers,
}

/// A turn that leads to the state with parts of these numbers, if it leads to one.
fn turn_to(next: Option<StateNumbers>) -> Turn
    ensures { IsTurnOfParts next result }
{
    match next {
        Some(numbers) => Turn::Parts(numbers),
        None => Turn::Stays,
    }
}

/// Whether the turns of the first harts are known.
fn are_all_known(turns: &Turns, harts: u32) -> bool
    requires { harts ≤ 8 }
    ensures { result ≡ true → AreAllKnown harts turns.now }
{
    for hart in 0..harts {
        if turns[hart as usize].is_none() {
            return false;
        }
    }
    true
}

/// Why the search goes no further from a state by what a judge says of it.
fn stop_by(verdict: StateVerdict) -> Option<Stop>
    ensures { IfNone result (verdict ≡ StateVerdict.Good) }
{
    match verdict {
        StateVerdict::Good => None,
        StateVerdict::Bad => Some(Stop::Bad),
        StateVerdict::TooManyBranches => Some(Stop::TooManyBranches),
    }
}

/// The first hart that has stopped as it may not.
fn ended_badly<J: StateJudge>(judge: &J, parts: &[HartPart]) -> Option<u32>
    requires { length parts.now ≤ 8 }
    ensures { IfNone result (PartsEndWell (J.ends judge.now) parts.now) }
{
    for hart in 0..parts.len() {
        if !is_well(judge, parts[hart].state.status) {
            return Some(hart as u32);
        }
    }
    None
}

/// Whether a hart runs.
fn is_running(status: Status) -> bool
    ensures yes { result ≡ true → status ≡ Running }
    ensures no { result ≡ false → status ≢ Running }
{
    match status {
        Status::Running => true,
        Status::Exited(_) | Status::Trapped(_) => false,
    }
}

/// Whether a hart runs, or has stopped as it may.
fn is_well<J: StateJudge>(judge: &J, status: Status) -> bool
    ensures { result ≡ true → status ≢ Running → J.ends judge.now status }
{
    match status {
        Status::Running => true,
        Status::Exited(_) | Status::Trapped(_) => judge.may_end(status),
    }
}

/// The number of what is kept of the operations before any event.
fn first_standing<J: StateJudge>(
    alloc: Global,
    judge: &J,
    known: &mut Numbers<'_, J::Standing>,
) -> Result<u32, AllocError>
    ensures kept { AreKept known.old known.new }
    ensures first { IfOk result (IsFirst (J.stands judge.now) known.new) }
{
    let standing = judge.start(alloc)?;
    known.number_of(standing)
}

/// The number of what is kept of the operations after a mark, if one was set; None where the mark is at fault.
fn standing_after<J: StateJudge>(
    alloc: Global,
    judge: &J,
    known: &mut Numbers<'_, J::Standing>,
    standing: u32,
    mark: Option<Event>,
) -> Result<Option<u32>, AllocError>
    requires { standing < length known.old }
    ensures kept { AreKept known.old known.new }
    ensures after { IfOk result (λ found. IfSome found (IsKeptOn (J.stands judge.now) known.old known.new standing mark)) }
    ensures there { IfOk result (λ found. IfSome found (λ number. number < length known.new)) }
{
    let Some(mark) = mark else {
        return Ok(Some(standing));
    };
    match judge.after(alloc, &known.as_slice()[standing as usize], mark)? {
        Some(next) => Ok(Some(known.number_of(next)?)),
        None => Ok(None),
    }
}

/// The parts of harts in the state of before, their numbers, and the hart that has moved since.
#[derive(Clone, Copy)]
struct Before<'b> {
    parts: &'b [HartPart],
    numbers: &'b [u32; 8],
    moved: u32,
}

/// The numbers of parts of harts, and zero behind them.
fn numbers_of(
    known: &mut Numbers<'_, HartPart>,
    parts: &[HartPart],
    before: Before<'_>,
) -> Result<[u32; 8], AllocError>
    requires few { length parts.now ≤ 8 }
    requires before { AreNumbersBefore known.old before.parts.now before.numbers.now before.moved parts.now }
    ensures kept { AreKept known.old known.new }
    ensures numbers { IfOk result (λ numbers. AreNumbersOf known.new parts.now (length parts.now) numbers) }
{
    let mut numbers = [0; 8];
    for hart in 0..parts.len() {
        numbers[hart] = number_at(known, parts[hart], before, hart)?;
    }
    Ok(numbers)
}

/// The number of a hart's part, which is that of before where another hart has moved and this one has reserved the same line.
fn number_at(
    known: &mut Numbers<'_, HartPart>,
    part: HartPart,
    before: Before<'_>,
    hart: usize,
) -> Result<u32, AllocError>
    requires few { hart < 8 }
    requires before { AreNumbersOf known.old before.parts.now (length before.parts.now) before.numbers.now }
    requires alike { (was : AHartPart) → slice_get before.parts.now hart ≡ Some was → hart ≢ before.moved → (part.state ≡ was.state) × (part.text ≡ was.text) }
    ensures kept { AreKept known.old known.new }
    ensures number { IfOk result (λ number. slice_get known.new number ≡ Some part) }
{
    if hart < before.parts.len() && hart != before.moved as usize {
        equal_reserved_are_same();
        if before.parts[hart].reserved == part.reserved {
            return Ok(before.numbers[hart]);
        }
    }
    equal_parts_are_same();
    known.number_of(part)
}
