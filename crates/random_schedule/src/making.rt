//! A machine that makes the steps of a draw.

ghost use Rattle.random_schedule.specs.Drawing.{StopsDrawing, drawn_steps};
ghost use Rattle.random_schedule.specs.Interleaves.{running};
ghost use Rattle.random_schedule.specs.Making.{Agrees, Continues, HasDrawn, HasTaken, IsHeld, IsHeldAmong, MakesSteps, line_at, with_store};
ghost use Rattle.random_schedule.specs.SplitMix.{next_state};
ghost use Rattle.machine.specs.Run.{Config};
ghost use Rattle.machine.specs.Represents.{IsRunning, Runs, Represents};
ghost use Rattle.machine.specs.Grammar.{hart_steps};
ghost use Rattle.std.specs.List.Sorted.{IsNonDecreasingBy};
ghost use Rattle.std.specs.List.{list_any};
ghost use Rattle.std.specs.Prelude.{◌≡◌, ◌==◌, ◌⊎◌, ◌+◌, ◌^◌, ◌<◌, ◌≤◌, ℕ, [], ◌∷◌, All, IfErr, IfOk, OnOk, length, slice_get};

use crate::evictions::FirstStore;
use crate::fault::InterleaveFault;
use crate::harts::draw_hart;
use crate::numbers::Numbers;
use machine::{Machine, Schedule, Step, StepFault};
use std::alloc::{AllocError, Global};
use std::marker::Model;
use store_trace::Event;

/// A machine that makes the steps of a draw, the schedule of those that were made, and the first stores among them.
#[derive(Drop)]
pub struct Making {
    machine: Machine,
    schedule: Schedule,
    /// How many steps were made.
    made: u32,
    stores: Vec<FirstStore>,
}

impl Model for Making {
    ghost use Rattle.random_schedule.specs.Making.{MakingView};

    ghost Value = { MakingView };

    ghost view = { λ m. record { machine = m.machine; items = m.schedule; made = m.made; stores = m.stores.items } };
}

/// What was made: a schedule, how many steps it has, and the first stores among them.
#[derive(Drop)]
pub struct Made {
    pub(crate) schedule: Schedule,
    pub(crate) steps: u32,
    pub(crate) stores: Vec<FirstStore>,
}

/// Makes the turns that are drawn, until no hart runs or `limit` steps are made.
pub(crate) fn make_all(
    alloc: Global,
    machine: Machine,
    numbers: &mut Numbers,
    limit: u32,
) -> Result<Made, InterleaveFault>
    requires { machine.shared.trace ≡ [] }
    ensures made { IfOk result (λ made. (c : Config) → Represents machine c →
        HasDrawn c numbers.old limit made.schedule made.steps made.stores.items numbers.new) }
    ensures count { IfOk result (λ made. hart_steps made.schedule ≡ made.steps) }
    ensures limit { IfOk result (λ made. made.steps ≤ limit) }
    ensures ascending { IfOk result (λ made. IsNonDecreasingBy (λ store. store.step) made.stores.items) }
    ensures within { IfOk result (λ made. All (λ store. store.step ≤ made.steps) made.stores.items) }
    ensures err { IfErr result (λ fault. (c : Config) → Represents machine c → StopsDrawing c numbers.old limit fault) }
{
    let mut making = Making::new(alloc, machine);
    match making.take_turns(numbers, limit) {
        Ok(()) => Ok(making.finish()),
        Err(fault) => Err(fault),
    }
}

impl Making {
    fn new(alloc: Global, machine: Machine) -> Making
        ensures { result ≡ record { machine = machine; items = []; made = 0; stores = [] } }
    {
        Making {
            machine,
            schedule: Schedule::new(alloc),
            made: 0,
            stores: Vec::new(alloc),
        }
    }

    /// What was made, without the machine.
    fn finish(self) -> Made
        ensures schedule { result.schedule ≡ self.items }
        ensures steps { result.steps ≡ self.made }
        ensures stores { result.stores.items ≡ self.stores }
    {
        let Making {
            schedule,
            made,
            stores,
            ..
        } = self;
        Made {
            schedule,
            steps: made,
            stores,
        }
    }

    /// Takes turns until no hart runs or `limit` steps are made.
    fn take_turns(&mut self, numbers: &mut Numbers, limit: u32) -> Result<(), InterleaveFault>
        requires { self.old.made ≤ limit }
        ensures taken { OnOk result ((c : Config) (seed : ℕ) → HasTaken c seed limit self.old numbers.old →
            HasTaken c seed limit self.new numbers.new) }
        ensures limit { OnOk result (self.new.made ≤ limit) }
        ensures agrees { OnOk result (Agrees self.old → Agrees self.new) }
        ensures over { OnOk result ((running self.new.machine.harts ≡ []) ⊎ (self.new.made ≡ limit)) }
        ensures err { IfErr result (λ fault. (c : Config) (seed : ℕ) → HasTaken c seed limit self.old numbers.old →
            StopsDrawing c seed limit fault) }
    {
        while self.made < limit {
            let Some(hart) = draw_hart(&self.machine, numbers) else {
                return Ok(());
            };
            let count = draw_count(numbers, limit - self.made);
            self.make_steps(hart, count)?;
        }
        Ok(())
    }

    /// Makes steps of a hart that runs, up to the one that stops it.
    fn make_steps(&mut self, hart: u32, count: u32) -> Result<(), InterleaveFault>
        requires running { IsRunning (slice_get self.old.machine.harts hart) }
        requires some { 0 < count }
        requires within { self.old.made + count < 2 ^ 32 }
        ensures ok { OnOk result (MakesSteps self.old self.new hart count) }
        ensures err { IfErr result (IsHeldAmong self.old hart count) }
    {
        for _done in 0..count {
            self.make_step(hart)?;
            if self.machine.has_stopped(hart) {
                return Ok(());
            }
        }
        Ok(())
    }

    fn make_step(&mut self, hart: u32) -> Result<(), InterleaveFault>
        requires running { IsRunning (slice_get self.old.machine.harts hart) }
        requires within { self.old.made + 1 < 2 ^ 32 }
        ensures ok { OnOk result (Continues self.old self.new (Step.Hart hart ∷ [])) }
        ensures made { OnOk result (self.new.made ≡ self.old.made + 1) }
        ensures there { OnOk result (hart < length self.new.machine.harts) }
        ensures err { IfErr result (IsHeld self.old.machine hart) }
    {
        let before = self.machine.events().len();
        step(&mut self.machine, hart)?;
        self.schedule.push_step(hart)?;
        self.made += 1;
        let line = stored_line(self.machine.events(), before);
        note_store(&mut self.stores, self.made, line)?;
        Ok(())
    }
}

/// Draws how many steps a turn has, of `left` that may be made.
fn draw_count(numbers: &mut Numbers, left: u32) -> u32
    requires { 0 < left }
    ensures count { result ≡ drawn_steps numbers.old left }
    ensures some { 0 < result }
    ensures within { result ≤ left }
    ensures state { numbers.new ≡ next_state numbers.old }
{
    let count = 1 + numbers.below(16) as u32;
    count.min(left)
}

/// Makes the next instruction of a hart that runs.
fn step(machine: &mut Machine, hart: u32) -> Result<(), InterleaveFault>
    requires { IsRunning (slice_get machine.old.harts hart) }
    ensures runs { OnOk result (Runs machine.old machine.new (Step.Hart hart ∷ [])) }
    ensures there { OnOk result (hart < length machine.new.harts) }
    ensures limit { length machine.new.shared.trace ≤ 65536 }
    ensures err { IfErr result (IsHeld machine.old hart) }
{
    prove!(machine.harts() <= 8);
    match machine.step(Step::Hart(hart)) {
        Ok(_) => Ok(()),
        Err(StepFault::TraceFull) => Err(InterleaveFault::TraceFull),
        Err(StepFault::Memory) => Err(InterleaveFault::Memory),
        Err(_) => unreachable!(),
    }
}

/// The line that the event at a place stores to, if there is one and it does.
fn stored_line(events: &[Event], place: usize) -> Option<u32>
    ensures { result ≡ line_at (slice_get events.now place) }
{
    match events.get(place) {
        Some(Event::Store { line, .. }) => Some(*line),
        _ => None,
    }
}

/// Adds the first store to a line, unless there was one to it.
fn note_store(stores: &mut Vec<FirstStore>, step: u32, line: Option<u32>) -> Result<(), AllocError>
    ensures { OnOk result (stores.new.items ≡ with_store step stores.old.items line) }
{
    let Some(line) = line else {
        return Ok(());
    };
    if has_store(stores, line) {
        return Ok(());
    }
    stores.push(FirstStore { step, line })?;
    Ok(())
}

fn has_store(stores: &[FirstStore], line: u32) -> bool
    ensures { result ≡ list_any (λ store. store.line == line) stores.now }
{
    stores.iter().any(|store| store.line == line)
}
