//! A debugger: its points, what it shows, and single steps.

ghost use Rattle.std.specs.Prelude.{◌≡◌, ◌≤◌, ◌<◌, ◌+◌, ◌⊎◌, ◌↔◌, [], ◌∷◌, ◌++◌, None, IsSome, IsErr, IfOk, IfErr, OnOk, OnErr, false, true, length, slice_get};
ghost use Rattle.machine.specs.Outcomes.{MakesEvent, outcome_after};
ghost use Rattle.machine.specs.Refusals.{LacksHart};
ghost use Rattle.machine.specs.Represents.{Runs};
ghost use Rattle.machine.specs.SharedView.{memory_of};
ghost use Rattle.std.specs.List.{list_any};
ghost use Rattle.debugger.specs.Going.{RefusesStep};
ghost use Rattle.debugger.specs.Points.{can_break as can_break_at, has_break, has_watch, is_meant, line_start as start_of_line, with_break, with_watch, without};

use crate::fault::DebugFault;
use crate::points::{MAX_POINTS, Point, can_break, line_start};
use arrayvec::ArrayVec;
use hart::HartState;
use machine::{Machine, Outcome, Step, StepFault};
use std::marker::Model;
use store_trace::Event;

/// A machine, and the points at which it is to stop. It writes nothing into the machine's memory.
#[derive(Drop)]
pub struct Debugger {
    pub(crate) machine: Machine,
    pub(crate) points: ArrayVec<Point, MAX_POINTS>,
}

impl Model for Debugger {
    ghost use Rattle.debugger.specs.Points.{DebuggerView};

    ghost Value = { DebuggerView };

    ghost view = { λ d. record { machine = d.machine; points = d.points.items } };
}

impl Debugger {
    /// A debugger of a machine, without points.
    pub fn new(machine: Machine) -> Debugger
        ensures machine { result.machine ≡ machine }
        ensures points { result.points ≡ [] }
    {
        Debugger {
            machine,
            points: ArrayVec::new(),
        }
    }

    /// Sets a breakpoint. One that is set already takes no place.
    ///
    /// # Errors
    /// Address where no instruction of the text region may begin there; PointsFull where sixty-four points are set, and
    /// this is none of them.
    pub fn break_at(&mut self, address: u64) -> Result<(), DebugFault>
        ensures ok { OnOk result (self.new ≡ record self.old { points = with_break self.old.points address }) }
        ensures err { OnErr result (self.new ≡ self.old) }
        ensures address { (result ≡ Err DebugFault.Address) ↔ (can_break_at address ≡ false) }
        ensures full { (result ≡ Err DebugFault.PointsFull)
            ↔ ((can_break_at address ≡ true) × (has_break self.old.points address ≡ false) × (length self.old.points ≡ MAX_POINTS)) }
        ensures causes { IfErr result (λ fault. (fault ≡ DebugFault.Address) ⊎ (fault ≡ DebugFault.PointsFull)) }
        ensures limit { OnOk result (length self.new.points ≤ MAX_POINTS) }
    {
        if !can_break(address) {
            return Err(DebugFault::Address);
        }
        if self.has_break(address) {
            return Ok(());
        }
        self.set(Point::Break(address))
    }

    /// Watches the line of an address. One that is watched already takes no place.
    ///
    /// # Errors
    /// Address where the address lies in no region; PointsFull where sixty-four points are set, and this is none of them.
    pub fn watch_line(&mut self, address: u64) -> Result<(), DebugFault>
        ensures ok { OnOk result (self.new ≡ record self.old { points = with_watch self.old.points (start_of_line address) }) }
        ensures err { OnErr result (self.new ≡ self.old) }
        ensures address { (result ≡ Err DebugFault.Address) ↔ (memory_of self.old.machine.shared address ≡ None) }
        ensures full { (result ≡ Err DebugFault.PointsFull)
            ↔ (IsSome (memory_of self.old.machine.shared address) × (has_watch self.old.points (start_of_line address) ≡ false)
            × (length self.old.points ≡ MAX_POINTS)) }
        ensures causes { IfErr result (λ fault. (fault ≡ DebugFault.Address) ⊎ (fault ≡ DebugFault.PointsFull)) }
        ensures limit { OnOk result (length self.new.points ≤ MAX_POINTS) }
    {
        if self.peek(address).is_none() {
            return Err(DebugFault::Address);
        }
        let line = line_start(address);
        if self.has_watch(line) {
            return Ok(());
        }
        self.set(Point::Watch(line))
    }

    /// Takes the breakpoint at an address and the watch on its line away.
    ///
    /// # Errors
    /// Address where neither is set.
    pub fn clear(&mut self, address: u64) -> Result<(), DebugFault>
        ensures ok { OnOk result (self.new ≡ record self.old { points = without self.old.points address }) }
        ensures err { OnErr result (self.new ≡ self.old) }
        ensures address { (result ≡ Err DebugFault.Address) ↔ (list_any (is_meant address) self.old.points ≡ false) }
        ensures causes { IfErr result (λ fault. fault ≡ DebugFault.Address) }
    {
        if !self.has_meant(address) {
            return Err(DebugFault::Address);
        }
        remove_meant(&mut self.points, address);
        Ok(())
    }

    /// Makes one step of a hart, whatever points are set. A refused step changes nothing.
    pub fn step(&mut self, hart: u32) -> Result<Outcome, DebugFault>
        ensures ok { IfOk result (λ outcome.
            outcome ≡ outcome_after self.old.machine.harts self.new.machine.harts (Step.Hart hart)) }
        ensures runs { OnOk result (Runs self.old.machine self.new.machine (Step.Hart hart ∷ [])) }
        ensures points { self.new.points ≡ self.old.points }
        ensures err { OnErr result (self.new ≡ self.old) }
        ensures refused { IfErr result (RefusesStep self.old.machine (Step.Hart hart)) }
        ensures no_hart { (result ≡ Err (DebugFault.Step StepFault.NoSuchHart)) ↔ LacksHart self.old.machine (Step.Hart hart) }
        ensures full { (result ≡ Err (DebugFault.Step StepFault.TraceFull))
            ↔ (MakesEvent self.old.machine (Step.Hart hart) × (length self.old.machine.shared.trace ≡ 65536)) }
    {
        match self.machine.step(Step::Hart(hart)) {
            Ok(outcome) => Ok(outcome),
            Err(fault) => Err(DebugFault::Step(fault)),
        }
    }

    /// A hart's state. The only error is that there is no such hart.
    pub fn regs(&self, hart: u32) -> Result<&HartState, DebugFault>
        ensures ok { IfOk result (λ state. slice_get self.now.machine.harts hart ≡ Some state.now) }
        ensures no_hart { IsErr result ↔ (length self.now.machine.harts ≤ hart) }
        ensures err { IfErr result (λ fault. fault ≡ DebugFault.Step StepFault.NoSuchHart) }
    {
        if hart >= self.machine.harts() {
            return Err(DebugFault::Step(StepFault::NoSuchHart));
        }
        Ok(self.machine.hart(hart))
    }

    /// The byte of flat memory at an address; None outside the regions. Nothing changes.
    pub fn peek(&self, address: u64) -> Option<u8>
        ensures { result ≡ memory_of self.now.machine.shared address }
    {
        self.machine.peek(address)
    }

    /// The machine's events so far, the oldest first.
    pub(crate) fn events(&self) -> &[Event]
        ensures value { result.now ≡ self.now.machine.shared.trace }
        ensures limit { length self.now.machine.shared.trace ≤ 65536 }
    {
        self.machine.events()
    }

    pub(crate) fn has_break(&self, address: u64) -> bool
        ensures value { result ≡ has_break self.now.points address }
        ensures limit { length self.now.points ≤ MAX_POINTS }
    {
        self.points
            .as_slice()
            .iter()
            .any(|point| point.is_break(address))
    }

    pub(crate) fn has_watch(&self, line: u64) -> bool
        ensures value { result ≡ has_watch self.now.points line }
        ensures limit { length self.now.points ≤ MAX_POINTS }
    {
        self.points
            .as_slice()
            .iter()
            .any(|point| point.is_watch(line))
    }

    /// Whether the breakpoint at an address is set, or its line is watched.
    fn has_meant(&self, address: u64) -> bool
        ensures { result ≡ list_any (is_meant address) self.now.points }
    {
        self.points
            .as_slice()
            .iter()
            .any(|point| point.is_meant(address))
    }

    fn set(&mut self, point: Point) -> Result<(), DebugFault>
        ensures ok { OnOk result (self.new ≡ record self.old { points = self.old.points ++ point ∷ [] }) }
        ensures err { OnErr result (self.new ≡ self.old) }
        ensures full { IsErr result ↔ (length self.old.points ≡ MAX_POINTS) }
        ensures cause { IfErr result (λ fault. fault ≡ DebugFault.PointsFull) }
        ensures limit { length self.new.points ≤ MAX_POINTS }
    {
        match self.points.try_push(point) {
            Ok(()) => Ok(()),
            Err(_) => Err(DebugFault::PointsFull),
        }
    }
}

fn remove_meant(points: &mut ArrayVec<Point, MAX_POINTS>, address: u64)
    ensures { points.new.items ≡ without points.old.items address }
{
    points.retain(|point| !point.is_meant(address));
}
