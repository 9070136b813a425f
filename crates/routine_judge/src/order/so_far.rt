//! The precedence of a run's first events, as it goes on.

ghost use Rattle.routine_judge.specs.Order.{AreOrdered, AreSoundByHart, HasHartFault};
ghost use Rattle.routine_judge.specs.Standing.{IsOrderOf};
ghost use Rattle.routine_judge.specs.declared.history.fault.MarkFault.{MarkFault as AFault};
ghost use Rattle.std.specs.Prelude.{◌≡◌, ◌≤◌, List, [], ◌∷◌, ◌++◌, false, length, None, OnErr, OnOk};
ghost use Rattle.store_trace.specs.Marks.{begun_by, ended_by};
ghost use Rattle.store_trace.specs.declared.event.Event.{Event as AnEvent};

use crate::order::{Precedence, precedences_stand};
use std::alloc::{AllocError, Global};
use store_trace::Event;

/// The precedence of so many first events of a run.
#[derive(Drop)]
pub struct OrderSoFar {
    pub(crate) precedence: Precedence,
    /// How many events those are.
    pub(crate) count: usize,
}

impl OrderSoFar {
    /// Of no event.
    pub fn none(alloc: Global) -> OrderSoFar
        ensures count { result.count ≡ 0 }
        ensures order { (events : List AnEvent) → IsOrderOf events result }
    {
        OrderSoFar {
            precedence: Precedence::none(alloc),
            count: 0,
        }
    }

    /// Makes it that of the first `count` events of a run, whose marks are right.
    ///
    /// # Errors
    /// A growth was refused. It is then that of fewer events.
    pub fn reach(&mut self, alloc: Global, events: &[Event], count: usize) -> Result<(), AllocError>
        requires order { IsOrderOf events.now self.old }
        requires there { count ≤ length events.now }
        requires sound { AreSoundByHart events.now (length events.now) }
        ensures count { OnOk result (self.new.count ≡ count) }
        ensures order { IsOrderOf events.now self.new }
    {
        self.go_back(alloc, count);
        let first = self.count;
        for at in first..count {
            self.take_in(alloc, events[at])?;
            self.count = at + 1;
        }
        Ok(())
    }

    /// Makes it that of no event where it is one of more events than these.
    fn go_back(&mut self, alloc: Global, count: usize)
        ensures count { self.new.count ≤ count }
        ensures order { (events : List AnEvent) → IsOrderOf events self.old → IsOrderOf events self.new }
    {
        if self.count <= count {
            return;
        }
        *self = OrderSoFar::none(alloc);
    }

    /// Takes an event more into the precedence, which counts where it has no fault.
    fn take_in(&mut self, alloc: Global, event: Event) -> Result<(), AllocError>
        ensures ordered { OnOk result ((events : List AnEvent) → AreOrdered events self.old.precedence → ((fault : AFault) → ¬ HasHartFault events event fault) →
            AreOrdered (events ++ event ∷ []) self.new.precedence) }
        ensures count { self.new.count ≡ self.old.count }
        ensures err { OnErr result (self.new.precedence ≡ self.old.precedence) }
    {
        precedences_stand();
        if !is_mark(event) {
            return Ok(());
        }
        match self.precedence.after(alloc, event)? {
            Ok(next) => {
                self.precedence = next;
                Ok(())
            }
            // the event has a fault
            Err(_) => Ok(()),
        }
    }
}

/// Whether the event begins or ends an operation.
fn is_mark(event: Event) -> bool
    ensures begins { result ≡ false → begun_by event ≡ None }
    ensures ends { result ≡ false → ended_by event ≡ None }
{
    match event {
        Event::Begin { .. } | Event::End { .. } => true,
        Event::Store { .. } | Event::Clean { .. } | Event::Fence { .. } => false,
    }
}
