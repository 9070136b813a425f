//! The schedule of what seats have made, and the numbers of its events.

ghost use Rattle.std.specs.Prelude.{◌≡◌, ◌+◌, ◌++◌, [], IfErr, OnOk, map, replicate};
ghost use Rattle.machine.specs.Steps.{all_steps};
ghost use Rattle.machine.specs.declared.schedule.items.Step.{Step};
ghost use Rattle.machine.specs.Replies.{events_of};
ghost use Rattle.store_trace.specs.declared.event.Event.{Event};
ghost use Rattle.bus.specs.Listed.{EvictsAlso, in_word};

use crate::events::makes_event;
use crate::finish_fault::FinishFault;
use hart::{Reply, Request};
use machine::{Item, Schedule};
use std::alloc::Global;

/// A schedule that grows, and the numbers of its events.
#[derive(Drop)]
pub(crate) struct Runs {
    schedule: Schedule,
    /// How many hart steps there are. Seats make fewer than 2^32 together, so that it doesn't wrap.
    made: u32,
    /// For each event the number of hart steps through its own.
    numbers: Vec<u32>,
}

impl Runs {
    pub(crate) fn new(alloc: Global) -> Runs
        ensures schedule { result.schedule ≡ [] }
        ensures made { result.made ≡ 0 }
        ensures numbers { result.numbers.items ≡ [] }
    {
        Runs {
            schedule: Schedule::new(alloc),
            made: 0,
            numbers: Vec::new(alloc),
        }
    }

    /// Adds so many steps of a hart.
    pub(crate) fn add(&mut self, hart: u32, count: u32) -> Result<(), FinishFault>
        ensures ok { OnOk result (all_steps self.new.schedule ≡ all_steps self.old.schedule ++ replicate count (Step.Hart hart)) }
        ensures made { OnOk result (self.new.made ≡ in_word (self.old.made + count)) }
        ensures numbers { OnOk result (self.new.numbers.items ≡ self.old.numbers.items) }
        ensures err { IfErr result (λ fault. fault ≡ FinishFault.Memory) }
    {
        self.made = self.made.wrapping_add(count);
        self.schedule
            .push_steps(hart, count)
            .map_err(|_| FinishFault::Memory)
    }

    /// Adds the number of the last step where a request with this reply makes an event.
    pub(crate) fn number(
        &mut self,
        hart: u32,
        request: Request,
        reply: Reply,
    ) -> Result<(), FinishFault>
        ensures ok { OnOk result (self.new.numbers.items ≡ self.old.numbers.items
            ++ map (λ (event : Event). self.old.made) (events_of hart request reply)) }
        ensures schedule { OnOk result (self.new.schedule ≡ self.old.schedule) }
        ensures made { OnOk result (self.new.made ≡ self.old.made) }
        ensures err { IfErr result (λ fault. fault ≡ FinishFault.Memory) }
    {
        if !makes_event(request, reply) {
            return Ok(());
        }
        match self.numbers.push(self.made) {
            Ok(()) => Ok(()),
            Err(_) => Err(FinishFault::Memory),
        }
    }

    /// Adds the eviction of a line.
    pub(crate) fn evict(&mut self, line: u32) -> Result<(), FinishFault>
        ensures ok { OnOk result (EvictsAlso line self.old self.new) }
        ensures err { IfErr result (λ fault. fault ≡ FinishFault.Memory) }
    {
        self.schedule
            .push(Item::Evict { line })
            .map_err(|_| FinishFault::Memory)
    }

    /// All of them as a schedule, and the numbers.
    pub(crate) fn finish(self) -> (Schedule, Vec<u32>)
        ensures schedule { result.0 ≡ self.schedule }
        ensures numbers { result.1.items ≡ self.numbers.items }
    {
        let Runs {
            schedule,
            numbers,
            ..
        } = self;
        (schedule, numbers)
    }
}
