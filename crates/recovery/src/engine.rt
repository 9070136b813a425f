//! A routine under way over an image: its hart, the text that it fetches, and what it has round it.

ghost use Rattle.std.specs.Prelude.{◌≡◌, ◌<◌, ◌≤◌, Bool, IfOk, OnErr};
ghost use Rattle.hart.specs.Requests.{IsRequest};
ghost use Rattle.hart.specs.declared.state.Status.{Status};
ghost use Rattle.recovery.specs.Held.{IsOver};
ghost use Rattle.machine.specs.Stops.{has_stopped};
ghost use Rattle.recovery.specs.Engine.{Goes, IsAsked, IsKept, Runs};

use crate::fetched::FetchedText;
use crate::overlay::Source;
use crate::world::{Served, World};
use hart::{Advance, HartState, Request, Status, advance, resume};
use isa_table::Instr;
use std::alloc::AllocError;

/// A routine under way.
#[derive(Drop)]
pub struct Engine {
    pub world: World,
    pub text: FetchedText,
    pub hart: HartState,
}

impl Engine {
    /// Runs for so many steps at most; whether it ended before a step that would make one event too many.
    pub fn run<S: Source>(&mut self, image: &S, steps: u32) -> Result<bool, AllocError>
        requires over { IsOver self.old.world.held.image (S.medium image.now) }
        ensures ok { IfOk result (λ full. Runs self.old self.new (S.medium image.now) steps full) }
        ensures over { IsOver self.new.world.held.image (S.medium image.now) }
        ensures kept { IsKept self.old self.new }
    {
        for _ in 0..steps {
            if self.has_stopped() {
                // A hart that stopped changes nothing by the steps that are left.
                return Ok(false);
            }
            if !self.step(image)? {
                return Ok(true);
            }
        }
        Ok(false)
    }

    fn has_stopped(&self) -> bool
        ensures { result ≡ has_stopped self.now.hart.status }
    {
        match self.hart.status {
            Status::Running => false,
            Status::Exited(_) | Status::Trapped(_) => true,
        }
    }

    /// Makes the next step of the running hart; false where it would make one event too many, and then it isn't made.
    fn step<S: Source>(&mut self, image: &S) -> Result<bool, AllocError>
        requires over { IsOver self.old.world.held.image (S.medium image.now) }
        requires running { self.old.hart.status ≡ Status.Running }
        ensures ok { IfOk result (λ made. Goes self.old self.new (S.medium image.now) made) }
        ensures over { IsOver self.new.world.held.image (S.medium image.now) }
        ensures kept { IsKept self.old self.new }
    {
        let instr = match self.text.instruction(self.hart.pc) {
            Ok(instr) => instr,
            Err(trap) => {
                self.hart.status = Status::Trapped(trap);
                return Ok(true);
            }
        };
        match advance(&mut self.hart, instr) {
            Advance::Done => Ok(true),
            Advance::Stop(trap) => {
                self.hart.status = Status::Trapped(trap);
                Ok(true)
            }
            Advance::Ask(request) => self.ask(image, instr, request),
        }
    }

    /// Has the request of an instruction served, and tells the hart the reply.
    fn ask<S: Source>(
        &mut self,
        image: &S,
        instr: Instr,
        request: Request,
    ) -> Result<bool, AllocError>
        requires over { IsOver self.old.world.held.image (S.medium image.now) }
        requires request { IsRequest request }
        ensures ok { IfOk result (λ made. IsAsked self.old self.new (S.medium image.now) instr request made) }
        ensures over { IsOver self.new.world.held.image (S.medium image.now) }
        ensures kept { IsKept self.old self.new }
    {
        match self.world.request(image, request)? {
            Served::Full => Ok(false),
            Served::Replied(reply) => {
                resume(&mut self.hart, instr, reply);
                self.text.renew_after(request, &self.world);
                Ok(true)
            }
        }
    }
}
