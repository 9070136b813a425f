//! A recovery routine, for any number of images.

ghost use Rattle.std.specs.Prelude.{◌≡◌, ◌<◌, ℕ, length, slice_index, IfOk, IfErr};
ghost use Rattle.std.specs.List.{AllByRecursion};
ghost use Rattle.line_memory.specs.declared.MediumFault.{MediumFault};
ghost use Rattle.machine.specs.Run.{started};
ghost use Rattle.recovery.specs.Held.{IsOver};
ghost use Rattle.recovery.specs.Memory.{IsAtStart};
ghost use Rattle.recovery.specs.Engine.{IsKept, Represents};
ghost use Rattle.recovery.specs.Routine.{IsAtRest, Recovers, RecoversWith};

use crate::engine::Engine;
use crate::fetched::FetchedText;
use crate::found::Answer;
use crate::overlay::Source;
use crate::recovery_run::Cause;
use crate::world::World;
use hart::HartState;
use line_memory::MediumFault;
use program::Program;
use std::alloc::{AllocError, Global};
use std::marker::Model;
use store_trace::Trace;
use verdict::Question;

/// What a run came to, and its events, the oldest first.
#[derive(Drop)]
pub struct TracedRun {
    pub found: Result<Answer, Cause>,
    pub trace: Trace,
}

/// A recovery routine, which is as new before and after each run: the next image can be any other.
#[derive(Drop)]
pub struct Routine {
    engine: Engine,
}

impl Model for Routine {
    ghost use Rattle.std.specs.Prelude.{length};
    ghost use Rattle.recovery.specs.Routine.{IsAtRest, RoutineView};

    ghost Value = { RoutineView };

    ghost view = { λ r. record {
      program = r.engine.world.held.program;
      lines = length r.engine.world.held.image;
      asked = r.engine.world.asked;
    } };

    ghost invariant = { λ r. IsAtRest r.engine };
}

impl Routine {
    /// The routine of a program, for images of so many lines. All memory is taken here but for the lists of the lines that runs
    /// store to and of what they ask, and for answers. The fault is Memory.
    pub fn new(alloc: Global, program: Program, lines: u32) -> Result<Routine, MediumFault>
        ensures program { IfOk result (λ routine. routine.program ≡ program) }
        ensures lines { IfOk result (λ routine. routine.lines ≡ lines) }
        ensures err { IfErr result (λ fault. fault ≡ MediumFault.Memory) }
    {
        let world = World::new(alloc, program, lines)?;
        let text = match FetchedText::new(alloc, world.starting_text()) {
            Ok(text) => text,
            Err(_) => return Err(MediumFault::Memory),
        };
        Ok(Routine {
            engine: Engine {
                world,
                text,
                hart: HartState::start(0),
            },
        })
    }

    /// Runs the routine on an image from its start: hart 0 alone, with a line of cache for each line, for at most so many steps and
    /// 65,536 events. What it names at its exit with code 0, or why it names nothing.
    ///
    /// # Errors
    /// A growth was refused; the routine is as new then too.
    pub fn run<S: Source>(
        &mut self,
        alloc: Global,
        image: &S,
        steps: u32,
    ) -> Result<Result<Answer, Cause>, AllocError>
        requires lines { length (S.medium image.now) ≡ self.old.lines }
        ensures ok { IfOk result (λ found. Recovers self.old.program (S.medium image.now) steps self.new.asked found) }
        ensures program { self.new.program ≡ self.old.program }
        ensures lines { self.new.lines ≡ self.old.lines }
    {
        self.engine.begin(alloc, image, false);
        let found = self.engine.recover(alloc, image, steps);
        self.engine.set_back();
        found
    }

    /// The same run, with its events: which lines it stored to, cleaned and fenced, in their order. They are kept as they are made, and take
    /// memory.
    ///
    /// # Errors
    /// A growth was refused; the routine is as new then too.
    pub fn run_traced<S: Source>(
        &mut self,
        alloc: Global,
        image: &S,
        steps: u32,
    ) -> Result<TracedRun, AllocError>
        requires lines { length (S.medium image.now) ≡ self.old.lines }
        ensures ok { IfOk result (λ run. RecoversWith self.old.program (S.medium image.now) steps self.new.asked run.trace.events run.found) }
        ensures program { self.new.program ≡ self.old.program }
        ensures lines { self.new.lines ≡ self.old.lines }
    {
        self.engine.begin(alloc, image, true);
        let found = self.engine.recover(alloc, image, steps);
        let trace = self.engine.world.take_trace(alloc);
        self.engine.set_back();
        let found = found?;
        Ok(TracedRun { found, trace })
    }

    /// The bytes of the image that the last run asked by loads, LRs and atomic operations that didn't trap, the first ones first: those
    /// that it hadn't stored itself. Bytes that were loaded again are asked again.
    pub fn asked(&self) -> &[Question]
        ensures asked { result.now ≡ self.now.asked }
        ensures below { AllByRecursion (λ q. q.line < self.now.lines) self.now.asked }
    {
        self.engine.world.asked()
    }
}

impl Engine {
    /// Hart 0 begins, over an image. Its events are kept, or aren't.
    fn begin<S: Source>(&mut self, alloc: Global, image: &S, keeps: bool)
        requires rest { IsAtRest self.old }
        requires lines { length (S.medium image.now) ≡ length self.old.world.held.image }
        ensures represents { Represents self.new (S.medium image.now) (started self.old.world.held.program (S.medium image.now) 1) }
        ensures over { IsOver self.new.world.held.image (S.medium image.now) }
        ensures keeps { self.new.world.keeps ≡ keeps }
        ensures kept { IsKept self.old self.new }
    {
        // a look at the image, for its lines to be known as such
        let _ = image.lines();
        self.hart = HartState::start(0);
        self.world.begin(alloc, keeps);
    }

    /// Memory and the text that is fetched are those of the start again.
    fn set_back(&mut self)
        ensures memory { IsAtStart self.new.world.held (length self.old.world.held.image) }
        ensures fetched { self.new.text.bytes ≡ self.new.text.start }
        ensures kept { IsKept self.old self.new }
        ensures own { (l : ℕ) → slice_index self.new.world.own l ≡ 0 }
        ensures asked { self.new.world.asked ≡ self.old.world.asked }
    {
        self.world.set_back();
        self.text.set_back();
    }
}
