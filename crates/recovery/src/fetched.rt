//! The text that the routine fetches: that of the start, until a FENCE.I.

ghost use Rattle.std.specs.Prelude.{◌≡◌, ◌<◌, length, IfOk, IfErr};
ghost use Rattle.line_memory.specs.declared.TheConstants.{TEXT_SIZE};
ghost use Rattle.hart.specs.Needs.{IsInstruction};
ghost use Rattle.machine.specs.Run.{fetched};
ghost use Rattle.machine.specs.Represents.{text_bytes};
ghost use Rattle.machine.specs.declared.shared_memory.fault.StepFault.{StepFault};
ghost use Rattle.recovery.specs.Fetched.{Refetches};

use crate::world::World;
use hart::{Request, Trap};
use isa_table::Instr;
use line_memory::TEXT_SIZE;
use machine::{StepFault, TextCopy};
use std::alloc::Global;
use std::marker::Model;

/// The text as it is fetched. Going back to that of the start takes no copying.
#[derive(Drop)]
pub struct FetchedText {
    start: TextCopy,
    /// The text right after the last FENCE.I.
    renewed: TextCopy,
    is_renewed: bool,
    /// Where the text is gathered for it.
    bytes: Vec<u8>,
}

impl Model for FetchedText {
    ghost use Rattle.std.specs.Prelude.{◌≡◌, if◌then◌else◌, length};
    ghost use Rattle.line_memory.specs.declared.TheConstants.{TEXT_SIZE};
    ghost use Rattle.recovery.specs.Fetched.{FetchedView};

    ghost Value = { FetchedView };

    ghost view = { λ f. record { start = f.start; bytes = if f.is_renewed then f.renewed else f.start } };

    ghost invariant = { λ f. length f.bytes.items ≡ TEXT_SIZE };
}

impl FetchedText {
    /// The text of the start. The fault is Memory.
    pub fn new(alloc: Global, text: &[u8]) -> Result<FetchedText, StepFault>
        requires { length text.now ≡ TEXT_SIZE }
        ensures ok { IfOk result (λ made. made ≡ record { start = text.now; bytes = text.now }) }
        ensures err { IfErr result (λ fault. fault ≡ StepFault.Memory) }
    {
        let start = TextCopy::new(alloc, text)?;
        let renewed = TextCopy::new(alloc, text)?;
        let bytes = match text.to_vec(alloc) {
            Ok(bytes) => bytes,
            Err(_) => return Err(StepFault::Memory),
        };
        Ok(FetchedText {
            start,
            renewed,
            is_renewed: false,
            bytes,
        })
    }

    /// The instruction that the word at `pc` spells, or the trap where there is none.
    pub fn instruction(&self, pc: u64) -> Result<Instr, Trap>
        ensures { IsInstruction (fetched (text_bytes self.now.bytes) pc) result }
    {
        if self.is_renewed {
            self.renewed.instruction(pc)
        } else {
            self.start.instruction(pc)
        }
    }

    /// After a request that is a FENCE.I the text is fetched as it is in memory.
    pub fn renew_after(&mut self, request: Request, world: &World)
        ensures { Refetches self.old self.new world.now.held request }
    {
        if let Request::FenceI = request {
            world.read_text(&mut self.bytes);
            self.renewed.renew(&self.bytes);
            self.is_renewed = true;
        }
    }

    /// The text of the start is fetched again.
    pub fn set_back(&mut self)
        ensures { self.new ≡ record self.old { bytes = self.old.start } }
    {
        self.is_renewed = false;
    }
}
