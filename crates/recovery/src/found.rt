//! What a routine's run came to.

ghost use Rattle.std.specs.Prelude.{◌≡◌, ◌+◌, ◌∷◌, ◌++◌, ◌<◌, ◌^◌, IfOk, OnOk};
ghost use Rattle.hart.specs.Registers.{register};
ghost use Rattle.recovery.specs.Held.{IsOver};
ghost use Rattle.recovery.specs.Memory.{memory_of};
ghost use Rattle.recovery.specs.Answers.{answer_at, byte_list, bytes_from};
ghost use Rattle.recovery.specs.Engine.{Comes, IsKept, ending};

use crate::engine::Engine;
use crate::overlay::Source;
use crate::recovery_run::Cause;
use hart::{HartState, Status};
use isa_table::Reg;
use line_memory::{DATA_BASE, DATA_SIZE};
use std::alloc::{AllocError, Global};
use std::marker::Model;

/// How many bytes an answer may have.
const MAX_ANSWER: u64 = 65_536;

/// The bytes that a routine names at its exit.
#[derive(Drop)]
pub struct Answer {
    bytes: Vec<u8>,
}

impl Model for Answer {
    ghost use Rattle.std.specs.Prelude.{ℕ, List};

    ghost Value = { List ℕ };

    ghost view = { λ a. a.bytes.items };
}

impl Answer {
    pub fn bytes(&self) -> &[u8]
        ensures { result.now ≡ self.now }
    {
        &self.bytes
    }
}

impl Engine {
    /// Runs for so many steps at most, and finds what that came to.
    pub fn recover<S: Source>(
        &mut self,
        alloc: Global,
        image: &S,
        steps: u32,
    ) -> Result<Result<Answer, Cause>, AllocError>
        requires over { IsOver self.old.world.held.image (S.medium image.now) }
        ensures ok { IfOk result (λ found. Comes self.old self.new (S.medium image.now) steps found) }
        ensures kept { IsKept self.old self.new }
    {
        let full = self.run(image, steps)?;
        self.find(alloc, image, full)
    }

    /// What a run came to that ended here.
    fn find<S: Source>(
        &self,
        alloc: Global,
        image: &S,
        full: bool,
    ) -> Result<Result<Answer, Cause>, AllocError>
        requires over { IsOver self.now.world.held.image (S.medium image.now) }
        ensures { IfOk result (λ found. found ≡ ending self.now (S.medium image.now) full) }
    {
        if full {
            return Ok(Err(Cause::Events));
        }
        match self.hart.status {
            Status::Running => Ok(Err(Cause::Running)),
            Status::Trapped(trap) => Ok(Err(Cause::Trap(trap))),
            Status::Exited(0) => {
                let (address, count) = named(&self.hart);
                self.answer(alloc, image, address, count)
            }
            Status::Exited(code) => Ok(Err(Cause::Exit(code))),
        }
    }

    /// So many bytes from an address on, where all of them are data and they are few.
    fn answer<S: Source>(
        &self,
        alloc: Global,
        image: &S,
        address: u64,
        count: u64,
    ) -> Result<Result<Answer, Cause>, AllocError>
        requires over { IsOver self.now.world.held.image (S.medium image.now) }
        ensures { IfOk result (λ found. found ≡ answer_at (memory_of self.now.world.held (S.medium image.now)) address count) }
    {
        if count == 0 {
            let bytes = Vec::new(alloc);
            return Ok(Ok(Answer { bytes }));
        }
        if count > MAX_ANSWER || address < DATA_BASE || address > DATA_BASE + DATA_SIZE - count {
            return Ok(Err(Cause::Answer));
        }
        let bytes = self.read(alloc, image, address, count)?;
        Ok(Ok(Answer { bytes }))
    }

    /// The bytes from an address on.
    #[tactic(auto, using(crate::proofs::Resting::bytes_more))]
    fn read<S: Source>(
        &self,
        alloc: Global,
        image: &S,
        address: u64,
        count: u64,
    ) -> Result<Vec<u8>, AllocError>
        requires over { IsOver self.now.world.held.image (S.medium image.now) }
        requires few { address + count < 2 ^ 64 }
        ensures { IfOk result (λ bytes. bytes.items ≡ bytes_from (memory_of self.now.world.held (S.medium image.now)) address count) }
    {
        let mut bytes = Vec::with_capacity(alloc, count as usize)?;
        for at in 0..count {
            push_found(&mut bytes, self.world.peek(image, address + at))?;
        }
        Ok(bytes)
    }
}

/// What a1 and a2 hold.
fn named(hart: &HartState) -> (u64, u64)
    ensures address { result.0 ≡ register hart.now.registers 11 }
    ensures count { result.1 ≡ register hart.now.registers 12 }
{
    let address = hart.registers.get(Reg { number: 11 });
    let count = hart.registers.get(Reg { number: 12 });
    (address, count)
}

/// Adds a byte, where there is one.
fn push_found(bytes: &mut Vec<u8>, found: Option<u8>) -> Result<(), AllocError>
    ensures { OnOk result (bytes.new.items ≡ bytes.old.items ++ byte_list found) }
{
    if let Some(byte) = found {
        bytes.push(byte)?;
    }
    Ok(())
}
