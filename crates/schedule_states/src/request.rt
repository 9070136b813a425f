//! Requests of harts over the memory of a state: the reply to one, and what it writes.

ghost use Rattle.std.specs.Prelude.{◌≡◌, ◌/◌, ◌++◌, ℕ, Bool, List, is_some, option_map, if◌then◌else◌};
ghost use Rattle.hart.specs.Requests.{IsRequest};
ghost use Rattle.line_memory.specs.Memory.{IsWidth, Memory, fault_of, loaded_from};
ghost use Rattle.machine.specs.Histories.{written as written_by};
ghost use Rattle.machine.specs.Replies.{access_fault, events_of, replied, value_unless};
ghost use Rattle.schedule_states.specs.Marks.{IsMarkedBy};
ghost use Rattle.schedule_states.specs.Memories.{memory_of};
ghost use Rattle.schedule_states.specs.Requests.{is_reserved, write_of};
ghost use Rattle.store_trace.specs.declared.event.Event.{Event as AnEvent};

use crate::state_memory::StateMemory;
use hart::{AccessFault, Reply, Request, amo_result};
use line_memory::{LINE_SIZE, MemFault};
use store_trace::Event;

/// What a request writes: the low `width` bytes of a value, from an address on.
#[derive(Clone, Copy, Debug, PartialEq, Eq)]
pub struct Write {
    pub address: u64,
    pub width: u32,
    pub value: u64,
}

/// The reply to a request of a hart that has reserved this line of the address space, or none.
pub fn reply_to(memory: &StateMemory, reserved: Option<u64>, request: Request) -> Reply
    requires { IsRequest request }
    ensures { result ≡ replied (memory_of memory.now) (is_reserved reserved) request }
{
    match request {
        Request::Load { address, width } | Request::Lr { address, width } => {
            loaded(memory, address, width)
        }
        Request::Amo { address, width, .. } => loaded(memory, address, width),
        Request::Store { address, width, .. } => match memory.load(address, width) {
            Ok(_) => Reply::Done,
            Err(fault) => Reply::Fault(met(fault)),
        },
        Request::Sc { address, width, .. } => match memory.load(address, width) {
            Ok(_) => Reply::Value(outcome(reserved, address)),
            Err(fault) => Reply::Fault(met(fault)),
        },
        Request::Cbo { address, .. } => operated(memory, address),
        Request::Fence | Request::FenceI | Request::Begin { .. } | Request::End { .. } =>
            Reply::Done,
    }
}

/// The reply to a request for the number at an address.
fn loaded(memory: &StateMemory, address: u64, width: u32) -> Reply
    requires { IsWidth width }
    ensures { result ≡ value_unless (fault_of (memory_of memory.now) address width) (loaded_from (memory_of memory.now) address width) }
{
    match memory.load(address, width) {
        Ok(value) => Reply::Value(value),
        Err(fault) => Reply::Fault(met(fault)),
    }
}

/// 0 where the line of the address is reserved, else 1.
fn outcome(reserved: Option<u64>, address: u64) -> u64
    ensures { result ≡ (if is_reserved reserved (address / 64) then 0 else 1) }
{
    match reserved {
        Some(line) if line == address / LINE_SIZE as u64 => 0,
        _ => 1,
    }
}

/// The reply to an operation on the line of an address.
fn operated(memory: &StateMemory, address: u64) -> Reply
    ensures { result ≡ (if is_some (memory_of memory.now address) then Reply.Done else Reply.Fault AccessFault.Outside) }
{
    match memory.line(address / LINE_SIZE as u64) {
        Some(_) => Reply::Done,
        None => Reply::Fault(AccessFault::Outside),
    }
}

fn met(fault: MemFault) -> AccessFault
    ensures { result ≡ access_fault fault }
{
    match fault {
        MemFault::Misaligned => AccessFault::Misaligned,
        MemFault::Outside => AccessFault::Outside,
    }
}

/// What a request wrote, by the reply to it.
pub fn written(request: Request, reply: Reply) -> Option<Write>
    requires { IsRequest request }
    ensures { option_map write_of result ≡ written_by request reply }
{
    match (request, reply) {
        (
            Request::Store {
                address,
                width,
                value,
            },
            Reply::Done,
        ) => Some(Write {
            address,
            width,
            value,
        }),
        (
            Request::Sc {
                address,
                width,
                value,
            },
            Reply::Value(0),
        ) => Some(Write {
            address,
            width,
            value,
        }),
        (
            Request::Amo {
                op,
                address,
                width,
                operand,
            },
            Reply::Value(old),
        ) => Some(Write {
            address,
            width,
            value: amo_result(op, width, old, operand),
        }),
        _ => None,
    }
}

/// The mark of an operation that a hart sets by a request.
pub fn mark_of(hart: u32, request: Request) -> Option<Event>
    ensures { (memory : Memory) (reserved : ℕ → Bool) (before : List AnEvent) →
        IsMarkedBy result before (before ++ events_of hart request (replied memory reserved request)) }
{
    match request {
        Request::Begin { op } => Some(Event::Begin { hart, op }),
        Request::End { op } => Some(Event::End { hart, op }),
        _ => None,
    }
}
