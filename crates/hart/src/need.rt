//! What a hart asks of the world round it, and what it is told.

use crate::state::{HartState, Trap};
use isa_table::{AtomicOp, CacheOp};

/// What a hart asks of memory, or marks in its trace. An address is any number: who serves the request finds the faults.
#[derive(Clone, Copy, Debug, PartialEq, Eq)]
pub enum Request {
    /// Load `width` bytes, 1, 2, 4 or 8; the reply is the number that they spell, the least significant first.
    Load {
        address: u64,
        width: u32,
    },
    /// Store the low `width` bytes of `value`; `width` is 1, 2, 4 or 8.
    Store {
        address: u64,
        width: u32,
        value: u64,
    },
    /// Load `width` bytes, 4 or 8, and reserve their line; the reply is the number that they spell.
    Lr {
        address: u64,
        width: u32,
    },
    /// Store the low `width` bytes of `value`, 4 or 8, where the hart's reservation of their line stands, and end that
    /// reservation; the reply is 0 where the bytes were stored, else 1.
    Sc {
        address: u64,
        width: u32,
        value: u64,
    },
    /// Load `width` bytes, 4 or 8, and store there what `amo_result` makes of them and `operand`; the reply is the
    /// number that they spelled before. `op` is no SC.
    Amo {
        op: AtomicOp,
        address: u64,
        width: u32,
        operand: u64,
    },
    /// A cache-block operation on the line that holds the address.
    Cbo {
        op: CacheOp,
        address: u64,
    },
    /// A FENCE whose predecessor set has memory writes.
    Fence,
    /// A FENCE.I: from here on the hart fetches the text as it stands now.
    FenceI,
    /// The operation `op` begins.
    Begin {
        op: u64,
    },
    /// The operation `op` ends.
    End {
        op: u64,
    },
}

/// What a hart is told of its request.
#[derive(Clone, Copy, Debug, PartialEq, Eq)]
pub enum Reply {
    /// The value that was asked for.
    Value(u64),
    Done,
    Fault(AccessFault),
}

/// Why an access was not made.
#[derive(Clone, Copy, Debug, PartialEq, Eq)]
pub enum AccessFault {
    /// The address is no multiple of the access's width.
    Misaligned,
    /// The address is aligned, and in no region.
    Outside,
}

/// What the next instruction of a running hart needs.
#[derive(Clone, Copy, Debug, PartialEq, Eq)]
pub enum Need {
    /// Nothing: the instruction is done, and the hart is this.
    Local(HartState),
    /// A reply to this request.
    Ask(Request),
    /// The hart traps.
    Stop(Trap),
}

/// What a hart's next instruction came to, made in place.
#[derive(Clone, Copy, Debug, PartialEq, Eq)]
pub enum Advance {
    /// The instruction is done.
    Done,
    /// It needs a reply to this request; nothing changed.
    Ask(Request),
    /// It traps; nothing changed.
    Stop(Trap),
}
