//! Requests, each served, evictions and power cuts.

ghost use Rattle.hart.specs.Requests.{IsRequest};
ghost use Rattle.std.specs.Prelude.{IsTrue};

use crate::machines::programs::{first_of_line, program_of};
use hart::{Reply, Request};
use isa_table::{AtomicOp, CacheOp};
use line_memory::Medium;
use machine::{Shared, StepFault};
use std::alloc::Global;
use store_trace::Event;

/// What is asked of memory.
enum Call {
    Ask { hart: u32, request: Request },
    Evict { line: u32 },
}

/// Memory of so many lines of zeros, the calls that are made of it with their replies, and what is seen of it then. An eviction
/// that is made replies that it is done; what is refused has no reply.
struct Service {
    lines: u32,
    harts: u32,
    capacity: u32,
    calls: &'static [(Call, Option<Reply>)],
    events: &'static [Event],
    /// An address, and the byte that is peeked there.
    peeked: (u64, u8),
    /// A place in the text, and the byte there.
    text: (usize, u8),
    /// The first doublewords of lines 0 and 1 that a power cut leaves.
    left: [u64; 2],
}

/// `addi x5, x0, 7`; `lui x6, 0x40000`; `sd x5, 0(x6)`.
const WORDS: [u32; 3] = [0x00700293, 0x40000337, 0x00533023];

const BEGIN: Call = Call::Ask {
    hart: 3,
    request: Request::Begin { op: 7 },
};

const END: Call = Call::Ask {
    hart: 3,
    request: Request::End { op: 7 },
};

const FENCE_I: Call = Call::Ask {
    hart: 3,
    request: Request::FenceI,
};

const SWAP_OF_THE_SECOND_WORD: Call = Call::Ask {
    hart: 3,
    request: Request::Amo {
        op: AtomicOp::Amoswap,
        address: 0x1_0004,
        width: 4,
        operand: 0x1_2345_6789,
    },
};

const STORE_OF_1: Call = Call::Ask {
    hart: 0,
    request: Request::Store {
        address: 0x4000_0000,
        width: 8,
        value: 1,
    },
};

const STORE_OF_2: Call = Call::Ask {
    hart: 0,
    request: Request::Store {
        address: 0x4000_0040,
        width: 8,
        value: 2,
    },
};

const CLEAN: Call = Call::Ask {
    hart: 0,
    request: Request::Cbo {
        op: CacheOp::Clean,
        address: 0x4000_0008,
    },
};

const FENCE_OF_0: Call = Call::Ask {
    hart: 0,
    request: Request::Fence,
};

const FENCE_OF_1: Call = Call::Ask {
    hart: 1,
    request: Request::Fence,
};

const STORED_1: Event = Event::Store {
    hart: 0,
    line: 0,
    offset: 0,
    width: 8,
    value: 1,
};

const STORED_2: Event = Event::Store {
    hart: 0,
    line: 1,
    offset: 0,
    width: 8,
    value: 2,
};

static SERVICES: [Service; 4] = [
    Service {
        lines: 600,
        harts: 4,
        capacity: 2,
        calls: &[(BEGIN, Some(Reply::Done)), (END, Some(Reply::Done))],
        events: &[
            Event::Begin { hart: 3, op: 7 },
            Event::End { hart: 3, op: 7 },
        ],
        peeked: (0x4000_0000, 0),
        text: (0, 0x93),
        left: [0, 0],
    },
    // text is written without an event
    Service {
        lines: 512,
        harts: 4,
        capacity: 2,
        calls: &[
            (FENCE_I, Some(Reply::Done)),
            (SWAP_OF_THE_SECOND_WORD, Some(Reply::Value(0x4000_0337))),
        ],
        events: &[],
        peeked: (0x1_0004, 0x89),
        text: (7, 0x23),
        left: [0, 0],
    },
    // the fence of the hart that cleaned line 0, and then of the other
    Service {
        lines: 512,
        harts: 2,
        capacity: 4,
        calls: &[
            (STORE_OF_1, Some(Reply::Done)),
            (STORE_OF_2, Some(Reply::Done)),
            (Call::Evict { line: 1 }, Some(Reply::Done)),
            (Call::Evict { line: 512 }, None),
            (CLEAN, Some(Reply::Done)),
            (FENCE_OF_0, Some(Reply::Done)),
        ],
        events: &[
            STORED_1,
            STORED_2,
            Event::Clean { hart: 0, line: 0 },
            Event::Fence { hart: 0 },
        ],
        peeked: (0x4000_0040, 2),
        text: (7, 0x40),
        left: [1, 2],
    },
    Service {
        lines: 512,
        harts: 2,
        capacity: 4,
        calls: &[
            (STORE_OF_1, Some(Reply::Done)),
            (STORE_OF_2, Some(Reply::Done)),
            (Call::Evict { line: 1 }, Some(Reply::Done)),
            (Call::Evict { line: 512 }, None),
            (CLEAN, Some(Reply::Done)),
            (FENCE_OF_1, Some(Reply::Done)),
        ],
        events: &[
            STORED_1,
            STORED_2,
            Event::Clean { hart: 0, line: 0 },
            Event::Fence { hart: 1 },
        ],
        peeked: (0x4000_0000, 1),
        text: (7, 0x40),
        left: [0, 2],
    },
];

/// Whether a request is of a kind and a width that these tests make.
fn is_known(request: Request) -> bool
    ensures { IsTrue result → IsRequest request }
{
    match request {
        Request::Store { width, .. } => width == 8,
        Request::Amo {
            op: AtomicOp::Amoswap,
            width,
            ..
        } => width == 4,
        Request::Cbo { .. }
        | Request::Fence
        | Request::FenceI
        | Request::Begin { .. }
        | Request::End { .. } => true,
        Request::Load { .. } | Request::Lr { .. } | Request::Sc { .. } | Request::Amo { .. } => {
            false
        }
    }
}

// These calls say nothing of what they do: the tests look at the outcome alone.

fn ask(shared: &mut Shared, hart: u32, request: Request) -> Option<Reply> {
    if hart < 8 && is_known(request) {
        shared.request(hart, request).ok()
    } else {
        None
    }
}

fn evict(shared: &mut Shared, line: u32) -> Option<Reply> {
    match shared.evict(line) {
        Ok(()) => Some(Reply::Done),
        Err(_) => None,
    }
}

fn left_by(shared: Shared) -> Medium {
    let (medium, _) = shared.power_cut();
    medium
}

fn reply(shared: &mut Shared, call: &Call) -> Option<Reply> {
    match call {
        Call::Ask { hart, request } => ask(shared, *hart, *request),
        Call::Evict { line } => evict(shared, *line),
    }
}

fn are_answered_so(shared: &mut Shared, calls: &[(Call, Option<Reply>)]) -> bool {
    for (call, expected) in calls {
        if reply(shared, call) != *expected {
            return false;
        }
    }
    true
}

fn shows(shared: &Shared, service: &Service) -> bool {
    let (address, peeked) = service.peeked;
    let (place, byte) = service.text;
    shared.lines() == service.lines
        && shared.events() == service.events
        && shared.peek(address) == Some(peeked)
        && shared.text().get(place).copied() == Some(byte)
}

fn is_left_so(medium: &Medium, service: &Service) -> bool {
    let [first, second] = service.left;
    medium.lines() == service.lines
        && first_of_line(medium, 0) == Some(first)
        && first_of_line(medium, 1) == Some(second)
}

/// Memory of so many harts over lines of zeros.
fn shared_of(alloc: Global, lines: u32, harts: u32, capacity: u32) -> Result<Shared, StepFault> {
    match (program_of(alloc, &WORDS), Medium::zero(alloc, lines)) {
        (Some(program), Ok(medium)) => Shared::new(alloc, &program, medium, harts, capacity),
        _ => Err(StepFault::Memory),
    }
}

fn is_served_so(alloc: Global, service: &Service) -> bool {
    match shared_of(alloc, service.lines, service.harts, service.capacity) {
        Ok(mut shared) => {
            let is_served = are_answered_so(&mut shared, service.calls) && shows(&shared, service);
            is_left_so(&left_by(shared), service) && is_served
        }
        Err(_) => false,
    }
}

#[test]
fn requests_are_served_so(rt: HostRuntime) {
    let differing = SERVICES
        .iter()
        .position(|service| !is_served_so(rt.alloc(), service));
    assert_eq!(rt; differing, None);
}

static LIMITS: [(u32, u32, StepFault); 4] = [
    (0, 0, StepFault::NoSuchHart),
    (9, 16_385, StepFault::NoSuchHart),
    (1, 0, StepFault::OutOfLimits),
    (8, 16_385, StepFault::OutOfLimits),
];

/// Whether there is no memory of so many harts and lines of cache, for this reason.
fn is_refused_so(alloc: Global, (harts, capacity, fault): (u32, u32, StepFault)) -> bool {
    shared_of(alloc, 512, harts, capacity).err() == Some(fault)
}

#[test]
fn numbers_out_of_limits(rt: HostRuntime) {
    let differing = LIMITS
        .iter()
        .position(|limits| !is_refused_so(rt.alloc(), *limits));
    assert_eq!(rt; differing, None);
}
