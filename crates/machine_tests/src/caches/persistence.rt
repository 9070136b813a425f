//! Worked examples, and lists of calls compared with the crash model's plain program.

ghost use Rattle.std.specs.Prelude.{◌≡◌, ◌<◌, ◌≤◌, length, IfOk};

use clean_fence::PmCache;
use line_memory::{Medium, MediumFault};
use std::alloc::{AllocError, Global};
use std::process::Abort;
use std::test::Fail;
use store_trace::{PersistenceStep, stores, written_back};

/// A call of a cache over persistent memory, or what is to hold before the next one. Numbers are of the eight bytes at the start
/// of a line.
#[derive(Clone, Copy)]
enum Call {
    /// A store in a line.
    Store(u32, u64),
    /// A store of a line's first byte alone.
    StoreByte(u32, u8),
    /// A load from a line, which finds this number.
    Load(u32, u64),
    /// A hart's clean of a line.
    Clean(u32, u32),
    /// A hart's flush of a line.
    Flush(u32, u32),
    /// A hart's fence.
    Fence(u32),
    Evict(u32),
    /// A peek at a line's first byte, which is this one.
    Peek(u32, u8),
    /// The medium has this number in a line.
    Kept(u32, u64),
    Resident(u32, bool),
    Dirty(u32, bool),
}

/// A cache over 512 lines of zeros, for eight harts.
#[derive(Drop)]
struct Persistent {
    pm: PmCache,
    ghost harts: { pm.harts ≡ 8 },
    ghost lines: { length pm.lines ≡ 512 },
}

impl Persistent {
    fn new(alloc: Global, capacity: u32) -> Result<Persistent, MediumFault>
        requires { 1 ≤ capacity }
    {
        let medium = Medium::zero(alloc, 512)?;
        if medium.lines() != 512 {
            return Err(MediumFault::Size);
        }
        let pm = PmCache::new(alloc, medium, capacity, 8)?;
        Ok(Persistent { pm })
    }

    /// Makes a call, and tells whether it finds what it is to find. One of another line or hart is not made.
    fn holds(&mut self, call: Call) -> bool {
        match call {
            Call::Store(line, value) if line < 512 => self.pm.store(64 * line, 8, value),
            Call::StoreByte(line, byte) if line < 512 => {
                self.pm.store(64 * line, 1, u64::from(byte));
            }
            Call::Clean(hart, line) if hart < 8 && line < 512 => self.pm.clean(hart, line),
            Call::Flush(hart, line) if hart < 8 && line < 512 => self.pm.flush(hart, line),
            Call::Fence(hart) if hart < 8 => self.pm.fence(hart),
            Call::Evict(line) if line < 512 => self.pm.evict(line),
            Call::Load(line, value) if line < 512 => return self.pm.load(64 * line, 8) == value,
            _ => return self.shows(call),
        }
        true
    }

    /// Whether what a question finds, which changes nothing, is what it is to find.
    fn shows(&self, call: Call) -> bool {
        match call {
            Call::Peek(line, byte) if line < 512 => self.pm.peek(64 * line) == byte,
            Call::Kept(line, value) if line < 512 => {
                self.pm.medium().load(64 * line, 8) == value
            }
            Call::Resident(line, resident) if line < 512 => {
                self.pm.is_resident(line) == resident
            }
            Call::Dirty(line, dirty) if line < 512 => self.pm.is_dirty(line) == dirty,
            _ => false,
        }
    }

    /// The place of the first of these calls that finds something else.
    fn first_difference(&mut self, calls: &[Call]) -> Option<usize> {
        for (place, call) in calls.iter().enumerate() {
            if !self.holds(*call) {
                return Some(place);
            }
        }
        None
    }

    /// What a power cut leaves in lines 0 and 1.
    fn power_cut(self) -> [u64; 2] {
        let Persistent { pm } = self;
        let medium = pm.power_cut();
        [medium.load(0, 8), medium.load(64, 8)]
    }
}

/// Calls on a cache of so many lines, and what a power cut after them leaves in lines 0 and 1.
struct Example {
    name: &'static str,
    capacity: u32,
    calls: &'static [Call],
    left: [u64; 2],
}

static EXAMPLES: [Example; 6] = [
    Example {
        name: "a fence of another hart",
        capacity: 8,
        calls: &[
            Call::Store(0, 1),
            Call::Store(0, 2),
            Call::Clean(0, 0),
            Call::Store(0, 3),
            Call::Fence(1),
            Call::Kept(0, 0),
            Call::Fence(0),
            Call::Kept(0, 3),
        ],
        left: [3, 0],
    },
    Example {
        name: "an eviction ends what pends",
        capacity: 8,
        calls: &[
            Call::Store(0, 1),
            Call::Clean(0, 0),
            Call::Evict(0),
            Call::Store(0, 2),
            Call::Fence(0),
            Call::Kept(0, 1),
        ],
        left: [1, 0],
    },
    Example {
        name: "a flushed line leaves",
        capacity: 8,
        calls: &[
            Call::Store(0, 1),
            Call::Clean(0, 0),
            Call::Flush(1, 0),
            Call::Fence(0),
            Call::Kept(0, 1),
            Call::Resident(0, false),
        ],
        left: [1, 0],
    },
    Example {
        name: "a fence without a clean",
        capacity: 8,
        calls: &[
            Call::Store(0, 1),
            Call::Clean(0, 0),
            Call::Fence(0),
            Call::Store(0, 2),
            Call::Fence(0),
            Call::Kept(0, 1),
            Call::Dirty(0, true),
        ],
        left: [1, 0],
    },
    Example {
        name: "a flush lasts to the write-back",
        capacity: 8,
        calls: &[
            Call::Store(0, 1),
            Call::Flush(0, 0),
            Call::Store(0, 2),
            Call::Clean(1, 0),
            Call::Fence(1),
            Call::Kept(0, 2),
            Call::Resident(0, false),
            Call::Load(0, 2),
            Call::Flush(0, 0),
            Call::Resident(0, false),
        ],
        left: [2, 0],
    },
    Example {
        name: "a cache of one line",
        capacity: 1,
        calls: &[
            Call::Store(0, 1),
            Call::Store(1, 3),
            Call::Store(0, 2),
            Call::Store(1, 4),
            Call::Load(0, 2),
            Call::Load(1, 4),
            Call::StoreByte(1, 5),
            Call::Peek(1, 5),
        ],
        left: [2, 4],
    },
];

/// Where an example finds something else: the place of the call, or the number of its calls where only the power cut
/// leaves something else.
fn difference(alloc: Global, example: &Example) -> Result<Option<usize>, MediumFault> {
    if example.capacity == 0 {
        return Ok(Some(0));
    }
    let mut persistent = Persistent::new(alloc, example.capacity)?;
    if let Some(place) = persistent.first_difference(example.calls) {
        return Ok(Some(place));
    }
    let left = persistent.power_cut();
    Ok((left != example.left).then_some(example.calls.len()))
}

/// The first example that finds something else, by its name, and where.
fn first_wrong(alloc: Global) -> Result<Option<(&'static str, usize)>, MediumFault> {
    for example in &EXAMPLES {
        if let Some(place) = difference(alloc, example)? {
            return Ok(Some((example.name, place)));
        }
    }
    Ok(None)
}

#[test]
fn examples(rt: HostRuntime) -> Result<(), Fail> {
    let wrong = first_wrong(rt.alloc())?;
    assert!(rt; wrong.is_none(), "{wrong:?}");
    Ok(())
}

/// How many lines a list of calls uses.
const USED: usize = 9;

/// The lines that are used: eight of three sets, and the last line.
const LINES: [u32; USED] = [0, 1, 2, 8, 9, 10, 16, 24, 511];

/// A cache, and the persistence steps that it represents, the oldest first.
#[derive(Drop)]
struct Replay {
    persistent: Persistent,
    steps: Vec<PersistenceStep>,
}

impl Replay {
    /// The call that a number draws. A load is to find the last number that was stored.
    fn drawn(&self, rt: &impl Abort, number: u32) -> Call {
        assert!(rt; self.steps.len() < 1_000);
        let line = LINES[(number >> 18) as usize % USED];
        let hart = (number >> 24) % 8;
        match number >> 29 {
            1 => Call::Load(
                line,
                value_after(&self.steps, line, stores(&self.steps, line)),
            ),
            3 => Call::Clean(hart, line),
            4 => Call::Fence(hart),
            5 => Call::Flush(hart, line),
            7 => Call::Evict(line),
            _ => Call::Store(line, self.steps.len() as u64 + 1),
        }
    }

    /// Makes a call and notes it, after the evictions that it forced, and tells whether it finds what it is to find.
    fn make(&mut self, call: Call) -> Result<bool, AllocError> {
        let before = self.residents();
        let holds = self.persistent.holds(call);
        if matches!(call, Call::Load(..) | Call::Store(..)) {
            self.note_forced(before)?;
        }
        if let Some(step) = step_of(call) {
            self.steps.push(step)?;
        }
        Ok(holds)
    }

    fn residents(&self) -> [bool; USED] {
        let mut residents = [false; USED];
        for (i, line) in LINES.iter().enumerate() {
            residents[i] = self.persistent.shows(Call::Resident(*line, true));
        }
        residents
    }

    /// A line that was resident before a use and isn't after it had to leave.
    fn note_forced(&mut self, before: [bool; USED]) -> Result<(), AllocError> {
        let after = self.residents();
        for (i, line) in LINES.iter().enumerate() {
            if before[i] && !after[i] {
                self.steps.push(PersistenceStep::Evict { line: *line })?;
            }
        }
        Ok(())
    }

    /// The place of the first of two hundred calls after which the cache and the plain program don't agree.
    fn first_disagreement(
        &mut self,
        rt: &impl Abort,
        start: u32,
    ) -> Result<Option<u32>, AllocError> {
        let mut number = start;
        for place in 0..200 {
            number = next(number);
            let call = self.drawn(rt, number);
            if !self.make(call)? || !self.agrees(rt) {
                return Ok(Some(place));
            }
        }
        Ok(None)
    }

    /// Whether the medium has each line after the stores that the plain program says were written back.
    fn agrees(&self, rt: &impl Abort) -> bool {
        assert!(rt; self.steps.len() < 1_000);
        for line in LINES {
            let wanted = value_after(&self.steps, line, written_back(&self.steps, line));
            if !self.persistent.shows(Call::Kept(line, wanted)) {
                return false;
            }
        }
        true
    }
}

/// The persistence step that a call is, where it is one.
fn step_of(call: Call) -> Option<PersistenceStep> {
    match call {
        Call::Store(line, value) => Some(PersistenceStep::Store {
            line,
            offset: 0,
            width: 8,
            value,
        }),
        Call::Clean(hart, line) | Call::Flush(hart, line) => {
            Some(PersistenceStep::Clean { hart, line })
        }
        Call::Fence(hart) => Some(PersistenceStep::Fence { hart }),
        Call::Evict(line) => Some(PersistenceStep::Evict { line }),
        _ => None,
    }
}

/// The value of the store of that number of a line, and 0 before the first.
fn value_after(steps: &[PersistenceStep], line: u32, number: u32) -> u64 {
    let mut left = number;
    let mut last = 0;
    for step in steps {
        if let PersistenceStep::Store {
            line: stored,
            value,
            ..
        } = *step
            && stored == line
            && left > 0
        {
            last = value;
            left -= 1;
        }
    }
    last
}

/// A few numbers that look random (the generator of Numerical Recipes).
fn next(number: u32) -> u32 {
    number.wrapping_mul(1_664_525).wrapping_add(1_013_904_223)
}

/// The place of the first call after which the cache of so many lines and the plain program don't agree.
fn disagreement(
    rt: &(impl AllocGlobal + Abort),
    capacity: u32,
    start: u32,
) -> Result<Option<u32>, MediumFault>
    requires { 1 ≤ capacity }
{
    let mut replay = Replay {
        persistent: Persistent::new(rt.alloc(), capacity)?,
        steps: Vec::new(rt.alloc()),
    };
    Ok(replay.first_disagreement(rt, start)?)
}

#[test]
fn plain_program_agrees(rt: HostRuntime) -> Result<(), Fail> {
    for capacity in [1, 2, 7, 512] {
        for start in 2026..2036 {
            let place = disagreement(&rt, capacity, start)?;
            assert!(rt;
                place.is_none(),
                "{capacity} lines from {start}: at {place:?}"
            );
        }
    }
    Ok(())
}
