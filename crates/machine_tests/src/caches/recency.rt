//! Small caches over a medium of zeros: what loads find, what the medium keeps and which line leaves.

ghost use Rattle.std.specs.Prelude.{◌≡◌, ◌≤◌, length};
ghost use Rattle.lru_cache.specs.Cache.{IsOver};

use line_memory::{Medium, MediumFault};
use lru_cache::Cache;
use std::alloc::Global;
use std::test::Fail;

/// A call of a cache, or what is to hold before the next one. Numbers are of the eight bytes at the start of a line.
#[derive(Clone, Copy)]
enum Call {
    /// A store in a line.
    Store(u32, u64),
    /// A load from a line, which finds this number.
    Load(u32, u64),
    /// A load of a line's first four bytes alone, which finds this number.
    LoadFour(u32, u64),
    /// A mark of a dirty line in a list.
    Mark(u32, u32),
    MarkLeaving(u32),
    WriteBack(u32),
    Evict(u32),
    /// A drop of a line that isn't dirty.
    Drop(u32),
    /// A peek through the cache at the byte of an address.
    Peek(u32, u8),
    /// The medium's byte of an address.
    KeptByte(u32, u8),
    /// The medium has this number in a line.
    Kept(u32, u64),
    Resident(u32, bool),
    Dirty(u32, bool),
    /// Whether a line is marked in a list.
    Marked(u32, u32, bool),
    /// The line that was marked first in a list.
    FirstMarked(u32, Option<u32>),
    Leaving(u32, bool),
}

/// A cache over a medium of 512 lines.
#[derive(Drop)]
struct Layers {
    cache: Cache,
    medium: Medium,
    ghost over: { IsOver cache medium },
    ghost lines: { length medium ≡ 512 },
}

impl Layers {
    fn new(alloc: Global, capacity: u32) -> Result<Layers, MediumFault>
        requires { 1 ≤ capacity }
    {
        let medium = Medium::zero(alloc, 512)?;
        if medium.lines() != 512 {
            return Err(MediumFault::Size);
        }
        let cache = Cache::new(alloc, capacity, medium.lines())?;
        Ok(Layers { cache, medium })
    }

    /// The place of the first of these calls that finds something else.
    fn first_difference(&mut self, calls: &[Call]) -> Option<usize> {
        for (place, call) in calls.iter().enumerate() {
            if !self.holds(*call) {
                return Some(place);
            }
        }
        None
    }

    /// Makes a call, and tells whether it finds what it is to find. One that may not be made now is not made.
    fn holds(&mut self, call: Call) -> bool {
        match call {
            Call::Store(line, value) if line < 512 => {
                self.cache.store(&mut self.medium, 64 * line, 8, value);
            }
            Call::Load(line, value) if line < 512 => {
                return self.cache.load(&mut self.medium, 64 * line, 8) == value;
            }
            Call::LoadFour(line, value) if line < 512 => {
                return self.cache.load(&mut self.medium, 64 * line, 4) == value;
            }
            Call::Mark(list, line) if list < 8 && line < 512 && self.cache.is_dirty(line) => {
                self.cache.mark(list, line);
            }
            Call::MarkLeaving(line) if line < 512 && self.cache.is_dirty(line) => {
                self.cache.mark_leaving(line);
            }
            Call::WriteBack(line) if line < 512 => {
                self.cache.write_back(&mut self.medium, line);
            }
            Call::Evict(line) if line < 512 => self.cache.evict(&mut self.medium, line),
            Call::Drop(line) if line < 512 && !self.cache.is_dirty(line) => {
                self.cache.drop_clean(line);
            }
            _ => return self.shows(call),
        }
        true
    }

    /// Whether what a question finds, which changes nothing, is what it is to find.
    fn shows(&self, call: Call) -> bool {
        match call {
            Call::Peek(at, byte) if at < 32_768 => self.cache.peek(&self.medium, at) == byte,
            Call::KeptByte(at, byte) if at < 32_768 => self.medium.peek(at) == byte,
            Call::Kept(line, value) if line < 512 => self.medium.load(64 * line, 8) == value,
            Call::Resident(line, resident) if line < 512 => {
                self.cache.is_resident(line) == resident
            }
            Call::Dirty(line, dirty) if line < 512 => self.cache.is_dirty(line) == dirty,
            Call::Marked(list, line, marked) if list < 8 && line < 512 => {
                self.cache.is_marked(list, line) == marked
            }
            Call::FirstMarked(list, line) if list < 8 => self.cache.first_marked(list) == line,
            Call::Leaving(line, leaving) if line < 512 => self.cache.is_leaving(line) == leaving,
            _ => false,
        }
    }
}

/// Calls on a cache of so many lines.
struct Example {
    name: &'static str,
    capacity: u32,
    calls: &'static [Call],
}

static EXAMPLES: [Example; 5] = [
    Example {
        name: "loads of a cache of one line",
        capacity: 1,
        calls: &[
            Call::Store(0, 1),
            Call::Store(1, 3),
            Call::Store(0, 2),
            Call::Store(1, 4),
            Call::Load(0, 2),
            Call::Load(1, 4),
            Call::Kept(0, 2),
        ],
    },
    Example {
        name: "a victim of its own set",
        capacity: 2,
        calls: &[
            Call::Store(0, 5),
            Call::Store(1, 6),
            Call::Load(0, 5),
            Call::Kept(0, 0),
            Call::Load(8, 0),
            Call::Kept(0, 5),
            Call::Resident(0, false),
            Call::Resident(1, true),
            Call::Resident(8, true),
        ],
    },
    Example {
        name: "victims in turn",
        capacity: 2,
        calls: &[
            Call::Store(0, 1),
            Call::Store(8, 2),
            Call::Resident(0, true),
            Call::Store(16, 3),
            Call::Resident(0, false),
            Call::Resident(8, true),
            Call::Store(1, 4),
            Call::Resident(8, false),
            Call::Resident(16, true),
            Call::Kept(0, 1),
            Call::Kept(8, 2),
            Call::Kept(16, 0),
        ],
    },
    Example {
        name: "a written back line stays",
        capacity: 8,
        calls: &[
            Call::Dirty(2, false),
            Call::Store(2, 0x1234),
            Call::Peek(129, 0x12),
            Call::KeptByte(129, 0),
            Call::FirstMarked(3, None),
            Call::Dirty(2, true),
            Call::Mark(3, 2),
            Call::MarkLeaving(2),
            Call::FirstMarked(3, Some(2)),
            Call::Marked(3, 2, true),
            Call::Marked(2, 2, false),
            Call::Leaving(2, true),
            Call::WriteBack(2),
            Call::KeptByte(129, 0x12),
            Call::Resident(2, true),
            Call::Marked(3, 2, false),
            Call::Leaving(2, false),
            Call::Dirty(2, false),
            Call::Drop(2),
            Call::Resident(2, false),
            Call::LoadFour(2, 0x1234),
        ],
    },
    Example {
        name: "an evicted line is written back",
        capacity: 8,
        calls: &[
            Call::Store(2, 7),
            Call::Store(10, 8),
            Call::Dirty(2, true),
            Call::Mark(0, 2),
            Call::Evict(2),
            Call::Kept(2, 7),
            Call::Kept(10, 0),
            Call::Resident(2, false),
            Call::Marked(0, 2, false),
            Call::Dirty(10, true),
        ],
    },
];

/// The place of the first call of an example that finds something else.
fn difference(alloc: Global, example: &Example) -> Result<Option<usize>, MediumFault> {
    if example.capacity == 0 {
        return Ok(Some(0));
    }
    let mut layers = Layers::new(alloc, example.capacity)?;
    Ok(layers.first_difference(example.calls))
}

/// The first example that finds something else, by its name, and where.
fn first_wrong(alloc: Global) -> Result<Option<(&'static str, usize)>, MediumFault> {
    for example in &EXAMPLES {
        if let Some(place) = difference(alloc, example)? {
            return Ok(Some((example.name, place)));
        }
    }
    Ok(None)
}

#[test]
fn examples(rt: HostRuntime) -> Result<(), Fail> {
    let wrong = first_wrong(rt.alloc())?;
    assert!(rt; wrong.is_none(), "{wrong:?}");
    Ok(())
}
