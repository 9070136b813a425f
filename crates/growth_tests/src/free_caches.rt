//! Lists of nodes and the caches over them, whose calls take no memory once they are made.

ghost use Rattle.index_list.specs.Lists.{has, list_of};
ghost use Rattle.lru_cache.specs.Cache.{IsOver};
ghost use Rattle.std.specs.Prelude.{◌≡◌, ◌<◌, ◌≤◌, true, false, length};

use crate::ending::{Refused, ended};
use crate::samples::zeros;
use clean_fence::PmCache;
use index_list::Arena;
use line_memory::Medium;
use lru_cache::Cache;
use std::alloc::Global;

/// A call of lists.
#[derive(Clone, Copy)]
enum ListCall {
    PushFront(usize, u32),
    PushBack(usize, u32),
    MoveFront(usize, u32),
    Unlink(usize, u32),
}

/// Two lists over the nodes 0 to 3.
#[derive(Drop)]
struct FourNodes {
    arena: Arena<2>,
    ghost nodes: { arena.nodes ≡ 4 },
}

impl FourNodes {
    /// Makes a call, and tells whether it could be made: a node that is pushed isn't in the list, and another one is.
    fn make(&mut self, call: ListCall) -> bool {
        match call {
            ListCall::PushFront(k, node) if self.lacks(k, node) => self.arena.push_front(k, node),
            ListCall::PushBack(k, node) if self.lacks(k, node) => self.arena.push_back(k, node),
            ListCall::MoveFront(k, node) if self.has(k, node) => self.arena.move_front(k, node),
            ListCall::Unlink(k, node) if self.has(k, node) => self.arena.unlink(k, node),
            _ => return false,
        }
        true
    }

    fn lacks(&self, k: usize, node: u32) -> bool
        ensures { result ≡ true → (k < 2) × (node < 4) × (has node (list_of self.now.arena k) ≡ false) }
    {
        k < 2 && node < 4 && !self.arena.contains(k, node)
    }

    fn has(&self, k: usize, node: u32) -> bool
        ensures { result ≡ true → (k < 2) × (has node (list_of self.now.arena k) ≡ true) }
    {
        k < 2 && node < 4 && self.arena.contains(k, node)
    }

    /// Whether nodes 1 and 3 are the ends of list 0, and node 2 follows the first.
    fn is_ordered(&self) -> bool {
        self.arena.front(0) == Some(1)
            && self.arena.back(0) == Some(3)
            && self.has(0, 1)
            && self.arena.next(0, 1) == Some(2)
    }
}

static LIST_CALLS: [ListCall; 6] = [
    ListCall::PushFront(0, 2),
    ListCall::PushBack(0, 3),
    ListCall::PushBack(0, 1),
    ListCall::PushFront(1, 1),
    ListCall::MoveFront(0, 1),
    ListCall::Unlink(1, 1),
];

fn listed(alloc: Global) -> Result<bool, Refused> {
    let Ok(arena) = Arena::new(alloc, 4) else {
        return Err(Refused::SetUp);
    };
    let mut lists = FourNodes { arena };
    for call in &LIST_CALLS {
        if !lists.make(*call) {
            return Ok(false);
        }
    }
    Ok(lists.is_ordered())
}

#[test]
fn lists_without_memory(rt: HostRuntime) -> Result<(), Refused> {
    ended(&rt, listed(rt.alloc()))
}

/// A call of a cache. Numbers are of the eight bytes at the start of a line.
#[derive(Clone, Copy)]
enum CacheCall {
    Store(u32, u64),
    /// A load, which finds this number.
    Load(u32, u64),
    Mark(u32, u32),
    MarkLeaving(u32),
    WriteBack(u32),
    Evict(u32),
    /// A drop of a line that isn't dirty.
    Drop(u32),
    /// A peek at the first byte of a line.
    Peek(u32, u8),
    Resident(u32, bool),
}

/// A cache over a medium of 512 lines.
#[derive(Drop)]
struct Layers {
    cache: Cache,
    medium: Medium,
    ghost over: { IsOver cache medium },
    ghost lines: { length medium ≡ 512 },
}

impl Layers {
    fn new(alloc: Global, capacity: u32) -> Result<Layers, Refused>
        requires { 1 ≤ capacity }
    {
        let medium = zeros(alloc)?;
        if medium.lines() != 512 {
            return Err(Refused::SetUp);
        }
        match Cache::new(alloc, capacity, medium.lines()) {
            Ok(cache) => Ok(Layers { cache, medium }),
            Err(_) => Err(Refused::SetUp),
        }
    }

    /// Makes a call, and tells whether it finds what it is to find. One that may not be made now is not made.
    fn holds(&mut self, call: CacheCall) -> bool {
        match call {
            CacheCall::Store(line, value) if line < 512 => {
                self.cache.store(&mut self.medium, 64 * line, 8, value);
            }
            CacheCall::Load(line, value) if line < 512 => {
                return self.cache.load(&mut self.medium, 64 * line, 8) == value;
            }
            CacheCall::Mark(list, line) if list < 8 && line < 512 && self.cache.is_dirty(line) => {
                self.cache.mark(list, line);
            }
            CacheCall::MarkLeaving(line) if line < 512 && self.cache.is_dirty(line) => {
                self.cache.mark_leaving(line);
            }
            CacheCall::WriteBack(line) if line < 512 => {
                self.cache.write_back(&mut self.medium, line);
            }
            CacheCall::Evict(line) if line < 512 => self.cache.evict(&mut self.medium, line),
            CacheCall::Drop(line) if line < 512 && !self.cache.is_dirty(line) => {
                self.cache.drop_clean(line);
            }
            _ => return self.shows(call),
        }
        true
    }

    /// Whether what a question finds, which changes nothing, is what it is to find.
    fn shows(&self, call: CacheCall) -> bool {
        match call {
            CacheCall::Peek(line, byte) if line < 512 => {
                self.cache.peek(&self.medium, 64 * line) == byte
            }
            CacheCall::Resident(line, resident) if line < 512 => {
                self.cache.is_resident(line) == resident
            }
            _ => false,
        }
    }
}

/// The second store makes line 0 leave, where the cache has room for one line.
static CACHE_CALLS: [CacheCall; 10] = [
    CacheCall::Store(0, 5),
    CacheCall::Store(1, 6),
    CacheCall::Mark(2, 1),
    CacheCall::MarkLeaving(1),
    CacheCall::Peek(0, 5),
    CacheCall::WriteBack(1),
    CacheCall::Drop(1),
    CacheCall::Load(0, 5),
    CacheCall::Evict(0),
    CacheCall::Resident(0, false),
];

fn cached(alloc: Global) -> Result<bool, Refused> {
    let mut layers = Layers::new(alloc, 1)?;
    for call in &CACHE_CALLS {
        if !layers.holds(*call) {
            return Ok(false);
        }
    }
    Ok(true)
}

#[test]
fn cache_without_memory(rt: HostRuntime) -> Result<(), Refused> {
    ended(&rt, cached(rt.alloc()))
}

/// A call of a cache that cleans.
#[derive(Clone, Copy)]
enum PmCall {
    Store(u32, u64),
    Clean(u32, u32),
    Flush(u32, u32),
    Fence(u32),
    Evict(u32),
    /// A load, which finds this number.
    Load(u32, u64),
    /// The medium has this number in a line.
    Kept(u32, u64),
}

/// A cache over 512 lines, for eight harts.
#[derive(Drop)]
struct Persistent {
    pm: PmCache,
    ghost harts: { pm.harts ≡ 8 },
    ghost lines: { length pm.lines ≡ 512 },
}

impl Persistent {
    fn new(alloc: Global, capacity: u32) -> Result<Persistent, Refused>
        requires { 1 ≤ capacity }
    {
        let medium = zeros(alloc)?;
        if medium.lines() != 512 {
            return Err(Refused::SetUp);
        }
        match PmCache::new(alloc, medium, capacity, 8) {
            Ok(pm) => Ok(Persistent { pm }),
            Err(_) => Err(Refused::SetUp),
        }
    }

    /// Makes a call, and tells whether it finds what it is to find. One of another line or hart is not made.
    fn holds(&mut self, call: PmCall) -> bool {
        match call {
            PmCall::Store(line, value) if line < 512 => self.pm.store(64 * line, 8, value),
            PmCall::Clean(hart, line) if hart < 8 && line < 512 => self.pm.clean(hart, line),
            PmCall::Flush(hart, line) if hart < 8 && line < 512 => self.pm.flush(hart, line),
            PmCall::Fence(hart) if hart < 8 => self.pm.fence(hart),
            PmCall::Evict(line) if line < 512 => self.pm.evict(line),
            PmCall::Load(line, value) if line < 512 => {
                return self.pm.load(64 * line, 8) == value;
            }
            PmCall::Kept(line, value) if line < 512 => {
                return self.pm.medium().load(64 * line, 8) == value;
            }
            _ => return false,
        }
        true
    }

    /// What a power cut leaves in lines 0 and 1.
    fn power_cut(self) -> [u64; 2] {
        let Persistent { pm } = self;
        let medium = pm.power_cut();
        [medium.load(0, 8), medium.load(64, 8)]
    }
}

/// Line 0 is cleaned and fenced, line 1 flushed and not fenced, and line 2 leaves.
static PM_CALLS: [PmCall; 9] = [
    PmCall::Store(0, 5),
    PmCall::Store(1, 6),
    PmCall::Store(2, 7),
    PmCall::Clean(0, 0),
    PmCall::Flush(1, 1),
    PmCall::Fence(0),
    PmCall::Evict(2),
    PmCall::Load(1, 6),
    PmCall::Kept(2, 7),
];

fn cut(alloc: Global) -> Result<bool, Refused> {
    let mut persistent = Persistent::new(alloc, 8)?;
    for call in &PM_CALLS {
        if !persistent.holds(*call) {
            return Ok(false);
        }
    }
    Ok(persistent.power_cut() == [5, 0])
}

#[test]
fn pm_cache_without_memory(rt: HostRuntime) -> Result<(), Refused> {
    ended(&rt, cut(rt.alloc()))
}
