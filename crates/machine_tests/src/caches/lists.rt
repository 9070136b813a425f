//! Two lists over four nodes, call by call.

ghost use Rattle.std.specs.Prelude.{◌≡◌, ◌<◌, true, false, IfSome};
ghost use Rattle.std.specs.Option.{ForSome};
ghost use Rattle.index_list.specs.Lists.{has, list_of};

use index_list::Arena;
use std::alloc::{AllocError, Global};
use std::test::Fail;

/// The node after `node` in list `k`, if there are both.
fn following(arena: &Arena<2>, k: usize, node: Option<u32>) -> Option<u32>
    requires list { k < 2 }
    requires member { ForSome node (λ i. has i (list_of arena.now k) ≡ true) }
    ensures { IfSome result (λ i. has i (list_of arena.now k) ≡ true) }
{
    arena.next(k, node?)
}

/// The first three nodes of list `k`, and what follows them.
fn nodes(arena: &Arena<2>, k: usize) -> [Option<u32>; 4]
    requires { k < 2 }
{
    let first = arena.front(k);
    let second = following(arena, k, first);
    let third = following(arena, k, second);
    let fourth = following(arena, k, third);
    [first, second, third, fourth]
}

/// A call on list 0 or 1 for a node.
#[derive(Clone, Copy)]
enum Call {
    PushFront(usize, u32),
    PushBack(usize, u32),
    MoveFront(usize, u32),
    Unlink(usize, u32),
}

/// Calls in turn, and the nodes of both lists after each.
static TURNS: [(Call, [&[u32]; 2]); 6] = [
    (Call::PushFront(0, 1), [&[1], &[]]),
    (Call::PushFront(0, 2), [&[2, 1], &[]]),
    (Call::PushBack(0, 3), [&[2, 1, 3], &[]]),
    (Call::PushBack(1, 1), [&[2, 1, 3], &[1]]),
    (Call::MoveFront(0, 3), [&[3, 2, 1], &[1]]),
    (Call::Unlink(0, 2), [&[3, 1], &[1]]),
];

/// Two lists over the nodes 0 to 3.
#[derive(Drop)]
struct FourNodes {
    arena: Arena<2>,
    ghost nodes: { arena.nodes ≡ 4 },
}

impl FourNodes {
    /// Makes a call, and tells whether it could be made: a node that is pushed isn't in the list, and another one is.
    fn make(&mut self, call: Call) -> bool {
        match call {
            Call::PushFront(k, node) if self.lacks(k, node) => self.arena.push_front(k, node),
            Call::PushBack(k, node) if self.lacks(k, node) => self.arena.push_back(k, node),
            Call::MoveFront(k, node) if self.has(k, node) => self.arena.move_front(k, node),
            Call::Unlink(k, node) if self.has(k, node) => self.arena.unlink(k, node),
            _ => return false,
        }
        true
    }

    fn lacks(&self, k: usize, node: u32) -> bool
        ensures { result ≡ true → (k < 2) × (node < 4) × (has node (list_of self.now.arena k) ≡ false) }
    {
        k < 2 && node < 4 && !self.arena.contains(k, node)
    }

    fn has(&self, k: usize, node: u32) -> bool
        ensures { result ≡ true → (k < 2) × (has node (list_of self.now.arena k) ≡ true) }
    {
        k < 2 && node < 4 && self.arena.contains(k, node)
    }

    /// Whether list `k` has these nodes in this order, forwards, at its back and one by one.
    fn is(&self, k: usize, wanted: &[u32]) -> bool
        requires { k < 2 }
    {
        let found = nodes(&self.arena, k);
        for place in 0..4 {
            if found[place as usize] != wanted.get(place as usize).copied()
                || self.has(k, place) != wanted.contains(&place)
            {
                return false;
            }
        }
        self.arena.back(k) == wanted.last().copied()
    }
}

/// The number of the first call that can't be made or leaves other lists; 0 where new lists have nodes.
fn first_difference(alloc: Global) -> Result<Option<usize>, AllocError> {
    let mut lists = FourNodes {
        arena: Arena::new(alloc, 4)?,
    };
    if !lists.is(0, &[]) || !lists.is(1, &[]) {
        return Ok(Some(0));
    }
    for (number, (call, [first, second])) in TURNS.iter().enumerate() {
        if !lists.make(*call) || !lists.is(0, first) || !lists.is(1, second) {
            return Ok(Some(number + 1));
        }
    }
    Ok(None)
}

#[test]
fn two_lists_of_four_nodes(rt: HostRuntime) -> Result<(), Fail> {
    assert_eq!(rt; first_difference(rt.alloc())?, None);
    Ok(())
}
