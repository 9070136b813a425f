//! One list of nodes, held as a ring of next and previous numbers.

ghost use Rattle.std.specs.Prelude.{◌≡◌, ◌<◌, ◌++◌, ◌==◌, [], ◌∷◌, true, false, if◌then◌else◌, IfOk};
ghost use Rattle.index_list.specs.Lists.{has, without, first, last, after};

use crate::links::Links;
use std::alloc::{AllocError, Global};
use std::marker::Model;

/// A list of nodes below `nodes`. A node outside of the list is its own neighbour, or has no links yet.
#[derive(Drop)]
pub struct Ring {
    links: Links,
}

impl Model for Ring {
    ghost use Rattle.index_list.specs.Lists.{NodeList};
    ghost use Rattle.index_list.specs.Links.{spelled, IsLinked};
    ghost use Rattle.std.specs.Prelude.{vec_capacity};

    ghost Value = { NodeList };

    ghost view = { λ r. record { nodes = r.links.nodes; items = spelled r.links.end r.links.next.items } };

    ghost invariant = { λ r. IsLinked r.links.nodes r.links.end r.links.next.items r.links.prev.items (spelled r.links.end r.links.next.items)
        (vec_capacity r.links.next) (vec_capacity r.links.prev) };
}

impl Ring {
    /// An empty list over `n` nodes.
    pub fn new(alloc: Global, n: u32) -> Result<Ring, AllocError>
        ensures { IfOk result (λ r. r ≡ record { nodes = n; items = [] }) }
    {
        let links = Links::new(alloc, n)?;
        Ok(Ring { links })
    }

    /// Whether `i` is in the list: then another number follows it.
    pub fn contains(&self, i: u32) -> bool
        requires { i < self.now.nodes }
        ensures { result ≡ has i self.now.items }
    {
        i < self.links.end && self.links.next[i as usize] != i
    }

    /// The first node.
    #[inline(always)]
    pub fn front(&self) -> Option<u32>
        ensures { result ≡ first self.now.items }
    {
        node_before_end(self.links.next[self.links.end as usize], self.links.end)
    }

    /// The last node.
    pub fn back(&self) -> Option<u32>
        ensures { result ≡ last self.now.items }
    {
        node_before_end(self.links.prev[self.links.end as usize], self.links.end)
    }

    /// The node after `i`, which is in the list.
    pub fn next(&self, i: u32) -> Option<u32>
        requires { has i self.now.items ≡ true }
        ensures { result ≡ after i self.now.items }
    {
        node_before_end(self.links.next[i as usize], self.links.end)
    }

    /// Puts `i`, which isn't in the list, at its front.
    pub fn push_front(&mut self, i: u32)
        requires below { i < self.old.nodes }
        requires fresh { has i self.old.items ≡ false }
        ensures { self.new ≡ record self.old { items = i ∷ self.old.items } }
    {
        self.links.reach(i);
        let end = self.links.end;
        let following = self.links.next[end as usize];
        self.links.next[end as usize] = i;
        self.links.next[i as usize] = following;
        self.links.prev[following as usize] = i;
        self.links.prev[i as usize] = end;
    }

    /// Puts `i`, which isn't in the list, at its back.
    pub fn push_back(&mut self, i: u32)
        requires below { i < self.old.nodes }
        requires fresh { has i self.old.items ≡ false }
        ensures { self.new ≡ record self.old { items = self.old.items ++ i ∷ [] } }
    {
        self.links.reach(i);
        let end = self.links.end;
        let preceding = self.links.prev[end as usize];
        self.links.prev[end as usize] = i;
        self.links.prev[i as usize] = preceding;
        self.links.next[preceding as usize] = i;
        self.links.next[i as usize] = end;
    }

    /// Takes `i` out of the list.
    pub fn unlink(&mut self, i: u32)
        requires { has i self.old.items ≡ true }
        ensures changed { self.new ≡ record self.old { items = without i self.old.items } }
        ensures below { i < self.old.nodes }
        ensures gone { has i self.new.items ≡ false }
    {
        let preceding = self.links.prev[i as usize];
        let following = self.links.next[i as usize];
        self.links.next[preceding as usize] = following;
        self.links.prev[following as usize] = preceding;
        self.links.next[i as usize] = i;
        self.links.prev[i as usize] = i;
    }
}

/// The linked node, unless the link is the end of the ring.
fn node_before_end(link: u32, end: u32) -> Option<u32>
    ensures { result ≡ (if link == end then None else Some link) }
{
    (link != end).then_some(link)
}
