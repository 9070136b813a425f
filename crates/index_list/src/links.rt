//! The numbers that link the nodes of one list. A node gets them when it is first put in, and so do those below it that have none.

ghost use Rattle.std.specs.Prelude.{◌≡◌, ◌+◌, ◌<◌, ◌≤◌, [], IfOk, max, vec_capacity};
ghost use Rattle.index_list.specs.Links.{spelled, IsLinked};

use std::alloc::{AllocError, Global};

/// The next and the previous number of each node below `end`, and of `end`, which closes the ring. The other nodes, as far as
/// `nodes`, stand in no list; room for their numbers is reserved and not written.
#[derive(Drop)]
pub struct Links {
    pub end: u32,
    pub nodes: u32,
    pub next: Vec<u32>,
    pub prev: Vec<u32>,
}

impl Links {
    /// An empty ring, with room for so many nodes.
    pub fn new(alloc: Global, nodes: u32) -> Result<Links, AllocError>
        ensures nodes { IfOk result (λ links. links.nodes ≡ nodes) }
        ensures end { IfOk result (λ links. links.end ≡ 0) }
        ensures linked { IfOk result (λ links. IsLinked links.nodes links.end links.next.items links.prev.items []
            (vec_capacity links.next) (vec_capacity links.prev)) }
    {
        let room = nodes as usize + 1;
        let mut next = Vec::with_capacity(alloc, room)?;
        let mut prev = Vec::with_capacity(alloc, room)?;
        next.push_reserved(0);
        prev.push_reserved(0);
        Ok(Links {
            end: 0,
            nodes,
            next,
            prev,
        })
    }

    /// Makes sure that a node has links. The list stays.
    #[inline(always)]
    pub fn reach(&mut self, node: u32)
        requires node { node < self.old.nodes }
        requires linked { IsLinked self.old.nodes self.old.end self.old.next.items self.old.prev.items
            (spelled self.old.end self.old.next.items) (vec_capacity self.old.next) (vec_capacity self.old.prev) }
        ensures end { self.new.end ≡ max self.old.end (node + 1) }
        ensures nodes { self.new.nodes ≡ self.old.nodes }
        ensures linked { IsLinked self.old.nodes self.new.end self.new.next.items self.new.prev.items
            (spelled self.old.end self.old.next.items) (vec_capacity self.new.next) (vec_capacity self.new.prev) }
    {
        if self.end <= node {
            self.add_up_to(node);
        }
    }

    /// Gives links to a node that has none, and to those below it that have none.
    #[cold]
    #[inline(never)]
    fn add_up_to(&mut self, node: u32)
        requires node { node < self.old.nodes }
        requires none { self.old.end ≤ node }
        requires linked { IsLinked self.old.nodes self.old.end self.old.next.items self.old.prev.items
            (spelled self.old.end self.old.next.items) (vec_capacity self.old.next) (vec_capacity self.old.prev) }
        ensures end { self.new.end ≡ node + 1 }
        ensures nodes { self.new.nodes ≡ self.old.nodes }
        ensures linked { IsLinked self.old.nodes self.new.end self.new.next.items self.new.prev.items
            (spelled self.old.end self.old.next.items) (vec_capacity self.new.next) (vec_capacity self.new.prev) }
    {
        for _ in self.end..=node {
            self.add_node();
        }
    }

    /// Gives links to one node more. It had the number of the end, which is one further afterwards.
    fn add_node(&mut self)
        requires more { self.old.end < self.old.nodes }
        requires linked { IsLinked self.old.nodes self.old.end self.old.next.items self.old.prev.items
            (spelled self.old.end self.old.next.items) (vec_capacity self.old.next) (vec_capacity self.old.prev) }
        ensures end { self.new.end ≡ self.old.end + 1 }
        ensures nodes { self.new.nodes ≡ self.old.nodes }
        ensures linked { IsLinked self.old.nodes self.new.end self.new.next.items self.new.prev.items
            (spelled self.old.end self.old.next.items) (vec_capacity self.new.next) (vec_capacity self.new.prev) }
    {
        let node = self.end;
        let first = self.next[node as usize];
        let last = self.prev[node as usize];
        self.end = node + 1;
        self.next.push_reserved(self.end);
        self.prev.push_reserved(self.end);
        if first != node {
            self.next[self.end as usize] = first;
            self.prev[self.end as usize] = last;
            self.next[last as usize] = self.end;
            self.prev[first as usize] = self.end;
            self.next[node as usize] = node;
            self.prev[node as usize] = node;
        }
    }
}
