//! Lists of node numbers: K lists over the same nodes, in each of which a node stands at most once.
#![tactic(auto)]

ghost use Rattle.std.specs.Prelude.{◌≡◌, ℕ, ◌≤◌, ◌<◌, ◌+◌, ◌++◌, List, [], ◌∷◌, true, false, length, replicate, IfOk, IfSome};
ghost use Rattle.index_list.specs.Lists.{has, without, first, last, after, list_of, with_list, IsSound};

use ring::Ring;
use std::alloc::{AllocError, Global};
use std::marker::Model;

mod links;
mod ring;

/// `K` lists over nodes numbered from 0. A node can stand in any of them at once, and in each at most once.
/// After making, no call takes memory and none searches a list.
#[derive(Drop)]
pub struct Arena<const K: usize> {
    nodes: u32,
    rings: Vec<Ring>,
}

impl<const K: usize> Model for Arena<K> {
    ghost use Rattle.index_list.specs.Lists.{Lists};
    ghost use Rattle.index_list.specs.Links.{lists_of, IsArena};

    ghost Value = { Lists };

    ghost view = { λ a. record { nodes = a.nodes; lists = lists_of a.rings.items } };

    ghost invariant = { λ a. IsArena K a.nodes a.rings.items };
}

#[tactic(auto, using(crate::proofs::Rings::arena_steps))]
impl<const K: usize> Arena<K> {
    /// `K` empty lists over the nodes 0 to `n - 1`. All the memory is reserved here.
    pub fn new(alloc: Global, n: u32) -> Result<Arena<K>, AllocError>
        ensures made { IfOk result (λ a. a ≡ record { nodes = n; lists = replicate K [] }) }
        ensures sound { IfOk result (λ a. IsSound K a) }
    {
        let mut rings = Vec::with_capacity(alloc, K)?;
        for _ in 0..K {
            rings.push(Ring::new(alloc, n)?)?;
        }
        Ok(Arena { nodes: n, rings })
    }

    /// Whether node `i` stands in list `k`.
    pub fn contains(&self, k: usize, i: u32) -> bool
        requires list { k < K }
        requires node { i < self.now.nodes }
        ensures value { result ≡ has i (list_of self.now k) }
        ensures sound { IsSound K self.now }
    {
        self.rings[k].contains(i)
    }

    /// The first node of list `k`, or `None` where it is empty.
    #[inline(always)]
    pub fn front(&self, k: usize) -> Option<u32>
        requires { k < K }
        ensures value { result ≡ first (list_of self.now k) }
        ensures member { IfSome result (λ i. has i (list_of self.now k) ≡ true) }
        ensures sound { IsSound K self.now }
    {
        self.rings[k].front()
    }

    /// The last node of list `k`, or `None` where it is empty.
    pub fn back(&self, k: usize) -> Option<u32>
        requires { k < K }
        ensures value { result ≡ last (list_of self.now k) }
        ensures member { IfSome result (λ i. has i (list_of self.now k) ≡ true) }
        ensures sound { IsSound K self.now }
    {
        self.rings[k].back()
    }

    /// The node right after node `i` of list `k`, or `None` where `i` is its last.
    pub fn next(&self, k: usize, i: u32) -> Option<u32>
        requires list { k < K }
        requires member { has i (list_of self.now k) ≡ true }
        ensures value { result ≡ after i (list_of self.now k) }
        ensures member { IfSome result (λ j. has j (list_of self.now k) ≡ true) }
        ensures sound { IsSound K self.now }
    {
        self.rings[k].next(i)
    }

    /// Puts node `i`, which isn't in list `k`, at its front.
    pub fn push_front(&mut self, k: usize, i: u32)
        requires list { k < K }
        requires node { i < self.old.nodes }
        requires absent { has i (list_of self.old k) ≡ false }
        ensures changed { self.new ≡ with_list self.old k (i ∷ list_of self.old k) }
        ensures was_sound { IsSound K self.old }
        ensures sound { IsSound K self.new }
    {
        let ring = &mut self.rings[k];
        ring.push_front(i);
    }

    /// Puts node `i`, which isn't in list `k`, at its back.
    pub fn push_back(&mut self, k: usize, i: u32)
        requires list { k < K }
        requires node { i < self.old.nodes }
        requires absent { has i (list_of self.old k) ≡ false }
        ensures changed { self.new ≡ with_list self.old k (list_of self.old k ++ i ∷ []) }
        ensures was_sound { IsSound K self.old }
        ensures sound { IsSound K self.new }
    {
        let ring = &mut self.rings[k];
        ring.push_back(i);
    }

    /// Takes node `i`, which is in list `k`, out of it.
    pub fn unlink(&mut self, k: usize, i: u32)
        requires list { k < K }
        requires member { has i (list_of self.old k) ≡ true }
        ensures changed { self.new ≡ with_list self.old k (without i (list_of self.old k)) }
        ensures gone { has i (list_of self.new k) ≡ false }
        ensures shorter { length (list_of self.new k) + 1 ≡ length (list_of self.old k) }
        ensures was_sound { IsSound K self.old }
        ensures sound { IsSound K self.new }
    {
        let ring = &mut self.rings[k];
        ring.unlink(i);
    }

    /// Moves node `i`, which is in list `k`, to its front.
    pub fn move_front(&mut self, k: usize, i: u32)
        requires list { k < K }
        requires member { has i (list_of self.old k) ≡ true }
        ensures changed { self.new ≡ with_list self.old k (i ∷ without i (list_of self.old k)) }
        ensures was_sound { IsSound K self.old }
        ensures sound { IsSound K self.new }
    {
        self.unlink(k, i);
        self.push_front(k, i);
    }
}
