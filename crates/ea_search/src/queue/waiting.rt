ghost use Rattle.std.specs.Prelude.{◌≡◌, ℕ, ◌<◌, ◌≤◌, ◌+◌, [], ◌∷◌, ◌++◌, length};
ghost use Rattle.std.specs.Prelude.{Contains, IfOk, IfSome, IsTrue, MatchOption, ◌⊎◌};

use crate::prefetch::{AHEAD, Nodes};
use std::alloc::{AllocError, Global};
use std::collections::VecDeque;
use std::marker::Model;

/// The waiting nodes, oldest first, each at most once.
#[derive(Drop)]
pub struct Waiting {
    queue: VecDeque<u32>,
    marked: Vec<bool>,
}

impl Model for Waiting {
    ghost use Rattle.std.specs.Prelude.{vec_len};
    ghost use Rattle.std.specs.VecDeque.{deque_capacity};
    ghost use Rattle.ea_search.specs.Worklist.{IsWorklist, Ring};

    ghost Value = { Ring };

    ghost view = { λ o. record { nodes = vec_len o.marked; waiting = o.queue.items } };

    ghost invariant = { λ o. IsWorklist (deque_capacity o.queue) o.queue.items o.marked.items };
}

impl Waiting {
    /// An empty list with room for every node.
    pub fn reserve(alloc: Global, nodes: u32) -> Result<Waiting, AllocError>
        ensures { IfOk result (λ o. (o.nodes ≡ nodes) × (o.waiting ≡ [])) }
    {
        let queue = VecDeque::with_capacity(alloc, nodes as usize)?;
        let marked = vec![in alloc; false; nodes as usize]?;
        Ok(Waiting { queue, marked })
    }

    /// The number of waiting nodes.
    pub fn len(&self) -> usize
        ensures { result ≡ length self.now.waiting }
    {
        self.queue.len()
    }

    /// Appends a node, unless it waits already.
    pub fn add(&mut self, node: u32)
        requires { (0 < node) × (node ≤ self.old.nodes) }
        ensures again { Contains self.old.waiting node → self.new ≡ self.old }
        ensures fresh { (Contains self.old.waiting node → ⊥)
            → self.new.waiting ≡ self.old.waiting ++ node ∷ [] }
        ensures nodes { self.new.nodes ≡ self.old.nodes }
        ensures inside { Contains self.new.waiting node }
        ensures only { (v : ℕ) → Contains self.new.waiting v
            → Contains self.old.waiting v ⊎ (v ≡ node) }
        ensures kept { (v : ℕ) → Contains self.old.waiting v → Contains self.new.waiting v }
        ensures at_most_one { length self.new.waiting ≤ length self.old.waiting + 1 }
    {
        let place = node as usize - 1;
        if !self.marked[place] {
            self.marked[place] = true;
            self.queue.push_back_reserved(node);
        }
    }

    /// Appends a node, unless it waits already. Returns false if the number is no node's.
    pub fn wake(&mut self, node: u32) -> bool
        ensures nodes { self.new.nodes ≡ self.old.nodes }
        ensures inside { IsTrue result → Contains self.new.waiting node }
        ensures kept { (v : ℕ) → Contains self.old.waiting v → Contains self.new.waiting v }
    {
        if node == 0 || node as usize > self.marked.len() {
            return false;
        }
        self.add(node);
        true
    }

    /// Takes the node that has waited longest.
    pub fn take(&mut self) -> Option<u32>
        ensures taken { MatchOption result ((self.old.waiting ≡ []) × (self.new ≡ self.old))
            (λ v. self.old.waiting ≡ v ∷ self.new.waiting) }
        ensures nodes { self.new.nodes ≡ self.old.nodes }
        ensures node { IfSome result (λ v. (0 < v) × (v ≤ self.old.nodes)) }
    {
        let node = self.queue.pop_front()?;
        self.marked[node as usize - 1] = false;
        Some(node)
    }

    /// Some of the nodes that are taken next, for prefetching.
    pub fn next(&self) -> Nodes {
        let mut nodes = [0; AHEAD];
        for place in 0..AHEAD {
            if let Some(node) = self.queue.get(place) {
                nodes[place] = *node;
            }
        }
        nodes
    }

    /// Takes all nodes out.
    pub fn clear(&mut self)
        ensures waiting { self.new.waiting ≡ [] }
        ensures nodes { self.new.nodes ≡ self.old.nodes }
    {
        while let Some(_) = self.take() {}
    }
}
