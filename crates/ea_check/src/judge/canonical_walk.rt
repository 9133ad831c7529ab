//! Comparing walks with links.
ghost use Rattle.std.specs.Prelude.{◌≡◌, ◌<◌, ◌≤◌, ◌+◌, ◌↔◌, ℕ, IfOk, IsTrue, List, OnOk, length, slice_index, take};
ghost use Rattle.ea_search.specs.declared.link.Link.{Link as LinkType};
ghost use Rattle.ea_search.specs.Links.{linked_walk};
ghost use Rattle.ea_report.specs.Walks.{HasWalk};
ghost use Rattle.ea_check.specs.Paths.{IsPassed};

use crate::form::walk_reader::WalkReader;
use ea_search::Link;
use std::alloc::{AllocError, Global};

/// The nodes that the last walk passed along links, from its source on.
#[derive(Drop)]
pub(crate) struct Path {
    pub nodes: Vec<u32>,
    /// The places up to this one hold nodes of the walk.
    pub known: usize,
}

impl Path {
    /// No walk yet.
    pub(crate) fn new(alloc: Global) -> Path
        ensures { (links : List LinkType) (arcs : List ℕ) → IsPassed links arcs result.nodes.items result.known }
    {
        Path {
            nodes: Vec::new(alloc),
            known: 0,
        }
    }

    /// Takes the next walk, which shares this number of first arcs with the walk before.
    pub(crate) fn keep(&mut self, shared: usize)
        ensures { (links : List LinkType) (old new : List ℕ) → take shared old ≡ take shared new
            → IsPassed links old self.old.nodes.items self.old.known
            → IsPassed links new self.new.nodes.items self.new.known }
    {
        if shared < self.known {
            self.known = shared + 1;
        }
    }

    /// Whether a walk has the arcs along the links of a node. Takes time in proportion to the arcs that it
    /// doesn't share with the walk before.
    pub(crate) fn leads_to(
        &mut self,
        links: &[Link],
        node: u32,
        arcs: &[u32],
    ) -> Result<bool, AllocError>
        requires walk { HasWalk links.now node }
        requires passed { IsPassed links.now arcs.now self.old.nodes.items self.old.known }
        ensures same { IfOk result
            (λ same. IsTrue same ↔ (arcs.now ≡ linked_walk links.now node)) }
        ensures passed { OnOk result
            (IsPassed links.now arcs.now self.new.nodes.items self.new.known) }
    {
        make_places(&mut self.nodes, arcs.len())?;
        let same = go_back(links, node, arcs, &mut self.nodes, self.known);
        self.known = if same { arcs.len() + 1 } else { 0 };
        Ok(same)
    }
}

/// Makes a place for each node of a walk of this length.
fn make_places(nodes: &mut Vec<u32>, len: usize) -> Result<(), AllocError>
    ensures places { OnOk result (len < length nodes.new.items) }
    ensures passed { OnOk result ((links : List LinkType) (arcs : List ℕ) (known : ℕ)
        → IsPassed links arcs nodes.old.items known → IsPassed links arcs nodes.new.items known) }
{
    while nodes.len() <= len {
        nodes.push(0)?;
    }
    Ok(())
}

/// Whether a known place holds this node.
fn stands_at(nodes: &[u32], known: usize, place: usize, node: u32) -> bool
    requires { place < length nodes.now }
    ensures { IsTrue result → (place < known) × (slice_index nodes.now place ≡ node) }
{
    place < known && nodes[place] == node
}

/// Whether the arcs are those along the links of a node. Follows the links back until a place is known.
fn go_back(links: &[Link], node: u32, arcs: &[u32], nodes: &mut [u32], known: usize) -> bool
    requires walk { HasWalk links.now node }
    requires places { length arcs.now < length nodes.old }
    requires passed { IsPassed links.now arcs.now nodes.old known }
    ensures same { IsTrue result ↔ (arcs.now ≡ linked_walk links.now node) }
    ensures passed { IsTrue result
        → IsPassed links.now arcs.now nodes.new (length arcs.now + 1) }
{
    if arcs.len() != links[node as usize - 1].level as usize {
        return false;
    }
    let mut left = arcs.len();
    let mut at = node;
    'back: while left > 0 {
        if stands_at(nodes, known, left, at) {
            return true;
        }
        nodes[left] = at;
        let link = links[at as usize - 1];
        if link.arc != arcs[left - 1] {
            return false;
        }
        at = link.from;
        left -= 1;
    }
    true
}

/// Walks that are read again, and compared with links.
#[derive(Drop)]
pub(crate) struct Compared<'a> {
    pub reader: WalkReader<'a>,
    pub path: Path,
}
