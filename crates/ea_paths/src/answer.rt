ghost use Rattle.std.specs.Prelude.{◌≡◌, ◌<◌, ◌↔◌, true, Some, None, IfOk, IsTrue, MatchOption};
ghost use Rattle.ea_road.specs.Queries.{IsAskedBy};
ghost use Rattle.ea_road.specs.Roads.{IsNode};
ghost use Rattle.ea_search.specs.Answers.{Answered, answer_of, arrival_of, walk_of};
ghost use Rattle.ea_paths.specs.Stored.{IsStoredAnswer};

use ea_road::NONE;
use ea_search::Link;
use std::alloc::{AllocError, Global};
use std::marker::Model;

/// Earliest arrivals and, if asked for, the canonical walks that attain them. In contracts it is one value,
/// read by `arrival_of` and `walk_of`.
#[derive(Drop)]
pub struct Answer {
    nodes: u32,
    target: Option<u32>,
    table: Vec<u64>,
    links: Vec<Link>,
    walks: bool,
}

impl Model for Answer {
    ghost use Rattle.ea_search.specs.Answers.{Answered, answer_of};
    ghost use Rattle.ea_paths.specs.Stored.{IsStoredAnswer};

    ghost Value = { Answered };

    ghost view = { λ a. answer_of a.nodes a.target a.table.items a.links.items a.walks };

    ghost invariant = { λ a.
        IsStoredAnswer (answer_of a.nodes a.target a.table.items a.links.items a.walks) };
}

impl Answer {
    /// An answer of these labels and links.
    pub fn new(
        nodes: u32,
        target: Option<u32>,
        table: Vec<u64>,
        links: Vec<Link>,
        walks: bool,
    ) -> Answer
        requires { IsStoredAnswer (answer_of nodes target table.items links.items walks) }
        ensures { result ≡ answer_of nodes target table.items links.items walks }
    {
        Answer {
            nodes,
            target,
            table,
            links,
            walks,
        }
    }

    /// The labels and the links.
    pub fn into_arrays(self) -> (Vec<u64>, Vec<Link>)
        ensures labels { result.0.items ≡ self.labels }
        ensures links { result.1.items ≡ self.links }
    {
        (self.table, self.links)
    }

    /// Whether the answer has walks.
    pub fn has_walks(&self) -> bool
        ensures { result ≡ self.now.walks }
    {
        self.walks
    }

    /// The number of nodes of the network.
    pub fn nodes(&self) -> u32
        ensures { result ≡ self.now.nodes }
    {
        self.nodes
    }

    /// The link of each node, the first that of node 1; empty if the answer has no walks. From an asked node
    /// that is reached, following as many links back as its level gives the arcs of its walk from last to
    /// first.
    pub fn links(&self) -> &[Link]
        ensures links { result.now ≡ self.now.links }
        ensures stored { IsStoredAnswer self.now }
    {
        &self.links
    }

    /// The label of each node, the first that of node 1. That of a node that isn't asked may be above its
    /// earliest arrival.
    pub fn labels(&self) -> &[u64]
        ensures labels { result.now ≡ self.now.labels }
        ensures stored { IsStoredAnswer self.now }
    {
        &self.table
    }

    /// Whether a number is that of an asked node.
    pub fn asks(&self, node: u32) -> bool
        ensures { IsTrue result ↔ (IsNode self.now.nodes node × IsAskedBy self.now.target node) }
    {
        0 < node
            && node <= self.nodes
            && match self.target {
                None => true,
                Some(target) => node == target,
            }
    }

    /// The earliest arrival at an asked node; none if no walk reaches it within the horizon.
    pub fn arrival(&self, node: u32) -> Option<u64>
        requires node { IsNode self.now.nodes node }
        requires asked { IsAskedBy self.now.target node }
        ensures { result ≡ arrival_of self.now node }
    {
        let label = self.table[node as usize - 1];
        if label == NONE { None } else { Some(label) }
    }

    /// The arc numbers of an asked node's canonical walk, first arc first; none if no walk reaches the node
    /// within the horizon. Fails only if memory for the list is refused.
    pub fn walk(&self, alloc: Global, node: u32) -> Result<Option<Vec<u32>>, AllocError>
        requires node { IsNode self.now.nodes node }
        requires asked { IsAskedBy self.now.target node }
        requires walks { self.now.walks ≡ true }
        ensures { IfOk result (λ found. MatchOption found (walk_of self.now node ≡ None)
            (λ walk. walk_of self.now node ≡ Some walk.items)) }
    {
        if self.table[node as usize - 1] == NONE {
            return Ok(None);
        }
        let mut walk = Vec::with_capacity(alloc, self.links[node as usize - 1].level as usize)?;
        let mut at = node;
        'back: while self.links[at as usize - 1].level > 0 {
            let end = self.links[at as usize - 1];
            walk.push(end.arc)?;
            at = end.from;
        }
        walk.reverse();
        Ok(Some(walk))
    }
}
