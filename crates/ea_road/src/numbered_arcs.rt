//! A network without an index.
ghost use Rattle.std.specs.Prelude.{◌≡◌, ◌≤◌, ◌<◌, [], length};
ghost use Rattle.ea_road.specs.Roads.{FitsNodes, IsArc, IsNetwork};

use crate::arc::Arc;
use crate::arc_list::ArcList;
use std::alloc::Global;
use std::marker::Model;

/// A network without an index by tail: nodes numbered from 1, and arcs numbered from 1 in the order in which they
/// were given. In contracts it is what it is as a `Network`.
#[derive(Drop)]
pub struct NumberedArcs {
    nodes: u32,
    list: ArcList,
}

impl Model for NumberedArcs {
    ghost use Rattle.ea_road.specs.Roads.{IsNetwork, Roads};

    ghost Value = { Roads };

    ghost view = { λ n. record { nodes = n.nodes; arcs = n.list } };

    ghost invariant = { λ n. IsNetwork (record { nodes = n.nodes; arcs = n.list }) };
}

impl NumberedArcs {
    /// This many nodes, numbered from 1, and these arcs.
    pub fn new(nodes: u32, list: ArcList) -> NumberedArcs
        requires { IsNetwork (record { nodes = nodes; arcs = list }) }
        ensures { result ≡ record { nodes = nodes; arcs = list } }
    {
        NumberedArcs { nodes, list }
    }

    /// One node and no arcs. Takes no memory.
    pub fn least(alloc: Global) -> NumberedArcs
        ensures { result ≡ record { nodes = 1; arcs = [] } }
    {
        NumberedArcs::new(1, ArcList::empty(alloc))
    }

    /// The number of nodes.
    pub fn nodes(&self) -> u32
        ensures nodes { result ≡ self.now.nodes }
        ensures network { IsNetwork self.now }
    {
        self.nodes
    }

    /// The arcs, in the order of their numbers.
    pub fn arcs(&self) -> &ArcList
        ensures arcs { result.now ≡ self.now.arcs }
        ensures network { IsNetwork self.now }
    {
        &self.list
    }

    /// The arc of a number, from 1.
    pub fn arc(&self, number: u32) -> Arc
        requires from_one { 0 < number }
        requires to_last { number ≤ length self.now.arcs }
        ensures arc { IsArc self.now number result }
        ensures fits { FitsNodes self.now.nodes result }
        ensures network { IsNetwork self.now }
    {
        self.list.at(number as usize - 1)
    }
}
