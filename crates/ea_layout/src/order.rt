//! An order of the nodes of a network, made node by node.
ghost use Rattle.std.specs.Prelude.{◌≡◌, ◌≢◌, ◌≤◌, ◌↔◌, ℕ, IfOk, IsTrue, length};
ghost use Rattle.ea_layout.specs.Orders.{AreAllPlaced};
ghost use Rattle.ea_layout.specs.Renamed.{AreReverse, number_of};
ghost use Rattle.ea_road.specs.Roads.{IsNode};

use std::alloc::{AllocError, Global};
use std::marker::Model;

/// Numbers of nodes, given from 1 on. Takes 8 bytes for each node.
#[derive(Drop)]
pub(crate) struct Order {
    /// The number of each node, 0 for none.
    places: Vec<u32>,
    /// The node of each number.
    nodes: Vec<u32>,
    count: u32,
}

impl Model for Order {
    ghost use Rattle.ea_layout.specs.Orders.{IsOrder, Ordered};

    ghost Value = { Ordered };

    ghost view = { λ o. record { places = o.places.items; nodes = o.nodes.items; count = o.count } };

    ghost invariant = { λ o. IsOrder
        (record { places = o.places.items; nodes = o.nodes.items; count = o.count }) };
}

impl Order {
    /// No node has a number yet.
    pub(crate) fn none(alloc: Global, nodes: u32) -> Result<Order, AllocError>
        requires { nodes ≤ 67108864 }
        ensures { IfOk result (λ order. length order.places ≡ nodes) }
    {
        let places = vec![in alloc; 0u32; nodes as usize]?;
        let nodes = vec![in alloc; 0u32; nodes as usize]?;
        Ok(Order {
            places,
            nodes,
            count: 0,
        })
    }

    /// Whether a node has no number yet.
    #[inline(always)]
    pub(crate) fn lacks(&self, node: u32) -> bool
        ensures { IsTrue result ↔ (IsNode (length self.now.places) node
            × (number_of self.now.places node ≡ 0)) }
    {
        match self.places.get((node as usize).wrapping_sub(1)) {
            Some(place) => *place == 0,
            None => false,
        }
    }

    /// Gives a node the next number, unless it has one. Whether it had none.
    pub(crate) fn place(&mut self, node: u32) -> bool
        ensures length { length self.new.places ≡ length self.old.places }
        ensures placed { IsNode (length self.old.places) node → number_of self.new.places node ≢ 0 }
        ensures kept { (other : ℕ) → number_of self.old.places other ≢ 0
            → number_of self.new.places other ≢ 0 }
    {
        if !self.lacks(node) {
            return false;
        }
        self.nodes[self.count as usize] = node;
        self.count += 1;
        self.places[node as usize - 1] = self.count;
        true
    }

    /// Gives the nodes that have no number yet the next ones, in their order.
    pub(crate) fn place_rest(&mut self)
        ensures length { length self.new.places ≡ length self.old.places }
        ensures all { AreAllPlaced self.new.places }
    {
        for place in 0..self.places.len() {
            self.place(place as u32 + 1);
        }
    }

    /// The number of each node, and the node of each number.
    pub(crate) fn into_parts(self) -> (Vec<u32>, Vec<u32>)
        requires { AreAllPlaced self.places }
        ensures { AreReverse (length self.places) result.0.items result.1.items }
    {
        (self.places, self.nodes)
    }
}
