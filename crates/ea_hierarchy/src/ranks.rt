//! Orders of nodes, and the ranks of nodes in them.
ghost use Rattle.std.specs.Prelude.{◌≡◌, ◌≤◌, ◌<◌, ◌+◌, ◌-◌, ℕ, IfOk, IsTrue, Contains, length, true};
ghost use Rattle.std.specs.List.{range_with_len};
ghost use Rattle.ea_hierarchy.specs.Hierarchies.{AreRanks, rank_of};
ghost use Rattle.ea_hierarchy.specs.Orders.{IsOrder};

use crate::upward::copy_of;
use std::alloc::{AllocError, Global};
use std::marker::Model;

/// The ranks of nodes, from 0. In contracts they are the list of them.
#[derive(Drop)]
pub(crate) struct Ranks {
    /// The number of nodes.
    nodes: u32,
    /// Their ranks; none if each node's is its number less one, so that nothing is stored.
    list: Option<Vec<u32>>,
}

impl Model for Ranks {
    ghost use Rattle.std.specs.Prelude.{List, ℕ, ◌≡◌, IfSome, length};

    ghost Value = { List ℕ };

    ghost use Rattle.ea_hierarchy.specs.Orders.{ranks_in};

    ghost view = { λ r. ranks_in r.nodes r.list };

    ghost invariant = { λ r. IfSome r.list (λ list. length list.items ≡ r.nodes) };
}

impl Ranks {
    /// The ranks of nodes that are numbered in their order.
    pub(crate) fn by_numbers(nodes: u32) -> Ranks
        ensures ranks { AreRanks nodes result }
        ensures numbers { result ≡ range_with_len 0 nodes }
    {
        Ranks { nodes, list: None }
    }

    /// The ranks of nodes: their places in an order. A node that isn't in the order has rank 0.
    pub(crate) fn in_order(alloc: Global, nodes: u32, order: &[u32]) -> Result<Ranks, AllocError>
        requires { 0 < nodes }
        ensures { IfOk result (AreRanks nodes) }
    {
        let list = places_in(alloc, nodes, order)?;
        Ok(Ranks {
            nodes,
            list: Some(list),
        })
    }

    /// The same ranks once more.
    pub(crate) fn again(&self, alloc: Global) -> Result<Ranks, AllocError>
        ensures { IfOk result (λ it. it ≡ self.now) }
    {
        let nodes = self.nodes;
        let list = match &self.list {
            Some(list) => Some(copy_of(alloc, list)?),
            None => None,
        };
        Ok(Ranks { nodes, list })
    }

    /// The number of nodes.
    pub(crate) fn nodes(&self) -> u32
        ensures { result ≡ length self.now }
    {
        self.nodes
    }

    /// The rank of a node.
    #[inline(always)]
    pub(crate) fn of(&self, node: u32) -> u32
        requires from_one { 0 < node }
        requires to_last { node ≤ length self.now }
        ensures { result ≡ rank_of self.now node }
    {
        match &self.list {
            Some(list) => list[node as usize - 1],
            None => node - 1,
        }
    }
}

/// The place of each node in an order, from 0; 0 if it isn't there.
fn places_in(alloc: Global, nodes: u32, order: &[u32]) -> Result<Vec<u32>, AllocError>
    requires { 0 < nodes }
    ensures { IfOk result (λ ranks. AreRanks nodes ranks.items) }
{
    let mut ranks = vec![in alloc; 0u32; nodes as usize]?;
    for place in 0..(nodes as usize).min(order.len()) {
        let slot = (order[place] as usize).wrapping_sub(1);
        if slot < ranks.len() {
            ranks[slot] = place as u32;
        }
    }
    Ok(ranks)
}

/// Whether a list is an order of this many nodes: each is in it once. An error comes only if memory was refused.
pub fn is_order(alloc: Global, nodes: u32, order: &[u32]) -> Result<bool, AllocError>
    ensures is { IfOk result (λ is. is ≡ true → IsOrder nodes order.now) }
    ensures refused { IfOk result (λ is. IsOrder nodes order.now → is ≡ true) }
{
    if order.len() != nodes as usize {
        return Ok(false);
    }
    let mut seen = vec![in alloc; false; nodes as usize]?;
    for place in 0..order.len() {
        let node = order[place];
        if node == 0 {
            return Ok(false);
        }
        if node > nodes {
            return Ok(false);
        }
        if seen[node as usize - 1] {
            return Ok(false);
        }
        seen[node as usize - 1] = true;
    }
    Ok(true)
}
