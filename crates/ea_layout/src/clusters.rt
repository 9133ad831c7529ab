//! The nodes of a network in clusters: a node, and those near it, breadth first along the arcs that leave them. Nothing rests on their
//! order, so nothing is promised of it.
use ea_road::{LeavingArc, Network};
use std::alloc::{AllocError, Global};

/// A cluster that has this many nodes takes no more.
const CLUSTER: usize = 256;

/// How many nodes before its turn a node's arcs are prefetched; their offset is twice as many before.
const AHEAD: usize = 4;

/// Nodes in their order so far.
#[derive(Drop)]
struct Clusters {
    /// Whether each node is in a cluster, the first for node 1.
    taken: Vec<bool>,
    nodes: Vec<u32>,
    /// Nodes beside full clusters, from which others are made.
    stack: Vec<u32>,
    /// What was prefetched, which has no meaning.
    seen: u32,
}

impl Clusters {
    /// Whether a node is in no cluster.
    #[inline(always)]
    fn lacks(&self, node: u32) -> bool {
        match self.taken.get((node as usize).wrapping_sub(1)) {
            Some(is) => !*is,
            None => false,
        }
    }

    /// Puts a node into the last cluster.
    #[inline(always)]
    fn take(&mut self, node: u32) -> Result<(), AllocError> {
        if let Some(slot) = self.taken.get_mut((node as usize).wrapping_sub(1)) {
            *slot = true;
        }
        self.nodes.push(node)?;
        Ok(())
    }

    /// Prefetches what is looked at soon after the node at a place.
    #[inline(always)]
    fn touch(&mut self, network: &Network, place: usize) {
        if let Some(node) = self.nodes.get(place.saturating_add(2 * AHEAD)) {
            self.seen ^= network.touch_place(*node);
        }
        if let Some(node) = self.nodes.get(place.saturating_add(AHEAD)) {
            self.seen ^= network.touch_arc(*node);
        }
    }

    /// Takes the heads of arcs that are in no cluster, or stacks them.
    fn take_heads(&mut self, arcs: &[LeavingArc], is_full: bool) -> Result<(), AllocError> {
        for arc in arcs {
            if self.lacks(arc.head) {
                if is_full {
                    self.stack.push(arc.head)?;
                } else {
                    self.take(arc.head)?;
                }
            }
        }
        Ok(())
    }

    /// Makes a cluster of a node and those near it, unless it is in one.
    fn grow(&mut self, network: &Network, node: u32) -> Result<(), AllocError> {
        if !self.lacks(node) {
            return Ok(());
        }
        let begin = self.nodes.len();
        self.take(node)?;
        for place in begin..network.nodes() as usize {
            let Some(node) = self.nodes.get(place) else {
                return Ok(());
            };
            let arcs = arcs_from(network, *node);
            // What was prefetched is looked at here, or the loads would be left out.
            let is_full = self.nodes.len().saturating_sub(begin) >= CLUSTER
                || self.seen == u32::MAX;
            self.touch(network, place);
            self.take_heads(arcs, is_full)?;
        }
        Ok(())
    }

    /// Makes clusters of a node and of those that can be reached from it, the node that was stacked last first.
    fn grow_from(&mut self, network: &Network, node: u32) -> Result<(), AllocError> {
        self.stack.push(node)?;
        // Each arc's head is stacked at most once.
        for _ in 0..network.arcs().len().saturating_add(1) {
            let Some(node) = self.stack.pop() else {
                return Ok(());
            };
            self.grow(network, node)?;
        }
        Ok(())
    }
}

/// The arcs that leave a node; none for a number that is no node's.
fn arcs_from(network: &Network, node: u32) -> &[LeavingArc] {
    if 0 < node && node <= network.nodes() {
        return network.leaving(node).arcs;
    }
    &[]
}

/// The nodes in clusters, from the first node that is in none whenever no other is left. Takes time in proportion to nodes and arcs, and
/// for a while a byte for each node and up to 4 bytes for each arc. An error comes only if memory was refused.
pub(crate) fn in_clusters(alloc: Global, network: &Network) -> Result<Vec<u32>, AllocError> {
    let nodes = network.nodes() as usize;
    let mut clusters = Clusters {
        taken: vec![in alloc; false; nodes]?,
        nodes: Vec::with_capacity(alloc, nodes)?,
        stack: Vec::new(alloc),
        seen: 0,
    };
    for node in 1..network.nodes().saturating_add(1) {
        if clusters.lacks(node) {
            clusters.grow_from(network, node)?;
        }
    }
    let Clusters { nodes, .. } = clusters;
    Ok(nodes)
}
