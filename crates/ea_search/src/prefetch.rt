//! Prefetches for scans. The loads of a loop don't depend on one another, so that many overlap. The returned
//! numbers only keep the loads alive; they have no meaning.

use crate::labels::table::{Table, touched};
use crate::link::Link;
use ea_road::{LeavingArc, Network};

/// How many nodes are prefetched at once.
pub const AHEAD: usize = 16;

/// AHEAD nodes, filled up with 0.
pub type Nodes = [u32; AHEAD];

/// The arcs that leave a node; none for a number that is no node's.
fn arcs_from(network: &Network, node: u32) -> &[LeavingArc] {
    if 0 < node && node <= network.nodes() {
        return network.leaving(node).arcs;
    }
    &[]
}

/// Prefetches the labels and the offsets of the leaving arcs of entries' nodes.
pub fn touch_entries<L: Table>(network: &Network, table: &L, entries: &[(u64, u32)]) -> u64 {
    let mut seen = 0;
    for entry in entries {
        seen ^= table.touch(entry.1) ^ u64::from(network.touch_place(entry.1));
    }
    seen
}

/// Prefetches the first arc that leaves each entry's node.
pub fn touch_first_arcs(network: &Network, entries: &[(u64, u32)]) -> u64 {
    let mut seen = 0;
    for entry in entries {
        seen ^= u64::from(network.touch_arc(entry.1));
    }
    seen
}

/// Prefetches the labels of nodes, and the first arc that leaves each.
pub fn touch_nodes(network: &Network, table: &[u64], nodes: &Nodes) -> u64 {
    let mut seen = 0;
    for node in nodes {
        seen ^= touched(table, *node) ^ u64::from(network.touch_place(*node));
    }
    for node in nodes {
        seen ^= u64::from(network.touch_arc(*node));
    }
    seen
}

/// Prefetches the labels and levels of the heads of the arcs that leave nodes.
pub fn touch_heads(network: &Network, table: &[u64], links: &[Link], nodes: &Nodes) -> u64 {
    let mut seen = 0;
    for node in nodes {
        for arc in arcs_from(network, *node) {
            seen ^= touched(table, arc.head);
        }
    }
    for node in nodes {
        for arc in arcs_from(network, *node) {
            if let Some(link) = links.get((arc.head as usize).wrapping_sub(1)) {
                seen ^= u64::from(link.level);
            }
        }
    }
    seen
}
