//! Nodes on chains: those with at most two neighbours, through which a search passes without a choice.
use ea_road::{LeavingArc, Network};
use std::alloc::{AllocError, Global};

/// How many bits a word has.
const BITS: usize = 64;

/// A bit for each node: whether it is on a chain.
#[derive(Drop)]
pub(crate) struct Chains {
    words: Vec<u64>,
}

/// Up to two neighbours of a node, 0 for none.
#[derive(Clone, Copy)]
struct TwoNeighbours {
    one: u32,
    other: u32,
}

impl TwoNeighbours {
    /// The neighbours of a node and one more, which may be among them; none if they are three.
    fn with(self, node: u32) -> Option<TwoNeighbours> {
        if node == self.one || node == self.other {
            return Some(self);
        }
        if self.one == 0 {
            return Some(TwoNeighbours { one: node, ..self });
        }
        if self.other == 0 {
            return Some(TwoNeighbours {
                other: node,
                ..self
            });
        }
        None
    }
}

/// The bit of a place in its word.
fn bit_of(place: usize) -> u64 {
    1u64 << (place % BITS)
}

/// Whether there are at most two arcs, and they lead to different nodes.
fn are_apart(arcs: &[LeavingArc]) -> bool {
    match arcs {
        [] | [_] => true,
        [first, second] => first.head != second.head,
        _ => false,
    }
}

impl Chains {
    /// All of these nodes are on chains.
    fn all(alloc: Global, nodes: u32) -> Result<Chains, AllocError> {
        Ok(Chains {
            words: vec![in alloc; u64::MAX; nodes as usize / BITS + 1]?,
        })
    }

    /// Whether a node is on a chain.
    #[inline(always)]
    pub(crate) fn has(&self, node: u32) -> bool {
        let place = (node as usize).wrapping_sub(1);
        match self.words.get(place / BITS) {
            Some(word) => *word & bit_of(place) != 0,
            None => false,
        }
    }

    /// Takes a node out.
    fn take_out(&mut self, node: u32) {
        let place = (node as usize).wrapping_sub(1);
        if let Some(word) = self.words.get_mut(place / BITS) {
            *word &= !bit_of(place);
        }
    }

    /// Makes a node a neighbour of another, which is taken out if it has too many; a loop makes none.
    fn meet(&mut self, neighbours: &mut [TwoNeighbours], node: u32, other: u32) {
        let slot = (node as usize).wrapping_sub(1);
        if node == other || slot >= neighbours.len() {
            return;
        }
        match neighbours[slot].with(other) {
            Some(with) => neighbours[slot] = with,
            None => self.take_out(node),
        }
    }

    /// Takes out the nodes with more than two neighbours, by arcs in either direction.
    fn keep_few(&mut self, alloc: Global, network: &Network) -> Result<(), AllocError> {
        let nobody = TwoNeighbours { one: 0, other: 0 };
        let mut neighbours = vec![in alloc; nobody; network.nodes() as usize]?;
        let arcs = network.arcs();
        for place in 0..arcs.len() {
            let arc = arcs.at(place);
            self.meet(&mut neighbours, arc.tail, arc.head);
            self.meet(&mut neighbours, arc.head, arc.tail);
        }
        Ok(())
    }

    /// The nodes that are on chains: they have at most two neighbours and two leaving arcs, and these aren't parallel. So a search that follows
    /// chains at once comes through a node at most twice for each time that it leaves the chain's ends.
    pub(crate) fn of(alloc: Global, network: &Network) -> Result<Chains, AllocError> {
        let mut chains = Chains::all(alloc, network.nodes())?;
        chains.keep_few(alloc, network)?;
        for node in 1..=network.nodes() {
            if !are_apart(network.leaving(node).arcs) {
                chains.take_out(node);
            }
        }
        Ok(chains)
    }
}
