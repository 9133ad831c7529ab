//! An elimination order: the cheapest node first, by its degree and its level.
use crate::bit_rows::BitRows;
use crate::neighbours::{Neighbours, count_of};
use crate::queues::Queues;
use crate::upward::Limits;
use ea_road::Network;
use std::alloc::{AllocError, Global};
use std::mem;

/// How many costs differ; dearer nodes share the last one.
const COSTS: usize = 4096;

/// When at most this many nodes are left, rows of bits take the place of lists.
const FEW: usize = 8192;

/// And at most this part of all nodes, since rows take memory by the square of their number.
const PART_OF_ALL: usize = 16;

/// Nodes are eliminated one after the other: the neighbours of one become neighbours of one another. Nodes
/// count from 0 here.
#[derive(Drop)]
struct Elimination {
    around: Neighbours,
    /// The neighbours of each node once few are left, in place of the lists.
    rows: BitRows,
    /// Nodes by their costs, some of which have changed since.
    waiting: Queues,
    /// No node that is left costs less.
    cheapest: usize,
    order: Vec<u32>,
    /// The neighbours that were left of the last node of the order.
    others: Vec<u32>,
}

impl Elimination {
    /// No node of a network is eliminated yet.
    fn of(alloc: Global, network: &Network) -> Result<Elimination, AllocError> {
        let around = Neighbours::of(alloc, network)?;
        let nodes = around.nodes();
        Ok(Elimination {
            around,
            rows: BitRows::none(alloc),
            waiting: Queues::new(alloc, COSTS, nodes.saturating_add(nodes / 4))?,
            cheapest: 0,
            order: Vec::with_capacity(alloc, nodes)?,
            others: Vec::new(alloc),
        })
    }

    /// The number of neighbours that are left; in a list that isn't in order some count more than once.
    fn degree(&self, node: u32) -> usize {
        if self.rows.are_there() {
            return self.rows.degree(node);
        }
        self.around.degree(node)
    }

    /// Four times the degree, and the level.
    fn cost(&self, node: u32) -> usize {
        let cost = self
            .degree(node)
            .saturating_mul(4)
            .saturating_add(self.around.level(node) as usize);
        cost.min(COSTS - 1)
    }

    /// Puts a node to those of its cost.
    fn put(&mut self, node: u32) -> Result<(), AllocError> {
        let cost = self.cost(node);
        self.waiting.put(cost, node)?;
        self.cheapest = self.cheapest.min(cost);
        Ok(())
    }

    /// The next cheapest node.
    fn next(&mut self) -> Option<u32> {
        for _ in 0..u64::MAX {
            if self.cheapest >= COSTS {
                return None;
            }
            match self.waiting.take(self.cheapest) {
                None => self.cheapest += 1,
                Some(node) => {
                    if self.around.is_left(node) && self.cost(node) == self.cheapest {
                        return Some(node);
                    }
                }
            }
        }
        None
    }

    /// Eliminates a node. Returns its degree.
    fn eliminate(&mut self, alloc: Global, node: u32) -> Result<usize, AllocError> {
        let mut others = mem::replace(&mut self.others, Vec::new(alloc));
        self.around.leave(node);
        if self.rows.are_there() {
            self.rows.eliminate(node, &mut others)?;
        } else {
            self.around.eliminate(alloc, node, &mut others)?;
        }
        self.order.push(node.saturating_add(1))?;
        for neighbour in &others {
            self.around.rise(*neighbour, node);
            self.put(*neighbour)?;
        }
        self.others = others;
        Ok(self.others.len())
    }

    /// Makes rows of the nodes that are left, which are few, in place of lists.
    fn make_rows(&mut self, alloc: Global) -> Result<(), AllocError> {
        self.around.compact(alloc, 0)?;
        self.rows = BitRows::of(alloc, &self.around)?;
        self.around.forget(alloc);
        // Their costs are exact now.
        for node in 0..count_of(self.around.nodes()) {
            if self.around.is_left(node) {
                self.put(node)?;
            }
        }
        Ok(())
    }
}

/// An elimination order of a network's nodes; none if it makes too many upward arcs or triangles.
pub(crate) fn eliminate_all(
    alloc: Global,
    network: &Network,
    limits: Limits,
) -> Result<Option<Vec<u32>>, AllocError> {
    let mut elimination = Elimination::of(alloc, network)?;
    for node in 0..network.nodes() {
        elimination.put(node)?;
    }
    let mut arcs = 0u64;
    let mut triangles = 0u64;
    let nodes = network.nodes() as usize;
    let few = nodes.saturating_sub(FEW.min(nodes / PART_OF_ALL));
    for done in 0..nodes {
        if done == few {
            elimination.make_rows(alloc)?;
        }
        let Some(node) = elimination.next() else {
            break;
        };
        let degree = elimination.eliminate(alloc, node)? as u64;
        arcs = arcs.saturating_add(degree);
        triangles = triangles.saturating_add(degree.saturating_mul(degree) / 2);
        if arcs > u64::from(limits.arcs) || triangles > limits.triangles {
            return Ok(None);
        }
        if !elimination.around.fit() {
            return Ok(None);
        }
    }
    Ok(Some(mem::replace(&mut elimination.order, Vec::new(alloc))))
}
