//! Nodes that wait by their costs.
use crate::neighbours::count_of;
use crate::numbers::{NONE, number_at, write_number};
use std::alloc::{AllocError, Global};

/// How many nodes a block has.
const BLOCK: u32 = 64;

/// The nodes of one cost: a row of blocks. `NONE` is no block.
#[derive(Clone, Copy)]
struct Queue {
    first: u32,
    last: u32,
    /// How many nodes of the first block are taken.
    taken: u32,
    /// How many nodes were put to the last block.
    put: u32,
}

/// A queue of nodes for each cost. Their blocks share one list, and a block that is empty serves another queue.
#[derive(Drop)]
pub(crate) struct Queues {
    queues: Vec<Queue>,
    /// The nodes of the blocks, one block's after the other's.
    nodes: Vec<u32>,
    /// The block after each in its queue, or among those that are free.
    nexts: Vec<u32>,
    /// The first block that is free.
    free: u32,
}

/// The place of a node of a block.
fn place_of(block: u32, at: u32) -> usize {
    (block as usize)
        .saturating_mul(BLOCK as usize)
        .saturating_add(at as usize)
}

impl Queues {
    /// No nodes at each of these costs; there is room for this many.
    pub(crate) fn new(alloc: Global, costs: usize, nodes: usize) -> Result<Queues, AllocError> {
        let empty = Queue {
            first: NONE,
            last: NONE,
            taken: 0,
            put: 0,
        };
        Ok(Queues {
            queues: vec![in alloc; empty; costs]?,
            nodes: Vec::with_capacity(alloc, nodes)?,
            nexts: Vec::with_capacity(alloc, nodes / BLOCK as usize)?,
            free: NONE,
        })
    }

    /// A block with no next one.
    fn new_block(&mut self) -> Result<u32, AllocError> {
        let block = self.free;
        if block != NONE {
            self.free = number_at(&self.nexts, block as usize);
            write_number(&mut self.nexts, block as usize, NONE);
            return Ok(block);
        }
        let block = count_of(self.nexts.len());
        self.nexts.push(NONE)?;
        self.nodes.resize(place_of(block, BLOCK), 0)?;
        Ok(block)
    }

    /// Puts a node to those of a cost.
    pub(crate) fn put(&mut self, cost: usize, node: u32) -> Result<(), AllocError> {
        if cost >= self.queues.len() {
            return Ok(());
        }
        let mut queue = self.queues[cost];
        if queue.last == NONE || queue.put >= BLOCK {
            let block = self.new_block()?;
            if queue.last == NONE {
                queue.first = block;
                queue.taken = 0;
            } else {
                write_number(&mut self.nexts, queue.last as usize, block);
            }
            queue.last = block;
            queue.put = 0;
        }
        write_number(&mut self.nodes, place_of(queue.last, queue.put), node);
        queue.put = queue.put.saturating_add(1);
        if let Some(slot) = self.queues.get_mut(cost) {
            *slot = queue;
        }
        Ok(())
    }

    /// Takes the node that waits for the longest time among those of a cost.
    pub(crate) fn take(&mut self, cost: usize) -> Option<u32> {
        if cost >= self.queues.len() {
            return None;
        }
        let mut queue = self.queues[cost];
        if queue.first == NONE {
            return None;
        }
        let node = number_at(&self.nodes, place_of(queue.first, queue.taken));
        queue.taken = queue.taken.saturating_add(1);
        let is_last = queue.first == queue.last;
        let end = if is_last { queue.put } else { BLOCK };
        if queue.taken >= end {
            let block = queue.first;
            queue.first = number_at(&self.nexts, block as usize);
            queue.taken = 0;
            if is_last {
                queue.first = NONE;
                queue.last = NONE;
            }
            write_number(&mut self.nexts, block as usize, self.free);
            self.free = block;
        }
        self.queues[cost] = queue;
        Some(node)
    }
}
