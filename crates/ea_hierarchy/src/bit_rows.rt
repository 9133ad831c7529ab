//! The neighbours of a few nodes as rows of bits.
use crate::neighbours::{Neighbours, count_of};
use crate::numbers::{NONE, number_at};
use std::alloc::{AllocError, Global};

/// How many bits a word has.
const BITS: usize = 64;

/// The nodes that are left of a network when they are few, and the neighbours of each as a row of bits. A union of two rows takes a few
/// words, and one of two lists as many steps as they are long.
#[derive(Drop)]
pub(crate) struct BitRows {
    /// The node of each place, ascending.
    nodes: Vec<u32>,
    /// The place of each node, `NONE` of those that have none.
    places: Vec<u32>,
    /// How many neighbours each place has.
    degrees: Vec<u32>,
    /// The rows, one place's after the other's.
    words: Vec<u64>,
    /// How many words a row has.
    width: usize,
    /// The row of the node that is taken out, and which of its words aren't 0.
    taken: Vec<u64>,
    some: Vec<usize>,
}

/// The bit of a place in its word.
fn bit_of(place: usize) -> u64 {
    1u64 << (place % BITS)
}

/// Puts the bits of some words to the row that begins at a word. Returns how many it didn't have.
fn unite(taken: &[u64], some: &[usize], words: &mut [u64], begin: usize) -> u32 {
    let mut more = 0u32;
    for word in some {
        let here = begin.saturating_add(*word);
        if *word < taken.len() && here < words.len() {
            let fresh = taken[*word] & !words[here];
            // Most bits are in both rows, so branches are predicted.
            if fresh != 0 {
                words[here] |= fresh;
                more = more.saturating_add(fresh.count_ones());
            }
        }
    }
    more
}

impl BitRows {
    /// No rows.
    pub(crate) fn none(alloc: Global) -> BitRows {
        BitRows {
            nodes: Vec::new(alloc),
            places: Vec::new(alloc),
            degrees: Vec::new(alloc),
            words: Vec::new(alloc),
            width: 0,
            taken: Vec::new(alloc),
            some: Vec::new(alloc),
        }
    }

    /// Whether there are rows.
    pub(crate) fn are_there(&self) -> bool {
        self.width > 0
    }

    /// The rows of the nodes that are left.
    pub(crate) fn of(alloc: Global, around: &Neighbours) -> Result<BitRows, AllocError> {
        let mut rows = BitRows::none(alloc);
        rows.places.resize(around.nodes(), NONE)?;
        for node in 0..rows.places.len() {
            let number = count_of(node);
            if around.is_left(number) {
                rows.places[node] = count_of(rows.nodes.len());
                rows.nodes.push(number)?;
            }
        }
        let count = rows.nodes.len();
        rows.width = count / BITS + 1;
        rows.words.resize(count.saturating_mul(rows.width), 0)?;
        rows.degrees.resize(count, 0)?;
        for place in 0..count {
            let node = number_at(&rows.nodes, place);
            rows.fill(place, around.list(node));
        }
        Ok(rows)
    }

    /// Puts neighbours to the row of a place.
    fn fill(&mut self, place: usize, around: &[u32]) {
        let mut degree = 0u32;
        for node in around {
            let other = number_at(&self.places, *node as usize) as usize;
            let word = place
                .saturating_mul(self.width)
                .saturating_add(other / BITS);
            if other != place && other < self.nodes.len() && word < self.words.len() {
                let bit = bit_of(other);
                degree = degree.saturating_add(u32::from(self.words[word] & bit == 0));
                self.words[word] |= bit;
            }
        }
        if place < self.degrees.len() {
            self.degrees[place] = degree;
        }
    }

    /// How many neighbours a node has.
    pub(crate) fn degree(&self, node: u32) -> usize {
        number_at(
            &self.degrees,
            number_at(&self.places, node as usize) as usize,
        ) as usize
    }

    /// Takes the bit of a place out of the row of another.
    fn take_bit(&mut self, place: usize, bit: usize) {
        let word = place.saturating_mul(self.width).saturating_add(bit / BITS);
        if word < self.words.len() {
            self.words[word] &= !bit_of(bit);
        }
    }

    /// Copies the row of a place to the one that is taken out.
    fn take_row(&mut self, place: usize) -> Result<(), AllocError> {
        self.taken.clear();
        self.some.clear();
        let begin = place.saturating_mul(self.width);
        for word in 0..self.width {
            let here = begin.saturating_add(word);
            let bits = match self.words.get(here) {
                Some(bits) => *bits,
                None => 0,
            };
            self.taken.push(bits)?;
            if bits != 0 {
                self.some.push(word)?;
            }
        }
        Ok(())
    }

    /// Writes the nodes of the row that is taken out, ascending.
    fn take_nodes(&self, nodes: &mut Vec<u32>) -> Result<(), AllocError> {
        nodes.clear();
        for word in &self.some {
            let mut bits = match self.taken.get(*word) {
                Some(bits) => *bits,
                None => 0,
            };
            for _ in 0..BITS {
                if bits == 0 {
                    break;
                }
                let bit = bits.trailing_zeros() as usize;
                let place = word.saturating_mul(BITS).saturating_add(bit);
                nodes.push(number_at(&self.nodes, place))?;
                bits &= bits.wrapping_sub(1);
            }
        }
        Ok(())
    }

    /// Takes a node out: its neighbours become neighbours of one another. Writes which they are, ascending.
    pub(crate) fn eliminate(&mut self, node: u32, others: &mut Vec<u32>) -> Result<(), AllocError> {
        let gone = number_at(&self.places, node as usize) as usize;
        self.take_row(gone)?;
        self.take_nodes(others)?;
        for other in others.iter() {
            let place = number_at(&self.places, *other as usize) as usize;
            let begin = place.saturating_mul(self.width);
            let more = unite(&self.taken, &self.some, &mut self.words, begin);
            // It isn't its own neighbour, and the node is gone.
            self.take_bit(place, place);
            self.take_bit(place, gone);
            if place < self.degrees.len() {
                self.degrees[place] = self.degrees[place].saturating_add(more).saturating_sub(2);
            }
        }
        Ok(())
    }
}
