//! Networks and queries for the tests.
use ea_road::{Arc, Network, Query, Source};
use std::alloc::{AllocError, Global};
use test_support::tally::Tally;

/// An arc of class 0.
pub fn arc(tail: u32, head: u32, weight: u32) -> Arc {
    Arc {
        tail,
        head,
        weight,
        class: 0,
    }
}

/// The arcs of the example four-nodes.
pub const ARCS: [Arc; 5] = [
    Arc {
        tail: 1,
        head: 2,
        weight: 7,
        class: 0,
    },
    Arc {
        tail: 1,
        head: 3,
        weight: 2,
        class: 0,
    },
    Arc {
        tail: 3,
        head: 2,
        weight: 3,
        class: 0,
    },
    Arc {
        tail: 2,
        head: 4,
        weight: 1,
        class: 0,
    },
    Arc {
        tail: 3,
        head: 4,
        weight: 9,
        class: 0,
    },
];

/// The arrivals of its nodes.
pub const ARRIVALS: [u64; 4] = [0, 5, 2, 6];

pub fn four_arcs(alloc: Global) -> Result<Vec<Arc>, AllocError> {
    let mut arcs = Vec::with_capacity(alloc, ARCS.len())?;
    for arc in &ARCS {
        arcs.push(*arc)?;
    }
    Ok(arcs)
}

/// The network; none if the arcs don't fit.
pub fn four_nodes(alloc: Global) -> Result<Option<Network>, AllocError> {
    let arcs = four_arcs(alloc)?;
    if !Network::fits(4, &arcs) {
        return Ok(None);
    }
    Ok(Some(Network::new(alloc, 4, arcs)?))
}

/// All nodes from node 1 at 0.
pub fn from_first() -> Query {
    Query::from_one(Source {
        node: 1,
        departure: 0,
    })
}

/// Whether no call was wrong, and at least this many were refused and this many right.
pub fn fared(tally: Tally, refused: u32, right: u32) -> bool {
    tally.wrong == 0 && refused <= tally.refused && right <= tally.right
}
