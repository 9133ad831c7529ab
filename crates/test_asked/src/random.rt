//! Random networks with travel times of all kinds.
ghost use Rattle.std.specs.Prelude.{◌<◌};

use ea_road::{Arc, Network, RawKind};
use ea_travel_times::Timetables;
use rand_core::Rng;
use std::alloc::{AllocError, Global};

/// The steps of speeds, trips and points.
const STEPS: [(u64, u64); 9] = [
    (0, 1000),
    (10, 250),
    (20, 0),
    (30, 3000),
    (5, 9),
    (25, 4),
    (45, 14),
    (0, 6),
    (7, 3),
];

/// A class of each of the seven kinds but the plain one.
const KINDS: [RawKind; 6] = [
    RawKind::Every {
        period: 7,
        offset: 3,
    },
    RawKind::Closed { lo: 20, hi: 60 },
    RawKind::Rush {
        lo: 10,
        hi: 30,
        extra: 11,
    },
    RawKind::Speeds {
        period: 40,
        first: 0,
        count: 4,
    },
    RawKind::Trips {
        period: 60,
        first: 4,
        count: 3,
    },
    RawKind::Points {
        period: 20,
        first: 7,
        count: 2,
    },
];

/// Travel times of all kinds; none if they don't fit.
pub fn times_of_all_kinds(alloc: Global) -> Result<Option<Timetables>, AllocError> {
    let kinds = Vec::from_array(alloc, KINDS)?;
    let steps = Vec::from_array(alloc, STEPS)?;
    if !Timetables::fits(&kinds, &steps) {
        return Ok(None);
    }
    Ok(Some(Timetables::with_steps(alloc, kinds, steps)?))
}

/// A number from 1 to the greatest, or 1.
pub fn number_to<R: Rng>(words: &mut R, greatest: u32) -> u32
    ensures { 0 < result }
{
    1 + (words.next_u64() % u64::from(greatest.max(1))) as u32 % 1_000_000
}

/// A network with as many arcs as are asked for, of all classes; none if its nodes are none.
pub fn random_network<R: Rng>(
    alloc: Global,
    words: &mut R,
    nodes: u32,
    arcs: u32,
) -> Result<Option<Network>, AllocError> {
    let mut list = Vec::new(alloc);
    for _ in 0..arcs {
        list.push(Arc {
            tail: number_to(words, nodes),
            head: number_to(words, nodes),
            weight: number_to(words, 16) - 1,
            class: number_to(words, 7) - 1,
        })?;
    }
    if !Network::fits(nodes, &list) {
        return Ok(None);
    }
    Ok(Some(Network::new(alloc, nodes, list)?))
}
