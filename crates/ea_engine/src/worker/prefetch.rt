//! Prefetches for visits. The loads of a loop don't depend on one another, so that many overlap. No result
//! depends on the values.
ghost use Rattle.ea_road.specs.Roads.{IsNode};
ghost use Rattle.ea_engine.specs.Equipped.{MayRead, MayReadAhead};
ghost use Rattle.ea_engine.specs.Reads.{OnlyRead};

use crate::run::ground::Ground;
use crate::run::problem::Posed;
use ea_labels::LabelSeat;
use ea_pool::{Entry, EntryHeap};
use ea_road::{Known, Network};
use ea_travel_times::TravelTimes;

/// Prefetching fewer entries doesn't pay.
const FEW: usize = 4;

// Prefetches the labels of entries' nodes, and the offsets of their leaving arcs.
fn read_places<K: Known + Posed, E: EntryHeap, T: TravelTimes>(
    ground: &Ground<'_, K, T, E>,
    seat: &mut LabelSeat<K>,
    entries: &[Entry],
) -> u32
    requires may { MayReadAhead K.is_known K.problem T.answers T.classes ground.now seat.old
        entries.now }
    ensures { OnlyRead seat.old seat.new }
{
    let mut places = 0;
    for entry in entries {
        ground.labels.read(seat, entry.node);
        places ^= ground.network.touch_place(entry.node);
    }
    places
}

// Prefetches the first arcs that leave entries' nodes.
fn read_arcs(network: &Network, entries: &[Entry]) -> u32 {
    let mut heads = 0;
    for entry in entries {
        heads ^= network.touch_arc(entry.node);
    }
    heads
}

// Prefetches the labels of the heads of the arcs that leave a node.
fn read_heads<K: Known + Posed, E: EntryHeap, T: TravelTimes>(
    ground: &Ground<'_, K, T, E>,
    seat: &mut LabelSeat<K>,
    node: u32,
)
    requires seat { MayRead K.is_known K.problem T.answers T.classes ground.now seat.old }
    requires node { IsNode K.problem.network.nodes node }
    ensures { OnlyRead seat.old seat.new }
{
    for arc in ground.network.leaving(node).arcs {
        ground.labels.read(seat, arc.head);
    }
}

/// Prefetches what the visits of these entries will read, if there are several: labels, offsets of leaving
/// arcs, and the labels of heads.
pub fn read_ahead<K: Known + Posed, E: EntryHeap, T: TravelTimes>(
    ground: &Ground<'_, K, T, E>,
    seat: &mut LabelSeat<K>,
    entries: &[Entry],
)
    requires may { MayReadAhead K.is_known K.problem T.answers T.classes ground.now seat.old
        entries.now }
    ensures { OnlyRead seat.old seat.new }
{
    if entries.len() < FEW {
        return;
    }
    // Never true. The comparison consumes the values, so that the compiler keeps the prefetch loads.
    if (read_places(ground, seat, entries) ^ read_arcs(ground.network, entries)) == u32::MAX {
        return;
    }
    for entry in entries {
        read_heads(ground, seat, entry.node);
    }
}
