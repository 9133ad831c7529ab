//! Pushing the sources' entries, before any worker starts.
ghost use Rattle.ea_pool.specs.Seats.{IsSeatOf};
ghost use Rattle.ea_engine.specs.Gathered.{AccountForAll};
ghost use Rattle.ea_engine.specs.Grounds.{tables_of};
ghost use Rattle.ea_engine.specs.Seeds.{HasOffered, HasSown, HaveOffered, MayOffer, MaySeed};

use crate::run::ground::Ground;
use crate::run::problem::Posed;
use crate::worker::means::Seats;
use ea_labels::Offered;
use ea_pool::{Entry, EntryHeap, Pool, PoolSeat};
use ea_road::{Known, Source};
use ea_search::Open;
use ea_travel_times::TravelTimes;
use std::alloc::Global;

/// The outcome of offering a source.
#[derive(Clone, Copy, Debug, PartialEq, Eq)]
pub enum Seeded {
    /// The label was already as low.
    Kept,
    /// The pool took the entry.
    Pushed,
    /// The pool handed the entry back.
    HandedBack,
}

/// How many of the sources' entries the pool took, and how many it handed back.
#[derive(Clone, Copy, Debug, PartialEq, Eq)]
pub struct Seeds {
    pub seeded: u128,
    pub returned: u128,
}

/// Offers a source, and pushes its entry if the label fell. If the pool hands the entry back, its node is
/// opened.
pub fn seed<K: Known + Posed, E: EntryHeap, T: TravelTimes>(
    ground: &Ground<'_, K, T, E>,
    seats: &mut Seats<K, E>,
    todo: &mut Open,
    word: u64,
    source: Source,
) -> Seeded
    requires account { AccountForAll K.problem (tables_of ground.now)
        ground.now.labels.now.nodes seats.old todo.old }
    requires source { MayOffer K.is_known ground.now.labels.now.nodes source }
    ensures { HasOffered K.problem (tables_of ground.now) ground.now.labels.now.nodes
        result seats.old seats.new todo.old todo.new source }
{
    let offered = ground
        .labels
        .offer(&mut seats.label_seat, source.node, source.departure);
    match offered {
        Offered::Kept(_) => Seeded::Kept,
        Offered::Lowered => sow(ground.pool, &mut seats.pool_seat, todo, word, source),
    }
}

/// Pushes the entry of a source whose label fell. If the pool hands the entry back, its node is opened.
fn sow<K: Known + Posed, E: EntryHeap>(
    pool: &Pool<K, Global, E>,
    seat: &mut PoolSeat<K, Global, E>,
    todo: &mut Open,
    word: u64,
    source: Source,
) -> Seeded
    requires seat { IsSeatOf pool.now seat.old }
    requires source { MayOffer K.is_known todo.old.nodes source }
    ensures { HasSown K.problem pool.now result seat.old seat.new todo.old todo.new source }
{
    let entry = Entry {
        key: source.departure,
        node: source.node,
    };
    match pool.push_as(seat, word, entry) {
        Ok(()) => Seeded::Pushed,
        Err(_) => {
            todo.add(source.node);
            Seeded::HandedBack
        }
    }
}

/// Offers all sources in their order. The entries of those whose labels fall are pushed with the words 0, 1,
/// 2, .. in turn. On a new table these are the sources that depart before each earlier source at their node.
pub fn seed_all<K: Known + Posed, E: EntryHeap, T: TravelTimes>(
    ground: &Ground<'_, K, T, E>,
    seats: &mut Seats<K, E>,
    todo: &mut Open,
) -> Seeds
    requires may { MaySeed K.is_known K.problem T.answers T.classes ground.now
        seats.old todo.old }
    ensures { HaveOffered K.problem (tables_of ground.now) ground.now.labels.now.nodes
        seats.old seats.new todo.old todo.new result }
{
    let mut seeded = 0u128;
    let mut returned = 0u128;
    let sources = ground.query.sources();
    for place in 0..sources.len() {
        // The number of pushes tried before.
        let word = (seeded + returned) as u64;
        match seed(ground, seats, todo, word, sources[place]) {
            Seeded::Kept => {}
            Seeded::Pushed => seeded += 1,
            Seeded::HandedBack => returned += 1,
        }
    }
    Seeds { seeded, returned }
}
