ghost use Rattle.ea_engine.specs.Equipped.{MayLeave, MayRead, MayRelax, MayScan};
ghost use Rattle.ea_engine.specs.Grounds.{tables_of};
ghost use Rattle.ea_engine.specs.Reads.{TellsFollowed};
ghost use Rattle.ea_engine.specs.Steps.{Relaxes, ScansEntry};

use crate::run::ground::Ground;
use crate::run::problem::Posed;
use crate::worker::means::Means;
use crate::worker::push::push_fresh;
use ea_base::HORIZON;
use ea_labels::{LabelSeat, Offered};
use ea_pool::{Batch, Entry, EntryHeap};
use ea_road::{Arc, Known, Leaving};
use ea_travel_times::TravelTimes;
use rand_core::Rng;
use std::alloc::Global;

/// The outcome of relaxing an arc.
#[derive(Clone, Copy, Debug, PartialEq, Eq)]
pub enum Followed {
    Unchanged,
    /// The head's label fell, and its entry is fresh.
    Lowered,
    /// The head's label fell, and the pool took all fresh entries.
    Pushed,
    /// The head's label fell, and the pool refused fresh entries.
    Refused,
}

/// The outcome of a scan: the number of labels that fell, the number of pushes, and whether a push was
/// refused.
#[derive(Clone, Copy)]
pub struct ScanEnd {
    pub lowered: u64,
    pub pushes: u64,
    pub refused: bool,
}

/// Whether an arc has a timetable, and its head a label that isn't above the departure. Then its travel time
/// isn't needed: an arc arrives no earlier than it is left. For a plain arc, computing the arrival costs less
/// than this test.
#[inline(always)]
fn is_ahead<K: Known + Posed, E: EntryHeap, T: TravelTimes>(
    ground: &Ground<'_, K, T, E>,
    seat: &mut LabelSeat<K>,
    departure: u64,
    arc: Arc,
) -> bool
    requires seat { MayRead K.is_known K.problem T.answers T.classes ground.now seat.old }
    requires arc { MayLeave K.problem.network departure arc }
    ensures { TellsFollowed K.problem seat.old seat.new departure arc result }
{
    if arc.class == 0 {
        return false;
    }
    ground.labels.read(seat, arc.head) <= departure
}

/// Computes the arrival by one arc from a popped entry, and offers it to the head. Pushes if the label fell
/// and a batch is fresh.
#[inline(always)]
fn ask_and_offer<K: Known + Posed, E: EntryHeap, T: TravelTimes, R: Rng>(
    ground: &Ground<'_, K, T, E>,
    means: &mut Means<K, R, E>,
    fresh: &mut Batch,
    batch: usize,
    entry: Entry,
    arc: Arc,
) -> Followed
    requires may { MayRelax K.is_known K.problem T.answers T.classes ground.now
        batch means.old fresh.old.items entry arc }
    ensures { Relaxes K.is_known K.problem (tables_of ground.now) R.stream batch
        means.old fresh.old.items means.new fresh.new.items entry arc result }
{
    let arrival = ground
        .times
        .arrive(arc.class, u64::from(arc.weight), entry.key);
    if arrival > HORIZON {
        return Followed::Unchanged;
    }
    match ground
        .labels
        .offer(&mut means.label_seat, arc.head, arrival)
    {
        Offered::Kept(_) => Followed::Unchanged,
        Offered::Lowered => {
            fresh.push(Entry {
                key: arrival,
                node: arc.head,
            });
            if fresh.len() < batch {
                return Followed::Lowered;
            }
            if push_fresh(ground.pool, &mut means.pool_seat, &mut means.rng, fresh) {
                Followed::Pushed
            } else {
                Followed::Refused
            }
        }
    }
}

/// Relaxes one arc from a popped entry, unless the head's label can't fall. Pushes if the label fell and a
/// batch is fresh.
#[inline(always)]
pub fn follow<K: Known + Posed, E: EntryHeap, T: TravelTimes, R: Rng>(
    ground: &Ground<'_, K, T, E>,
    means: &mut Means<K, R, E>,
    fresh: &mut Batch,
    batch: usize,
    entry: Entry,
    arc: Arc,
) -> Followed
    requires may { MayRelax K.is_known K.problem T.answers T.classes ground.now
        batch means.old fresh.old.items entry arc }
    ensures { Relaxes K.is_known K.problem (tables_of ground.now) R.stream batch
        means.old fresh.old.items means.new fresh.new.items entry arc result }
{
    if is_ahead(ground, &mut means.label_seat, entry.key, arc) {
        return Followed::Unchanged;
    }
    ask_and_offer(ground, means, fresh, batch, entry, arc)
}

/// Scans a popped entry: relaxes the arcs from its node until a push is refused.
#[inline(always)]
pub fn scan_entry<K: Known + Posed, E: EntryHeap, T: TravelTimes, R: Rng>(
    ground: &Ground<'_, K, T, E>,
    means: &mut Means<K, R, E>,
    fresh: &mut Batch,
    batch: usize,
    entry: Entry,
) -> ScanEnd
    requires may { MayScan K.is_known K.problem T.answers T.classes ground.now
        batch means.old fresh.old.items entry }
    ensures { ScansEntry K.is_known K.problem (tables_of ground.now) R.stream batch
        means.old fresh.old.items means.new fresh.new.items entry result }
{
    let mut lowered = 0;
    let mut pushes = 0;
    let Leaving { numbers: _, arcs } = ground.network.leaving(entry.node);
    for arc in arcs {
        let arc = arc.with_tail(entry.node);
        match follow(ground, means, fresh, batch, entry, arc) {
            Followed::Unchanged => {}
            Followed::Lowered => lowered += 1,
            Followed::Pushed => {
                lowered += 1;
                pushes += 1;
            }
            Followed::Refused => {
                return ScanEnd {
                    lowered: lowered + 1,
                    pushes: pushes + 1,
                    refused: true,
                };
            }
        }
    }
    ScanEnd {
        lowered,
        pushes,
        refused: false,
    }
}
