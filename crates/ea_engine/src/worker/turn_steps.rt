//! One turn of a worker.
ghost use Rattle.std.specs.Prelude.{◌≡◌, ◌<◌, true, false};
ghost use Rattle.arrayvec.specs.ArrayVec.{array_vec_len};
ghost use Rattle.ea_engine.specs.Equipped.{HoldNothing, MayPop, MayTurn, MayVisit};
ghost use Rattle.ea_engine.specs.Grounds.{tables_of};
ghost use Rattle.ea_engine.specs.Holds.{MayTake, PopsDrawn};
ghost use Rattle.ea_engine.specs.Steps.{TakesPop, TakesTurn, VisitsTaken};
ghost use Rattle.ea_engine.specs.Turns.{is_refused};

use crate::run::ground::Ground;
use crate::run::problem::Posed;
use crate::worker::means::Means;
use crate::worker::prefetch::read_ahead;
use crate::worker::push::push_fresh;
use crate::worker::turn::{Lists, TurnEnd, TurnKind};
use crate::worker::visit::{idle_turn, visit};
use ea_pool::{Batch, EntryHeap, Pool, PoolSeat, PoppedSome};
use ea_road::Known;
use ea_travel_times::TravelTimes;
use rand_core::Rng;
use std::alloc::Global;

impl Lists {
    /// No entry.
    pub(crate) fn empty() -> Lists
        ensures { HoldNothing result }
    {
        Lists {
            taken: Batch::new(),
            fresh: Batch::new(),
        }
    }
}

// Draws two words and pops a batch by them, the least entry last.
fn pop_drawn<K: Known, E: EntryHeap, R: Rng>(
    pool: &Pool<K, Global, E>,
    pool_seat: &mut PoolSeat<K, Global, E>,
    rng: &mut R,
    most: usize,
    taken: &mut Batch,
) -> PoppedSome
    requires may { MayTake pool.now pool_seat.old most taken.old.items }
    ensures { PopsDrawn K.is_known E.kind pool.now most taken.new.items
        pool_seat.old pool_seat.new (R.stream rng.old) (R.stream rng.new) result }
{
    let first = rng.next_u64();
    let second = rng.next_u64();
    let popped = pool.pop_some_as(pool_seat, first, second, most, taken);
    taken.reverse();
    popped
}

// Visits the least of the taken entries.
#[inline(always)]
fn visit_taken<K: Known + Posed, E: EntryHeap, T: TravelTimes, R: Rng>(
    ground: &Ground<'_, K, T, E>,
    target: Option<u32>,
    means: &mut Means<K, R, E>,
    lists: &mut Lists,
    batch: usize,
    number: u64,
) -> TurnEnd
    requires may { MayVisit K.is_known K.problem T.answers T.classes ground.now
        target batch means.old lists.old }
    ensures { VisitsTaken K.is_known K.problem (tables_of ground.now) R.stream batch
        means.old lists.old means.new lists.new number result }
{
    let Some(entry) = lists.taken.pop() else {
        unreachable!()
    };
    visit(
        ground,
        target,
        means,
        &mut lists.fresh,
        batch,
        number,
        entry,
    )
}

// Visits the least of the entries just popped, after prefetching for all of them.
fn visit_first<K: Known + Posed, E: EntryHeap, T: TravelTimes, R: Rng>(
    ground: &Ground<'_, K, T, E>,
    target: Option<u32>,
    means: &mut Means<K, R, E>,
    lists: &mut Lists,
    batch: usize,
    number: u64,
) -> TurnEnd
    requires may { MayVisit K.is_known K.problem T.answers T.classes ground.now
        target batch means.old lists.old }
    ensures { VisitsTaken K.is_known K.problem (tables_of ground.now) R.stream batch
        means.old lists.old means.new lists.new number result }
{
    read_ahead(ground, &mut means.label_seat, &lists.taken);
    visit_taken(ground, target, means, lists, batch, number)
}

// Pops entries and visits the least of them.
fn pop_and_visit<K: Known + Posed, E: EntryHeap, T: TravelTimes, R: Rng>(
    ground: &Ground<'_, K, T, E>,
    target: Option<u32>,
    means: &mut Means<K, R, E>,
    lists: &mut Lists,
    batch: usize,
    number: u64,
) -> TurnEnd
    requires may { MayPop K.is_known K.problem T.answers T.classes ground.now
        target batch means.old lists.old }
    ensures { TakesPop K.is_known K.problem (tables_of ground.now) R.stream batch E.kind
        means.old lists.old means.new lists.new number result }
{
    match pop_drawn(
        ground.pool,
        &mut means.pool_seat,
        &mut means.rng,
        batch,
        &mut lists.taken,
    ) {
        PoppedSome::Empty => idle_turn(number, TurnKind::Empty),
        PoppedSome::Busy => idle_turn(number, TurnKind::Busy),
        PoppedSome::Entries => {
            let mut end = visit_first(ground, target, means, lists, batch, number);
            end.pops = 1;
            end
        }
    }
}

// Visits the least of the taken entries; pops first if none is taken.
fn visit_next<K: Known + Posed, E: EntryHeap, T: TravelTimes, R: Rng>(
    ground: &Ground<'_, K, T, E>,
    target: Option<u32>,
    means: &mut Means<K, R, E>,
    lists: &mut Lists,
    batch: usize,
    number: u64,
) -> TurnEnd
    requires may { MayTurn K.is_known K.problem T.answers T.classes ground.now
        target batch means.old lists.old }
    ensures { TakesTurn K.is_known K.problem (tables_of ground.now) R.stream batch E.kind 0
        means.old lists.old means.new lists.new number result }
{
    if lists.taken.is_empty() {
        return pop_and_visit(ground, target, means, lists, batch, number);
    }
    visit_taken(ground, target, means, lists, batch, number)
}

// Whether fresh entries are to be pushed at the end of a turn of this kind.
fn is_due(kind: TurnKind, lists: &Lists) -> bool
    ensures { result ≡ true → (is_refused kind ≡ false) × (0 < array_vec_len lists.now.fresh) }
{
    !kind.is_refused() && lists.taken.is_empty() && !lists.fresh.is_empty()
}

/// One turn of a worker with batches of this size. If no taken entry is left at its end, the fresh ones are
/// pushed, unless a push was refused.
pub fn take_turn<K: Known + Posed, E: EntryHeap, T: TravelTimes, R: Rng>(
    ground: &Ground<'_, K, T, E>,
    target: Option<u32>,
    means: &mut Means<K, R, E>,
    lists: &mut Lists,
    batch: usize,
    number: u64,
) -> TurnEnd
    requires may { MayTurn K.is_known K.problem T.answers T.classes ground.now
        target batch means.old lists.old }
    ensures { TakesTurn K.is_known K.problem (tables_of ground.now) R.stream batch E.kind 1
        means.old lists.old means.new lists.new number result }
{
    let mut end = visit_next(ground, target, means, lists, batch, number);
    if !is_due(end.turn.kind, lists) {
        return end;
    }
    push_fresh(
        ground.pool,
        &mut means.pool_seat,
        &mut means.rng,
        &mut lists.fresh,
    );
    end.pushes += 1;
    end
}
