ghost use Rattle.std.specs.Prelude.{◌≡◌, ◌+◌, ◌<◌, ◌||◌, if◌then◌else◌};
ghost use Rattle.ea_base.specs.declared.limits.TheConstants.{MOST_PATIENCE};
ghost use Rattle.ea_engine.specs.Equipped.{MayWork};
ghost use Rattle.ea_engine.specs.Grounds.{tables_of};
ghost use Rattle.ea_engine.specs.Rows.{HasWorked};
ghost use Rattle.ea_engine.specs.Seated.{AreSeatsOf};
ghost use Rattle.ea_engine.specs.Turns.{is_idle, is_refused, is_leave};

use crate::run::ground::Ground;
use crate::run::problem::Posed;
use crate::settings::Pace;
use crate::worker::counters::Counters;
use crate::worker::gate::Gate;
use crate::worker::means::Means;
use crate::worker::turn::{Flow, Hand, Lists, Turn, TurnKind};
use crate::worker::turn_steps::take_turn;
use ea_labels::LabelSeat;
use ea_pool::{EntryHeap, LeastHeap, PoolSeat};
use ea_road::Known;
use ea_travel_times::TravelTimes;
use rand_core::Rng;
use std::alloc::Global;
use std::hint;

/// From this patience on, a worker spins only briefly after a turn that found nothing.
const MUCH_PATIENCE: u32 = 1_024;

/// The results of a worker.
#[derive(Drop)]
pub struct WorkerEnd<K: Known, R, F, E: EntryHeap = LeastHeap<Global>> {
    /// Its seat of the label table.
    pub label_seat: LabelSeat<K>,
    /// Its seat of the pool.
    pub pool_seat: PoolSeat<K, Global, E>,
    /// The entries that it hands back.
    pub hand: Hand,
    /// What it counted.
    pub counters: Counters,
    /// Its generator, two words further for a pop and one for a push.
    pub rng: R,
    /// Its tracer, after all turns.
    pub tracer: F,
}

// The number of consecutive idle turns, after one more turn.
fn idle_after(idle: u32, kind: TurnKind) -> u32
    requires { idle < MOST_PATIENCE }
    ensures { result ≡ (if is_idle kind then idle + 1 else 0) }
{
    if kind.is_idle() { idle + 1 } else { 0 }
}

// Whether a turn ends the worker.
fn is_last(kind: TurnKind, flow: Flow) -> bool
    ensures { result ≡ (is_refused kind || is_leave flow) }
{
    kind.is_refused() || flow.is_leave()
}

// Spins after the n-th consecutive idle turn. A worker of little patience spins longer, so that it doesn't
// end before others' entries arrive; one of much patience tries again soon.
fn pause(idle: u32, patience: u32) {
    let most = if patience < MUCH_PATIENCE { 6 } else { 2 };
    if idle > 0 {
        for _ in 0..(1u32 << idle.min(most)) {
            hint::spin_loop();
        }
    }
}

/// Runs a worker until a turn ends it, its budget of turns is spent, or its patience is. Workers count from
/// 0.
pub fn work<
    K: Known + Posed,
    E: EntryHeap,
    T: TravelTimes,
    R: Rng,
    G: Gate,
    F: FnMut(Turn) -> Flow,
>(
    ground: &Ground<'_, K, T, E>,
    mut means: Means<K, R, E>,
    worker: u32,
    pace: Pace,
    gate: &G,
    mut tracer: F,
) -> WorkerEnd<K, R, F, E>
    requires may { MayWork K.is_known K.problem T.answers T.classes ground.now pace }
    requires seats { AreSeatsOf (tables_of ground.now) means.label_seat means.pool_seat }
    requires tracer { F.IsAlwaysCallable tracer }
    ensures { HasWorked K.problem (tables_of ground.now) R.stream F.step pace
        means tracer result }
{
    let target = ground.query.target();
    let among_several = means.pool_seat.shares() < ea_pool::SHARES;
    let batch = pace.batch as usize;
    let mut counters = Counters::new();
    let mut lists = Lists::empty();
    let mut broken = None;
    let mut number = 0;
    let mut idle = 0u32;
    let mut ended = false;
    'turns: while !ended && idle < pace.patience && number < pace.turns {
        gate.at(worker, number);
        let end = take_turn(ground, target, &mut means, &mut lists, batch, number);
        counters.count(&end);
        broken = end.broken;
        let flow = tracer(end.turn);
        idle = idle_after(idle, end.turn.kind);
        if among_several {
            pause(idle, pace.patience);
        }
        ended = is_last(end.turn.kind, flow);
        number += 1;
    }
    let Lists { taken, fresh } = lists;
    let hand = Hand {
        popped: broken,
        taken,
        fresh,
    };
    counters.close(&hand);
    let Means {
        label_seat,
        pool_seat,
        rng,
    } = means;
    WorkerEnd {
        label_seat,
        pool_seat,
        hand,
        counters,
        rng,
        tracer,
    }
}
