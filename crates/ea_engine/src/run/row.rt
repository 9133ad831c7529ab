ghost use Rattle.std.specs.Prelude.{◌<◌, ◌^◌};
ghost use Rattle.ea_engine.specs.Equipped.{MayWork};
ghost use Rattle.ea_engine.specs.Grounds.{tables_of};
ghost use Rattle.ea_engine.specs.Rows.{MayStart, IsRun, IsReadyRow, IsRunRow};

use crate::run::ground::Ground;
use crate::run::problem::Posed;
use crate::settings::Pace;
use crate::worker::gate::Gate;
use crate::worker::means::Means;
use crate::worker::turn::{Flow, Turn};
use crate::worker::work_loop::{WorkerEnd, work};
use ea_fork_join::for_each_mut;
use ea_pool::{EntryHeap, LeastHeap};
use ea_road::Known;
use ea_travel_times::TravelTimes;
use rand_core::Rng;
use std::alloc::Global;
use std::mem;
use std::thread::Threads;

/// What a worker needs to start.
#[derive(Drop)]
pub struct Ready<K: Known, R, F, E: EntryHeap = LeastHeap<Global>> {
    pub means: Means<K, R, E>,
    pub tracer: F,
}

/// A worker's place in the row.
#[derive(Drop)]
pub enum Place<K: Known, R, F, E: EntryHeap = LeastHeap<Global>> {
    Ready(Ready<K, R, F, E>),
    Running,
    Done(WorkerEnd<K, R, F, E>),
}

/// Runs the worker of a place.
pub fn run_place<
    K: Known + Posed,
    E: EntryHeap,
    T: TravelTimes,
    R: Rng + Drop,
    G: Gate,
    F: FnMut(Turn) -> Flow + Drop,
>(ground: &Ground<'_, K, T, E>, worker: u32, pace: Pace, gate: &G, place: &mut Place<K, R, F, E>)
    requires may { MayWork K.is_known K.problem T.answers T.classes ground.now pace }
    requires ready { MayStart (tables_of ground.now) F.IsAlwaysCallable place.old }
    ensures run { IsRun K.problem (tables_of ground.now) R.stream F.step pace place.old place.new }
{
    if let Place::Ready(ready) = mem::replace(place, Place::Running) {
        let Ready { means, tracer } = ready;
        *place = Place::Done(work(ground, means, worker, pace, gate, tracer));
    }
}

/// Runs all workers of a row, each on its own thread if one can be started.
pub fn run_workers<
    H: Threads + Sync,
    K: Known + Posed,
    E: EntryHeap + Send + Sync,
    T: TravelTimes + Sync,
    R: Rng + Send + Drop,
    G: Gate,
    F: FnMut(Turn) -> Flow + Send + Drop,
>(rt: &H, ground: &Ground<'_, K, T, E>, pace: Pace, gate: &G, row: &mut [Place<K, R, F, E>])
    requires may { MayWork K.is_known K.problem T.answers T.classes ground.now pace }
    requires ready { IsReadyRow (tables_of ground.now) F.IsAlwaysCallable row.old }
    ensures run { IsRunRow K.problem (tables_of ground.now) R.stream F.step pace row.old row.new }
{
    let run_one = |worker: usize, place: &mut Place<K, R, F, E>|
        requires { (worker < 2 ^ 32)
            × MayWork K.is_known K.problem T.answers T.classes ground.now pace
            × MayStart (tables_of ground.now) F.IsAlwaysCallable place.now }
        ensures { IsRun K.problem (tables_of ground.entry.now) R.stream F.step pace
            place.entry.now place.exit.now }
    { run_place(ground, worker as u32, pace, gate, place) };
    for_each_mut(rt, row, &run_one);
}
