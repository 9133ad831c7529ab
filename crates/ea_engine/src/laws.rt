//! Laws of a run, as functions that do nothing.
ghost use Rattle.std.specs.Prelude.{◌≡◌, ℕ, ◌↔◌};
ghost use Rattle.ea_travel_times.specs.Answers.{IsFifo};
ghost use Rattle.ea_road.specs.Arrivals.{Reaches};
ghost use Rattle.ea_engine.specs.Grounds.{IsGround};
ghost use Rattle.ea_engine.specs.Problems.{IsNamedProblem};
ghost use Rattle.ea_engine.specs.Opened.{FinishMayBegin, NothingOpenIsLost};

use crate::run::ground::Ground;
use crate::run::problem::Posed;
use ea_pool::EntryHeap;
use ea_road::Known;
use ea_travel_times::TravelTimes;
use std::alloc::Global;

/// For every interleaving: once all seats are joined and both tables closed, each labelled node is satisfied,
/// or its entry was left or handed back, or its label is above the target's.
pub fn nothing_open_is_lost<K: Known + Posed>()
    ensures { NothingOpenIsLost K.is_known K.problem }
{}

/// So the finishing pass may begin with the nodes of these entries waiting.
pub fn finish_may_begin<K: Known + Posed>()
    requires names { (node time : ℕ) → K.is_known node time
        ↔ Reaches K.problem.network K.problem.answers K.problem.query.sources node time }
    ensures { FinishMayBegin K.is_known K.problem }
{}

/// Travel times are first in, first out.
pub fn times_are_fifo<T: TravelTimes>(times: &T)
    ensures { IsFifo (T.answers times.now) (T.classes times.now) }
{}

/// What workers read is the ground of the problem that `K` names, if the label table has a place for each
/// node. The types ensure that the network is one and that travel times are first in, first out.
pub fn ground_is_laid<K: Known + Posed, E: EntryHeap, T: TravelTimes>(ground: &Ground<'_, K, T, E>)
    requires named { IsNamedProblem K.is_known K.problem ground.now.network.now
        (T.answers ground.now.times.now) (T.classes ground.now.times.now) ground.now.query.now }
    requires places { ground.now.labels.now.nodes ≡ ground.now.network.now.nodes }
    ensures { IsGround K.is_known K.problem T.answers T.classes ground.now }
{
    ground.network.keeps_limits();
    times_are_fifo(ground.times);
}
