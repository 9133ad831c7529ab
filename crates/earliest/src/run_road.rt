//! The road of a run, as it was read or renumbered.
ghost use Rattle.earliest.specs.RunRoads.{IsLentOf};

use ea_layout::Layout;
use ea_load::Road;
use ea_travel_times::RoadTimes;

/// A road whose network is that of a layout alone; its preparation, if it has one, is of its travel times.
#[derive(Drop)]
pub(crate) struct RenumberedRoad {
    pub layout: Layout,
    pub times: RoadTimes,
}

/// A road for searches of pairs.
#[derive(Drop)]
pub(crate) enum PairRoad {
    AsRead(Road),
    Renumbered(RenumberedRoad),
}

/// The road of a run. Problems on a renumbered one are searched by one thread each, and not counted.
#[derive(Clone, Copy)]
pub(crate) enum RunRoad<'a> {
    AsRead(&'a Road),
    Renumbered(&'a RenumberedRoad),
}

impl PairRoad {
    /// The road, borrowed.
    pub(crate) fn as_run(&self) -> RunRoad<'_>
        ensures { IsLentOf self.now result }
    {
        match self {
            PairRoad::AsRead(road) => RunRoad::AsRead(road),
            PairRoad::Renumbered(road) => RunRoad::Renumbered(road),
        }
    }
}
