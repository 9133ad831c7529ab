//! The steps of all classes of a list of timetables.
ghost use Rattle.std.specs.Prelude.{◌≡◌, ◌≤◌, ◌<◌, ◌+◌, ◌^◌, IfOk, length, slice_index_or};
ghost use Rattle.ea_base.specs.declared.timetable.RawKind.TheVariants.{Points, Speeds, Trips};
ghost use Rattle.ea_travel_times.specs.Answers.{AreInRange};
ghost use Rattle.ea_travel_times.specs.Extremes.{AreExtremes};
ghost use Rattle.ea_travel_times.specs.Points.{IsArrivalByPoints};
ghost use Rattle.ea_travel_times.specs.Speeds.{AreSums, IsArrivalBySpeeds, speed_at};
ghost use Rattle.ea_travel_times.specs.Timetables.{AreFit, IsClass, run_of};
ghost use Rattle.ea_travel_times.specs.Trips.{IsArrivalByTrips};

use crate::least_times::extremes_of;
use crate::points::arrive_by_points;
use crate::steps::{arrive_by_speeds, arrive_by_trips, steps_from, sums_from, sums_of};
use ea_base::RawKind;
use std::alloc::{AllocError, Global};

/// The steps of all classes, each a time and a value, and beside each step the sum of the speeds of its class before its time. For
/// each class its greatest speed, or the least value of its trips or points.
#[derive(Drop)]
pub struct StepTable {
    pub list: Vec<(u64, u64)>,
    pub sums: Vec<u64>,
    pub extremes: Vec<u64>,
    pub ghost summed: { AreSums list.items sums.items },
}

impl StepTable {
    /// A table of the steps of these kinds. An error comes only if memory for the sums or the extremes was refused.
    pub(crate) fn of(
        alloc: Global,
        kinds: &[RawKind],
        list: Vec<(u64, u64)>,
    ) -> Result<StepTable, AllocError>
        requires { AreFit kinds.now list.items }
        ensures { IfOk result (λ table. (table.list.items ≡ list.items)
            × AreExtremes kinds.now list.items table.extremes.items) }
    {
        let sums = sums_of(alloc, &list)?;
        let extremes = extremes_of(alloc, kinds, &list)?;
        Ok(StepTable {
            list,
            sums,
            extremes,
        })
    }

    /// The extreme of the class at a place, 0 if there is none.
    pub(crate) fn extreme(&self, place: usize) -> u64
        ensures { result ≡ slice_index_or self.now.extremes.items place 0 }
    {
        if place < self.extremes.len() {
            self.extremes[place]
        } else {
            0
        }
    }

    /// The arrival by the speeds of a class, that of `count` steps from the one at `first` on.
    pub(crate) fn by_speeds(
        &self,
        period: u64,
        first: usize,
        count: usize,
        weight: u64,
        departure: u64,
    ) -> u64
        requires class { IsClass self.now.list.items (Speeds period first count) }
        requires range { AreInRange weight departure }
        ensures { IsArrivalBySpeeds (speed_at (run_of self.now.list.items first count) period)
            weight departure result }
    {
        let steps = steps_from(&self.list, first, count);
        let sums = sums_from(&self.sums, first, count);
        arrive_by_speeds(steps, sums, period, weight, departure)
    }

    /// The arrival by the trips of a class, likewise.
    pub(crate) fn by_trips(
        &self,
        period: u64,
        first: usize,
        count: usize,
        weight: u64,
        departure: u64,
    ) -> u64
        requires class { IsClass self.now.list.items (Trips period first count) }
        requires range { AreInRange weight departure }
        ensures { IsArrivalByTrips period (run_of self.now.list.items first count)
            weight departure result }
    {
        let steps = steps_from(&self.list, first, count);
        arrive_by_trips(steps, period, weight, departure)
    }

    /// The arrival by the points of a class, likewise.
    pub(crate) fn by_points(
        &self,
        period: u64,
        first: usize,
        count: usize,
        weight: u64,
        departure: u64,
    ) -> u64
        requires class { IsClass self.now.list.items (Points period first count) }
        requires range { AreInRange weight departure }
        ensures { IsArrivalByPoints period (run_of self.now.list.items first count)
            weight departure result }
    {
        let steps = steps_from(&self.list, first, count);
        arrive_by_points(steps, period, weight, departure)
    }
}
