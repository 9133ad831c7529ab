//! The latest departures of kinds that have steps, by the steps of all classes.
ghost use Rattle.std.specs.Prelude.{◌≡◌, ◌≤◌, ◌<◌, ◌+◌, ◌^◌, length, true};
ghost use Rattle.ea_base.specs.declared.limits.TheConstants.{HORIZON};
ghost use Rattle.ea_base.specs.declared.timetable.RawKind.TheVariants.{Points, Speeds, Trips};
ghost use Rattle.ea_travel_times.specs.Answers.{AreInRange};
ghost use Rattle.ea_travel_times.specs.Departures.{IsLatest};
ghost use Rattle.ea_travel_times.specs.Points.{IsArrivalByPoints};
ghost use Rattle.ea_travel_times.specs.Speeds.{IsArrivalBySpeeds, speed_at};
ghost use Rattle.ea_travel_times.specs.StepLists.{steps_in};
ghost use Rattle.ea_travel_times.specs.Timetables.{ClassAnswers, IsClass, has_run, run_of};
ghost use Rattle.ea_travel_times.specs.Trips.{IsArrivalByTrips};

use crate::latest_points::latest_by_points;
use crate::latest_speeds::latest_by_speeds;
use crate::latest_trips::latest_by_trips;
use crate::step_table::StepTable;
use crate::steps::{steps_from, sums_from};
use ea_base::RawKind;

/// The latest departure by the speeds of a class, that of `count` steps from the one at `first` on.
fn by_speeds(
    table: &StepTable,
    period: u64,
    first: usize,
    count: usize,
    weight: u64,
    arrival: u64,
) -> Option<u64>
    requires class { IsClass table.now.list.items (Speeds period first count) }
    requires range { AreInRange weight arrival }
    ensures { IsLatest (λ class. IsArrivalBySpeeds
        (speed_at (run_of table.now.list.items first count) period)) 0 weight arrival result }
{
    let steps = steps_from(&table.list, first, count);
    let sums = sums_from(&table.sums, first, count);
    latest_by_speeds(steps, sums, period, weight, arrival)
}

/// The latest departure by the trips of a class, likewise.
fn by_trips(
    table: &StepTable,
    period: u64,
    first: usize,
    count: usize,
    weight: u64,
    arrival: u64,
) -> Option<u64>
    requires class { IsClass table.now.list.items (Trips period first count) }
    requires arrival { arrival ≤ HORIZON }
    ensures { IsLatest (λ class. IsArrivalByTrips period
        (run_of table.now.list.items first count)) 0 weight arrival result }
{
    let steps = steps_from(&table.list, first, count);
    latest_by_trips(steps, period, weight, arrival)
}

/// The latest departure by the points of a class, likewise.
fn by_points(
    table: &StepTable,
    period: u64,
    first: usize,
    count: usize,
    weight: u64,
    arrival: u64,
) -> Option<u64>
    requires class { IsClass table.now.list.items (Points period first count) }
    requires arrival { arrival ≤ HORIZON }
    ensures { IsLatest (λ class. IsArrivalByPoints period
        (run_of table.now.list.items first count)) 0 weight arrival result }
{
    let steps = steps_from(&table.list, first, count);
    latest_by_points(steps, period, weight, arrival)
}

/// The latest departure of a kind that has steps.
pub(crate) fn latest_by_steps(
    steps: &Option<StepTable>,
    kind: RawKind,
    weight: u64,
    arrival: u64,
) -> Option<u64>
    requires class { IsClass (steps_in steps.now) kind }
    requires has_steps { has_run kind ≡ true }
    requires range { AreInRange weight arrival }
    ensures { IsLatest (λ class. ClassAnswers (steps_in steps.now) kind) 0 weight arrival result }
{
    let Some(table) = steps else {
        return None;
    };
    match kind {
        RawKind::Speeds {
            period,
            first,
            count,
        } => by_speeds(table, period, first, count, weight, arrival),
        RawKind::Trips {
            period,
            first,
            count,
        } => by_trips(table, period, first, count, weight, arrival),
        RawKind::Points {
            period,
            first,
            count,
        } => by_points(table, period, first, count, weight, arrival),
        RawKind::Plain | RawKind::Every { .. } | RawKind::Closed { .. } | RawKind::Rush { .. } => {
            None
        }
    }
}
