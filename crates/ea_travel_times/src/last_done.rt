//! The last step of trips or points that is done by a time: what leaves at a step takes the step's value.
ghost use Rattle.std.specs.Prelude.{◌≤◌, ◌<◌, ◌+◌, ◌-◌, ◌^◌, MatchOption, length, ℕ};
ghost use Rattle.ea_travel_times.specs.Halving.{IsPartitionPoint};
ghost use Rattle.ea_travel_times.specs.LastSteps.{IsLastDone, done_at};
ghost use Rattle.ea_travel_times.specs.Trips.{AreTrips};

use crate::steps::phase_of;

/// How many steps are done by a time, by halves, if a later one is done no earlier.
fn done_by(steps: &[(u64, u64)], time: u64) -> usize
    requires small { (place : ℕ) → place < length steps.now → done_at steps.now place < 2 ^ 64 }
    ensures { IsPartitionPoint (done_at steps.now) (length steps.now) (time + 1) result }
{
    let mut low = 0;
    let mut high = steps.len();
    while low < high {
        let middle = low + (high - low) / 2;
        if steps[middle].0 + steps[middle].1 <= time {
            low = middle + 1;
        } else {
            high = middle;
        }
    }
    low
}

/// The last step that is done by a time: when its period begins, and its place.
pub(crate) fn last_done(steps: &[(u64, u64)], period: u64, left: u64) -> Option<(u64, usize)>
    requires steps { AreTrips period steps.now }
    ensures { MatchOption result (left < done_at steps.now 0)
        (λ last. IsLastDone period steps.now left last.0 last.1) }
{
    let first = steps[0].0 + steps[0].1;
    if left < first {
        return None;
    }
    let begin = left - first - phase_of(period, left - first);
    let place = done_by(steps, left - begin) - 1;
    Some((begin, place))
}
