//! The latest departures by trips.
ghost use Rattle.std.specs.Prelude.{◌≤◌, ◌<◌, ◌^◌};
ghost use Rattle.ea_base.specs.declared.limits.TheConstants.{HORIZON};
ghost use Rattle.ea_travel_times.specs.Departures.{IsLatest};
ghost use Rattle.ea_travel_times.specs.Trips.{AreTrips, IsArrivalByTrips};

use crate::last_done::last_done;

/// The departure of the last trip that arrives by a time.
pub(crate) fn latest_by_trips(
    steps: &[(u64, u64)],
    period: u64,
    weight: u64,
    arrival: u64,
) -> Option<u64>
    requires trips { AreTrips period steps.now }
    requires arrival { arrival ≤ HORIZON }
    ensures { IsLatest (λ class. IsArrivalByTrips period steps.now) 0 weight arrival result }
{
    if arrival < weight {
        return None;
    }
    match last_done(steps, period, arrival - weight) {
        Some((begin, place)) => Some(begin + steps[place].0),
        None => None,
    }
}
