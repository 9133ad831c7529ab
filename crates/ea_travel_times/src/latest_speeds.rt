//! The latest departures by speeds.
ghost use Rattle.std.specs.Prelude.{◌≡◌, ◌≤◌, ◌<◌, ◌*◌, ◌%◌, ◌^◌, MatchOption};
ghost use Rattle.ea_base.specs.declared.limits.TheConstants.{HORIZON};
ghost use Rattle.ea_travel_times.specs.Answers.{AreInRange};
ghost use Rattle.ea_travel_times.specs.Departures.{IsLatest};
ghost use Rattle.ea_travel_times.specs.LastSteps.{IsLastBySpeeds};
ghost use Rattle.ea_travel_times.specs.Speeds.{AreSummedSpeeds, IsArrivalBySpeeds, IsPeriodBegin};
ghost use Rattle.ea_travel_times.specs.Speeds.{IsSumTo, speed_at, speed_sum};

use crate::steps::{step_at, sum_of_period, sum_until, time_of_sum};

/// The sum of a period's speeds before a time of it.
fn sum_before(steps: &[(u64, u64)], sums: &[u64], period: u64, time: u64) -> u64
    requires speeds { AreSummedSpeeds period steps.now sums.now }
    requires time { time < period }
    ensures { IsSumTo steps.now time result }
{
    sum_until(steps, sums, period, step_at(steps, time), time)
}

/// The last time from which the speeds until the beginning of a period sum to this much; none if those from time 0 on don't.
fn last_before(
    steps: &[(u64, u64)],
    sums: &[u64],
    period: u64,
    need: u64,
    begin: u64,
) -> Option<u64>
    requires speeds { AreSummedSpeeds period steps.now sums.now }
    requires need { 0 < need }
    requires small { need < 2 ^ 42 }
    requires begin { IsPeriodBegin period begin }
    ensures { MatchOption result (speed_sum (speed_at steps.now period) 0 begin < need)
        (IsLastBySpeeds (speed_at steps.now period) begin need) }
{
    let whole = sum_of_period(steps, sums, period);
    let turns = need.div_ceil(whole);
    if turns > begin / period {
        return None;
    }
    let time = time_of_sum(steps, sums, period, turns * whole - need + 1);
    Some(begin - turns * period + time - 1)
}

/// The last time from which the speeds until the arrival sum to a thousand times the weight.
pub(crate) fn latest_by_speeds(
    steps: &[(u64, u64)],
    sums: &[u64],
    period: u64,
    weight: u64,
    arrival: u64,
) -> Option<u64>
    requires speeds { AreSummedSpeeds period steps.now sums.now }
    requires range { AreInRange weight arrival }
    ensures { IsLatest (λ class. IsArrivalBySpeeds (speed_at steps.now period)) 0 weight arrival
        result }
{
    if weight == 0 {
        return Some(arrival);
    }
    let need = 1000 * weight;
    let phase = arrival % period;
    let sum = sum_before(steps, sums, period, phase);
    if need <= sum {
        let time = time_of_sum(steps, sums, period, sum - need + 1);
        return Some(arrival - phase + time - 1);
    }
    last_before(steps, sums, period, need - sum, arrival - phase)
}
