//! Steps of classes of speeds and of trips, which several classes keep in one list.
ghost use Rattle.std.specs.Prelude.{◌≡◌, ◌≤◌, ◌<◌, ◌+◌, ◌-◌, ◌*◌, ◌%◌, ◌^◌, IfOk, drop, length, min, slice_index, take};
ghost use Rattle.ea_base.specs.declared.limits.TheConstants.{HORIZON};
ghost use Rattle.ea_travel_times.specs.Answers.{AreInRange};
ghost use Rattle.ea_travel_times.specs.Halving.{IsPartitionPoint};
ghost use Rattle.ea_travel_times.specs.Speeds.{AreSummedSpeeds, AreSums, BeginsAtZero, IsArrivalBySpeeds};
ghost use Rattle.ea_travel_times.specs.Speeds.{IsInStep, IsInStepOrEnd, IsNextSum, IsReachedSum, IsSumTo};
ghost use Rattle.ea_travel_times.specs.Speeds.{IsTimeOfSumIn, IsTimeOfSums};
ghost use Rattle.ea_travel_times.specs.Speeds.{end_at, never, speed_at, sum_to, time_at, value_at};
ghost use Rattle.ea_travel_times.specs.Trips.{AreTrips, IsArrivalByTrips, IsTripStep};

use crate::HORIZON;
use std::alloc::{AllocError, Global};

/// The arrival of what does not arrive within the horizon.
const NEVER: u64 = HORIZON + 1;

/// This many steps from one of them on.
pub(crate) fn steps_from(list: &[(u64, u64)], first: usize, count: usize) -> &[(u64, u64)]
    requires { first + count ≤ length list.now }
    ensures { result.now ≡ take count (drop first list.now) }
{
    &list[first..first + count]
}

/// The same of the sums beside them.
pub(crate) fn sums_from(list: &[u64], first: usize, count: usize) -> &[u64]
    requires { first + count ≤ length list.now }
    ensures { result.now ≡ take count (drop first list.now) }
{
    &list[first..first + count]
}

/// The sum beside a step, by the sum beside the step before it; it begins anew at time 0.
fn next_sum(sum: u64, before: (u64, u64), step: (u64, u64)) -> u64
    ensures { IsNextSum sum before step result }
{
    if step.0 == 0 {
        0
    } else {
        let time = step.0.saturating_sub(before.0);
        sum.saturating_add(before.1.saturating_mul(time))
    }
}

/// The sums beside steps. An error comes only if memory for them was refused.
pub(crate) fn sums_of(alloc: Global, steps: &[(u64, u64)]) -> Result<Vec<u64>, AllocError>
    ensures { IfOk result (λ sums. AreSums steps.now sums.items) }
{
    let mut sums = Vec::with_capacity(alloc, steps.len())?;
    let mut sum = 0;
    let mut before = (0, 0);
    for step in steps {
        sum = next_sum(sum, before, *step);
        before = *step;
        sums.push(sum)?;
    }
    Ok(sums)
}

/// The place, by halves, before which the last step is before a time and at which the step is not.
pub(crate) fn steps_before(steps: &[(u64, u64)], time: u64) -> usize
    ensures { IsPartitionPoint (time_at steps.now) (length steps.now) time result }
{
    let mut low = 0;
    let mut high = steps.len();
    while low < high {
        let middle = low + (high - low) / 2;
        if steps[middle].0 < time {
            low = middle + 1;
        } else {
            high = middle;
        }
    }
    low
}

/// The same for sums.
fn sums_before(sums: &[u64], sum: u64) -> usize
    ensures { IsPartitionPoint (slice_index sums.now) (length sums.now) sum result }
{
    let mut low = 0;
    let mut high = sums.len();
    while low < high {
        let middle = low + (high - low) / 2;
        if sums[middle] < sum {
            low = middle + 1;
        } else {
            high = middle;
        }
    }
    low
}

/// The place of the step of speeds in which a time lies.
pub(crate) fn step_at(steps: &[(u64, u64)], time: u64) -> usize
    requires steps { BeginsAtZero steps.now }
    requires time { time < 2 ^ 63 }
    ensures { IsInStep steps.now time result }
{
    steps_before(steps, time + 1) - 1
}

/// To when the speed of the step at a place stays.
fn end_of(steps: &[(u64, u64)], place: usize, period: u64) -> u64
    requires { place < length steps.now }
    ensures { result ≡ end_at period steps.now place }
{
    if place + 1 < steps.len() {
        steps[place + 1].0
    } else {
        period
    }
}

/// The sum of a period's speeds before a time that lies in the step at a place or ends it.
pub(crate) fn sum_until(
    steps: &[(u64, u64)],
    sums: &[u64],
    period: u64,
    place: usize,
    time: u64,
) -> u64
    requires speeds { AreSummedSpeeds period steps.now sums.now }
    requires place { IsInStepOrEnd period steps.now time place }
    ensures { IsSumTo steps.now time result }
{
    sums[place] + steps[place].1 * (time - steps[place].0)
}

/// The sum of a period's speeds.
pub(crate) fn sum_of_period(steps: &[(u64, u64)], sums: &[u64], period: u64) -> u64
    requires { AreSummedSpeeds period steps.now sums.now }
    ensures sum { IsSumTo steps.now period result }
    ensures some { 0 < result }
{
    sum_until(steps, sums, period, steps.len() - 1, period)
}

/// When the sum of a period's speeds is first so large.
pub(crate) fn time_of_sum(steps: &[(u64, u64)], sums: &[u64], period: u64, sum: u64) -> u64
    requires speeds { AreSummedSpeeds period steps.now sums.now }
    requires sum { IsReachedSum period steps.now sum }
    ensures { IsTimeOfSumIn period steps.now sum result }
{
    let place = sums_before(sums, sum) - 1;
    steps[place].0 + (sum - sums[place]).div_ceil(steps[place].1)
}

/// The time after this many periods, at most `NEVER`.
fn after_periods(begin: u64, count: u64, period: u64, time: u64) -> u64
    requires begin { begin ≤ HORIZON }
    requires period { period ≤ 2 ^ 32 }
    requires time { time ≤ 2 ^ 33 }
    ensures { result ≡ min (begin + count * period + time) never }
{
    let arrival = u128::from(begin) + u128::from(count) * u128::from(period) + u128::from(time);
    arrival.min(u128::from(NEVER)) as u64
}

/// The arrival by the speeds of a period, of an arc of a weight above 0.
fn arrive_later(steps: &[(u64, u64)], sums: &[u64], period: u64, sum: u64, begin: u64) -> u64
    requires speeds { AreSummedSpeeds period steps.now sums.now }
    requires begin { begin ≤ HORIZON }
    requires from_one { 0 < sum }
    ensures { IsTimeOfSums period steps.now begin sum result }
{
    let whole = sum_of_period(steps, sums, period);
    let turns = if sum <= whole { 0 } else { (sum - 1) / whole };
    let time = time_of_sum(steps, sums, period, sum - turns * whole);
    after_periods(begin, turns, period, time)
}

/// The arrival by the speeds of a period of an arc of a weight that is left at a departure.
pub(crate) fn arrive_by_speeds(
    steps: &[(u64, u64)],
    sums: &[u64],
    period: u64,
    weight: u64,
    departure: u64,
) -> u64
    requires speeds { AreSummedSpeeds period steps.now sums.now }
    requires range { AreInRange weight departure }
    ensures { IsArrivalBySpeeds (speed_at steps.now period) weight departure result }
{
    if weight == 0 {
        return departure;
    }
    let phase = departure % period;
    let place = step_at(steps, phase);
    let sum = sum_until(steps, sums, period, place, phase) + 1000 * weight;
    let end = end_of(steps, place, period);
    if sum <= sum_until(steps, sums, period, place, end) {
        let time = (1000 * weight).div_ceil(steps[place].1);
        (departure + time).min(NEVER)
    } else {
        arrive_later(steps, sums, period, sum, departure - phase)
    }
}

/// The arrival of a trip that begins its period then, at most `NEVER`.
fn ride(begin: u64, step: (u64, u64), weight: u64) -> u64
    requires begin { begin ≤ 2 ^ 50 }
    requires step { IsTripStep step }
    requires weight { weight < 2 ^ 32 }
    ensures { result ≡ min (begin + step.0 + weight + step.1) never }
{
    (begin + step.0 + weight + step.1).min(NEVER)
}

/// How far a departure is in its period, all of it if there is none.
pub(crate) fn phase_of(period: u64, departure: u64) -> u64
    ensures { result ≡ departure % period }
{
    if period == 0 {
        departure
    } else {
        departure % period
    }
}

/// The arrival by trips of an arc of a weight that is left at a departure.
pub(crate) fn arrive_by_trips(steps: &[(u64, u64)], period: u64, weight: u64, departure: u64) -> u64
    requires trips { AreTrips period steps.now }
    requires range { AreInRange weight departure }
    ensures { IsArrivalByTrips period steps.now weight departure result }
{
    let phase = phase_of(period, departure);
    let place = steps_before(steps, phase);
    if place < steps.len() {
        ride(departure - phase, steps[place], weight)
    } else if period > 0 {
        ride(departure - phase + period, steps[0], weight)
    } else {
        NEVER
    }
}
