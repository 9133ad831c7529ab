//! Travel times by points: the value of a function at a departure, between two of its points.
ghost use Rattle.std.specs.Prelude.{◌≡◌, ◌≤◌, ◌<◌, ◌-◌, ◌^◌, length};
ghost use Rattle.ea_base.specs.declared.limits.TheConstants.{HORIZON};
ghost use Rattle.ea_travel_times.specs.Answers.{AreInRange};
ghost use Rattle.ea_travel_times.specs.Points.{ArePoints, IsAfterLast, IsArrivalByPoints};
ghost use Rattle.ea_travel_times.specs.Points.{IsBeforeFirst, IsBetweenPoints, IsValue, line};
ghost use Rattle.ea_travel_times.specs.Speeds.{time_at};

use crate::steps::{phase_of, steps_before};

/// How far apart two points may be for their line to be found in 64 bits: values are at most 2^32.
const NEAR: u64 = 4_294_967_295;

/// The straight line through two points at a time between them, rounded down.
fn value_between(point: (u64, u64), next: (u64, u64), at: u64) -> u64
    requires { IsBetweenPoints point next at }
    ensures is { result ≡ line point.0 point.1 next.0 next.1 at }
    ensures small { result ≤ 2 ^ 32 }
{
    let apart = next.0 - point.0;
    if apart <= NEAR {
        (point.1 * (next.0 - at) + next.1 * (at - point.0)) / apart
    } else {
        let left = u128::from(point.1) * u128::from(next.0 - at);
        let right = u128::from(next.1) * u128::from(at - point.0);
        ((left + right) / u128::from(apart)) as u64
    }
}

/// The value after the last point: with a period that of the line from there to the first point of the next period.
fn value_after(points: &[(u64, u64)], period: u64, at: u64) -> u64
    requires points { ArePoints period points.now }
    requires late { time_at points.now (length points.now - 1) ≤ at }
    requires within { 0 < period → at < period }
    ensures is { IsAfterLast period points.now at result }
    ensures small { result ≤ 2 ^ 32 }
{
    let last = points[points.len() - 1];
    if period == 0 {
        return last.1;
    }
    let first = points[0];
    value_between(last, (first.0 + period, first.1), at)
}

/// The value before the first point: with a period that of the line from the last point of the period before.
fn value_before(points: &[(u64, u64)], period: u64, at: u64) -> u64
    requires points { ArePoints period points.now }
    requires early { at < time_at points.now 0 }
    ensures is { IsBeforeFirst period points.now at result }
    ensures small { result ≤ 2 ^ 32 }
{
    let first = points[0];
    if period == 0 {
        return first.1;
    }
    let last = points[points.len() - 1];
    value_between(last, (first.0 + period, first.1), at + period)
}

/// The value of the function through the points at a time of the period.
fn value_of(points: &[(u64, u64)], period: u64, at: u64) -> u64
    requires points { ArePoints period points.now }
    requires within { 0 < period → at < period }
    requires at { at ≤ HORIZON }
    ensures is { IsValue period points.now at result }
    ensures small { result ≤ 2 ^ 32 }
{
    let place = steps_before(points, at + 1);
    if place == 0 {
        value_before(points, period, at)
    } else if place == points.len() {
        value_after(points, period, at)
    } else {
        value_between(points[place - 1], points[place], at)
    }
}

/// The arrival by points of an arc of a weight that is left at a departure.
pub(crate) fn arrive_by_points(
    points: &[(u64, u64)],
    period: u64,
    weight: u64,
    departure: u64,
) -> u64
    requires points { ArePoints period points.now }
    requires range { AreInRange weight departure }
    ensures { IsArrivalByPoints period points.now weight departure result }
{
    let phase = phase_of(period, departure);
    departure + weight + value_of(points, period, phase)
}
