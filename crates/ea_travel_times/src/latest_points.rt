//! The latest departures by points.
ghost use Rattle.std.specs.Prelude.{◌≡◌, ◌≤◌, ◌<◌, ◌+◌, ◌^◌, MatchOption};
ghost use Rattle.ea_base.specs.declared.limits.TheConstants.{HORIZON};
ghost use Rattle.ea_travel_times.specs.Departures.{IsLatest};
ghost use Rattle.ea_travel_times.specs.LastSteps.{IsDoneBetween, IsLastByPoints, IsLastOnLine};
ghost use Rattle.ea_travel_times.specs.LastSteps.{IsNeverByPoints, done_at};
ghost use Rattle.ea_travel_times.specs.Points.{ArePoints, IsArrivalByPoints};

use crate::last_done::last_done;

/// How far apart two points may be for the last time between them to be found in 64 bits: values are at most 2^32.
const NEAR: u64 = 2_147_483_647;

/// The last time between two points from which the straight line through them is done by a time.
fn last_between(point: (u64, u64), next: (u64, u64), left: u64) -> u64
    requires { IsDoneBetween point next left }
    ensures { IsLastOnLine point.0 point.1 next.0 next.1 left result }
{
    let apart = next.0 - point.0;
    let later = next.0 + next.1 - (point.0 + point.1);
    let room = left - (point.0 + point.1) + 1;
    if apart <= NEAR {
        point.0 + (room * apart - 1) / later
    } else {
        let last = (u128::from(room) * u128::from(apart) - 1) / u128::from(later);
        point.0 + last as u64
    }
}

/// The last departure that is done by a time, with no period.
fn last_of_one(points: &[(u64, u64)], period: u64, left: u64) -> Option<u64>
    requires points { ArePoints period points.now }
    requires period { period ≡ 0 }
    ensures { MatchOption result (IsNeverByPoints period points.now left)
        (IsLastByPoints period points.now left) }
{
    match last_done(points, period, left) {
        Some((_, place)) => {
            if place + 1 < points.len() {
                Some(last_between(points[place], points[place + 1], left))
            } else {
                Some(left - points[place].1)
            }
        }
        None => {
            if points[0].1 <= left {
                Some(left - points[0].1)
            } else {
                None
            }
        }
    }
}

/// The last departure that is done by a time, with a period.
fn last_of_many(points: &[(u64, u64)], period: u64, left: u64) -> Option<u64>
    requires points { ArePoints period points.now }
    requires period { 0 < period }
    requires left { left ≤ 2 ^ 49 }
    ensures { MatchOption result (left < done_at points.now 0)
        (IsLastByPoints period points.now left) }
{
    let Some((begin, place)) = last_done(points, period, left) else {
        return None;
    };
    if place + 1 < points.len() {
        return Some(begin + last_between(points[place], points[place + 1], left - begin));
    }
    let next = (points[0].0 + period, points[0].1);
    Some(begin + last_between(points[place], next, left - begin))
}

/// The last departure that arrives by a time. With a period all is seen a period later, so that a line before the first point is that
/// after the last one.
pub(crate) fn latest_by_points(
    points: &[(u64, u64)],
    period: u64,
    weight: u64,
    arrival: u64,
) -> Option<u64>
    requires points { ArePoints period points.now }
    requires arrival { arrival ≤ HORIZON }
    ensures { IsLatest (λ class. IsArrivalByPoints period points.now) 0 weight arrival result }
{
    if arrival < weight {
        return None;
    }
    if period == 0 {
        return last_of_one(points, period, arrival - weight);
    }
    match last_of_many(points, period, arrival - weight + period) {
        Some(last) => {
            if period <= last {
                Some(last - period)
            } else {
                None
            }
        }
        None => None,
    }
}
