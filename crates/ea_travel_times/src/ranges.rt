//! Whether the numbers of kinds and their steps are in their ranges.
ghost use Rattle.std.specs.Prelude.{◌≡◌, ◌≤◌, ◌<◌, ◌+◌, ◌-◌, ℕ, true, length};
ghost use Rattle.ea_base.specs.declared.limits.TheConstants.{HORIZON, MOST_PERIOD};
ghost use Rattle.ea_travel_times.specs.Speeds.{AreSpeeds, time_at, value_at};
ghost use Rattle.ea_travel_times.specs.Timetables.{AreFit, IsClass};
ghost use Rattle.ea_travel_times.specs.Trips.{AreTrips};

use crate::HORIZON;
use crate::steps::steps_from;
use crate::timetable::Timetable;
use ea_base::{MOST_PERIOD, MOST_SPEED, RawKind};

/// Whether the times of steps ascend.
fn ascend(steps: &[(u64, u64)]) -> bool
    ensures { result ≡ true → (place : ℕ) → place + 1 < length steps.now
        → time_at steps.now place < time_at steps.now (place + 1) }
{
    for place in 1..steps.len() {
        if steps[place].0 <= steps[place - 1].0 {
            return false;
        }
    }
    true
}

/// Whether no time and no value is above these.
fn stay_below(steps: &[(u64, u64)], time: u64, value: u64) -> bool
    ensures { result ≡ true → (place : ℕ) → place < length steps.now
        → (time_at steps.now place ≤ time) × (value_at steps.now place ≤ value) }
{
    for place in 0..steps.len() {
        if steps[place].0 > time {
            return false;
        }
        if steps[place].1 > value {
            return false;
        }
    }
    true
}

/// Whether some speed is above 0.
fn move_on(steps: &[(u64, u64)]) -> bool
    ensures { result ≡ true → ((place : ℕ) → place < length steps.now
        → value_at steps.now place ≡ 0) → ⊥ }
{
    for place in 0..steps.len() {
        if steps[place].1 > 0 {
            return true;
        }
    }
    false
}

/// Whether no trip arrives before the one before it.
fn keep_order(steps: &[(u64, u64)]) -> bool
    requires { (place : ℕ) → place < length steps.now → (time_at steps.now place ≤ HORIZON)
        × (value_at steps.now place ≤ MOST_PERIOD) }
    ensures { result ≡ true → (place : ℕ) → place + 1 < length steps.now
        → time_at steps.now place + value_at steps.now place
        ≤ time_at steps.now (place + 1) + value_at steps.now (place + 1) }
{
    for place in 1..steps.len() {
        if steps[place].0 + steps[place].1 < steps[place - 1].0 + steps[place - 1].1 {
            return false;
        }
    }
    true
}

/// Whether steps are the speeds of a period.
fn are_speeds(period: u64, steps: &[(u64, u64)]) -> bool
    ensures { result ≡ true → AreSpeeds period steps.now }
{
    if period == 0 || period > MOST_PERIOD {
        return false;
    }
    if steps.is_empty() {
        return false;
    }
    if steps[0].0 != 0 {
        return false;
    }
    if !ascend(steps) {
        return false;
    }
    if !stay_below(steps, period - 1, MOST_SPEED) {
        return false;
    }
    move_on(steps)
}

/// Whether the last trip arrives, in its period, at most a period after the first.
fn turn(period: u64, steps: &[(u64, u64)]) -> bool
    requires some { 0 < length steps.now }
    requires period { period ≤ MOST_PERIOD }
    requires small { (place : ℕ) → place < length steps.now → (time_at steps.now place ≤ HORIZON)
        × (value_at steps.now place ≤ MOST_PERIOD) }
    ensures { result ≡ true → 0 < period → time_at steps.now (length steps.now - 1)
        + value_at steps.now (length steps.now - 1)
        ≤ period + time_at steps.now 0 + value_at steps.now 0 }
{
    let last = steps[steps.len() - 1];
    if period == 0 {
        return true;
    }
    last.0 + last.1 <= period + steps[0].0 + steps[0].1
}

/// The last time at which a trip leaves.
fn last_time(period: u64) -> u64
    requires { period ≤ MOST_PERIOD }
    ensures within { result ≤ HORIZON }
    ensures below { 0 < period → result < period }
{
    if period == 0 { HORIZON } else { period - 1 }
}

/// Whether steps are the trips of a period, or of none if it is 0.
fn are_trips(period: u64, steps: &[(u64, u64)]) -> bool
    ensures { result ≡ true → AreTrips period steps.now }
{
    if period > MOST_PERIOD {
        return false;
    }
    if steps.is_empty() {
        return false;
    }
    if !ascend(steps) {
        return false;
    }
    if !stay_below(steps, last_time(period), MOST_PERIOD) {
        return false;
    }
    if !keep_order(steps) {
        return false;
    }
    turn(period, steps)
}

/// Whether a kind's numbers are in their ranges, and its steps, if it has some.
fn fits_one(kind: RawKind, steps: &[(u64, u64)]) -> bool
    ensures { result ≡ true → IsClass steps.now kind }
{
    match kind {
        RawKind::Speeds {
            period,
            first,
            count,
        } => {
            if first > steps.len() {
                return false;
            }
            if count > steps.len() - first {
                return false;
            }
            are_speeds(period, steps_from(steps, first, count))
        }
        RawKind::Trips {
            period,
            first,
            count,
        } => {
            if first > steps.len() {
                return false;
            }
            if count > steps.len() - first {
                return false;
            }
            are_trips(period, steps_from(steps, first, count))
        }
        RawKind::Points {
            period,
            first,
            count,
        } => {
            if first > steps.len() {
                return false;
            }
            if count > steps.len() - first {
                return false;
            }
            // Points are in the ranges of trips.
            are_trips(period, steps_from(steps, first, count))
        }
        _ => Timetable::fits(kind),
    }
}

/// Whether the numbers of all kinds are in their ranges, and their steps.
pub(crate) fn all_fit(kinds: &[RawKind], steps: &[(u64, u64)]) -> bool
    ensures { result ≡ true → AreFit kinds.now steps.now }
{
    for kind in kinds {
        if !fits_one(*kind, steps) {
            return false;
        }
    }
    true
}
