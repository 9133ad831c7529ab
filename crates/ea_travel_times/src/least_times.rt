//! Least travel times of classes that have steps.
ghost use Rattle.std.specs.Prelude.{◌≡◌, ◌≤◌, ◌<◌, ◌^◌, IfOk, length, slice_index_or};
ghost use Rattle.ea_travel_times.specs.Extremes.{AreExtremes, IsClassAt, IsExtreme};
ghost use Rattle.ea_travel_times.specs.Lows.{ClassLow, IsGreatestValue, IsLeastTimes, IsLeastValue};
ghost use Rattle.ea_travel_times.specs.Speeds.{IsSpeed};
ghost use Rattle.ea_travel_times.specs.StepLists.{extremes_in, steps_in};
ghost use Rattle.ea_travel_times.specs.Timetables.{AreFit, IsClass};

use crate::step_table::StepTable;
use crate::steps::steps_from;
use ea_base::RawKind;
use std::alloc::{AllocError, Global};

/// The least value of steps.
fn least_value(steps: &[(u64, u64)]) -> u64
    requires { 0 < length steps.now }
    ensures { IsLeastValue steps.now result }
{
    let mut least = 0;
    for place in 1..steps.len() {
        if steps[place].1 < steps[least].1 {
            least = place;
        }
    }
    steps[least].1
}

/// The greatest value of steps.
fn greatest_value(steps: &[(u64, u64)]) -> u64
    requires { 0 < length steps.now }
    ensures { IsGreatestValue steps.now result }
{
    let mut greatest = 0;
    for place in 1..steps.len() {
        if steps[place].1 > steps[greatest].1 {
            greatest = place;
        }
    }
    steps[greatest].1
}

/// The extreme of a class, 0 of one that has no steps.
fn extreme_of(kind: RawKind, steps: &[(u64, u64)]) -> u64
    requires { IsClass steps.now kind }
    ensures { IsExtreme steps.now kind result }
{
    match kind {
        RawKind::Speeds { first, count, .. } => greatest_value(steps_from(steps, first, count)),
        RawKind::Trips { first, count, .. } => least_value(steps_from(steps, first, count)),
        RawKind::Points { first, count, .. } => least_value(steps_from(steps, first, count)),
        _ => 0,
    }
}

/// The extremes of all classes. An error comes only if memory for them was refused.
pub(crate) fn extremes_of(
    alloc: Global,
    kinds: &[RawKind],
    steps: &[(u64, u64)],
) -> Result<Vec<u64>, AllocError>
    requires { AreFit kinds.now steps.now }
    ensures { IfOk result (λ extremes. AreExtremes kinds.now steps.now extremes.items) }
{
    let mut extremes = Vec::with_capacity(alloc, kinds.len())?;
    for kind in kinds {
        extremes.push(extreme_of(*kind, steps))?;
    }
    Ok(extremes)
}

/// The least number of times in which a speed makes up a thousand times the weight.
fn times_at(speed: u64, weight: u64) -> u64
    requires speed { IsSpeed speed }
    requires weight { weight < 2 ^ 32 }
    ensures { IsLeastTimes speed weight result }
{
    (1000 * weight + (speed - 1)) / speed
}

/// The extreme of the class at a place, 0 if it has no steps.
fn extreme_at(steps: &Option<StepTable>, place: usize) -> u64
    ensures { result ≡ slice_index_or (extremes_in steps.now) place 0 }
{
    match steps {
        Some(table) => table.extreme(place),
        None => 0,
    }
}

/// The least travel time of the class at a place, which is of this kind.
pub(crate) fn low_at(steps: &Option<StepTable>, kind: RawKind, place: usize, weight: u64) -> u64
    requires class { IsClassAt (steps_in steps.now) (extremes_in steps.now) kind place }
    requires weight { weight < 2 ^ 32 }
    ensures { ClassLow (steps_in steps.now) kind weight result }
{
    match kind {
        RawKind::Speeds { .. } => times_at(extreme_at(steps, place), weight),
        RawKind::Trips { .. } | RawKind::Points { .. } => weight + extreme_at(steps, place),
        _ => weight,
    }
}
