//! Lines of steps: the speeds, trips or points of a class, one after the other.
ghost use Rattle.std.specs.Prelude.{◌≡◌, ◌≤◌, ◌==◌, ◌+◌, ◌-◌, IfOk, length, min, slice_index_or};
ghost use Rattle.std.specs.List.{list_all};
ghost use Rattle.ea_blocks.specs.Borrowed.{texts_now};
ghost use Rattle.ea_blocks.specs.Fault.{within};
ghost use Rattle.ea_input.specs.StepLines as spec;

use crate::number_ranges::numeral;
use ea_base::{HORIZON, MOST_PERIOD, MOST_SPEED};
use ea_blocks::FaultKind;

/// A class that has steps: whether they are trips or points, which have the same ranges, or else speeds; its period; and how many steps
/// there are.
#[derive(Clone, Copy)]
pub struct StepClass {
    pub trips: bool,
    pub period: u64,
    pub count: usize,
}

/// A number in a range that may begin beyond 64 bits.
#[tactic(auto, unfolding(ea_blocks::specs::Fault::within))]
fn within_from(low: u128, high: u64, n: u128) -> Result<u64, FaultKind>
    ensures is { result ≡ within low high n }
    ensures range { IfOk result (λ n. n ≤ high) }
{
    if low <= n && n <= u128::from(high) {
        Ok(n as u64)
    } else {
        Err(FaultKind::OutOfRange)
    }
}

/// The step at a place, and (0, 0) if there is none.
fn step_at(steps: &[(u64, u64)], place: usize) -> (u64, u64)
    ensures { result ≡ slice_index_or steps.now place (0, 0) }
{
    if place < steps.len() {
        steps[place]
    } else {
        (0, 0)
    }
}

/// When a trip arrives that takes nothing beside its value.
fn arrives(step: (u64, u64)) -> u128
    ensures { result ≡ spec.arrives step }
{
    u128::from(step.0) + u128::from(step.1)
}

/// Whether all speeds are 0.
fn stands_still(steps: &[(u64, u64)]) -> bool
    ensures { result ≡ list_all (λ step. step.1 == 0) steps.now }
{
    steps.iter().all(|step| step.1 == 0)
}

/// The run of a class and its steps so far: the least time of the next one.
#[tactic(auto, unfolding(crate::specs::StepLines::least_time))]
fn least_time(class: StepClass, steps: &[(u64, u64)]) -> u128
    ensures { result ≡ spec.least_time (record { class = class; steps = steps.now }) }
{
    if steps.is_empty() {
        0
    } else {
        u128::from(step_at(steps, steps.len() - 1).0) + 1
    }
}

/// The greatest time of the next step.
#[tactic(auto, unfolding(crate::specs::StepLines::most_time))]
fn most_time(class: StepClass, steps: &[(u64, u64)]) -> u64
    ensures is { result ≡ spec.most_time (record { class = class; steps = steps.now }) }
    ensures within { result ≤ HORIZON }
{
    if class.trips {
        if class.period == 0 {
            HORIZON
        } else {
            (class.period - 1).min(HORIZON)
        }
    } else if steps.is_empty() {
        0
    } else {
        class.period.saturating_sub(1).min(HORIZON)
    }
}

/// Whether the next step is the last one.
fn is_last(class: StepClass, steps: &[(u64, u64)]) -> bool
    ensures { result ≡ spec.is_last (record { class = class; steps = steps.now }) }
{
    class.count > 0 && steps.len() == class.count - 1
}

/// The least value of the next step, whose time is this.
#[tactic(auto, unfolding(crate::specs::StepLines::least_value))]
fn least_value(class: StepClass, steps: &[(u64, u64)], time: u64) -> u128
    ensures { result ≡ spec.least_value (record { class = class; steps = steps.now }) time }
{
    if class.trips {
        arrives(step_at(steps, steps.len().saturating_sub(1))).saturating_sub(u128::from(time))
    } else if is_last(class, steps) {
        if stands_still(steps) { 1 } else { 0 }
    } else {
        0
    }
}

/// The greatest value of the last trip of a period, whose time is this.
fn most_turn(class: StepClass, steps: &[(u64, u64)], time: u64) -> u64
    ensures { result
        ≡ min (class.period + spec.arrives (slice_index_or steps.now 0 (0, 0)) - time) MOST_PERIOD }
{
    let last = u128::from(class.period) + arrives(step_at(steps, 0));
    last.saturating_sub(u128::from(time))
        .min(u128::from(MOST_PERIOD)) as u64
}

/// The greatest value of the next step, whose time is this.
#[tactic(auto, unfolding(crate::specs::StepLines::most_value))]
fn most_value(class: StepClass, steps: &[(u64, u64)], time: u64) -> u64
    ensures { result ≡ spec.most_value (record { class = class; steps = steps.now }) time }
{
    if !class.trips {
        return MOST_SPEED;
    }
    if class.period == 0 || steps.is_empty() {
        return MOST_PERIOD;
    }
    if is_last(class, steps) {
        most_turn(class, steps, time)
    } else {
        MOST_PERIOD
    }
}

/// The next step of a class, by its numbers.
#[tactic(auto, unfolding(crate::specs::StepLines::step_within))]
pub(crate) fn step_within(
    class: StepClass,
    steps: &[(u64, u64)],
    time: u128,
    value: u128,
) -> Result<(u64, u64), FaultKind>
    ensures { result ≡ spec.step_within (record { class = class; steps = steps.now }) time value }
{
    let time = within_from(least_time(class, steps), most_time(class, steps), time)?;
    let low = least_value(class, steps, time);
    let value = within_from(low, most_value(class, steps, time), value)?;
    Ok((time, value))
}

#[tactic(auto, unfolding(crate::specs::StepLines::step_read))]
fn step_read(
    class: StepClass,
    steps: &[(u64, u64)],
    time: &[u8],
    value: &[u8],
) -> Result<(u64, u64), FaultKind>
    ensures { result
        ≡ spec.step_read (record { class = class; steps = steps.now }) time.now value.now }
{
    let time = numeral(time)?;
    let value = numeral(value)?;
    step_within(class, steps, time, value)
}

/// The next step of a class, by the fields behind `v`.
#[tactic(auto, unfolding(crate::specs::StepLines::step_of))]
pub(crate) fn step_of(
    class: StepClass,
    steps: &[(u64, u64)],
    fields: &[&[u8]],
) -> Result<(u64, u64), FaultKind>
    ensures { result
        ≡ spec.step_of (record { class = class; steps = steps.now }) (texts_now fields.now) }
{
    match fields {
        [time, value] => step_read(class, steps, time, value),
        _ => Err(FaultKind::FieldCount),
    }
}
