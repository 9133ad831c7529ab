//! The kinds of a timetable's classes, by the fields of their lines.
ghost use Rattle.std.specs.Prelude.{◌≡◌, ◌∷◌, map};
ghost use Rattle.ea_blocks.specs.Borrowed.{texts_now};
ghost use Rattle.ea_input.specs.Table as spec;

use crate::number_ranges::{numeral, within, within_wide};
use ea_base::{HORIZON, MOST_PERIOD, MOST_STEPS, RawKind};
use ea_blocks::FaultKind;

/// Two fields as numbers.
#[tactic(auto, unfolding(crate::specs::Table::two_read))]
pub(crate) fn two_read(first: &[u8], second: &[u8]) -> Result<(u128, u128), FaultKind>
    ensures { result ≡ spec.two_read first.now second.now }
{
    let first = numeral(first)?;
    let second = numeral(second)?;
    Ok((first, second))
}

#[tactic(auto, unfolding(crate::specs::Table::interval_within))]
fn interval_within(lo: u128, hi: u128) -> Result<(u64, u64), FaultKind>
    ensures { result ≡ spec.interval_within lo hi }
{
    let lo = within_wide(0, HORIZON - 1, lo)?;
    let hi = within_wide(lo + 1, HORIZON, hi)?;
    Ok((lo, hi))
}

#[tactic(auto, unfolding(crate::specs::Table::numbered))]
fn numbered(number: u64, field: &[u8]) -> Result<u64, FaultKind>
    ensures { result ≡ spec.numbered number field.now }
{
    let found = numeral(field)?;
    within_wide(number, number, found)
}

#[tactic(auto, unfolding(crate::specs::Table::plain_of))]
fn plain_of(number: u64, field: &[u8], others: &[&[u8]]) -> Result<RawKind, FaultKind>
    ensures { result ≡ spec.plain_of number field.now (map (λ field. field.now) others.now) }
{
    if !others.is_empty() {
        return Err(FaultKind::FieldCount);
    }
    match numbered(number, field) {
        Ok(_) => Ok(RawKind::Plain),
        Err(kind) => Err(kind),
    }
}

#[tactic(auto, unfolding(crate::specs::Table::every_within))]
fn every_within(number: u64, found: u128, period: u128, offset: u128) -> Result<RawKind, FaultKind>
    ensures { result ≡ spec.every_within number found period offset }
{
    within_wide(number, number, found)?;
    let period = within_wide(1, MOST_PERIOD, period)?;
    let offset = within_wide(0, period - 1, offset)?;
    Ok(RawKind::Every { period, offset })
}

#[tactic(auto, unfolding(crate::specs::Table::every_read))]
fn every_read(number: u64, field: &[u8], period: &[u8], offset: &[u8]) -> Result<RawKind, FaultKind>
    ensures { result ≡ spec.every_read number field.now period.now offset.now }
{
    let found = numeral(field)?;
    let (period, offset) = two_read(period, offset)?;
    every_within(number, found, period, offset)
}

#[tactic(auto, unfolding(crate::specs::Table::every_of))]
fn every_of(number: u64, field: &[u8], others: &[&[u8]]) -> Result<RawKind, FaultKind>
    ensures { result ≡ spec.every_of number field.now (map (λ field. field.now) others.now) }
{
    match others {
        [period, offset] => every_read(number, field, period, offset),
        _ => Err(FaultKind::FieldCount),
    }
}

#[tactic(auto, unfolding(crate::specs::Table::closed_within))]
fn closed_within(number: u64, found: u128, lo: u128, hi: u128) -> Result<RawKind, FaultKind>
    ensures { result ≡ spec.closed_within number found lo hi }
{
    within_wide(number, number, found)?;
    let (lo, hi) = interval_within(lo, hi)?;
    Ok(RawKind::Closed { lo, hi })
}

#[tactic(auto, unfolding(crate::specs::Table::closed_read))]
fn closed_read(number: u64, field: &[u8], lo: &[u8], hi: &[u8]) -> Result<RawKind, FaultKind>
    ensures { result ≡ spec.closed_read number field.now lo.now hi.now }
{
    let found = numeral(field)?;
    let (lo, hi) = two_read(lo, hi)?;
    closed_within(number, found, lo, hi)
}

#[tactic(auto, unfolding(crate::specs::Table::closed_of))]
fn closed_of(number: u64, field: &[u8], others: &[&[u8]]) -> Result<RawKind, FaultKind>
    ensures { result ≡ spec.closed_of number field.now (map (λ field. field.now) others.now) }
{
    match others {
        [lo, hi] => closed_read(number, field, lo, hi),
        _ => Err(FaultKind::FieldCount),
    }
}

#[tactic(auto, unfolding(crate::specs::Table::rush_within))]
fn rush_within(
    number: u64,
    found: u128,
    lo: u128,
    hi: u128,
    extra: u128,
) -> Result<RawKind, FaultKind>
    ensures { result ≡ spec.rush_within number found lo hi extra }
{
    within_wide(number, number, found)?;
    let (lo, hi) = interval_within(lo, hi)?;
    let extra = within_wide(0, MOST_PERIOD, extra)?;
    Ok(RawKind::Rush { lo, hi, extra })
}

#[tactic(auto, unfolding(crate::specs::Table::rush_read))]
fn rush_read(
    number: u64,
    field: &[u8],
    lo: &[u8],
    hi: &[u8],
    extra: &[u8],
) -> Result<RawKind, FaultKind>
    ensures { result ≡ spec.rush_read number field.now lo.now hi.now extra.now }
{
    let found = numeral(field)?;
    let (lo, hi) = two_read(lo, hi)?;
    let extra = numeral(extra)?;
    rush_within(number, found, lo, hi, extra)
}

#[tactic(auto, unfolding(crate::specs::Table::rush_of))]
fn rush_of(number: u64, field: &[u8], others: &[&[u8]]) -> Result<RawKind, FaultKind>
    ensures { result ≡ spec.rush_of number field.now (map (λ field. field.now) others.now) }
{
    match others {
        [lo, hi, extra] => rush_read(number, field, lo, hi, extra),
        _ => Err(FaultKind::FieldCount),
    }
}

#[tactic(auto, unfolding(crate::specs::Table::speeds_within))]
fn speeds_within(
    number: u64,
    before: usize,
    found: u128,
    length: u128,
    count: u128,
) -> Result<RawKind, FaultKind>
    ensures { result ≡ spec.speeds_within number before found length count }
{
    within_wide(number, number, found)?;
    let period = within_wide(1, MOST_PERIOD, length)?;
    let count = within(1, MOST_STEPS, count)?;
    Ok(RawKind::Speeds {
        period,
        first: before,
        count: count as usize,
    })
}

#[tactic(auto, unfolding(crate::specs::Table::speeds_read))]
fn speeds_read(
    number: u64,
    before: usize,
    field: &[u8],
    period: &[u8],
    count: &[u8],
) -> Result<RawKind, FaultKind>
    ensures { result ≡ spec.speeds_read number before field.now period.now count.now }
{
    let found = numeral(field)?;
    let (period, count) = two_read(period, count)?;
    speeds_within(number, before, found, period, count)
}

#[tactic(auto, unfolding(crate::specs::Table::speeds_of))]
fn speeds_of(
    number: u64,
    before: usize,
    field: &[u8],
    others: &[&[u8]],
) -> Result<RawKind, FaultKind>
    ensures { result ≡ spec.speeds_of number before field.now
        (map (λ field. field.now) others.now) }
{
    match others {
        [period, count] => speeds_read(number, before, field, period, count),
        _ => Err(FaultKind::FieldCount),
    }
}

#[tactic(auto, unfolding(crate::specs::Table::trips_within))]
fn trips_within(
    number: u64,
    before: usize,
    found: u128,
    period: u128,
    count: u128,
) -> Result<RawKind, FaultKind>
    ensures { result ≡ spec.trips_within number before found period count }
{
    within_wide(number, number, found)?;
    let period = within_wide(0, MOST_PERIOD, period)?;
    let count = within(1, MOST_STEPS, count)?;
    Ok(RawKind::Trips {
        period,
        first: before,
        count: count as usize,
    })
}

#[tactic(auto, unfolding(crate::specs::Table::trips_read))]
fn trips_read(
    number: u64,
    before: usize,
    field: &[u8],
    period: &[u8],
    count: &[u8],
) -> Result<RawKind, FaultKind>
    ensures { result ≡ spec.trips_read number before field.now period.now count.now }
{
    let found = numeral(field)?;
    let (period, count) = two_read(period, count)?;
    trips_within(number, before, found, period, count)
}

#[tactic(auto, unfolding(crate::specs::Table::trips_of))]
fn trips_of(
    number: u64,
    before: usize,
    field: &[u8],
    others: &[&[u8]],
) -> Result<RawKind, FaultKind>
    ensures { result ≡ spec.trips_of number before field.now (map (λ field. field.now) others.now) }
{
    match others {
        [period, count] => trips_read(number, before, field, period, count),
        _ => Err(FaultKind::FieldCount),
    }
}

#[tactic(auto, unfolding(crate::specs::Table::points_within))]
fn points_within(
    number: u64,
    before: usize,
    found: u128,
    period: u128,
    count: u128,
) -> Result<RawKind, FaultKind>
    ensures { result ≡ spec.points_within number before found period count }
{
    within_wide(number, number, found)?;
    let period = within_wide(0, MOST_PERIOD, period)?;
    let count = within(1, MOST_STEPS, count)?;
    Ok(RawKind::Points {
        period,
        first: before,
        count: count as usize,
    })
}

#[tactic(auto, unfolding(crate::specs::Table::points_read))]
fn points_read(
    number: u64,
    before: usize,
    field: &[u8],
    period: &[u8],
    count: &[u8],
) -> Result<RawKind, FaultKind>
    ensures { result ≡ spec.points_read number before field.now period.now count.now }
{
    let found = numeral(field)?;
    let (period, count) = two_read(period, count)?;
    points_within(number, before, found, period, count)
}

#[tactic(auto, unfolding(crate::specs::Table::points_of))]
fn points_of(
    number: u64,
    before: usize,
    field: &[u8],
    others: &[&[u8]],
) -> Result<RawKind, FaultKind>
    ensures { result ≡ spec.points_of number before field.now (map (λ field. field.now) others.now) }
{
    match others {
        [period, count] => points_read(number, before, field, period, count),
        _ => Err(FaultKind::FieldCount),
    }
}

/// The kind of a class's number, a kind's name and the fields behind it, after this many steps.
#[tactic(auto, unfolding(crate::specs::Table::kind_of))]
fn kind_named(
    number: u64,
    before: usize,
    field: &[u8],
    name: &[u8],
    others: &[&[u8]],
) -> Result<RawKind, FaultKind>
    ensures { result ≡ spec.kind_of number before (field.now ∷ name.now ∷ texts_now others.now) }
{
    if name == b"plain".as_slice() {
        plain_of(number, field, others)
    } else if name == b"every".as_slice() {
        every_of(number, field, others)
    } else if name == b"closed".as_slice() {
        closed_of(number, field, others)
    } else if name == b"rush".as_slice() {
        rush_of(number, field, others)
    } else if name == b"speeds".as_slice() {
        speeds_of(number, before, field, others)
    } else if name == b"trips".as_slice() {
        trips_of(number, before, field, others)
    } else if name == b"points".as_slice() {
        points_of(number, before, field, others)
    } else {
        Err(FaultKind::BadKind)
    }
}

/// The kind of the fields behind `k`, after this many steps.
#[tactic(auto, unfolding(crate::specs::Table::kind_of))]
pub(crate) fn kind_of(number: u64, before: usize, fields: &[&[u8]]) -> Result<RawKind, FaultKind>
    ensures { result ≡ spec.kind_of number before (texts_now fields.now) }
{
    match fields {
        [field, name, others @ ..] => kind_named(number, before, field, name, others),
        _ => Err(FaultKind::FieldCount),
    }
}
