use crate::asserts::assert_none_wrong;
use ea_road::*;
use std::alloc::{AllocError, Global};
use std::test::Fail;

/// A time past every arrival within the horizon.
const PAST: u64 = 281_474_976_710_656;

/// The steps of a class.
#[derive(Clone, Copy)]
enum Steps {
    Speeds,
    Trips,
}

/// The kind of class whose steps are the first of all.
fn kind_of(steps: Steps, period: u64, count: usize) -> RawKind {
    match steps {
        Steps::Speeds => speeds(period, count),
        Steps::Trips => trips(period, count),
    }
}

fn speeds(period: u64, count: usize) -> RawKind {
    RawKind::Speeds {
        period,
        first: 0,
        count,
    }
}

fn trips(period: u64, count: usize) -> RawKind {
    RawKind::Trips {
        period,
        first: 0,
        count,
    }
}

/// Travel times in which class 1 is this kind with these steps; none if they don't fit.
fn times_by(
    alloc: Global,
    kind: RawKind,
    steps: Vec<(u64, u64)>,
) -> Result<Option<Timetables>, AllocError> {
    let kinds = vec![in alloc; kind]?;
    if !Timetables::fits(&kinds, &steps) {
        return Ok(None);
    }
    Ok(Some(Timetables::with_steps(alloc, kinds, steps)?))
}

/// A class's steps, their period, a weight, and the arrival for each departure.
type Timed = (
    Steps,
    u64,
    &'static [(u64, u64)],
    u64,
    &'static [(u64, u64)],
);

const TIMED: &[Timed] = &[
    // Full speed is plain.
    (
        Steps::Speeds,
        7,
        &[(0, 1000), (4, 1000)],
        3,
        &[
            (0, 3),
            (3, 6),
            (6, 9),
            (281_474_976_710_652, 281_474_976_710_655),
            (281_474_976_710_653, PAST),
            (281_474_976_710_655, PAST),
        ],
    ),
    // A closed stretch.
    (
        Steps::Speeds,
        10,
        &[(0, 1000), (6, 0)],
        3,
        &[
            (0, 3),
            (3, 6),
            (4, 11),
            (6, 13),
            (9, 13),
            (10, 13),
            (13, 16),
        ],
    ),
    // Half speed, then full speed.
    (
        Steps::Speeds,
        20,
        &[(0, 500), (10, 1000)],
        3,
        &[
            (0, 6),
            (4, 10),
            (5, 11),
            (6, 11),
            (7, 12),
            (9, 13),
            (10, 13),
            (18, 22),
        ],
    ),
    // Over the period.
    (
        Steps::Speeds,
        10,
        &[(0, 250), (5, 1000)],
        3,
        &[(7, 10), (8, 14), (9, 16), (10, 17), (15, 18)],
    ),
    (
        Steps::Speeds,
        10,
        &[(0, 250), (5, 1000)],
        25,
        &[(0, 40), (3, 43), (9, 49)],
    ),
    // Never above 2^48.
    (
        Steps::Speeds,
        4_294_967_296,
        &[(0, 1), (1, 0)],
        1,
        &[
            (0, 4_290_672_328_705),
            (1, 4_294_967_296_001),
            (281_474_976_710_655, PAST),
        ],
    ),
    (
        Steps::Speeds,
        4_294_967_296,
        &[(0, 1), (1, 0)],
        4_294_967_295,
        &[(0, PAST), (281_474_976_710_655, PAST)],
    ),
    (
        Steps::Speeds,
        4_294_967_296,
        &[(0, 1), (1, 0)],
        0,
        &[(281_474_976_710_655, 281_474_976_710_655)],
    ),
    // A weight of zero, and of one.
    (
        Steps::Speeds,
        10,
        &[(0, 0), (5, 1000)],
        0,
        &[(0, 0), (3, 3), (5, 5), (10, 10)],
    ),
    (
        Steps::Speeds,
        10,
        &[(0, 0), (5, 1000)],
        1,
        &[(0, 6), (3, 6), (5, 6), (9, 10), (10, 16)],
    ),
    // The next departure.
    (
        Steps::Trips,
        10,
        &[(2, 0), (7, 4)],
        3,
        &[
            (0, 5),
            (2, 5),
            (3, 14),
            (7, 14),
            (8, 15),
            (9, 15),
            (12, 15),
            (13, 24),
        ],
    ),
    (
        Steps::Trips,
        10,
        &[(2, 0), (7, 4)],
        0,
        &[(2, 2), (7, 11), (8, 12), (281_474_976_710_655, PAST)],
    ),
    // The last departure.
    (
        Steps::Trips,
        0,
        &[(2, 0), (7, 4)],
        3,
        &[(0, 5), (3, 14), (7, 14), (8, PAST)],
    ),
    // Equal arrivals.
    (
        Steps::Trips,
        0,
        &[(2, 9), (7, 4)],
        1,
        &[(2, 12), (3, 12), (7, 12)],
    ),
];

/// Whether an arc of class 1 and a weight has these arrivals.
fn arrives(times: &Timetables, weight: u64, cases: &[(u64, u64)]) -> bool {
    for (departure, arrival) in cases {
        if *departure > HORIZON || weight > 4_294_967_295 || times.classes() < 1 {
            return false;
        }
        if times.arrive(1, weight, *departure) != *arrival {
            return false;
        }
    }
    true
}

/// Whether travel times with such a class have these arrivals.
fn is_timed(alloc: Global, timed: &Timed) -> Result<bool, AllocError> {
    let (steps, period, list, weight, cases) = *timed;
    let kind = kind_of(steps, period, list.len());
    match times_by(alloc, kind, list.to_vec(alloc)?)? {
        Some(times) => Ok(arrives(&times, weight, cases)),
        None => Ok(false),
    }
}

/// The first class with other arrivals.
fn wrong_timed(alloc: Global, table: &[Timed]) -> Result<Option<usize>, AllocError> {
    for (place, timed) in table.iter().enumerate() {
        if !is_timed(alloc, timed)? {
            return Ok(Some(place));
        }
    }
    Ok(None)
}

#[test]
fn steps_arrive_as_is_said(rt: HostRuntime) -> Result<(), Fail> {
    assert_none_wrong(&rt, wrong_timed(rt.alloc(), TIMED)?);
    Ok(())
}

/// A class's steps, their period, how many are counted, and whether they fit.
type Fit = (Steps, u64, usize, &'static [(u64, u64)], bool);

const FITS: &[Fit] = &[
    // No trip overtakes another one.
    (Steps::Trips, 20, 2, &[(2, 9), (7, 3)], false),
    (Steps::Trips, 20, 2, &[(2, 9), (7, 4)], true),
    (Steps::Trips, 10, 2, &[(2, 0), (7, 6)], false),
    (Steps::Trips, 10, 2, &[(2, 0), (7, 5)], true),
    (Steps::Trips, 0, 2, &[(2, 0), (7, 6)], true),
    (Steps::Trips, 10, 1, &[(9, 4_294_967_296)], true),
    // The ranges of speeds.
    (Steps::Speeds, 10, 1, &[(1, 1)], false),
    (Steps::Speeds, 10, 1, &[(0, 0)], false),
    (Steps::Speeds, 10, 1, &[(0, 1_000_000)], true),
    (Steps::Speeds, 10, 1, &[(0, 1_000_001)], false),
    (Steps::Speeds, 10, 1, &[], false),
    (Steps::Speeds, 10, 2, &[(0, 1), (0, 1)], false),
    (Steps::Speeds, 10, 2, &[(0, 1), (9, 0)], true),
    (Steps::Speeds, 10, 2, &[(0, 1), (10, 1)], false),
    (Steps::Speeds, 10, 2, &[(0, 0), (5, 0)], false),
    (Steps::Speeds, 0, 1, &[(0, 1)], false),
    (Steps::Speeds, 4_294_967_297, 1, &[(0, 1)], false),
    // The ranges of trips.
    (Steps::Trips, 10, 1, &[(10, 0)], false),
    (Steps::Trips, 10, 1, &[(9, 4_294_967_297)], false),
    (Steps::Trips, 0, 1, &[(281_474_976_710_655, 0)], true),
    (Steps::Trips, 0, 1, &[(PAST, 0)], false),
    (Steps::Trips, 4_294_967_297, 1, &[(0, 1)], false),
];

/// The first steps for which fitting is not as expected.
fn wrong_fit(table: &[Fit]) -> Option<usize> {
    for (place, (of, period, count, steps, fits)) in table.iter().enumerate() {
        if Timetables::fits(&[kind_of(*of, *period, *count)], steps) != *fits {
            return Some(place);
        }
    }
    None
}

#[test]
fn step_ranges(rt: HostRuntime) {
    assert_none_wrong(&rt, wrong_fit(FITS));
}

/// The next number of a simple generator.
fn next(state: u64) -> u64 {
    state
        .wrapping_mul(6_364_136_223_846_793_005)
        .wrapping_add(1_442_695_040_888_963_407)
}

/// The speed of a time, by the last step that is not after it.
fn speed_of(steps: &[(u64, u64)], time: u64) -> u64 {
    let mut speed = 0;
    for step in steps {
        if step.0 <= time {
            speed = step.1;
        }
    }
    speed
}

/// The arrival by the definition, one time after another, within this many times.
fn slowly(steps: &[(u64, u64)], period: u64, weight: u64, departure: u64) -> u64 {
    let mut sum: u64 = 0;
    let need = weight.wrapping_mul(1000);
    for time in departure..PAST {
        if sum >= need || period == 0 {
            return time;
        }
        sum = sum.wrapping_add(speed_of(steps, time % period));
    }
    PAST
}

/// Random steps in a period: about one time in three begins one.
fn drawn_steps(alloc: Global, period: u64, seed: u64) -> Result<Vec<(u64, u64)>, AllocError> {
    let mut steps = Vec::new(alloc);
    let mut state = next(seed);
    steps.push((0, 1 + (state >> 40) % 1500))?;
    for time in 1..period {
        state = next(state);
        if (state >> 33) % 3 == 0 {
            steps.push((time, ((state >> 40) % 5).wrapping_mul(400)))?;
        }
    }
    Ok(steps)
}

/// Whether each departure of three periods arrives by these steps as by the definition.
fn agrees(times: &Timetables, steps: &[(u64, u64)], period: u64) -> bool {
    for departure in 0..120u64 {
        for weight in 0..7u64 {
            if times.classes() < 1 {
                return false;
            }
            if times.arrive(1, weight * weight, departure)
                != slowly(steps, period, weight * weight, departure)
            {
                return false;
            }
        }
    }
    true
}

/// Whether travel times by random steps agree with the definition by the same steps.
fn agrees_drawn(
    alloc: Global,
    period: u64,
    seed: u64,
    again: &[(u64, u64)],
) -> Result<bool, AllocError> {
    let steps = drawn_steps(alloc, period, seed)?;
    match times_by(alloc, speeds(period, steps.len()), steps)? {
        Some(times) => Ok(agrees(&times, again, period)),
        None => Ok(false),
    }
}

/// Whether travel times by random steps agree with the definition.
fn is_drawn(alloc: Global, period: u64, seed: u64) -> Result<bool, AllocError> {
    let again = drawn_steps(alloc, period, seed)?;
    agrees_drawn(alloc, period, seed, &again)
}

/// The first period with which they do not agree.
fn wrong_period(alloc: Global) -> Result<Option<usize>, AllocError> {
    let mut seed: u64 = 7;
    for period in 1..40usize {
        if !is_drawn(alloc, period as u64, seed)? {
            return Ok(Some(period));
        }
        seed = next(seed);
    }
    Ok(None)
}

#[test]
fn speeds_are_those_of_the_definition(rt: HostRuntime) -> Result<(), Fail> {
    assert_none_wrong(&rt, wrong_period(rt.alloc())?);
    Ok(())
}

/// The steps of this many daily patterns of 96 quarters of an hour, each with two rushes.
fn patterns(alloc: Global, count: u64) -> Result<Vec<(u64, u64)>, AllocError> {
    let mut steps = Vec::new(alloc);
    for pattern in 0..count.min(1000) {
        for quarter in 0..96u64 {
            let rush = (quarter + pattern) % 48 < 8;
            let speed = if rush { 400 + pattern % 7 * 50 } else { 1000 };
            steps.push((quarter * 900, speed))?;
        }
    }
    Ok(steps)
}

/// Travel times of 200 classes, each of which has one of the patterns; none if they don't fit.
fn times_of_patterns(alloc: Global) -> Result<Option<Timetables>, AllocError> {
    let steps = patterns(alloc, 200)?;
    let mut kinds = Vec::new(alloc);
    for pattern in 0..200usize {
        kinds.push(RawKind::Speeds {
            period: 86_400,
            first: pattern * 96,
            count: 96,
        })?;
    }
    if !Timetables::fits(&kinds, &steps) {
        return Ok(None);
    }
    Ok(Some(Timetables::with_steps(alloc, kinds, steps)?))
}

/// The first pattern by which an arc of weight 1,234 doesn't arrive as by the definition.
fn wrong_pattern(times: &Timetables, steps: &[(u64, u64)]) -> Option<usize> {
    for pattern in 0..200usize {
        let departure = pattern as u64 * 431;
        if times.classes() != 200 || steps.len() != 19_200 {
            return Some(pattern);
        }
        let own = &steps[pattern * 96..pattern * 96 + 96];
        let arrival = times.arrive(pattern as u32 + 1, 1234, departure);
        if arrival != slowly(own, 86_400, 1234, departure) {
            return Some(pattern);
        }
    }
    None
}

/// The same by the definition's steps; the first pattern if they don't fit.
fn wrong_pattern_by(alloc: Global, steps: &[(u64, u64)]) -> Result<Option<usize>, AllocError> {
    match times_of_patterns(alloc)? {
        Some(times) => Ok(wrong_pattern(&times, steps)),
        None => Ok(Some(0)),
    }
}

#[test]
fn patterns_of_a_day(rt: HostRuntime) -> Result<(), Fail> {
    let steps = patterns(rt.alloc(), 200)?;
    assert_none_wrong(&rt, wrong_pattern_by(rt.alloc(), steps.as_slice())?);
    Ok(())
}

/// The most steps that a class may have.
fn most_steps(alloc: Global) -> Result<Vec<(u64, u64)>, AllocError> {
    let mut steps = Vec::new(alloc);
    for place in 0..65_536u64 {
        steps.push((place * 2, 1 + place % 1000))?;
    }
    Ok(steps)
}

/// The first of the departures at which an arc of weight 20 doesn't arrive as by the definition.
fn wrong_departure(times: &Timetables, steps: &[(u64, u64)], departures: &[u64]) -> Option<usize> {
    for (place, departure) in departures.iter().enumerate() {
        if times.classes() != 1 || *departure > HORIZON {
            return Some(place);
        }
        if times.arrive(1, 20, *departure) != slowly(steps, 131_072, 20, *departure) {
            return Some(place);
        }
    }
    None
}

/// The same by a class with the most steps; the first departure if they don't fit.
fn wrong_of_most(alloc: Global, steps: &[(u64, u64)]) -> Result<Option<usize>, AllocError> {
    match times_by(alloc, speeds(131_072, 65_536), most_steps(alloc)?)? {
        Some(times) => Ok(wrong_departure(&times, steps, DEPARTURES)),
        None => Ok(Some(0)),
    }
}

const DEPARTURES: &[u64] = &[0, 1, 77_777, 131_071, 131_072, 1_000_000];

#[test]
fn class_of_the_most_steps(rt: HostRuntime) -> Result<(), Fail> {
    let steps = most_steps(rt.alloc())?;
    assert_none_wrong(&rt, wrong_of_most(rt.alloc(), steps.as_slice())?);
    Ok(())
}
