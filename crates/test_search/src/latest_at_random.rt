//! Latest departures of random speeds, trips and points, compared with those by halves.
use crate::asserts::assert_that;
use ea_base::{HORIZON, RawKind};
use ea_travel_times::{Timetables, TravelTimes};
use rand_core::{Rng, SeedableRng};
use rand_xoshiro::Xoshiro256PlusPlus;
use std::alloc::{AllocError, Global};
use std::test::Fail;

/// A random number below a bound.
fn below<R: Rng>(words: &mut R, bound: u64) -> u64 {
    words.next_u64() % bound.max(1)
}

/// What random steps are like: the first is up to a time, the next ones follow by up to a gap, and values stay below a bound.
#[derive(Clone, Copy)]
struct Shape {
    first: u64,
    gap: u64,
    values: u64,
}

/// Random steps, of which the last one's time is at the end.
fn random_steps<R: Rng>(
    alloc: Global,
    words: &mut R,
    shape: Shape,
) -> Result<(Vec<(u64, u64)>, u64), AllocError> {
    let mut steps = Vec::new(alloc);
    let mut time = below(words, shape.first.saturating_add(1));
    let mut last = time;
    for _ in 0..below(words, 6).saturating_add(1) {
        steps.push((time, below(words, shape.values)))?;
        last = time;
        time = time
            .saturating_add(1)
            .saturating_add(below(words, shape.gap));
    }
    Ok((steps, last))
}

/// A period after the last step, or none.
fn random_period<R: Rng>(words: &mut R, last: u64) -> u64 {
    if below(words, 3) == 0 {
        0
    } else {
        last.saturating_add(1)
            .saturating_add(below(words, 4).saturating_mul(below(words, 9)))
    }
}

/// Travel times by one random class of speeds, of trips or of points; none if its numbers don't fit.
fn random_times<R: Rng>(alloc: Global, words: &mut R) -> Result<Option<Timetables>, AllocError> {
    let sort = below(words, 3);
    let shape = match (sort, below(words, 4)) {
        (0, _) => Shape {
            first: 0,
            gap: 9,
            values: 2_000,
        },
        (_, 0) => Shape {
            first: 1_000_000,
            gap: 4_000_000_000,
            values: 4_000_000_000,
        },
        (_, 1) => Shape {
            first: 0,
            gap: 1,
            values: 2,
        },
        _ => Shape {
            first: 12,
            gap: 8,
            values: 9,
        },
    };
    let (steps, last) = random_steps(alloc, words, shape)?;
    let period = random_period(words, last);
    let count = steps.len();
    let kind = match sort {
        0 => RawKind::Speeds {
            period,
            first: 0,
            count,
        },
        1 => RawKind::Trips {
            period,
            first: 0,
            count,
        },
        _ => RawKind::Points {
            period,
            first: 0,
            count,
        },
    };
    let kinds = vec![in alloc; kind]?;
    if !Timetables::fits(&kinds, &steps) {
        return Ok(None);
    }
    Ok(Some(Timetables::with_steps(alloc, kinds, steps)?))
}

/// A time soon after the beginning, anywhere, or shortly before the horizon.
fn random_arrival<R: Rng>(words: &mut R) -> u64 {
    match below(words, 5) {
        0 => below(words, HORIZON),
        1 => HORIZON.saturating_sub(below(words, 100)),
        2 => below(words, 40_000_000_000),
        _ => below(words, 150),
    }
}

/// Whether both ways give the same departure.
fn is_same(times: &Timetables, weight: u64, arrival: u64) -> bool {
    if times.classes() == 0 || weight > 1_000_000 || arrival > HORIZON {
        return false;
    }
    TravelTimes::latest(times, 1, weight, arrival) == times.latest_by_halves(1, weight, arrival)
}

/// How many of 100 random questions both ways answer alike.
fn count_same<R: Rng>(words: &mut R, times: &Timetables) -> u64 {
    let mut same = 0u64;
    for _ in 0..100u32 {
        let heavy = if below(words, 8) == 0 { 100_000 } else { 30 };
        let weight = below(words, heavy);
        if is_same(times, weight, random_arrival(words)) {
            same = same.saturating_add(1);
        }
    }
    same
}

/// How many of this many random classes fit, and how many of 100 random questions to each both ways answer alike.
fn compare(alloc: Global, classes: u32) -> Result<(u64, u64), AllocError> {
    let mut words = Xoshiro256PlusPlus::seed_from_u64(7);
    let mut fit = 0u64;
    let mut same = 0u64;
    for _ in 0..classes {
        if let Some(times) = random_times(alloc, &mut words)? {
            fit = fit.saturating_add(1);
            same = same.saturating_add(count_same(&mut words, &times));
        }
    }
    Ok((fit, same))
}

#[test]
fn latest_departures_of_random_steps(rt: HostRuntime) -> Result<(), Fail> {
    let (fit, same) = compare(rt.alloc(), 3_000)?;
    assert_that(&rt, "many classes fit", fit > 500);
    assert_that(&rt, "both ways are alike", same == fit.saturating_mul(100));
    Ok(())
}
