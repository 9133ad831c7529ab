//! Latest departures of arcs, compared with a scan over all departures, and of nodes in a network turned round.
use crate::asserts::{assert_none_wrong, assert_that};
use crate::refused::given::four_nodes;
use ea_base::{HORIZON, RawKind};
use ea_paths::solve_alone;
use ea_road::{Query, Source, is_problem};
use ea_travel_times::{Timetables, TravelTimes, Turned};
use std::alloc::{AllocError, Global};
use std::test::Fail;

/// A class of each of the seven kinds.
const KINDS: [RawKind; 7] = [
    RawKind::Plain,
    RawKind::Every {
        period: 10,
        offset: 3,
    },
    RawKind::Closed { lo: 4, hi: 11 },
    RawKind::Rush {
        lo: 6,
        hi: 15,
        extra: 9,
    },
    RawKind::Speeds {
        period: 20,
        first: 0,
        count: 3,
    },
    RawKind::Trips {
        period: 12,
        first: 3,
        count: 2,
    },
    RawKind::Points {
        period: 10,
        first: 5,
        count: 2,
    },
];

const STEPS: [(u64, u64); 7] = [(0, 1000), (5, 0), (9, 400), (2, 0), (7, 4), (1, 0), (6, 5)];

/// Travel times by these classes; none if they don't fit.
fn times_of(alloc: Global) -> Result<Option<Timetables>, AllocError> {
    let kinds = Vec::from_array(alloc, KINDS)?;
    let steps = Vec::from_array(alloc, STEPS)?;
    if !Timetables::fits(&kinds, &steps) {
        return Ok(None);
    }
    Ok(Some(Timetables::with_steps(alloc, kinds, steps)?))
}

/// The latest departure that arrives by a time, by trying each.
fn by_scan(times: &Timetables, class: u32, weight: u64, arrival: u64) -> Option<u64> {
    if class as usize > times.classes() || weight > 1000 || arrival > 1000 {
        return None;
    }
    let mut found = None;
    for departure in 0..arrival + 1 {
        if times.arrive(class, weight, departure) <= arrival {
            found = Some(departure);
        }
    }
    found
}

/// Whether both calls, and the same arc turned round, give the departure of the scan.
fn is_right(times: &Timetables, class: u32, weight: u64, arrival: u64) -> bool {
    if class as usize > times.classes() || weight > 1000 || arrival > 1000 {
        return false;
    }
    let wanted = by_scan(times, class, weight, arrival);
    let turned = match wanted {
        Some(departure) => HORIZON.saturating_sub(departure),
        None => HORIZON + 1,
    };
    TravelTimes::latest(times, class, weight, arrival) == wanted
        && times.latest_by_halves(class, weight, arrival) == wanted
        && Turned::of(times).arrive(class, weight, HORIZON - arrival) == turned
}

/// The first arrival, of 60 for each weight and class, whose latest departure is wrong.
fn first_wrong(times: &Timetables) -> Option<usize> {
    let mut row = 0;
    for class in 0..8 {
        for weight in 0..5 {
            for arrival in 0..60 {
                if !is_right(times, class, weight, arrival) {
                    return Some(row);
                }
                row = row.saturating_add(1);
            }
        }
    }
    None
}

#[test]
fn latest_departures_of_all_kinds(rt: HostRuntime) -> Result<(), Fail> {
    let times = times_of(rt.alloc())?.ok_or("the classes fit")?;
    assert_none_wrong(&rt, first_wrong(&times));
    Ok(())
}

/// The latest departure from node 1 by which node 4 is reached by 10; 0 if it isn't found.
fn latest_from_first(alloc: Global) -> Result<Option<u64>, AllocError> {
    let Some(network) = four_nodes(alloc)? else {
        return Ok(None);
    };
    let turned = network.turned(alloc)?;
    let times = Timetables::of(alloc, &[])?;
    let by = Source {
        node: 4,
        departure: HORIZON - 10,
    };
    let query = Query::new(vec![in alloc; by]?);
    if !is_problem(&turned, times.classes(), &query) {
        return Ok(None);
    }
    let answer = solve_alone(alloc, &turned, &Turned::of(&times), &query)?;
    Ok(answer.arrival(1))
}

#[test]
fn latest_departure_in_a_turned_network(rt: HostRuntime) -> Result<(), Fail> {
    let found = latest_from_first(rt.alloc())?;
    assert_that(&rt, "leave at 4", found == Some(HORIZON - 4));
    Ok(())
}
