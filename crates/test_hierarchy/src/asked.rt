//! How many bounds a led search asks for: few near its source, and none inside streets.
ghost use Rattle.std.specs.Prelude.{◌≡◌, length};
ghost use Rattle.ea_hierarchy.specs.Preparations.{IsPreparedFor};
ghost use Rattle.ea_travel_times.specs.StepLists.{steps_in};
ghost use Rattle.ea_travel_times.specs.TimetableLists.{TimetablesAnswer};

use crate::streets::{Plan, streets};
use ea_goal::{Guide, lead};
use ea_hierarchy::{Prepared, Unprepared};
use ea_road::{NONE, Network, Query, Source, is_problem};
use ea_search::{Listed, Reached};
use ea_travel_times::Timetables;
use rand_core::SeedableRng;
use rand_xoshiro::Xoshiro256PlusPlus;
use std::alloc::{AllocError, Global};
use std::test::Fail;

/// How many bounds the search of a pair asks for; none if it isn't a pair of the network.
fn asked_between(
    alloc: Global,
    network: &Network,
    times: &Timetables,
    prepared: &Prepared,
    source: u32,
    target: u32,
) -> Result<Option<u64>, AllocError>
    requires { IsPreparedFor network.now
        (TimetablesAnswer times.now.list.items (steps_in times.now.steps)) prepared.now }
{
    if source == 0 || target == 0 {
        return Ok(None);
    }
    let start = Source {
        node: source,
        departure: 0,
    };
    let query = Query::pair(start, target);
    if !is_problem(network, times.classes(), &query) {
        return Ok(None);
    }
    let table = Reached {
        labels: vec![in alloc; NONE; network.nodes() as usize]?,
        listed: Listed::new(alloc, network.nodes()),
    };
    let guide = Guide::over(alloc, prepared)?;
    let led = lead(network, times, prepared, &query, target, guide, table, 0);
    Ok(Some(led.guide.asked()))
}

/// How many bounds are asked for from the first crossing to another, in a grid of streets.
fn asked_in_streets(
    alloc: Global,
    side: u32,
    longest: u32,
    target: u32,
) -> Result<Option<u64>, Unprepared> {
    let mut words = Xoshiro256PlusPlus::seed_from_u64(1);
    let plan = Plan {
        side,
        longest,
        classes: 1,
        odd: false,
    };
    let times = Timetables::new(Vec::new(alloc));
    let Some(network) = streets(alloc, &mut words, plan)? else {
        return Ok(None);
    };
    if network.top_class() as usize > times.classes() {
        return Ok(None);
    }
    let prepared = Prepared::of(alloc, &network, &times)?;
    Ok(asked_between(alloc, &network, &times, &prepared, 1, target)?)
}

#[test]
fn a_near_pair_asks_for_few_bounds(rt: HostRuntime) -> Result<(), Fail> {
    // Two streets from the first crossing of 1,600.
    let asked = asked_in_streets(rt.alloc(), 40, 0, 42).map_err(|_| "prepared")?;
    assert!(rt; asked > Some(0) && asked < Some(40));
    Ok(())
}

#[test]
fn a_far_pair_is_led_by_bounds(rt: HostRuntime) -> Result<(), Fail> {
    let asked = asked_in_streets(rt.alloc(), 60, 0, 3_600).map_err(|_| "prepared")?;
    assert!(rt; asked > Some(40));
    Ok(())
}

#[test]
fn nodes_inside_streets_need_no_bounds(rt: HostRuntime) -> Result<(), Fail> {
    // 144 crossings, and 10 nodes inside each of 264 streets.
    let asked = asked_in_streets(rt.alloc(), 12, 10, 144).map_err(|_| "prepared")?;
    assert!(rt; asked > Some(0) && asked < Some(600));
    Ok(())
}
