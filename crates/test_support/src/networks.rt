//! Networks, travel times and queries for tests.
use ea_base::RawKind;
use ea_road::{Arc, Network, Query, Source};
use ea_travel_times::Timetables;
use std::alloc::{AllocError, Global};

/// An arc by its tail, head, weight and class.
pub type Row = (u32, u32, u32, u32);

pub const FOUR_NODES: [Row; 5] = [
    (1, 2, 7, 0),
    (1, 3, 2, 0),
    (3, 2, 3, 0),
    (2, 4, 1, 0),
    (3, 4, 9, 0),
];

/// A network, travel times and a query that make a problem.
#[derive(Drop)]
pub struct Given {
    pub network: Network,
    pub times: Timetables,
    pub query: Query,
}

/// The network of these rows; none if they make none.
pub fn network_of(alloc: Global, nodes: u32, rows: &[Row]) -> Result<Option<Network>, AllocError> {
    let mut arcs = Vec::new(alloc);
    for (tail, head, weight, class) in rows {
        arcs.push(Arc {
            tail: *tail,
            head: *head,
            weight: *weight,
            class: *class,
        })?;
    }
    if !Network::fits(nodes, &arcs) {
        return Ok(None);
    }
    Ok(Some(Network::new(alloc, nodes, arcs)?))
}

/// The query for all nodes from these sources; none if they don't fit.
pub fn query_of(alloc: Global, sources: &[(u32, u64)]) -> Result<Option<Query>, AllocError> {
    let mut list = Vec::new(alloc);
    for (node, departure) in sources {
        list.push(Source {
            node: *node,
            departure: *departure,
        })?;
    }
    if !Query::fits(&list) {
        return Ok(None);
    }
    Ok(Some(Query::new(list)))
}

/// A problem from rows and sources; none if they don't fit.
pub fn pose(
    alloc: Global,
    nodes: u32,
    rows: &[Row],
    sources: &[(u32, u64)],
) -> Result<Option<Given>, AllocError> {
    match query_of(alloc, sources)? {
        Some(query) => with_query(alloc, nodes, rows, query),
        None => Ok(None),
    }
}

/// A problem from rows and a query.
pub fn with_query(
    alloc: Global,
    nodes: u32,
    rows: &[Row],
    query: Query,
) -> Result<Option<Given>, AllocError> {
    with_period(alloc, nodes, rows, 0, query)
}

/// A problem from rows, a query, and the period of class 1, which leaves at each multiple; 0 means no class
/// 1.
pub fn with_period(
    alloc: Global,
    nodes: u32,
    rows: &[Row],
    period: u32,
    query: Query,
) -> Result<Option<Given>, AllocError> {
    let Some(network) = network_of(alloc, nodes, rows)? else {
        return Ok(None);
    };
    let times = times_of(alloc, period)?;
    Ok(Some(Given {
        network,
        times,
        query,
    }))
}

/// Travel times without classes, or with class 1, which leaves at each multiple of the period; 0 means no
/// class 1.
pub fn times_of(alloc: Global, period: u32) -> Result<Timetables, AllocError> {
    if period == 0 {
        return Ok(Timetables::new(Vec::new(alloc)));
    }
    let kinds = [RawKind::Every {
        period: u64::from(period),
        offset: 0,
    }];
    Timetables::of(alloc, &kinds)
}
