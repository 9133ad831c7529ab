//! Calls that need little memory, for networks of any size, with little left.
ghost use Rattle.ea_report.specs.Asked.{IsOf};

use crate::counts::taken;
use ea_base::Direction;
use ea_blocks::{FaultKind, InputFault};
use ea_bytes::StdOut;
use ea_input::{read_gr, read_p2p, read_ss, read_tp};
use ea_paths::{Answer, arrivals_alone, solve_alone};
use ea_report::{ReportOptions, Style, write_problem};
use ea_road::{Arc, Network, Query, Source, is_problem};
use ea_search::Open;
use ea_travel_times::Timetables;
use std::alloc::{AllocError, Global};
use std::io::{self, Write};
use std::test::Fail;

/// The number of nodes of the networks.
const NODES: u32 = 60_000;

/// A network of nodes without arcs, or with a path of arcs of weight 3; none if it doesn't fit.
fn network_of(alloc: Global, is_path: bool) -> Result<Option<Network>, AllocError> {
    let mut arcs = Vec::new(alloc);
    if is_path {
        for tail in 1..NODES {
            arcs.push(Arc {
                tail,
                head: tail + 1,
                weight: 3,
                class: 0,
            })?;
        }
    }
    if !Network::fits(NODES, &arcs) {
        return Ok(None);
    }
    Ok(Some(Network::new(alloc, NODES, arcs)?))
}

/// All nodes from node 1 at 0.
fn from_first(alloc: Global) -> Result<Query, AllocError> {
    let mut sources = Vec::new(alloc);
    sources.push(Source {
        node: 1,
        departure: 0,
    })?;
    Ok(Query::new(sources))
}

/// A writer that counts what it takes.
#[derive(Drop)]
struct Counting {
    bytes: u64,
}

impl Write for Counting {
    fn write(&mut self, buf: &[u8]) -> io::Result<usize> {
        self.bytes = self.bytes.saturating_add(buf.len() as u64);
        Ok(buf.len())
    }

    fn flush(&mut self) -> io::Result<()> {
        Ok(())
    }
}

/// The length of the report: `s 1 0`, `d 1 0`, and `d V inf` for 8 nodes of one digit, 90 of two, 900, 9,000
/// and 50,001.
const REPORT_BYTES: u128 = 12 + 8 * 8 + 90 * 9 + 900 * 10 + 9_000 * 11 + 50_001 * 12;

/// The number of bytes of a report that were sent with about 400,000 bytes left.
fn written_with_little(
    alloc: Global,
    network: &Network,
    query: &Query,
    answer: &Answer,
) -> Result<Option<u128>, AllocError>
    requires { IsOf network.now query.now answer.now }
{
    let (mut small, sizes, mut large) = taken(alloc, 100_000, 4, 0)?;
    let options = ReportOptions {
        style: Style {
            walks: false,
            direction: Direction::Forward,
        },
        nodes: None,
    };
    let mut out = StdOut::new(Counting { bytes: 0 });
    small.leave_together(sizes);
    let written = write_problem(alloc, network, query, answer, options, &mut out).ok();
    small.release();
    large.release();
    Ok(written)
}

/// The same for the arrivals at all nodes of a network; none if they can't be asked.
fn written_of(alloc: Global, network: &Network, query: &Query) -> Result<Option<u128>, AllocError> {
    let times = Timetables::new(Vec::new(alloc));
    if !is_problem(network, times.classes(), query) {
        return Ok(None);
    }
    let answer = arrivals_alone(alloc, network, &times, query)?;
    written_with_little(alloc, network, query, &answer)
}

/// The same for the network without arcs.
fn large_report(alloc: Global) -> Result<Option<u128>, AllocError> {
    let query = from_first(alloc)?;
    match network_of(alloc, false)? {
        Some(network) => written_of(alloc, &network, &query),
        None => Ok(None),
    }
}

#[test]
fn report_is_larger_than_the_memory(rt: HostRuntime) -> Result<(), Fail> {
    assert_eq!(rt; large_report(rt.alloc())?, Some(REPORT_BYTES));
    Ok(())
}

/// The walk of the third node with 2,000 bytes left.
fn short_walk(alloc: Global, answer: &Answer) -> Result<Option<Vec<u32>>, AllocError> {
    if !answer.asks(3) || !answer.has_walks() {
        return Ok(None);
    }
    let (mut small, sizes, mut large) = taken(alloc, 2_000, 1, 0)?;
    let mut walk = Ok(None);
    for piece in sizes {
        small.leave(piece);
        walk = answer.walk(alloc, 3);
        small.release();
    }
    large.release();
    walk
}

/// The answer of a network from the first node; none if it can't be asked.
fn answer_of(alloc: Global, network: &Network) -> Result<Option<Answer>, AllocError> {
    let times = Timetables::new(Vec::new(alloc));
    let query = from_first(alloc)?;
    if !is_problem(network, times.classes(), &query) {
        return Ok(None);
    }
    Ok(Some(solve_alone(alloc, network, &times, &query)?))
}

/// The answer along the path.
fn path_answer(alloc: Global) -> Result<Option<Answer>, AllocError> {
    match network_of(alloc, true)? {
        Some(network) => answer_of(alloc, &network),
        None => Ok(None),
    }
}

/// Whether the walk of the third node along the path has these arcs.
fn has_short_walk(alloc: Global, arcs: &[u32]) -> Result<bool, AllocError> {
    let Some(answer) = path_answer(alloc)? else {
        return Ok(false);
    };
    match short_walk(alloc, &answer)? {
        Some(walk) => Ok(walk.as_slice() == arcs),
        None => Ok(false),
    }
}

#[test]
fn walk_takes_room_for_its_own_arcs(rt: HostRuntime) -> Result<(), Fail> {
    assert!(rt; has_short_walk(rt.alloc(), &[1, 2])?);
    Ok(())
}

/// Bytes by which the pieces of memory for a worklist grow, and its number of nodes.
const STEP: u32 = 250;

const FEW: u32 = 2_000;

/// The first of the growing pieces into which a worklist fits.
fn first_piece(alloc: Global, walks: bool) -> Result<Option<u32>, AllocError> {
    let (mut small, sizes, mut large) = taken(alloc, 0, 400, STEP)?;
    let mut first = None;
    let mut place = 0u32;
    for piece in sizes {
        small.leave(piece);
        let made = if walks {
            Open::reserve(alloc, FEW).is_ok()
        } else {
            Open::reserve_without_walks(alloc, FEW).is_ok()
        };
        small.release();
        if made && first.is_none() {
            first = Some(place);
        }
        place = place.wrapping_add(1);
    }
    large.release();
    Ok(first)
}

/// Whether the first piece for a worklist without walks is smaller than that for one with walks, which has
/// links.
fn is_without_links(without: Option<u32>, with: Option<u32>) -> bool {
    // Links take at least four bytes for each node.
    let links = (4 * FEW / STEP) - 1;
    match (without, with) {
        (Some(without), Some(with)) => 0 < without && without.saturating_add(links) <= with,
        _ => false,
    }
}

#[test]
fn worklist_without_walks_has_no_links(rt: HostRuntime) -> Result<(), Fail> {
    let without = first_piece(rt.alloc(), false)?;
    let with = first_piece(rt.alloc(), true)?;
    assert!(rt; is_without_links(without, with), "{without:?} and {with:?}");
    Ok(())
}

/// The fault of a text that is read.
fn kind_of<T: Drop>(read: Result<T, InputFault>) -> Option<FaultKind> {
    match read {
        Ok(_) => None,
        Err(fault) => Some(fault.kind),
    }
}

/// The faults of texts that announce the greatest numbers and have one line, with about 20,000 bytes left.
fn announced(alloc: Global) -> Result<[Option<FaultKind>; 4], AllocError> {
    let (mut small, sizes, mut large) = taken(alloc, 20_000, 1, 0)?;
    let mut found = [None; 4];
    for piece in sizes {
        small.leave(piece);
        found = [
            kind_of(read_gr(alloc, b"p sp 67108864 268435456\na 1 2 7\n")),
            kind_of(read_ss(alloc, b"p aux sp ss 1000000\ns 1\n", 4)),
            kind_of(read_p2p(alloc, b"p aux sp p2p 1000000\nq 1 2\n", 4)),
            kind_of(read_tp(alloc, b"p tp 65535 268435456\nk 1 plain\n", 4)),
        ];
        small.release();
    }
    large.release();
    Ok(found)
}

#[test]
fn announced_lines_take_no_memory(rt: HostRuntime) -> Result<(), Fail> {
    let found = announced(rt.alloc())?;
    assert_eq!(rt; found, [Some(FaultKind::TooFewLines); 4]);
    Ok(())
}
