//! Reports that come from devices: in pieces, over several blocks, after interruptions, up to a failure.
ghost use Rattle.std.specs.Prelude.{IfOk, IfSome};
ghost use Rattle.ea_check.specs.Checked.{AreCheckable};

use crate::asserts::{assert_none_wrong, assert_that};
use CheckFault::{BadLine, NotAttained, NotCanonical, NotLeast};
use ea_base::{Direction, HORIZON, Silent};
use ea_blocks::ReadFault;
use ea_bytes::StdIn;
use ea_check::*;
use ea_road::{ArcList, Network, NumberedArcs, Query};
use ea_travel_times::{Timetables, Turned};
use std::alloc::{AllocError, Global};
use std::io::{self, Error, ErrorKind, Read};
use std::test::Fail;
use std::thread::Threads;
use test_support::networks::{FOUR_NODES, Row, network_of, query_of, times_of};

/// A reader of std that gives a text in pieces after this many interruptions, and fails when this many bytes
/// are left.
#[derive(Clone, Copy, Drop)]
pub(crate) struct Device<'a> {
    text: &'a [u8],
    piece: usize,
    interruptions: u64,
    fails_at: Option<usize>,
}

impl Read for Device<'_> {
    fn read(&mut self, buf: &mut [u8]) -> io::Result<usize> {
        if self.interruptions > 0 {
            self.interruptions -= 1;
            return Err(Error::from(ErrorKind::Interrupted));
        }
        if self.fails_at == Some(self.text.len()) {
            return Err(Error::from(ErrorKind::Other));
        }
        let count = self.piece.min(self.text.len()).min(buf.len());
        let (front, rest) = self.text.split_at(count);
        buf[..count].copy_from_slice(front);
        self.text = rest;
        Ok(count)
    }
}

/// A device that gives a text in pieces of this many bytes.
pub(crate) fn in_pieces(text: &[u8], piece: usize) -> Device<'_> {
    Device {
        text,
        piece,
        interruptions: 0,
        fails_at: None,
    }
}

/// The checker's answer; none if the problem can't be checked.
pub(crate) type Said = Option<Result<Result<(), CheckFault>, ReadFault>>;

/// The answer of one thread, if four threads have the same.
fn same(one: Said, four: Said) -> Said {
    if one == four { one } else { None }
}

/// A copy of a network without an index, if these queries can be checked on it.
fn unindexed(
    alloc: Global,
    network: &Network,
    classes: usize,
    queries: &[Query],
) -> Result<Option<NumberedArcs>, AllocError>
    ensures { IfOk result (λ found. IfSome found
        (λ arcs. AreCheckable arcs classes queries.entry.now)) }
{
    let nodes = network.nodes();
    let mut arcs = Vec::new(alloc);
    for number in 1..network.arcs().len() as u32 + 1 {
        arcs.push(network.arc(number))?;
    }
    if !Network::fits(nodes, &arcs) {
        return Ok(None);
    }
    let list = ArcList::of(alloc, &arcs)?;
    let copy = Network::new(alloc, nodes, arcs)?;
    if !is_checkable(&copy, classes, queries) {
        return Ok(None);
    }
    Ok(Some(NumberedArcs::new(nodes, list)))
}

/// The checker's answer on the report of earliest arrivals of a device. One thread is given an index; four threads
/// make one if they need it.
pub(crate) fn forward<H: Threads + Sync>(
    rt: &H,
    alloc: Global,
    network: &Network,
    times: &Timetables,
    queries: &[Query],
    device: Device<'_>,
) -> Said {
    if !is_checkable(network, times.classes(), queries) {
        return None;
    }
    let Ok(found) = unindexed(alloc, network, times.classes(), queries) else {
        return None;
    };
    let Some(arcs) = found else {
        return None;
    };
    let way = Direction::Forward;
    let one = Several { rt, threads: 1 };
    let mut reader = StdIn::new(device);
    let by_one = check_stream(
        alloc,
        &one,
        LazyNetwork::Given(network),
        times,
        queries,
        way,
        &mut reader,
        &mut Silent,
    );
    let four = Several { rt, threads: 4 };
    let mut reader = StdIn::new(device);
    let by_four = check_stream(
        alloc,
        &four,
        LazyNetwork::Unindexed(arcs),
        times,
        queries,
        way,
        &mut reader,
        &mut Silent,
    );
    same(Some(by_one), Some(by_four))
}

/// The checker's answer on the report of latest departures of a device, for a network and queries that are
/// turned round.
fn turned<H: Threads + Sync>(
    rt: &H,
    alloc: Global,
    network: &Network,
    times: &Timetables,
    queries: &[Query],
    device: Device<'_>,
) -> Said {
    if !is_checkable(network, times.classes(), queries) {
        return None;
    }
    let Ok(found) = unindexed(alloc, network, times.classes(), queries) else {
        return None;
    };
    let Some(arcs) = found else {
        return None;
    };
    let times = Turned::of(times);
    let way = Direction::Turned;
    let one = Several { rt, threads: 1 };
    let mut reader = StdIn::new(device);
    let by_one = check_stream(
        alloc,
        &one,
        LazyNetwork::Given(network),
        &times,
        queries,
        way,
        &mut reader,
        &mut Silent,
    );
    let four = Several { rt, threads: 4 };
    let mut reader = StdIn::new(device);
    let by_four = check_stream(
        alloc,
        &four,
        LazyNetwork::Unindexed(arcs),
        &times,
        queries,
        way,
        &mut reader,
        &mut Silent,
    );
    same(Some(by_one), Some(by_four))
}

/// One query of all nodes from these sources; none if they don't fit.
pub(crate) fn one_query(
    alloc: Global,
    sources: &[(u32, u64)],
) -> Result<Option<Vec<Query>>, AllocError> {
    let Some(query) = query_of(alloc, sources)? else {
        return Ok(None);
    };
    let mut queries = Vec::new(alloc);
    queries.push(query)?;
    Ok(Some(queries))
}

/// The checker's answer on a report on four nodes, from node 1 at 0.
fn of_four<H: Threads + Sync>(
    rt: &H,
    alloc: Global,
    device: Device<'_>,
) -> Result<Said, AllocError> {
    let Some(queries) = one_query(alloc, &[(1, 0)])? else {
        return Ok(None);
    };
    let Some(network) = network_of(alloc, 4, &FOUR_NODES)? else {
        return Ok(None);
    };
    let times = times_of(alloc, 10)?;
    Ok(forward(rt, alloc, &network, &times, &queries, device))
}

/// The checker's answer on a report of latest departures on these arcs, to node 4 by this time.
fn to_four<H: Threads + Sync>(
    rt: &H,
    alloc: Global,
    rows: &[Row],
    by: u64,
    device: Device<'_>,
) -> Result<Said, AllocError> {
    let Some(queries) = one_query(alloc, &[(4, HORIZON.saturating_sub(by))])? else {
        return Ok(None);
    };
    let Some(network) = network_of(alloc, 4, rows)? else {
        return Ok(None);
    };
    let times = times_of(alloc, 10)?;
    let network = network.turned(alloc)?;
    Ok(turned(rt, alloc, &network, &times, &queries, device))
}

/// A report, and the checker's verdict.
type Case = (&'static [u8], Result<(), CheckFault>);

const REPORTS: [Case; 9] = [
    (b"s 1 0\nd 1 0\nd 2 5\nw 2 2 2 3\nd 3 2\nd 4 6\n", Ok(())),
    (b"s 1 0\r\nd 1 0\r\n\nc\nd 2 5\nd 3 2\nd 4 6\r", Ok(())),
    (b"s 1 0\nd 1 0\nd 2 5\nd 3 2\nd 4 7\n", Err(NotAttained(5))),
    (b"s 1 0\nd 1 0\nd 2 7\nd 3 2\nd 4 8", Err(NotLeast(3))),
    (b"s 1 0\nd 1 0\nd 2 5\nd 4 6\n", Err(BadLine(4))),
    (
        b"s 1 0\nd 1 0\nd 2 5\nd 3 2\nd 4 6\ns 1 0\nd 1 0\n",
        Err(BadLine(6)),
    ),
    (b"s 1 0\nd 1 0\nd 2 5\nd 3 2\n", Err(BadLine(0))),
    (
        b"s 1 0\nd 1 0\nd 2 5\nd 3 2\nw 3 2 2\nd 4 6\n",
        Err(BadLine(5)),
    ),
    (b"", Err(BadLine(0))),
];

/// The first of the reports that has another verdict if it comes in pieces of this size.
fn wrong_piece<H: Threads + Sync>(
    rt: &H,
    alloc: Global,
    piece: usize,
) -> Result<Option<usize>, AllocError> {
    for (place, (report, wanted)) in REPORTS.iter().enumerate() {
        if of_four(rt, alloc, in_pieces(report, piece))? != Some(Ok(*wanted)) {
            return Ok(Some(place));
        }
    }
    Ok(None)
}

#[test]
fn pieces_of_each_size(rt: HostRuntime) -> Result<(), Fail> {
    for piece in 1..50 {
        assert_none_wrong(&rt, wrong_piece(&rt, rt.alloc(), piece)?);
    }
    Ok(())
}

/// The length of a block of the checker.
const BLOCK: usize = 262_144;

/// A comment as long as a block, and a report after it.
fn after_comment(alloc: Global, report: &[u8]) -> Result<Vec<u8>, AllocError> {
    let mut text = Vec::from_elem(alloc, b'c', BLOCK - 1)?;
    text.push(b'\n')?;
    text.extend_from_slice(report)?;
    Ok(text)
}

/// The first number of bytes of a report after which a block can't end without another verdict.
fn wrong_cut<H: Threads + Sync>(
    rt: &H,
    alloc: Global,
    report: &[u8],
    wanted: Result<(), CheckFault>,
) -> Result<Option<usize>, AllocError> {
    let text = after_comment(alloc, report)?;
    for bytes in 0..report.len().min(BLOCK) {
        let Some(shorter) = text.get(bytes..) else {
            return Ok(Some(bytes));
        };
        if of_four(rt, alloc, in_pieces(shorter, BLOCK))? != Some(Ok(wanted)) {
            return Ok(Some(bytes));
        }
    }
    Ok(None)
}

#[test]
fn blocks_that_end_at_each_byte(rt: HostRuntime) -> Result<(), Fail> {
    let alloc = rt.alloc();
    let right = b"s 1 0\nd 1 0\nd 2 5\nw 2 2 2 3\r\nd 3 2\nd 4 6";
    let wrong = b"s 1 0\nd 1 0\n\nd 2 5\nw 2 2 3 2\nd 3 2\nd 4 6\n";
    assert_none_wrong(&rt, wrong_cut(&rt, alloc, right, Ok(()))?);
    assert_none_wrong(&rt, wrong_cut(&rt, alloc, wrong, Err(NotAttained(6)))?);
    Ok(())
}

/// A report whose walk line has this many blanks, and ends in these bytes.
fn with_blanks(alloc: Global, count: usize, end: &[u8]) -> Result<Vec<u8>, AllocError> {
    let blanks = Vec::from_elem(alloc, b' ', count)?;
    let mut text = b"s 1 0\nd 1 0\nd 2 5\nw 2 2 2".to_vec(alloc)?;
    text.extend_from_slice(&blanks)?;
    text.extend_from_slice(end)?;
    Ok(text)
}

#[test]
fn line_of_several_blocks(rt: HostRuntime) -> Result<(), Fail> {
    let alloc = rt.alloc();
    let right = with_blanks(alloc, 1_500_000, b"3\nd 3 2\nd 4 6\n")?;
    let wrong = with_blanks(alloc, 1_500_000, b"4\nd 3 2\nd 4 6\n")?;
    assert_that(
        &rt,
        "right",
        of_four(&rt, alloc, in_pieces(&right, BLOCK))? == Some(Ok(Ok(()))),
    );
    assert_that(
        &rt,
        "wrong",
        of_four(&rt, alloc, in_pieces(&wrong, BLOCK))? == Some(Ok(Err(NotAttained(4)))),
    );
    Ok(())
}

/// The first of the reports that has a verdict although its device, after 1,000 interruptions, fails with this
/// many bytes left.
fn unfailed<H: Threads + Sync>(
    rt: &H,
    alloc: Global,
    left: usize,
) -> Result<Option<usize>, AllocError> {
    for (place, (report, _)) in REPORTS.iter().enumerate() {
        let device = Device {
            text: report,
            piece: 1,
            interruptions: 1000,
            fails_at: Some(left.min(report.len())),
        };
        if of_four(rt, alloc, device)? != Some(Err(ReadFault::ReadFailed)) {
            return Ok(Some(place));
        }
    }
    Ok(None)
}

#[test]
fn failures_come_before_verdicts(rt: HostRuntime) -> Result<(), Fail> {
    for left in 0..40 {
        assert_none_wrong(&rt, unfailed(&rt, rt.alloc(), left)?);
    }
    Ok(())
}

#[test]
fn one_interruption_too_many(rt: HostRuntime) -> Result<(), Fail> {
    let device = Device {
        text: b"x\n",
        piece: 1,
        interruptions: 1001,
        fails_at: None,
    };
    let said = of_four(&rt, rt.alloc(), device)?;
    assert_that(&rt, "read failed", said == Some(Err(ReadFault::ReadFailed)));
    Ok(())
}

const BY_SIX: [Case; 20] = [
    (b"t 4 6\nd 1 0\nd 2 5\nd 3 2\nd 4 6\n", Ok(())),
    (
        b"t 4 6\nd 1 0\nw 1 3 2 3 4\nd 2 5\nw 2 1 4\nd 3 2\nw 3 2 3 4\nd 4 6\nw 4 0\n",
        Ok(()),
    ),
    (
        b"t 4 06\n\tc\nd 1 00\nd 2 5\nd 3 2\nw 3 02 03 04\nd 4 6",
        Ok(()),
    ),
    // The words and times of the other direction.
    (b"s 4 6\nd 1 0\nd 2 5\nd 3 2\nd 4 6\n", Err(BadLine(1))),
    (
        b"t 4 281474976710649\nd 1 0\nd 2 5\nd 3 2\nd 4 6\n",
        Err(BadLine(1)),
    ),
    (b"t 4 6\nd 1 inf\nd 2 5\nd 3 2\nd 4 6\n", Err(BadLine(2))),
    (
        b"t 4 6\nd 1 281474976710656\nd 2 5\nd 3 2\nd 4 6\n",
        Err(BadLine(2)),
    ),
    (
        b"t 4 6\nd 1 0\nd 2 5\nd 3 2\nd 4 none\nw 4 0\n",
        Err(BadLine(6)),
    ),
    // Departures that are too early, too late, and none.
    (b"t 4 6\nd 1 none\nd 2 5\nd 3 2\nd 4 6\n", Err(NotLeast(2))),
    (b"t 4 6\nd 1 0\nd 2 4\nd 3 1\nd 4 5\n", Err(NotAttained(2))),
    (b"t 4 6\nd 1 0\nd 2 5\nd 3 3\nd 4 6\n", Err(NotAttained(2))),
    (b"t 4 6\nd 1 1\nd 2 5\nd 3 2\nd 4 6\n", Err(NotAttained(2))),
    (
        b"t 4 6\nd 1 none\nd 2 none\nd 3 none\nd 4 none\n",
        Err(NotLeast(5)),
    ),
    // Walks in the other order, of other arcs, of another node, and too short ones.
    (
        b"t 4 6\nd 1 0\nw 1 3 4 3 2\nd 2 5\nd 3 2\nd 4 6\n",
        Err(NotAttained(3)),
    ),
    (
        b"t 4 6\nd 1 0\nw 1 2 2 5\nd 2 5\nd 3 2\nd 4 6\n",
        Err(NotAttained(3)),
    ),
    (
        b"t 4 6\nd 1 0\nw 1 2 3 4\nd 2 5\nd 3 2\nd 4 6\n",
        Err(NotAttained(3)),
    ),
    (
        b"t 4 6\nd 1 0\nw 1 0\nd 2 5\nd 3 2\nd 4 6\n",
        Err(NotAttained(3)),
    ),
    (
        b"t 4 6\nd 1 0\nw 1 3 2 3 4294967300\nd 2 5\nd 3 2\nd 4 6\n",
        Err(NotAttained(3)),
    ),
    (
        b"t 4 6\nd 1 0\nw 1 2 2 3 4\nd 2 5\nd 3 2\nd 4 6\n",
        Err(BadLine(3)),
    ),
    (b"t 4 6\nd 1 0\nd 2 5\nd 3 2\n", Err(BadLine(0))),
];

const BY_FIVE: [Case; 2] = [
    (b"t 4 5\nd 1 none\nd 2 4\nd 3 1\nd 4 5\n", Ok(())),
    (b"t 4 5\nd 1 0\nd 2 4\nd 3 1\nd 4 5\n", Err(NotAttained(2))),
];

/// The first of the reports of latest departures to node 4 that has another verdict.
fn wrong_to_four<H: Threads + Sync>(
    rt: &H,
    alloc: Global,
    rows: &[Row],
    by: u64,
    cases: &[Case],
) -> Result<Option<usize>, AllocError> {
    for (place, (report, wanted)) in cases.iter().enumerate() {
        if to_four(rt, alloc, rows, by, in_pieces(report, 5))? != Some(Ok(*wanted)) {
            return Ok(Some(place));
        }
    }
    Ok(None)
}

#[test]
fn latest_departures(rt: HostRuntime) -> Result<(), Fail> {
    assert_none_wrong(
        &rt,
        wrong_to_four(&rt, rt.alloc(), &FOUR_NODES, 6, &BY_SIX)?,
    );
    assert_none_wrong(
        &rt,
        wrong_to_four(&rt, rt.alloc(), &FOUR_NODES, 5, &BY_FIVE)?,
    );
    Ok(())
}

/// Two ways of the same time, over node 2 and over node 3.
const TWO_WAYS: [Row; 4] = [(1, 2, 1, 0), (2, 4, 1, 0), (1, 3, 1, 0), (3, 4, 1, 0)];

const BY_TWO: [Case; 3] = [
    (b"t 4 2\nd 1 0\nw 1 2 1 2\nd 2 1\nd 3 1\nd 4 2\n", Ok(())),
    (
        b"t 4 2\nd 1 0\nw 1 2 3 4\nd 2 1\nd 3 1\nd 4 2\n",
        Err(NotCanonical(3)),
    ),
    (
        b"t 4 2\nd 1 0\nw 1 2 2 1\nd 2 1\nd 3 1\nd 4 2\n",
        Err(NotAttained(3)),
    ),
];

#[test]
fn latest_canonical(rt: HostRuntime) -> Result<(), Fail> {
    assert_none_wrong(&rt, wrong_to_four(&rt, rt.alloc(), &TWO_WAYS, 2, &BY_TWO)?);
    Ok(())
}
