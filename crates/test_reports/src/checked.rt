use crate::asserts::{assert_none_wrong, assert_that};
use CheckFault::{BadLine, NotAttained, NotCanonical, NotLeast, OutOfMemory};
use ea_check::*;
use ea_road::{Network, Query, Source};
use ea_travel_times::Timetables;
use std::alloc::{AllocError, Global};
use std::test::Fail;
use test_support::networks::{FOUR_NODES, Row, network_of, query_of, times_of};

/// The sources of a problem, by node and departure.
type Sources<'a> = &'a [(u32, u64)];

/// A report, and the checker's verdict.
type Case = (&'static [u8], Result<(), CheckFault>);

/// The checker's verdict on a report; none if its problems can't be checked.
type Said = Option<Result<(), CheckFault>>;

/// The example two-ways-to-fifteen.
const TWO_WAYS: [Row; 4] = [(1, 2, 4, 0), (1, 3, 1, 0), (3, 2, 1, 0), (2, 4, 5, 1)];

/// One arc, from node 1 to node 2.
const ONE_ARC: [Row; 1] = [(1, 2, 3, 0)];

/// One problem, from node 1 at 0.
const FROM_FIRST: [Sources<'static>; 1] = [&[(1, 0)]];

/// One problem, from node 1 at 1.
const FROM_FIRST_AT_ONE: [Sources<'static>; 1] = [&[(1, 1)]];

const REPORT: &[u8] = b"s 1 0\nd 1 0\nd 2 5\nd 3 2\nd 4 6\n";

const WITH_WALKS: &[u8] =
    b"s 1 0\nd 1 0\nw 1 0\nd 2 5\nw 2 2 2 3\nd 3 2\nw 3 1 2\nd 4 6\nw 4 3 2 3 4\n";

/// With one walk that is written with a leading zero.
const ODD_WALK: &[u8] =
    b"s 1 0\nd 1 0\nw 1 0\nd 2 5\nw 2 2 02 3\nd 3 2\nw 3 1 2\nd 4 6\nw 4 3 2 3 4\n";

/// The queries of problems; none if the sources of one don't fit.
fn queries_of(alloc: Global, problems: &[Sources]) -> Result<Option<Vec<Query>>, AllocError> {
    let mut queries = Vec::new(alloc);
    for sources in problems {
        match query_of(alloc, sources)? {
            Some(query) => queries.push(query)?,
            None => return Ok(None),
        }
    }
    Ok(Some(queries))
}

/// The checker's verdict on a report of these queries.
fn said_of(
    alloc: Global,
    network: &Network,
    times: &Timetables,
    queries: &[Query],
    report: &[u8],
) -> Said {
    if !is_checkable(network, times.classes(), queries) {
        return None;
    }
    Some(check(alloc, network, times, queries, report))
}

/// The same with class 1 leaving every 10.
fn said_by_tens(
    alloc: Global,
    network: &Network,
    queries: &[Query],
    report: &[u8],
) -> Result<Said, AllocError> {
    let times = times_of(alloc, 10)?;
    Ok(said_of(alloc, network, &times, queries, report))
}

/// Its verdict then on a report of problems from these sources.
fn said_on(
    alloc: Global,
    network: &Network,
    problems: &[Sources],
    report: &[u8],
) -> Result<Said, AllocError> {
    match queries_of(alloc, problems)? {
        Some(queries) => said_by_tens(alloc, network, &queries, report),
        None => Ok(None),
    }
}

/// Its verdict on a report on the network of these rows.
fn verdict(
    alloc: Global,
    nodes: u32,
    rows: &[Row],
    problems: &[Sources],
    report: &[u8],
) -> Result<Said, AllocError> {
    match network_of(alloc, nodes, rows)? {
        Some(network) => said_on(alloc, &network, problems, report),
        None => Ok(None),
    }
}

/// The first of the reports of problems from these sources with another verdict.
fn wrong_verdict(
    alloc: Global,
    nodes: u32,
    rows: &[Row],
    problems: &[Sources],
    cases: &[Case],
) -> Result<Option<usize>, AllocError> {
    for (place, (report, wanted)) in cases.iter().enumerate() {
        if verdict(alloc, nodes, rows, problems, report)? != Some(*wanted) {
            return Ok(Some(place));
        }
    }
    Ok(None)
}

/// The checker's verdict on a report on four nodes, from node 1 at 0.
fn of_four(alloc: Global, report: &[u8]) -> Result<Said, AllocError> {
    verdict(alloc, 4, &FOUR_NODES, &FROM_FIRST, report)
}

/// The first of such reports with another verdict.
fn wrong_of_four(alloc: Global, cases: &[Case]) -> Result<Option<usize>, AllocError> {
    wrong_verdict(alloc, 4, &FOUR_NODES, &FROM_FIRST, cases)
}

const CHECK_VERDICTS: [Case; 8] = [
    (REPORT, Ok(())),
    (WITH_WALKS, Ok(())),
    (b"s 1 0\nd 1 0\nd 2 5\nd 3 2\nd 4 7\n", Err(NotAttained(5))),
    (b"s 1 0\nd 1 0\nd 2 5\nd 3 2\nd 4 5\n", Err(NotAttained(5))),
    (b"s 1 0\nd 1 0\nd 2 7\nd 3 2\nd 4 8\n", Err(NotLeast(3))),
    (b"s 1 0\nd 1 0\nd 2 5\nd 3 2\nd 4 inf\n", Err(NotLeast(5))),
    (b"s 1 0\nd 1 0\nd 2 5\nd 4 6\n", Err(BadLine(4))),
    (
        b"s 1 0\nd 1 inf\nd 2 inf\nd 3 inf\nd 4 inf\n",
        Err(NotLeast(2)),
    ),
];

#[test]
fn check_verdicts(rt: HostRuntime) -> Result<(), Fail> {
    assert_none_wrong(&rt, wrong_of_four(rt.alloc(), &CHECK_VERDICTS)?);
    Ok(())
}

const CHECK_FORM: [Case; 10] = [
    (b"", Err(BadLine(0))),
    (
        b"s 1 0\nd 1 0\nd 2 5\nd 3 2\nd 4 6\ns 1 0\n",
        Err(BadLine(6)),
    ),
    (
        b"s 1 0\nd 1 0\nd 2 281474976710656\nd 3 2\nd 4 6\n",
        Err(BadLine(3)),
    ),
    (
        b"s 1 0\nd 1 0\nd 2 5\nd 3 2\nw 3 1 1\nd 4 6\n",
        Err(NotAttained(5)),
    ),
    // The number of arcs is wrong.
    (
        b"s 1 0\nd 1 0\nd 2 5\nd 3 2\nw 3 2 2\nd 4 6\n",
        Err(BadLine(5)),
    ),
    // A walk of another node, a walk after `inf`, and two walks.
    (
        b"s 1 0\nd 1 0\nd 2 5\nd 3 2\nw 2 1 2\nd 4 6\n",
        Err(BadLine(5)),
    ),
    (
        b"s 1 0\nd 1 0\nd 2 5\nd 3 2\nd 4 inf\nw 4 0\n",
        Err(BadLine(6)),
    ),
    (
        b"s 1 0\nd 1 0\nw 1 0\nw 1 0\nd 2 5\nd 3 2\nd 4 6\n",
        Err(BadLine(4)),
    ),
    // Form comes before all other faults.
    (b"s 1 0\nd 1 9\nd 2 9\nd 3 9\nd 4 9 9\n", Err(BadLine(5))),
    (b"s 1 0\nd 1 0\nd 2 5\nd 3 2\n", Err(BadLine(0))),
];

#[test]
fn check_form(rt: HostRuntime) -> Result<(), Fail> {
    assert_none_wrong(&rt, wrong_of_four(rt.alloc(), &CHECK_FORM)?);
    Ok(())
}

const CHECK_CANONICAL: [Case; 3] = [
    (
        b"s 1 1\nd 1 1\nd 2 3\nd 3 2\nd 4 15\nw 4 2 1 4\n",
        Err(NotCanonical(6)),
    ),
    (b"s 1 1\nd 1 1\nd 2 3\nd 3 2\nd 4 15\nw 4 3 2 3 4\n", Ok(())),
    (b"s 1 1\nd 1 1\nd 2 3\nd 3 2\nd 4 15\n", Ok(())),
];

#[test]
fn check_canonical(rt: HostRuntime) -> Result<(), Fail> {
    let alloc = rt.alloc();
    let wrong = wrong_verdict(alloc, 4, &TWO_WAYS, &FROM_FIRST_AT_ONE, &CHECK_CANONICAL)?;
    assert_none_wrong(&rt, wrong);
    Ok(())
}

const ODD_REPORTS: [Case; 4] = [
    // White space, comments, carriage returns, very many leading zeros, and no last line feed.
    (
        b"c\r\n\r\n\ts  00000000000000000000000000000000000000000000000000000000000001 0 \r\n c w\nd 1 0\nw\t1 00000000000000000000000000000000\nd 02 5\n\n\nw 2 2 0002 3\r\nd 3\t2\ncw 3 1 2\n  d 4 6\r",
        Ok(()),
    ),
    // Arc numbers of forty digits, and lines counted with comments.
    (
        b"c\n\ns 1 0\nd 1 0\nw 1 0\nd 2 5\nd 3 2\nw 3 1 9999999999999999999999999999999999999999\nd 4 6\n",
        Err(NotAttained(8)),
    ),
    (
        b"c\ns 1 0\nc\nd 1 0\nd 2 5\nd 3 2\nw 3 1 0000000000000000000000000000000000000002\nd 4 6\n",
        Ok(()),
    ),
    (
        b"c\ns 1 0\nc\nd 1 0\nd 2 5\nd 3 2\nw 3 1 -2\nd 4 6\n",
        Err(BadLine(7)),
    ),
];

#[test]
fn odd_reports(rt: HostRuntime) -> Result<(), Fail> {
    assert_none_wrong(&rt, wrong_of_four(rt.alloc(), &ODD_REPORTS)?);
    Ok(())
}

/// The checker's verdict on a report with this `w` line of node 4, its line 6: `2 3 4` is right, `1 4`
/// attains the time.
fn of_walk(alloc: Global, line: &[u8]) -> Result<Said, AllocError> {
    let mut report = b"s 1 1\nd 1 1\nd 2 3\nd 3 2\nd 4 15\n".to_vec(alloc)?;
    report.extend_from_slice(line)?;
    report.push(b'\n')?;
    verdict(alloc, 4, &TWO_WAYS, &FROM_FIRST_AT_ONE, &report)
}

/// The first of the lines with another verdict.
fn wrong_line(alloc: Global, cases: &[Case]) -> Result<Option<usize>, AllocError> {
    for (place, (line, wanted)) in cases.iter().enumerate() {
        if of_walk(alloc, line)? != Some(*wanted) {
            return Ok(Some(place));
        }
    }
    Ok(None)
}

/// Walks that are oddly written, and the verdicts.
const ODD_WALKS: [Case; 36] = [
    // The canonical walk, oddly written.
    (b"w 4 3 2 3 4", Ok(())),
    (b"w\t4\t3\t2\t3\t4\t", Ok(())),
    (b"  w  4 3   2 \t 3  4  ", Ok(())),
    (b"w 04 003 02 0003 4", Ok(())),
    (b"w 4 3 2 000000000000000000000000000003 4", Ok(())),
    (b"w 4 3 2 3 4\r", Ok(())),
    // Another walk that attains the time.
    (b"w 4 2 1 4", Err(NotCanonical(6))),
    (b"w\t4\t2\t1\t4\t", Err(NotCanonical(6))),
    (b"  w  4 2   1 \t 4  ", Err(NotCanonical(6))),
    (b"w 04 002 01 0004", Err(NotCanonical(6))),
    (
        b"w 4 2 1 000000000000000000000000000004",
        Err(NotCanonical(6)),
    ),
    (b"w 4 2 1 4\r", Err(NotCanonical(6))),
    // Numbers of 30 digits and of more than 32 bits, one of them 2^32 + 4, are no arcs.
    (
        b"w 4 3 2 3 400000000000000000000000000000",
        Err(NotAttained(6)),
    ),
    (
        b"w 4 2 1 400000000000000000000000000000",
        Err(NotAttained(6)),
    ),
    (b"w 4 3 2 3 4294967300", Err(NotAttained(6))),
    (b"w 4 2 1 4294967300", Err(NotAttained(6))),
    (b"w 4 3 2 3 5", Err(NotAttained(6))),
    (b"w 4 3 0 3 4", Err(NotAttained(6))),
    (b"w 4 1 4", Err(NotAttained(6))),
    (b"w 4 4 2 3 4 4", Err(NotAttained(6))),
    (b"w 4 0", Err(NotAttained(6))),
    (b"w 4 0 \t ", Err(NotAttained(6))),
    // A letter, a sign, a carriage return in the middle or twice, and another count.
    (b"w 4 3 2 3 4a", Err(BadLine(6))),
    (b"w 4 2 1 4a", Err(BadLine(6))),
    (b"w 4 3 2 x 4", Err(BadLine(6))),
    (b"w 4 2 x 4", Err(BadLine(6))),
    (b"w 4 3 2 -3 4", Err(BadLine(6))),
    (b"w 4 2 -1 4", Err(BadLine(6))),
    (b"w 4 3 2 +3 4", Err(BadLine(6))),
    (b"w 4 3 2\r3 4", Err(BadLine(6))),
    (b"w 4 3 2 3 4\r\r", Err(BadLine(6))),
    (b"w 4 2 1 4\r\r", Err(BadLine(6))),
    (b"w 4 2 2 3 4", Err(BadLine(6))),
    (b"w 4 4 2 3 4", Err(BadLine(6))),
    (b"w 4 3 1 4", Err(BadLine(6))),
    (b"w 4 -3 2 3 4", Err(BadLine(6))),
];

#[test]
fn odd_walks(rt: HostRuntime) -> Result<(), Fail> {
    assert_none_wrong(&rt, wrong_line(rt.alloc(), &ODD_WALKS)?);
    Ok(())
}

const EMPTY_WALKS: [Case; 5] = [
    (b"s 1 0\nd 1 0\nw 1 0 \t \nd 2 3\n", Ok(())),
    (b"s 1 0\nd 1 0\nw 1 00\t\r\nd 2 3\n", Ok(())),
    (b"s 1 0\nd 1 0\nw 1 0 0\nd 2 3\n", Err(BadLine(3))),
    (b"s 1 0\nd 1 0\nw 1 1 0\nd 2 3\n", Err(NotAttained(3))),
    (b"s 1 0\nd 1 0\nw 1 0\nd 2 3\nw 2 0 \n", Err(NotAttained(5))),
];

#[test]
fn empty_walks(rt: HostRuntime) -> Result<(), Fail> {
    let wrong = wrong_verdict(rt.alloc(), 2, &ONE_ARC, &FROM_FIRST, &EMPTY_WALKS)?;
    assert_none_wrong(&rt, wrong);
    Ok(())
}

/// A line with this many copies of a byte before its end.
fn padded(
    alloc: Global,
    front: &[u8],
    byte: u8,
    count: usize,
    end: &[u8],
) -> Result<Vec<u8>, AllocError> {
    let copies = Vec::from_elem(alloc, byte, count)?;
    let mut line = front.to_vec(alloc)?;
    line.extend_from_slice(&copies)?;
    line.extend_from_slice(end)?;
    Ok(line)
}

/// The start of a line, a byte that is repeated, the end, and the verdict on the line.
type Long = (&'static [u8], u8, &'static [u8], Result<(), CheckFault>);

const LONG: [Long; 6] = [
    (b"w 4 3 2 ", b' ', b"003 4", Ok(())),
    (b"w 4 3 2 ", b'0', b"3 4", Ok(())),
    (b"w 4 2 1 ", b'0', b"4", Err(NotCanonical(6))),
    (b"w 4 3 2 x", b' ', b"3 4", Err(BadLine(6))),
    (b"w 4 3 2 ", b' ', b"3 4x", Err(BadLine(6))),
    (b"w 4 4 2 ", b' ', b"3 4", Err(BadLine(6))),
];

/// The checker's verdict on a long line.
fn of_long(alloc: Global, long: &Long, count: usize) -> Result<Said, AllocError> {
    let (front, byte, end, _) = long;
    let line = padded(alloc, front, *byte, count, end)?;
    of_walk(alloc, &line)
}

/// The first of the long lines, with this many copies of their bytes, that has another verdict.
fn wrong_long(alloc: Global, count: usize) -> Result<Option<usize>, AllocError> {
    for (place, long) in LONG.iter().enumerate() {
        if of_long(alloc, long, count)? != Some(long.3) {
            return Ok(Some(place));
        }
    }
    Ok(None)
}

#[test]
fn long_walk_lines(rt: HostRuntime) -> Result<(), Fail> {
    // Numbers and blanks across the ends of the pieces that are counted together.
    for count in 225..250 {
        assert_none_wrong(&rt, wrong_long(rt.alloc(), count)?);
    }
    Ok(())
}

/// Joint: node 2 at 4 by its second departure is improved by the arc, which arrives at 3.
const JOINT: [Case; 5] = [
    (b"s 1 0\ns 2 5\ns 2 4\nd 1 0\nd 2 3\nw 2 1 1\n", Ok(())),
    (
        b"s 1 0\ns 2 5\ns 2 4\nd 1 0\nd 2 4\nw 2 0\n",
        Err(NotLeast(5)),
    ),
    (
        b"s 1 0\ns 2 5\ns 2 4\nd 1 0\nd 2 5\nw 2 0\n",
        Err(NotLeast(5)),
    ),
    // A departure of another node, or of no source, is not one of this node.
    (
        b"s 1 0\ns 2 5\ns 2 4\nd 1 0\nw 1 1 1\nd 2 3\n",
        Err(NotAttained(5)),
    ),
    (
        b"s 1 0\ns 2 5\ns 2 4\nd 1 0\nd 2 3\nw 2 0\n",
        Err(NotAttained(6)),
    ),
];

/// Problem by problem: the first problem with a fault decides, after the form of all.
const BOTH: [Case; 4] = [
    (b"s 1 0\nd 1 0\nd 2 3\ns 2 5\nd 1 inf\nd 2 5\n", Ok(())),
    (
        b"s 1 0\nd 1 0\nd 2 4\ns 2 5\nd 1 inf\nd 2 6\n",
        Err(NotAttained(3)),
    ),
    (
        b"s 1 0\nd 1 0\nd 2 3\ns 2 5\nd 1 inf\nd 2 inf\n",
        Err(NotLeast(6)),
    ),
    (b"s 1 0\nd 1 0\nd 2 4\ns 2 5\nd 1 inf\n", Err(BadLine(0))),
];

/// No problem has the empty report.
const NO_PROBLEM: [Case; 2] = [(b"c\n", Ok(())), (b"d 1 inf\n", Err(BadLine(1)))];

/// No source reaches nothing.
const NO_SOURCE: [Case; 1] = [(b"d 1 inf\nd 2 inf\n", Ok(()))];

/// Problems, and their reports.
const SEVERAL: [(&[Sources<'static>], &[Case]); 4] = [
    (&[&[(1, 0), (2, 5), (2, 4)]], &JOINT),
    (&[&[(1, 0)], &[(2, 5)]], &BOTH),
    (&[], &NO_PROBLEM),
    (&[&[]], &NO_SOURCE),
];

#[test]
fn several_sources(rt: HostRuntime) -> Result<(), Fail> {
    for (problems, cases) in &SEVERAL {
        assert_none_wrong(
            &rt,
            wrong_verdict(rt.alloc(), 2, &ONE_ARC, problems, cases)?,
        );
    }
    Ok(())
}

/// A cycle of time 0.
const WITH_CYCLE: [Row; 4] = [(1, 2, 4, 0), (2, 3, 0, 0), (3, 2, 0, 0), (1, 3, 4, 0)];

// A cycle of time 0 gives no level; a walk that is another canonical one; a time that is improved.
const FAULTS_IN_THEIR_ORDER: [Case; 7] = [
    (b"s 1 0\nd 1 0\nd 2 4\nw 2 1 1\nd 3 4\nw 3 1 4\n", Ok(())),
    // A later line that is not attained comes before a walk that is not canonical.
    (
        b"s 1 0\nd 1 0\nd 2 4\nw 2 3 1 2 3\nd 3 4\nw 3 1 1\n",
        Err(NotAttained(6)),
    ),
    // A right walk that is written oddly, and another one after it.
    (
        b"s 1 0\nd 1 0\nd 2 4\nw 2 1 01\nd 3 4\nw 3 2 1 2\n",
        Err(NotCanonical(6)),
    ),
    (b"s 1 0\nd 1 0\nd 2 3\nd 3 3\n", Err(NotAttained(3))),
    (
        b"s 1 0\nd 1 0\nd 2 4\nw 2 3 1 2 3\nd 3 4\nw 3 2 1 2\n",
        Err(NotCanonical(4)),
    ),
    // Both walks attain their times, and the last time is improved: the walk comes first.
    (
        b"s 1 0\nd 1 0\nd 2 4\nw 2 3 1 2 3\nd 3 inf\n",
        Err(NotCanonical(4)),
    ),
    (b"s 1 0\nd 1 0\nd 2 4\nw 2 1 1\nd 3 inf\n", Err(NotLeast(5))),
];

#[test]
fn faults_in_their_order(rt: HostRuntime) -> Result<(), Fail> {
    let alloc = rt.alloc();
    let wrong = wrong_verdict(alloc, 3, &WITH_CYCLE, &FROM_FIRST, &FAULTS_IN_THEIR_ORDER)?;
    assert_none_wrong(&rt, wrong);
    Ok(())
}

/// A report in which each byte is changed to each of these.
const CHANGED: &[u8] = b"s 1 0\nd 1 0\nd 2 5\nw 2 2 2 3\nd 3 2\nd 4 6\n";

const BYTES: &[u8] = b"0123456789 sdwcinf\t\r\n-";

/// The verdicts of a slow checker that was written separately (bench/check/slow_check.py): for each place and
/// each byte a letter and a line.
const VERDICTS: [&[u8]; 40] = [
    b"b1b1b1b1b1b1b1b1b1b1b1k0b1b1b2b1b1b1b1b1b2b1",
    b"b1b1b1b1b1b1b1b1b1b1k0b1b1b1b1b1b1b1k0b1b1b1",
    b"b1k0b1b1b1b1b1b1b1b1b1b1b1b1b1b1b1b1b1b1b1b1",
    b"b1b1b1b1b1b1b1b1b1b1k0b1b1b1b1b1b1b1k0b1b1b1",
    b"k0b1b1b1b1b1b1b1b1b1b1b1b1b1b1b1b1b1b1b1b1b1",
    b"b1b1b1b1b1b1b1b1b1b1b1b1b1b1b1b1b1b1b1b1k0b1",
    b"b2b2b2b2b2b2b2b2b2b2b2b2k0b2b3b2b2b2b2b2b3b2",
    b"b2b2b2b2b2b2b2b2b2b2k0b2b2b2b2b2b2b2k0b2b2b2",
    b"b2k0b2b2b2b2b2b2b2b2b2b2b2b2b2b2b2b2b2b2b2b2",
    b"b2b2b2b2b2b2b2b2b2b2k0b2b2b2b2b2b2b2k0b2b2b2",
    b"k0a2a2a2a2a2a2a2a2a2b2b2b2b2b2b2b2b2b2b2b2b2",
    b"b2b2b2b2b2b2b2b2b2b2b2b2b2b2b2b2b2b2b2b2k0b2",
    b"b3b3b3b3b3b3b3b3b3b3b3b3k0b3b4b3b3b3b3b3b4b3",
    b"b3b3b3b3b3b3b3b3b3b3k0b3b3b3b3b3b3b3k0b3b3b3",
    b"b3b3k0b3b3b3b3b3b3b3b3b3b3b3b3b3b3b3b3b3b3b3",
    b"b3b3b3b3b3b3b3b3b3b3k0b3b3b3b3b3b3b3k0b3b3b3",
    b"a3a3a3a3a3k0a3a4a3a3b3b3b3b3b3b3b3b3b3b3b3b3",
    b"b3b3b3b3b3b3b3b3b3b3b3b3b3b3b3b3b3b3b3b3k0b3",
    b"b4b4b4b4b4b4b4b4b4b4b4b4b4k0k0b4b4b4b4b4b5b4",
    b"b4b4b4b4b4b4b4b4b4b4k0b4b4b4b4b4b4b4k0b4b4b4",
    b"b4b4k0b4b4b4b4b4b4b4b4b4b4b4b4b4b4b4b4b4b4b4",
    b"b4b4b4b4b4b4b4b4b4b4k0b4b4b4b4b4b4b4k0b4b4b4",
    b"b4b4k0b4b4b4b4b4b4b4b4b4b4b4b4b4b4b4b4b4b4b4",
    b"b4b4b4b4b4b4b4b4b4b4k0b4b4b4b4b4b4b4k0b4b4b4",
    b"a4a4k0a4a4a4a4a4a4a4b4b4b4b4b4b4b4b4b4b4b4b4",
    b"b4b4b4b4b4b4b4b4b4b4k0b4b4b4b4b4b4b4k0b4b4b4",
    b"a4a4a4k0a4a4a4a4a4a4b4b4b4b4b4b4b4b4b4b4b4b4",
    b"b4b4b4b4b4b4b4b4b4b4b4b4b4b4b4b4b4b4b4b4k0b4",
    b"b5b5b5b5b5b5b5b5b5b5b5b5k0b5b6b5b5b5b5b5b6b5",
    b"b5b5b5b5b5b5b5b5b5b5k0b5b5b5b5b5b5b5k0b5b5b5",
    b"b5b5b5k0b5b5b5b5b5b5b5b5b5b5b5b5b5b5b5b5b5b5",
    b"b5b5b5b5b5b5b5b5b5b5k0b5b5b5b5b5b5b5k0b5b5b5",
    b"a3a3k0a3a3a3a3a3a3a3b5b5b5b5b5b5b5b5b5b5b5b5",
    b"b5b5b5b5b5b5b5b5b5b5b5b5b5b5b5b5b5b5b5b5k0b5",
    b"b6b6b6b6b6b6b6b6b6b6b6b6k0b6b0b6b6b6b6b6b7b6",
    b"b6b6b6b6b6b6b6b6b6b6k0b6b6b6b6b6b6b6k0b6b6b6",
    b"b6b6b6b6k0b6b6b6b6b6b6b6b6b6b6b6b6b6b6b6b6b6",
    b"b6b6b6b6b6b6b6b6b6b6k0b6b6b6b6b6b6b6k0b6b6b6",
    b"a6a6a6a6a6a6k0a6a6a6b6b6b6b6b6b6b6b6b6b6b6b6",
    b"a6a6a6a6a6a6a6a6a6a6k0b6b6b6b6b6b6b6k0k0k0b6",
];

/// A verdict as a letter and a line.
fn coded(said: Said) -> (u8, u64) {
    match said {
        None => (b'-', 0),
        Some(Ok(())) => (b'k', 0),
        Some(Err(BadLine(line))) => (b'b', line),
        Some(Err(NotAttained(line))) => (b'a', line),
        Some(Err(NotLeast(line))) => (b'l', line),
        Some(Err(NotCanonical(line))) => (b'c', line),
        Some(Err(OutOfMemory)) => (b'm', 0),
    }
}

/// The checker's verdict on the report with one byte changed.
fn of_changed(alloc: Global, place: usize, byte: u8) -> Result<Said, AllocError> {
    let mut report = CHANGED.to_vec(alloc)?;
    if place < report.len() {
        report[place] = byte;
    }
    of_four(alloc, &report)
}

/// Whether the checker's verdicts for each byte at this place are the row's.
fn is_row_said(alloc: Global, place: usize, row: &[u8]) -> Result<bool, AllocError> {
    let mut wanted = row.iter();
    for byte in BYTES {
        let said = coded(of_changed(alloc, place, *byte)?);
        let letter = wanted.next().copied();
        let digit = wanted.next().copied().unwrap_or(0);
        if letter != Some(said.0) || said.1 != u64::from(digit.saturating_sub(b'0')) {
            return Ok(false);
        }
    }
    Ok(true)
}

/// The first place at which the checker's verdicts are not the row's.
fn wrong_row(alloc: Global) -> Result<Option<usize>, AllocError> {
    for (place, row) in VERDICTS.iter().enumerate() {
        if !is_row_said(alloc, place, row)? {
            return Ok(Some(place));
        }
    }
    Ok(None)
}

#[test]
fn each_change_of_one_byte(rt: HostRuntime) -> Result<(), Fail> {
    assert_that(
        &rt,
        "the report is right",
        of_four(rt.alloc(), CHANGED)? == Some(Ok(())),
    );
    assert_none_wrong(&rt, wrong_row(rt.alloc())?);
    Ok(())
}

/// Whether queries of four nodes can be checked.
fn can_check(alloc: Global, queries: &[Query]) -> Result<Option<bool>, AllocError> {
    match network_of(alloc, 4, &FOUR_NODES)? {
        Some(network) => Ok(Some(is_checkable(&network, 0, queries))),
        None => Ok(None),
    }
}

/// Whether a query of all nodes from this node can be.
fn can_check_from(alloc: Global, node: u32) -> Result<Option<bool>, AllocError> {
    match queries_of(alloc, &[&[(node, 0)]])? {
        Some(queries) => can_check(alloc, &queries),
        None => Ok(None),
    }
}

/// Whether a query of a pair can be.
fn can_check_pair(alloc: Global) -> Result<Option<bool>, AllocError> {
    let source = Source {
        node: 1,
        departure: 0,
    };
    let mut queries = Vec::new(alloc);
    queries.push(Query::pair(source, 2))?;
    can_check(alloc, &queries)
}

#[test]
fn only_queries_of_all_nodes(rt: HostRuntime) -> Result<(), Fail> {
    assert_that(
        &rt,
        "of a node",
        can_check_from(rt.alloc(), 1)? == Some(true),
    );
    assert_that(
        &rt,
        "not of a fifth",
        can_check_from(rt.alloc(), 5)? == Some(false),
    );
    assert_that(
        &rt,
        "not of a pair",
        can_check_pair(rt.alloc())? == Some(false),
    );
    Ok(())
}

/// Whether the checker accepts the odd walk, or is refused memory and then accepts it.
fn is_odd_right(alloc: Global, network: &Network, queries: &[Query]) -> bool {
    let times = Timetables::new(Vec::new(alloc));
    match said_of(alloc, network, &times, queries, ODD_WALK) {
        Some(Ok(())) => true,
        Some(Err(OutOfMemory)) => {
            said_of(alloc, network, &times, queries, ODD_WALK) == Some(Ok(()))
        }
        _ => false,
    }
}

/// The same for a problem; true if memory was refused before.
fn is_odd_right_on(alloc: Global, network: &Network) -> bool {
    match queries_of(alloc, &FROM_FIRST) {
        Ok(Some(queries)) => is_odd_right(alloc, network, &queries),
        Ok(None) => false,
        Err(_) => true,
    }
}

/// The same on four nodes.
fn is_odd_right_on_four(alloc: Global) -> bool {
    match network_of(alloc, 4, &FOUR_NODES) {
        Ok(Some(network)) => is_odd_right_on(alloc, &network),
        Ok(None) => false,
        Err(_) => true,
    }
}

#[test]
fn memory_refused(rt: HostRuntime) {
    assert_that(
        &rt,
        "right, or refused memory and then right",
        is_odd_right_on_four(rt.alloc()),
    );
}

/// Whether a fault has this text.
fn is_told(alloc: Global, fault: CheckFault, text: &str) -> Result<bool, AllocError> {
    Ok(format!(in alloc; "{fault}")?.as_str() == text)
}

/// Whether a text ends with the number and the name of a fault.
fn is_named(alloc: Global, fault: CheckFault, text: &str) -> Result<bool, AllocError> {
    let (number, name) = (fault.number(), fault.name());
    let end = format!(in alloc; "({number} {name})")?;
    Ok(text.ends_with(end.as_str()))
}

/// Faults and their texts.
const TOLD: [(CheckFault, &str); 5] = [
    (BadLine(3), "line 3 is not what its place asks (1 BadLine)"),
    (NotAttained(4), "line 4 is not attained (2 NotAttained)"),
    (NotLeast(5), "line 5 is not the least arrival (3 NotLeast)"),
    (OutOfMemory, "there is not enough memory (4 OutOfMemory)"),
    (
        NotCanonical(6),
        "line 6 is not the canonical walk (5 NotCanonical)",
    ),
];

/// The first of the faults with another text.
fn wrong_told(alloc: Global) -> Result<Option<usize>, AllocError> {
    for (place, (fault, text)) in TOLD.iter().enumerate() {
        if !is_told(alloc, *fault, text)? || !is_named(alloc, *fault, text)? {
            return Ok(Some(place));
        }
    }
    Ok(None)
}

#[test]
fn messages(rt: HostRuntime) -> Result<(), Fail> {
    assert_none_wrong(&rt, wrong_told(rt.alloc())?);
    assert_that(&rt, "the line of a fault", NotLeast(5).line() == Some(5));
    assert_that(&rt, "no line of another", OutOfMemory.line() == None);
    Ok(())
}
