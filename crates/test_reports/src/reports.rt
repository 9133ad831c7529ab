ghost use Rattle.std.specs.Prelude.{◌≡◌, ◌<◌, ◌≤◌};

use crate::asserts::{assert_none_wrong, assert_that};
use ea_base::{Direction, RawGraph};
use ea_bytes::{ByteOut, Device, StdOut};
use ea_input::read_gr;
use ea_paths::{Answer, solve_alone};
use ea_report::*;
use ea_road::{Network, Query, Source, arcs_of, is_problem};
use ea_travel_times::Timetables;
use std::alloc::{AllocError, Global};
use std::io::{self, Error, ErrorKind, Write};
use std::test::Fail;
use test_support::networks::query_of;

const GRAPH: &[u8] = b"p sp 4 5\na 1 2 7\na 1 3 2\na 3 2 3\na 2 4 1\na 3 4 9\n";

const REPORT: &[u8] = b"s 1 0\nd 1 0\nd 2 5\nd 3 2\nd 4 6\n";

const WITH_WALKS: &[u8] =
    b"s 1 0\nd 1 0\nw 1 0\nd 2 5\nw 2 2 2 3\nd 3 2\nw 3 1 2\nd 4 6\nw 4 3 2 3 4\n";

/// The network of a graph that was read; none if it makes none.
fn network_with(alloc: Global, graph: &RawGraph) -> Option<Network> {
    let Ok(arcs) = arcs_of(alloc, graph, None) else {
        return None;
    };
    if !Network::fits(graph.nodes, &arcs) {
        return None;
    }
    Network::new(alloc, graph.nodes, arcs).ok()
}

/// The network of a graph; none if it makes none.
fn network_of(alloc: Global, text: &[u8]) -> Option<Network> {
    match read_gr(alloc, text) {
        Ok(graph) => network_with(alloc, &graph),
        Err(_) => None,
    }
}

/// The result of sending the report of a network with plain arcs; none if there is no answer.
fn report_of<W: ByteOut>(
    alloc: Global,
    network: &Network,
    query: &Query,
    walks: bool,
    out: &mut W,
) -> Option<Result<u128, WriteFault>> {
    let times = Timetables::new(Vec::new(alloc));
    if !is_problem(network, times.classes(), query) {
        return None;
    }
    let options = ReportOptions {
        style: Style {
            walks,
            direction: Direction::Forward,
        },
        nodes: None,
    };
    match solve_alone(alloc, network, &times, query) {
        Ok(answer) => Some(write_problem(alloc, network, query, &answer, options, out)),
        Err(_) => None,
    }
}

/// The result of sending the report of a graph; none if there is no answer.
fn report<W: ByteOut>(
    alloc: Global,
    text: &[u8],
    query: &Query,
    walks: bool,
    out: &mut W,
) -> Option<Result<u128, WriteFault>> {
    match network_of(alloc, text) {
        Some(network) => report_of(alloc, &network, query, walks, out),
        None => None,
    }
}

/// Whether the report of a graph is this text.
fn is_report(alloc: Global, text: &[u8], query: &Query, walks: bool, wanted: &[u8]) -> bool {
    let mut room = [0u8; 256];
    let mut out = StdOut::new(room.as_mut_slice());
    let written = report(alloc, text, query, walks, &mut out);
    written == Some(Ok(wanted.len() as u128)) && room.starts_with(wanted)
}

/// Sources, a graph, whether walks are asked, and the report.
type Case = (&'static [(u32, u64)], &'static [u8], bool, &'static [u8]);

const REPORTS: [Case; 7] = [
    // Four nodes.
    (&[(1, 0)], GRAPH, false, REPORT),
    (&[(1, 0)], GRAPH, true, WITH_WALKS),
    // No sources.
    (&[], GRAPH, true, b"d 1 inf\nd 2 inf\nd 3 inf\nd 4 inf\n"),
    // Joint sources with a gap: node 2, from which one departs at 5, is reached at 3.
    (
        &[(1, 0), (2, 5)],
        b"p sp 2 1\na 1 2 3\n",
        false,
        b"s 1 0\ns 2 5\nd 1 0\nd 2 3\n",
    ),
    // At the horizon.
    (
        &[(1, 281_474_976_710_655)],
        b"p sp 2 1\na 1 2 0\n",
        false,
        b"s 1 281474976710655\nd 1 281474976710655\nd 2 281474976710655\n",
    ),
    (
        &[(1, 281_474_976_710_655)],
        b"p sp 2 1\na 1 2 1\n",
        false,
        b"s 1 281474976710655\nd 1 281474976710655\nd 2 inf\n",
    ),
    // Two walks that arrive at once.
    (
        &[(1, 0)],
        b"p sp 3 3\na 1 2 0\na 2 3 0\na 1 3 0\n",
        true,
        b"s 1 0\nd 1 0\nw 1 0\nd 2 0\nw 2 1 1\nd 3 0\nw 3 1 3\n",
    ),
];

/// Whether the report of a graph from these sources is this text.
fn is_report_from(
    alloc: Global,
    sources: &[(u32, u64)],
    text: &[u8],
    walks: bool,
    wanted: &[u8],
) -> bool {
    match query_of(alloc, sources) {
        Ok(Some(query)) => is_report(alloc, text, &query, walks, wanted),
        _ => false,
    }
}

/// The first of the graphs that has another report.
fn wrong_report(alloc: Global) -> Option<usize> {
    for (place, (sources, text, walks, wanted)) in REPORTS.iter().enumerate() {
        if !is_report_from(alloc, sources, text, *walks, wanted) {
            return Some(place);
        }
    }
    None
}

#[test]
fn reports_of_graphs(rt: HostRuntime) {
    assert_none_wrong(&rt, wrong_report(rt.alloc()));
}

/// Adds the lines of a node with its walk, and returns whether it could.
fn add_node(text: &mut Vec<u8>, arcs: &mut ArcTexts<'_>, answer: &Answer, node: u32) -> bool
    requires { arcs.old.links ≡ answer.now.links }
    ensures { arcs.new.links ≡ arcs.old.links }
{
    if !answer.asks(node) {
        return false;
    }
    if !answer.has_walks() {
        return false;
    }
    let style = Style {
        walks: true,
        direction: Direction::Forward,
    };
    push_node(text, arcs, answer, node, style).is_ok()
}

/// Adds the lines of nodes with their walks, in this order, and returns whether it could.
fn add_nodes(text: &mut Vec<u8>, arcs: &mut ArcTexts<'_>, answer: &Answer, nodes: &[u32]) -> bool
    requires { arcs.old.links ≡ answer.now.links }
{
    for node in nodes {
        if !add_node(text, arcs, answer, *node) {
            return false;
        }
    }
    true
}

/// Whether the lines of nodes of an answer with their walks, in this order, are this text.
fn are_lines_by(alloc: Global, answer: &Answer, nodes: &[u32], wanted: &[u8]) -> bool {
    let mut arcs = ArcTexts::new(alloc, answer.links());
    let mut text = Vec::new(alloc);
    let added = add_nodes(&mut text, &mut arcs, answer, nodes);
    added && text.as_slice() == wanted
}

/// The same of the answer on a network with plain arcs.
fn are_lines_on(
    alloc: Global,
    network: &Network,
    query: &Query,
    nodes: &[u32],
    wanted: &[u8],
) -> bool {
    let times = Timetables::new(Vec::new(alloc));
    if !is_problem(network, times.classes(), query) {
        return false;
    }
    match solve_alone(alloc, network, &times, query) {
        Ok(answer) => are_lines_by(alloc, &answer, nodes, wanted),
        Err(_) => false,
    }
}

/// The same of a graph.
fn are_lines_of(alloc: Global, graph: &[u8], query: &Query, nodes: &[u32], wanted: &[u8]) -> bool {
    match network_of(alloc, graph) {
        Some(network) => are_lines_on(alloc, &network, query, nodes, wanted),
        None => false,
    }
}

/// The same of a graph and sources.
fn are_lines(
    alloc: Global,
    graph: &[u8],
    sources: &[(u32, u64)],
    nodes: &[u32],
    wanted: &[u8],
) -> bool {
    match query_of(alloc, sources) {
        Ok(Some(query)) => are_lines_of(alloc, graph, &query, nodes, wanted),
        _ => false,
    }
}

/// A graph, sources, nodes, and the lines of these nodes.
type Lines = (
    &'static [u8],
    &'static [(u32, u64)],
    &'static [u32],
    &'static [u8],
);

const LINES: [Lines; 2] = [
    // Walks that extend those of nodes before.
    (
        GRAPH,
        &[(1, 0)],
        &[2, 4, 3, 3, 4, 1, 2],
        b"d 2 5\nw 2 2 2 3\nd 4 6\nw 4 3 2 3 4\nd 3 2\nw 3 1 2\nd 3 2\nw 3 1 2\nd 4 6\nw 4 3 2 3 4\nd 1 0\nw 1 0\nd 2 5\nw 2 2 2 3\n",
    ),
    // Walks of two sources.
    (
        b"p sp 6 3\na 1 2 1\na 3 4 1\na 4 5 1\n",
        &[(1, 0), (3, 0)],
        &[2, 4, 6, 2, 5, 3, 1],
        b"d 2 1\nw 2 1 1\nd 4 1\nw 4 1 2\nd 6 inf\nd 2 1\nw 2 1 1\nd 5 2\nw 5 2 2 3\nd 3 0\nw 3 0\nd 1 0\nw 1 0\n",
    ),
];

/// The first of the graphs whose nodes have other lines.
fn wrong_lines(alloc: Global) -> Option<usize> {
    for (place, (graph, sources, nodes, wanted)) in LINES.iter().enumerate() {
        if !are_lines(alloc, graph, sources, nodes, wanted) {
            return Some(place);
        }
    }
    None
}

#[test]
fn walks_go_on(rt: HostRuntime) {
    assert_none_wrong(&rt, wrong_lines(rt.alloc()));
}

/// Whether the report of a pair of the four nodes, from node to node at 0, is this text.
fn is_pair(alloc: Global, node: u32, target: u32, walks: bool, wanted: &[u8]) -> bool
    requires { (0 < node) × (0 < target) }
{
    let source = Source { node, departure: 0 };
    let query = Query::pair(source, target);
    is_report(alloc, GRAPH, &query, walks, wanted)
}

#[test]
fn pair_queries(rt: HostRuntime) {
    let there = is_pair(rt.alloc(), 1, 4, false, b"q 1 4 0\nd 4 6\n");
    let back = is_pair(rt.alloc(), 4, 1, true, b"q 4 1 0\nd 1 inf\n");
    let stay = is_pair(rt.alloc(), 1, 1, true, b"q 1 1 0\nd 1 0\nw 1 0\n");
    assert_that(&rt, "from node 1 to node 4", there);
    assert_that(&rt, "from node 4 to node 1", back);
    assert_that(&rt, "from node 1 to itself", stay);
}

/// A fault of a device after this many bytes.
fn failed_after(written: u128) -> Result<u128, WriteFault> {
    Err(WriteFault {
        written,
        kind: WriteFaultKind::WriteFailed,
    })
}

/// The result of sending the report of the four nodes; none if there is no answer.
fn written<W: ByteOut>(alloc: Global, out: &mut W) -> Option<Result<u128, WriteFault>> {
    match query_of(alloc, &[(1, 0)]) {
        Ok(Some(query)) => report(alloc, GRAPH, &query, false, out),
        _ => None,
    }
}

/// Whether a writer with room for seven bytes fails after them, once, and has the first bytes of the report.
fn takes_seven(alloc: Global) -> (bool, bool) {
    let mut room = [0u8; 7];
    let mut out = StdOut::new(room.as_mut_slice());
    let written = written(alloc, &mut out);
    let failed = written == Some(failed_after(7)) && out.failures() == 1;
    (failed, room.as_slice() == b"s 1 0\nd".as_slice())
}

#[test]
fn writer_of_seven_bytes(rt: HostRuntime) {
    let (failed, front) = takes_seven(rt.alloc());
    assert_that(&rt, "fails once behind seven bytes", failed);
    assert_that(&rt, "has the front of the report", front);
}

/// Whether a device with room for this many bytes takes the first bytes of the report, and then fails.
fn takes_front(alloc: Global, count: usize) -> bool
    requires { count ≤ 30 }
{
    let mut room = [0u8; 30];
    let mut out = StdOut::new(&mut room[..count]);
    let written = written(alloc, &mut out);
    written == Some(failed_after(count as u128)) && REPORT.starts_with(&room[..count])
}

/// The first room that doesn't take the first bytes of the report.
fn wrong_front(alloc: Global) -> Option<usize> {
    for count in 0..30usize {
        if !takes_front(alloc, count) {
            return Some(count);
        }
    }
    None
}

#[test]
fn failing_devices(rt: HostRuntime) {
    assert_none_wrong(&rt, wrong_front(rt.alloc()));
}

/// A writer of std that takes one byte at a time, after this many interruptions.
#[derive(Drop)]
struct Slow {
    interruptions: u64,
    taken: u64,
}

impl Write for Slow {
    fn write(&mut self, buf: &[u8]) -> io::Result<usize> {
        if self.interruptions > 0 {
            self.interruptions -= 1;
            return Err(Error::from(ErrorKind::Interrupted));
        }
        self.taken = self.taken.saturating_add(1);
        Ok(buf.len().min(1))
    }

    fn flush(&mut self) -> io::Result<()> {
        Ok(())
    }
}

/// Whether sending the report to a writer with this many interruptions has this result, and they are counted.
fn is_interrupted(alloc: Global, interruptions: u64, wanted: Result<u128, WriteFault>) -> bool {
    let mut out = StdOut::new(Slow {
        interruptions,
        taken: 0,
    });
    let written = written(alloc, &mut out);
    written == Some(wanted) && out.interruptions() == interruptions
}

#[test]
fn interruptions(rt: HostRuntime) {
    assert_that(
        &rt,
        "a thousand are borne",
        is_interrupted(rt.alloc(), 1000, Ok(30)),
    );
    let one_more = is_interrupted(rt.alloc(), 1001, failed_after(0));
    assert_that(&rt, "one more isn't", one_more);
}

/// The result of sending these totals into room for them.
fn written_totals(room: &mut [u8]) -> Result<u128, WriteFault> {
    let totals = Totals {
        seeded: 1,
        pushed: 5,
        popped: 6,
        stale: 2,
        scanned: 4,
        returned: 0,
        drained: 0,
        finish: u128::MAX,
    };
    write_stats(&totals, &mut StdOut::new(room))
}

const TOTALS: &[u8] =
    b"c seeded 1\nc pushed 5\nc popped 6\nc stale 2\nc scanned 4\nc returned 0\nc drained 0\nc finish 340282366920938463463374607431768211455\n";

/// Whether they are sent whole into room for them.
fn are_written() -> bool {
    let mut room = [0u8; 256];
    let written = written_totals(room.as_mut_slice());
    written == Ok(TOTALS.len() as u128) && room.starts_with(TOTALS)
}

/// Whether their first bytes are sent into room for nine bytes.
fn are_cut() -> bool {
    let mut room = [0u8; 9];
    let written = written_totals(room.as_mut_slice());
    written == failed_after(9) && room.as_slice() == b"c seeded ".as_slice()
}

#[test]
fn stats(rt: HostRuntime) {
    assert_that(&rt, "whole", are_written());
    assert_that(&rt, "cut", are_cut());
}

/// Whether a fault has this text.
fn is_told(
    alloc: Global,
    written: u128,
    kind: WriteFaultKind,
    text: &str,
) -> Result<bool, AllocError> {
    let fault = WriteFault { written, kind };
    Ok(format!(in alloc; "{fault}")?.as_str() == text)
}

/// Faults, by the bytes written before and their kind, and their texts.
const TOLD: [(u128, WriteFaultKind, &str); 2] = [
    (
        7,
        WriteFaultKind::WriteFailed,
        "after 7 bytes the output could not be written (12 WriteFailed)",
    ),
    (
        0,
        WriteFaultKind::OutOfMemory,
        "after 0 bytes there is not enough memory (13 OutOfMemory)",
    ),
];

/// The first of the faults with another text.
fn wrong_told(alloc: Global) -> Result<Option<usize>, AllocError> {
    for (place, (written, kind, text)) in TOLD.iter().enumerate() {
        if !is_told(alloc, *written, *kind, text)? {
            return Ok(Some(place));
        }
    }
    Ok(None)
}

#[test]
fn messages(rt: HostRuntime) -> Result<(), Fail> {
    assert_none_wrong(&rt, wrong_told(rt.alloc())?);
    Ok(())
}

/// Whether a kind of fault has this text.
fn is_kind_told(alloc: Global, kind: WriteFaultKind, text: &str) -> Result<bool, AllocError> {
    Ok(format!(in alloc; "{kind}")?.as_str() == text)
}

/// Kinds of faults and their texts.
const KINDS: [(WriteFaultKind, &str); 2] = [
    (
        WriteFaultKind::WriteFailed,
        "the output could not be written (12 WriteFailed)",
    ),
    (
        WriteFaultKind::OutOfMemory,
        "there is not enough memory (13 OutOfMemory)",
    ),
];

/// The first of the kinds with another text.
fn wrong_kind(alloc: Global) -> Result<Option<usize>, AllocError> {
    for (place, (kind, text)) in KINDS.iter().enumerate() {
        if !is_kind_told(alloc, *kind, text)? {
            return Ok(Some(place));
        }
    }
    Ok(None)
}

#[test]
fn each_kind_has_its_text(rt: HostRuntime) -> Result<(), Fail> {
    assert_none_wrong(&rt, wrong_kind(rt.alloc())?);
    Ok(())
}
