use crate::asserts::{assert_none_wrong, ends_in, is_shown};
use ea_input::FaultKind::*;
use ea_input::*;
use std::alloc::Global;

const GRAPH: &[u8] = b"p sp 4 5\na 1 2 7\na 1 3 2\na 3 2 3\na 2 4 1\na 3 4 9\n";

/// The arcs of the graph.
const FIVE: [RawArc; 5] = [
    RawArc {
        tail: 1,
        head: 2,
        weight: 7,
    },
    RawArc {
        tail: 1,
        head: 3,
        weight: 2,
    },
    RawArc {
        tail: 3,
        head: 2,
        weight: 3,
    },
    RawArc {
        tail: 2,
        head: 4,
        weight: 1,
    },
    RawArc {
        tail: 3,
        head: 4,
        weight: 9,
    },
];

/// Whether a text is read as a graph of this many nodes with these arcs; the fault if it is not read.
fn reads_graph(
    alloc: Global,
    text: &[u8],
    nodes: u32,
    arcs: &[RawArc],
) -> Result<bool, InputFault> {
    let graph = read_gr(alloc, text)?;
    Ok(graph.nodes == nodes && graph.arcs.as_slice() == arcs)
}

/// Whether a text is read as the graph of four nodes.
fn reads_four_nodes(alloc: Global, text: &[u8]) -> Result<bool, InputFault> {
    reads_graph(alloc, text, 4, &FIVE)
}

#[test]
fn four_nodes(rt: HostRuntime) {
    assert!(rt; reads_four_nodes(rt.alloc(), GRAPH) == Ok(true));
}

#[test]
fn odd_white_space(rt: HostRuntime) {
    let text =
        b"c\r\n\r\np\tsp  4 05\r\nc x\r\na 1 2 7\r\n a 1 3 2 \r\na 3 2 3\r\na 2 4 01\r\na 3 4 9";
    assert!(rt; reads_four_nodes(rt.alloc(), text) == Ok(true));
}

const PARALLEL: [RawArc; 2] = [
    RawArc {
        tail: 1,
        head: 2,
        weight: 1,
    },
    RawArc {
        tail: 1,
        head: 2,
        weight: 50,
    },
];

#[test]
fn parallel_arcs(rt: HostRuntime) {
    let text = b"p sp 2 2\na 1 2 1\na 1 2 50\n";
    assert!(rt; reads_graph(rt.alloc(), text, 2, &PARALLEL) == Ok(true));
}

/// The files to read: a graph, sources and pairs of four nodes, times of two starts, timetables of one arc.
#[derive(Clone, Copy)]
enum File {
    Graph,
    Sources,
    Pairs,
    Times,
    Timetables,
}

/// The fault that a reader returns.
fn fault_of<T: Drop>(read: Result<T, InputFault>) -> Option<InputFault> {
    match read {
        Ok(_) => None,
        Err(fault) => Some(fault),
    }
}

/// The fault of a file's text.
fn file_fault(alloc: Global, file: File, text: &[u8]) -> Option<InputFault> {
    match file {
        File::Graph => fault_of(read_gr(alloc, text)),
        File::Sources => fault_of(read_ss(alloc, text, 4)),
        File::Pairs => fault_of(read_p2p(alloc, text, 4)),
        File::Times => fault_of(read_times(alloc, text, 2)),
        File::Timetables => fault_of(read_tp(alloc, text, 1)),
    }
}

/// A text, the line of its fault and the fault.
type Faulty = (&'static [u8], u64, FaultKind);

/// The index of the first text with another fault.
fn wrong_fault(alloc: Global, file: File, rows: &[Faulty]) -> Option<usize> {
    for (place, (text, line, kind)) in rows.iter().enumerate() {
        let (line, kind) = (*line, *kind);
        if file_fault(alloc, file, text) != Some(InputFault { line, kind }) {
            return Some(place);
        }
    }
    None
}

const GRAPH_FAULTS: [Faulty; 14] = [
    (b"", 0, NoProblemLine),
    (b"a 1 2 3", 1, NoProblemLine),
    (b"p sp 4 5\np sp 4 5", 2, SecondProblemLine),
    (b"p sp 4 5\nx 1", 2, UnknownLine),
    (b"p sp 4 5\na 1 2", 2, FieldCount),
    (b"p sp 4 5\na 1 2 -3", 2, BadNumber),
    (b"p sp 4 5\na 1 5 2", 2, OutOfRange),
    (b"p sp 0 0", 1, OutOfRange),
    (b"p sp 2 0\na 1 2 3", 2, TooManyLines),
    (
        b"p sp 4 5\na 1 2 7\na 1 3 2\na 3 2 3\na 2 4 1\n",
        0,
        TooFewLines,
    ),
    (b"p max 4 5", 1, BadKind),
    (b"p sp 4 268435456\na 1 2 7", 0, TooFewLines),
    (b"p sp 67108865 0", 1, OutOfRange),
    (b"p sp 99999999999999999999999 0", 1, OutOfRange),
];

#[test]
fn graph_faults(rt: HostRuntime) {
    assert_none_wrong(&rt, wrong_fault(rt.alloc(), File::Graph, &GRAPH_FAULTS));
}

/// The fault of the first `n` bytes of the graph, which are fewer than 48.
fn prefix_fault(n: usize) -> InputFault {
    if n == 0 {
        InputFault {
            line: 0,
            kind: NoProblemLine,
        }
    } else if n == 3 {
        InputFault {
            line: 1,
            kind: BadKind,
        }
    } else if n <= 7 {
        InputFault {
            line: 1,
            kind: FieldCount,
        }
    } else if n <= 9 || n % 8 == 0 || n % 8 == 1 {
        InputFault {
            line: 0,
            kind: TooFewLines,
        }
    } else {
        InputFault {
            line: (n as u64 - 10) / 8 + 2,
            kind: FieldCount,
        }
    }
}

/// The first length below 48 at which the graph's first bytes have another fault.
fn wrong_prefix(alloc: Global) -> Option<usize> {
    for n in 0..48usize {
        if file_fault(alloc, File::Graph, &GRAPH[..n]) != Some(prefix_fault(n)) {
            return Some(n);
        }
    }
    None
}

#[test]
fn every_prefix(rt: HostRuntime) {
    assert_none_wrong(&rt, wrong_prefix(rt.alloc()));
    assert!(rt; reads_four_nodes(rt.alloc(), &GRAPH[..48]) == Ok(true));
}

/// Whether a text is read as these sources; the fault if it is not read.
fn reads_sources(alloc: Global, text: &[u8], sources: &[u32]) -> Result<bool, InputFault> {
    Ok(read_ss(alloc, text, 4)?.as_slice() == sources)
}

#[test]
fn sources(rt: HostRuntime) {
    let text = b"c x\np aux sp ss 3\ns 2\n\ns\t04\r\ns 2";
    assert!(rt; reads_sources(rt.alloc(), text, &[2, 4, 2]) == Ok(true));
    assert!(rt; reads_sources(rt.alloc(), b"p aux sp ss 0", &[]) == Ok(true));
}

const SOURCE_FAULTS: [Faulty; 9] = [
    (b"p aux sp ss 1\ns 5", 2, OutOfRange),
    (b"p aux sp p2p 1", 1, BadKind),
    (b"p aux sp ss 1\ns 1\ns 2", 3, TooManyLines),
    (b"p aux sp", 1, FieldCount),
    (b"s 1", 1, NoProblemLine),
    (b"p aux sp ss 1\ns 0", 2, OutOfRange),
    (b"p aux sp ss 1\n", 0, TooFewLines),
    (b"p aux sp ss 1000001", 1, OutOfRange),
    (b"p aux sp ss 1 2", 1, FieldCount),
];

#[test]
fn source_faults(rt: HostRuntime) {
    assert_none_wrong(&rt, wrong_fault(rt.alloc(), File::Sources, &SOURCE_FAULTS));
}

const PAIR_FAULTS: [Faulty; 4] = [
    (b"p aux sp p2p 1\nq 1 5", 2, OutOfRange),
    (b"p aux sp p2p 1\nq 1", 2, FieldCount),
    (b"p aux sp ss 1", 1, BadKind),
    (b"p aux sp p2p 0\nq 1 2", 2, TooManyLines),
];

/// Whether a text is read as these pairs; the fault if it is not read.
fn reads_pairs(alloc: Global, text: &[u8], pairs: &[(u32, u32)]) -> Result<bool, InputFault> {
    Ok(read_p2p(alloc, text, 4)?.as_slice() == pairs)
}

#[test]
fn pair_form(rt: HostRuntime) {
    let text = b"p aux sp p2p 2\nq 1 4\nq 3 3\n";
    assert!(rt; reads_pairs(rt.alloc(), text, &[(1, 4), (3, 3)]) == Ok(true));
    assert_none_wrong(&rt, wrong_fault(rt.alloc(), File::Pairs, &PAIR_FAULTS));
}

const TIME_FAULTS: [Faulty; 9] = [
    (b"p aux sp at 1\nt 0", 1, OutOfRange),
    (b"p aux sp at 3\nt 0\nt 0\nt 0", 1, OutOfRange),
    (b"p aux sp at 2\nt 0", 0, TooFewLines),
    (b"p aux sp at 2\nt 0\nt 281474976710656", 3, OutOfRange),
    (b"p aux sp at 2\nt 1\nt 8:00", 3, BadNumber),
    (b"p aux sp at 2\nt 1 2", 2, FieldCount),
    (b"p aux sp ss 2\nt 1\nt 2", 1, BadKind),
    (b"p aux sp at 2\ns 1\nt 2", 2, UnknownLine),
    (b"p aux sp at 2\nt 1\nt 2\nt 3", 4, TooManyLines),
];

/// Whether a text is read as these times; the fault if it is not read.
fn reads_times(alloc: Global, text: &[u8], starts: u32, times: &[u64]) -> Result<bool, InputFault> {
    Ok(read_times(alloc, text, starts)?.as_slice() == times)
}

#[test]
fn own_departures(rt: HostRuntime) {
    let text = b"p aux sp at 2\nt 0\nt 7\n";
    assert!(rt; reads_times(rt.alloc(), text, 2, &[0, 7]) == Ok(true));
    let text = b"c x\np aux sp at 2\n\nt\t281474976710655\r\nt 007";
    assert!(rt; reads_times(rt.alloc(), text, 2, &[281_474_976_710_655, 7]) == Ok(true));
    assert!(rt; reads_times(rt.alloc(), b"p aux sp at 0", 0, &[]) == Ok(true));
    assert_none_wrong(&rt, wrong_fault(rt.alloc(), File::Times, &TIME_FAULTS));
}

/// Whether a text is read as timetables of these kinds, with the arcs that are assigned and the steps; the
/// fault if it is not read.
fn reads_table(
    alloc: Global,
    text: &[u8],
    arcs: u32,
    kinds: &[RawKind],
    assigned: &[(u32, u32)],
    steps: &[(u64, u64)],
) -> Result<bool, InputFault> {
    let table = read_tp(alloc, text, arcs)?;
    let lists = table.kinds.as_slice() == kinds && table.assigned.as_slice() == assigned;
    Ok(lists && table.steps.as_slice() == steps)
}

const FOUR_KINDS: [RawKind; 4] = [
    RawKind::Plain,
    RawKind::Every {
        period: 10,
        offset: 3,
    },
    RawKind::Closed {
        lo: 0,
        hi: 281_474_976_710_655,
    },
    RawKind::Rush {
        lo: 5,
        hi: 9,
        extra: 4_294_967_296,
    },
];

#[test]
fn profiles(rt: HostRuntime) {
    let text =
        b"p tp 4 3\nk 1 plain\nt 5 4\nk 2 every 10 3\nk 3 closed 0 281474976710655\nt 1 0\nk 4 rush 5 9 4294967296\nt 5 2\n";
    let assigned = [(5, 4), (1, 0), (5, 2)];
    assert!(rt; reads_table(rt.alloc(), text, 5, &FOUR_KINDS, &assigned, &[]) == Ok(true));
}

const PROFILE_FAULTS: [Faulty; 16] = [
    (b"p tp 1 1\nk 2 plain", 2, OutOfRange),
    (b"p tp 1 0\nk 1 every 0 0", 2, OutOfRange),
    (b"p tp 1 0\nk 1 fast", 2, BadKind),
    (b"p tp 1 0\nk 1 every 10", 2, FieldCount),
    (b"p tp 1 0\nk 1 closed 20 10", 2, OutOfRange),
    (b"p tp 0 1\nt 2 0", 2, OutOfRange),
    (b"p tp 0 0\nk 1 plain", 2, TooManyLines),
    (b"p tp 1 1\nt 1 1", 0, TooFewLines),
    (b"k 1 plain", 1, NoProblemLine),
    (b"p tp 1 0\nk 1", 2, FieldCount),
    (b"p tp 1 0\nk x slow", 2, BadKind),
    (b"p tp 1 0\nk 1 every 10 10", 2, OutOfRange),
    (b"p tp 1 0\nk 1 closed 5 5", 2, OutOfRange),
    (b"p tp 0 1\nt 1 1", 2, OutOfRange),
    (b"p tp 0 0\nt 1 0", 2, TooManyLines),
    (b"p tp 1 0", 0, TooFewLines),
];

#[test]
fn profile_faults(rt: HostRuntime) {
    assert_none_wrong(
        &rt,
        wrong_fault(rt.alloc(), File::Timetables, &PROFILE_FAULTS),
    );
}

const KINDS_WITH_STEPS: [RawKind; 3] = [
    RawKind::Speeds {
        period: 10,
        first: 0,
        count: 3,
    },
    RawKind::Plain,
    RawKind::Trips {
        period: 0,
        first: 3,
        count: 2,
    },
];

#[test]
fn steps(rt: HostRuntime) {
    let text =
        b"p tp 3 1\nk 1 speeds 10 3\nv 0 0\n\nc x\n v  1 07 \nv 2 0\nk 2 plain\nt 1 3\nk 3 trips 0 2\nv 2 9\nv 7 4";
    let steps = [(0, 0), (1, 7), (2, 0), (2, 9), (7, 4)];
    let kinds = &KINDS_WITH_STEPS;
    assert!(rt; reads_table(rt.alloc(), text, 1, kinds, &[(1, 3)], &steps) == Ok(true));
}

const WITH_STEPS: [&[u8]; 11] = [
    b"p tp 1 0\nk 1 speeds 10 3\nv 0 0\nv 1 7\nv 2 0",
    b"p tp 1 0\nk 1 trips 20 2\nv 2 9\nv 7 4",
    b"p tp 1 0\nk 1 trips 10 2\nv 2 0\nv 7 5",
    b"p tp 1 0\nk 1 trips 0 2\nv 2 0\nv 7 6",
    b"p tp 1 0\nk 1 trips 10 1\nv 9 4294967296",
    b"p tp 1 0\nk 1 speeds 10 2\n\nc x\nv 0 1\n\nv 1 0",
    b"p tp 1 0\nk 1 speeds 10 2\nv 0 1\nv 9 0",
    b"p tp 1 0\nk 1 speeds 10 1\nv 0 1000000",
    b"p tp 1 0\nk 1 trips 0 1\nv 281474976710655 0",
    b"p tp 1 0\nk 1 speeds 4294967296 2\nv 0 1\nv 4294967295 0",
    b"p tp 1 1\nk 1 trips 4294967296 1\nv 4294967295 0\nt 1 1",
];

/// How many timetables a text has; none if it isn't read.
fn timetables(alloc: Global, text: &[u8]) -> Option<usize> {
    match read_tp(alloc, text, 1) {
        Ok(table) => Some(table.kinds.len()),
        Err(_) => None,
    }
}

/// The index of the first of the texts with steps that is not read as one timetable.
fn first_unread(alloc: Global) -> Option<usize> {
    for (place, text) in WITH_STEPS.iter().enumerate() {
        if timetables(alloc, text) != Some(1) {
            return Some(place);
        }
    }
    None
}

#[test]
fn steps_that_are_read(rt: HostRuntime) {
    assert_none_wrong(&rt, first_unread(rt.alloc()));
}

const STEP_FAULTS: [Faulty; 37] = [
    // all-but-the-last-zero
    (b"p tp 1 0\nk 1 speeds 10 2\nv 0 0\nv 5 0", 4, OutOfRange),
    (b"p tp 1 0\nk 1 speeds 10 1\nv 0 0", 3, OutOfRange),
    // no-overtaking
    (b"p tp 1 0\nk 1 trips 20 2\nv 2 9\nv 7 3", 4, OutOfRange),
    (b"p tp 1 0\nk 1 trips 10 2\nv 2 0\nv 7 6", 4, OutOfRange),
    (
        b"p tp 1 0\nk 1 trips 10 3\nv 0 0\nv 1 20\nv 2 19",
        5,
        OutOfRange,
    ),
    (
        b"p tp 1 0\nk 1 trips 10 3\nv 0 0\nv 1 20\nv 2 8",
        5,
        OutOfRange,
    ),
    // too-few-steps
    (
        b"p tp 2 0\nk 1 speeds 10 2\nv 0 1000\nk 2 plain",
        4,
        TooFewLines,
    ),
    (b"p tp 1 1\nk 1 speeds 10 2\nv 0 1000\nt x", 4, TooFewLines),
    (
        b"p tp 1 1\nk 1 speeds 10 2\nv 0 1000\nt 1 1\n",
        4,
        TooFewLines,
    ),
    (b"p tp 1 0\nk 1 speeds 10 2\nv 0 1000\nx", 4, UnknownLine),
    (
        b"p tp 1 0\nk 1 speeds 10 2\nv 0 1000\np tp 1 0",
        4,
        SecondProblemLine,
    ),
    (b"p tp 1 0\nk 1 speeds 10 2\nv 0 1000", 0, TooFewLines),
    (b"p tp 1 0\nk 1 trips 0 1", 0, TooFewLines),
    // too-many-steps
    (
        b"p tp 1 0\nk 1 speeds 10 1\nv 0 1000\nv 5 x",
        4,
        TooManyLines,
    ),
    (
        b"p tp 1 0\nk 1 speeds 10 1\nv 0 1000\nv 5 7\n",
        4,
        TooManyLines,
    ),
    (b"p tp 0 0\nv 0 0", 2, TooManyLines),
    (b"p tp 0 0\nv 0 0\n", 2, TooManyLines),
    (b"v 0 0", 1, NoProblemLine),
    (b"v 0 0\n", 1, NoProblemLine),
    // step-ranges
    (b"p tp 1 0\nk 1 speeds 10 1\nv 0", 3, FieldCount),
    (b"p tp 1 0\nk 1 speeds 10 1\nv 1 x", 3, BadNumber),
    (b"p tp 1 0\nk 1 speeds 10 1\nv 1 1", 3, OutOfRange),
    (b"p tp 1 0\nk 1 speeds 10 2\nv 0 1\nv 0 1", 4, OutOfRange),
    (b"p tp 1 0\nk 1 speeds 10 2\nv 0 1\nv 10 1", 4, OutOfRange),
    (b"p tp 1 0\nk 1 speeds 10 1\nv 0 1000001", 3, OutOfRange),
    (b"p tp 1 0\nk 1 trips 10 1\nv 10 0", 3, OutOfRange),
    (b"p tp 1 0\nk 1 trips 10 1\nv 9 4294967297", 3, OutOfRange),
    (
        b"p tp 1 0\nk 1 trips 0 1\nv 281474976710656 0",
        3,
        OutOfRange,
    ),
    (b"p tp 1 0\nk 1 speeds 0 1", 2, OutOfRange),
    (b"p tp 1 0\nk 1 speeds 10 0", 2, OutOfRange),
    (b"p tp 1 0\nk 1 speeds 10 65537", 2, OutOfRange),
    (b"p tp 1 0\nk 1 trips 4294967297 1", 2, OutOfRange),
    (b"p tp 1 0\nk 1 speeds 10", 2, FieldCount),
    (b"p tp 0 0\nk 1 speeds 10 1", 2, TooManyLines),
    (b"p tp 1 0\nk 1 trips 10 1\nv 0 1 2", 3, FieldCount),
    (b"p tp 1 0\nk 1 trips 10 x", 2, BadNumber),
    (
        b"p tp 1 0\nk 1 trips 10 1\nv 0 99999999999999999999999999999999999999999",
        3,
        OutOfRange,
    ),
];

#[test]
fn step_faults(rt: HostRuntime) {
    assert_none_wrong(&rt, wrong_fault(rt.alloc(), File::Timetables, &STEP_FAULTS));
}

/// One faulty line after another, each with all faults that come later in the order.
const SORTS_OF_LINES: [Faulty; 6] = [
    (b"x 1 y", 1, UnknownLine),
    (b"a x", 1, NoProblemLine),
    (b"p sp 1 0\np max x", 2, SecondProblemLine),
    (b"p max x", 1, BadKind),
    (b"p sp x", 1, FieldCount),
    (b"p sp 0 x", 1, BadNumber),
];

#[test]
fn the_sort_of_a_line_is_known_before_its_fields(rt: HostRuntime) {
    assert_none_wrong(&rt, wrong_fault(rt.alloc(), File::Graph, &SORTS_OF_LINES));
}

const REFUSED: InputFault = InputFault {
    line: 0,
    kind: OutOfMemory,
};

/// Whether what is read is right, or refused for memory.
fn is_right_or_refused(read: Result<bool, InputFault>) -> bool {
    match read {
        Ok(right) => right,
        Err(fault) => fault == REFUSED,
    }
}

#[test]
fn memory_refused_for_a_graph(rt: HostRuntime) {
    let first = reads_four_nodes(rt.alloc(), GRAPH);
    assert!(rt; is_right_or_refused(first));
    assert!(rt; first == Ok(true) || reads_four_nodes(rt.alloc(), GRAPH) == Ok(true));
}

#[test]
fn memory_refused_for_lists(rt: HostRuntime) {
    let sources = reads_sources(rt.alloc(), b"p aux sp ss 1\ns 3\n", &[3]);
    let pairs = reads_pairs(rt.alloc(), b"p aux sp p2p 1\nq 3 1\n", &[(3, 1)]);
    assert!(rt; is_right_or_refused(sources));
    assert!(rt; is_right_or_refused(pairs));
}

const TRIPS: RawKind = RawKind::Trips {
    period: 0,
    first: 0,
    count: 2,
};

#[test]
fn memory_refused_for_a_timetable(rt: HostRuntime) {
    let (one, two) = (
        b"p tp 1 1\nk 1 plain\nt 1 1\n",
        b"p tp 1 1\nk 1 trips 0 2\nv 2 9\n v 7 4\nt 1 1\n",
    );
    let plain = reads_table(rt.alloc(), one, 1, &[RawKind::Plain], &[(1, 1)], &[]);
    let trips = reads_table(rt.alloc(), two, 1, &[TRIPS], &[(1, 1)], &[(2, 9), (7, 4)]);
    assert!(rt; is_right_or_refused(plain));
    assert!(rt; is_right_or_refused(trips));
}

/// Two faults, and how each is shown.
const SHOWN: [(InputFault, &str); 2] = [
    (
        InputFault {
            line: 3,
            kind: OutOfRange,
        },
        "line 3: a number is out of its range (6 OutOfRange)",
    ),
    (
        InputFault {
            line: 0,
            kind: TooFewLines,
        },
        "there are fewer lines than were announced (8 TooFewLines)",
    ),
];

/// The index of the first fault with another text.
fn wrong_shown(alloc: Global) -> Option<usize> {
    for (place, (fault, text)) in SHOWN.iter().enumerate() {
        if !is_shown(alloc, fault, text) {
            return Some(place);
        }
    }
    None
}

#[test]
fn messages(rt: HostRuntime) {
    assert_none_wrong(&rt, wrong_shown(rt.alloc()));
}

const TEXTS: [(FaultKind, &str); 10] = [
    (
        NoProblemLine,
        "the problem line `p ..` is missing (1 NoProblemLine)",
    ),
    (
        SecondProblemLine,
        "there is a second problem line (2 SecondProblemLine)",
    ),
    (
        UnknownLine,
        "lines of this file don't begin with this word (3 UnknownLine)",
    ),
    (
        FieldCount,
        "the line has too few or too many fields (4 FieldCount)",
    ),
    (BadNumber, "a field is not a number (5 BadNumber)"),
    (OutOfRange, "a number is out of its range (6 OutOfRange)"),
    (
        TooManyLines,
        "there are more lines of this sort than were announced (7 TooManyLines)",
    ),
    (
        TooFewLines,
        "there are fewer lines than were announced (8 TooFewLines)",
    ),
    (
        BadKind,
        "a kind word is not the one expected here (9 BadKind)",
    ),
    (OutOfMemory, "there is not enough memory (13 OutOfMemory)"),
];

/// The index of the first kind of fault that has another text.
fn wrong_text(alloc: Global) -> Option<usize> {
    for (place, (kind, text)) in TEXTS.iter().enumerate() {
        let (number, name) = (kind.number(), kind.name());
        if !is_shown(alloc, kind, text) || !ends_in(alloc, number, name, text) {
            return Some(place);
        }
    }
    None
}

#[test]
fn each_kind_has_its_text(rt: HostRuntime) {
    assert_none_wrong(&rt, wrong_text(rt.alloc()));
}
