//! Timetables whose lines are read in pieces, by several threads: each gives the same as the text in memory.
ghost use Rattle.std.specs.Prelude.{◌<◌};

use crate::asserts::assert_none_wrong;
use ea_input::*;
use std::alloc::Global;
use std::thread::Threads;

/// The arcs of the network.
const ARCS: u32 = 4;

/// How many kinds, assignments and steps a text has, or the line and kind of its fault.
type Found = Result<(usize, usize, usize), (u64, FaultKind)>;

/// Texts of timetables, and what they have: assignments behind all kinds, a text with comments and blanks, kinds and steps between and behind
/// assignments, and faults of one piece's lines, or of all before them.
const TEXTS: [(&[u8], Found); 14] = [
    (
        b"p tp 2 8\nk 1 closed 5 9\nk 2 plain\nt 1 1\nt 2 2\nt 3 0\nt 4 1\nt 1 2\nt 1 0\nt 2 1\nt 3 2\n",
        Ok((2, 8, 0)),
    ),
    (
        b"c\np tp 1 7\nk 1 every 60 0\nt 1 1\n\nc x\n t 2 01\nt\t3 0 \r\nt 4 1\nt 1 0\nc\nt 2 1\nt 3 1",
        Ok((1, 7, 0)),
    ),
    (
        b"p tp 2 6\nk 1 plain\nt 1 1\nt 2 1\nt 3 2\nk 2 closed 5 9\nt 4 2\nt 1 2\nt 2 0\n",
        Ok((2, 6, 0)),
    ),
    (
        b"p tp 2 5\nt 1 1\nt 2 2\nk 1 speeds 10 2\nv 0 1000\nv 5 500\nt 4 1\nk 2 trips 0 2\nv 3 4\nv 9 1\nt 3 1\nt 4 2\n",
        Ok((2, 5, 4)),
    ),
    (
        b"p tp 1 5\nk 1 trips 20 1\nv 3 4\nt 1 1\nt 2 1\nt 3 1\nt 4 1\nt 1 0\n",
        Ok((1, 5, 1)),
    ),
    (
        b"p tp 1 4\nt 1 1\nt 2 1\nk 1 trips 0 2\nv 3 4\nt 3 1\nt 4 1\nv 5 6\n",
        Err((6, FaultKind::TooFewLines)),
    ),
    (
        b"p tp 1 4\nt 1 1\nt 2 1\nk 1 trips 0 2\nv 3 4\nv 5 6\nv 7 8\nt 3 1\nt 4 1\n",
        Err((7, FaultKind::TooManyLines)),
    ),
    (
        b"p tp 1 4\nk 1 plain\nt 1 1\nt 2 1\nt 3 1\nt 4 1\nt 4 1\nt 3 1\n",
        Err((7, FaultKind::TooManyLines)),
    ),
    (
        b"p tp 1 8\nk 1 plain\nt 1 1\nt 2 1\nt 3 1\nt 4 1\nt 4 1\nt 3 1\n",
        Err((0, FaultKind::TooFewLines)),
    ),
    (
        b"p tp 2 6\nk 1 plain\nt 1 1\nt 2 1\nt 3 1\nt 4 2\nt 4 1\nt 3 1\n",
        Err((0, FaultKind::TooFewLines)),
    ),
    (
        b"p tp 1 6\nk 1 plain\nt 1 1\nt 2 1\nt 3 1\nt 5 1\nt 4 1\nt 3 1\n",
        Err((6, FaultKind::OutOfRange)),
    ),
    (
        b"p tp 1 6\nk 1 plain\nt 1 1\nt 2 1\nt 3 1\nt 4 2\nt 4 1\nt 3 1\n",
        Err((6, FaultKind::OutOfRange)),
    ),
    (
        b"p tp 1 6\nk 1 plain\nt 1 1\nt 2 1\nt 3 1\np tp 1 6\nt 4 1\nt 3 1\n",
        Err((6, FaultKind::SecondProblemLine)),
    ),
    (
        b"p tp 1 6\nk 1 plain\nt 1 1\nt 2 1\nt 3 1\nk 2 plain\nt 4 1\nt 3 1\nt 2 x\n",
        Err((6, FaultKind::TooManyLines)),
    ),
];

/// What a text in memory has.
fn found_in(alloc: Global, text: &[u8]) -> Found {
    match read_tp(alloc, text, ARCS) {
        Ok(table) => Ok((table.kinds.len(), table.assigned.len(), table.steps.len())),
        Err(fault) => Err((fault.line, fault.kind)),
    }
}

/// The index of the first text that has something else in memory.
fn wrong_in_memory(alloc: Global) -> Option<usize> {
    for (place, (text, found)) in TEXTS.iter().enumerate() {
        if found_in(alloc, text) != *found {
            return Some(place);
        }
    }
    None
}

#[test]
fn texts_of_timetables(rt: HostRuntime) {
    assert_none_wrong(&rt, wrong_in_memory(rt.alloc()));
}

/// Whether two timetables are the same.
fn are_same(table: &RawTable, other: &RawTable) -> bool {
    table.kinds.as_slice() == other.kinds.as_slice()
        && table.assigned.as_slice() == other.assigned.as_slice()
        && table.steps.as_slice() == other.steps.as_slice()
}

/// Whether a device's result equals that in memory: the same timetable, or the same fault.
fn is_same(found: &Result<RawTable, StreamFault>, whole: &Result<RawTable, InputFault>) -> bool {
    match found {
        Ok(found) => match whole {
            Ok(whole) => are_same(found, whole),
            Err(_) => false,
        },
        Err(found) => match whole {
            Ok(_) => false,
            Err(whole) => *found == StreamFault::Input(*whole),
        },
    }
}

/// Whether this many threads, with blocks of this size and pieces from one byte on, read a text as it is in memory.
fn is_read_as_text<H: Threads + Sync>(
    alloc: Global,
    rt: &H,
    text: &[u8],
    threads: usize,
    size: usize,
) -> bool {
    let way = Way {
        alloc,
        threads,
        size: size.max(1),
        piece: 1,
    };
    let found = read_tp_by(rt, way, 1 << 33, &mut StdIn::new(text), ARCS);
    is_same(&found, &read_tp(alloc, text, ARCS))
}

/// Whether each number of threads reads a text as it is in memory, with blocks of each of these sizes.
fn is_read<H: Threads + Sync>(alloc: Global, rt: &H, text: &[u8], sizes: &[usize]) -> bool {
    for size in sizes {
        for threads in [2usize, 5] {
            if !is_read_as_text(alloc, rt, text, threads, *size) {
                return false;
            }
        }
    }
    true
}

const SIZES: [usize; 3] = [19, 37, 90];

/// The index of the first text of which some first bytes are read differently in pieces.
fn wrong_piece<H: Threads + Sync>(alloc: Global, rt: &H) -> Option<usize> {
    for (place, (text, _)) in TEXTS.iter().enumerate() {
        for end in 9..=text.len() {
            if !is_read(alloc, rt, &text[..end], &SIZES) {
                return Some(place);
            }
        }
    }
    None
}

/// Blocks of lines that are read in two and in four pieces, which end at each byte of the text.
#[test]
fn timetables_in_pieces(rt: HostRuntime) {
    assert_none_wrong(&rt, wrong_piece(rt.alloc(), &rt));
}
