//! Texts of devices, in blocks and by several threads: each gives the same as the text in memory.
ghost use Rattle.std.specs.Prelude.{◌<◌, ◌≤◌};

use crate::asserts::{assert_none_wrong, is_shown};
use ea_input::*;
use std::alloc::{AllocError, Global};
use std::io::{self, Error, ErrorKind, Read};
use std::thread::Threads;

const PLAIN: &[u8] = b"p sp 4 5\na 1 2 7\na 1 3 2\na 3 2 3\na 2 4 1\na 3 4 9\n";

/// The most bytes of a device here.
const LIMIT: u64 = 1 << 33;

/// A device that gives a text in pieces, is interrupted before each second read, and fails after this many
/// bytes.
#[derive(Drop)]
struct Slow<'a> {
    text: &'a [u8],
    piece: usize,
    reads: u64,
    fails_after: usize,
}

impl Read for Slow<'_> {
    fn read(&mut self, buf: &mut [u8]) -> io::Result<usize> {
        self.reads = self.reads.wrapping_add(1);
        if self.reads % 2 == 0 && self.reads < 400 {
            return Err(Error::from(ErrorKind::Interrupted));
        }
        if self.fails_after == 0 {
            return Err(Error::from(ErrorKind::Other));
        }
        let count = self
            .piece
            .min(self.text.len())
            .min(buf.len())
            .min(self.fails_after);
        let (front, rest) = self.text.split_at(count);
        buf[..count].copy_from_slice(front);
        self.text = rest;
        self.fails_after -= count;
        Ok(count)
    }
}

/// Reading by this many threads, in blocks of at least this many bytes and in small pieces.
fn in_blocks(alloc: Global, threads: usize, size: usize) -> Way
    ensures { 0 < result.size }
{
    Way {
        alloc,
        threads,
        size: size.max(1),
        piece: size / 16,
    }
}

/// Whether the device's result equals that in memory: the same graph, or the same fault.
fn is_same(found: &Result<RawGraph, StreamFault>, whole: &Result<RawGraph, InputFault>) -> bool {
    match found {
        Ok(found) => match whole {
            Ok(whole) => {
                found.nodes == whole.nodes && found.arcs.as_slice() == whole.arcs.as_slice()
            }
            Err(_) => false,
        },
        Err(found) => match whole {
            Ok(_) => false,
            Err(whole) => *found == StreamFault::Input(*whole),
        },
    }
}

/// Whether a device gives what the text in memory gives.
fn is_read_as_text<H: Threads + Sync>(
    alloc: Global,
    rt: &H,
    text: &[u8],
    threads: usize,
    size: usize,
) -> bool {
    let mut device = StdIn::new(Slow {
        text,
        piece: 7,
        reads: 0,
        fails_after: usize::MAX,
    });
    let found = read_gr_by(rt, in_blocks(alloc, threads, size), LIMIT, &mut device);
    is_same(&found, &read_gr(alloc, text))
}

/// The first number of threads with which blocks of this size give another result than the text in memory.
fn wrong_threads<H: Threads + Sync>(
    alloc: Global,
    rt: &H,
    text: &[u8],
    threads: &[usize],
    size: usize,
) -> Option<usize> {
    for count in threads {
        if !is_read_as_text(alloc, rt, text, *count, size) {
            return Some(*count);
        }
    }
    None
}

/// The first size of blocks below 40 that gives another result than the text in memory.
fn wrong_size<H: Threads + Sync>(alloc: Global, rt: &H, text: &[u8]) -> Option<usize> {
    for size in 0..40usize {
        if wrong_threads(alloc, rt, text, &[1, 2, 4, 5], size).is_some() {
            return Some(size);
        }
    }
    None
}

/// The index of the first text that gives another result in blocks, or is wrongly listed as faulty or not.
fn wrong_text<H: Threads + Sync>(
    alloc: Global,
    rt: &H,
    texts: &[&[u8]],
    faulty: bool,
) -> Option<usize> {
    for (place, text) in texts.iter().enumerate() {
        if wrong_size(alloc, rt, text).is_some() || read_gr(alloc, text).is_err() != faulty {
            return Some(place);
        }
    }
    None
}

const SOUND: [&[u8]; 12] = [
    PLAIN,
    b"p sp 4 5\na 1 2 7\na 1 3 2\na 3 2 3\na 2 4 1\na 3 4 9",
    b"c\n\nc x\np sp 4 5\nc y\n\na 1 2 7\na 1 3 2\na 3 2 3\na 2 4 1\na 3 4 9\n",
    b"p sp 4 5\na 1 2 7\nc a 1 1 1\n\na 1 3 2\n\n\na 3 2 3\nc\na 2 4 1\na 3 4 9\nc end",
    b"p sp 4 5\r\na 1 2 7\r\na 1 3 2\r\na 3 2 3\r\na 2 4 1\r\na 3 4 9\r\n",
    b"p\tsp 4  05\n a 1 2 7\na\t1 3 2 \na 3 2 03\n\ta 2 4 1\na 3 4 9",
    b"p sp 4 5\na 1 2 4294967295\na 4 4 0\na 3 2 3\na 2 4 1\na 3 4 9\n\n\n\n",
    b"p sp 1 0",
    b"p sp 1 0\n",
    b"p sp 1 0\nc\nc\nc\n\n\n\n\n",
    b"p sp 1 1\na 1 1 0",
    b"c\nc\nc\nc\nc\nc\nc\nc\nc\nc\np sp 1 1\n\n\n\n\na 1 1 0\n\n\n\n\n\n\n",
];

#[test]
fn blocks_of_sound_texts(rt: HostRuntime) {
    assert_none_wrong(&rt, wrong_text(rt.alloc(), &rt, &SOUND, false));
}

const FAULTY: [&[u8]; 14] = [
    b"",
    b"\n\n\nc\n",
    b"a 1 2 7\np sp 4 1\n",
    b"p sp 4 5\nb 1 2 7\na 1 3 2\na 3 2 3\na 2 4 1\na 3 4 9\n",
    b"p sp 4 5\na 1 2 7\na 1 3\na 3 2 3\na 2 4 1\na 3 4 9\n",
    b"p sp 4 5\na 1 2 7\na 1 3 2\na 3 0 3\na 2 4 1\na 3 4 9\n",
    b"p sp 4 5\na 1 2 7\na 1 3 2\na 3 2 3\na 2 5 1\na 3 4 9\n",
    b"p sp 4 5\na 1 2 7\na 1 3 2\na 3 2 3\na 2 4 1\na 3 4 4294967296\n",
    b"p sp 4 5\na 1 2 7\na 1 3 2\na 3 2 3\na 2 4 1\na 3 4 9 1\n",
    b"p sp 4 5\na 1 2 7\na 1 3 2\np sp 4 5\na 3 2 3\na 2 4 1\na 3 4 9\n",
    b"p sp 4 4\na 1 2 7\na 1 3 2\na 3 2 3\na 2 4 1\na 3 4 9\n",
    b"p sp 4 6\na 1 2 7\na 1 3 2\na 3 2 3\na 2 4 1\na 3 4 9\n",
    b"p sp 4 0\na 1 2 7\n",
    b"p sp 4 5\na 1 2 7\na 1 3 2\na 3 2 3\na 2 4 1\nx 3 4 9",
];

#[test]
fn blocks_of_texts_with_faults(rt: HostRuntime) {
    assert_none_wrong(&rt, wrong_text(rt.alloc(), &rt, &FAULTY, true));
}

/// The first of a text's lengths, from this one on, at which blocks of one of these sizes give another result
/// than the text in memory.
fn wrong_length<H: Threads + Sync>(
    alloc: Global,
    rt: &H,
    text: &[u8],
    first: usize,
    sizes: &[usize],
    threads: &[usize],
) -> Option<usize> {
    for n in first..=text.len() {
        for size in sizes {
            if wrong_threads(alloc, rt, &text[..n], threads, *size).is_some() {
                return Some(n);
            }
        }
    }
    None
}

const BELOW_TWENTY: [usize; 19] = [
    1, 2, 3, 4, 5, 6, 7, 8, 9, 10, 11, 12, 13, 14, 15, 16, 17, 18, 19,
];

#[test]
fn blocks_of_every_prefix(rt: HostRuntime) {
    let wrong = wrong_length(rt.alloc(), &rt, PLAIN, 0, &BELOW_TWENTY, &[1]);
    assert_none_wrong(&rt, wrong);
}

const IN_PIECES: [&[u8]; 8] = [
    b"p sp 4 8\na 1 2 7\na 1 3 2\na 3 2 3\na 2 4 1\na 3 4 9\na 4 1 5\na 4 2 6\na 4 4 0\n",
    b"p sp 4 6\na 1 2 7\n\nc\na 1 3 2\n a 3 2 3 \na 2 4 1\nc x\na 3 4 9\na 4 1 5",
    b"p sp 4 5\na 1 2 7\na 1 3 2\na 3 2 3\na 2 4 1\na 3 5 9\n",
    b"p sp 4 7\na 1 2 7\na 1 3 2\na 3 2 3\na 2 4\na 3 4 9\na 4 1 5\na 4 2 6\n",
    b"p sp 4 5\na 1 2 7\na 1 3 2\na 3 2 3\na 2 4 1\na 3 4 9\na 1 1 1\n",
    b"p sp 4 5\na 1 2 7\na 1 3 2\na 3 2 3\np sp 4 5\na 2 4 1\n",
    b"p sp 4 5\na 1 2 7\na 1 3 2\na 3 2 3\na 2 4 1\na 3 4 9\nx\na 1 1 1\n",
    b"p sp 4 9\na 1 2 7\na 1 3 2\na 3 2 3\na 2 4 1\na 3 4 9\na 4 1 5\n",
];

const SIZES_OF_PIECES: [usize; 6] = [9, 17, 25, 33, 41, 57];

/// The index of the first text that is read differently in pieces.
fn wrong_piece<H: Threads + Sync>(alloc: Global, rt: &H) -> Option<usize> {
    for (place, text) in IN_PIECES.iter().enumerate() {
        if wrong_length(alloc, rt, text, 9, &SIZES_OF_PIECES, &[2, 4, 5]).is_some() {
            return Some(place);
        }
    }
    None
}

/// Blocks of lines that are read in two and in four pieces, which end at each byte of the text.
#[test]
fn pieces_of_lines(rt: HostRuntime) {
    assert_none_wrong(&rt, wrong_piece(rt.alloc(), &rt));
}

/// How many arcs the large text has.
const MANY: u32 = 80_000;

/// Adds the arc that leaves this node.
fn add_arc(text: &mut String, tail: u32) -> Result<(), AllocError>
    requires { tail ≤ MANY }
{
    let head = MANY - tail + 1;
    let weight = tail.wrapping_mul(2_654_435_761);
    writeln!(text, "a {tail} {head} {weight}")
}

/// Adds the arcs that leave all nodes, and then this line.
fn add_all(text: &mut String, last: &str) -> Result<(), AllocError> {
    for tail in 1..=MANY {
        add_arc(text, tail)?;
    }
    text.push_str(last)
}

/// A text of many arcs, between as many nodes, and then this line.
fn large_text(alloc: Global, last: &str) -> Result<String, AllocError> {
    let mut text = format!(in alloc; "c\np sp {MANY} {MANY}\n")?;
    add_all(&mut text, last)?;
    Ok(text)
}

/// The number of nodes of a graph; none if there is a fault.
fn nodes_of(read: &Result<RawGraph, InputFault>) -> Option<u32> {
    match read {
        Ok(graph) => Some(graph.nodes),
        Err(_) => None,
    }
}

/// Whether this many threads give the result in memory: with blocks of the default size and of another.
fn is_read_large<H: Threads + Sync>(
    alloc: Global,
    rt: &H,
    text: &[u8],
    threads: usize,
    whole: &Result<RawGraph, InputFault>,
) -> bool {
    let chosen = read_gr_from(alloc, rt, threads, LIMIT, &mut StdIn::new(text));
    let way = in_blocks(alloc, threads, 300_000);
    let other = read_gr_by(rt, way, LIMIT, &mut StdIn::new(text));
    is_same(&chosen, whole) && is_same(&other, whole)
}

/// The first number of threads that give another result than the text in memory.
fn wrong_large<H: Threads + Sync>(
    alloc: Global,
    rt: &H,
    text: &[u8],
    whole: &Result<RawGraph, InputFault>,
) -> Option<usize> {
    for threads in [1usize, 2, 4, 5] {
        if !is_read_large(alloc, rt, text, threads, whole) {
            return Some(threads);
        }
    }
    None
}

/// Whether a large text with this last line has this many nodes in memory, or a fault for none, and each
/// number of threads reads the same.
fn is_large_read<H: Threads + Sync>(
    alloc: Global,
    rt: &H,
    last: &str,
    nodes: Option<u32>,
) -> Result<bool, AllocError> {
    let text = large_text(alloc, last)?;
    let whole = read_gr(alloc, text.as_bytes());
    let wrong = wrong_large(alloc, rt, text.as_bytes(), &whole);
    Ok(nodes_of(&whole) == nodes && wrong == None)
}

#[test]
fn large_texts(rt: HostRuntime) {
    assert!(rt; is_large_read(rt.alloc(), &rt, "", Some(MANY)) == Ok(true));
}

#[test]
fn faults_of_large_texts(rt: HostRuntime) {
    assert!(rt; is_large_read(rt.alloc(), &rt, "a 1 1 1\n", None) == Ok(true));
    assert!(rt; is_large_read(rt.alloc(), &rt, "a 1 0 1", None) == Ok(true));
}

/// Whether what was read is this fault.
fn is_fault<X: Drop>(read: Result<X, StreamFault>, wanted: StreamFault) -> bool {
    match read {
        Ok(_) => false,
        Err(fault) => fault == wanted,
    }
}

/// Whether a device that fails after this many bytes gives its failure, and counts it once.
fn fails_once<H: Threads + Sync>(rt: &H, way: Way, text: &[u8], fails_after: usize) -> bool
    requires { 0 < way.size }
{
    let mut device = StdIn::new(Slow {
        text,
        piece: 3,
        reads: 0,
        fails_after,
    });
    let read = read_gr_by(rt, way, LIMIT, &mut device);
    is_fault(read, StreamFault::Read(ReadFault::ReadFailed)) && device.failures() == 1
}

/// The first number of bytes after which a device fails in another way.
fn wrong_after<H: Threads + Sync>(rt: &H, way: Way, text: &[u8]) -> Option<usize>
    requires { 0 < way.size }
{
    for fails_after in 0..text.len() {
        if !fails_once(rt, way, text, fails_after) {
            return Some(fails_after);
        }
    }
    None
}

/// The first number of bytes after which a device fails in another way, with one of these block sizes and
/// numbers of threads.
fn wrong_failure<H: Threads + Sync>(alloc: Global, rt: &H, text: &[u8]) -> Option<usize> {
    for size in [1usize, 5, 20, 100] {
        for threads in [1usize, 2, 4, 5] {
            let wrong = wrong_after(rt, in_blocks(alloc, threads, size), text);
            if wrong.is_some() {
                return wrong;
            }
        }
    }
    None
}

/// The first line has a fault, but the device's is reported.
const BAD_AT_ONCE: &[u8] = b"x\na 1 2 7\na 1 3 2\na 3 2 3\na 2 4 1\na 3 4 9\n";

#[test]
fn devices_that_fail(rt: HostRuntime) {
    assert_none_wrong(&rt, wrong_failure(rt.alloc(), &rt, PLAIN));
    assert_none_wrong(&rt, wrong_failure(rt.alloc(), &rt, BAD_AT_ONCE));
}

/// Whether the plain text is read in blocks of this size within its length as the limit.
fn is_read_within<H: Threads + Sync>(alloc: Global, rt: &H, size: usize) -> bool {
    let way = in_blocks(alloc, 2, size);
    read_gr_by(rt, way, PLAIN.len() as u64, &mut StdIn::new(PLAIN)).is_ok()
}

/// Whether the plain text is too large for this limit.
fn is_too_large<H: Threads + Sync>(alloc: Global, rt: &H, size: usize, limit: u64) -> bool {
    let way = in_blocks(alloc, 2, size);
    let read = read_gr_by(rt, way, limit, &mut StdIn::new(PLAIN));
    is_fault(read, StreamFault::Read(ReadFault::TooLarge))
}

/// The first limit below the plain text's length at which blocks of this size are read without `TooLarge`;
/// the length if it is not read within that.
fn wrong_limit<H: Threads + Sync>(alloc: Global, rt: &H, size: usize) -> Option<u64> {
    let count = PLAIN.len() as u64;
    for limit in 0..count {
        if !is_too_large(alloc, rt, size, limit) {
            return Some(limit);
        }
    }
    if is_read_within(alloc, rt, size) {
        None
    } else {
        Some(count)
    }
}

/// The first block size at which a limit is kept wrongly.
fn wrong_size_of_limits<H: Threads + Sync>(alloc: Global, rt: &H) -> Option<usize> {
    for size in [1usize, 5, 20, 100] {
        if wrong_limit(alloc, rt, size).is_some() {
            return Some(size);
        }
    }
    None
}

#[test]
fn limits_of_bytes(rt: HostRuntime) {
    assert_none_wrong(&rt, wrong_size_of_limits(rt.alloc(), &rt));
}

const SOURCES: &[u8] = b"p aux sp ss 2\ns 3\ns 1\n";

const PAIRS: &[u8] = b"p aux sp p2p 2\nq 3 1\nq 1 2\n";

const TIMES: &[u8] = b"p aux sp at 2\nt 0\nt 7\n";

const TIMETABLES: &[u8] = b"p tp 1 2\nk 1 closed 5 9\nt 2 1\nt 1 1\n";

/// Whether a device gives two items, equal to those in memory.
fn are_both<T: PartialEq + Drop>(
    found: &Result<Vec<T>, StreamFault>,
    whole: &Result<Vec<T>, InputFault>,
) -> bool {
    match found {
        Ok(found) => match whole {
            Ok(whole) => found.len() == 2 && found.as_slice() == whole.as_slice(),
            Err(_) => false,
        },
        Err(_) => false,
    }
}

/// Whether this many threads read two sources as they are in memory.
fn are_sources_read<H: Threads + Sync>(alloc: Global, rt: &H, threads: usize) -> bool {
    let found = read_ss_from(alloc, rt, threads, LIMIT, &mut StdIn::new(SOURCES), 3);
    are_both(&found, &read_ss(alloc, SOURCES, 3))
}

/// Whether this many threads read two pairs as they are in memory.
fn are_pairs_read<H: Threads + Sync>(alloc: Global, rt: &H, threads: usize) -> bool {
    let found = read_p2p_from(alloc, rt, threads, LIMIT, &mut StdIn::new(PAIRS), 3);
    are_both(&found, &read_p2p(alloc, PAIRS, 3))
}

/// Whether this many threads read two times as they are in memory.
fn are_times_read<H: Threads + Sync>(alloc: Global, rt: &H, threads: usize) -> bool {
    let found = read_times_from(alloc, rt, threads, LIMIT, &mut StdIn::new(TIMES), 2);
    are_both(&found, &read_times(alloc, TIMES, 2))
}

/// How many arcs have timetables; none if there is a fault.
fn assigned<E>(read: &Result<RawTable, E>) -> Option<usize> {
    match read {
        Ok(table) => Some(table.assigned.len()),
        Err(_) => None,
    }
}

/// Whether this many threads read the timetables of two arcs, as many as in memory.
fn are_timetables_read<H: Threads + Sync>(alloc: Global, rt: &H, threads: usize) -> bool {
    let found = read_tp_from(alloc, rt, threads, LIMIT, &mut StdIn::new(TIMETABLES), 2);
    let whole = read_tp(alloc, TIMETABLES, 2);
    assigned(&found) == Some(2) && assigned(&whole) == Some(2)
}

/// Whether this many threads find a source that is no node.
fn is_far_source_found<H: Threads + Sync>(alloc: Global, rt: &H, threads: usize) -> bool {
    let read = read_ss_from(alloc, rt, threads, LIMIT, &mut StdIn::new(SOURCES), 2);
    let far = StreamFault::Input(InputFault {
        line: 2,
        kind: FaultKind::OutOfRange,
    });
    is_fault(read, far)
}

/// Whether this many threads read each of the other files as it is in memory.
fn are_others_read<H: Threads + Sync>(alloc: Global, rt: &H, threads: usize) -> bool {
    are_sources_read(alloc, rt, threads)
        && are_pairs_read(alloc, rt, threads)
        && are_times_read(alloc, rt, threads)
        && are_timetables_read(alloc, rt, threads)
        && is_far_source_found(alloc, rt, threads)
}

#[test]
fn other_files(rt: HostRuntime) {
    for threads in [1usize, 2, 4, 5] {
        assert!(rt; are_others_read(rt.alloc(), &rt, threads));
    }
}

const TEXTS: [(StreamFault, &str); 4] = [
    (
        StreamFault::Read(ReadFault::TooLarge),
        "there are more bytes than are allowed (10 TooLarge)",
    ),
    (
        StreamFault::Read(ReadFault::ReadFailed),
        "the input could not be read (11 ReadFailed)",
    ),
    (
        StreamFault::Read(ReadFault::OutOfMemory),
        "there is not enough memory (13 OutOfMemory)",
    ),
    (
        StreamFault::Input(InputFault {
            line: 4,
            kind: FaultKind::BadKind,
        }),
        "line 4: a kind word is not the one expected here (9 BadKind)",
    ),
];

/// The index of the first fault that has another text.
fn wrong_shown(alloc: Global) -> Option<usize> {
    for (place, (fault, text)) in TEXTS.iter().enumerate() {
        if !is_shown(alloc, fault, text) {
            return Some(place);
        }
    }
    None
}

#[test]
fn each_fault_of_a_stream_has_the_text_of_what_it_holds(rt: HostRuntime) {
    assert_none_wrong(&rt, wrong_shown(rt.alloc()));
}
