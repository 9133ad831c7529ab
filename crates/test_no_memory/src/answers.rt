//! Answers of runs and of pairs whose growths are refused.
ghost use Rattle.ea_options.specs.Limits.{AreOptions};

use crate::counts::{Came, Count, taken};
use crate::devices::{Greedy, Taking};
use crate::given::{FOUR_NODES, FROM_ONE, NO_ARCS, holds, unreached, walks_by};
use ea_bytes::{StdIn, StdOut};
use earliest::{AnswerFault, OptionalFiles, RunOptions, Totals, answer, answer_pairs};
use std::alloc::{AllocError, Global};
use std::test::Fail;
use std::thread::Threads;
use test_support::memory::Held;

/// Timetables by which each arc takes its weight.
const PLAIN: &[u8] = b"p tp 1 2\nk 1 plain\nt 1 1\nt 4 1\n";

const WALKS: &[u8] = b"s 1 0\nd 1 0\nw 1 0\nd 2 5\nw 2 2 2 3\nd 3 2\nw 3 1 2\nd 4 6\nw 4 3 2 3 4\n";

/// The outcome: whole with the whole text, or refused with its first bytes and their number.
fn came_of(answered: Result<Totals, AnswerFault>, room: &[u8], front: &[u8], whole: &[u8]) -> Came {
    let refused = AnswerFault::OutOfMemory {
        written: front.len() as u128,
    };
    match answered {
        Ok(_) if holds(room, whole) => Came::Whole,
        Err(fault) if fault == refused && holds(room, front) => Came::Refused,
        _ => Came::Wrong,
    }
}

/// The command for which memory is refused.
#[derive(Clone, Copy)]
enum Asked<'a> {
    /// A run on the four nodes, perhaps with timetables.
    FourNodes(Option<&'a [u8]>),
    /// A run on the network without arcs, which has this report.
    NoArcs(&'a [u8]),
    TwoSources,
    TwoPairs,
}

/// A run on the four nodes, with memory taken at its beginning.
fn four_nodes_with<H: Threads + Sync>(
    alloc: Global,
    rt: &H,
    options: &RunOptions,
    tp: Option<&[u8]>,
    held: &mut Held,
    piece: Vec<u8>,
    room: &mut [u8],
) -> Came
    requires { AreOptions options.now }
{
    let mut gr = StdIn::new(FOUR_NODES);
    let mut ss = StdIn::new(FROM_ONE);
    let mut others = OptionalFiles::only_tp(tp.map(StdIn::new));
    let mut out = StdOut::new(&mut *room);
    held.leave(piece);
    let answered = answer(alloc, rt, &mut gr, &mut ss, &mut others, options, &mut out);
    came_of(answered, room, b"", WALKS)
}

/// A run on the network without arcs; its second file takes memory at its end.
fn no_arcs_with<H: Threads + Sync>(
    alloc: Global,
    rt: &H,
    options: &RunOptions,
    whole: &[u8],
    held: &mut Held,
    piece: Vec<u8>,
    room: &mut [u8],
) -> Came
    requires { AreOptions options.now }
{
    let mut gr = StdIn::new(NO_ARCS);
    let mut ss = StdIn::new(Taking {
        bytes: FROM_ONE,
        held,
        piece: Some(piece),
    });
    let mut others: OptionalFiles<StdIn<&[u8]>> = OptionalFiles::only_tp(None);
    let mut out = StdOut::new(&mut *room);
    let answered = answer(alloc, rt, &mut gr, &mut ss, &mut others, options, &mut out);
    came_of(answered, room, b"", whole)
}

/// The report of two sources.
const FROM_TWO: &[u8] =
    b"s 1 0\nd 1 0\nw 1 0\nd 2 5\nw 2 2 2 3\nd 3 2\nw 3 1 2\nd 4 6\nw 4 3 2 3 4\ns 3 0\nd 1 inf\nd 2 3\nw 2 1 3\nd 3 0\nw 3 0\nd 4 4\nw 4 2 3 4\n";

/// A run on the four nodes from two sources; its writer takes memory at its first call.
fn two_sources_with<H: Threads + Sync>(
    alloc: Global,
    rt: &H,
    options: &RunOptions,
    held: &mut Held,
    piece: Vec<u8>,
    room: &mut [u8],
) -> Came
    requires { AreOptions options.now }
{
    let mut gr = StdIn::new(FOUR_NODES);
    let mut ss = StdIn::new(b"p aux sp ss 2\ns 1\ns 3\n".as_slice());
    let mut others: OptionalFiles<StdIn<&[u8]>> = OptionalFiles::only_tp(None);
    let mut out = StdOut::new(Greedy {
        room: &mut *room,
        held,
        piece: Some(piece),
    });
    let answered = answer(alloc, rt, &mut gr, &mut ss, &mut others, options, &mut out);
    drop(out);
    came_of(answered, room, WALKS, FROM_TWO)
}

/// Two pairs on the four nodes; their writer takes memory at its first call.
fn two_pairs_with<H: Threads + Sync>(
    alloc: Global,
    rt: &H,
    options: &RunOptions,
    held: &mut Held,
    piece: Vec<u8>,
    room: &mut [u8],
) -> Came
    requires { AreOptions options.now }
{
    let front = b"q 1 4 0\nd 4 6\nw 4 3 2 3 4\n";
    let whole = b"q 1 4 0\nd 4 6\nw 4 3 2 3 4\nq 3 2 0\nd 2 3\nw 2 1 3\n";
    let mut gr = StdIn::new(FOUR_NODES);
    let mut p2p = StdIn::new(b"p aux sp p2p 2\nq 1 4\nq 3 2\n".as_slice());
    let mut others: OptionalFiles<StdIn<&[u8]>> = OptionalFiles::only_tp(None);
    let mut out = StdOut::new(Greedy {
        room: &mut *room,
        held,
        piece: Some(piece),
    });
    let answered = answer_pairs(alloc, rt, &mut gr, &mut p2p, &mut others, options, &mut out);
    drop(out);
    came_of(answered, room, front, whole)
}

/// The outcome with a piece of memory left.
fn came<H: Threads + Sync>(
    alloc: Global,
    rt: &H,
    asked: Asked<'_>,
    many: bool,
    held: &mut Held,
    piece: Vec<u8>,
    room: &mut [u8],
) -> Came {
    let options = walks_by(many);
    let plain = RunOptions {
        walks: false,
        ..walks_by(many)
    };
    match asked {
        Asked::FourNodes(tp) => four_nodes_with(alloc, rt, &options, tp, held, piece, room),
        Asked::NoArcs(whole) => no_arcs_with(alloc, rt, &plain, whole, held, piece, room),
        Asked::TwoSources => two_sources_with(alloc, rt, &options, held, piece, room),
        Asked::TwoPairs => two_pairs_with(alloc, rt, &options, held, piece, room),
    }
}

/// The outcomes with each of this many pieces of memory, which grow by a step.
fn count_of<H: Threads + Sync>(
    alloc: Global,
    rt: &H,
    asked: Asked<'_>,
    many: bool,
    first: u32,
    count: u32,
    step: u32,
) -> Result<Count, AllocError> {
    let mut room = Vec::from_elem(alloc, 0u8, 40_000)?;
    let (mut small, sizes, mut large) = taken(alloc, first, count, step)?;
    let mut count = Count::new();
    for piece in sizes {
        let room = room.as_mut_slice();
        room.fill(0);
        count.add(came(alloc, rt, asked, many, &mut small, piece, room));
        small.release();
    }
    large.release();
    Ok(count)
}

#[test]
fn files_and_first_problem(rt: HostRuntime) -> Result<(), Fail> {
    for (many, tp) in [(false, None), (true, None), (false, Some(PLAIN))] {
        // A file is read in pieces of 65,536 bytes.
        let count = count_of(rt.alloc(), &rt, Asked::FourNodes(tp), many, 65_500, 300, 16)?;
        assert!(rt; count.is_refused_at_least(5), "{count}");
    }
    Ok(())
}

/// The outcomes of runs on the network without arcs.
fn count_without_arcs<H: Threads + Sync>(
    alloc: Global,
    rt: &H,
    many: bool,
) -> Result<Count, AllocError> {
    let whole = unreached(alloc)?;
    count_of(alloc, rt, Asked::NoArcs(&whole), many, 0, 220, 512)
}

#[test]
fn arrays_of_the_first_problem(rt: HostRuntime) -> Result<(), Fail> {
    for many in [false, true] {
        let count = count_without_arcs(rt.alloc(), &rt, many)?;
        assert!(rt; count.is_refused_at_least(5), "{count}");
    }
    Ok(())
}

#[test]
fn second_problem(rt: HostRuntime) -> Result<(), Fail> {
    for many in [false, true] {
        // This few nodes are searched by one thread, even if two workers are asked for.
        let count = count_of(rt.alloc(), &rt, Asked::TwoSources, many, 0, 300, 16)?;
        assert!(rt; count.is_refused_at_least(10), "{count}");
    }
    Ok(())
}

#[test]
fn second_pair(rt: HostRuntime) -> Result<(), Fail> {
    for many in [false, true] {
        // This few nodes are searched by one thread, even if two workers are asked for.
        let count = count_of(rt.alloc(), &rt, Asked::TwoPairs, many, 0, 600, 8)?;
        assert!(rt; count.is_refused_at_least(10), "{count}");
    }
    Ok(())
}
