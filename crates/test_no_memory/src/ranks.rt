//! Rank errors whose growths are refused.
use crate::counts::{Came, Trial, count_of};
use crate::devices::Greedy;
use crate::given::{FOUR_NODES, FROM_ONE, holds, walks_by};
use ea_bytes::{StdIn, StdOut};
use earliest::{AnswerFault, rank_report};
use std::alloc::Global;
use std::test::Fail;
use test_support::memory::Held;

/// The outcome: whole with the whole text, or refused with its first bytes and their number.
fn came_of(ranked: Result<(), AnswerFault>, room: &[u8], front: &[u8], whole: &[u8]) -> Came {
    let refused = AnswerFault::OutOfMemory {
        written: front.len() as u128,
    };
    match ranked {
        Ok(()) if holds(room, whole) => Came::Whole,
        Err(fault) if fault == refused && holds(room, front) => Came::Refused,
        _ => Came::Wrong,
    }
}

/// The rank errors of one source, with memory taken at their beginning.
#[derive(Clone, Copy)]
struct OneSource;

impl Trial for OneSource {
    fn came(&mut self, alloc: Global, held: &mut Held, piece: Vec<u8>) -> Came {
        let options = walks_by(false);
        let mut gr = StdIn::new(FOUR_NODES);
        let mut ss = StdIn::new(FROM_ONE);
        let mut tp: Option<StdIn<&[u8]>> = None;
        let mut room = [0u8; 32];
        let mut out = StdOut::new(room.as_mut_slice());
        held.leave(piece);
        let ranked = rank_report(alloc, &mut gr, &mut ss, &mut tp, &options, &mut out);
        came_of(ranked, room.as_slice(), b"", b"s 1 0\nr 6 0 0\n")
    }
}

#[test]
fn files_and_first_source(rt: HostRuntime) -> Result<(), Fail> {
    let count = count_of(rt.alloc(), &mut OneSource, 65_500, 200, 16)?;
    assert!(rt; count.is_refused_at_least(5), "{count}");
    Ok(())
}

/// The rank errors of two sources; the writer takes memory at its first call.
#[derive(Clone, Copy)]
struct TwoSources;

impl Trial for TwoSources {
    fn came(&mut self, alloc: Global, held: &mut Held, piece: Vec<u8>) -> Came {
        let front = b"s 1 0\nr 6 0 0\n";
        let whole = b"s 1 0\nr 6 0 0\ns 4 0\nr 1 0 0\n";
        let options = walks_by(false);
        let mut gr = StdIn::new(FOUR_NODES);
        let mut ss = StdIn::new(b"p aux sp ss 2\ns 1\ns 4\n".as_slice());
        let mut tp: Option<StdIn<&[u8]>> = None;
        let mut room = [0u8; 64];
        let mut out = StdOut::new(Greedy {
            room: room.as_mut_slice(),
            held,
            piece: Some(piece),
        });
        let ranked = rank_report(alloc, &mut gr, &mut ss, &mut tp, &options, &mut out);
        drop(out);
        came_of(ranked, room.as_slice(), front, whole)
    }
}

#[test]
fn second_source(rt: HostRuntime) -> Result<(), Fail> {
    let count = count_of(rt.alloc(), &mut TwoSources, 0, 200, 16)?;
    assert!(rt; count.is_refused_at_least(5), "{count}");
    Ok(())
}
