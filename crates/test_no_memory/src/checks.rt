//! Checks of reports whose growths are refused.
use crate::counts::{Came, Count, taken};
use crate::devices::Taking;
use crate::given::{FOUR_NODES, FROM_ONE, NO_ARCS, unreached, walks_by};
use ea_bytes::StdIn;
use earliest::{AnswerFault, CheckFault, OptionalFiles, check_report};
use std::alloc::{AllocError, Global};
use std::test::Fail;
use std::thread::Threads;
use test_support::memory::Held;

/// If memory is refused for a line of the report, that is the outcome; if for the check itself, it is the
/// verdict, whatever the report has.
fn came_of(
    verdict: Result<Result<(), CheckFault>, AnswerFault>,
    wanted: Result<(), CheckFault>,
) -> Came {
    match verdict {
        Ok(Err(CheckFault::OutOfMemory)) => Came::Refused,
        Err(AnswerFault::OutOfMemory { written: 0 }) => Came::Refused,
        Ok(verdict) if verdict == wanted => Came::Whole,
        _ => Came::Wrong,
    }
}

/// A check of the network without arcs; its report takes memory at its end.
fn unreached_with<H: Threads + Sync>(
    alloc: Global,
    rt: &H,
    report: &[u8],
    wanted: Result<(), CheckFault>,
    held: &mut Held,
    piece: Vec<u8>,
) -> Came {
    let options = walks_by(false);
    let mut gr = StdIn::new(NO_ARCS);
    let mut ss = StdIn::new(FROM_ONE);
    let mut others: OptionalFiles<StdIn<&[u8]>> = OptionalFiles::only_tp(None);
    let mut report = StdIn::new(Taking {
        bytes: report,
        held,
        piece: Some(piece),
    });
    let verdict = check_report(
        alloc,
        rt,
        &mut gr,
        &mut ss,
        &mut others,
        &options,
        &mut report,
    );
    came_of(verdict, wanted)
}

/// The outcomes of checks of the report of the network without arcs, with more lines at its end.
fn count_unreached<H: Threads + Sync>(
    alloc: Global,
    rt: &H,
    more: &[u8],
    wanted: Result<(), CheckFault>,
) -> Result<Count, AllocError> {
    let mut report = unreached(alloc)?;
    report.extend_from_slice(more)?;
    let (mut small, sizes, mut large) = taken(alloc, 0, 110, 4_095)?;
    let mut count = Count::new();
    for piece in sizes {
        count.add(unreached_with(alloc, rt, &report, wanted, &mut small, piece));
        small.release();
    }
    large.release();
    Ok(count)
}

#[test]
fn check_of_a_report(rt: HostRuntime) -> Result<(), Fail> {
    let cases: [(&[u8], Result<(), CheckFault>); 2] = [
        (b"", Ok(())),
        (b"s 1 0\n", Err(CheckFault::BadLine(2_002))),
    ];
    for (more, wanted) in cases {
        let count = count_unreached(rt.alloc(), &rt, more, wanted)?;
        assert!(rt; count.is_refused_at_least(3), "{count}");
    }
    Ok(())
}

/// A check of four-nodes, with memory taken at its beginning.
fn four_with<H: Threads + Sync>(alloc: Global, rt: &H, held: &mut Held, piece: Vec<u8>) -> Came {
    let options = walks_by(false);
    let mut gr = StdIn::new(FOUR_NODES);
    let mut ss = StdIn::new(FROM_ONE);
    let mut others: OptionalFiles<StdIn<&[u8]>> = OptionalFiles::only_tp(None);
    let mut report = StdIn::new(b"s 1 0\nd 1 0\nd 2 5\nd 3 2\nd 4 6\n".as_slice());
    held.leave(piece);
    match check_report(
        alloc,
        rt,
        &mut gr,
        &mut ss,
        &mut others,
        &options,
        &mut report,
    ) {
        Err(AnswerFault::OutOfMemory { written: 0 }) => Came::Refused,
        verdict => came_of(verdict, Ok(())),
    }
}

/// The outcomes of such checks.
fn count_four<H: Threads + Sync>(alloc: Global, rt: &H) -> Result<Count, AllocError> {
    let (mut small, sizes, mut large) = taken(alloc, 65_500, 200, 16)?;
    let mut count = Count::new();
    for piece in sizes {
        count.add(four_with(alloc, rt, &mut small, piece));
        small.release();
    }
    large.release();
    Ok(count)
}

#[test]
fn files_of_a_check(rt: HostRuntime) -> Result<(), Fail> {
    let count = count_four(rt.alloc(), &rt)?;
    assert!(rt; count.is_refused_at_least(5), "{count}");
    Ok(())
}
