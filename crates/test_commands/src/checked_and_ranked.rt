//! Tests of the calls that check reports and write rank errors.
ghost use Rattle.std.specs.Prelude.{◌≤◌};
ghost use Rattle.ea_options.specs.Limits.{AreOptions};

use ea_blocks::{FaultKind, InputFault, ReadFault};
use ea_bytes::{StdIn, StdOut};
use earliest::{
    AnswerFault, CheckFault, Direction, FileWord, OptionalFiles, RunOptions, check_report,
    rank_report,
};
use std::alloc::Global;
use std::io::{self, Error, ErrorKind, Read, Write};
use std::test::Fail;
use std::thread::Threads;

const FOUR_NODES: &[u8] = b"p sp 4 5\na 1 2 7\na 1 3 2\na 3 2 3\na 2 4 1\na 3 4 9\n";

const SOURCE: &[u8] = b"p aux sp ss 1\ns 1\n";

const TWO_SOURCES: &[u8] = b"p aux sp ss 2\ns 1\ns 4\n";

const REPORT: &[u8] = b"s 1 0\nd 1 0\nd 2 5\nd 3 2\nd 4 6\n";

const HORIZON: u64 = 281_474_976_710_655;

/// One worker with two heaps, and departures from a time on.
fn options_from(depart: u64, gap: u64) -> RunOptions
    requires { (depart ≤ 281474976710655) × (gap ≤ 281474976710655) }
    ensures { AreOptions result }
{
    RunOptions {
        joint: false,
        walks: false,
        stats: false,
        progress: false,
        workers: Some(1),
        at_once: None,
        batch: None,
        prepare: None,
        heaps: 2,
        turns: 100,
        seed: 1,
        depart,
        gap,
        direction: Direction::Forward,
    }
}

/// A reader of std that fails.
#[derive(Drop)]
struct Failing;

impl Read for Failing {
    fn read(&mut self, _buf: &mut [u8]) -> io::Result<usize> {
        Err(Error::from(ErrorKind::Other))
    }
}

/// The verdict on a report of four-nodes.
fn said_of<H: Threads + Sync>(
    alloc: Global,
    rt: &H,
    report: &[u8],
) -> Result<Result<(), CheckFault>, AnswerFault> {
    let mut gr = StdIn::new(FOUR_NODES);
    let mut ss = StdIn::new(SOURCE);
    let mut others: OptionalFiles<StdIn<&[u8]>> = OptionalFiles::only_tp(None);
    let mut report = StdIn::new(report);
    let options = options_from(0, 0);
    check_report(
        alloc,
        rt,
        &mut gr,
        &mut ss,
        &mut others,
        &options,
        &mut report,
    )
}

#[test]
fn check_verdicts(rt: HostRuntime) {
    let alloc = rt.alloc();
    assert_eq!(rt; said_of(alloc, &rt, REPORT), Ok(Ok(())));
    let late = b"s 1 0\nd 1 0\nd 2 5\nd 3 2\nd 4 7\n";
    assert_eq!(rt;
        said_of(alloc, &rt, late),
        Ok(Err(CheckFault::NotAttained(5)))
    );
    let early = b"s 1 0\nd 1 0\nd 2 5\nd 3 2\nd 4 5\n";
    assert_eq!(rt;
        said_of(alloc, &rt, early),
        Ok(Err(CheckFault::NotAttained(5)))
    );
    let not_least = b"s 1 0\nd 1 0\nd 2 7\nd 3 2\nd 4 8\n";
    assert_eq!(rt;
        said_of(alloc, &rt, not_least),
        Ok(Err(CheckFault::NotLeast(3)))
    );
    let unreached = b"s 1 0\nd 1 0\nd 2 5\nd 3 2\nd 4 inf\n";
    assert_eq!(rt;
        said_of(alloc, &rt, unreached),
        Ok(Err(CheckFault::NotLeast(5)))
    );
    let short = b"s 1 0\nd 1 0\nd 2 5\nd 4 6\n";
    assert_eq!(rt; said_of(alloc, &rt, short), Ok(Err(CheckFault::BadLine(4))));
}

#[test]
fn check_form(rt: HostRuntime) {
    let alloc = rt.alloc();
    assert_eq!(rt; said_of(alloc, &rt, b""), Ok(Err(CheckFault::BadLine(0))));
    let more = b"s 1 0\nd 1 0\nd 2 5\nd 3 2\nd 4 6\ns 1 0\n";
    assert_eq!(rt; said_of(alloc, &rt, more), Ok(Err(CheckFault::BadLine(6))));
    let beyond = b"s 1 0\nd 1 0\nd 2 281474976710656\nd 3 2\nd 4 6\n";
    assert_eq!(rt;
        said_of(alloc, &rt, beyond),
        Ok(Err(CheckFault::BadLine(3)))
    );
    let walk = b"s 1 0\nd 1 0\nd 2 5\nd 3 2\nw 3 1 1\nd 4 6\n";
    assert_eq!(rt;
        said_of(alloc, &rt, walk),
        Ok(Err(CheckFault::NotAttained(5)))
    );
}

/// The verdict on a report of two-ways-to-fifteen, departing at 1.
fn said_of_fifteen<H: Threads + Sync>(
    alloc: Global,
    rt: &H,
    report: &[u8],
) -> Result<Result<(), CheckFault>, AnswerFault> {
    let mut gr = StdIn::new(b"p sp 4 4\na 1 2 4\na 1 3 1\na 3 2 1\na 2 4 5\n".as_slice());
    let mut ss = StdIn::new(SOURCE);
    let mut others = OptionalFiles::only_tp(Some(StdIn::new(
        b"p tp 1 1\nk 1 every 10 0\nt 4 1\n".as_slice(),
    )));
    let mut report = StdIn::new(report);
    let options = options_from(1, 0);
    check_report(
        alloc,
        rt,
        &mut gr,
        &mut ss,
        &mut others,
        &options,
        &mut report,
    )
}

#[test]
fn check_canonical(rt: HostRuntime) {
    let alloc = rt.alloc();
    let other = b"s 1 1\nd 1 1\nd 2 3\nd 3 2\nd 4 15\nw 4 2 1 4\n";
    assert_eq!(rt;
        said_of_fifteen(alloc, &rt, other),
        Ok(Err(CheckFault::NotCanonical(6)))
    );
    let canonical = b"s 1 1\nd 1 1\nd 2 3\nd 3 2\nd 4 15\nw 4 3 2 3 4\n";
    assert_eq!(rt; said_of_fifteen(alloc, &rt, canonical), Ok(Ok(())));
}

#[test]
fn check_faults_come_in_order(rt: HostRuntime) {
    let alloc = rt.alloc();
    let unread = AnswerFault::Read {
        file: FileWord::Report,
        fault: ReadFault::ReadFailed,
    };
    // The second source departs too late, which is found after the report is read.
    let late = options_from(HORIZON, 1);
    let mut gr = StdIn::new(FOUR_NODES);
    let mut ss = StdIn::new(TWO_SOURCES);
    let mut others: OptionalFiles<StdIn<&[u8]>> = OptionalFiles::only_tp(None);
    let mut failing = StdIn::new(Failing);
    assert_eq!(rt;
        check_report(
            alloc,
            &rt,
            &mut gr,
            &mut ss,
            &mut others,
            &late,
            &mut failing
        ),
        Err(unread)
    );
    let mut gr = StdIn::new(FOUR_NODES);
    let mut ss = StdIn::new(TWO_SOURCES);
    let mut report = StdIn::new(REPORT);
    assert_eq!(rt;
        check_report(
            alloc,
            &rt,
            &mut gr,
            &mut ss,
            &mut others,
            &late,
            &mut report
        ),
        Err(AnswerFault::BadOption)
    );
    let mut gr = StdIn::new(b"p max 4 5\n".as_slice());
    let mut ss = StdIn::new(SOURCE);
    let mut failing = StdIn::new(Failing);
    let bad = AnswerFault::Input {
        file: FileWord::Gr,
        fault: InputFault {
            line: 1,
            kind: FaultKind::BadKind,
        },
    };
    assert_eq!(rt;
        check_report(
            alloc,
            &rt,
            &mut gr,
            &mut ss,
            &mut others,
            &late,
            &mut failing
        ),
        Err(bad)
    );
}

/// The rank errors of four-nodes, into a writer.
fn rank<W: Write>(alloc: Global, sources: &[u8], out: &mut StdOut<W>) -> Result<(), AnswerFault> {
    let mut gr = StdIn::new(FOUR_NODES);
    let mut ss = StdIn::new(sources);
    let mut tp: Option<StdIn<&[u8]>> = None;
    let options = options_from(0, 0);
    rank_report(alloc, &mut gr, &mut ss, &mut tp, &options, out)
}

#[test]
fn rank_command(rt: HostRuntime) -> Result<(), Fail> {
    let mut room = [0u8; 64];
    let mut out = StdOut::new(room.as_mut_slice());
    assert_eq!(rt; rank(rt.alloc(), SOURCE, &mut out), Ok(()));
    let wanted = b"s 1 0\nr 6 0 0\n";
    assert!(rt; room[..wanted.len()] == wanted[..]);
    assert!(rt; room[wanted.len()] == 0);
    Ok(())
}

#[test]
fn rank_into_failing_devices(rt: HostRuntime) {
    let wanted = b"s 1 0\nr 6 0 0\ns 4 0\nr 1 0 0\n";
    for k in 0..28usize {
        let mut room = [0u8; 28];
        let mut out = StdOut::new(&mut room[..k]);
        let fault = AnswerFault::Write { written: k as u128 };
        assert_eq!(rt; rank(rt.alloc(), TWO_SOURCES, &mut out), Err(fault), "{k}");
        assert!(rt; room[..k] == wanted[..k], "{k}");
    }
}

/// A writer of std that is interrupted this often at its first byte, and at the first of the second source's
/// lines.
#[derive(Drop)]
struct Interrupted {
    first: u64,
    second: u64,
    taken: usize,
}

impl Write for Interrupted {
    fn write(&mut self, buf: &[u8]) -> io::Result<usize> {
        if self.first > 0 {
            self.first -= 1;
            return Err(Error::from(ErrorKind::Interrupted));
        }
        if self.taken == 14 && self.second > 0 {
            self.second -= 1;
            return Err(Error::from(ErrorKind::Interrupted));
        }
        self.taken = self.taken.saturating_add(buf.len().min(1));
        Ok(buf.len().min(1))
    }

    fn flush(&mut self) -> io::Result<()> {
        Ok(())
    }
}

#[test]
fn interruptions_count_over_all_sources(rt: HostRuntime) {
    let mut borne = StdOut::new(Interrupted {
        first: 600,
        second: 400,
        taken: 0,
    });
    assert_eq!(rt; rank(rt.alloc(), TWO_SOURCES, &mut borne), Ok(()));
    let mut too_many = StdOut::new(Interrupted {
        first: 600,
        second: 401,
        taken: 0,
    });
    let fault = AnswerFault::Write { written: 14 };
    assert_eq!(rt; rank(rt.alloc(), TWO_SOURCES, &mut too_many), Err(fault));
}
