//! Devices that fail, and faults in their order.
use crate::asked::{DEFAULTS, FROM_ONE, GRAPH, Texts, from_one, holds, run, run_pairs};
use ea_blocks::{FaultKind, InputFault, ReadFault};
use ea_bytes::{StdIn, StdOut};
use earliest::{AnswerFault, FileWord, OptionalFiles, RunOptions, Totals, answer};
use std::io::{self, Error, ErrorKind, Read};

const REPORT: &[u8] = b"s 1 0\nd 1 0\nd 2 5\nd 3 2\nd 4 6\n";

#[test]
fn writer_of_seven_bytes(rt: HostRuntime) {
    let mut room = [0u8; 7];
    let answered = run(&rt, &rt, from_one(GRAPH), &DEFAULTS, room.as_mut_slice());
    assert_eq!(rt; answered, Err(AnswerFault::Write { written: 7 }));
    assert!(rt; room.as_slice() == b"s 1 0\nd".as_slice());
}

#[test]
fn failing_writers(rt: HostRuntime) {
    for k in 0..30usize {
        let mut room = [0u8; 30];
        let answered = run(&rt, &rt, from_one(GRAPH), &DEFAULTS, &mut room[..k]);
        assert_eq!(rt; answered, Err(AnswerFault::Write { written: k as u128 }));
        assert!(rt; room[..k] == REPORT[..k]);
    }
    let mut room = [0u8; 30];
    assert!(rt; run(&rt, &rt, from_one(GRAPH), &DEFAULTS, room.as_mut_slice()).is_ok());
    assert!(rt; holds(room.as_slice(), REPORT));
}

/// The report with the totals of a run with no turns.
const COUNTED: &[u8] =
    b"s 1 0\nd 1 0\nd 2 5\nd 3 2\nd 4 6\nc seeded 1\nc pushed 0\nc popped 0\nc stale 0\nc scanned 0\nc returned 0\nc drained 1\nc finish 1\n";

#[test]
fn failing_writers_of_totals(rt: HostRuntime) {
    let options = RunOptions {
        turns: 0,
        stats: true,
        ..DEFAULTS
    };
    for k in 30..121usize {
        let mut room = [0u8; 128];
        let answered = run(&rt, &rt, from_one(GRAPH), &options, &mut room[..k]);
        assert_eq!(rt; answered, Err(AnswerFault::Write { written: k as u128 }));
        assert!(rt; room[..k] == COUNTED[..k]);
    }
}

/// A reader of std that gives one byte at a time, this many times, and then fails.
#[derive(Drop)]
struct Failing<'a> {
    bytes: &'a [u8],
    left: u64,
}

impl Read for Failing<'_> {
    fn read(&mut self, buf: &mut [u8]) -> io::Result<usize> {
        if self.left == 0 {
            return Err(Error::from(ErrorKind::Other));
        }
        self.left -= 1;
        match (buf.first_mut(), self.bytes.split_first()) {
            (Some(place), Some((first, rest))) => {
                *place = *first;
                self.bytes = rest;
                Ok(1)
            }
            _ => Ok(0),
        }
    }
}

#[test]
fn failing_readers(rt: HostRuntime) {
    for k in 0..50u64 {
        let mut gr = StdIn::new(Failing {
            bytes: GRAPH,
            left: k,
        });
        let mut ss = StdIn::new(FROM_ONE);
        let mut others: OptionalFiles<StdIn<&[u8]>> = OptionalFiles::only_tp(None);
        let mut room = [0u8; 64];
        let mut out = StdOut::new(room.as_mut_slice());
        let answered = answer(
            rt.alloc(),
            &rt,
            &mut gr,
            &mut ss,
            &mut others,
            &DEFAULTS,
            &mut out,
        );
        let fault = AnswerFault::Read {
            file: FileWord::Gr,
            fault: ReadFault::ReadFailed,
        };
        assert_eq!(rt; answered, Err(fault));
        assert!(rt; holds(room.as_slice(), b""));
    }
}

/// Whether a run of these texts has this fault and writes nothing.
fn fails(
    rt: &HostRuntime,
    answered: Result<Totals, AnswerFault>,
    room: &[u8],
    fault: AnswerFault,
) -> bool {
    let _ = rt;
    answered == Err(fault) && holds(room, b"")
}

#[test]
fn faults_in_their_order(rt: HostRuntime) {
    let mut room = [0u8; 64];
    let bad_everywhere = Texts {
        gr: b"p sp 1",
        starts: b"p aux sp ss 1\ns 5\n",
        tp: Some(b""),
    };
    let in_graph = AnswerFault::Input {
        file: FileWord::Gr,
        fault: InputFault {
            line: 1,
            kind: FaultKind::FieldCount,
        },
    };
    let late = RunOptions {
        depart: 281_474_976_710_655,
        gap: 1,
        ..DEFAULTS
    };
    let answered = run(&rt, &rt, bad_everywhere, &late, room.as_mut_slice());
    assert!(rt; fails(&rt, answered, room.as_slice(), in_graph));
    let bad_source = Texts {
        gr: GRAPH,
        ..bad_everywhere
    };
    let in_sources = AnswerFault::Input {
        file: FileWord::Ss,
        fault: InputFault {
            line: 2,
            kind: FaultKind::OutOfRange,
        },
    };
    let answered = run(&rt, &rt, bad_source, &late, room.as_mut_slice());
    assert!(rt; fails(&rt, answered, room.as_slice(), in_sources));
    let bad_table = Texts {
        starts: b"p aux sp ss 2\ns 1\ns 2\n",
        ..bad_source
    };
    let in_table = AnswerFault::Input {
        file: FileWord::Tp,
        fault: InputFault {
            line: 0,
            kind: FaultKind::NoProblemLine,
        },
    };
    let answered = run(&rt, &rt, bad_table, &late, room.as_mut_slice());
    assert!(rt; fails(&rt, answered, room.as_slice(), in_table));
    let sound = Texts {
        tp: None,
        ..bad_table
    };
    let answered = run(&rt, &rt, sound, &late, room.as_mut_slice());
    assert!(rt; fails(&rt, answered, room.as_slice(), AnswerFault::BadOption));
    let in_pairs = AnswerFault::Input {
        file: FileWord::P2p,
        fault: InputFault {
            line: 1,
            kind: FaultKind::BadKind,
        },
    };
    let answered = run_pairs(&rt, &rt, sound, &DEFAULTS, room.as_mut_slice());
    assert!(rt; fails(&rt, answered, room.as_slice(), in_pairs));
}
