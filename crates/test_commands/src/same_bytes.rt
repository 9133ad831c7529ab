//! Reports that don't depend on workers, heaps, turns and seed.
use crate::asked::{FROM_ONE, GRAPH, Texts, WALKS, from_one, reports, reports_pairs};
use earliest::RunOptions;
use std::thread::Threads;

/// The files of a run or of pairs, the departure of the first source, and the report with walks.
#[derive(Clone, Copy)]
struct Case<'a> {
    texts: Texts<'a>,
    pairs: bool,
    depart: u64,
    report: &'a [u8],
}

/// A run from node 1 at 0 over plain arcs.
fn plain<'a>(gr: &'a [u8], report: &'a [u8]) -> Case<'a> {
    Case {
        texts: from_one(gr),
        pairs: false,
        depart: 0,
        report,
    }
}

/// A run from node 1 with timetables.
fn timed<'a>(gr: &'a [u8], tp: &'a [u8], depart: u64, report: &'a [u8]) -> Case<'a> {
    Case {
        texts: Texts {
            gr,
            starts: FROM_ONE,
            tp: Some(tp),
        },
        pairs: false,
        depart,
        report,
    }
}

/// Whether a case has its report with these settings.
fn has_report<H: Threads + Sync>(
    rt: &HostRuntime,
    threads: &H,
    case: &Case<'_>,
    workers: u64,
    heaps: u64,
    turns: u64,
    seed: u64,
) -> bool {
    let options = RunOptions {
        workers: Some(workers),
        heaps,
        turns,
        seed,
        depart: case.depart,
        ..WALKS
    };
    if workers < 1 || workers > 16 || heaps < 2 || heaps > 8 || turns > 100 || case.depart > 100 {
        return false;
    }
    if case.pairs {
        reports_pairs(rt, threads, case.texts, &options, case.report)
    } else {
        reports(rt, threads, case.texts, &options, case.report)
    }
}

/// How many of 90 settings give a case its report.
fn count_of<H: Threads + Sync>(rt: &HostRuntime, threads: &H, case: &Case<'_>) -> u32 {
    let mut count: u32 = 0;
    for workers in [1u64, 2, 4] {
        for heaps in [2u64, 8] {
            for turns in [0u64, 1, 100] {
                for seed in 1..6u64 {
                    if has_report(rt, threads, case, workers, heaps, turns, seed) {
                        count = count.wrapping_add(1);
                    }
                }
            }
        }
    }
    count
}

#[test]
fn plain_arcs(rt: HostRuntime) {
    let cases = [
        plain(
            GRAPH,
            b"s 1 0\nd 1 0\nw 1 0\nd 2 5\nw 2 2 2 3\nd 3 2\nw 3 1 2\nd 4 6\nw 4 3 2 3 4\n",
        ),
        plain(
            b"p sp 3 4\na 1 2 4\na 2 3 0\na 3 2 0\na 1 3 4\n",
            b"s 1 0\nd 1 0\nw 1 0\nd 2 4\nw 2 1 1\nd 3 4\nw 3 1 4\n",
        ),
        plain(
            b"p sp 4 4\na 1 2 1\na 1 3 1\na 3 4 1\na 2 4 1\n",
            b"s 1 0\nd 1 0\nw 1 0\nd 2 1\nw 2 1 1\nd 3 1\nw 3 1 2\nd 4 2\nw 4 2 2 3\n",
        ),
        plain(
            b"p sp 3 3\na 1 2 0\na 2 3 0\na 1 3 0\n",
            b"s 1 0\nd 1 0\nw 1 0\nd 2 0\nw 2 1 1\nd 3 0\nw 3 1 3\n",
        ),
    ];
    for case in &cases {
        assert_eq!(rt; count_of(&rt, &rt, case), 90);
    }
}

#[test]
fn timetables(rt: HostRuntime) {
    let two_ways = timed(
        b"p sp 4 4\na 1 2 4\na 1 3 1\na 3 2 1\na 2 4 5\n",
        b"p tp 1 1\nk 1 every 10 0\nt 4 1\n",
        1,
        b"s 1 1\nd 1 1\nw 1 0\nd 2 3\nw 2 2 2 3\nd 3 2\nw 3 1 2\nd 4 15\nw 4 3 2 3 4\n",
    );
    assert_eq!(rt; count_of(&rt, &rt, &two_ways), 90);
    let parallel: &[u8] = b"p sp 2 2\na 1 2 1\na 1 2 50\n";
    let every_hundred: &[u8] = b"p tp 1 1\nk 1 every 100 0\nt 1 1\n";
    let at_one = timed(
        parallel,
        every_hundred,
        1,
        b"s 1 1\nd 1 1\nw 1 0\nd 2 51\nw 2 1 2\n",
    );
    assert_eq!(rt; count_of(&rt, &rt, &at_one), 90);
    let at_hundred = timed(
        parallel,
        every_hundred,
        100,
        b"s 1 100\nd 1 100\nw 1 0\nd 2 101\nw 2 1 1\n",
    );
    assert_eq!(rt; count_of(&rt, &rt, &at_hundred), 90);
}

#[test]
fn cut_at_equal_keys(rt: HostRuntime) {
    let case = Case {
        texts: Texts {
            gr: b"p sp 6 6\na 1 4 3\na 4 5 0\na 5 3 0\na 1 2 1\na 2 6 1\na 6 3 1\n",
            starts: b"p aux sp p2p 1\nq 1 3\n",
            tp: None,
        },
        pairs: true,
        depart: 0,
        report: b"q 1 3 0\nd 3 3\nw 3 3 1 2 3\n",
    };
    assert_eq!(rt; count_of(&rt, &rt, &case), 90);
}
