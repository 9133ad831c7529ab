//! Statistics of a run.
use crate::asked::{DEFAULTS, GRAPH, Texts, from_one, holds, reports, run};
use earliest::{AnswerFault, RunOptions, Totals};

/// The graph of four nodes, from node 1 and from node 4.
const FROM_TWO: Texts<'static> = Texts {
    gr: GRAPH,
    starts: b"p aux sp ss 2\ns 1\ns 4\n",
    tp: None,
};

#[test]
fn no_turns(rt: HostRuntime) {
    let options = RunOptions {
        turns: 0,
        stats: true,
        ..DEFAULTS
    };
    let report =
        b"s 1 0\nd 1 0\nd 2 5\nd 3 2\nd 4 6\nc seeded 1\nc pushed 0\nc popped 0\nc stale 0\nc scanned 0\nc returned 0\nc drained 1\nc finish 1\n";
    assert!(rt; reports(&rt, &rt, from_one(GRAPH), &options, report));
}

#[test]
fn one_worker(rt: HostRuntime) {
    let options = RunOptions {
        workers: Some(1),
        turns: 100,
        stats: true,
        ..DEFAULTS
    };
    let mut room = [0u8; 512];
    let totals = Totals {
        seeded: 1,
        pushed: 5,
        popped: 6,
        stale: 2,
        scanned: 4,
        returned: 0,
        drained: 0,
        finish: 0,
    };
    let answered = run(&rt, &rt, from_one(GRAPH), &options, room.as_mut_slice());
    assert_eq!(rt; answered, Ok(totals));
    let report =
        b"s 1 0\nd 1 0\nd 2 5\nd 3 2\nd 4 6\nc seeded 1\nc pushed 5\nc popped 6\nc stale 2\nc scanned 4\nc returned 0\nc drained 0\nc finish 0\n";
    assert!(rt; holds(room.as_slice(), report));
}

#[test]
fn no_turns_for_two_sources(rt: HostRuntime) {
    let options = RunOptions {
        turns: 0,
        stats: true,
        ..DEFAULTS
    };
    let report =
        b"s 1 0\nd 1 0\nd 2 5\nd 3 2\nd 4 6\ns 4 0\nd 1 inf\nd 2 inf\nd 3 inf\nd 4 0\nc seeded 2\nc pushed 0\nc popped 0\nc stale 0\nc scanned 0\nc returned 0\nc drained 2\nc finish 2\n";
    assert!(rt; reports(&rt, &rt, FROM_TWO, &options, report));
}

/// The report of one worker for each of two sources.
const BY_ONE_EACH: &[u8] =
    b"s 1 0\nd 1 0\nd 2 5\nd 3 2\nd 4 6\ns 4 0\nd 1 inf\nd 2 inf\nd 3 inf\nd 4 0\nc seeded 2\nc pushed 5\nc popped 7\nc stale 2\nc scanned 5\nc returned 0\nc drained 0\nc finish 0\n";

#[test]
fn one_worker_for_two_sources(rt: HostRuntime) {
    let options = RunOptions {
        workers: Some(1),
        turns: 100,
        stats: true,
        ..DEFAULTS
    };
    assert!(rt; reports(&rt, &rt, FROM_TWO, &options, BY_ONE_EACH));
}

#[test]
fn two_sources_at_once_have_one_worker_each(rt: HostRuntime) {
    let options = RunOptions {
        workers: None,
        at_once: Some(2),
        turns: 100,
        stats: true,
        ..DEFAULTS
    };
    assert!(rt; reports(&rt, &rt, FROM_TWO, &options, BY_ONE_EACH));
}

#[test]
fn several_workers_for_two_sources(rt: HostRuntime) -> Result<(), AnswerFault> {
    for workers in [2u64, 4, 16] {
        let options = RunOptions {
            workers: Some(workers),
            stats: true,
            ..DEFAULTS
        };
        let mut room = [0u8; 512];
        let totals = run(&rt, &rt, FROM_TWO, &options, room.as_mut_slice())?;
        assert_eq!(rt; (totals.seeded, totals.returned), (2, 0));
        assert_eq!(rt;
            totals.seeded.wrapping_add(totals.pushed),
            totals.popped.wrapping_add(totals.drained)
        );
        assert_eq!(rt; totals.popped, totals.stale.wrapping_add(totals.scanned));
    }
    Ok(())
}
