//! Arrivals, walks and reports.
use crate::asked::{DEFAULTS, FROM_ONE, GRAPH, Texts, WALKS, from_one, reports, reports_pairs};
use earliest::RunOptions;

#[test]
fn four_nodes(rt: HostRuntime) {
    let report = b"s 1 0\nd 1 0\nd 2 5\nd 3 2\nd 4 6\n";
    assert!(rt; reports(&rt, &rt, from_one(GRAPH), &DEFAULTS, report));
    let with_walks = b"s 1 0\nd 1 0\nw 1 0\nd 2 5\nw 2 2 2 3\nd 3 2\nw 3 1 2\nd 4 6\nw 4 3 2 3 4\n";
    assert!(rt; reports(&rt, &rt, from_one(GRAPH), &WALKS, with_walks));
}

#[test]
fn odd_white_space(rt: HostRuntime) {
    let graph =
        b"c\r\n\r\np\tsp  4 05\r\nc x\r\na 1 2 7\r\n a 1 3 2 \r\na 3 2 3\r\na 2 4 01\r\na 3 4 9";
    let report = b"s 1 0\nd 1 0\nd 2 5\nd 3 2\nd 4 6\n";
    assert!(rt; reports(&rt, &rt, from_one(graph), &DEFAULTS, report));
}

#[test]
fn no_sources(rt: HostRuntime) {
    let texts = Texts {
        gr: GRAPH,
        starts: b"p aux sp ss 0",
        tp: None,
    };
    assert!(rt; reports(&rt, &rt, texts, &DEFAULTS, b""));
    let joint = RunOptions {
        joint: true,
        ..DEFAULTS
    };
    assert!(rt;
        reports(
            &rt,
            &rt,
            texts,
            &joint,
            b"d 1 inf\nd 2 inf\nd 3 inf\nd 4 inf\n"
        )
    );
}

#[test]
fn every_ten(rt: HostRuntime) {
    let texts = Texts {
        gr: b"p sp 2 1\na 1 2 3\n",
        starts: FROM_ONE,
        tp: Some(b"p tp 1 1\nk 1 every 10 0\nt 1 1\n"),
    };
    assert!(rt; reports(&rt, &rt, texts, &DEFAULTS, b"s 1 0\nd 1 0\nd 2 3\n"));
    let at_one = RunOptions {
        depart: 1,
        ..DEFAULTS
    };
    assert!(rt; reports(&rt, &rt, texts, &at_one, b"s 1 1\nd 1 1\nd 2 13\n"));
    let at_ten = RunOptions {
        depart: 10,
        ..DEFAULTS
    };
    assert!(rt; reports(&rt, &rt, texts, &at_ten, b"s 1 10\nd 1 10\nd 2 13\n"));
}

#[test]
fn two_ways_to_fifteen(rt: HostRuntime) {
    let texts = Texts {
        gr: b"p sp 4 4\na 1 2 4\na 1 3 1\na 3 2 1\na 2 4 5\n",
        starts: FROM_ONE,
        tp: Some(b"p tp 1 1\nk 1 every 10 0\nt 4 1\n"),
    };
    let options = RunOptions { depart: 1, ..WALKS };
    let report = b"s 1 1\nd 1 1\nw 1 0\nd 2 3\nw 2 2 2 3\nd 3 2\nw 3 1 2\nd 4 15\nw 4 3 2 3 4\n";
    assert!(rt; reports(&rt, &rt, texts, &options, report));
}

#[test]
fn parallel_arcs(rt: HostRuntime) {
    let texts = Texts {
        gr: b"p sp 2 2\na 1 2 1\na 1 2 50\n",
        starts: FROM_ONE,
        tp: Some(b"p tp 1 1\nk 1 every 100 0\nt 1 1\n"),
    };
    let at_one = RunOptions { depart: 1, ..WALKS };
    assert!(rt;
        reports(
            &rt,
            &rt,
            texts,
            &at_one,
            b"s 1 1\nd 1 1\nw 1 0\nd 2 51\nw 2 1 2\n"
        )
    );
    let at_hundred = RunOptions {
        depart: 100,
        ..WALKS
    };
    let report = b"s 1 100\nd 1 100\nw 1 0\nd 2 101\nw 2 1 1\n";
    assert!(rt; reports(&rt, &rt, texts, &at_hundred, report));
}

#[test]
fn cycles_and_loops(rt: HostRuntime) {
    let cycle = b"p sp 3 4\na 1 2 4\na 2 3 0\na 3 2 0\na 1 3 4\n";
    let report = b"s 1 0\nd 1 0\nw 1 0\nd 2 4\nw 2 1 1\nd 3 4\nw 3 1 4\n";
    assert!(rt; reports(&rt, &rt, from_one(cycle), &WALKS, report));
    let round = b"p sp 2 1\na 1 1 0\n";
    assert!(rt;
        reports(
            &rt,
            &rt,
            from_one(round),
            &DEFAULTS,
            b"s 1 0\nd 1 0\nd 2 inf\n"
        )
    );
}

#[test]
fn at_and_past_the_horizon(rt: HostRuntime) {
    let options = RunOptions {
        depart: 281_474_976_710_655,
        ..DEFAULTS
    };
    let at = b"s 1 281474976710655\nd 1 281474976710655\nd 2 281474976710655\n";
    assert!(rt; reports(&rt, &rt, from_one(b"p sp 2 1\na 1 2 0\n"), &options, at));
    let past = b"s 1 281474976710655\nd 1 281474976710655\nd 2 inf\n";
    assert!(rt; reports(&rt, &rt, from_one(b"p sp 2 1\na 1 2 1\n"), &options, past));
}

#[test]
fn joint_gap(rt: HostRuntime) {
    let texts = Texts {
        gr: b"p sp 2 1\na 1 2 3\n",
        starts: b"p aux sp ss 2\ns 1\ns 2\n",
        tp: None,
    };
    let joint = RunOptions {
        joint: true,
        gap: 5,
        ..DEFAULTS
    };
    assert!(rt; reports(&rt, &rt, texts, &joint, b"s 1 0\ns 2 5\nd 1 0\nd 2 3\n"));
    let each = RunOptions { gap: 5, ..DEFAULTS };
    let report = b"s 1 0\nd 1 0\nd 2 3\ns 2 5\nd 1 inf\nd 2 5\n";
    assert!(rt; reports(&rt, &rt, texts, &each, report));
}

#[test]
fn canonical_ties(rt: HostRuntime) {
    let two_ways = b"p sp 4 4\na 1 2 1\na 1 3 1\na 3 4 1\na 2 4 1\n";
    let report = b"s 1 0\nd 1 0\nw 1 0\nd 2 1\nw 2 1 1\nd 3 1\nw 3 1 2\nd 4 2\nw 4 2 2 3\n";
    assert!(rt; reports(&rt, &rt, from_one(two_ways), &WALKS, report));
    let zeros = b"p sp 3 3\na 1 2 0\na 2 3 0\na 1 3 0\n";
    let report = b"s 1 0\nd 1 0\nw 1 0\nd 2 0\nw 2 1 1\nd 3 0\nw 3 1 3\n";
    assert!(rt; reports(&rt, &rt, from_one(zeros), &WALKS, report));
}

#[test]
fn pairs(rt: HostRuntime) {
    let two = Texts {
        gr: GRAPH,
        starts: b"p aux sp p2p 2\nq 1 4\nq 4 1\n",
        tp: None,
    };
    let report = b"q 1 4 0\nd 4 6\nq 4 1 0\nd 1 inf\n";
    assert!(rt; reports_pairs(&rt, &rt, two, &DEFAULTS, report));
    let same = Texts {
        gr: GRAPH,
        starts: b"p aux sp p2p 1\nq 1 1\n",
        tp: None,
    };
    assert!(rt; reports_pairs(&rt, &rt, same, &WALKS, b"q 1 1 0\nd 1 0\nw 1 0\n"));
    let later = RunOptions { gap: 7, ..DEFAULTS };
    let report = b"q 1 4 0\nd 4 6\nq 4 1 7\nd 1 inf\n";
    assert!(rt; reports_pairs(&rt, &rt, two, &later, report));
}

#[test]
fn cut_at_equal_keys(rt: HostRuntime) {
    let texts = Texts {
        gr: b"p sp 6 6\na 1 4 3\na 4 5 0\na 5 3 0\na 1 2 1\na 2 6 1\na 6 3 1\n",
        starts: b"p aux sp p2p 1\nq 1 3\n",
        tp: None,
    };
    let options = RunOptions {
        workers: Some(1),
        ..WALKS
    };
    assert!(rt; reports_pairs(&rt, &rt, texts, &options, b"q 1 3 0\nd 3 3\nw 3 3 1 2 3\n"));
}
