//! A watch is called for each problem, and changes nothing else.
ghost use Rattle.std.specs.Prelude.{◌≤◌, IfSome};
ghost use Rattle.ea_options.specs.Limits.{AreOptions, HasLimits};
ghost use Rattle.ea_messages.specs.Named.{HasFiles};

use crate::asked::{DEFAULTS, GRAPH, holds};
use ea_bytes::{StdIn, StdOut};
use earliest::{Command, Opened, OptionalFiles, RunOptions, Silent, Watch, perform};
use std::thread::Threads;

const THREE: &[u8] = b"p aux sp ss 3\ns 1\ns 2\ns 3\n";

const PAIRS: &[u8] = b"p aux sp p2p 2\nq 1 4\nq 2 4\n";

const WALKED: &[u8] =
    b"s 1 0\nd 1 0\nw 1 0\nd 2 5\nd 3 2\nd 4 6\nw 4 3 2 3 4\ns 2 0\nd 1 inf\nd 2 0\nd 3 inf\nd 4 1\ns 3 0\nd 1 inf\nd 2 3\nd 3 0\nd 4 4\n";

/// The calls of the watch.
#[derive(Clone, Copy, Debug, PartialEq, Eq, Drop)]
struct Told {
    calls: usize,
    done: usize,
    of: usize,
    /// Whether the number of problems done grew with each call.
    grows: bool,
    nodes: usize,
    walks: usize,
    /// How often a network was prepared, and how many nodes it had.
    preparations: usize,
    prepared: u32,
}

const NOTHING: Told = Told {
    calls: 0,
    done: 0,
    of: 0,
    grows: true,
    nodes: 0,
    walks: 0,
    preparations: 0,
    prepared: 0,
};

impl Watch for Told {
    fn did(&mut self, done: usize, of: usize) {
        self.calls = self.calls.saturating_add(1);
        self.grows = self.grows && self.done < done;
        self.done = done;
        self.of = of;
    }

    fn checked(&mut self, nodes: usize, walks: usize) {
        self.nodes = self.nodes.saturating_add(nodes);
        self.walks = self.walks.saturating_add(walks);
    }

    fn prepares(&mut self, nodes: u32) {
        self.preparations = self.preparations.saturating_add(1);
        self.prepared = nodes;
    }
}

/// The watch's calls during a command that succeeds, and whether the output is this text, as without a watch.
fn told_of<'a, H: Threads + Sync>(
    rt: &HostRuntime,
    threads: &H,
    command: &Command<'_>,
    files: (&'a [u8], Option<&'a [u8]>),
    text: &[u8],
) -> (Told, bool)
    requires limits { HasLimits command.now }
    requires files { HasFiles command.now files.1 }
{
    let mut told = NOTHING;
    let mut room = [0u8; 512];
    let mut quiet = [0u8; 512];
    let is_done = writes(rt, threads, command, files, room.as_mut_slice(), &mut told);
    let is_quiet = writes(
        rt,
        threads,
        command,
        files,
        quiet.as_mut_slice(),
        &mut Silent,
    );
    let is_same = holds(room.as_slice(), text) && holds(quiet.as_slice(), text);
    (told, is_done && is_quiet && is_same)
}

/// Carries out a command on files in memory. Returns whether it succeeds.
fn writes<'a, H: Threads + Sync, V: Watch>(
    rt: &HostRuntime,
    threads: &H,
    command: &Command<'_>,
    files: (&'a [u8], Option<&'a [u8]>),
    room: &mut [u8],
    watch: &mut V,
) -> bool
    requires limits { HasLimits command.now }
    requires files { HasFiles command.now files.1 }
{
    let mut files = Opened {
        gr: StdIn::new(GRAPH),
        starts: StdIn::new(files.0),
        others: OptionalFiles::only_tp(None),
        report: match files.1 {
            Some(report) => Some(StdIn::new(report)),
            None => None,
        },
    };
    let mut out = StdOut::new(room);
    perform(rt.alloc(), threads, command, &mut files, &mut out, watch).is_ok()
}

const REPORT: &[u8] =
    b"s 1 0\nd 1 0\nd 2 5\nd 3 2\nd 4 6\ns 2 0\nd 1 inf\nd 2 0\nd 3 inf\nd 4 1\ns 3 0\nd 1 inf\nd 2 3\nd 3 0\nd 4 4\n";

/// A run by this many workers, with this many problems at once.
fn options_of(workers: Option<u64>, at_once: Option<u64>) -> RunOptions
    requires workers { IfSome workers (λ n. (1 ≤ n) × (n ≤ 16)) }
    requires at_once { IfSome at_once (λ n. (1 ≤ n) × (n ≤ 16)) }
    ensures { AreOptions result }
{
    RunOptions {
        workers,
        at_once,
        ..DEFAULTS
    }
}

#[test]
fn each_problem_of_a_run_is_told(rt: HostRuntime) {
    for (workers, at_once) in [
        (Some(1), Some(1)),
        (Some(3), None),
        (Some(1), Some(2)),
        (Some(1), Some(4)),
    ] {
        let command = Command::Run {
            gr: "g",
            ss: "s",
            tp: None,
            times: None,
            nodes: None,
            output: None,
            options: options_of(workers, at_once),
        };
        let told = Told {
            calls: 3,
            done: 3,
            of: 3,
            ..NOTHING
        };
        assert_eq!(rt;
            told_of(&rt, &rt, &command, (THREE, None), REPORT),
            (told, true)
        );
    }
}

#[test]
fn joint_sources_are_one_problem(rt: HostRuntime) {
    let command = Command::Run {
        gr: "g",
        ss: "s",
        tp: None,
        times: None,
        nodes: None,
        output: None,
        options: RunOptions {
            joint: true,
            ..DEFAULTS
        },
    };
    let told = Told {
        calls: 1,
        done: 1,
        of: 1,
        ..NOTHING
    };
    let report = b"s 1 0\ns 2 0\ns 3 0\nd 1 0\nd 2 0\nd 3 0\nd 4 1\n";
    assert_eq!(rt;
        told_of(&rt, &rt, &command, (THREE, None), report),
        (told, true)
    );
}

#[test]
fn each_pair_is_told(rt: HostRuntime) {
    let command = Command::Pairs {
        gr: "g",
        p2p: "q",
        tp: None,
        times: None,
        output: None,
        options: DEFAULTS,
    };
    let told = Told {
        calls: 2,
        done: 2,
        of: 2,
        ..NOTHING
    };
    let report = b"q 1 4 0\nd 4 6\nq 2 4 0\nd 4 1\n";
    assert_eq!(rt;
        told_of(&rt, &rt, &command, (PAIRS, None), report),
        (told, true)
    );
}

#[test]
fn a_preparation_is_told_before_the_pairs(rt: HostRuntime) {
    for (workers, prepare, preparations) in [
        (None, Some(true), 1),
        (None, Some(false), 0),
        (None, None, 0),
        (Some(4), Some(true), 0),
    ] {
        let command = Command::Pairs {
            gr: "g",
            p2p: "q",
            tp: None,
            times: None,
            output: None,
            options: RunOptions {
                prepare,
                ..options_of(workers, None)
            },
        };
        let told = Told {
            calls: 2,
            done: 2,
            of: 2,
            preparations,
            prepared: if preparations > 0 { 4 } else { 0 },
            ..NOTHING
        };
        let report = b"q 1 4 0\nd 4 6\nq 2 4 0\nd 4 1\n";
        assert_eq!(rt;
            told_of(&rt, &rt, &command, (PAIRS, None), report),
            (told, true)
        );
    }
}

#[test]
fn each_source_of_rank_errors_is_told(rt: HostRuntime) {
    let command = Command::Rank {
        gr: "g",
        ss: "s",
        tp: None,
        output: None,
        options: RunOptions {
            workers: Some(1),
            ..DEFAULTS
        },
    };
    let told = Told {
        calls: 3,
        done: 3,
        of: 3,
        ..NOTHING
    };
    // From node 3 node 4 is pushed at 9 and at 4.
    let ranks = b"s 1 0\nr 6 0 0\ns 2 0\nr 2 0 0\ns 3 0\nr 4 0 0\n";
    assert_eq!(rt;
        told_of(&rt, &rt, &command, (THREE, None), ranks),
        (told, true)
    );
}

#[test]
fn what_is_checked_is_told(rt: HostRuntime) {
    let command = Command::Check {
        gr: "g",
        ss: "s",
        tp: None,
        times: None,
        report: "r",
        options: DEFAULTS,
    };
    let told = Told {
        calls: 3,
        done: 3,
        of: 3,
        nodes: 12,
        walks: 2,
        ..NOTHING
    };
    assert_eq!(rt;
        told_of(&rt, &rt, &command, (THREE, Some(WALKED)), b""),
        (told, true)
    );
}

#[test]
fn nothing_is_told_of_late_departures(rt: HostRuntime) {
    let command = Command::Run {
        gr: "g",
        ss: "s",
        tp: None,
        times: None,
        nodes: None,
        output: None,
        options: RunOptions {
            depart: 281_474_976_710_655,
            gap: 1,
            ..DEFAULTS
        },
    };
    assert_eq!(rt;
        told_of(&rt, &rt, &command, (THREE, None), b""),
        (NOTHING, false)
    );
}
