//! The built-in run, which is done without words.
use crate::messages::tell;
use crate::output::Output;
use ea_bytes::StdIn;
use ea_options::{DEFAULT_DEPARTURE, DEFAULT_GAP, DEFAULT_HEAPS, DEFAULT_SEED, DEFAULT_TURNS};
use earliest::{AnswerFault, Direction, OptionalFiles, Outcome, RunOptions, answer};
use std::io::IsTerminal;
use std::thread::Threads;

const GRAPH: &[u8] = b"p sp 4 5\na 1 2 7\na 1 3 2\na 3 2 3\na 2 4 1\na 3 4 9\n";

const SOURCES: &[u8] = b"p aux sp ss 1\ns 1\n";

/// The options by default.
const DEFAULTS: RunOptions = RunOptions {
    joint: false,
    walks: false,
    stats: false,
    progress: false,
    workers: None,
    at_once: None,
    batch: None,
    prepare: None,
    heaps: DEFAULT_HEAPS,
    turns: DEFAULT_TURNS,
    seed: DEFAULT_SEED,
    depart: DEFAULT_DEPARTURE,
    gap: DEFAULT_GAP,
    direction: Direction::Forward,
};

/// Printed after it on a terminal.
const MORE: &str =
    "This is a small network that is built in. `earliest run --help` says how to give your own.";

/// Answers four nodes and five arcs, from node 1 at time 0. Returns the exit status.
pub fn stored<H: Threads + Sync>(rt: &HostRuntime, threads: &H) -> u8 {
    let mut gr = StdIn::new(GRAPH);
    let mut ss = StdIn::new(SOURCES);
    let mut others: OptionalFiles<StdIn<&[u8]>> = OptionalFiles::only_tp(None);
    let mut output = Output::standard(rt);
    let answered = answer(
        rt.alloc(),
        threads,
        &mut gr,
        &mut ss,
        &mut others,
        &DEFAULTS,
        &mut output,
    );
    match answered {
        Ok(_) => {
            if rt.stderr().is_terminal() {
                let _ = eprintln!(rt; "{MORE}");
            }
            0
        }
        Err(AnswerFault::Write { .. }) if output.is_left() => 4,
        Err(fault) => tell(rt, &Outcome::Answer(fault)),
    }
}
