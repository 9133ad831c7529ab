//! Answers for texts in memory.
ghost use Rattle.ea_options.specs.Limits.{AreOptions};

use ea_bytes::{StdIn, StdOut};
use earliest::{AnswerFault, Direction, OptionalFiles, RunOptions, Totals, answer, answer_pairs};
use std::thread::Threads;

/// The options by default.
pub const DEFAULTS: RunOptions = RunOptions {
    joint: false,
    walks: false,
    stats: false,
    progress: false,
    workers: Some(4),
    at_once: None,
    batch: None,
    prepare: None,
    heaps: 2,
    turns: 1_000_000,
    seed: 1,
    depart: 0,
    gap: 0,
    direction: Direction::Forward,
};

pub const WALKS: RunOptions = RunOptions {
    walks: true,
    ..DEFAULTS
};

pub const GRAPH: &[u8] = b"p sp 4 5\na 1 2 7\na 1 3 2\na 3 2 3\na 2 4 1\na 3 4 9\n";

pub const FROM_ONE: &[u8] = b"p aux sp ss 1\ns 1\n";

/// The texts of a run's or of pairs' files.
#[derive(Clone, Copy)]
pub struct Texts<'a> {
    pub gr: &'a [u8],
    pub starts: &'a [u8],
    pub tp: Option<&'a [u8]>,
}

/// The texts of a graph with plain arcs, from node 1.
pub fn from_one(gr: &[u8]) -> Texts<'_> {
    Texts {
        gr,
        starts: FROM_ONE,
        tp: None,
    }
}

/// What a run writes, into room for it.
pub fn run<H: Threads + Sync>(
    rt: &HostRuntime,
    threads: &H,
    texts: Texts<'_>,
    options: &RunOptions,
    room: &mut [u8],
) -> Result<Totals, AnswerFault>
    requires { AreOptions options.now }
{
    let mut gr = StdIn::new(texts.gr);
    let mut ss = StdIn::new(texts.starts);
    let mut others = OptionalFiles::only_tp(texts.tp.map(StdIn::new));
    let mut out = StdOut::new(room);
    answer(
        rt.alloc(),
        threads,
        &mut gr,
        &mut ss,
        &mut others,
        options,
        &mut out,
    )
}

/// What pairs write, into room for it.
pub fn run_pairs<H: Threads + Sync>(
    rt: &HostRuntime,
    threads: &H,
    texts: Texts<'_>,
    options: &RunOptions,
    room: &mut [u8],
) -> Result<Totals, AnswerFault>
    requires { AreOptions options.now }
{
    let mut gr = StdIn::new(texts.gr);
    let mut p2p = StdIn::new(texts.starts);
    let mut others = OptionalFiles::only_tp(texts.tp.map(StdIn::new));
    let mut out = StdOut::new(room);
    answer_pairs(
        rt.alloc(),
        threads,
        &mut gr,
        &mut p2p,
        &mut others,
        options,
        &mut out,
    )
}

/// Whether the room has exactly this text.
pub fn holds(room: &[u8], text: &[u8]) -> bool {
    room.starts_with(text) && room[text.len()..].iter().all(|byte| *byte == 0)
}

/// Whether a run's report is this text.
pub fn reports<H: Threads + Sync>(
    rt: &HostRuntime,
    threads: &H,
    texts: Texts<'_>,
    options: &RunOptions,
    text: &[u8],
) -> bool
    requires { AreOptions options.now }
{
    let mut room = [0u8; 512];
    run(rt, threads, texts, options, room.as_mut_slice()).is_ok() && holds(room.as_slice(), text)
}

/// Whether the report of pairs is this text.
pub fn reports_pairs<H: Threads + Sync>(
    rt: &HostRuntime,
    threads: &H,
    texts: Texts<'_>,
    options: &RunOptions,
    text: &[u8],
) -> bool
    requires { AreOptions options.now }
{
    let mut room = [0u8; 512];
    run_pairs(rt, threads, texts, options, room.as_mut_slice()).is_ok()
        && holds(room.as_slice(), text)
}
