//! Reading plain lines ahead of the line that was found, by several threads if there are many.
ghost use Rattle.std.specs.Prelude.{◌≡◌, ◌≤◌, IfErr, IfOk, IfSome, length, vec_len};
ghost use Rattle.ea_fork_join.specs.declared.TheConstants.{MOST_THREADS};
ghost use Rattle.ea_check.specs.Pieces.{AreIn};
ghost use Rattle.ea_check.specs.declared.fault.CheckFault.TheVariants.{OutOfMemory};

use crate::fault::CheckFault;
use crate::form::plain_lines::take_times;
use crate::form::run::{LinesFound, Run, join_runs};
use crate::team::Team;
use ea_base::Direction;
use ea_fork_join::MOST_THREADS;
use memchr::memchr;
use std::alloc::{AllocError, Global};

/// The most bytes of a plain line.
const LONGEST_LINE: usize = 32;

/// About how many bytes the calling thread reads before others are started.
const NEAR: usize = 32_768;

/// The least and the most bytes of a run, about.
const LEAST_PART: usize = 32_768;

const MOST_PART: usize = 524_288;

/// Texts of fewer bytes are read by the calling thread alone.
const LEAST_BESIDE: usize = 131_072;

/// The times in lines that were read ahead, and room for the runs that several threads read.
#[derive(Drop)]
pub(crate) struct Ahead {
    /// The times.
    pub times: Vec<u64>,
    /// A run for each thread; none if there is one thread.
    pub runs: Vec<Run>,
    /// About how many bytes a run has: more and more, as long as what follows is plain.
    pub part: usize,
    ghost few: { vec_len runs ≤ MOST_THREADS },
}

/// A run for each thread; none if there is one thread.
fn runs_for(alloc: Global, threads: usize) -> Result<Vec<Run>, AllocError>
    ensures { IfOk result (λ runs. vec_len runs ≤ threads) }
{
    let mut runs = Vec::new(alloc);
    if threads < 2 {
        return Ok(runs);
    }
    for _ in 0..threads {
        runs.push(Run::new(alloc))?;
    }
    Ok(runs)
}

impl Ahead {
    /// Room for this many threads.
    pub(crate) fn new(alloc: Global, threads: usize) -> Result<Ahead, CheckFault>
        requires { threads ≤ MOST_THREADS }
        ensures { IfErr result (λ fault. fault ≡ OutOfMemory) }
    {
        let runs = runs_for(alloc, threads)?;
        Ok(Ahead {
            times: Vec::new(alloc),
            runs,
            part: LEAST_PART,
        })
    }

    /// How many bytes of a text the calling thread reads before others are started.
    fn near(&self, text: &[u8]) -> usize
        ensures { result ≤ length text.now }
    {
        if self.runs.len() == 0 || text.len() < LEAST_BESIDE {
            text.len()
        } else {
            cut_after(text, NEAR)
        }
    }
}

/// The place after the first line feed of a text at or after a place; the end of the text if there is none.
fn cut_after(text: &[u8], place: usize) -> usize
    ensures { result ≤ length text.now }
{
    if place >= text.len() {
        return text.len();
    }
    match memchr(b'\n', &text[place..]) {
        Some(len) => place + len + 1,
        None => text.len(),
    }
}

/// Cuts a text into parts of about the same size, from this place on: one for each run.
fn cut_parts(text: &[u8], from: usize, size: usize, runs: &mut [Run])
    ensures { length runs.new ≡ length runs.old }
{
    let mut begin = from;
    for run in runs.iter_mut() {
        let end = cut_after(text, begin.saturating_add(size));
        run.from = begin;
        run.to = end;
        begin = end;
    }
}

/// The size of the next parts: twice as much if these were read up to this place, else the least.
fn next_part(part: usize, runs: &[Run], bytes: usize) -> usize {
    match runs {
        [.., end] if bytes.saturating_add(LONGEST_LINE) >= end.to => {
            part.saturating_mul(2).min(MOST_PART)
        }
        _ => LEAST_PART,
    }
}

/// Like `take_times`, from the first bytes of a text.
fn take_near(
    way: Direction,
    text: &[u8],
    near: usize,
    first: u32,
    last: u32,
    times: &mut Vec<u64>,
) -> Option<usize>
    requires { near ≤ length text.now }
    ensures { IfSome result (λ bytes. AreIn way text.now last times.new.items
        (record { first = first; bytes = bytes })) }
{
    take_times(way, &text[..near], first, last, times)
}

/// Replaces the times of `ahead` by those in the plain lines at the front of a text, from that of the node `first`
/// on and up to that of the node `last`, without the last of these lines. Returns how many bytes they have; none
/// if the text doesn't begin with such a line.
pub(crate) fn take_ahead<C: Team>(
    team: &C,
    way: Direction,
    text: &[u8],
    first: u32,
    last: u32,
    ahead: &mut Ahead,
) -> Option<usize>
    requires can { C.can_start team.now }
    ensures { IfSome result (λ bytes. AreIn way text.now last ahead.new.times.items
        (record { first = first; bytes = bytes })) }
{
    let near = ahead.near(text);
    let Some(bytes) = take_near(way, text, near, first, last, &mut ahead.times) else {
        return None;
    };
    if near == text.len() {
        return Some(bytes);
    }
    if near.saturating_sub(bytes) > LONGEST_LINE {
        return Some(bytes);
    }
    cut_parts(text, near, ahead.part, &mut ahead.runs);
    team.read_runs(way, text, last, &mut ahead.runs);
    let before = LinesFound { first, bytes };
    let bytes = join_runs(way, text, &ahead.runs, before, last, &mut ahead.times);
    ahead.part = next_part(ahead.part, &ahead.runs, bytes);
    Some(bytes)
}
