//! Threads that make reports before their turn, and what they leave for the sending thread.
ghost use Rattle.std.specs.Prelude.{◌≡◌, [], IfOk, IfSome};
ghost use Rattle.ea_batch.specs.Drafts.{AreDraftsAt, ArePiled, IsDeskFor, IsFor, IsJob, MayMake};
ghost use Rattle.ea_report.specs.Asked.{shape_of};
ghost use Rattle.ea_batch.specs.Solved.{Serves};

use crate::draft::{Draft, Job, Made, make_drafts};
use crate::hand_over::{Asks, Giver, Taker, get, give};
use crate::round::Round;
use crate::searching::Searching;
use std::alloc::{AllocError, Global};
use std::thread::yield_now;

/// How often a thread yields while too much is still to be sent, before it ends: some tenths of a second. So
/// a slow device doesn't keep processors busy.
const MOST_WAITS: u32 = 524_288;

/// How often the sending thread yields while the next part is missing and no other is left to make, before it
/// makes the part itself: some seconds. A part may have been lost because memory was refused.
const MOST_IDLE: u32 = 16_777_216;

/// The most parts that are taken from the queue of one thread at once.
const MOST_TAKEN: usize = 64;

/// A thread that makes reports, with its queue.
#[derive(Drop)]
pub(crate) struct Lane<J: Asks> {
    pub made: Giver<J>,
}

/// Takes problems and makes their drafts once. Returns whether the thread continues.
fn make_next<J: Asks>(
    job: Job<'_>,
    round: &Round,
    lane: &mut Lane<J>,
    last: &mut Option<Searching>,
) -> bool
    requires making { MayMake job last.old }
    requires named { IsFor J.fits job }
    ensures search { IfSome last.new (Serves job.entry.road.now.network job.entry.shown.style.walks) }
{
    match round.take(job) {
        Some(span) => {
            let made = make_drafts(job, span, last);
            give(&mut lane.made, job, made)
        }
        None => false,
    }
}

/// Makes drafts until all problems are taken, or too much was still to be sent for too long.
pub(crate) fn make_in_lane<J: Asks>(job: Job<'_>, round: &Round, lane: &mut Lane<J>)
    requires job { IsJob job }
    requires named { IsFor J.fits job }
{
    let mut last = None;
    let mut waits = 0;
    for _ in 0..u64::MAX {
        if make_next(job, round, lane, &mut last) {
            waits = 0;
        } else {
            if round.is_over(job) || waits >= MOST_WAITS {
                break;
            }
            waits += 1;
            yield_now();
        }
    }
    round.leave();
    drop(last);
}

/// The drafts that threads left for the sending thread, in no order.
#[derive(Drop)]
pub(crate) struct Desk<J: Asks> {
    pub left: Vec<Taker<J>>,
    pub pile: Vec<Made>,
    /// How often it yielded in a row since nothing was there.
    idle: u32,
}

/// The threads, how they share the problems, and the desk for their drafts.
#[derive(Drop)]
pub(crate) struct Lanes<J: Asks> {
    pub row: Vec<Lane<J>>,
    pub round: Round,
    pub desk: Desk<J>,
}

impl<J: Asks> Lanes<J> {
    /// Lanes without drafts, for this number of threads. Fails only if memory is refused.
    pub(crate) fn open(alloc: Global, threads: usize) -> Result<Lanes<J>, AllocError>
        ensures { IfOk result (λ lanes. lanes.desk.pile.items ≡ []) }
    {
        let mut row = Vec::with_capacity(alloc, threads)?;
        let mut left = Vec::with_capacity(alloc, threads)?;
        for _ in 0..threads {
            let made = Giver::<J>::fifo_as(alloc, 16)?;
            left.push(made.stealer()?)?;
            row.push(Lane { made })?;
        }
        Ok(Lanes {
            row,
            round: Round::new(),
            desk: Desk {
                left,
                pile: Vec::with_capacity(alloc, 64)?,
                idle: 0,
            },
        })
    }
}

/// The index on a pile of the drafts from this problem on; the pile's length if there are none.
fn place_of(pile: &[Made], from: usize) -> usize {
    for at in 0..pile.len() {
        if pile[at].from == from {
            return at;
        }
    }
    pile.len()
}

/// Moves what a thread left to the pile. What finds no memory there is dropped, and made again at its turn.
fn collect<J: Asks>(taker: &Taker<J>, job: Job<'_>, pile: &mut Vec<Made>)
    requires { IsDeskFor J.fits job pile.old.items }
    ensures pile { ArePiled job.entry pile.new.items }
{
    for _ in 0..MOST_TAKEN {
        match get(taker, job) {
            Some(made) => {
                let _ = pile.push(made);
            }
            None => return,
        }
    }
}

impl<J: Asks> Desk<J> {
    /// Moves what threads left to the pile.
    fn gather(&mut self, job: Job<'_>)
        requires { IsDeskFor J.fits job self.old.pile.items }
        ensures pile { ArePiled job.entry self.new.pile.items }
    {
        for taker in &self.left {
            collect(taker, job, &mut self.pile);
        }
    }

    /// Takes the drafts of a job's problems from this one on, if they are there.
    pub(crate) fn take(&mut self, job: Job<'_>, from: usize) -> Option<Vec<Draft>>
        requires { IsDeskFor J.fits job self.old.pile.items }
        ensures drafts { IfSome result (λ drafts. AreDraftsAt (shape_of job.entry.shown) job.entry.road.now
            job.entry.queries.now from drafts.items) }
        ensures pile { ArePiled job.entry self.new.pile.items }
    {
        self.gather(job);
        let at = place_of(&self.pile, from);
        if at >= self.pile.len() {
            return None;
        }
        self.idle = 0;
        let made = self.pile.swap_remove(at);
        if made.from == from {
            Some(made.drafts)
        } else {
            None
        }
    }

    /// Makes drafts too, or yields. Returns false if no one else makes any, or nothing came for too long.
    pub(crate) fn help(&mut self, job: Job<'_>, round: &Round, last: &mut Option<Searching>) -> bool
        requires making { MayMake job last.old }
        requires pile { ArePiled job self.old.pile.items }
        ensures pile { ArePiled job.entry self.new.pile.items }
        ensures search { IfSome last.new (Serves job.entry.road.now.network job.entry.shown.style.walks) }
    {
        if round.is_left() {
            return false;
        }
        match round.take(job) {
            Some(span) => {
                self.idle = 0;
                let made = make_drafts(job, span, last);
                let _ = self.pile.push(made);
            }
            None => {
                self.idle = self.idle.saturating_add(1);
                yield_now();
            }
        }
        if self.idle < MOST_IDLE {
            return true;
        }
        self.idle = 0;
        false
    }
}
