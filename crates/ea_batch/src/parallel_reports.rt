//! Reports of problems that are searched at once: several threads make some while earlier ones are sent.
ghost use Rattle.std.specs.Prelude.{◌≡◌, ◌⊎◌, ◌≤◌, ◌<◌, ◌+◌, ◌*◌, ◌^◌, length};
ghost use Rattle.ea_base.specs.declared.limits.TheConstants.{MOST_AT_ONCE, MOST_STARTS};
ghost use Rattle.ea_batch.specs.Arrays.{CanReport, KeepsArrays, StaysAided};
ghost use Rattle.ea_batch.specs.Drafts.{AreDraftsAt, AreUnsent, CanSend, IsDraftAt, IsDraftOf, IsFor, IsJob, SendsPart, SendsSome, StandsAt};
ghost use Rattle.ea_batch.specs.Reportable.{AreReportable, IsReportable};
ghost use Rattle.ea_batch.specs.Sending.{SendsAll, SendsReport, SendsText};
ghost use Rattle.ea_batch.specs.Solved.{AreAidsOn};
ghost use Rattle.ea_report.specs.Asked.{shape_of};
ghost use Rattle.ea_batch.specs.declared.parallel_reports.TheConstants.{KEPT, LINES_IN_PART, PARTS_AHEAD};

use crate::draft::{Draft, Job, Plan, Span, memory_of_texts};
use crate::hand_over::Asks;
use crate::lane::{Desk, Lane, Lanes, make_in_lane};
use crate::progress::{Progress, fault_after};
use crate::round::Round;
use crate::search_road::SearchRoad;
use crate::searching::Aids;
use crossbeam_deque::Worker;
use ea_base::Watch;
use ea_bytes::ByteOut;
use ea_fork_join::for_each_chunk_mut_beside;
use ea_load::AnswerFault;
use ea_report::{ReportOptions, write_pieces};
use ea_road::Query;
use std::alloc::Global;
use std::marker::Brand;
use std::mem;
use std::thread::Threads;

/// What the reports of a call show, what its searches may use, and its watch.
pub struct Watched<'a, V: Watch> {
    pub shown: ReportOptions<'a>,
    pub aids: Aids<'a>,
    pub watch: &'a mut V,
}

/// The most bytes of reports that a thread keeps before they are sent.
const KEPT: usize = 67_108_864;

/// About how many lines of reports a thread makes before it leaves them to be sent.
const LINES_IN_PART: usize = 262_144;

/// About how many bytes a line of a report has.
const LINE: usize = 16;

/// The most problems that a thread takes at once.
const MOST_IN_PART: usize = 256;

/// How many parts are made ahead for each thread.
const PARTS_AHEAD: usize = 2;

/// How drafts are made. Each thread takes several problems at once if they are many and their reports short,
/// so that threads seldom meet. If a text is too long to be kept, the search with its answer is kept instead,
/// and less is made ahead.
fn plan_of(problems: usize, threads: usize, lines: usize, walks: bool) -> Plan
    requires { (1 ≤ threads) × (1 ≤ lines) × (threads ≤ 16) }
    ensures part { 0 < result.part }
    // A part is one problem, or each thread gets four parts at least, of few lines.
    ensures shared { (result.part ≡ 1) ⊎ ((result.part * (threads * 4) ≤ problems)
        × (result.part * lines ≤ LINES_IN_PART)) }
    // The texts of a part that are kept have KEPT bytes at most.
    ensures kept { result.part * result.most ≤ KEPT }
    // Each thread has a part ahead, and PARTS_AHEAD at most.
    ensures ahead { (result.part * threads ≤ result.ahead)
        × (result.ahead ≤ result.part * threads * PARTS_AHEAD) }
    ensures room { result.room ≤ result.most }
{
    let few = (problems / (threads * 4)).min(MOST_IN_PART).max(1);
    let part = (LINES_IN_PART / lines).max(1).min(few);
    let most = KEPT / part;
    let length = lines.saturating_mul(LINE);
    let parts = if walks || length > most {
        1
    } else {
        PARTS_AHEAD
    };
    Plan {
        part,
        ahead: part * threads * parts,
        room: length.min(most),
        most,
    }
}

impl Progress<'_> {
    /// Sends a report's text.
    fn send_text<W: ByteOut>(&mut self, text: &[u8], out: &mut W) -> Result<(), AnswerFault>
        requires { self.old.written ≤ MOST_STARTS * 2 ^ 90 }
        ensures sends { SendsText text.now (W.seen out.old) (W.seen out.new)
            self.old.written self.new.written result }
        ensures kept { KeepsArrays self.old self.new }
    {
        match write_pieces(&[text], out) {
            Ok(written) => {
                self.written += written;
                Ok(())
            }
            Err(fault) => Err(fault_after(self.written, fault)),
        }
    }

    /// Leaves the memory of a sent text to the threads that make texts.
    fn keep_memory(&mut self, memory: Vec<u8>)
        ensures written { self.new.written ≡ self.old.written }
        ensures kept { KeepsArrays self.old self.new }
    {
        if let Some(used) = &mut self.used {
            let _ = used.push(memory);
        }
    }

    /// Sends the report of a problem by its draft; if there is none, makes it now.
    fn send_draft<W: ByteOut>(
        &mut self,
        alloc: Global,
        road: &SearchRoad<'_>,
        query: &Query,
        shown: ReportOptions<'_>,
        draft: Draft,
        out: &mut W,
    ) -> Result<(), AnswerFault>
        requires reportable { IsReportable road.now (shape_of shown) query.now }
        requires can { CanReport road.now shown.style.walks self.old }
        requires draft { IsDraftOf (shape_of shown) road.now query.now draft }
        ensures sends { SendsReport (shape_of shown.entry) road.now query.now
            (W.seen out.old) (W.seen out.new) self.old.written self.new.written result }
        ensures aided { StaysAided road.now shown.entry.style.walks self.old self.new }
    {
        match draft {
            Draft::Nothing => self.report_alone(alloc, road, query, shown, out),
            Draft::Text(text) => {
                self.send_text(&text, out)?;
                self.keep_memory(text);
                Ok(())
            }
            Draft::Answer(found) => {
                let sent = self.write(alloc, road, query, found.answer(), shown, out);
                self.keep_search(found);
                sent
            }
        }
    }
}

/// Takes a draft out of a list; `Nothing` if the list is too short.
fn take_draft(job: Job<'_>, span: Span, k: usize, ready: &mut [Draft]) -> Draft
    requires left { AreUnsent (shape_of job.shown) job.road.now job.queries.now span.from k ready.old }
    ensures draft { IsDraftAt (shape_of job.entry.shown) job.entry.road.now
        job.entry.queries.now (span.from + k) result }
    ensures left { AreUnsent (shape_of job.entry.shown) job.entry.road.now
        job.entry.queries.now span.from (k + 1) ready.new }
{
    if k < ready.len() {
        mem::replace(&mut ready[k], Draft::Nothing)
    } else {
        Draft::Nothing
    }
}

/// Sends the reports of problems by their drafts, in their order. Missing drafts are made now.
fn send_part<W: ByteOut>(
    progress: &mut Progress<'_>,
    job: Job<'_>,
    span: Span,
    ready: &mut [Draft],
    out: &mut W,
) -> Result<(), AnswerFault>
    requires stands { StandsAt job span.from progress.old }
    requires span { (span.from ≤ span.to) × (span.to ≤ length job.queries.now) }
    requires drafts { AreDraftsAt (shape_of job.shown) job.road.now
        job.queries.now span.from ready.old }
    ensures sends { SendsPart job.entry span.from span.to
        (W.seen out.old) progress.old (W.seen out.new) progress.new result }
    ensures aids { progress.new.aids ≡ progress.old.aids }
{
    let queries = job.queries;
    for k in 0..span.to - span.from {
        let draft = take_draft(job, span, k, ready);
        let query = &queries[span.from + k];
        progress.send_draft(job.alloc, job.road, query, job.shown, draft, out)?;
    }
    Ok(())
}

/// The end of the part of a job's problems that begins with this one.
fn end_of_part(job: Job<'_>, from: usize) -> usize
    requires job { IsJob job }
    requires inside { from < length job.queries.now }
    ensures { (from < result) × (result ≤ length job.entry.queries.now) }
{
    from.saturating_add(job.plan.part).min(job.queries.len())
}

/// Sends the reports of the problems from one on by their drafts, and makes some drafts too, until all are
/// sent or no one makes the next. Calls the watch after each part.
fn send_round<J: Asks, W: ByteOut, V: Watch>(
    progress: &mut Progress<'_>,
    job: Job<'_>,
    round: &Round,
    desk: &mut Desk<J>,
    from: usize,
    out: &mut W,
    watch: &mut V,
) -> Result<usize, AnswerFault>
    requires named { IsFor J.fits job }
    requires can { CanSend job from progress.old desk.old.pile.items }
    ensures { SendsSome job.entry from (W.seen out.old) progress.old
        (W.seen out.new) progress.new desk.new.pile.items result }
{
    let mut sent = from;
    for _ in 0..u64::MAX {
        if sent >= job.queries.len() {
            break;
        }
        match desk.take(job, sent) {
            Some(mut ready) => {
                let span = Span {
                    from: sent,
                    to: end_of_part(job, sent),
                };
                send_part(progress, job, span, &mut ready, out)?;
                sent = span.to;
                round.tell_sent(sent);
                watch.did(sent, job.queries.len());
            }
            None => {
                if !desk.help(job, round, &mut progress.search) {
                    break;
                }
            }
        }
    }
    Ok(sent)
}

/// About how many lines a report has.
fn lines_of(road: &SearchRoad<'_>, query: &Query, shown: ReportOptions<'_>) -> usize
    ensures { 1 ≤ result }
{
    if query.target().is_some() {
        return 1;
    }
    match shown.nodes {
        None => road.nodes().max(1) as usize,
        Some(chosen) => chosen.len().max(1),
    }
}

/// Sends the reports of the problems from one on, while other threads make the next ones.
fn run_round<J: Asks, H: Threads + Sync, W: ByteOut, V: Watch>(
    progress: &mut Progress<'_>,
    rt: &H,
    job: Job<'_>,
    lanes: &mut Lanes<J>,
    from: usize,
    out: &mut W,
    watch: &mut V,
) -> Result<usize, AnswerFault>
    requires named { IsFor J.fits job }
    requires can { CanSend job from progress.old lanes.old.desk.pile.items }
    ensures { SendsSome job.entry from (W.seen out.old) progress.old
        (W.seen out.new) progress.new lanes.new.desk.pile.items result }
{
    let Lanes { row, round, desk } = lanes;
    let round: &Round = round;
    round.begin(row.len());
    let mut sending = || -> Result<usize, AnswerFault>
        requires { IsFor J.fits job × CanSend job from progress.now desk.now.pile.items }
        ensures { SendsSome job.entry from (W.seen out.entry.now) progress.entry.now
            (W.seen out.exit.now) progress.exit.now desk.exit.now.pile.items result }
    {
        let sent = send_round(progress, job, round, desk, from, out, watch);
        if sent.is_err() {
            round.stop();
        }
        sent
    };
    let making = |_start: usize, part: &mut [Lane<J>]|
        requires { IsJob job × IsFor J.fits job × (0 < length part.now) }
    { make_in_lane(job, round, &mut part[0]) };
    for_each_chunk_mut_beside(rt, 1, &making, row, &mut sending)
}

/// Sends the reports of all problems in their order, while other threads make the next ones. Calls the watch
/// after each part.
fn send_all<J: Asks, H: Threads + Sync, W: ByteOut, V: Watch>(
    progress: &mut Progress<'_>,
    rt: &H,
    job: Job<'_>,
    lanes: &mut Lanes<J>,
    watch: &mut V,
    out: &mut W,
) -> Result<(), AnswerFault>
    requires named { IsFor J.fits job }
    requires can { CanSend job 0 progress.old lanes.old.desk.pile.items }
    requires none { progress.old.written ≡ 0 }
    ensures { SendsAll (λ _. progress.new.written) (shape_of job.entry.shown) job.entry.road.now
        job.entry.queries.now (W.seen out.old) (W.seen out.new) result }
{
    // Proof hint: the count fits in u64.
    let _ = out.interruptions();
    let mut sent = 0;
    while sent < job.queries.len() {
        let gone = run_round(progress, rt, job, lanes, sent, out, watch)?;
        if gone > sent {
            sent = gone;
        } else {
            let span = Span {
                from: gone,
                to: end_of_part(job, gone),
            };
            send_part(progress, job, span, &mut [], out)?;
            sent = span.to;
            lanes.round.tell_sent(sent);
            watch.did(sent, job.queries.len());
        }
    }
    Ok(())
}

/// Writes the reports of problems in their order; several threads search at once. Calls the watch after each
/// part.
fn report_asked<'a, J: Asks, H: Threads + Sync, W: ByteOut, V: Watch>(
    rt: &H,
    job: Job<'_>,
    aids: Aids<'a>,
    used: Worker<Vec<u8>>,
    threads: usize,
    watch: &mut V,
    out: &mut W,
) -> Result<Progress<'a>, AnswerFault>
    requires job { IsJob job }
    requires aids { AreAidsOn job.road.now aids }
    requires named { IsFor J.fits job }
    requires some { 0 < length job.queries.now }
    requires threads { 1 ≤ threads }
    ensures { SendsAll (λ progress. progress.written) (shape_of job.entry.shown) job.entry.road.now
        job.entry.queries.now (W.seen out.old) (W.seen out.new) result }
{
    let mut lanes = match Lanes::<J>::open(job.alloc, threads - 1) {
        Ok(lanes) => lanes,
        Err(_) => return Err(AnswerFault::OutOfMemory { written: 0 }),
    };
    let mut progress = Progress::begin(aids, Some(used));
    let sent = send_all(&mut progress, rt, job, &mut lanes, watch, out);
    drop(lanes);
    match sent {
        Ok(()) => Ok(progress),
        Err(fault) => {
            drop(progress);
            Err(fault)
        }
    }
}

/// Writes the reports of problems in their order; several threads search at once. Calls the watch as they are
/// sent.
pub fn report_ahead<'a, H: Threads + Sync, W: ByteOut, V: Watch>(
    alloc: Global,
    rt: &H,
    road: &SearchRoad<'_>,
    queries: &[Query],
    watched: Watched<'a, V>,
    threads: usize,
    out: &mut W,
) -> Result<Progress<'a>, AnswerFault>
    requires reportable { AreReportable road.now (shape_of watched.shown) queries.now }
    requires some { 0 < length queries.now }
    requires aids { AreAidsOn road.now watched.aids }
    requires threads { (1 ≤ threads) × (threads ≤ MOST_AT_ONCE) }
    ensures { SendsAll (λ progress. progress.written) (shape_of watched.entry.shown) road.now
        queries.now (W.seen out.old) (W.seen out.new) result }
{
    let Watched { shown, aids, watch } = watched;
    let lines = lines_of(road, &queries[0], shown);
    let (used, spare) = match memory_of_texts(alloc) {
        Ok(ends) => ends,
        Err(_) => return Err(AnswerFault::OutOfMemory { written: 0 }),
    };
    let job = Job {
        alloc,
        road,
        aids,
        queries,
        shown,
        plan: plan_of(queries.len(), threads, lines, shown.style.walks),
        spare: &spare,
    };
    report_asked::<Brand, H, W, V>(rt, job, aids, used, threads, watch, out)
}
