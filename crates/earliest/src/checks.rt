//! Checking reports.
ghost use Rattle.std.specs.Prelude.{MatchResult, length};
ghost use Rattle.ea_check.specs.Checked.{AreCheckable, sources_of};
ghost use Rattle.ea_load.specs.Files.{reading};
ghost use Rattle.ea_load.specs.Asked.{files_of};
ghost use Rattle.ea_options.specs.Limits.{AreOptions};
ghost use Rattle.ea_load.specs.Given.{as_road};
ghost use Rattle.ea_load.specs.Posed.{times_on};
ghost use Rattle.earliest.specs.Checks.{HasReport, IsReportFault, IsVerdictOn};

use crate::answers::schedule_by;
use ea_base::{Direction, Silent, Watch};
use ea_bytes::ByteIn;
use ea_check::{CheckFault, LazyNetwork, Several, check_stream};
use ea_load::{
    AnswerFault, CheckFiles, FileFault, FileWord, OptionalFiles, UnindexedRoad, departures_fit,
    read_check_by, read_extras, read_fault_of, run_queries,
};
use ea_options::RunOptions;
use ea_road::Query;
use std::alloc::Global;
use std::thread::{Threads, available_parallelism};

/// The most threads that check a report.
const MOST_CHECKERS: usize = 16;

/// The number of threads that check a report: one for each processor, or one if the processors can't be counted.
fn checkers<H: Threads>(rt: &H) -> usize {
    match available_parallelism(rt) {
        Ok(processors) => processors.get().min(MOST_CHECKERS),
        Err(_) => 1,
    }
}

/// The verdict on a report of these searches, which run in a direction.
fn judge<H: Threads + Sync, R: ByteIn, V: Watch>(
    alloc: Global,
    rt: &H,
    road: UnindexedRoad,
    queries: &[Query],
    way: Direction,
    report: &mut R,
    watch: &mut V,
) -> Result<Result<(), CheckFault>, FileFault>
    requires checkable { AreCheckable road.arcs
        (length road.times.tables.list.items) queries.now }
    ensures { MatchResult result
        (HasReport way road.arcs (times_on (as_road road)) (sources_of queries.now)
        (reading R.seen report.old report.new))
        (IsReportFault (reading R.seen report.old report.new)) }
{
    let team = Several {
        rt,
        threads: checkers(rt),
    };
    let UnindexedRoad { arcs, times } = road;
    match check_stream(
        alloc,
        &team,
        LazyNetwork::Unindexed(arcs),
        &times,
        queries,
        way,
        report,
        watch,
    ) {
        Ok(verdict) => Ok(verdict),
        Err(fault) => Err(read_fault_of(FileWord::Report, fault)),
    }
}

/// Checks a report of a run: reads the network, the sources, the timetables, if there are any, their times, and
/// the report. Returns whether it is right: its form, each time the least arrival or, turned round, the latest
/// departure, and each walk the canonical one; otherwise its first fault.
///
/// Source i, from 0, departs at `depart + i * gap`, or at its own time. Files are read in this order, each to
/// its end and at most 2^33 bytes; the report may have any size, and is checked as its bytes come. With `joint`
/// the sources are one problem; beyond that only `depart`, `gap` and `direction` have an effect.
///
/// Fails with `Read` or `Input` for the first fault of the files in their order, and with `BadOption` for a
/// departure above 2^48 - 1 if no file has a fault. `OutOfMemory` means that memory was refused while files
/// were read, the report among them; for the check itself it is a `CheckFault`.
pub fn check_report<H: Threads + Sync, G: ByteIn, S: ByteIn, T: ByteIn, R: ByteIn>(
    alloc: Global,
    rt: &H,
    gr: &mut G,
    ss: &mut S,
    others: &mut OptionalFiles<T>,
    options: &RunOptions,
    report: &mut R,
) -> Result<Result<(), CheckFault>, AnswerFault>
    requires { AreOptions options.now }
    ensures { IsVerdictOn options.now
        (files_of (reading G.seen gr.old gr.new)
        (reading S.seen ss.old ss.new) T.seen others.old others.new)
        (reading R.seen report.old report.new) result }
{
    check_watched(alloc, rt, gr, ss, others, options, report, &mut Silent)
}

/// Like `check_report`; calls a watch after each problem.
pub(crate) fn check_watched<
    H: Threads + Sync,
    G: ByteIn,
    S: ByteIn,
    T: ByteIn,
    R: ByteIn,
    V: Watch,
>(
    alloc: Global,
    rt: &H,
    gr: &mut G,
    ss: &mut S,
    others: &mut OptionalFiles<T>,
    options: &RunOptions,
    report: &mut R,
    watch: &mut V,
) -> Result<Result<(), CheckFault>, AnswerFault>
    requires { AreOptions options.now }
    ensures { IsVerdictOn options.now
        (files_of (reading G.seen gr.old gr.new)
        (reading S.seen ss.old ss.new) T.seen others.old others.new)
        (reading R.seen report.old report.new) result }
{
    let files = read_check_by(alloc, rt, gr, ss, &mut others.tp, options.direction)?;
    let extras = match read_extras(
        alloc,
        &mut others.times,
        &mut others.nodes,
        files.sources.len() as u32,
        files.road.arcs.nodes(),
    ) {
        Ok(extras) => extras,
        Err(fault) => {
            drop(files);
            return Err(AnswerFault::from(fault));
        }
    };
    let CheckFiles { road, sources } = files;
    let schedule = schedule_by(options, &extras);
    if !departures_fit(sources.len(), schedule) {
        // The report's own fault comes before.
        let judged = judge(alloc, rt, road, &[], options.direction, report, &mut Silent);
        drop((sources, extras));
        let _ = judged?;
        return Err(AnswerFault::BadOption);
    }
    let queries = match run_queries(alloc, &sources, options.joint, schedule) {
        Ok(queries) => queries,
        Err(refused) => {
            drop((road, sources, extras));
            return Err(AnswerFault::from(refused));
        }
    };
    let judged = judge(alloc, rt, road, &queries, options.direction, report, watch);
    drop((sources, extras, queries));
    let verdict = judged?;
    Ok(verdict)
}
