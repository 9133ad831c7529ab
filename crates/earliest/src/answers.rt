//! From files to a report.
ghost use Rattle.std.specs.Prelude.{◌≡◌, ◌≤◌};
ghost use Rattle.ea_base.specs.declared.limits.TheConstants.{HORIZON};
ghost use Rattle.ea_load.specs.Extra.{extras_in};
ghost use Rattle.ea_load.specs.Files.{reading};
ghost use Rattle.ea_load.specs.Asked.{files_of};
ghost use Rattle.ea_options.specs.Limits.{AreOptions};
ghost use Rattle.ea_load.specs.Starts.{plan_of};
ghost use Rattle.ea_report.specs.Asked.{shape_of};
ghost use Rattle.earliest.specs.Fronts.{shape_by};
ghost use Rattle.earliest.specs.Runs.{AnswersOrFails, pair_asks, plan_by, run_asks};

use crate::preparing::{layout_for, road_for_pairs};
use crate::reports::report_all;
use crate::run_road::RunRoad;
use ea_base::{Silent, Watch};
use ea_batch::{Aids, Watched, few_chosen};
use ea_bytes::{ByteIn, ByteOut};
use ea_load::{
    AnswerFault, ExtraLists, OptionalFiles, PairFiles, Schedule, departures_fit, pair_queries,
    read_extras, read_pairs, read_run_by, run_queries,
};
use ea_options::RunOptions;
use ea_report::{ReportOptions, Style, Totals};
use std::alloc::Global;
use std::thread::Threads;

/// When starts depart or have to be reached.
pub(crate) fn schedule_by<'a>(options: &RunOptions, extras: &'a ExtraLists) -> Schedule<'a>
    requires { AreOptions options.now }
    ensures plan { plan_of result ≡ plan_by options.now (extras_in extras.now).times }
    ensures depart { result.depart ≤ HORIZON }
    ensures gap { result.gap ≤ HORIZON }
{
    Schedule {
        depart: options.depart,
        gap: options.gap,
        times: extras.times(),
        direction: options.direction,
    }
}

/// What a report shows.
fn shown_by<'a>(options: &RunOptions, extras: &'a ExtraLists) -> ReportOptions<'a>
    ensures { shape_of result ≡ shape_by options.now (extras_in extras.now).nodes }
{
    ReportOptions {
        style: Style {
            walks: options.walks,
            direction: options.direction,
        },
        nodes: extras.nodes(),
    }
}

/// Answers a run: reads the network, the sources and, if they are there, timetables, times of the sources and
/// nodes, and writes the report. For each source, or with `joint` for all together, it has the earliest arrival
/// at each node, or at these nodes; with `walks` a walk that attains it; and with `stats` the totals of the
/// workers. Turned round, sources are targets, and it has the latest departure that is in time.
///
/// Source i, from 0, departs at `depart + i * gap`, or at its own time. Apart from the totals, the report
/// doesn't depend on workers, heaps, turns and seed. Files are read in this order, each to its end and at most
/// 2^33 bytes, before anything is written.
///
/// Fails with `Read` or `Input` for the first fault of the files in their order, and with `BadOption` for a
/// departure above 2^48 - 1; then nothing was written. After `Write` and `OutOfMemory` the bytes written are
/// the first of the report.
pub fn answer<H: Threads + Sync, G: ByteIn, S: ByteIn, T: ByteIn, W: ByteOut>(
    alloc: Global,
    rt: &H,
    gr: &mut G,
    ss: &mut S,
    others: &mut OptionalFiles<T>,
    options: &RunOptions,
    out: &mut W,
) -> Result<Totals, AnswerFault>
    requires { AreOptions options.now }
    ensures { AnswersOrFails (run_asks options.now)
        (files_of (reading G.seen gr.old gr.new)
        (reading S.seen ss.old ss.new) T.seen others.old others.new)
        (W.seen out.old) (W.seen out.new) result }
{
    answer_watched(alloc, rt, gr, ss, others, options, out, &mut Silent)
}

/// Like `answer`; calls a watch as problems are done.
pub(crate) fn answer_watched<
    H: Threads + Sync,
    G: ByteIn,
    S: ByteIn,
    T: ByteIn,
    W: ByteOut,
    V: Watch,
>(
    alloc: Global,
    rt: &H,
    gr: &mut G,
    ss: &mut S,
    others: &mut OptionalFiles<T>,
    options: &RunOptions,
    out: &mut W,
    watch: &mut V,
) -> Result<Totals, AnswerFault>
    requires { AreOptions options.now }
    ensures { AnswersOrFails (run_asks options.now)
        (files_of (reading G.seen gr.old gr.new)
        (reading S.seen ss.old ss.new) T.seen others.old others.new)
        (W.seen out.old) (W.seen out.new) result }
{
    let files = read_run_by(alloc, rt, gr, ss, &mut others.tp, options.direction)?;
    let extras = match read_extras(
        alloc,
        &mut others.times,
        &mut others.nodes,
        files.sources.len() as u32,
        files.road.network.nodes(),
    ) {
        Ok(extras) => extras,
        Err(fault) => {
            drop(files);
            return Err(AnswerFault::from(fault));
        }
    };
    let schedule = schedule_by(options, &extras);
    if !departures_fit(files.sources.len(), schedule) {
        drop((files, extras));
        return Err(AnswerFault::BadOption);
    }
    let queries = match run_queries(alloc, &files.sources, options.joint, schedule) {
        Ok(queries) => queries,
        Err(refused) => {
            drop((files, extras));
            return Err(AnswerFault::from(refused));
        }
    };
    let shown = shown_by(options, &extras);
    // A search for a few nodes reads less of the network than making a layout does.
    let layout = match few_chosen(files.road.network.nodes(), shown) {
        Some(_) => None,
        None => layout_for(alloc, rt, &files.road, &queries, options),
    };
    let aids = Aids {
        layout: layout.as_ref(),
    };
    let watched = Watched { shown, aids, watch };
    let road = RunRoad::AsRead(&files.road);
    let answered = report_all(alloc, rt, road, &queries, options, watched, out);
    drop((files, extras, queries, layout));
    answered
}

/// Answers pairs: like `answer`, with the earliest arrival at the target of each pair alone or, turned round,
/// the latest departure from its source. Pair i, from 0, departs at `depart + i * gap`, or at its own time;
/// `joint` has no effect.
pub fn answer_pairs<H: Threads + Sync, G: ByteIn, P: ByteIn, T: ByteIn, W: ByteOut>(
    alloc: Global,
    rt: &H,
    gr: &mut G,
    p2p: &mut P,
    others: &mut OptionalFiles<T>,
    options: &RunOptions,
    out: &mut W,
) -> Result<Totals, AnswerFault>
    requires { AreOptions options.now }
    ensures { AnswersOrFails (pair_asks options.now)
        (files_of (reading G.seen gr.old gr.new)
        (reading P.seen p2p.old p2p.new) T.seen others.old others.new)
        (W.seen out.old) (W.seen out.new) result }
{
    pairs_watched(alloc, rt, gr, p2p, others, options, out, &mut Silent)
}

/// Like `answer_pairs`; calls a watch as problems are done.
pub(crate) fn pairs_watched<
    H: Threads + Sync,
    G: ByteIn,
    P: ByteIn,
    T: ByteIn,
    W: ByteOut,
    V: Watch,
>(
    alloc: Global,
    rt: &H,
    gr: &mut G,
    p2p: &mut P,
    others: &mut OptionalFiles<T>,
    options: &RunOptions,
    out: &mut W,
    watch: &mut V,
) -> Result<Totals, AnswerFault>
    requires { AreOptions options.now }
    ensures { AnswersOrFails (pair_asks options.now)
        (files_of (reading G.seen gr.old gr.new)
        (reading P.seen p2p.old p2p.new) T.seen others.old others.new)
        (W.seen out.old) (W.seen out.new) result }
{
    let files = read_pairs(alloc, rt, gr, p2p, &mut others.tp, options.direction)?;
    let extras = match read_extras(
        alloc,
        &mut others.times,
        &mut others.nodes,
        files.pairs.len() as u32,
        files.road.network.nodes(),
    ) {
        Ok(extras) => extras,
        Err(fault) => {
            drop(files);
            return Err(AnswerFault::from(fault));
        }
    };
    let schedule = schedule_by(options, &extras);
    if !departures_fit(files.pairs.len(), schedule) {
        drop((files, extras));
        return Err(AnswerFault::BadOption);
    }
    let queries = match pair_queries(alloc, &files.pairs, schedule) {
        Ok(queries) => queries,
        Err(refused) => {
            drop((files, extras));
            return Err(AnswerFault::from(refused));
        }
    };
    let shown = shown_by(options, &extras);
    let PairFiles { road, pairs } = files;
    let road = road_for_pairs(alloc, rt, road, &queries, options, watch);
    let watched = Watched {
        shown,
        aids: Aids { layout: None },
        watch,
    };
    let answered = report_all(alloc, rt, road.as_run(), &queries, options, watched, out);
    drop((road, pairs, extras, queries));
    answered
}
