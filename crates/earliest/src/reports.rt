//! Writing the reports of problems one after another, and their totals.
ghost use Rattle.std.specs.Prelude.{◌≡◌, ◌≤◌, ◌+◌, ◌*◌, ◌^◌, IfOk, IfSome, OnOk, true};
ghost use Rattle.ea_base.specs.declared.limits.TheConstants.{MOST_STARTS};
ghost use Rattle.ea_report.specs.Asked.{shape_of};
ghost use Rattle.ea_report.specs.declared.stats.Totals.{Totals};
ghost use Rattle.ea_batch.specs.Arrays.{IsAided, KeepsArrays};
ghost use Rattle.ea_batch.specs.Reportable.{IsReportable};
ghost use Rattle.ea_batch.specs.Sending.{SendsReport};
ghost use Rattle.ea_load.specs.Posed.{IsPosed};
ghost use Rattle.ea_options.specs.Limits.{counted_workers};
ghost use Rattle.ea_batch.specs.Solved.{IsLaidOut};
ghost use Rattle.earliest.specs.Choices.{CanRenumber, CanSetUp};
ghost use Rattle.earliest.specs.RunRoads.{IsReadyFor, road_in, road_of_run};
ghost use Rattle.earliest.specs.Running.{AddsFound, AddsReport, AddsTotals, HasReportedNothing, IsFoundByWorkers, IsRunning, MayReport, MayReportAll, ReportsAll, WritesAll, WritesTotals};

use crate::ahead::Ahead;
use crate::run_road::{RenumberedRoad, RunRoad};
use crate::solver_choice::{
    Found, counted_at_once, find, goes_ahead, is_alone, threads_at_once, workers_of,
};
use crate::totals::{add_totals, no_totals};
use ea_base::Watch;
use ea_batch::{Aids, Progress, SearchRoad, Watched, few_chosen, report_ahead};
use ea_bytes::ByteOut;
use ea_load::{AnswerFault, Road};
use ea_options::RunOptions;
use ea_report::{ReportOptions, Totals, write_stats};
use ea_road::Query;
use std::alloc::{AllocError, Global};
use std::thread::Threads;

/// What was sent so far, and the totals of its problems.
#[derive(Drop)]
pub(crate) struct Reports<'a> {
    pub totals: Totals,
    pub progress: Progress<'a>,
    /// What was found of the next problem, if it was searched before its turn.
    pub found: Option<Found>,
}

impl<'a> Reports<'a> {
    /// Nothing sent yet.
    fn begin(aids: Aids<'a>) -> Reports<'a>
        ensures { HasReportedNothing aids.entry result }
    {
        Reports {
            totals: no_totals(),
            progress: Progress::begin(aids, None),
            found: None,
        }
    }
}

impl Reports<'_> {
    /// Writes the report of a problem that workers answered, and adds its totals.
    fn write_found<W: ByteOut>(
        &mut self,
        alloc: Global,
        road: &Road,
        query: &Query,
        found: &Found,
        shown: ReportOptions<'_>,
        out: &mut W,
    ) -> Result<(), AnswerFault>
        requires reportable { IsReportable road.now (shape_of shown) query.now }
        requires found { IsFoundByWorkers shown.style.walks road.now query.now found.now }
        requires running { IsRunning self.old.progress.written self.old.totals }
        ensures sends { SendsReport (shape_of shown.entry) road.now query.now
            (W.seen out.old) (W.seen out.new)
            self.old.progress.written self.new.progress.written result }
        ensures adds { OnOk result (AddsTotals self.old.totals found.now.totals self.new.totals) }
        ensures kept { KeepsArrays self.old.progress self.new.progress }
    {
        let searched = SearchRoad::of(road);
        self.progress
            .write(alloc, &searched, query, &found.answer, shown, out)?;
        add_totals(&mut self.totals, &found.totals);
        Ok(())
    }

    /// Finds the answer of a problem and writes its report. One worker is the search of one thread, unless
    /// its turns are counted.
    fn report<H: Threads + Sync, W: ByteOut>(
        &mut self,
        alloc: Global,
        rt: &H,
        road: &Road,
        query: &Query,
        options: &RunOptions,
        shown: ReportOptions<'_>,
        out: &mut W,
    ) -> Result<(), AnswerFault>
        requires run { MayReport road.now query.now options.now (shape_of shown) self.old }
        ensures sends { SendsReport (shape_of shown.entry) road.now query.now
            (W.seen out.old) (W.seen out.new)
            self.old.progress.written self.new.progress.written result }
        ensures adds { OnOk result (AddsReport options.now query.now
            self.old.totals self.new.totals) }
        ensures aided { IsAided road.now shown.entry.style.walks
            self.new.progress.search self.new.progress.aids }
    {
        let are_few = few_chosen(road.network.nodes(), shown).is_some();
        let workers = workers_of(rt, road, query, options, are_few);
        if is_alone(options, workers) {
            let searched = SearchRoad::of(road);
            return self
                .progress
                .report_alone(alloc, &searched, query, shown, out);
        }
        match self.take_found(alloc, rt, road, query, options, workers) {
            Ok(found) => self.write_found(alloc, road, query, &found, shown, out),
            Err(_) => Err(AnswerFault::OutOfMemory {
                written: self.progress.written,
            }),
        }
    }

    /// What workers find of a problem, or what was found before its turn. An error comes only if memory was refused.
    fn take_found<H: Threads + Sync>(
        &mut self,
        alloc: Global,
        rt: &H,
        road: &Road,
        query: &Query,
        options: &RunOptions,
        workers: u32,
    ) -> Result<Found, AllocError>
        requires posed { IsPosed road.now query.now }
        requires can { CanSetUp options.now workers }
        requires counted { options.now.stats ≡ true → workers ≡ counted_workers options.now }
        requires found { IfSome self.old.found (AddsFound options.now road.now query.now) }
        ensures found { IfOk result (AddsFound options.now road.now query.now) }
        ensures totals { self.new.totals ≡ self.old.totals }
        ensures progress { self.new.progress ≡ self.old.progress }
    {
        match self.found.take() {
            Some(found) => Ok(found),
            None => find(alloc, rt, road, query, options, workers),
        }
    }
}

/// Writes the reports of problems in their order, and calls the watch after each.
fn report_each<'a, H: Threads + Sync, W: ByteOut, V: Watch>(
    alloc: Global,
    rt: &H,
    road: &Road,
    queries: &[Query],
    options: &RunOptions,
    watched: Watched<'a, V>,
    out: &mut W,
) -> Result<Reports<'a>, AnswerFault>
    requires run { MayReportAll road.now queries.now options.now (shape_of watched.shown) watched.aids }
    ensures { ReportsAll options.now (shape_of watched.entry.shown) road.now queries.now
        (W.seen out.old) (W.seen out.new) result }
{
    let Watched { shown, aids, watch } = watched;
    let mut reports = Reports::begin(aids);
    let mut ahead = Ahead::over(alloc, counted_at_once(rt, options));
    // Proof hint: the count fits in u64.
    let _ = out.interruptions();
    let mut done = 0;
    for query in queries {
        reports.found = ahead.take(alloc, rt, road, queries, options, done);
        match reports.report(alloc, rt, road, query, options, shown, out) {
            Ok(()) => {}
            Err(fault) => {
                drop(reports);
                return Err(fault);
            }
        }
        done += 1;
        watch.did(done, queries.len());
    }
    Ok(reports)
}

/// Writes the reports of problems in their order: by several threads at once if the options or the number of
/// processors say so.
fn report_read<'a, H: Threads + Sync, W: ByteOut, V: Watch>(
    alloc: Global,
    rt: &H,
    road: &Road,
    queries: &[Query],
    options: &RunOptions,
    watched: Watched<'a, V>,
    out: &mut W,
) -> Result<Reports<'a>, AnswerFault>
    requires run { MayReportAll road.now queries.now options.now (shape_of watched.shown) watched.aids }
    ensures { ReportsAll options.now (shape_of watched.entry.shown) road.now queries.now
        (W.seen out.old) (W.seen out.new) result }
{
    let Watched { shown, aids, watch } = watched;
    let watched = Watched { shown, aids, watch };
    let threads = threads_at_once(rt, options);
    if !goes_ahead(options, threads, queries.len()) {
        return report_each(alloc, rt, road, queries, options, watched, out);
    }
    let searched = SearchRoad::of(road);
    match report_ahead(alloc, rt, &searched, queries, watched, threads, out) {
        Ok(progress) => Ok(Reports {
            totals: no_totals(),
            progress,
            found: None,
        }),
        Err(fault) => Err(fault),
    }
}

/// Writes the reports of problems on a renumbered road in their order: by several threads at once, if there are several problems.
fn report_renumbered<'a, H: Threads + Sync, W: ByteOut, V: Watch>(
    alloc: Global,
    rt: &H,
    road: &RenumberedRoad,
    queries: &[Query],
    options: &RunOptions,
    watched: Watched<'a, V>,
    out: &mut W,
) -> Result<Reports<'a>, AnswerFault>
    requires run { MayReportAll (road_in road.now) queries.now options.now (shape_of watched.shown) watched.aids }
    requires laid_out { IsLaidOut (road_in road.now) road.now.layout }
    requires can { CanRenumber queries.now options.now }
    ensures { ReportsAll options.now (shape_of watched.entry.shown) (road_in road.now) queries.now
        (W.seen out.old) (W.seen out.new) result }
{
    let Watched { shown, aids, watch } = watched;
    let watched = Watched { shown, aids, watch };
    let threads = if queries.len() > 1 {
        threads_at_once(rt, options)
    } else {
        1
    };
    let searched = SearchRoad::renumbered(&road.layout, &road.times);
    match report_ahead(alloc, rt, &searched, queries, watched, threads, out) {
        Ok(progress) => Ok(Reports {
            totals: no_totals(),
            progress,
            found: None,
        }),
        Err(fault) => Err(fault),
    }
}

/// Writes the reports of problems in their order.
fn report_problems<'a, H: Threads + Sync, W: ByteOut, V: Watch>(
    alloc: Global,
    rt: &H,
    road: RunRoad<'_>,
    queries: &[Query],
    options: &RunOptions,
    watched: Watched<'a, V>,
    out: &mut W,
) -> Result<Reports<'a>, AnswerFault>
    requires run { MayReportAll (road_of_run road) queries.now options.now (shape_of watched.shown) watched.aids }
    requires sound { IsReadyFor queries.now options.now road }
    ensures { ReportsAll options.now (shape_of watched.entry.shown) (road_of_run road.entry) queries.now
        (W.seen out.old) (W.seen out.new) result }
{
    match road {
        RunRoad::AsRead(road) => report_read(alloc, rt, road, queries, options, watched, out),
        RunRoad::Renumbered(road) => {
            report_renumbered(alloc, rt, road, queries, options, watched, out)
        }
    }
}

/// Writes the totals, if statistics are asked for.
fn write_totals<W: ByteOut>(reports: &Reports, stats: bool, out: &mut W) -> Result<(), AnswerFault>
    requires { reports.now.progress.written ≤ MOST_STARTS * 2 ^ 90 }
    ensures { WritesTotals reports.now stats (W.seen out.old) (W.seen out.new) result }
{
    if stats {
        match write_stats(&reports.totals, out) {
            Ok(_) => Ok(()),
            Err(fault) => Err(AnswerFault::Write {
                written: reports.progress.written + fault.written,
            }),
        }
    } else {
        Ok(())
    }
}

/// Writes the reports of problems in their order and, with statistics, the totals.
pub(crate) fn report_all<H: Threads + Sync, W: ByteOut, V: Watch>(
    alloc: Global,
    rt: &H,
    road: RunRoad<'_>,
    queries: &[Query],
    options: &RunOptions,
    watched: Watched<'_, V>,
    out: &mut W,
) -> Result<Totals, AnswerFault>
    requires run { MayReportAll (road_of_run road) queries.now options.now (shape_of watched.shown) watched.aids }
    requires sound { IsReadyFor queries.now options.now road }
    ensures { WritesAll options.now (shape_of watched.entry.shown) (road_of_run road.entry) queries.now
        (W.seen out.old) (W.seen out.new) result }
{
    let Watched { shown, aids, watch } = watched;
    let watched = Watched { shown, aids, watch };
    let reports = report_problems(alloc, rt, road, queries, options, watched, out)?;
    match write_totals(&reports, options.stats, out) {
        Ok(()) => {}
        Err(fault) => {
            drop(reports);
            return Err(fault);
        }
    }
    let totals = reports.totals;
    drop(reports);
    Ok(totals)
}
