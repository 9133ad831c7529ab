//! Whether a report is right.
ghost use Rattle.std.specs.Prelude.{◌≡◌, ◌↔◌, ℕ, Err, IfErr, IfOk, IsTrue, List, None, MatchResult, OnOk};
ghost use Rattle.std.specs.Io.KnownBytes.{IsAtEnd};
ghost use Rattle.ea_blocks.specs.Taking.{IsStopped};
ghost use Rattle.std.specs.List.{IsAmong};
ghost use Rattle.ea_road.specs.Queries.{Asking, IsProblem};
ghost use Rattle.ea_check.specs.Checked.{IsChecked, sources_of, AreCheckable};
ghost use Rattle.ea_check.specs.declared.form.stop.Stop.TheVariants.{Device};
ghost use Rattle.ea_check.specs.Form.{lines_of_report};
ghost use Rattle.ea_check.specs.Judging.{HasVerdict, JudgesTo, judged_as};
ghost use denote.Param.Send.{IsSync};
ghost use Rattle.ea_check.specs.Judges.{JudgesBy};
ghost use Rattle.ea_check.specs.Lazy.{roads_in};
ghost use Rattle.ea_check.specs.Parts.{AreAllJudged, AreFewParts};
ghost use Rattle.ea_check.specs.Streams.{IsSound, IsWholeText, most_bytes};
ghost use Rattle.ea_check.specs.Verdicts.{IsVerdict, MayJudge};

use crate::fault::CheckFault;
use crate::form::ahead::Ahead;
use crate::form::problem::read_problem;
use crate::form::report_lines::ReportLines;
use crate::form::reported::Reported;
use crate::form::stop::Stop;
use crate::judge::part::{Part, cut_arcs};
use crate::judge::verdict::{judge, judge_parts, judge_parts_by};
use crate::lazy_network::LazyNetwork;
use crate::team::{Alone, Several, Team};
use crate::text_in::TextIn;
use ea_base::{Direction, Silent, Watch};
use ea_blocks::ReadFault;
use ea_bytes::ByteIn;
use ea_road::{Network, NumberedArcs, Query, is_problem};
use ea_travel_times::TravelTimes;
use std::alloc::Global;
use std::thread::Threads;

/// The first fault of the problems read so far, of which this is the last.
fn check_next<J: Fn(&NumberedArcs, &Query, &Reported, u32, &mut [Part]), T: TravelTimes>(
    before: Result<(), CheckFault>,
    alloc: Global,
    judging: &J,
    network: &mut LazyNetwork<'_>,
    times: &T,
    query: &Query,
    reported: &Reported,
    parts: &mut [Part],
) -> Result<(), CheckFault>
    requires judging { JudgesBy J.Fn judging.now (T.answers times.now) (T.classes times.now) }
    requires problem { MayJudge (roads_in network.old) (T.classes times.now)
        query.now.sources reported.now }
    requires parts { AreFewParts (roads_in network.old) parts.old }
    ensures verdict { MatchResult before
        (λ _. IsVerdict (roads_in network.old) (T.answers times.now)
        query.now.sources reported.now result)
        (λ fault. result ≡ Err fault) }
    ensures network { roads_in network.new ≡ roads_in network.old }
    ensures parts { AreFewParts (roads_in network.old) parts.new }
{
    before?;
    judge(alloc, judging, network, times, query, reported, parts)
}

/// Whether queries can be checked on a network with travel times of classes up to the greatest: each is a
/// problem there, and asks all nodes.
pub fn is_checkable(network: &Network, classes: usize, queries: &[Query]) -> bool
    ensures { IsTrue result ↔ AreCheckable network.now classes queries.now }
{
    for query in queries {
        if query.target().is_some() || !is_problem(network, classes, query) {
            return false;
        }
    }
    true
}

/// The first fault of the lines of a report's problems.
fn check_lines<
    C: Team,
    J: Fn(&NumberedArcs, &Query, &Reported, u32, &mut [Part]),
    T: TravelTimes,
    R: ByteIn,
    V: Watch,
>(
    alloc: Global,
    team: &C,
    judging: &J,
    network: &mut LazyNetwork<'_>,
    times: &T,
    queries: &[Query],
    lines: &mut ReportLines,
    device: &mut R,
    watch: &mut V,
) -> Result<(), Stop>
    requires can { C.can_start team.now }
    requires judging { JudgesBy J.Fn judging.now (T.answers times.now) (T.classes times.now) }
    requires checkable { AreCheckable (roads_in network.old) (T.classes times.now) queries.now }
    requires sound { IsSound lines.old }
    ensures { JudgesTo
        (IsChecked (roads_in network.old) (T.answers times.now) (sources_of queries.now))
        (R.seen device.old) lines.old (R.seen device.new) lines.new result }
{
    let nodes = network.nodes();
    let mut reported = Reported::new(alloc);
    let mut ahead = Ahead::new(alloc, team.size())?;
    let mut cut = cut_arcs(alloc, network.arcs(), team.size())?;
    let parts = cut.as_mut_slice();
    let mut verdict = Ok(());
    let mut done = 0;
    for query in queries {
        read_problem(
            team,
            lines,
            device,
            nodes,
            query.sources(),
            &mut ahead,
            &mut reported,
        )?;
        verdict = check_next(
            verdict, alloc, judging, network, times, query, &reported, parts,
        );
        done += 1;
        watch.checked(nodes as usize, reported.walks());
        watch.did(done, queries.len());
    }
    match lines.line() {
        None => Ok(verdict?),
        Some(line) => Err(Stop::Report(CheckFault::BadLine(line.number))),
    }
}

/// The verdict that was found, or the fault of the device.
fn verdict_of(judged: Result<(), Stop>) -> Result<Result<(), CheckFault>, ReadFault>
    ensures { MatchResult result
        (λ verdict. judged ≡ judged_as verdict)
        (λ fault. judged ≡ Err (Device fault)) }
{
    match judged {
        Ok(()) => Ok(Ok(())),
        Err(stop) => match stop {
            Stop::Report(fault) => Ok(Err(fault)),
            Stop::Device(fault) => Err(fault),
        },
    }
}

/// Whether the report that a device gives is right: its form, each `d` line's time the least arrival (`inf`
/// if there is none), and each `w` line the canonical walk. Otherwise its first fault: a fault of form if the
/// report has any, else that of the first problem with one. Each query asks all nodes; its lines follow those
/// of the query before.
///
/// With `Direction::Turned` the report is one of latest departures: its times are departures, and its walks
/// lead to a target. The network, the travel times and the queries are then those turned round; a target that
/// has to be reached at A is a source that departs at HORIZON - A.
///
/// Reads the device once, to its end before any verdict. A problem's fault is kept while the form of later
/// problems is read. What the lines of one problem say is in memory at a time: of a walk only the arcs that it
/// doesn't share with the walk before.
///
/// Fails if the device couldn't be read, whatever its report: with `ReadFailed` if a read failed or was
/// interrupted for the 1,001st time; with `OutOfMemory` if memory for a block or a line was refused; with
/// `TooLarge` if it has more than 2^64 - 1 bytes. Refused memory for a problem is a `CheckFault`.
///
/// Several threads read plain lines and judge problems, if there are several; the verdict doesn't depend on them.
/// The network's index is made for the first problem that needs one: with a walk, or with a node whose time no
/// arc from an earlier time supports.
///
/// Takes time in proportion to the report, and to the network for each query.
pub fn check_stream<H: Threads + Sync, T: TravelTimes + Sync, R: ByteIn, V: Watch>(
    alloc: Global,
    team: &Several<'_, H>,
    network: LazyNetwork<'_>,
    times: &T,
    queries: &[Query],
    way: Direction,
    report: &mut R,
    watch: &mut V,
) -> Result<Result<(), CheckFault>, ReadFault>
    requires { AreCheckable (roads_in network) (T.classes times.now) queries.now }
    ensures checked { IfOk result (λ verdict. HasVerdict way
        (roads_in network.entry) (T.answers times.now) (sources_of queries.now)
        (R.seen report.old) (R.seen report.new) verdict) }
    ensures end { OnOk result (IsAtEnd (R.seen report.new).bytes) }
    ensures fault { IfErr result (IsStopped most_bytes (R.seen report.old) (R.seen report.new)) }
{
    let rt = team.rt;
    let judging = |network: &NumberedArcs, query: &Query, reported: &Reported, above: u32, parts: &mut [Part]|
        requires { IsSync H.row × IsSync T.row
            × MayJudge network.now (T.classes times.now) query.now.sources reported.now
            × AreFewParts network.now parts.now }
        ensures { AreAllJudged network.entry.now (T.answers times.entry.now) query.entry.now.sources
            reported.entry.now above parts.entry.now parts.exit.now }
    { judge_parts_by(rt, network, times, query, reported, above, parts) };
    check_by(
        alloc, team, &judging, network, times, queries, way, report, watch,
    )
}

/// Like `check_stream`, by those who work on the report.
fn check_by<
    C: Team,
    J: Fn(&NumberedArcs, &Query, &Reported, u32, &mut [Part]),
    T: TravelTimes,
    R: ByteIn,
    V: Watch,
>(
    alloc: Global,
    team: &C,
    judging: &J,
    mut network: LazyNetwork<'_>,
    times: &T,
    queries: &[Query],
    way: Direction,
    report: &mut R,
    watch: &mut V,
) -> Result<Result<(), CheckFault>, ReadFault>
    requires can { C.can_start team.now }
    requires judging { JudgesBy J.Fn judging.now (T.answers times.now) (T.classes times.now) }
    requires checkable { AreCheckable (roads_in network) (T.classes times.now) queries.now }
    ensures checked { IfOk result (λ verdict. HasVerdict way
        (roads_in network.entry) (T.answers times.now) (sources_of queries.now)
        (R.seen report.old) (R.seen report.new) verdict) }
    ensures end { OnOk result (IsAtEnd (R.seen report.new).bytes) }
    ensures fault { IfErr result (IsStopped most_bytes (R.seen report.old) (R.seen report.new)) }
{
    let mut lines = ReportLines::open(alloc, way, team.size(), report)?;
    let judged = check_lines(
        alloc,
        team,
        judging,
        &mut network,
        times,
        queries,
        &mut lines,
        report,
        watch,
    );
    let verdict = verdict_of(judged)?;
    lines.skip_rest(report)?;
    Ok(verdict)
}

/// Reads a report to its end and forgets it, for a caller that has to read it and can't check it.
///
/// Fails as `check_stream` does.
pub fn skip_report<R: ByteIn>(alloc: Global, report: &mut R) -> Result<(), ReadFault>
    ensures read { OnOk result
        ((text : List ℕ) × IsWholeText (R.seen report.old) (R.seen report.new) text) }
    ensures end { OnOk result (IsAtEnd (R.seen report.new).bytes) }
    ensures fault { IfErr result (IsStopped most_bytes (R.seen report.old) (R.seen report.new)) }
{
    let mut lines = ReportLines::unread(alloc, Direction::Forward, 1)?;
    lines.skip_rest(report)
}

/// Like `check_stream` for a report of earliest arrivals in memory. Refused memory is a `CheckFault`.
pub fn check<T: TravelTimes>(
    alloc: Global,
    network: &Network,
    times: &T,
    queries: &[Query],
    report: &[u8],
) -> Result<(), CheckFault>
    requires { AreCheckable network.now (T.classes times.now) queries.now }
    ensures { IsChecked network.now (T.answers times.now) (sources_of queries.now)
        (lines_of_report report.now) result }
{
    check_watched(alloc, network, times, queries, report, &mut Silent)
}

/// Like `check`; calls a watch after each problem.
pub fn check_watched<T: TravelTimes, V: Watch>(
    alloc: Global,
    network: &Network,
    times: &T,
    queries: &[Query],
    report: &[u8],
    watch: &mut V,
) -> Result<(), CheckFault>
    requires { AreCheckable network.now (T.classes times.now) queries.now }
    ensures { IsChecked network.now (T.answers times.now) (sources_of queries.now)
        (lines_of_report report.now) result }
{
    let mut device = TextIn::new(report);
    let way = Direction::Forward;
    let judging = |network: &NumberedArcs, query: &Query, reported: &Reported, above: u32, parts: &mut [Part]|
        requires { MayJudge network.now (T.classes times.now) query.now.sources reported.now
            × AreFewParts network.now parts.now }
        ensures { AreAllJudged network.entry.now (T.answers times.entry.now) query.entry.now.sources
            reported.entry.now above parts.entry.now parts.exit.now }
    { judge_parts(network, times, query, reported, above, parts) };
    match check_by(
        alloc,
        &Alone,
        &judging,
        LazyNetwork::Given(network),
        times,
        queries,
        way,
        &mut device,
        watch,
    ) {
        Ok(verdict) => verdict,
        // A text in memory can be read, and has fewer than 2^64 bytes.
        Err(_) => Err(CheckFault::OutOfMemory),
    }
}
