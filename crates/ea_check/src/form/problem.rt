//! The lines of a problem.
ghost use Rattle.std.specs.Prelude.{◌≡◌, ◌⊎◌, ◌+◌, ◌<◌, ◌≤◌, ◌^◌, ◌++◌, ◌∷◌, [], IfOk, MatchResult, None, length};
ghost use Rattle.std.specs.List.{IsAmong};
ghost use Rattle.ea_base.specs.declared.limits.TheConstants.{HORIZON};
ghost use Rattle.ea_road.specs.declared.source.Source.{Source};
ghost use Rattle.ea_check.specs.declared.fault.CheckFault.TheVariants.{OutOfMemory};
ghost use Rattle.ea_check.specs.declared.form.stop.Stop.TheVariants.{Report};
ghost use Rattle.ea_check.specs.Ahead.{ReadsAhead};
ghost use Rattle.ea_check.specs.Runs.{saids};
ghost use Rattle.ea_check.specs.Reads.{NodeWrong, NodesWrong, ProblemWrong, ReadsProblem, ReadsSources, SourcesWrong, WalkWrong};
ghost use Rattle.ea_check.specs.Problems.{ReadsOneMore, ReadsWalkOf, ReadsAllNodes};
ghost use Rattle.ea_check.specs.Stops.{ReadsOrStops};
ghost use Rattle.ea_check.specs.Streams.{IsSound, LeadsTo};

use crate::fault::CheckFault;
use crate::form::ahead::Ahead;
use crate::form::kept::{SaidLine, WalkLine};
use crate::form::line_form::{is_walk_line, says_source, says_walk, time_said};
use crate::form::report_lines::ReportLines;
use crate::form::reported::Reported;
use crate::form::stop::Stop;
use crate::team::Team;
use ea_bytes::ByteIn;
use ea_road::{NONE, Source};

/// Reads the line of a source.
fn read_source<R: ByteIn>(
    lines: &mut ReportLines,
    device: &mut R,
    source: Source,
) -> Result<(), Stop>
    requires departure { source.departure ≤ HORIZON }
    requires sound { IsSound lines.old }
    ensures { ReadsOrStops
        (λ _. LeadsTo (ReadsSources (source ∷ []))
        (R.seen device.old) lines.old (R.seen device.new) lines.new)
        (SourcesWrong (source ∷ []))
        (R.seen device.old) lines.old (R.seen device.new) lines.new result }
{
    let Some(line) = lines.line() else {
        return Err(Stop::Report(CheckFault::BadLine(0)));
    };
    if !says_source(line.way, line.text, source) {
        return Err(Stop::Report(CheckFault::BadLine(line.number)));
    }
    lines.find(device)?;
    Ok(())
}

/// Reads the lines of sources.
fn read_sources<R: ByteIn>(
    lines: &mut ReportLines,
    device: &mut R,
    sources: &[Source],
) -> Result<(), Stop>
    requires departures { (source : Source) → IsAmong sources.now source
        → source.departure ≤ HORIZON }
    requires sound { IsSound lines.old }
    ensures { ReadsOrStops
        (λ _. LeadsTo (ReadsSources sources.now)
        (R.seen device.old) lines.old (R.seen device.new) lines.new)
        (SourcesWrong sources.now)
        (R.seen device.old) lines.old (R.seen device.new) lines.new result }
{
    for source in sources {
        read_source(lines, device, *source)?;
    }
    Ok(())
}

/// Keeps a node's time, without a walk.
fn keep_time(number: u64, time: u64, reported: &mut Reported) -> Result<(), Stop>
    ensures { MatchResult result
        (λ _. reported.new ≡ reported.old ++ record { line = number; time = time; walk = None } ∷ [])
        (λ stop. stop ≡ Report OutOfMemory) }
{
    reported.push(SaidLine {
        line: number,
        time,
        walk: None,
    })?;
    Ok(())
}

/// Reads a node's `w` line if a `w` line comes next, and keeps it with the node's time.
fn read_walk<R: ByteIn>(
    lines: &mut ReportLines,
    device: &mut R,
    node: u32,
    number: u64,
    time: u64,
    reported: &mut Reported,
) -> Result<(), Stop>
    requires { IsSound lines.old }
    ensures { ReadsOrStops
        (λ _. ReadsWalkOf node number time reported.old reported.new
        (R.seen device.old) lines.old (R.seen device.new) lines.new)
        (WalkWrong node) (R.seen device.old) lines.old (R.seen device.new) lines.new result }
{
    let Some(line) = lines.line() else {
        return keep_time(number, time, reported);
    };
    if !is_walk_line(line.text) {
        return keep_time(number, time, reported);
    }
    let Some((count, arcs)) = says_walk(line.text, node) else {
        return Err(Stop::Report(CheckFault::BadLine(line.number)));
    };
    let walk = WalkLine {
        line: line.number,
        way: line.way,
        count,
        arcs,
    };
    reported.push(SaidLine {
        line: number,
        time,
        walk: Some(walk),
    })?;
    lines.find(device)?;
    Ok(())
}

/// Reads the lines of a node.
fn read_node<R: ByteIn>(
    lines: &mut ReportLines,
    device: &mut R,
    node: u32,
    reported: &mut Reported,
) -> Result<(), Stop>
    requires { IsSound lines.old }
    ensures { ReadsOrStops
        (λ _. ReadsOneMore node reported.old reported.new
        (R.seen device.old) lines.old (R.seen device.new) lines.new)
        (NodeWrong node) (R.seen device.old) lines.old (R.seen device.new) lines.new result }
{
    let Some(line) = lines.line() else {
        return Err(Stop::Report(CheckFault::BadLine(0)));
    };
    let number = line.number;
    let Some(time) = time_said(line.way, line.text, node) else {
        return Err(Stop::Report(CheckFault::BadLine(number)));
    };
    lines.find(device)?;
    if time == NONE {
        return keep_time(number, time, reported);
    }
    read_walk(lines, device, node, number, time, reported)
}

/// Keeps the times of a node and of those that follow it, which have no walks. Their lines follow each other
/// from this one on.
fn keep_times(number: u64, time: u64, times: &[u64], reported: &mut Reported) -> Result<(), Stop>
    requires { number + length times.now + 1 < 2 ^ 64 }
    ensures { MatchResult result
        (λ _. reported.new ≡ reported.old ++ saids number (time ∷ times.now))
        (λ stop. stop ≡ Report OutOfMemory) }
{
    keep_time(number, time, reported)?;
    reported.extend(number + 1, times)?;
    Ok(())
}

/// Reads the lines of nodes from this one on, up to that before the last, as far as they are plain and in the
/// block. Returns their number.
fn read_ahead<C: Team, R: ByteIn>(
    team: &C,
    lines: &mut ReportLines,
    device: &mut R,
    node: u32,
    last: u32,
    ahead: &mut Ahead,
    reported: &mut Reported,
) -> Result<u32, Stop>
    requires can { C.can_start team.now }
    requires sound { IsSound lines.old }
    ensures few { IfOk result (λ count. count ≡ 0 ⊎ (node + count ≤ last)) }
    ensures reads { ReadsOrStops
        (λ count. ReadsAhead node count reported.old reported.new
        (R.seen device.old) lines.old (R.seen device.new) lines.new)
        (NodeWrong node) (R.seen device.old) lines.old (R.seen device.new) lines.new result }
{
    if node >= last {
        return Ok(0);
    }
    let Some(bytes) = lines.look_ahead(team, node + 1, last, ahead) else {
        return Ok(0);
    };
    let Some(line) = lines.line() else {
        return Ok(0);
    };
    let number = line.number;
    let Some(time) = time_said(line.way, line.text, node) else {
        return Ok(0);
    };
    keep_times(number, time, &ahead.times, reported)?;
    lines.pass(bytes, ahead.times.len());
    lines.find(device)?;
    Ok(ahead.times.len() as u32 + 1)
}

/// Reads the lines of all nodes, in place of what was reported before. The times of `ahead` are
/// forgotten.
fn read_nodes<C: Team, R: ByteIn>(
    team: &C,
    lines: &mut ReportLines,
    device: &mut R,
    nodes: u32,
    ahead: &mut Ahead,
    reported: &mut Reported,
) -> Result<(), Stop>
    requires can { C.can_start team.now }
    requires sound { IsSound lines.old }
    requires nodes { nodes + 1 < 2 ^ 32 }
    ensures { ReadsOrStops
        (λ _. ReadsAllNodes nodes reported.new
        (R.seen device.old) lines.old (R.seen device.new) lines.new)
        (NodesWrong 1 nodes) (R.seen device.old) lines.old (R.seen device.new) lines.new result }
{
    reported.begin(nodes as usize)?;
    let mut node = 1;
    'nodes: while node <= nodes {
        let count = read_ahead(team, lines, device, node, nodes, ahead, reported)?;
        read_node(lines, device, node + count, reported)?;
        node += count + 1;
    }
    Ok(())
}

/// Reads the lines of a problem, in place of what was reported before. The times of `ahead` are
/// forgotten.
pub(crate) fn read_problem<C: Team, R: ByteIn>(
    team: &C,
    lines: &mut ReportLines,
    device: &mut R,
    nodes: u32,
    sources: &[Source],
    ahead: &mut Ahead,
    reported: &mut Reported,
) -> Result<(), Stop>
    requires can { C.can_start team.now }
    requires departures { (source : Source) → IsAmong sources.now source
        → source.departure ≤ HORIZON }
    requires sound { IsSound lines.old }
    requires nodes { nodes + 1 < 2 ^ 32 }
    ensures { ReadsOrStops
        (λ _. LeadsTo (ReadsProblem nodes sources.now reported.new)
        (R.seen device.old) lines.old (R.seen device.new) lines.new)
        (ProblemWrong nodes sources.now)
        (R.seen device.old) lines.old (R.seen device.new) lines.new result }
{
    read_sources(lines, device, sources)?;
    read_nodes(team, lines, device, nodes, ahead, reported)
}
