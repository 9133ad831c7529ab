//! The checker of reports.
ghost use Rattle.std.specs.Prelude.{◌≡◌, ◌↔◌, ◌<◌, ◌≤◌, All, IsTrue, Some, length};
ghost use Rattle.ea_check.specs.Checked.{AreCheckable, IsChecked, sources_of};
ghost use Rattle.ea_check.specs.Form.{lines_of_report};
ghost use Rattle.ea_capi.specs.Checks.{IsAnswerTo, IsJudged, IsToldOf, IsVerdict, refused_by, told_of_check};
ghost use Rattle.ea_capi.specs.States.{road_in};

use crate::fault_numbers::{BEYOND_HORIZON, DONE, Fault, NO_ROAD, NO_SUCH_NODE, OUT_OF_MEMORY};
use crate::handle::content::Content;
use crate::handle::handle::Handle;
use ea_base::{Direction, HORIZON};
use ea_check::{CheckFault, check, is_checkable};
use ea_load::{Road, Schedule, departures_fit, run_queries};
use ea_road::Query;
use std::alloc::Global;

/// The departures of a report's searches.
#[repr(C)]
#[derive(Clone, Copy, Debug, PartialEq, Eq)]
pub struct Starts {
    /// The departure from the first node.
    pub depart: u64,
    /// How much later each next node departs.
    pub gap: u64,
    /// 0 if each node is a separate problem; else all are one.
    pub joint: u32,
}

/// A report's fault as callers see it: 30 plus its number, or 13 if memory was refused.
fn tell_of_check(fault: CheckFault) -> Fault
    ensures { result ≡ told_of_check fault }
{
    match fault {
        CheckFault::OutOfMemory => Fault {
            line: 0,
            number: OUT_OF_MEMORY,
            text: 0,
        },
        CheckFault::BadLine(line)
        | CheckFault::NotAttained(line)
        | CheckFault::NotLeast(line)
        | CheckFault::NotCanonical(line) => Fault {
            line,
            number: 30 + u32::from(fault.number()),
            text: 3,
        },
    }
}

/// A refusal without a text's fault.
pub(crate) fn refusal(number: u32) -> Fault
    ensures { result ≡ refused_by number }
{
    Fault {
        line: 0,
        number,
        text: 0,
    }
}

/// The verdict on a report.
fn verdict(alloc: Global, road: &Road, queries: &[Query], report: &[u8]) -> Fault
    requires { AreCheckable road.now.network (length road.now.times.tables.list.items) queries.now }
    ensures { IsVerdict road.now (sources_of queries.now) (lines_of_report report.now) result }
{
    match check(alloc, &road.network, &road.times, queries, report) {
        Ok(_) => refusal(DONE),
        Err(fault) => tell_of_check(fault),
    }
}

/// The verdict on a report of queries, if they are queries on the road.
fn judge(alloc: Global, road: &Road, queries: &[Query], report: &[u8]) -> Fault
    ensures { IsJudged road.now queries.now (lines_of_report report.now) result }
{
    if !is_checkable(&road.network, road.times.tables.classes(), queries) {
        return refusal(NO_SUCH_NODE);
    }
    verdict(alloc, road, queries, report)
}

/// Whether all numbers are at least 1.
fn are_numbered(nodes: &[u32]) -> bool
    ensures { IsTrue result ↔ All (λ node. 0 < node) nodes.now }
{
    nodes.iter().all(|node| *node > 0)
}

/// The verdict on a report of problems from nodes that depart one after another, if these are problems on the
/// road.
fn judge_run(alloc: Global, road: &Road, nodes: &[u32], starts: &Starts, report: &[u8]) -> Fault
    ensures { IsAnswerTo road.now starts.now nodes.now (lines_of_report report.now) result }
{
    let Starts { depart, gap, joint } = *starts;
    if depart > HORIZON || gap > HORIZON {
        return refusal(BEYOND_HORIZON);
    }
    let schedule = Schedule {
        depart,
        gap,
        times: None,
        direction: Direction::Forward,
    };
    if !departures_fit(nodes.len(), schedule) {
        return refusal(BEYOND_HORIZON);
    }
    if !are_numbered(nodes) {
        return refusal(NO_SUCH_NODE);
    }
    match run_queries(alloc, nodes, joint > 0, schedule) {
        Ok(queries) => judge(alloc, road, &queries, report),
        Err(_) => refusal(OUT_OF_MEMORY),
    }
}

/// The verdict on a report, by the road of a handle's content.
fn judge_on(
    alloc: Global,
    content: &Content,
    nodes: &[u32],
    starts: &Starts,
    report: &[u8],
) -> Fault
    ensures { IsToldOf (road_in (Some content.now)) starts.now nodes.now
        (lines_of_report report.now) result }
{
    match content {
        Content::Road(share) => judge_run(alloc, share.road(), nodes, starts, report),
        _ => refusal(NO_ROAD),
    }
}

/// Checks a report of searches from these nodes on a road, which depart as `starts` says.
///
/// Returns 0 if the report is right. Otherwise `fault` gets the line of its first fault, and the number is 31
/// BadLine, 32 NotAttained, 33 NotLeast or 35 NotCanonical.
#[unsafe(no_mangle)]
pub extern "C" fn earliest_check(
    alloc: Global,
    road: &mut Handle,
    nodes: &[u32],
    starts: &Starts,
    report: &[u8],
    fault: &mut Fault,
) -> u32
    ensures same { road.new.value ≡ road.old.value }
    ensures number { result ≡ fault.new.number }
    ensures told { IsToldOf (road_in road.old.value) starts.now nodes.now
        (lines_of_report report.now) fault.new }
{
    let Some(content) = road.take(alloc) else {
        *fault = refusal(NO_ROAD);
        return NO_ROAD;
    };
    let found = judge_on(alloc, &content, nodes, starts, report);
    road.put(content);
    *fault = found;
    found.number
}
