//! Reports of many nodes, which several threads read and judge: the verdict is that of one thread.
ghost use Rattle.std.specs.Prelude.{◌<◌};

use crate::asserts::assert_none_wrong;
use crate::streamed::{forward, in_pieces, one_query};
use CheckFault::{BadLine, NotAttained};
use ea_check::CheckFault;
use ea_road::Network;
use std::alloc::{AllocError, Global};
use std::test::Fail;
use std::thread::Threads;
use test_support::networks::{network_of, times_of};

/// Enough that several threads read a report and judge the arcs.
const NODES: u32 = 70_000;

/// An arc from each node to the next.
fn chain(alloc: Global) -> Result<Option<Network>, AllocError> {
    let mut rows = Vec::new(alloc);
    for node in 1..NODES {
        rows.push((node, node + 1, 1, 0))?;
    }
    network_of(alloc, NODES, &rows)
}

/// What is written in place of a node's line.
#[derive(Clone, Copy)]
enum Change {
    /// Nothing: the line is left out.
    Missing,
    /// The line with two blanks.
    Blanks,
    /// The line with a carriage return.
    Return,
    /// The line with another word.
    Word,
    /// A time that is too late.
    Late,
    /// No time.
    Unreached,
    /// The line, and a walk that begins at no source.
    Walk,
}

const CHANGES: [Change; 7] = [
    Change::Missing,
    Change::Blanks,
    Change::Return,
    Change::Word,
    Change::Late,
    Change::Unreached,
    Change::Walk,
];

/// The text in place of a node's line.
fn text_of(alloc: Global, change: Change, node: u32) -> Result<String, AllocError> {
    let time = node.saturating_sub(1);
    match change {
        Change::Missing => Ok(String::new(alloc)),
        Change::Blanks => format!(in alloc; "d  {node} {time}\n"),
        Change::Return => format!(in alloc; "d {node} {time}\r\n"),
        Change::Word => format!(in alloc; "x {node} {time}\n"),
        Change::Late => format!(in alloc; "d {node} 1{time}\n"),
        Change::Unreached => format!(in alloc; "d {node} inf\n"),
        Change::Walk => format!(in alloc; "d {node} {time}\nw {node} 0\n"),
    }
}

/// The verdict on a report that is changed at a node, but the last one.
fn wanted(change: Change, node: u32) -> Result<(), CheckFault> {
    let line = u64::from(node) + 1;
    match change {
        Change::Missing => Err(BadLine(line)),
        Change::Blanks => Ok(()),
        Change::Return => Ok(()),
        Change::Word => Err(BadLine(line)),
        Change::Late => Err(NotAttained(line)),
        Change::Unreached => Err(NotAttained(line + 1)),
        Change::Walk => Err(NotAttained(line + 1)),
    }
}

/// The lines of the chain's nodes from one on up to another, which is not among them.
fn lines_of(alloc: Global, from: u32, to: u32) -> Result<Vec<u8>, AllocError> {
    let mut lines = Vec::new(alloc);
    for node in from..to {
        let time = node.saturating_sub(1);
        let line = format!(in alloc; "d {node} {time}\n")?;
        lines.extend_from_slice(line.as_bytes())?;
    }
    Ok(lines)
}

/// The report of the chain from node 1 at 0, changed at a node, given the lines before it and after it.
fn report_with(
    alloc: Global,
    front: &[u8],
    line: &[u8],
    back: &[u8],
) -> Result<Vec<u8>, AllocError> {
    let mut report = b"s 1 0\n".to_vec(alloc)?;
    report.extend_from_slice(front)?;
    report.extend_from_slice(line)?;
    report.extend_from_slice(back)?;
    Ok(report)
}

/// The first change at a node with another verdict.
fn wrong_change<H: Threads + Sync>(
    rt: &H,
    alloc: Global,
    network: &Network,
    node: u32,
) -> Result<Option<usize>, AllocError>
    requires { node < 1000000 }
{
    let Some(queries) = one_query(alloc, &[(1, 0)])? else {
        return Ok(Some(0));
    };
    let times = times_of(alloc, 10)?;
    let front = lines_of(alloc, 1, node)?;
    let back = lines_of(alloc, node + 1, NODES + 1)?;
    for (place, change) in CHANGES.iter().enumerate() {
        let line = text_of(alloc, *change, node)?;
        let report = report_with(alloc, &front, line.as_bytes(), &back)?;
        let device = in_pieces(&report, 65_536);
        let said = forward(rt, alloc, network, &times, &queries, device);
        if said != Some(Ok(wanted(*change, node))) {
            return Ok(Some(place));
        }
    }
    Ok(None)
}

#[test]
fn changed_at_a_node(rt: HostRuntime) -> Result<(), Fail> {
    let alloc = rt.alloc();
    let network = chain(alloc)?.ok_or("no network")?;
    for node in [2, 2_700, 69_000] {
        assert_none_wrong(&rt, wrong_change(&rt, alloc, &network, node)?);
    }
    Ok(())
}
