//! The lines of a report.
ghost use Rattle.std.specs.Prelude.{◌≡◌, ◌++◌, ℕ, List, OnOk, decimal, length, reverse, true};
ghost use Rattle.ea_report.specs.Report.{spaced, source_line, walk_line, pair_line, walk_text};
ghost use Rattle.ea_report.specs.Report.{asked_line, driven_text, reported_node, start_line, target_line, time_line, turned_pair_line, way_text};
ghost use Rattle.ea_search.specs.Answers.{walk_of};
ghost use Rattle.ea_search.specs.Links.{linked_walk};
ghost use Rattle.ea_report.specs.Asked.{MayWriteNode};
ghost use Rattle.ea_report.specs.Walks.{HasWalk, arcs_text};

use crate::style::Style;
use crate::time_lines::{LINE, put_time};
use crate::walk_texts::ArcTexts;
use ea_base::{Direction, HORIZON};
use ea_paths::Answer;
use ea_road::Source;
use ea_search::Link;
use itoa::Buffer;
use std::alloc::AllocError;

/// Appends a number after a space.
pub(crate) fn push_number(text: &mut Vec<u8>, number: u64) -> Result<(), AllocError>
    ensures { OnOk result (text.new.items ≡ text.old.items ++ spaced (decimal number)) }
{
    let mut buffer = Buffer::new();
    text.push(b' ')?;
    text.extend_from_slice(buffer.format(number).as_bytes())
}

/// Appends the line of a source.
fn push_source(text: &mut Vec<u8>, source: Source) -> Result<(), AllocError>
    ensures { OnOk result (text.new.items ≡ text.old.items ++ source_line source) }
{
    text.push(b's')?;
    push_number(text, u64::from(source.node))?;
    push_number(text, source.departure)?;
    text.push(b'\n')?;
    Ok(())
}

/// Appends the line of a target and the time by which it has to be reached.
fn push_target(text: &mut Vec<u8>, source: Source) -> Result<(), AllocError>
    ensures { OnOk result (text.new.items ≡ text.old.items ++ target_line source) }
{
    text.push(b't')?;
    push_number(text, u64::from(source.node))?;
    push_number(text, HORIZON.saturating_sub(source.departure))?;
    text.push(b'\n')?;
    Ok(())
}

/// Appends the line of a source or, turned round, of a target.
pub(crate) fn push_start(
    text: &mut Vec<u8>,
    source: Source,
    direction: Direction,
) -> Result<(), AllocError>
    ensures { OnOk result (text.new.items ≡ text.old.items ++ start_line direction source) }
{
    match direction {
        Direction::Forward => push_source(text, source),
        Direction::Turned => push_target(text, source),
    }
}

/// Appends the line of a node's time.
fn push_time(
    text: &mut Vec<u8>,
    node: u32,
    time: Option<u64>,
    direction: Direction,
) -> Result<(), AllocError>
    ensures { OnOk result (text.new.items ≡ text.old.items ++ time_line direction node time) }
{
    let mut line = [0u8; LINE];
    let start = put_time(&mut line, LINE, node, time, direction);
    text.extend_from_slice(&line[start..])
}

/// Appends the line of a walk with this number of arcs, by their text.
fn push_walk(text: &mut Vec<u8>, node: u32, count: u32, arcs: &[u8]) -> Result<(), AllocError>
    ensures { OnOk result ((walk : List ℕ) → length walk ≡ count → arcs.now ≡ arcs_text walk
        → text.new.items ≡ text.old.items ++ walk_line node walk) }
{
    text.push(b'w')?;
    push_number(text, u64::from(node))?;
    push_number(text, u64::from(count))?;
    text.extend_from_slice(arcs)?;
    text.push(b'\n')?;
    Ok(())
}

/// Appends the line of a source and a target.
fn push_pair(text: &mut Vec<u8>, source: Source, target: u32) -> Result<(), AllocError>
    ensures { OnOk result (text.new.items ≡ text.old.items ++ pair_line target source) }
{
    text.push(b'q')?;
    push_number(text, u64::from(source.node))?;
    push_number(text, u64::from(target))?;
    push_number(text, source.departure)?;
    text.push(b'\n')?;
    Ok(())
}

/// Appends the line of a pair whose second node has to be reached by a time.
fn push_turned_pair(text: &mut Vec<u8>, source: Source, start: u32) -> Result<(), AllocError>
    ensures { OnOk result (text.new.items ≡ text.old.items ++ turned_pair_line start source) }
{
    text.push(b't')?;
    push_number(text, u64::from(start))?;
    push_number(text, u64::from(source.node))?;
    push_number(text, HORIZON.saturating_sub(source.departure))?;
    text.push(b'\n')?;
    Ok(())
}

/// Appends the line of a pair.
pub(crate) fn push_asked(
    text: &mut Vec<u8>,
    source: Source,
    target: u32,
    direction: Direction,
) -> Result<(), AllocError>
    ensures { OnOk result (text.new.items ≡ text.old.items ++ asked_line direction target source) }
{
    match direction {
        Direction::Forward => push_pair(text, source, target),
        Direction::Turned => push_turned_pair(text, source, target),
    }
}

/// Appends the line of an asked node's walk, if it has one.
fn push_found_walk(
    text: &mut Vec<u8>,
    arcs: &mut ArcTexts<'_>,
    answer: &Answer,
    node: u32,
) -> Result<(), AllocError>
    requires { MayWriteNode true arcs.old.links answer.now node }
    ensures text { OnOk result
        (text.new.items ≡ text.old.items ++ walk_text node (walk_of answer.now node)) }
    ensures links { arcs.new.links ≡ arcs.old.links }
{
    if answer.arrival(node).is_none() {
        return Ok(());
    }
    let links = answer.links();
    arcs.go_to(node)?;
    push_walk(text, node, links[node as usize - 1].level, arcs.text())
}

/// Appends the arcs of the walk along the links of a node, from the node on: the last arc first.
fn push_arcs_back(text: &mut Vec<u8>, links: &[Link], node: u32) -> Result<(), AllocError>
    requires { HasWalk links.now node }
    ensures { OnOk result (text.new.items
        ≡ text.old.items ++ arcs_text (reverse (linked_walk links.now node))) }
{
    let mut at = node;
    'back: while links[at as usize - 1].level > 0 {
        let end = links[at as usize - 1];
        push_number(text, u64::from(end.arc))?;
        at = end.from;
    }
    Ok(())
}

/// Appends the line of the walk along the links of a node, from the node on.
fn push_walk_back(text: &mut Vec<u8>, links: &[Link], node: u32) -> Result<(), AllocError>
    requires { HasWalk links.now node }
    ensures { OnOk result (text.new.items
        ≡ text.old.items ++ walk_line node (reverse (linked_walk links.now node))) }
{
    text.push(b'w')?;
    push_number(text, u64::from(node))?;
    push_number(text, u64::from(links[node as usize - 1].level))?;
    push_arcs_back(text, links, node)?;
    text.push(b'\n')?;
    Ok(())
}

/// Appends the line of an asked node's walk to a target, if it has one.
fn push_driven(text: &mut Vec<u8>, answer: &Answer, node: u32) -> Result<(), AllocError>
    requires { MayWriteNode true answer.now.links answer.now node }
    ensures { OnOk result
        (text.new.items ≡ text.old.items ++ driven_text node (walk_of answer.now node)) }
{
    if answer.arrival(node).is_none() {
        return Ok(());
    }
    push_walk_back(text, answer.links(), node)
}

/// Appends the line of an asked node's walk, if it has one.
fn push_way(
    text: &mut Vec<u8>,
    arcs: &mut ArcTexts<'_>,
    answer: &Answer,
    node: u32,
    direction: Direction,
) -> Result<(), AllocError>
    requires { MayWriteNode true arcs.old.links answer.now node }
    ensures text { OnOk result
        (text.new.items ≡ text.old.items ++ way_text direction node (walk_of answer.now node)) }
    ensures links { arcs.new.links ≡ arcs.old.links }
{
    match direction {
        Direction::Forward => push_found_walk(text, arcs, answer, node),
        Direction::Turned => push_driven(text, answer, node),
    }
}

/// Appends the lines of an asked node: its time and, with walks, its walk.
pub fn push_node(
    text: &mut Vec<u8>,
    arcs: &mut ArcTexts<'_>,
    answer: &Answer,
    node: u32,
    style: Style,
) -> Result<(), AllocError>
    requires { MayWriteNode style.walks arcs.old.links answer.now node }
    ensures text { OnOk result
        (text.new.items ≡ text.old.items ++ reported_node style answer.now node) }
    ensures links { arcs.new.links ≡ arcs.old.links }
{
    push_time(text, node, answer.arrival(node), style.direction)?;
    if style.walks {
        push_way(text, arcs, answer, node, style.direction)?;
    }
    Ok(())
}
