//! Runs of plain lines of nodes, read one beside another.
ghost use Rattle.std.specs.Prelude.{◌≡◌, ℕ, ◌<◌, IfNone, IfSome, length, slice_index_or};
ghost use Rattle.ea_check.specs.Pieces.{AreFound, AreIn, IsFoundIn, IsRead};
ghost use Rattle.ea_check.specs.declared.form.run.Run.{Run as RunType};

use crate::form::plain_lines::{first_time, leading_node, take_times};
use ea_base::Direction;
use std::alloc::Global;

/// The node of the first line of a run, and how many bytes its lines have, without the last one.
#[derive(Clone, Copy)]
pub(crate) struct LinesFound {
    pub first: u32,
    pub bytes: usize,
}

/// A part of a text, and what its plain lines say.
#[derive(Drop)]
pub(crate) struct Run {
    /// The place in the text at which the part begins.
    pub from: usize,
    /// The place at which it ends.
    pub to: usize,
    /// Its lines, if it begins with a plain one.
    pub found: Option<LinesFound>,
    /// Their times, without that of the last one.
    pub times: Vec<u64>,
}

impl Run {
    /// A part that was not read.
    pub(crate) fn new(alloc: Global) -> Run {
        Run {
            from: 0,
            to: 0,
            found: None,
            times: Vec::new(alloc),
        }
    }
}

/// The lines at the front of a part of a text.
fn lines_in(way: Direction, part: &[u8], last: u32, times: &mut Vec<u64>) -> Option<LinesFound>
    ensures { IfSome result (λ found. AreIn way part.now last times.new.items found) }
{
    let first = leading_node(part)?;
    let bytes = take_times(way, part, first, last, times)?;
    Some(LinesFound { first, bytes })
}

/// Reads the plain lines of a part of a text, up to those of this node.
pub(crate) fn read_run(way: Direction, text: &[u8], last: u32, run: &mut Run)
    ensures { IsRead way text.now last run.old run.new }
{
    run.found = None;
    if run.from > run.to || run.to > text.len() {
        return;
    }
    run.found = lines_in(way, &text[run.from..run.to], last, &mut run.times);
}

/// Appends the lines of a run to those that were read before it in a text, if they follow each other: the last
/// line before it, which was not counted yet, ends at the run's first byte. Returns how many bytes the lines have.
fn join_run(
    way: Direction,
    text: &[u8],
    run: &Run,
    before: LinesFound,
    last: u32,
    times: &mut Vec<u64>,
) -> Option<usize>
    requires before { AreIn way text.now last times.old.items before }
    requires run { AreFound way text.now last run.now.times.items run.now.from run.now.found }
    ensures joined { IfSome result (λ bytes. AreIn way text.now last times.new.items
        (record { first = before.first; bytes = bytes })) }
    ensures kept { IfNone result (times.new.items ≡ times.old.items) }
{
    let Some(found) = run.found else {
        return None;
    };
    let len = times.len();
    let node = u64::from(before.first) + len as u64;
    let Some((time, size)) = first_time(way, &text[before.bytes..], node) else {
        return None;
    };
    if before.bytes + size != run.from || node + 1 != u64::from(found.first) {
        return None;
    }
    let Ok(()) = times.push(time) else {
        return None;
    };
    let Ok(()) = times.extend_from_slice(&run.times) else {
        times.truncate(len);
        return None;
    };
    Some(run.from + found.bytes)
}

/// Appends the lines of runs to those that were read before them in a text, as far as they follow each other.
/// Returns how many bytes the lines have.
pub(crate) fn join_runs(
    way: Direction,
    text: &[u8],
    runs: &[Run],
    before: LinesFound,
    last: u32,
    times: &mut Vec<u64>,
) -> usize
    requires before { AreIn way text.now last times.old.items before }
    requires runs { (place : ℕ) (run : RunType) → place < length runs.now
        → IsFoundIn way text.now last (slice_index_or runs.now place run) }
    ensures { AreIn way text.now last times.new.items
        (record { first = before.first; bytes = result }) }
{
    let mut bytes = before.bytes;
    for run in runs {
        let now = LinesFound {
            first: before.first,
            bytes,
        };
        match join_run(way, text, run, now, last, times) {
            Some(more) => bytes = more,
            None => break,
        }
    }
    bytes
}
