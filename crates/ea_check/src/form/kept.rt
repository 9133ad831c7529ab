//! How the lines on the nodes of one problem are kept.
ghost use Rattle.std.specs.Prelude.{◌≡◌, ◌+◌, ◌-◌, ◌<◌, ◌≤◌, ◌^◌, ◌++◌, ◌∷◌, [], MatchResult, None, OnOk, Some, length, replicate};
ghost use Rattle.ea_bytes.specs.Text.{fields_of};
ghost use Rattle.ea_check.specs.declared.fault.CheckFault.TheVariants.{OutOfMemory};
ghost use Rattle.ea_check.specs.Runs.{numbers, saids};
ghost use Rattle.ea_check.specs.Shared.{IsOwnPart, arcs_in};
ghost use Rattle.ea_check.specs.Views.{AreKept, HasCount, IsLastText, Keeps, KeepsTime, KeepsWalk, arcs_said, said_kept, said_of, walk_of};

use crate::fault::CheckFault;
use crate::form::shared_text::own_part;
use crate::form::walk_arcs::read_arcs;
use ea_base::Direction;
use std::alloc::{AllocError, Global};

/// The text of a walk's arcs and their number, the number of its line, and the direction of its report's run.
#[derive(Clone, Copy)]
pub(crate) struct WalkLine<'a> {
    pub line: u64,
    pub way: Direction,
    pub count: usize,
    pub arcs: &'a [u8],
}

/// A node's `d` line and its `w` line.
#[derive(Clone, Copy)]
pub(crate) struct SaidLine<'a> {
    pub line: u64,
    pub time: u64,
    pub walk: Option<WalkLine<'a>>,
}

/// A walk that is kept: the number of its line, how many first arcs it shares with the walk before it, and how many
/// follow. Walks are taken as in the network that was searched.
#[derive(Clone, Copy)]
pub(crate) struct KeptWalk {
    pub line: u64,
    pub shared: usize,
    pub own: usize,
}

/// What is kept of the lines on nodes, in the order of these. Walks to nodes that are near each other share most of
/// their arcs, so only what differs is kept.
#[derive(Drop)]
pub(crate) struct Kept {
    /// The numbers of the `d` lines.
    pub lines: Vec<u64>,
    /// The times; NONE for the word in place of a time.
    pub table: Vec<u64>,
    /// The walks of the first nodes; the other nodes have none.
    pub walks: Vec<Option<KeptWalk>>,
    /// The arcs that walks don't share with the walk before, one walk after another.
    pub own: Vec<u32>,
    /// The text of the last walk's arcs.
    pub text: Vec<u8>,
    /// The direction of the last walk's report.
    pub way: Direction,
    /// The last walk's own arcs.
    pub arcs: Vec<u32>,
}

impl Kept {
    /// Nothing yet.
    pub(crate) fn new(alloc: Global) -> Kept
        ensures { Keeps [] result }
    {
        Kept {
            lines: Vec::new(alloc),
            table: Vec::new(alloc),
            walks: Vec::new(alloc),
            own: Vec::new(alloc),
            text: Vec::new(alloc),
            way: Direction::Forward,
            arcs: Vec::new(alloc),
        }
    }

    /// Forgets everything, and keeps the memory.
    pub(crate) fn clear(&mut self)
        ensures { Keeps [] self.new }
    {
        self.lines.clear();
        self.table.clear();
        self.walks.clear();
        self.own.clear();
        self.text.clear();
    }
}

/// Gives no walk to nodes up to this number of them.
fn pad(walks: &mut Vec<Option<KeptWalk>>, len: usize) -> Result<(), CheckFault>
    requires { length walks.old.items ≤ len }
    ensures { MatchResult result
        (λ _. walks.new.items
        ≡ walks.old.items ++ replicate (len - length walks.old.items) None)
        (λ fault. fault ≡ OutOfMemory) }
{
    while walks.len() < len {
        walks.push(None)?;
    }
    Ok(())
}

/// Replaces `arcs` by those of a walk's text, in the network that was searched.
fn read_walk_arcs(way: Direction, text: &[u8], arcs: &mut Vec<u32>) -> Result<(), AllocError>
    ensures { OnOk result (arcs.new.items ≡ arcs_in way text.now) }
{
    read_arcs(text, arcs)?;
    if way == Direction::Turned {
        arcs.reverse();
    }
    Ok(())
}

/// The text of the last walk's arcs, if its report is of a run in this direction.
fn last_text(kept: &Kept, way: Direction) -> &[u8]
    ensures { IsLastText way kept.now result.now }
{
    match way {
        Direction::Forward => match kept.way {
            Direction::Forward => &kept.text,
            Direction::Turned => b"",
        },
        Direction::Turned => match kept.way {
            Direction::Forward => b"",
            Direction::Turned => &kept.text,
        },
    }
}

/// The place of the text that a walk doesn't share with the last walk.
fn part_to_keep(kept: &Kept, walk: WalkLine<'_>) -> (usize, usize)
    ensures { IsOwnPart walk.entry.way walk.entry.arcs.now
        (arcs_in kept.now.way kept.now.text.items) result.0 result.1 }
{
    own_part(walk.way, walk.arcs, last_text(kept, walk.way))
}

/// Keeps the walk of the next node.
fn keep_walk(kept: &mut Kept, walk: WalkLine<'_>) -> Result<(), CheckFault>
    requires kept { AreKept kept.old }
    requires count { walk.count ≡ length (fields_of walk.arcs.now) }
    ensures { MatchResult result
        (λ _. KeepsWalk walk.entry.line (arcs_said walk.entry) kept.old kept.new)
        (λ fault. fault ≡ OutOfMemory) }
{
    let (start, end) = part_to_keep(kept, walk);
    read_walk_arcs(walk.way, &walk.arcs[start..end], &mut kept.arcs)?;
    let own = kept.arcs.len();
    pad(&mut kept.walks, kept.lines.len())?;
    kept.walks.push(Some(KeptWalk {
        line: walk.line,
        shared: walk.count - own,
        own,
    }))?;
    kept.own.extend_from_slice(&kept.arcs)?;
    kept.way = walk.way;
    kept.text.clear();
    kept.text.extend_from_slice(walk.arcs)?;
    Ok(())
}

/// Keeps the number and the time of the next node's `d` line.
fn keep_time(kept: &mut Kept, line: u64, time: u64) -> Result<(), CheckFault>
    ensures { MatchResult result
        (λ _. KeepsTime line time kept.old kept.new)
        (λ fault. fault ≡ OutOfMemory) }
{
    kept.lines.push(line)?;
    kept.table.push(time)?;
    Ok(())
}

/// Keeps this many numbers of lines, from this one on.
fn keep_numbers(lines: &mut Vec<u64>, number: u64, count: usize) -> Result<(), CheckFault>
    requires { number + count < 2 ^ 64 }
    ensures { MatchResult result
        (λ _. lines.new.items ≡ lines.old.items ++ numbers number count)
        (λ fault. fault ≡ OutOfMemory) }
{
    for place in 0..count {
        lines.push(number + place as u64)?;
    }
    Ok(())
}

/// Keeps the times of the next nodes, which have no walks. Their lines follow each other from this one on.
pub(crate) fn keep_run(kept: &mut Kept, number: u64, times: &[u64]) -> Result<(), CheckFault>
    requires kept { AreKept kept.old }
    requires numbers { number + length times.now < 2 ^ 64 }
    ensures { MatchResult result
        (λ _. Keeps (said_kept kept.old ++ saids number times.now) kept.new)
        (λ fault. fault ≡ OutOfMemory) }
{
    keep_numbers(&mut kept.lines, number, times.len())?;
    kept.table.extend_from_slice(times)?;
    Ok(())
}

/// Keeps the lines of the next node, of which one is a `w` line.
fn keep_both(kept: &mut Kept, line: u64, time: u64, walk: WalkLine<'_>) -> Result<(), CheckFault>
    requires kept { AreKept kept.old }
    requires count { walk.count ≡ length (fields_of walk.arcs.now) }
    ensures { MatchResult result
        (λ _. Keeps (said_kept kept.old ++ record
        { line = line; time = time; walk = walk_of (Some walk.entry) } ∷ []) kept.new)
        (λ fault. fault ≡ OutOfMemory) }
{
    keep_walk(kept, walk)?;
    keep_time(kept, line, time)?;
    Ok(())
}

/// Keeps the lines of the next node.
pub(crate) fn keep(kept: &mut Kept, said: SaidLine<'_>) -> Result<(), CheckFault>
    requires kept { AreKept kept.old }
    requires count { HasCount said.walk }
    ensures { MatchResult result
        (λ _. Keeps (said_kept kept.old ++ said_of said.entry ∷ []) kept.new)
        (λ fault. fault ≡ OutOfMemory) }
{
    match said.walk {
        Some(walk) => keep_both(kept, said.line, said.time, walk)?,
        None => keep_time(kept, said.line, said.time)?,
    }
    Ok(())
}
