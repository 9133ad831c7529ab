//! The text of pairs.
ghost use Rattle.std.specs.Prelude.{◌≡◌, ◌<◌, ◌≤◌, ℕ, List, IfErr, IfOk, MatchResult, ◌⊎◌, map, length, codes};
ghost use Rattle.ea_input.specs.Checks.{IsFaultOf, IsFaultTold};
ghost use Rattle.ea_blocks.specs.Fault.{Gives, out_of_memory};
ghost use Rattle.ea_input.specs.Formats.{pair_format};
ghost use Rattle.ea_input.specs.Grammar.{IsGrammar};
ghost use Rattle.ea_blocks.specs.declared.fault.InputFault.{InputFault as FaultType};
ghost use Rattle.ea_input.specs.Fronts.{pair_step-front};
ghost use Rattle.ea_input.specs.Listing as spec;
ghost use Rattle.ea_input.specs.Listing.{Listed, any_count, list_end, nothing_listed};
ghost use Rattle.ea_input.specs.Pairs.{DenotesPairs, pair_step, pairs_of};
ghost use Rattle.ea_bytes.specs.Text.{field_lines};
ghost use Rattle.ea_blocks.specs.Reading.{GivesLine};
ghost use Rattle.ea_blocks.specs.Borrowed.{texts_now};
ghost use Rattle.ea_blocks.specs.Streams.{DenotesWhole, GivesWhole};
ghost use Rattle.ea_input.specs.StreamFaults.{IsStreamFault};

use crate::number_ranges::{numeral, within};
use crate::problem_line::{ListLine, problem_line};
use ea_base::MOST_STARTS;
use ea_blocks::{
    BlockReader, FaultKind, InputFault, LineReader, StreamFault, read_device, read_text, way_of,
};
use ea_bytes as text;
use ea_bytes::ByteIn;
use std::alloc::Global;
use std::thread::Threads;

#[tactic(auto, unfolding(crate::specs::Pairs::pair_read))]
fn pair_read(nodes: u32, source: &[u8], target: &[u8]) -> Result<(u32, u32), FaultKind>
    ensures { result ≡ Rattle.ea_input.specs.Pairs.pair_read nodes source.now target.now }
{
    let source = numeral(source)?;
    let target = numeral(target)?;
    let source = within(1, nodes, source)?;
    let target = within(1, nodes, target)?;
    Ok((source, target))
}

#[tactic(auto, unfolding(crate::specs::Pairs::pair_of))]
fn pair_of(nodes: u32, fields: &[&[u8]]) -> Result<(u32, u32), FaultKind>
    ensures { result ≡ Rattle.ea_input.specs.Pairs.pair_of nodes (texts_now fields.now) }
{
    match fields {
        [source, target] => pair_read(nodes, source, target),
        _ => Err(FaultKind::FieldCount),
    }
}

#[tactic(auto, unfolding(crate::specs::Listing::item_line))]
fn pair_line(
    nodes: u32,
    size: Option<u32>,
    count: usize,
    fields: &[&[u8]],
) -> Result<ListLine<(u32, u32)>, FaultKind>
    ensures { result ≡ spec.item_line (Rattle.ea_input.specs.Pairs.pair_of nodes) size count
        (texts_now fields.now) }
{
    let size = size.ok_or(FaultKind::NoProblemLine)?;
    let pair = pair_of(nodes, fields)?;
    if count < size as usize {
        Ok(ListLine::Item(pair))
    } else {
        Err(FaultKind::TooManyLines)
    }
}

#[tactic(auto, unfolding(crate::specs::Listing::list_line))]
fn line_says(
    nodes: u32,
    size: Option<u32>,
    count: usize,
    fields: &[&[u8]],
) -> Result<ListLine<(u32, u32)>, FaultKind>
    ensures { result ≡ spec.list_line (codes "p2p") (codes "q") (any_count nodes)
        (Rattle.ea_input.specs.Pairs.pair_of nodes) size count (texts_now fields.now) }
{
    let [word, others @ ..] = fields else {
        return Ok(ListLine::Silent);
    };
    if text::is_comment(word) {
        Ok(ListLine::Silent)
    } else if *word == b"p".as_slice() {
        problem_line(b"p2p", (0, MOST_STARTS), size, others)
    } else if *word == b"q".as_slice() {
        pair_line(nodes, size, count, others)
    } else {
        Err(FaultKind::UnknownLine)
    }
}

/// What the lines of a text said so far.
#[derive(Drop)]
struct PairReader {
    nodes: u32,
    size: Option<u32>,
    pairs: Vec<(u32, u32)>,
}

impl LineReader for PairReader {
    type Text = Vec<(u32, u32)>;

    ghost Denoted = { List (ℕ × ℕ) };

    ghost view = { λ pairs. pairs.items };

    ghost State = { Listed (ℕ × ℕ) };

    ghost state = { λ reader. record { nodes = reader.nodes; size = reader.size; items = reader.pairs.items } };

    ghost step = { pair_step };

    #[tactic(auto, unfolding(crate::specs::Listing::list_step))]
    fn read_fields(&mut self, fields: &[&[u8]]) -> Result<(), FaultKind> {
        match line_says(self.nodes, self.size, self.pairs.len(), fields)? {
            ListLine::Silent => {}
            ListLine::Problem(size) => self.size = Some(size),
            ListLine::Item(pair) => self.pairs.push(pair)?,
        }
        Ok(())
    }

    ghost end = { list_end };

    #[tactic(auto, unfolding(crate::specs::Listing::list_end))]
    fn finish(self) -> Result<Vec<(u32, u32)>, FaultKind> {
        let size = self.size.ok_or(FaultKind::NoProblemLine)?;
        if self.pairs.len() < size as usize {
            return Err(FaultKind::TooFewLines);
        }
        Ok(self.pairs)
    }

    ghost front = { pair_step-front };
}

impl BlockReader for PairReader {
    ghost IsAside = { λ _. Unit {0} };
}

/// A reader of a text of which no line was read yet.
fn start(alloc: Global, nodes: u32) -> PairReader
    ensures { (record { nodes = result.nodes; size = result.size; items = result.pairs.items })
        ≡ nothing_listed nodes }
{
    PairReader {
        nodes,
        size: None,
        pairs: Vec::new(alloc),
    }
}

fn read_pairs(alloc: Global, text: &[u8], nodes: u32) -> Result<Vec<(u32, u32)>, InputFault>
    ensures exact { Gives (λ pairs. pairs.items) result (pairs_of nodes (field_lines text.now)) }
{
    read_text(alloc, start(alloc, nodes), text)
}

/// The pairs of source and target of a text, in their order, or the text's first fault; nodes are numbered from 1 up to
/// `nodes`. `OutOfMemory`, in line 0, says nothing of the text.
pub fn read_p2p(alloc: Global, text: &[u8], nodes: u32) -> Result<Vec<(u32, u32)>, InputFault>
    // What is read is what the text denotes.
    ensures denoted { IfOk result
        (λ found. DenotesPairs nodes (field_lines text.now) (found.items)) }
    // What the text denotes is read, unless memory is refused.
    ensures only { (pairs : List (ℕ × ℕ)) → DenotesPairs nodes (field_lines text.now) pairs →
        MatchResult result (λ read. read.items ≡ pairs) (λ fault. fault ≡ out_of_memory) }

    // A fault is the text's, unless memory is refused.
    ensures fault { IfErr result (IsFaultTold (pair_format nodes) (field_lines text.now)) }
    // The text's fault is answered, unless memory is refused.
    ensures faulty { (fault : FaultType)
        → IsFaultOf (pair_format nodes) (field_lines text.now) fault →
        MatchResult result (λ _. ⊥) (λ found. (found ≡ out_of_memory) ⊎ (found ≡ fault)) }
{
    read_pairs(alloc, text, nodes)
}

/// What a device's text is read to, with one clause, which says it step by step.
fn read_pairs_from<H: Threads + Sync, D: ByteIn>(
    alloc: Global,
    rt: &H,
    threads: usize,
    limit: u64,
    device: &mut D,
    nodes: u32,
) -> Result<Vec<(u32, u32)>, StreamFault>
    ensures exact { GivesWhole (λ pairs. pairs.items) (pairs_of nodes) limit
        (D.seen device.old) (D.seen device.new) result }
{
    let start = start(alloc, nodes);
    read_device(rt, way_of(alloc, threads), limit, start, device)
}

/// The pairs of a device's text, or why it gave none, as `read_p2p` reads a text; at most `limit`
/// bytes, by at most `threads` threads. The text is read block by block as its bytes come, so it is never in memory whole. After
/// the text's first fault the device is read to its end. `OutOfMemory` says nothing of the text.
pub fn read_p2p_from<H: Threads + Sync, D: ByteIn>(
    alloc: Global,
    rt: &H,
    threads: usize,
    limit: u64,
    device: &mut D,
    nodes: u32,
) -> Result<Vec<(u32, u32)>, StreamFault>
    // What is read is what the text denotes.
    ensures denoted { IfOk result (λ read.
        DenotesWhole (DenotesPairs nodes) limit (D.seen device.old) (D.seen device.new)
        read.items) }
    // A fault is the device's or the text's, unless memory is refused.
    ensures fault { IfErr result
        (IsStreamFault (pair_format nodes) limit (D.seen device.old) (D.seen device.new)) }
{
    read_pairs_from(alloc, rt, threads, limit, device, nodes)
}

/// The law of the texts of pairs: a text denotes at most one list of pairs and has at most one
/// fault, and exactly one of the two. It computes nothing.
pub fn pair_law(_nodes: u32)
    ensures { IsGrammar (DenotesPairs _nodes) (pair_format _nodes) }
{}
