//! The text of sources.
ghost use Rattle.std.specs.Prelude.{◌≡◌, ◌<◌, ◌≤◌, ℕ, List, IfErr, IfOk, MatchResult, ◌⊎◌, map, length, codes};
ghost use Rattle.ea_input.specs.Checks.{IsFaultOf, IsFaultTold};
ghost use Rattle.ea_blocks.specs.Fault.{Gives, out_of_memory};
ghost use Rattle.ea_input.specs.Formats.{source_format};
ghost use Rattle.ea_input.specs.Grammar.{IsGrammar};
ghost use Rattle.ea_blocks.specs.declared.fault.InputFault.{InputFault as FaultType};
ghost use Rattle.ea_input.specs.Fronts.{source_step-front};
ghost use Rattle.ea_input.specs.Listing as spec;
ghost use Rattle.ea_input.specs.Listing.{Listed, any_count, list_end, nothing_listed};
ghost use Rattle.ea_input.specs.Sources.{DenotesSources, source_of, source_step, sources_of};
ghost use Rattle.ea_bytes.specs.Text.{field_lines};
ghost use Rattle.ea_blocks.specs.Reading.{GivesLine};
ghost use Rattle.ea_blocks.specs.Borrowed.{texts_now};
ghost use Rattle.ea_blocks.specs.Streams.{DenotesWhole, GivesWhole};
ghost use Rattle.ea_input.specs.StreamFaults.{IsStreamFault};

use crate::problem_line::{ListLine, only_number, problem_line};
use ea_base::MOST_STARTS;
use ea_blocks::{
    BlockReader, FaultKind, InputFault, LineReader, StreamFault, read_device, read_text, way_of,
};
use ea_bytes as text;
use ea_bytes::ByteIn;
use std::alloc::Global;
use std::thread::Threads;

#[tactic(auto, unfolding(crate::specs::Listing::item_line))]
fn source_line(
    nodes: u32,
    size: Option<u32>,
    count: usize,
    fields: &[&[u8]],
) -> Result<ListLine<u32>, FaultKind>
    ensures { result ≡ spec.item_line (source_of nodes) size count (texts_now fields.now) }
{
    let size = size.ok_or(FaultKind::NoProblemLine)?;
    let node = only_number(1, nodes, fields)?;
    if count < size as usize {
        Ok(ListLine::Item(node))
    } else {
        Err(FaultKind::TooManyLines)
    }
}

#[tactic(auto, unfolding(crate::specs::Listing::list_line))]
fn line_says(
    nodes: u32,
    size: Option<u32>,
    count: usize,
    fields: &[&[u8]],
) -> Result<ListLine<u32>, FaultKind>
    ensures { result ≡ spec.list_line (codes "ss") (codes "s") (any_count nodes) (source_of nodes) size count
        (texts_now fields.now) }
{
    let [word, others @ ..] = fields else {
        return Ok(ListLine::Silent);
    };
    if text::is_comment(word) {
        Ok(ListLine::Silent)
    } else if *word == b"p".as_slice() {
        problem_line(b"ss", (0, MOST_STARTS), size, others)
    } else if *word == b"s".as_slice() {
        source_line(nodes, size, count, others)
    } else {
        Err(FaultKind::UnknownLine)
    }
}

/// What the lines of a text said so far.
#[derive(Drop)]
struct SourceReader {
    nodes: u32,
    size: Option<u32>,
    sources: Vec<u32>,
}

impl LineReader for SourceReader {
    type Text = Vec<u32>;

    ghost Denoted = { List (ℕ) };

    ghost view = { λ sources. sources.items };

    ghost State = { Listed ℕ };

    ghost state = { λ reader. record { nodes = reader.nodes; size = reader.size; items = reader.sources.items } };

    ghost step = { source_step };

    #[tactic(auto, unfolding(crate::specs::Listing::list_step))]
    fn read_fields(&mut self, fields: &[&[u8]]) -> Result<(), FaultKind> {
        match line_says(self.nodes, self.size, self.sources.len(), fields)? {
            ListLine::Silent => {}
            ListLine::Problem(size) => self.size = Some(size),
            ListLine::Item(source) => self.sources.push(source)?,
        }
        Ok(())
    }

    ghost end = { list_end };

    #[tactic(auto, unfolding(crate::specs::Listing::list_end))]
    fn finish(self) -> Result<Vec<u32>, FaultKind> {
        let size = self.size.ok_or(FaultKind::NoProblemLine)?;
        if self.sources.len() < size as usize {
            return Err(FaultKind::TooFewLines);
        }
        Ok(self.sources)
    }

    ghost front = { source_step-front };
}

impl BlockReader for SourceReader {
    ghost IsAside = { λ _. Unit {0} };
}

/// A reader of a text of which no line was read yet.
fn start(alloc: Global, nodes: u32) -> SourceReader
    ensures { (record { nodes = result.nodes; size = result.size; items = result.sources.items })
        ≡ nothing_listed nodes }
{
    SourceReader {
        nodes,
        size: None,
        sources: Vec::new(alloc),
    }
}

fn read_sources(alloc: Global, text: &[u8], nodes: u32) -> Result<Vec<u32>, InputFault>
    ensures exact { Gives (λ sources. sources.items) result
        (sources_of nodes (field_lines text.now)) }
{
    read_text(alloc, start(alloc, nodes), text)
}

/// The sources of a text, in their order, or the text's first fault; nodes are numbered from 1 up to `nodes`. `OutOfMemory`,
/// in line 0, says nothing of the text.
pub fn read_ss(alloc: Global, text: &[u8], nodes: u32) -> Result<Vec<u32>, InputFault>
    // What is read is what the text denotes.
    ensures denoted { IfOk result
        (λ found. DenotesSources nodes (field_lines text.now) (found.items)) }
    // What the text denotes is read, unless memory is refused.
    ensures only { (sources : List (ℕ)) → DenotesSources nodes (field_lines text.now) sources →
        MatchResult result (λ read. read.items ≡ sources) (λ fault. fault ≡ out_of_memory) }

    // A fault is the text's, unless memory is refused.
    ensures fault { IfErr result (IsFaultTold (source_format nodes) (field_lines text.now)) }
    // The text's fault is answered, unless memory is refused.
    ensures faulty { (fault : FaultType)
        → IsFaultOf (source_format nodes) (field_lines text.now) fault →
        MatchResult result (λ _. ⊥) (λ found. (found ≡ out_of_memory) ⊎ (found ≡ fault)) }
{
    read_sources(alloc, text, nodes)
}

/// What a device's text is read to, with one clause, which says it step by step.
fn read_sources_from<H: Threads + Sync, D: ByteIn>(
    alloc: Global,
    rt: &H,
    threads: usize,
    limit: u64,
    device: &mut D,
    nodes: u32,
) -> Result<Vec<u32>, StreamFault>
    ensures exact { GivesWhole (λ sources. sources.items) (sources_of nodes) limit
        (D.seen device.old) (D.seen device.new) result }
{
    let start = start(alloc, nodes);
    read_device(rt, way_of(alloc, threads), limit, start, device)
}

/// The sources of a device's text, or why it gave none, as `read_ss` reads a text; at most `limit`
/// bytes, by at most `threads` threads. The text is read block by block as its bytes come, so it is never in memory whole. After
/// the text's first fault the device is read to its end. `OutOfMemory` says nothing of the text.
pub fn read_ss_from<H: Threads + Sync, D: ByteIn>(
    alloc: Global,
    rt: &H,
    threads: usize,
    limit: u64,
    device: &mut D,
    nodes: u32,
) -> Result<Vec<u32>, StreamFault>
    // What is read is what the text denotes.
    ensures denoted { IfOk result (λ read.
        DenotesWhole (DenotesSources nodes) limit (D.seen device.old) (D.seen device.new)
        read.items) }
    // A fault is the device's or the text's, unless memory is refused.
    ensures fault { IfErr result
        (IsStreamFault (source_format nodes) limit (D.seen device.old) (D.seen device.new)) }
{
    read_sources_from(alloc, rt, threads, limit, device, nodes)
}

/// The law of the texts of sources: a text denotes at most one list of sources and has at most one
/// fault, and exactly one of the two. It computes nothing.
pub fn source_law(_nodes: u32)
    ensures { IsGrammar (DenotesSources _nodes) (source_format _nodes) }
{}
