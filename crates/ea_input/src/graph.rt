//! The text of a graph.
ghost use Rattle.std.specs.Prelude.{◌≡◌, ◌<◌, ◌≤◌, IfErr, IfOk, MatchResult, ◌⊎◌, map, length};
ghost use Rattle.ea_input.specs.Checks.{IsFaultOf, IsFaultTold};
ghost use Rattle.ea_blocks.specs.Fault.{Gives, out_of_memory};
ghost use Rattle.ea_input.specs.Formats.{graph_format};
ghost use Rattle.ea_input.specs.Grammar.{IsGrammar};
ghost use Rattle.ea_blocks.specs.declared.fault.InputFault.{InputFault as FaultType};
ghost use Rattle.ea_input.specs.Graph as spec;
ghost use Rattle.ea_input.specs.Graph.{DenotesGraph, Graph, GraphRead, graph_of};
ghost use Rattle.ea_input.specs.GraphFronts.{graph_step-front};
ghost use Rattle.ea_blocks.specs.Reading.{GivesLine};
ghost use Rattle.ea_input.specs.Views.{graph, read_of};
ghost use Rattle.ea_bytes.specs.Text.{field_lines};
ghost use Rattle.ea_blocks.specs.Borrowed.{texts_now};
ghost use Rattle.ea_blocks.specs.Streams.{DenotesWhole, GivesWhole};
ghost use Rattle.ea_input.specs.StreamFaults.{IsStreamFault};

use crate::number_ranges::{numeral, within};
use crate::plain_lines::{ArcNumbers, leading_arc};
use ea_base::{MOST_ARCS, MOST_NODES, RawArc, RawGraph};
use ea_blocks::{
    FaultKind, InputFault, LineReader, StreamFault, Way, read_device, read_text, way_of,
};
use ea_bytes as text;
use ea_bytes::ByteIn;
use std::alloc::Global;
use std::thread::Threads;

/// The numbers of nodes and arcs that a problem line announces.
#[derive(Clone, Copy)]
pub struct GraphSize {
    pub nodes: u32,
    pub arcs: u32,
}

/// What a line of a graph's text says.
#[derive(Clone, Copy)]
pub enum GraphLine {
    Silent,
    Problem(GraphSize),
    Arc(RawArc),
}

#[tactic(auto, unfolding(crate::specs::Graph::size_read))]
fn size_read(nodes: &[u8], arcs: &[u8]) -> Result<GraphSize, FaultKind>
    ensures { result ≡ spec.size_read nodes.now arcs.now }
{
    let nodes = numeral(nodes)?;
    let arcs = numeral(arcs)?;
    let nodes = within(1, MOST_NODES, nodes)?;
    let arcs = within(0, MOST_ARCS, arcs)?;
    Ok(GraphSize { nodes, arcs })
}

#[tactic(auto, unfolding(crate::specs::Graph::size_of))]
fn size_of(fields: &[&[u8]]) -> Result<GraphSize, FaultKind>
    ensures { result ≡ spec.size_of (texts_now fields.now) }
{
    match fields {
        [nodes, arcs] => size_read(nodes, arcs),
        _ => Err(FaultKind::FieldCount),
    }
}

#[tactic(auto, unfolding(crate::specs::Graph::problem_of))]
fn problem_of(fields: &[&[u8]]) -> Result<GraphSize, FaultKind>
    ensures { result ≡ spec.problem_of (texts_now fields.now) }
{
    let [kind, numbers @ ..] = fields else {
        return Err(FaultKind::FieldCount);
    };
    if *kind == b"sp".as_slice() {
        size_of(numbers)
    } else {
        Err(FaultKind::BadKind)
    }
}

#[tactic(auto, unfolding(crate::specs::Graph::arc_within))]
fn arc_within(nodes: u32, tail: u128, head: u128, weight: u128) -> Result<RawArc, FaultKind>
    ensures { result ≡ spec.arc_within nodes tail head weight }
{
    let tail = within(1, nodes, tail)?;
    let head = within(1, nodes, head)?;
    let weight = within(0, u32::MAX, weight)?;
    Ok(RawArc { tail, head, weight })
}

#[tactic(auto, unfolding(crate::specs::Graph::arc_read))]
fn arc_read(nodes: u32, tail: &[u8], head: &[u8], weight: &[u8]) -> Result<RawArc, FaultKind>
    ensures { result ≡ spec.arc_read nodes tail.now head.now weight.now }
{
    let tail = numeral(tail)?;
    let head = numeral(head)?;
    let weight = numeral(weight)?;
    arc_within(nodes, tail, head, weight)
}

#[tactic(auto, unfolding(crate::specs::Graph::arc_of))]
fn arc_of(nodes: u32, fields: &[&[u8]]) -> Result<RawArc, FaultKind>
    ensures { result ≡ spec.arc_of nodes (texts_now fields.now) }
{
    match fields {
        [tail, head, weight] => arc_read(nodes, tail, head, weight),
        _ => Err(FaultKind::FieldCount),
    }
}

#[tactic(auto, unfolding(crate::specs::Graph::problem_line))]
fn problem_line(size: Option<GraphSize>, fields: &[&[u8]]) -> Result<GraphLine, FaultKind>
    ensures { result ≡ spec.problem_line size (texts_now fields.now) }
{
    if size.is_some() {
        return Err(FaultKind::SecondProblemLine);
    }
    Ok(GraphLine::Problem(problem_of(fields)?))
}

#[tactic(auto, unfolding(crate::specs::Graph::arc_line))]
fn arc_line(size: Option<GraphSize>, count: usize, fields: &[&[u8]]) -> Result<GraphLine, FaultKind>
    ensures { result ≡ spec.arc_line size count (texts_now fields.now) }
{
    let size = size.ok_or(FaultKind::NoProblemLine)?;
    let arc = arc_of(size.nodes, fields)?;
    if count < size.arcs as usize {
        Ok(GraphLine::Arc(arc))
    } else {
        Err(FaultKind::TooManyLines)
    }
}

#[tactic(auto, unfolding(crate::specs::Graph::numbers_line))]
fn numbers_line(
    size: Option<GraphSize>,
    count: usize,
    numbers: ArcNumbers,
) -> Result<GraphLine, FaultKind>
    ensures { result ≡ spec.numbers_line size count numbers.tail numbers.head numbers.weight }
{
    let size = size.ok_or(FaultKind::NoProblemLine)?;
    let arc = arc_within(
        size.nodes,
        u128::from(numbers.tail),
        u128::from(numbers.head),
        u128::from(numbers.weight),
    )?;
    if count < size.arcs as usize {
        Ok(GraphLine::Arc(arc))
    } else {
        Err(FaultKind::TooManyLines)
    }
}

#[tactic(auto, unfolding(crate::specs::Graph::graph_line))]
fn graph_line(
    size: Option<GraphSize>,
    count: usize,
    fields: &[&[u8]],
) -> Result<GraphLine, FaultKind>
    ensures { result ≡ spec.graph_line size count (texts_now fields.now) }
{
    let [word, others @ ..] = fields else {
        return Ok(GraphLine::Silent);
    };
    if text::is_comment(word) {
        Ok(GraphLine::Silent)
    } else if *word == b"p".as_slice() {
        problem_line(size, others)
    } else if *word == b"a".as_slice() {
        arc_line(size, count, others)
    } else {
        Err(FaultKind::UnknownLine)
    }
}

/// What the lines of a text said so far.
#[derive(Drop)]
pub(crate) struct GraphReader {
    pub size: Option<GraphSize>,
    pub arcs: Vec<RawArc>,
    /// Room for the arcs of pieces that other threads read.
    pub spares: Vec<Vec<RawArc>>,
}

impl GraphReader {
    /// How many arcs the lines so far have.
    fn count(&self) -> usize
        ensures { result ≡ length (self.now).arcs.items }
    {
        self.arcs.len()
    }

    /// Takes up what a line says.
    #[tactic(auto, unfolding(crate::specs::Graph::after_said))]
    fn add(&mut self, said: Result<GraphLine, FaultKind>) -> Result<(), FaultKind>
        ensures { GivesLine (λ _. read_of self.new) result
            (spec.after_said (read_of self.old) said) }
    {
        match said? {
            GraphLine::Silent => {}
            GraphLine::Problem(size) => self.size = Some(size),
            GraphLine::Arc(arc) => self.arcs.push(arc)?,
        }
        Ok(())
    }
}

impl LineReader for GraphReader {
    type Text = RawGraph;

    ghost Denoted = { Graph };

    ghost view = { graph };

    ghost State = { GraphRead };

    ghost state = { read_of };

    ghost step = { spec.graph_step };

    #[tactic(auto, unfolding(crate::specs::Graph::graph_step, crate::specs::Graph::after_said))]
    fn read_fields(&mut self, fields: &[&[u8]]) -> Result<(), FaultKind> {
        let said = graph_line(self.size, self.arcs.len(), fields);
        self.add(said)
    }

    fn read_plain<'a>(&mut self, text: &'a [u8]) -> Option<Result<&'a [u8], FaultKind>> {
        let Some((numbers, rest)) = leading_arc(text) else {
            return None;
        };
        let said = numbers_line(self.size, self.count(), numbers);
        match self.add(said) {
            Ok(()) => Some(Ok(rest)),
            Err(kind) => Some(Err(kind)),
        }
    }

    ghost end = { spec.graph_end };

    #[tactic(auto, unfolding(crate::specs::Graph::graph_end))]
    fn finish(self) -> Result<RawGraph, FaultKind> {
        let size = self.size.ok_or(FaultKind::NoProblemLine)?;
        if self.arcs.len() < size.arcs as usize {
            return Err(FaultKind::TooFewLines);
        }
        Ok(RawGraph {
            nodes: size.nodes,
            arcs: self.arcs,
        })
    }

    ghost front = { graph_step-front };
}

/// A reader of a text of which no line was read yet.
pub(crate) fn start(alloc: Global) -> GraphReader
    ensures { read_of result ≡ spec.no_graph }
{
    GraphReader {
        size: None,
        arcs: Vec::new(alloc),
        spares: Vec::new(alloc),
    }
}

/// The result of reading a text, with one clause, which says the result of the lines step by step.
fn read_graph(alloc: Global, text: &[u8]) -> Result<RawGraph, InputFault>
    ensures exact { Gives graph result (graph_of (field_lines text.now)) }
{
    read_text(alloc, start(alloc), text)
}

/// The graph that a text denotes, or the text's first fault. `OutOfMemory`, in line 0, says nothing of the text.
pub fn read_gr(alloc: Global, text: &[u8]) -> Result<RawGraph, InputFault>
    // What is read is what the text denotes.
    ensures denoted { IfOk result (λ g. DenotesGraph (field_lines text.now) (graph g)) }
    // What the text denotes is read, unless memory is refused.
    ensures only { (g : Graph) → DenotesGraph (field_lines text.now) g →
        MatchResult result (λ read. graph read ≡ g) (λ fault. fault ≡ out_of_memory) }

    // A fault is the text's, unless memory is refused.
    ensures fault { IfErr result (IsFaultTold graph_format (field_lines text.now)) }
    // The text's fault is answered, unless memory is refused.
    ensures faulty { (fault : FaultType) → IsFaultOf graph_format (field_lines text.now) fault →
        MatchResult result (λ _. ⊥) (λ found. (found ≡ out_of_memory) ⊎ (found ≡ fault)) }
{
    read_graph(alloc, text)
}

/// What a device's text is read to, with one clause, which says it step by step.
fn read_graph_from<H: Threads + Sync, D: ByteIn>(
    rt: &H,
    way: Way,
    limit: u64,
    device: &mut D,
) -> Result<RawGraph, StreamFault>
    requires { 0 < way.size }
    ensures exact { GivesWhole graph graph_of limit (D.seen device.old) (D.seen device.new) result }
{
    let start = start(way.alloc);
    read_device(rt, way, limit, start, device)
}

/// The graph of a device's text, or why it gave none, as `read_gr` reads a text; at most `limit`
/// bytes, by at most `threads` threads. The text is read block by block as its bytes come, so it is never in memory whole. After
/// the text's first fault the device is read to its end. `OutOfMemory` says nothing of the text.
pub fn read_gr_from<H: Threads + Sync, D: ByteIn>(
    alloc: Global,
    rt: &H,
    threads: usize,
    limit: u64,
    device: &mut D,
) -> Result<RawGraph, StreamFault>
    // What is read is what the text denotes.
    ensures denoted { IfOk result (λ read.
        DenotesWhole DenotesGraph limit (D.seen device.old) (D.seen device.new)
        (graph read)) }
    // A fault is the device's or the text's, unless memory is refused.
    ensures fault { IfErr result
        (IsStreamFault graph_format limit (D.seen device.old) (D.seen device.new)) }
{
    read_graph_from(rt, way_of(alloc, threads), limit, device)
}

/// The graph of a device's text, as `read_gr_from` reads it, in blocks and pieces of the sizes that are given.
pub fn read_gr_by<H: Threads + Sync, D: ByteIn>(
    rt: &H,
    way: Way,
    limit: u64,
    device: &mut D,
) -> Result<RawGraph, StreamFault>
    requires { 0 < way.size }
    // What is read is what the text denotes.
    ensures denoted { IfOk result (λ read.
        DenotesWhole DenotesGraph limit (D.seen device.old) (D.seen device.new)
        (graph read)) }
    // A fault is the device's or the text's, unless memory is refused.
    ensures fault { IfErr result
        (IsStreamFault graph_format limit (D.seen device.old) (D.seen device.new)) }
{
    read_graph_from(rt, way, limit, device)
}

/// The law of the texts of graphs: a text denotes at most one graph and has at most one fault, and
/// exactly one of the two. It computes nothing.
pub fn graph_law()
    ensures { IsGrammar DenotesGraph graph_format }
{}
