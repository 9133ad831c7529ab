//! Reports, written to a device in large pieces.
ghost use Rattle.std.specs.Prelude.{◌≡◌, ◌<◌, ◌≤◌, ◌+◌, ◌^◌, ◌*◌, ◌++◌, [], OnOk, IfOk, IfErr, length, true};
ghost use Rattle.std.specs.List.{flat_map};
ghost use Rattle.ea_report.specs.Report.{asked_line, each_node, node_count, node_time, report_text, reported_node, reported_nodes, start_line};
ghost use Rattle.ea_report.specs.Times.{MayPutTimes, times_text};
ghost use Rattle.ea_report.specs.Delivery.{all_sent};
ghost use Rattle.ea_report.specs.Deliverers.{delivery_of};
ghost use Rattle.ea_report.specs.Sent.{IsCutBy, IsWhole};
ghost use Rattle.ea_report.specs.Writers.{AddsOrStops, GoesOnOrCuts, WritesOrCuts};
ghost use Rattle.ea_report.specs.Asked.{AreChosen, IsOf, MayWriteReport, MayWriteNode, MayWriteNodes, chosen_by};
ghost use Rattle.ea_report.specs.FaultNumbers.{kind_number};
ghost use Rattle.ea_report.specs.declared.report.TheConstants.{PIECE};
ghost use Rattle.ea_bytes.specs.Device.{HasGivenUp};

use crate::lines::{push_asked, push_node, push_start};
use crate::pending_text::Pending;
use crate::sender::send;
use crate::style::Style;
use crate::time_lines::{TimeSpan, push_times};
use crate::walk_texts::ArcTexts;
use ea_base::Direction;
use ea_bytes::ByteOut;
use ea_paths::Answer;
use ea_road::{Network, Query, Source};
use std::alloc::Global;
use thiserror::Error;

/// Why a text was not written whole.
#[derive(Clone, Copy, Debug, PartialEq, Eq, Error)]
pub enum WriteFaultKind {
    /// A write failed, took nothing, or was interrupted more than 1,000 times.
    #[error("the output could not be written (12 WriteFailed)")]
    WriteFailed = 12,
    /// Memory was refused.
    #[error("there is not enough memory (13 OutOfMemory)")]
    OutOfMemory = 13,
}

impl WriteFaultKind {
    /// The number of this kind in messages.
    pub fn number(self) -> u8
        ensures { result ≡ kind_number self }
    {
        self as u8
    }
}

/// Why a text was not written whole, and how many bytes of it were: its first ones.
#[derive(Clone, Copy, Debug, PartialEq, Eq, Error)]
#[error("after {written} bytes {kind}")]
pub struct WriteFault {
    pub written: u128,
    pub kind: WriteFaultKind,
}

/// From this number of bytes on, pending text is sent.
const PIECE: usize = 65_536;

/// How many lines of times are built at once, and the bytes of the buffer for them.
const LINES: u32 = 64;

const BUFFER: usize = 4_096;

impl Pending {
    fn new(alloc: Global) -> Self
        ensures { delivery_of result ≡ all_sent 0 0 }
    {
        Pending {
            text: Vec::new(alloc),
            written: 0,
            interruptions: 0,
        }
    }

    fn fault(&self, kind: WriteFaultKind) -> WriteFault
        ensures { result ≡ record { written = self.now.written; kind = kind } }
    {
        WriteFault {
            written: self.written,
            kind,
        }
    }

    /// Sends the pending text.
    fn flush<W: ByteOut>(&mut self, out: &mut W) -> Result<(), WriteFault>
        ensures sends { GoesOnOrCuts (W.seen out.old) (delivery_of self.old)
            (W.seen out.new) (delivery_of self.new) result }
        ensures empty { OnOk result (self.new.text.items ≡ []) }
    {
        match send(out, &self.text, &mut self.interruptions) {
            Ok(()) => {
                self.written = self.written.saturating_add(self.text.len() as u128);
                self.text.clear();
                Ok(())
            }
            Err(sent) => Err(WriteFault {
                written: self.written.saturating_add(sent as u128),
                kind: WriteFaultKind::WriteFailed,
            }),
        }
    }

    /// Sends the pending text if it is long, after a line was added to it.
    fn flush_large<W: ByteOut>(&mut self, out: &mut W) -> Result<(), WriteFault>
        ensures { GoesOnOrCuts (W.seen out.old) (delivery_of self.old)
            (W.seen out.new) (delivery_of self.new) result }
    {
        if self.text.len() >= PIECE {
            self.flush(out)
        } else {
            Ok(())
        }
    }

    /// Adds the line of a source or, turned round, of a target.
    fn put_start<W: ByteOut>(
        &mut self,
        source: Source,
        direction: Direction,
        out: &mut W,
    ) -> Result<(), WriteFault>
        ensures { AddsOrStops (W.seen out.old) (delivery_of self.old) (W.seen out.new)
            (delivery_of self.new) 1 (start_line direction source) result }
    {
        match push_start(&mut self.text, source, direction) {
            Ok(()) => self.flush_large(out),
            Err(_) => Err(self.fault(WriteFaultKind::OutOfMemory)),
        }
    }

    /// Adds the line of a pair.
    fn put_asked<W: ByteOut>(
        &mut self,
        source: Source,
        target: u32,
        direction: Direction,
        out: &mut W,
    ) -> Result<(), WriteFault>
        ensures { AddsOrStops (W.seen out.old) (delivery_of self.old) (W.seen out.new)
            (delivery_of self.new) 1 (asked_line direction target source) result }
    {
        match push_asked(&mut self.text, source, target, direction) {
            Ok(()) => self.flush_large(out),
            Err(_) => Err(self.fault(WriteFaultKind::OutOfMemory)),
        }
    }

    /// Adds the lines of an asked node.
    fn put_node<W: ByteOut>(
        &mut self,
        arcs: &mut ArcTexts<'_>,
        answer: &Answer,
        node: u32,
        style: Style,
        out: &mut W,
    ) -> Result<(), WriteFault>
        requires { MayWriteNode style.walks arcs.old.links answer.now node }
        ensures links { arcs.new.links ≡ arcs.old.links }
        ensures adds { AddsOrStops (W.seen out.old) (delivery_of self.old) (W.seen out.new)
            (delivery_of self.new) 1 (reported_node style answer.now node) result }
    {
        match push_node(&mut self.text, arcs, answer, node, style) {
            Ok(()) => self.flush_large(out),
            Err(_) => Err(self.fault(WriteFaultKind::OutOfMemory)),
        }
    }

    /// Adds the lines of the one asked node.
    fn put_alone<W: ByteOut>(
        &mut self,
        alloc: Global,
        answer: &Answer,
        node: u32,
        style: Style,
        out: &mut W,
    ) -> Result<(), WriteFault>
        requires { MayWriteNode style.walks answer.now.links answer.now node }
        ensures { AddsOrStops (W.seen out.old) (delivery_of self.old) (W.seen out.new)
            (delivery_of self.new) 1 (reported_node style answer.now node) result }
    {
        let mut arcs = ArcTexts::new(alloc, answer.links());
        self.put_node(&mut arcs, answer, node, style, out)
    }

    /// Adds the lines of sources or, turned round, of targets.
    fn put_starts<W: ByteOut>(
        &mut self,
        sources: &[Source],
        direction: Direction,
        out: &mut W,
    ) -> Result<(), WriteFault>
        requires { length self.old.text.items < PIECE }
        ensures { AddsOrStops (W.seen out.old) (delivery_of self.old) (W.seen out.new)
            (delivery_of self.new) (length sources.now)
            (flat_map (start_line direction) sources.now) result }
    {
        for source in sources {
            self.put_start(*source, direction, out)?;
        }
        Ok(())
    }

    /// Adds the lines of sources and their target.
    fn put_all_asked<W: ByteOut>(
        &mut self,
        sources: &[Source],
        target: u32,
        direction: Direction,
        out: &mut W,
    ) -> Result<(), WriteFault>
        requires { length self.old.text.items < PIECE }
        ensures { AddsOrStops (W.seen out.old) (delivery_of self.old) (W.seen out.new)
            (delivery_of self.new) (length sources.now)
            (flat_map (asked_line direction target) sources.now) result }
    {
        for source in sources {
            self.put_asked(*source, target, direction, out)?;
        }
        Ok(())
    }

    /// Adds the lines of each node with its walk; all are asked.
    fn put_each_walk<W: ByteOut>(
        &mut self,
        alloc: Global,
        answer: &Answer,
        nodes: u32,
        style: Style,
        out: &mut W,
    ) -> Result<(), WriteFault>
        requires held { length self.old.text.items < PIECE }
        requires nodes { MayWriteNodes style None nodes answer.now }
        ensures { AddsOrStops (W.seen out.old) (delivery_of self.old) (W.seen out.new)
            (delivery_of self.new) nodes
            (each_node (reported_node style answer.now) nodes) result }
    {
        let mut arcs = ArcTexts::new(alloc, answer.links());
        for i in 0..nodes {
            self.put_node(&mut arcs, answer, i + 1, style, out)?;
        }
        Ok(())
    }

    /// Adds the lines of the times of this many nodes after a node, built in a buffer.
    fn put_some_times<W: ByteOut>(
        &mut self,
        buffer: &mut [u8],
        answer: &Answer,
        span: TimeSpan,
        out: &mut W,
    ) -> Result<(), WriteFault>
        requires { MayPutTimes (length buffer.old) answer.now span }
        ensures { AddsOrStops (W.seen out.old) (delivery_of self.old) (W.seen out.new)
            (delivery_of self.new) 1 (times_text answer.now span) result }
    {
        match push_times(&mut self.text, buffer, answer, span) {
            Ok(()) => self.flush_large(out),
            Err(_) => Err(self.fault(WriteFaultKind::OutOfMemory)),
        }
    }

    /// Adds the lines of the times of all nodes.
    fn put_all_times<W: ByteOut>(
        &mut self,
        answer: &Answer,
        nodes: u32,
        direction: Direction,
        out: &mut W,
    ) -> Result<(), WriteFault>
        requires held { length self.old.text.items < PIECE }
        requires nodes { (answer.now.nodes ≡ nodes) × (answer.now.target ≡ None) }
        ensures { AddsOrStops (W.seen out.old) (delivery_of self.old) (W.seen out.new)
            (delivery_of self.new) nodes
            (each_node (node_time direction answer.now) nodes) result }
    {
        let mut buffer = [0u8; BUFFER];
        let mut after = 0u32;
        while after < nodes {
            let span = TimeSpan {
                after,
                count: (nodes - after).min(LINES),
                direction,
            };
            self.put_some_times(&mut buffer, answer, span, out)?;
            after += span.count;
        }
        Ok(())
    }

    /// Adds the lines of each node, all of which are asked.
    fn put_each<W: ByteOut>(
        &mut self,
        alloc: Global,
        answer: &Answer,
        nodes: u32,
        style: Style,
        out: &mut W,
    ) -> Result<(), WriteFault>
        requires held { length self.old.text.items < PIECE }
        requires nodes { MayWriteNodes style None nodes answer.now }
        ensures { AddsOrStops (W.seen out.old) (delivery_of self.old) (W.seen out.new)
            (delivery_of self.new) nodes
            (each_node (reported_node style answer.now) nodes) result }
    {
        if style.walks {
            self.put_each_walk(alloc, answer, nodes, style, out)
        } else {
            self.put_all_times(answer, nodes, style.direction, out)
        }
    }
}

impl Pending {
    /// Adds the lines of some nodes, in their order.
    fn put_chosen<W: ByteOut>(
        &mut self,
        alloc: Global,
        answer: &Answer,
        chosen: &[u32],
        style: Style,
        out: &mut W,
    ) -> Result<(), WriteFault>
        requires held { length self.old.text.items < PIECE }
        requires nodes { MayWriteNodes style (Some chosen.now) answer.now.nodes answer.now }
        ensures { AddsOrStops (W.seen out.old) (delivery_of self.old) (W.seen out.new)
            (delivery_of self.new) (length chosen.now)
            (flat_map (reported_node style answer.now) chosen.now) result }
    {
        let mut arcs = ArcTexts::new(alloc, answer.links());
        for node in chosen {
            self.put_node(&mut arcs, answer, *node, style, out)?;
        }
        Ok(())
    }

    /// Adds the lines of the chosen nodes or, if none are chosen, of all.
    fn put_nodes<W: ByteOut>(
        &mut self,
        alloc: Global,
        answer: &Answer,
        nodes: u32,
        options: ReportOptions<'_>,
        out: &mut W,
    ) -> Result<(), WriteFault>
        requires held { length self.old.text.items < PIECE }
        requires nodes { MayWriteNodes options.style (chosen_by options) nodes answer.now }
        ensures { AddsOrStops (W.seen out.old) (delivery_of self.old) (W.seen out.new)
            (delivery_of self.new) (node_count (chosen_by options.entry) nodes)
            (reported_nodes options.entry.style (chosen_by options.entry) nodes answer.now) result }
    {
        match options.nodes {
            None => self.put_each(alloc, answer, nodes, options.style, out),
            Some(chosen) => self.put_chosen(alloc, answer, chosen, options.style, out),
        }
    }
}

/// What a report has beyond arrivals.
#[derive(Clone, Copy, Debug)]
pub struct ReportOptions<'a> {
    /// How its lines are written.
    pub style: Style,
    /// The nodes that it has, in their order; all nodes if there is no list. A pair has its target alone.
    pub nodes: Option<&'a [u32]>,
}

impl Pending {
    /// Adds a problem that asks all nodes.
    fn put_all<W: ByteOut>(
        &mut self,
        alloc: Global,
        sources: &[Source],
        answer: &Answer,
        nodes: u32,
        options: ReportOptions<'_>,
        out: &mut W,
    ) -> Result<(), WriteFault>
        requires held { length self.old.text.items < PIECE }
        requires nodes { MayWriteNodes options.style (chosen_by options) nodes answer.now }
        ensures { AddsOrStops (W.seen out.old) (delivery_of self.old) (W.seen out.new)
            (delivery_of self.new) (length sources.now + node_count (chosen_by options.entry) nodes)
            (flat_map (start_line options.entry.style.direction) sources.now
            ++ reported_nodes options.entry.style (chosen_by options.entry) nodes answer.now)
            result }
    {
        match self.put_starts(sources, options.style.direction, out) {
            Ok(()) => self.put_nodes(alloc, answer, nodes, options, out),
            Err(fault) => Err(fault),
        }
    }

    /// Adds a problem that asks a target.
    fn put_target<W: ByteOut>(
        &mut self,
        alloc: Global,
        sources: &[Source],
        answer: &Answer,
        target: u32,
        style: Style,
        out: &mut W,
    ) -> Result<(), WriteFault>
        requires held { length self.old.text.items < PIECE }
        requires node { MayWriteNode style.walks answer.now.links answer.now target }
        ensures { AddsOrStops (W.seen out.old) (delivery_of self.old) (W.seen out.new)
            (delivery_of self.new) (length sources.now + 1)
            (flat_map (asked_line style.direction target) sources.now
            ++ reported_node style answer.now target) result }
    {
        match self.put_all_asked(sources, target, style.direction, out) {
            Ok(()) => self.put_alone(alloc, answer, target, style, out),
            Err(fault) => Err(fault),
        }
    }

    /// Adds a problem.
    fn put_problem<W: ByteOut>(
        &mut self,
        alloc: Global,
        network: &Network,
        query: &Query,
        answer: &Answer,
        options: ReportOptions<'_>,
        out: &mut W,
    ) -> Result<(), WriteFault>
        requires held { length self.old.text.items < PIECE }
        requires report { MayWriteReport network.now query.now answer.now options }
        ensures { AddsOrStops (W.seen out.old) (delivery_of self.old) (W.seen out.new)
            (delivery_of self.new)
            (node_count (chosen_by options.entry) network.now.nodes + length query.now.sources + 1)
            (report_text options.entry.style (chosen_by options.entry) network.now.nodes
            query.now answer.now) result }
    {
        let sources = query.sources();
        match query.target() {
            None => self.put_all(alloc, sources, answer, network.nodes(), options, out),
            Some(target) => { self.put_target(alloc, sources, answer, target, options.style, out) }
        }
    }
}

/// Writes a problem, and returns the number of bytes written.
fn send_problem<W: ByteOut>(
    alloc: Global,
    network: &Network,
    query: &Query,
    answer: &Answer,
    options: ReportOptions<'_>,
    out: &mut W,
) -> Result<u128, WriteFault>
    requires { MayWriteReport network.now query.now answer.now options }
    ensures { WritesOrCuts
        ((node_count (chosen_by options.entry) network.now.nodes
        + length query.now.sources + 2) * 2 ^ 63)
        (W.seen out.old) (W.seen out.new)
        (report_text options.entry.style (chosen_by options.entry) network.now.nodes
        query.now answer.now) result }
{
    let mut pending = Pending::new(alloc);
    pending.put_problem(alloc, network, query, answer, options, out)?;
    pending.flush(out)?;
    Ok(pending.written)
}

/// Writes a problem: its sources and each node's arrival, or those of chosen nodes, or the pair and the
/// target's arrival, with walks if they are asked for; turned round, its targets and latest departures. Returns
/// the number of bytes written.
///
/// Fails with `WriteFailed` if a write failed, took none of the bytes left, or was interrupted for the
/// 1,001st time; with `OutOfMemory` if memory for the text or a walk was refused. The bytes written before
/// are the first of the text.
pub fn write_problem<W: ByteOut>(
    alloc: Global,
    network: &Network,
    query: &Query,
    answer: &Answer,
    options: ReportOptions,
    out: &mut W,
) -> Result<u128, WriteFault>
    requires of { IsOf network.now query.now answer.now }
    requires chosen { AreChosen network.now.nodes (chosen_by options) }
    requires walks { options.style.walks ≡ true → answer.now.walks ≡ true }
    ensures ok { let before = W.seen out.old in
        let after = W.seen out.new in
        IfOk result (IsWhole before after
        (report_text options.entry.style (chosen_by options.entry) network.now.nodes
        query.now answer.now)) }
    ensures err { let before = W.seen out.old in
        let after = W.seen out.new in
        IfErr result (IsCutBy before after
        (report_text options.entry.style (chosen_by options.entry) network.now.nodes
        query.now answer.now)) }
    // A line has fewer than 2^63 bytes, so a sum over a million problems is below 2^128.
    ensures bound { IfOk result
        (λ written. written ≤ (node_count (chosen_by options.entry) network.now.nodes
        + length query.now.sources + 2) * 2 ^ 63) }
    ensures small { IfErr result
        (λ fault. fault.written ≤ (node_count (chosen_by options.entry) network.now.nodes
        + length query.now.sources + 2) * 2 ^ 63) }
    // WriteFailed only if the device's counts show a reason.
    ensures device { IfErr result (λ fault. fault.kind ≡ WriteFaultKind.WriteFailed →
        HasGivenUp (W.seen out.old) (W.seen out.new)) }
{
    send_problem(alloc, network, query, answer, options, out)
}
