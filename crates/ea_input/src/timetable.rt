//! The text of a timetable.
ghost use Rattle.std.specs.Prelude.{◌≡◌, ◌<◌, ◌≤◌, ◌+◌, ◌^◌, ℕ, List, IfErr, IfOk, MatchResult, ◌⊎◌, drop, map, length, codes};
ghost use Rattle.ea_input.specs.Checks.{IsFaultOf, IsFaultTold};
ghost use Rattle.ea_blocks.specs.Fault.{Gives, out_of_memory};
ghost use Rattle.ea_input.specs.Formats.{table_format};
ghost use Rattle.ea_input.specs.Grammar.{IsGrammar};
ghost use Rattle.ea_blocks.specs.declared.fault.InputFault.{InputFault as FaultType};
ghost use Rattle.ea_input.specs.TableFronts.{table_step-front};
ghost use Rattle.ea_input.specs.Table as spec;
ghost use Rattle.ea_input.specs.StepLines.{due};
ghost use Rattle.ea_input.specs.Table.{Table, DenotesTable, run_in, table_of};
ghost use Rattle.ea_blocks.specs.Reading.{GivesLine};
ghost use Rattle.ea_input.specs.TableViews.{read_of, table};
ghost use Rattle.ea_bytes.specs.Text.{field_lines};
ghost use Rattle.ea_blocks.specs.Borrowed.{texts_now};
ghost use Rattle.ea_blocks.specs.Streams.{DenotesWhole, GivesWhole};
ghost use Rattle.ea_input.specs.StreamFaults.{IsStreamFault};

use crate::kind_lines::{kind_of, two_read};
use crate::number_ranges::{numeral, within};
use crate::plain_lines::{leading_entry, leading_step};
use crate::problem_line::after_kind;
use crate::step_lines::{StepClass, step_of, step_within};
use ea_base::{MOST_ARCS, MOST_CLASSES, RawKind, RawTable};
use ea_blocks::{
    FaultKind, InputFault, LineReader, StreamFault, Way, read_device, read_text, way_of,
};
use ea_bytes as text;
use ea_bytes::ByteIn;
use std::alloc::Global;
use std::thread::Threads;

/// The numbers of kinds and assignments that a problem line announces.
#[derive(Clone, Copy)]
pub struct TableSize {
    pub kinds: u32,
    pub assigned: u32,
}

/// What a line of a timetable's text says.
#[derive(Clone, Copy)]
pub enum TableLine {
    Silent,
    Problem(TableSize),
    Kind(RawKind),
    Assigned((u32, u32)),
    Step((u64, u64)),
}

#[tactic(auto, unfolding(crate::specs::Table::size_read))]
fn size_read(kinds: &[u8], assigned: &[u8]) -> Result<TableSize, FaultKind>
    ensures { result ≡ spec.size_read kinds.now assigned.now }
{
    let kinds = numeral(kinds)?;
    let assigned = numeral(assigned)?;
    let kinds = within(0, MOST_CLASSES, kinds)?;
    let assigned = within(0, MOST_ARCS, assigned)?;
    Ok(TableSize { kinds, assigned })
}

#[tactic(auto, unfolding(crate::specs::Table::size_of))]
fn size_of(fields: &[&[u8]]) -> Result<TableSize, FaultKind>
    ensures { result ≡ spec.size_of (texts_now fields.now) }
{
    match fields {
        [kinds, assigned] => size_read(kinds, assigned),
        _ => Err(FaultKind::FieldCount),
    }
}

#[tactic(auto, unfolding(crate::specs::Table::problem_line))]
fn problem_line(size: Option<TableSize>, fields: &[&[u8]]) -> Result<TableLine, FaultKind>
    ensures { result ≡ spec.problem_line size (texts_now fields.now) }
{
    if size.is_some() {
        return Err(FaultKind::SecondProblemLine);
    }
    let numbers = after_kind(b"tp", fields)?;
    Ok(TableLine::Problem(size_of(numbers)?))
}

#[tactic(auto, unfolding(crate::specs::Table::kind_line))]
fn kind_line(
    size: Option<TableSize>,
    due: usize,
    count: usize,
    before: usize,
    fields: &[&[u8]],
) -> Result<TableLine, FaultKind>
    requires { count + 1 < 2 ^ 64 }
    ensures { result ≡ spec.kind_line size due count before (texts_now fields.now) }
{
    let size = size.ok_or(FaultKind::NoProblemLine)?;
    if due > 0 {
        return Err(FaultKind::TooFewLines);
    }
    let kind = kind_of(count as u64 + 1, before, fields)?;
    if count < size.kinds as usize {
        Ok(TableLine::Kind(kind))
    } else {
        Err(FaultKind::TooManyLines)
    }
}

#[tactic(auto, unfolding(crate::specs::Table::assigned_within))]
fn assigned_within(arcs: u32, classes: u32, arc: u128, class: u128) -> Result<(u32, u32), FaultKind>
    ensures { result ≡ spec.assigned_within arcs classes arc class }
{
    let arc = within(1, arcs, arc)?;
    let class = within(0, classes, class)?;
    Ok((arc, class))
}

#[tactic(auto, unfolding(crate::specs::Table::assigned_of))]
fn assigned_of(arcs: u32, classes: u32, fields: &[&[u8]]) -> Result<(u32, u32), FaultKind>
    ensures { result ≡ spec.assigned_of arcs classes (texts_now fields.now) }
{
    let [arc, class] = fields else {
        return Err(FaultKind::FieldCount);
    };
    let (arc, class) = two_read(arc, class)?;
    assigned_within(arcs, classes, arc, class)
}

#[tactic(auto, unfolding(crate::specs::Table::assigned_line))]
fn assigned_line(
    arcs: u32,
    size: Option<TableSize>,
    due: usize,
    count: usize,
    fields: &[&[u8]],
) -> Result<TableLine, FaultKind>
    ensures { result ≡ spec.assigned_line arcs size due count (texts_now fields.now) }
{
    let size = size.ok_or(FaultKind::NoProblemLine)?;
    if due > 0 {
        return Err(FaultKind::TooFewLines);
    }
    let entry = assigned_of(arcs, size.kinds, fields)?;
    if count < size.assigned as usize {
        Ok(TableLine::Assigned(entry))
    } else {
        Err(FaultKind::TooManyLines)
    }
}

#[tactic(auto, unfolding(crate::specs::Table::numbers_line))]
fn numbers_line(
    arcs: u32,
    size: Option<TableSize>,
    due: usize,
    count: usize,
    numbers: (u64, u64),
) -> Result<TableLine, FaultKind>
    ensures { result ≡ spec.numbers_line arcs size due count numbers }
{
    let size = size.ok_or(FaultKind::NoProblemLine)?;
    if due > 0 {
        return Err(FaultKind::TooFewLines);
    }
    let entry = assigned_within(
        arcs,
        size.kinds,
        u128::from(numbers.0),
        u128::from(numbers.1),
    )?;
    if count < size.assigned as usize {
        Ok(TableLine::Assigned(entry))
    } else {
        Err(FaultKind::TooManyLines)
    }
}

/// How many steps of a class weren't told yet.
fn due(class: StepClass, steps: &[(u64, u64)]) -> usize
    ensures { result ≡ due (record { class = class; steps = steps.now }) }
{
    class.count.saturating_sub(steps.len())
}

#[tactic(auto, unfolding(crate::specs::Table::step_line))]
fn step_line(
    size: Option<TableSize>,
    class: StepClass,
    steps: &[(u64, u64)],
    fields: &[&[u8]],
) -> Result<TableLine, FaultKind>
    ensures { result
        ≡ spec.step_line size (record { class = class; steps = steps.now }) (texts_now fields.now) }
{
    if size.is_none() {
        return Err(FaultKind::NoProblemLine);
    }
    if due(class, steps) == 0 {
        return Err(FaultKind::TooManyLines);
    }
    Ok(TableLine::Step(step_of(class, steps, fields)?))
}

#[tactic(auto, unfolding(crate::specs::Table::step_numbers_line))]
fn step_numbers_line(
    size: Option<TableSize>,
    class: StepClass,
    steps: &[(u64, u64)],
    numbers: (u64, u64),
) -> Result<TableLine, FaultKind>
    ensures { result
        ≡ spec.step_numbers_line size (record { class = class; steps = steps.now }) numbers }
{
    if size.is_none() {
        return Err(FaultKind::NoProblemLine);
    }
    if due(class, steps) == 0 {
        return Err(FaultKind::TooManyLines);
    }
    let (time, value) = (u128::from(numbers.0), u128::from(numbers.1));
    Ok(TableLine::Step(step_within(class, steps, time, value)?))
}

/// The class whose steps follow a kind's line.
fn class_of(kind: RawKind) -> StepClass
    ensures { result ≡ spec.class_of kind }
{
    match kind {
        RawKind::Speeds { period, count, .. } => StepClass {
            trips: false,
            period,
            count,
        },
        RawKind::Trips { period, count, .. } => StepClass {
            trips: true,
            period,
            count,
        },
        RawKind::Points { period, count, .. } => StepClass {
            trips: true,
            period,
            count,
        },
        _ => StepClass {
            trips: false,
            period: 0,
            count: 0,
        },
    }
}

/// The steps behind this many.
fn steps_behind(steps: &[(u64, u64)], first: usize) -> &[(u64, u64)]
    ensures { result.now ≡ drop first steps.now }
{
    &steps[first.min(steps.len())..]
}

/// The steps from a kind's first one on.
fn steps_from(kind: RawKind, steps: &[(u64, u64)]) -> &[(u64, u64)]
    ensures { result.now ≡ spec.steps_from kind steps.now }
{
    match kind {
        RawKind::Speeds { first, .. } => steps_behind(steps, first),
        RawKind::Trips { first, .. } => steps_behind(steps, first),
        RawKind::Points { first, .. } => steps_behind(steps, first),
        _ => &[],
    }
}

/// The last kind, which is plain if there is none.
#[tactic(auto, using(crate::proofs::LastKind::last_read))]
fn last_kind(kinds: &[RawKind]) -> RawKind
    ensures { result ≡ spec.last_kind kinds.now }
{
    if kinds.is_empty() {
        RawKind::Plain
    } else {
        kinds[kinds.len() - 1]
    }
}

/// What the lines of a text said so far.
#[derive(Drop)]
pub(crate) struct TableReader {
    pub arcs: u32,
    pub size: Option<TableSize>,
    pub table: RawTable,
    /// Whether this reader reads a piece behind lines of assignments.
    pub is_behind: bool,
    /// Room for the assignments of pieces that other threads read.
    pub spares: Vec<Vec<(u32, u32)>>,
}

impl TableReader {
    /// The class whose steps were read last.
    fn class(&self) -> StepClass
        ensures { result ≡ (run_in (table (self.now).table)).class }
    {
        class_of(last_kind(&self.table.kinds))
    }

    /// Those of its steps that were read so far.
    fn steps(&self) -> &[(u64, u64)]
        ensures { result.now ≡ (run_in (table (self.now).table)).steps }
    {
        steps_from(last_kind(&self.table.kinds), &self.table.steps)
    }

    /// How many of its steps weren't.
    pub(crate) fn due(&self) -> usize
        ensures { result ≡ spec.due_in (read_of self.now) }
    {
        due(self.class(), self.steps())
    }

    #[tactic(auto, unfolding(crate::specs::Table::table_line))]
    fn line_says(&self, fields: &[&[u8]]) -> Result<TableLine, FaultKind>
        ensures { result ≡ spec.table_line (read_of self.now) (texts_now fields.now) }
    {
        let [word, others @ ..] = fields else {
            return Ok(TableLine::Silent);
        };
        let table = &self.table;
        if text::is_comment(word) {
            Ok(TableLine::Silent)
        } else if *word == b"p".as_slice() {
            problem_line(self.size, others)
        } else if *word == b"k".as_slice() {
            let (count, before) = (table.kinds.len(), table.steps.len());
            kind_line(self.size, self.due(), count, before, others)
        } else if *word == b"t".as_slice() {
            assigned_line(
                self.arcs,
                self.size,
                self.due(),
                table.assigned.len(),
                others,
            )
        } else if *word == b"v".as_slice() {
            step_line(self.size, self.class(), self.steps(), others)
        } else {
            Err(FaultKind::UnknownLine)
        }
    }
}

impl TableReader {
    /// What a line of an assignment says, by its numbers.
    fn entry_says(&self, numbers: (u64, u64)) -> Result<TableLine, FaultKind>
        ensures { result ≡ spec.numbers_line (self.now).arcs (self.now).size
            (spec.due_in (read_of self.now)) (length (self.now).table.assigned.items) numbers }
    {
        let count = self.table.assigned.len();
        numbers_line(self.arcs, self.size, self.due(), count, numbers)
    }

    /// What a line of a step says, by its numbers.
    fn step_says(&self, numbers: (u64, u64)) -> Result<TableLine, FaultKind>
        ensures { result
            ≡ spec.step_numbers_line (self.now).size (run_in (table (self.now).table)) numbers }
    {
        step_numbers_line(self.size, self.class(), self.steps(), numbers)
    }

    /// Takes up what a line says.
    #[tactic(auto, unfolding(crate::specs::Table::after_said))]
    fn add(&mut self, said: Result<TableLine, FaultKind>) -> Result<(), FaultKind>
        ensures { GivesLine (λ _. read_of self.new) result
            (spec.after_said (read_of self.old) said) }
    {
        match said? {
            TableLine::Silent => {}
            TableLine::Problem(size) => self.size = Some(size),
            TableLine::Kind(kind) => self.table.kinds.push(kind)?,
            TableLine::Assigned(entry) => self.table.assigned.push(entry)?,
            TableLine::Step(step) => self.table.steps.push(step)?,
        }
        Ok(())
    }

    /// The same of a line at the front of a text, and the bytes after it.
    fn add_front<'a>(
        &mut self,
        said: Result<TableLine, FaultKind>,
        rest: &'a [u8],
    ) -> Result<&'a [u8], FaultKind>
        ensures said { GivesLine (λ _. read_of self.new) result
            (spec.after_said (read_of self.old) said) }
        ensures rest { IfOk result (λ after. after.now ≡ rest.entry.now) }
    {
        match self.add(said) {
            Ok(()) => Ok(rest),
            Err(kind) => Err(kind),
        }
    }
}

impl LineReader for TableReader {
    type Text = RawTable;

    ghost Denoted = { Table };

    ghost view = { table };

    ghost State = { spec.TableRead };

    ghost state = { read_of };

    ghost step = { spec.table_step };

    #[tactic(auto, unfolding(crate::specs::Table::table_step, crate::specs::Table::after_said))]
    fn read_fields(&mut self, fields: &[&[u8]]) -> Result<(), FaultKind> {
        let said = self.line_says(fields);
        self.add(said)
    }

    fn read_plain<'a>(&mut self, text: &'a [u8]) -> Option<Result<&'a [u8], FaultKind>> {
        if let Some((numbers, rest)) = leading_entry(text) {
            let said = self.entry_says(numbers);
            return Some(self.add_front(said, rest));
        }
        if let Some((numbers, rest)) = leading_step(text) {
            let said = self.step_says(numbers);
            return Some(self.add_front(said, rest));
        }
        None
    }

    ghost end = { spec.table_end };

    #[tactic(auto, unfolding(crate::specs::Table::table_end))]
    fn finish(self) -> Result<RawTable, FaultKind> {
        let size = self.size.ok_or(FaultKind::NoProblemLine)?;
        if self.table.kinds.len() < size.kinds as usize {
            return Err(FaultKind::TooFewLines);
        }
        if self.table.assigned.len() < size.assigned as usize {
            return Err(FaultKind::TooFewLines);
        }
        if self.due() > 0 {
            return Err(FaultKind::TooFewLines);
        }
        Ok(self.table)
    }

    ghost front = { table_step-front };
}

/// A reader of a text of which no line was read yet.
fn start(alloc: Global, arcs: u32) -> TableReader
    ensures { read_of result ≡ spec.no_table arcs }
{
    TableReader {
        arcs,
        size: None,
        table: RawTable {
            kinds: Vec::new(alloc),
            assigned: Vec::new(alloc),
            steps: Vec::new(alloc),
        },
        is_behind: false,
        spares: Vec::new(alloc),
    }
}

fn read_table(alloc: Global, text: &[u8], arcs: u32) -> Result<RawTable, InputFault>
    ensures exact { Gives table result (table_of arcs (field_lines text.now)) }
{
    read_text(alloc, start(alloc, arcs), text)
}

/// The timetable of a text, or the text's first fault; arcs are numbered from 1 up to `arcs`. `OutOfMemory`, in line 0, says
/// nothing of the text.
pub fn read_tp(alloc: Global, text: &[u8], arcs: u32) -> Result<RawTable, InputFault>
    // What is read is what the text denotes.
    ensures denoted { IfOk result
        (λ found. DenotesTable arcs (field_lines text.now) (table found)) }
    // What the text denotes is read, unless memory is refused.
    ensures only { (t : Table) → DenotesTable arcs (field_lines text.now) t →
        MatchResult result (λ read. table read ≡ t) (λ fault. fault ≡ out_of_memory) }

    // A fault is the text's, unless memory is refused.
    ensures fault { IfErr result (IsFaultTold (table_format arcs) (field_lines text.now)) }
    // The text's fault is answered, unless memory is refused.
    ensures faulty { (fault : FaultType)
        → IsFaultOf (table_format arcs) (field_lines text.now) fault →
        MatchResult result (λ _. ⊥) (λ found. (found ≡ out_of_memory) ⊎ (found ≡ fault)) }
{
    read_table(alloc, text, arcs)
}

/// What a device's text is read to, with one clause, which says it step by step.
fn read_table_from<H: Threads + Sync, D: ByteIn>(
    rt: &H,
    way: Way,
    limit: u64,
    device: &mut D,
    arcs: u32,
) -> Result<RawTable, StreamFault>
    requires { 0 < way.size }
    ensures exact { GivesWhole table (table_of arcs) limit
        (D.seen device.old) (D.seen device.new) result }
{
    let start = start(way.alloc, arcs);
    read_device(rt, way, limit, start, device)
}

/// The timetables of a device's text, or why it gave none, as `read_tp` reads a text; at most `limit`
/// bytes, by at most `threads` threads. The text is read block by block as its bytes come, so it is never in memory whole. After
/// the text's first fault the device is read to its end. `OutOfMemory` says nothing of the text.
pub fn read_tp_from<H: Threads + Sync, D: ByteIn>(
    alloc: Global,
    rt: &H,
    threads: usize,
    limit: u64,
    device: &mut D,
    arcs: u32,
) -> Result<RawTable, StreamFault>
    // What is read is what the text denotes.
    ensures denoted { IfOk result (λ read.
        DenotesWhole (DenotesTable arcs) limit (D.seen device.old) (D.seen device.new)
        (table read)) }
    // A fault is the device's or the text's, unless memory is refused.
    ensures fault { IfErr result
        (IsStreamFault (table_format arcs) limit (D.seen device.old) (D.seen device.new)) }
{
    read_table_from(rt, way_of(alloc, threads), limit, device, arcs)
}

/// The timetables of a device's text, as `read_tp_from` reads it, in blocks and pieces of the sizes that are given.
pub fn read_tp_by<H: Threads + Sync, D: ByteIn>(
    rt: &H,
    way: Way,
    limit: u64,
    device: &mut D,
    arcs: u32,
) -> Result<RawTable, StreamFault>
    requires { 0 < way.size }
    // What is read is what the text denotes.
    ensures denoted { IfOk result (λ read.
        DenotesWhole (DenotesTable arcs) limit (D.seen device.old) (D.seen device.new)
        (table read)) }
    // A fault is the device's or the text's, unless memory is refused.
    ensures fault { IfErr result
        (IsStreamFault (table_format arcs) limit (D.seen device.old) (D.seen device.new)) }
{
    read_table_from(rt, way, limit, device, arcs)
}

/// The law of the texts of timetables: a text denotes at most one timetable and has at most one
/// fault, and exactly one of the two. It computes nothing.
pub fn table_law(_arcs: u32)
    ensures { IsGrammar (DenotesTable _arcs) (table_format _arcs) }
{}
