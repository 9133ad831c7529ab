//! The text of times: when each source or pair departs, or has to be reached.
ghost use Rattle.std.specs.Prelude.{◌≡◌, ◌<◌, ◌≤◌, ℕ, List, IfErr, IfOk, MatchResult, ◌⊎◌, map, length, codes};
ghost use Rattle.ea_base.specs.declared.limits.TheConstants.{HORIZON};
ghost use Rattle.ea_input.specs.Checks.{IsFaultOf, IsFaultTold};
ghost use Rattle.ea_blocks.specs.Fault.{Gives, out_of_memory};
ghost use Rattle.ea_input.specs.Formats.{time_format};
ghost use Rattle.ea_input.specs.Grammar.{IsGrammar};
ghost use Rattle.ea_blocks.specs.declared.fault.InputFault.{InputFault as FaultType};
ghost use Rattle.ea_input.specs.Fronts.{time_step-front};
ghost use Rattle.ea_input.specs.Listing as spec;
ghost use Rattle.ea_input.specs.Listing.{Listed, this_count, list_end, nothing_listed};
ghost use Rattle.ea_input.specs.Times.{DenotesTimes, time_of, time_step, times_of};
ghost use Rattle.ea_bytes.specs.Text.{field_lines};
ghost use Rattle.ea_blocks.specs.Reading.{GivesLine};
ghost use Rattle.ea_blocks.specs.Borrowed.{texts_now};
ghost use Rattle.ea_blocks.specs.Streams.{DenotesWhole, GivesWhole};
ghost use Rattle.ea_input.specs.StreamFaults.{IsStreamFault};

use crate::number_ranges::{numeral, within_wide};
use crate::problem_line::{ListLine, problem_line};
use ea_base::HORIZON;
use ea_blocks::{
    BlockReader, FaultKind, InputFault, LineReader, StreamFault, read_device, read_text, way_of,
};
use ea_bytes as text;
use ea_bytes::ByteIn;
use std::alloc::Global;
use std::thread::Threads;

#[tactic(auto, unfolding(crate::specs::Listing::only_number))]
fn only_time(fields: &[&[u8]]) -> Result<u64, FaultKind>
    ensures { result ≡ spec.only_number 0 HORIZON (texts_now fields.now) }
{
    match fields {
        [field] => within_wide(0, HORIZON, numeral(field)?),
        _ => Err(FaultKind::FieldCount),
    }
}

#[tactic(auto, unfolding(crate::specs::Listing::item_line))]
fn time_line(
    starts: u32,
    size: Option<u32>,
    count: usize,
    fields: &[&[u8]],
) -> Result<ListLine<u64>, FaultKind>
    ensures { result ≡ spec.item_line (time_of starts) size count (texts_now fields.now) }
{
    let size = size.ok_or(FaultKind::NoProblemLine)?;
    let time = only_time(fields)?;
    if count < size as usize {
        Ok(ListLine::Item(time))
    } else {
        Err(FaultKind::TooManyLines)
    }
}

#[tactic(auto, unfolding(crate::specs::Listing::list_line))]
fn line_says(
    starts: u32,
    size: Option<u32>,
    count: usize,
    fields: &[&[u8]],
) -> Result<ListLine<u64>, FaultKind>
    ensures { result ≡ spec.list_line (codes "at") (codes "t") (this_count starts) (time_of starts) size count
        (texts_now fields.now) }
{
    let [word, others @ ..] = fields else {
        return Ok(ListLine::Silent);
    };
    if text::is_comment(word) {
        Ok(ListLine::Silent)
    } else if *word == b"p".as_slice() {
        problem_line(b"at", (starts, starts), size, others)
    } else if *word == b"t".as_slice() {
        time_line(starts, size, count, others)
    } else {
        Err(FaultKind::UnknownLine)
    }
}

/// What the lines of a text said so far.
#[derive(Drop)]
struct TimeReader {
    starts: u32,
    size: Option<u32>,
    times: Vec<u64>,
}

impl LineReader for TimeReader {
    type Text = Vec<u64>;

    ghost Denoted = { List (ℕ) };

    ghost view = { λ times. times.items };

    ghost State = { Listed ℕ };

    ghost state = { λ reader. record { nodes = reader.starts; size = reader.size; items = reader.times.items } };

    ghost step = { time_step };

    #[tactic(auto, unfolding(crate::specs::Listing::list_step))]
    fn read_fields(&mut self, fields: &[&[u8]]) -> Result<(), FaultKind> {
        match line_says(self.starts, self.size, self.times.len(), fields)? {
            ListLine::Silent => {}
            ListLine::Problem(size) => self.size = Some(size),
            ListLine::Item(time) => self.times.push(time)?,
        }
        Ok(())
    }

    ghost end = { list_end };

    #[tactic(auto, unfolding(crate::specs::Listing::list_end))]
    fn finish(self) -> Result<Vec<u64>, FaultKind> {
        let size = self.size.ok_or(FaultKind::NoProblemLine)?;
        if self.times.len() < size as usize {
            return Err(FaultKind::TooFewLines);
        }
        Ok(self.times)
    }

    ghost front = { time_step-front };
}

impl BlockReader for TimeReader {
    ghost IsAside = { λ _. Unit {0} };
}

/// A reader of a text of which no line was read yet.
fn start(alloc: Global, starts: u32) -> TimeReader
    ensures { (record { nodes = result.starts; size = result.size; items = result.times.items })
        ≡ nothing_listed starts }
{
    TimeReader {
        starts,
        size: None,
        times: Vec::new(alloc),
    }
}

fn read_all_times(alloc: Global, text: &[u8], count: u32) -> Result<Vec<u64>, InputFault>
    ensures exact { Gives (λ times. times.items) result
        (times_of count (field_lines text.now)) }
{
    read_text(alloc, start(alloc, count), text)
}

/// The times of a text for this many sources or pairs, in their order, or the text's first fault; a text of any
/// other number of times is at fault. `OutOfMemory`, in line 0, says nothing of the text.
pub fn read_times(alloc: Global, text: &[u8], count: u32) -> Result<Vec<u64>, InputFault>
    // What is read is what the text denotes.
    ensures denoted { IfOk result
        (λ found. DenotesTimes count (field_lines text.now) (found.items)) }
    // What the text denotes is read, unless memory is refused.
    ensures only { (times : List (ℕ)) → DenotesTimes count (field_lines text.now) times →
        MatchResult result (λ read. read.items ≡ times) (λ fault. fault ≡ out_of_memory) }

    // A fault is the text's, unless memory is refused.
    ensures fault { IfErr result (IsFaultTold (time_format count) (field_lines text.now)) }
    // The text's fault is answered, unless memory is refused.
    ensures faulty { (fault : FaultType)
        → IsFaultOf (time_format count) (field_lines text.now) fault →
        MatchResult result (λ _. ⊥) (λ found. (found ≡ out_of_memory) ⊎ (found ≡ fault)) }
{
    read_all_times(alloc, text, count)
}

/// What a device's text is read to, with one clause, which says it step by step.
fn read_all_times_from<H: Threads + Sync, D: ByteIn>(
    alloc: Global,
    rt: &H,
    threads: usize,
    limit: u64,
    device: &mut D,
    count: u32,
) -> Result<Vec<u64>, StreamFault>
    ensures exact { GivesWhole (λ times. times.items) (times_of count) limit
        (D.seen device.old) (D.seen device.new) result }
{
    let start = start(alloc, count);
    read_device(rt, way_of(alloc, threads), limit, start, device)
}

/// The times of a device's text, or why it gave none, as `read_times` reads a text; at most `limit`
/// bytes, by at most `threads` threads. The text is read block by block as its bytes come, so it is never in memory whole. After
/// the text's first fault the device is read to its end. `OutOfMemory` says nothing of the text.
pub fn read_times_from<H: Threads + Sync, D: ByteIn>(
    alloc: Global,
    rt: &H,
    threads: usize,
    limit: u64,
    device: &mut D,
    count: u32,
) -> Result<Vec<u64>, StreamFault>
    // What is read is what the text denotes.
    ensures denoted { IfOk result (λ read.
        DenotesWhole (DenotesTimes count) limit (D.seen device.old) (D.seen device.new)
        read.items) }
    // A fault is the device's or the text's, unless memory is refused.
    ensures fault { IfErr result
        (IsStreamFault (time_format count) limit (D.seen device.old) (D.seen device.new)) }
{
    read_all_times_from(alloc, rt, threads, limit, device, count)
}

/// The law of the texts of times: a text denotes at most one list of times and has at most one fault, and
/// exactly one of the two. It computes nothing.
pub fn time_law(_count: u32)
    ensures { IsGrammar (DenotesTimes _count) (time_format _count) }
{}
