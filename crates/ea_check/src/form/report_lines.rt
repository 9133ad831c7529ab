//! The lines of a report, found one after another as the bytes of its device come.
ghost use Rattle.std.specs.Prelude.{◌≡◌, ◌+◌, ◌<◌, ◌≤◌, ◌↔◌, ◌∷◌, [], IfErr, IfOk, IfSome, IsTrue, MatchOption, None, OnOk, Some, drop, false, length, take, true};
ghost use Rattle.std.specs.Str.Lines.{strip_carriage_return};
ghost use Rattle.ea_blocks.specs.Taking.{HasRoom, IsStopped, StopsTaking};
ghost use Rattle.ea_bytes.specs.Text.{fields_of, is_silent, lines_of};
ghost use Rattle.ea_check.specs.Ahead.{HasPassed, IsAhead};
ghost use Rattle.ea_check.specs.Streams.{Begins, BeginsWithLine, FindsLine, GetsMore, HasLast, IsReady, IsSound, IsUnread, Leads, Skips, TakesLine, calls_left, last_of, line_of, most_bytes, rest_of, size_left, spoken};

use crate::form::ahead::{Ahead, take_ahead};
use crate::team::Team;
use ea_base::Direction;
use ea_blocks::{Blocks, ReadFault};
use ea_bytes::{ByteIn, first_field, is_comment, without_return};
use memchr::memchr;
use std::alloc::{AllocError, Global};
use std::mem;

/// A line that is neither blank nor a comment, its number, and the direction of its report's run.
#[derive(Clone, Copy)]
pub(crate) struct SpokenLine<'a> {
    pub number: u64,
    pub way: Direction,
    pub text: &'a [u8],
}

/// The lines of a device's text that are neither blank nor comments, one after another. Only a block of its
/// bytes is in memory, and in it the line that was found last.
#[derive(Drop)]
pub(crate) struct ReportLines {
    /// The direction of the report's run.
    pub way: Direction,
    pub blocks: Blocks,
    /// Bytes of the device.
    pub block: Vec<u8>,
    /// The bytes of the block before this place were read.
    pub start: usize,
    /// A block is filled up to at least this length.
    pub least: usize,
    /// Room for the next block.
    pub spare: Vec<u8>,
    /// Whether the block has the last byte of the device.
    pub ended: bool,
    /// The number of lines that were read.
    pub count: u64,
    /// Whether the last line that was read is a line that says something. If it isn't, no line is left.
    pub found: bool,
    /// The place in the block at which the last line that was read begins.
    pub from: usize,
    /// The place at which it ends, without its line feed.
    pub to: usize,
}

/// The least length of a block that is filled; the last one of a device may be shorter.
const BLOCK: usize = 262_144;

/// The same for several threads.
const LARGE_BLOCK: usize = 2_097_152;

/// The least length of a block for this many threads.
fn least_block(threads: usize) -> usize {
    if threads > 1 { LARGE_BLOCK } else { BLOCK }
}

/// Whether a line is neither blank nor a comment.
fn speaks(text: &[u8]) -> bool
    ensures { IsTrue result ↔ (is_silent (fields_of text.now) ≡ false) }
{
    match first_field(text) {
        None => false,
        Some((word, _)) => !is_comment(word),
    }
}

/// The length of the first line of a text; none if no line feed ends it.
fn line_end(text: &[u8]) -> Option<usize>
    ensures { MatchOption result (0 < length text.now → lines_of text.now ≡ text.now ∷ [])
        (λ end. (end < length text.now)
        × BeginsWithLine text.now (take end text.now) (drop (end + 1) text.now)) }
{
    memchr(b'\n', text)
}

impl ReportLines {
    /// The lines of a device that was not read yet. Blocks are larger for several threads.
    pub(crate) fn unread(
        alloc: Global,
        way: Direction,
        threads: usize,
    ) -> Result<ReportLines, AllocError>
        ensures { IfOk result (IsUnread way) }
    {
        Ok(ReportLines {
            way,
            blocks: Blocks::new(alloc, u64::MAX)?,
            block: Vec::new(alloc),
            start: 0,
            least: least_block(threads),
            spare: Vec::new(alloc),
            ended: false,
            count: 0,
            found: false,
            from: 0,
            to: 0,
        })
    }

    /// The same; the first line is found.
    pub(crate) fn open<R: ByteIn>(
        alloc: Global,
        way: Direction,
        threads: usize,
        device: &mut R,
    ) -> Result<ReportLines, ReadFault>
        ensures sound { IfOk result IsSound }
        ensures begins { IfOk result
            (Begins way most_bytes (R.seen device.old) (R.seen device.new)) }
        ensures fault { IfErr result
            (IsStopped most_bytes (R.seen device.old) (R.seen device.new)) }
    {
        let mut lines = ReportLines::unread(alloc, way, threads)?;
        lines.find(device)?;
        Ok(lines)
    }

    /// The last line that was read.
    fn last(&self) -> &[u8]
        requires { HasLast self.now }
        ensures { result.now ≡ last_of self.now }
    {
        &self.block[self.from..self.to]
    }

    /// The line that was found, if one is left.
    pub(crate) fn line(&self) -> Option<SpokenLine<'_>>
        requires { HasLast self.now }
        ensures { MatchOption result (spoken self.now ≡ None)
            (λ line. spoken self.now ≡ Some (line_of line)) }
    {
        if self.found {
            Some(SpokenLine {
                number: self.count,
                way: self.way,
                text: self.last(),
            })
        } else {
            None
        }
    }

    /// The bytes of the block that were not read.
    fn rest(&self) -> &[u8]
        requires { self.now.start ≤ length self.now.block.items }
        ensures { result.now ≡ rest_of self.now }
    {
        &self.block[self.start..]
    }

    /// Moves the bytes that were not read to the front of the block, and fills it with further ones.
    fn refill<R: ByteIn>(&mut self, device: &mut R) -> Result<(), ReadFault>
        requires ready { IsReady self.old }
        requires more { self.old.ended ≡ false }
        ensures gets { OnOk result
            (GetsMore (R.seen device.old) self.old (R.seen device.new) self.new) }
        ensures fewer { OnOk result (calls_left self.new < calls_left self.old) }
        ensures kept { (self.new.count ≡ self.old.count) × (self.new.way ≡ self.old.way) }
        ensures fault { IfErr result
            (StopsTaking (R.seen device.old) self.old.blocks (R.seen device.new)) }
    {
        self.spare.clear();
        self.spare.extend_from_slice(&self.block[self.start..])?;
        let size = self
            .spare
            .len()
            .saturating_mul(2)
            .max(self.least)
            .max(BLOCK);
        self.ended = self.blocks.fill(device, &mut self.spare, size)?;
        mem::swap(&mut self.block, &mut self.spare);
        self.start = 0;
        self.from = 0;
        self.to = 0;
        Ok(())
    }

    /// Reads a line of `len` bytes, and continues after `past` bytes.
    fn take(&mut self, len: usize, past: usize)
        requires ready { IsReady self.old }
        requires within { (0 < past) × (len ≤ past) × (past ≤ length (rest_of self.old)) }
        ensures ready { IsReady self.new }
        ensures passed { HasPassed past 1 self.old self.new }
        ensures line { last_of self.new ≡ strip_carriage_return (take len (rest_of self.old)) }
    {
        let rest = &self.block[self.start..];
        let text = without_return(&rest[..len]);
        self.from = self.start;
        self.to = self.start + text.len();
        self.start += past;
        self.count += 1;
    }

    /// Reads the next line, whatever it says. Returns whether there is one.
    fn take_line<R: ByteIn>(&mut self, device: &mut R) -> Result<bool, ReadFault>
        requires ready { IsReady self.old }
        ensures ready { OnOk result (IsReady self.new) }
        ensures taken { IfOk result (λ some.
            Leads (TakesLine some (last_of self.new))
            (R.seen device.old) self.old (R.seen device.new) self.new) }
        ensures some { IfOk result (λ some. some ≡ true →
            (self.new.count ≡ self.old.count + 1) × (size_left self.new < size_left self.old)) }
        ensures none { IfOk result (λ some. some ≡ false → self.new.ended ≡ true) }
        ensures way { self.new.way ≡ self.old.way }
        ensures fault { IfErr result
            (StopsTaking (R.seen device.old) self.old.blocks (R.seen device.new)) }
    {
        'pulls: loop {
            if let Some(end) = line_end(self.rest()) {
                self.take(end, end + 1);
                return Ok(true);
            }
            if self.ended {
                break;
            }
            self.refill(device)?;
        }
        let left = self.rest().len();
        if left == 0 {
            return Ok(false);
        }
        self.take(left, left);
        Ok(true)
    }

    /// Replaces the times of `ahead` by those in the plain lines that follow the one that was found, from that of
    /// the node `first` on and up to that of the node `last`, without the last of these lines. Returns how many
    /// bytes they have; none if no such line follows.
    pub(crate) fn look_ahead<C: Team>(
        &self,
        team: &C,
        first: u32,
        last: u32,
        ahead: &mut Ahead,
    ) -> Option<usize>
        requires can { C.can_start team.now }
        requires ready { IsReady self.now }
        ensures { IfSome result (λ bytes. IsAhead self.now first last ahead.new.times.items bytes) }
    {
        take_ahead(team, self.way, self.rest(), first, last, ahead)
    }

    /// Passes lines: this many bytes of the block that were not read.
    pub(crate) fn pass(&mut self, bytes: usize, lines: usize)
        requires ready { IsReady self.old }
        requires within { (lines ≤ bytes) × (bytes ≤ length (rest_of self.old)) }
        ensures ready { IsReady self.new }
        ensures passed { HasPassed bytes lines self.old self.new }
    {
        self.start += bytes;
        self.count += lines as u64;
    }

    /// Finds the next line that is neither blank nor a comment.
    pub(crate) fn find<R: ByteIn>(&mut self, device: &mut R) -> Result<(), ReadFault>
        requires ready { IsReady self.old }
        ensures sound { OnOk result (IsSound self.new) }
        ensures found { OnOk result (Leads (FindsLine self.old self.new)
            (R.seen device.old) self.old (R.seen device.new) self.new) }
        ensures fault { IfErr result
            (StopsTaking (R.seen device.old) self.old.blocks (R.seen device.new)) }
    {
        'lines: while self.take_line(device)? {
            if speaks(self.last()) {
                self.found = true;
                return Ok(());
            }
        }
        self.found = false;
        Ok(())
    }

    /// Reads the rest of the device without a look at it.
    pub(crate) fn skip_rest<R: ByteIn>(&mut self, device: &mut R) -> Result<(), ReadFault>
        requires room { HasRoom self.old.blocks }
        ensures rest { OnOk result
            (Skips (R.seen device.old) self.old (R.seen device.new) self.new) }
        ensures fault { IfErr result
            (StopsTaking (R.seen device.old) self.old.blocks (R.seen device.new)) }
    {
        while !self.ended {
            self.block.clear();
            self.start = 0;
            self.ended = self.blocks.fill(device, &mut self.block, BLOCK)?;
        }
        Ok(())
    }
}
