//! A reader that gets a text block by block. While several threads read the pieces of a block, it takes up those of
//! the block before.
ghost use Rattle.std.specs.Prelude.{◌≡◌, ◌<◌, ◌≤◌, ◌+◌, ◌-◌, ◌^◌, [], None, length};
ghost use Rattle.ea_blocks.specs.Pieces.{AreIdleIn, AreLanesOn, AreRead, IsIdle, IsLaneOn, WasRead};
ghost use Rattle.ea_blocks.specs.Reading.{ReadsAll};
ghost use Rattle.ea_blocks.specs.Streams.{Finishes};
ghost use Rattle.ea_blocks.specs.Feeding.{CanSettle, CanTakeBlock, HasSettled, IsKept, ReachesOn, TakesBlock, WasGiven};

use crate::fault::{InputFault, fault_in};
use crate::line_reader::read_lines;
use crate::pieces::{
    BlockReader, Cut, Lane, ReadPiece, cut_for, gather, gather_all, idle_lane, piece_at,
    read_in_lane, take_or_read,
};
use crate::reading_plan::Way;
use ea_fork_join::for_each_mut_beside;
use std::alloc::Global;
use std::mem;
use std::sync::atomic::AtomicUsize;
use std::thread::{Threads, join_mut};

/// A reader of lines, the number of lines that it got, and their first fault.
#[derive(Drop)]
pub struct Fed<R: BlockReader> {
    pub reader: R,
    pub lines: u64,
    pub fault: Option<InputFault>,
}

impl<R: BlockReader> Fed<R> {
    /// Gives the reader the lines of a text, if those before them have no fault.
    pub(crate) fn take(&mut self, alloc: Global, text: &[u8])
        requires { self.old.lines + length text.now < 2 ^ 64 }
        ensures { WasGiven R.step R.state self.old self.new text.now }
    {
        if self.fault.is_some() {
            return;
        }
        match read_lines(alloc, &mut self.reader, self.lines, text) {
            Ok(lines) => self.lines = lines,
            Err(fault) => self.fault = Some(fault),
        }
    }

    /// The same, given the result of a separate reader of these lines.
    fn take_up(&mut self, alloc: Global, text: &[u8], aside: R, read: Result<u64, InputFault>)
        requires few { self.old.lines + length text.now < 2 ^ 64 }
        requires aside { (start : R) × R.IsAside start
            × ReadsAll R.step R.state 0 start aside text.now read }
        ensures { WasGiven R.step R.state self.old self.new text.now }
    {
        if self.fault.is_some() {
            return;
        }
        match take_or_read(alloc, &mut self.reader, aside, read, self.lines, text) {
            Ok(lines) => self.lines = lines,
            Err(fault) => self.fault = Some(fault),
        }
    }

    /// Gives the reader the lines of a piece of a text of which it got those up to a place, if the piece begins
    /// there. Returns the place up to which it got them then.
    fn take_piece(&mut self, alloc: Global, text: &[u8], at: usize, piece: ReadPiece<R>) -> usize
        requires few { self.old.lines + (length text.now - at) < 2 ^ 64 }
        requires read { WasRead R.step R.state R.IsAside text.now piece }
        requires at { at ≤ length text.now }
        ensures { ReachesOn R.step R.state self.old self.new text.now at result }
    {
        let ReadPiece {
            reader,
            from,
            to,
            read,
        } = piece;
        if from != at || text[to - 1] != b'\n' {
            return at;
        }
        self.take_up(alloc, &text[at..to], reader, read);
        to
    }

    /// Gives the reader the lines of a text, of which separate readers may have read pieces.
    fn take_all(&mut self, alloc: Global, text: &[u8], pieces: &mut Vec<ReadPiece<R>>)
        requires few { self.old.lines + length text.now < 2 ^ 64 }
        requires read { AreRead R.step R.state R.IsAside text.now pieces.old.items }
        ensures { WasGiven R.step R.state self.old self.new text.now }
    {
        let mut at = 0;
        while let Some(index) = piece_at(pieces, at) {
            let piece = pieces.swap_remove(index);
            at = self.take_piece(alloc, text, at, piece);
        }
        self.take(alloc, &text[at..]);
    }

    /// Gives the reader the lines of a text and does other work, at the same time if there are several threads.
    fn take_beside<H: Threads + Sync, X, B: FnMut() -> X>(
        &mut self,
        rt: &H,
        way: Way,
        text: &[u8],
        beside: &mut B,
    ) -> X
        requires few { self.old.lines + length text.now < 2 ^ 64 }
        requires work { B.pre beside.old }
        ensures given { WasGiven R.step R.state self.old self.new text.entry.now }
        ensures beside { B.step beside.old result beside.new }
    {
        let alloc = way.alloc;
        if way.threads < 2 || self.fault.is_some() {
            self.take(alloc, text);
            return beside();
        }
        let mut reading = move ||
            requires { self.now.lines + length text.now < 2 ^ 64 }
            ensures { WasGiven R.step R.state self.entry.now self.exit.now text.entry.now }
        { self.take(alloc, text) };
        let (_, gave) = join_mut(rt, &mut reading, beside);
        gave
    }

    /// The result if the lines so far are all.
    pub(crate) fn finish(self) -> Result<R::Text, InputFault>
        ensures { Finishes R.step R.end R.view (R.state self.reader) self.lines self.fault result }
    {
        if let Some(fault) = self.fault {
            return Err(fault);
        }
        match self.reader.finish() {
            Ok(read) => Ok(read),
            Err(kind) => Err(fault_in(0, kind)),
        }
    }
}

/// A reader of lines, and lines that follow those that it got and wait for it.
#[derive(Drop)]
pub struct Feed<R: BlockReader> {
    pub fed: Fed<R>,
    pub waiting: Vec<u8>,
    /// Pieces of the waiting lines that separate readers read.
    pub pieces: Vec<ReadPiece<R>>,
    /// What this thread reads pieces with.
    pub lane: Lane<R>,
}

impl<R: BlockReader> Feed<R> {
    /// A reader that got no line.
    pub(crate) fn new(alloc: Global, start: R) -> Feed<R>
        ensures reader { result.fed ≡ record { reader = start; lines = 0; fault = None } }
        ensures none { (result.waiting.items ≡ []) × (result.pieces.items ≡ []) }
        ensures idle { IsIdle R.IsAside result.lane }
    {
        Feed {
            fed: Fed {
                reader: start,
                lines: 0,
                fault: None,
            },
            waiting: Vec::new(alloc),
            pieces: Vec::new(alloc),
            lane: idle_lane(alloc),
        }
    }

    /// Gives the reader the lines that wait.
    pub(crate) fn settle(&mut self, alloc: Global)
        requires { CanSettle R.step R.state R.IsAside self.old }
        ensures given { WasGiven R.step R.state self.old.fed self.new.fed self.old.waiting.items }
        ensures none { self.new.waiting.items ≡ [] }
        ensures no_piece { self.new.pieces.items ≡ [] }
        ensures lane { self.new.lane ≡ self.old.lane }
    {
        self.fed.take_all(alloc, &self.waiting, &mut self.pieces);
        self.waiting.clear();
        self.pieces.clear();
    }

    /// How a block of this length is read in pieces; none if one thread had better read it.
    fn cut(&mut self, way: Way, others: &mut [Lane<R>], bytes: usize) -> Option<Cut>
        requires { IsIdle R.IsAside self.old.lane × AreIdleIn R.IsAside others.old }
        ensures idle { IsIdle R.IsAside self.new.lane × AreIdleIn R.IsAside others.new }
        ensures kept { IsKept R.state self.old self.new }
    {
        if self.fed.fault.is_some() {
            return None;
        }
        cut_for(way, &mut self.fed.reader, &mut self.lane, others, bytes)
    }

    /// Takes the lines of a block, which the reader gets now or later, and does other work, at the same time if
    /// there are several threads. The block is replaced by one whose lines the reader got.
    pub(crate) fn take_block<H: Threads + Sync, X, B: FnMut() -> X>(
        &mut self,
        rt: &H,
        way: Way,
        others: &mut [Lane<R>],
        block: &mut Vec<u8>,
        beside: &mut B,
    ) -> X
        requires can { CanTakeBlock R.step R.state R.IsAside self.old block.old.items }
        requires idle { AreIdleIn R.IsAside others.old }
        requires work { B.pre beside.old }
        ensures takes { TakesBlock R.step R.state R.IsAside self.old self.new block.old.items }
        ensures idle { AreIdleIn R.IsAside others.new }
        ensures beside { B.step beside.old result beside.new }
    {
        let alloc = way.alloc;
        let Some(cut) = self.cut(way, others, block.len()) else {
            self.settle(alloc);
            return self.fed.take_beside(rt, way, block, beside);
        };
        let next = AtomicUsize::new(0);
        let gave = read_in_lanes(rt, block, cut, &next, self, others, beside);
        gather(block, &mut self.lane, &mut self.pieces);
        gather_all(block, others, &mut self.pieces);
        mem::swap(&mut self.waiting, block);
        gave
    }
}

/// Reads pieces of a text by several threads, by this one after the reader got the lines that wait and after other
/// work.
fn read_in_lanes<R: BlockReader, H: Threads + Sync, X, B: FnMut() -> X>(
    rt: &H,
    text: &[u8],
    cut: Cut,
    next: &AtomicUsize,
    feed: &mut Feed<R>,
    others: &mut [Lane<R>],
    beside: &mut B,
) -> X
    requires can { CanSettle R.step R.state R.IsAside feed.old }
    requires lane { IsLaneOn R.step R.state R.IsAside text.now feed.old.lane }
    requires others { AreLanesOn R.step R.state R.IsAside text.now others.old }
    requires work { B.pre beside.old }
    ensures settled { HasSettled R.step R.state R.IsAside text.entry.now feed.old feed.new }
    ensures others { AreLanesOn R.step R.state R.IsAside text.entry.now others.new }
    ensures beside { B.step beside.old result beside.new }
{
    let mut working = move || -> X
        requires { B.pre beside.now × CanSettle R.step R.state R.IsAside feed.now
            × IsLaneOn R.step R.state R.IsAside text.now feed.now.lane }
        ensures { B.step beside.entry.now result beside.exit.now
            × HasSettled R.step R.state R.IsAside text.entry.now feed.entry.now feed.exit.now }
    {
        feed.settle(cut.alloc);
        let gave = beside();
        read_in_lane(text, cut, next, &mut feed.lane);
        gave
    };
    let reading = move |_place: usize, lane: &mut Lane<R>|
        requires { IsLaneOn R.step R.state R.IsAside text.now lane.now }
        ensures { IsLaneOn R.step R.state R.IsAside text.entry.now lane.exit.now }
    { read_in_lane(text, cut, next, lane) };
    for_each_mut_beside(rt, &reading, others, &mut working)
}
