//! Pieces of a text that several threads read: each takes the next piece that none has taken, and reads its lines by
//! a separate reader. The reader of the whole text takes up what they read, later and in order. If a piece has a
//! fault, or what was read can't be appended, that reader reads the lines again, so that the first fault is found.
ghost use Rattle.std.specs.Prelude.{◌≡◌, ◌<◌, ◌≤◌, ◌+◌, ◌^◌, [], IfNone, IfOk, IfSome, Ok, length, take, true};
ghost use Rattle.ea_blocks.specs.Pieces.{AreAside, AreIdleIn, AreLanesOn, AreRead, IsIdle, IsLaneOn, IsTakenUp, WasRead};
ghost use Rattle.ea_blocks.specs.Reading.{ReadsAll};
ghost use Rattle.ea_blocks.specs.Streams.{EndsLine};

use crate::fault::InputFault;
use crate::line_reader::{LineReader, read_lines};
use crate::reading_plan::Way;
use std::alloc::{AllocError, Global};
use std::sync::atomic::AtomicUsize;
use std::sync::atomic::Ordering::SeqCst;

/// A reader of lines whose text comes in blocks.
pub trait BlockReader: LineReader + Send + Sized {
    /// The state of a reader that begins a later piece of the text.
    ghost IsAside: { Self → Type 0 };

    /// A reader for a later piece of the text; none if one thread had better read the lines.
    fn aside(&mut self, _alloc: Global) -> Option<Self>
        ensures kept { Self.state self.new ≡ Self.state self.old }
        ensures aside { IfSome result IsAside }
    {
        None
    }

    /// Appends what a separate reader read. Returns whether it fits.
    fn take_aside(&mut self, _aside: Self) -> bool
        ensures { IsTakenUp Self.step Self.state IsAside self.old _aside self.new result }
    {
        false
    }
}

/// A piece of a text, the separate reader that read its lines, and their number or their first fault.
#[derive(Drop)]
pub struct ReadPiece<R: BlockReader> {
    pub reader: R,
    /// The place in the text at which the piece begins.
    pub from: usize,
    /// The place at which it ends.
    pub to: usize,
    pub read: Result<u64, InputFault>,
}

/// What a thread reads with, and what it read.
#[derive(Drop)]
pub struct Lane<R: BlockReader> {
    /// Readers that read nothing yet.
    pub fresh: Vec<R>,
    /// The pieces that were read.
    pub read: Vec<ReadPiece<R>>,
}

/// Adds readers for later pieces up to this number. Returns whether there are as many.
fn fill<R: BlockReader>(alloc: Global, reader: &mut R, count: usize, fresh: &mut Vec<R>) -> bool
    requires { AreAside R.IsAside fresh.old.items }
    ensures asides { AreAside R.IsAside fresh.new.items }
    ensures kept { R.state reader.new ≡ R.state reader.old }
{
    for _ in fresh.len()..count {
        let Some(aside) = reader.aside(alloc) else {
            return false;
        };
        let Ok(()) = fresh.push(aside) else {
            return false;
        };
    }
    true
}

/// How a text is read in pieces.
#[derive(Clone, Copy)]
pub struct Cut {
    /// The allocator.
    pub alloc: Global,
    /// The length of a piece, about.
    pub size: usize,
    /// The number of pieces.
    pub count: usize,
}

/// The place after the first line feed among this many bytes of a text from a place on; their end if there is none.
fn after_line(text: &[u8], place: usize, most: usize) -> usize {
    let end = place.saturating_add(most).min(text.len());
    for at in place..end {
        if text[at] == b'\n' {
            return at + 1;
        }
    }
    end
}

/// The length of a text up to and with its last line feed; none if it has no line feed.
pub fn end_of_lines(text: &[u8]) -> usize
    ensures inside { result ≤ length text.now }
    ensures ends { EndsLine (take result text.now) }
{
    let mut end = text.len();
    while end > 0 {
        if text[end - 1] == b'\n' {
            return end;
        }
        end -= 1;
    }
    0
}

/// The place in a text at which a piece begins, behind a line feed unless lines are longer than pieces; behind the
/// last piece the text's end.
fn begin_of(text: &[u8], cut: Cut, piece: usize) -> usize {
    if piece == 0 {
        0
    } else if piece >= cut.count {
        text.len()
    } else {
        after_line(text, piece.saturating_mul(cut.size), cut.size)
    }
}

/// Reads the lines of a text from one place to another by a separate reader; none if there are no bytes between
/// them.
fn read_piece<R: BlockReader>(
    alloc: Global,
    text: &[u8],
    from: usize,
    to: usize,
    reader: R,
) -> Option<ReadPiece<R>>
    requires { R.IsAside reader }
    ensures { IfSome result (WasRead R.step R.state R.IsAside text.now) }
{
    if from >= to || to > text.len() {
        return None;
    }
    let mut reader = reader;
    let read = read_lines(alloc, &mut reader, 0, &text[from..to]);
    Some(ReadPiece {
        reader,
        from,
        to,
        read,
    })
}

/// Reads pieces of a text, one after another, as long as there is one that no thread has taken.
pub(crate) fn read_in_lane<R: BlockReader>(
    text: &[u8],
    cut: Cut,
    next: &AtomicUsize,
    lane: &mut Lane<R>,
)
    requires { IsLaneOn R.step R.state R.IsAside text.now lane.old }
    ensures { IsLaneOn R.step R.state R.IsAside text.now lane.new }
{
    for _ in 0..cut.count {
        let place = next.fetch_add(1, SeqCst);
        if place >= cut.count {
            break;
        }
        let Some(reader) = lane.fresh.pop() else {
            break;
        };
        let from = begin_of(text, cut, place);
        let to = begin_of(text, cut, place.saturating_add(1));
        if let Some(piece) = read_piece(cut.alloc, text, from, to, reader) {
            let Ok(()) = lane.read.push(piece) else {
                break;
            };
        }
    }
}

/// The most pieces of a text.
const MOST_PIECES: usize = 1_024;

/// The most threads that are started for a text.
const MOST_OTHERS: usize = 7;

/// A lane that read nothing.
pub(crate) fn idle_lane<R: BlockReader>(alloc: Global) -> Lane<R>
    ensures { IsIdle R.IsAside result }
{
    Lane {
        fresh: Vec::new(alloc),
        read: Vec::new(alloc),
    }
}

/// Readers for as many pieces in each lane. Returns whether there are as many.
fn fill_others<R: BlockReader>(
    alloc: Global,
    reader: &mut R,
    count: usize,
    lanes: &mut [Lane<R>],
) -> bool
    requires { AreIdleIn R.IsAside lanes.old }
    ensures idle { AreIdleIn R.IsAside lanes.new }
    ensures kept { R.state reader.new ≡ R.state reader.old }
{
    let mut full = true;
    for place in 0..lanes.len() {
        if !fill(alloc, reader, count, &mut lanes[place].fresh) {
            full = false;
        }
    }
    full
}

/// The lanes of the threads that this one starts, if there are this many with it.
pub(crate) fn other_lanes<R: BlockReader>(
    alloc: Global,
    threads: usize,
) -> Result<Vec<Lane<R>>, AllocError>
    ensures { IfOk result (λ lanes. AreIdleIn R.IsAside lanes.items) }
{
    let mut others = Vec::new(alloc);
    for _ in 1..threads.min(MOST_OTHERS + 1) {
        others.push(idle_lane(alloc))?;
    }
    Ok(others)
}

/// How a text of this length is read in pieces, in the lane of this thread and in those of others; none if one
/// thread had better read it.
pub(crate) fn cut_for<R: BlockReader>(
    way: Way,
    reader: &mut R,
    lane: &mut Lane<R>,
    others: &mut [Lane<R>],
    bytes: usize,
) -> Option<Cut>
    requires { IsIdle R.IsAside lane.old × AreIdleIn R.IsAside others.old }
    ensures idle { IsIdle R.IsAside lane.new × AreIdleIn R.IsAside others.new }
    ensures kept { R.state reader.new ≡ R.state reader.old }
{
    let alloc = way.alloc;
    let size = way.piece.max(bytes / MOST_PIECES).max(1);
    if others.is_empty() || bytes / 2 < size {
        return None;
    }
    let count = bytes.div_ceil(size);
    if fill(alloc, reader, count, &mut lane.fresh) && fill_others(alloc, reader, count, others) {
        Some(Cut { alloc, size, count })
    } else {
        None
    }
}

/// Moves what was read in a lane to a list, or drops it if memory was refused.
pub(crate) fn gather<R: BlockReader>(
    text: &[u8],
    lane: &mut Lane<R>,
    pieces: &mut Vec<ReadPiece<R>>,
)
    requires lane { IsLaneOn R.step R.state R.IsAside text.now lane.old }
    requires read { AreRead R.step R.state R.IsAside text.now pieces.old.items }
    ensures idle { IsIdle R.IsAside lane.new }
    ensures read { AreRead R.step R.state R.IsAside text.now pieces.new.items }
{
    let _ = text;
    let _ = pieces.append(&mut lane.read);
    lane.read.clear();
}

/// The same for several lanes.
pub(crate) fn gather_all<R: BlockReader>(
    text: &[u8],
    lanes: &mut [Lane<R>],
    pieces: &mut Vec<ReadPiece<R>>,
)
    requires lanes { AreLanesOn R.step R.state R.IsAside text.now lanes.old }
    requires read { AreRead R.step R.state R.IsAside text.now pieces.old.items }
    ensures idle { AreIdleIn R.IsAside lanes.new }
    ensures read { AreRead R.step R.state R.IsAside text.now pieces.new.items }
{
    for place in 0..lanes.len() {
        gather(text, &mut lanes[place], pieces);
    }
}

/// The index of the piece that begins at a place of its text.
pub(crate) fn piece_at<R: BlockReader>(pieces: &[ReadPiece<R>], at: usize) -> Option<usize>
    ensures { IfSome result (λ index. index < length pieces.now) }
{
    for index in 0..pieces.len() {
        if pieces[index].from == at {
            return Some(index);
        }
    }
    None
}

/// Appends what a separate reader read, if it read all its lines and they fit. Returns their number.
fn take_up<R: BlockReader>(reader: &mut R, aside: R, read: Result<u64, InputFault>) -> Option<u64>
    ensures none { IfNone result (R.state reader.new ≡ R.state reader.old) }
    ensures some { IfSome result (λ count. read ≡ Ok count) }
    ensures taken { IfSome result (λ _. IsTakenUp R.step R.state R.IsAside reader.old aside
        reader.new true) }
{
    let Ok(count) = read else {
        return None;
    };
    if reader.take_aside(aside) {
        Some(count)
    } else {
        None
    }
}

/// The lines of a text after this many lines before it, given the result of a separate reader: appends it or, if
/// it doesn't fit, reads the lines again.
pub(crate) fn take_or_read<R: BlockReader>(
    alloc: Global,
    reader: &mut R,
    aside: R,
    read: Result<u64, InputFault>,
    before: u64,
    text: &[u8],
) -> Result<u64, InputFault>
    requires few { before + length text.now < 2 ^ 64 }
    requires aside { (start : R) × R.IsAside start
        × ReadsAll R.step R.state 0 start aside text.now read }
    ensures { ReadsAll R.step R.state before reader.old reader.new text.now result }
{
    match take_up(reader, aside, read) {
        Some(count) => Ok(before + count),
        None => read_lines(alloc, reader, before, text),
    }
}
