//! Reading the texts of devices line by line as their bytes come, so that no text is in memory whole: while
//! the lines of a block are read, the next block is filled.
ghost use Rattle.std.specs.Prelude.{◌≡◌, ◌<◌, ◌+◌, ◌^◌, ◌++◌, IfSome, length};
ghost use Rattle.ea_blocks.specs.Pieces.{AreIdleIn};
ghost use Rattle.ea_blocks.specs.Reading.{text_after};
ghost use Rattle.ea_blocks.specs.Streams.{EndsLine, GivesWhole, IsFilled};
ghost use Rattle.ea_blocks.specs.Feeding.{CanTakeBlock, TakesBlock};
ghost use Rattle.ea_blocks.specs.Taking.{HasRoom};

use crate::blocks::{Blocks, ReadFault};
use crate::fault::InputFault;
use crate::feed::Feed;
use crate::pieces::{BlockReader, Lane, end_of_lines, other_lanes};
use crate::reading_plan::Way;
use ea_bytes::ByteIn;
use std::alloc::Global;
use std::mem;
use std::thread::Threads;
use thiserror::Error;

/// Why the text of a device has no result.
#[derive(Clone, Copy, Debug, PartialEq, Eq, Error)]
pub enum StreamFault {
    /// The device couldn't be read, or has more bytes than allowed.
    #[error("{0}")]
    Read(ReadFault),
    /// Its text has a fault, or memory was refused while it was read.
    #[error("{0}")]
    Input(InputFault),
}

/// The length of the first block. One thread reads it: two need to know what its first lines announce.
const FIRST_BLOCK: usize = 65_536;

/// Fills a block up to at least this many bytes, or to the end of the device. Returns whether it ended.
fn fill<D: ByteIn>(
    device: &mut D,
    blocks: &mut Blocks,
    block: &mut Vec<u8>,
    size: usize,
) -> Result<bool, ReadFault>
    requires room { HasRoom blocks.old }
    ensures { IsFilled size (D.seen device.old) blocks.old (D.seen device.new) blocks.new
        block.old.items block.new.items result }
{
    blocks.fill(device, block, size)
}

/// Takes the lines of a block, and fills a block with what follows them, at the same time if there are several
/// threads. Returns whether the device ended.
fn go_on<H: Threads + Sync, R: BlockReader, D: ByteIn>(
    rt: &H,
    way: Way,
    feed: &mut Feed<R>,
    others: &mut [Lane<R>],
    lines: &mut Vec<u8>,
    blocks: &mut Blocks,
    device: &mut D,
    block: &mut Vec<u8>,
) -> Result<bool, ReadFault>
    requires can { CanTakeBlock R.step R.state R.IsAside feed.old lines.old.items }
    requires idle { AreIdleIn R.IsAside others.old }
    requires room { HasRoom blocks.old }
    ensures takes { TakesBlock R.step R.state R.IsAside feed.old feed.new lines.old.items }
    ensures idle { AreIdleIn R.IsAside others.new }
    ensures filled { IsFilled way.size (D.seen device.old) blocks.old (D.seen device.new) blocks.new
        block.old.items block.new.items result }
{
    let size = way.size;
    let mut filling = || -> Result<bool, ReadFault>
        requires { HasRoom blocks.now }
        ensures { IsFilled size (D.seen device.entry.now) blocks.entry.now
            (D.seen device.exit.now) blocks.exit.now
            block.entry.now.items block.exit.now.items result }
    { fill(device, blocks, block, size) };
    feed.take_block(rt, way, others, lines, &mut filling)
}

/// Cuts a block behind its last line feed. Copies what follows to the block after it; none if memory was refused.
fn keep_lines(block: &mut Vec<u8>, next: &mut Vec<u8>) -> Option<()>
    ensures { IfSome result (λ _. EndsLine block.new.items
        × (block.old.items ≡ block.new.items ++ next.new.items)) }
{
    let end = end_of_lines(block);
    next.clear();
    match next.extend_from_slice(&block[end..]) {
        Ok(()) => {
            block.truncate(end);
            Some(())
        }
        Err(_) => None,
    }
}

/// Reads a device's text, up to a limit of bytes.
pub fn read_device<H: Threads + Sync, R: BlockReader, D: ByteIn>(
    rt: &H,
    way: Way,
    limit: u64,
    start: R,
    device: &mut D,
) -> Result<R::Text, StreamFault>
    requires { 0 < way.size }
    ensures { GivesWhole R.view (text_after R.step R.end (R.state start)) limit
        (D.seen device.old) (D.seen device.new) result }
{
    let alloc = way.alloc;
    let Ok(mut blocks) = Blocks::new(alloc, limit) else {
        return Err(StreamFault::Read(ReadFault::OutOfMemory));
    };
    let Ok(mut others) = other_lanes(alloc, way.threads) else {
        return Err(StreamFault::Read(ReadFault::OutOfMemory));
    };
    let mut feed = Feed::new(alloc, start);
    let mut block = Vec::new(alloc);
    let mut next = Vec::new(alloc);
    let mut ended = match fill(device, &mut blocks, &mut block, way.size.min(FIRST_BLOCK)) {
        Ok(ended) => ended,
        Err(fault) => return Err(StreamFault::Read(fault)),
    };
    while !ended {
        let Some(()) = keep_lines(&mut block, &mut next) else {
            return Err(StreamFault::Read(ReadFault::OutOfMemory));
        };
        // A line longer than a block makes longer blocks.
        let wanted = Way {
            size: next.len().saturating_mul(2).max(way.size),
            ..way
        };
        ended = match go_on(
            rt,
            wanted,
            &mut feed,
            &mut others,
            &mut block,
            &mut blocks,
            device,
            &mut next,
        ) {
            Ok(ended) => ended,
            Err(fault) => return Err(StreamFault::Read(fault)),
        };
        mem::swap(&mut block, &mut next);
    }
    let Some(()) = keep_lines(&mut block, &mut next) else {
        return Err(StreamFault::Read(ReadFault::OutOfMemory));
    };
    let mut nothing = || {};
    feed.take_block(rt, way, &mut others, &mut block, &mut nothing);
    feed.settle(alloc);
    let mut fed = feed.fed;
    fed.take(alloc, &next);
    match fed.finish() {
        Ok(read) => Ok(read),
        Err(fault) => Err(StreamFault::Input(fault)),
    }
}
