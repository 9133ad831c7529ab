//! Reading all bytes of a device.
ghost use Rattle.std.specs.Prelude.{◌≡◌, ◌<◌, ◌≤◌, ◌+◌, IfOk, [], IfSome, OnErr, OnOk, vec_len, IsErrOf, length, false};
ghost use Rattle.std.specs.Io.KnownBytes.{IsAtEnd};
ghost use Rattle.ea_bytes.specs.Device.{HasGivenUp, Seen, TakesAtMost};
ghost use Rattle.ea_blocks.specs.Outcome.{CountsAfter, fault_name, fault_number};
ghost use Rattle.ea_blocks.specs.Streams.{IsFilled};
ghost use Rattle.ea_blocks.specs.Taking.{AppendsRead, HasRoom, IsTakenBy, IsTakenOn, LosesRead};
ghost use Rattle.ea_blocks.specs.declared.blocks.ReadFault.TheVariants.{OutOfMemory};

use ea_base::MOST_INTERRUPTIONS;
use ea_bytes::{ByteIn, DeviceFault};
use std::alloc::{AllocError, Global};
use thiserror::Error;

/// Why a device was not read whole.
#[derive(Clone, Copy, Debug, PartialEq, Eq, Error)]
pub enum ReadFault {
    /// There are more bytes than the limit.
    #[error("there are more bytes than are allowed (10 TooLarge)")]
    TooLarge,
    /// A read failed, or was interrupted more than 1,000 times.
    #[error("the input could not be read (11 ReadFailed)")]
    ReadFailed,
    /// Memory for the bytes was refused.
    #[error("there is not enough memory (13 OutOfMemory)")]
    OutOfMemory,
}

impl ReadFault {
    /// The number of this fault in messages.
    pub fn number(self) -> u8
        ensures { result ≡ fault_number self }
    {
        match self {
            ReadFault::TooLarge => 10,
            ReadFault::ReadFailed => 11,
            ReadFault::OutOfMemory => 13,
        }
    }

    /// The name of this fault in messages.
    pub fn name(self) -> &'static str
        ensures { result.now ≡ fault_name self }
    {
        match self {
            ReadFault::TooLarge => "TooLarge",
            ReadFault::ReadFailed => "ReadFailed",
            ReadFault::OutOfMemory => "OutOfMemory",
        }
    }
}

impl From<AllocError> for ReadFault {
    ghost from_gives = { λ _ fault. fault ≡ OutOfMemory };

    fn from(_refused: AllocError) -> ReadFault {
        ReadFault::OutOfMemory
    }
}

/// The most bytes that one read asks for.
const PIECE: usize = 65_536;

/// A buffer of this length.
fn room(alloc: Global, len: usize) -> Result<Vec<u8>, AllocError>
    ensures { IfOk result (λ piece. vec_len piece ≡ len) }
{
    vec![in alloc; 0u8; len]
}

/// Up to this length a buffer grows to four times its length.
const MOST_AHEAD: usize = 67_108_864;

/// Makes room for `more` bytes. Grows to four times the length, so that the bytes are seldom moved. If that
/// is refused, or there are very many, the next growth asks for less.
fn make_room(bytes: &mut Vec<u8>, more: usize)
    ensures { bytes.new.items ≡ bytes.old.items }
{
    let len = bytes.len();
    if len <= MOST_AHEAD && bytes.capacity() - len < more {
        let _ = bytes.reserve((len * 3).max(more));
    }
}

/// The outcome of one read.
enum Piece {
    Some,
    End,
    Fault(DeviceFault),
}

/// Appends the bytes of one read.
fn read_piece<R: ByteIn>(
    reader: &mut R,
    piece: &mut [u8],
    bytes: &mut Vec<u8>,
) -> Result<Piece, AllocError>
    requires { 0 < length piece.old }
    ensures read { IfOk result (AppendsRead (R.seen reader.old) (R.seen reader.new)
        bytes.old.items bytes.new.items) }
    ensures most { length bytes.new.items ≤ length bytes.old.items + length piece.old }
    ensures refused { OnErr result (LosesRead (length piece.old)
        (R.seen reader.old) (R.seen reader.new) bytes.old.items bytes.new.items) }
{
    match reader.read(piece) {
        Ok(0) => Ok(Piece::End),
        Ok(count) => {
            make_room(bytes, count);
            bytes.extend_from_slice(&piece[..count])?;
            Ok(Piece::Some)
        }
        Err(fault) => Ok(Piece::Fault(fault)),
    }
}

/// A reader of a device in blocks, up to a limit: a buffer for one read, how many bytes may still be taken,
/// and how often the device was interrupted.
#[derive(Drop)]
pub struct Blocks {
    piece: Vec<u8>,
    left: u64,
    interruptions: u64,
}

impl Blocks {
    /// Blocks of a device that was not read yet, of at most `limit` bytes in all.
    pub fn new(alloc: Global, limit: u64) -> Result<Blocks, AllocError>
        ensures { IfOk result (λ blocks. HasRoom blocks
            × ((first : Seen) → IsTakenBy blocks limit first first [])) }
    {
        Ok(Blocks {
            piece: room(alloc, PIECE)?,
            left: limit,
            interruptions: 0,
        })
    }

    /// Appends the bytes of one read to a block. Returns whether the device ended.
    fn take<R: ByteIn>(&mut self, reader: &mut R, block: &mut Vec<u8>) -> Result<bool, ReadFault>
        requires { HasRoom self.old }
        ensures filled { IsFilled (length block.old.items) (R.seen reader.old) self.old
            (R.seen reader.new) self.new block.old.items block.new.items result }
        ensures on { IfOk result (λ ended. ended ≡ false → IsTakenOn self.old self.new
            (length block.old.items) (length block.new.items)) }
    {
        let before = block.len();
        let wanted = self.left.min(PIECE as u64 - 1) as usize + 1;
        let piece = &mut self.piece.as_mut_slice()[..wanted];
        let Ok(read) = read_piece(reader, piece, block) else {
            return Err(ReadFault::OutOfMemory);
        };
        let ended = match read {
            Piece::Some => {
                let count = (block.len() - before) as u64;
                if count > self.left {
                    return Err(ReadFault::TooLarge);
                }
                self.left -= count;
                false
            }
            Piece::End => true,
            Piece::Fault(DeviceFault::Interrupted) if self.interruptions < MOST_INTERRUPTIONS => {
                self.interruptions += 1;
                false
            }
            Piece::Fault(_) => return Err(ReadFault::ReadFailed),
        };
        Ok(ended)
    }

    /// Appends bytes of the device to a block until it has `size` or more, or the device ends. Returns
    /// whether it ended.
    ///
    /// Fails with `TooLarge` if the device had more bytes than the limit, after taking one more; with
    /// `ReadFailed` if a read failed, or was interrupted for the 1,001st time in all; with `OutOfMemory` if
    /// memory for the bytes was refused.
    pub fn fill<R: ByteIn>(
        &mut self,
        reader: &mut R,
        block: &mut Vec<u8>,
        size: usize,
    ) -> Result<bool, ReadFault>
        requires { HasRoom self.old }
        ensures { IsFilled size (R.seen reader.old) self.old (R.seen reader.new) self.new
            block.old.items block.new.items result }
    {
        while block.len() < size {
            match self.take(reader, block) {
                Ok(true) => return Ok(true),
                Ok(_) => {}
                Err(fault) => return Err(fault),
            }
        }
        Ok(false)
    }
}

/// All bytes of a device to its end.
///
/// Fails with `TooLarge` if there are more than `limit` bytes, after taking `limit + 1`; with `ReadFailed` if
/// a read failed or was interrupted for the 1,001st time; with `OutOfMemory` if memory for the bytes was
/// refused. Bytes taken before a fault are lost.
pub fn read_all<R: ByteIn>(alloc: Global, reader: &mut R, limit: u64) -> Result<Vec<u8>, ReadFault>
    // All bytes that the device had; none is left.
    ensures all { IfOk result
        (λ bytes. IfSome (R.seen reader.old).bytes (λ left. bytes.items ≡ left)) }
    ensures end { OnOk result (IsAtEnd (R.seen reader.new).bytes) }
    ensures within { IfOk result (λ bytes. length bytes.items ≤ limit) }

    ensures too_large { IsErrOf result ReadFault.TooLarge
        → IfSome (R.seen reader.old).bytes (λ left. limit < length left) }
    ensures read_failed { IsErrOf result ReadFault.ReadFailed →
        HasGivenUp (R.seen reader.old) (R.seen reader.new) }

    // What is left is the end of what there was, and at most one byte beyond the limit is taken.
    ensures left { TakesAtMost (limit + 1) (R.seen reader.old) (R.seen reader.new) }
    // A failure or the 1,001st interruption ends the call at once, and nothing else is ReadFailed.
    ensures counts { CountsAfter result (R.seen reader.old) (R.seen reader.new) }
{
    let mut blocks = Blocks::new(alloc, limit)?;
    let mut bytes = Vec::new(alloc);
    match blocks.fill(reader, &mut bytes, usize::MAX) {
        Ok(_) => Ok(bytes),
        Err(fault) => Err(fault),
    }
}
