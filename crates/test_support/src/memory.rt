//! A process without memory: the tests take all that the global allocator gives, except for as many bytes as
//! they choose.
use std::alloc::{AllocError, Global};

/// More than any machine gives in one block.
const MOST: usize = 1 << 46;

/// The C library keeps blocks of less than this for a thread.
const SMALL: usize = 1088;

/// The least block: what the C library gives for a request of one byte.
const LEAST: usize = 16;

/// Taken from the start of a piece. Otherwise the C library would give the piece only for requests of its
/// size.
const FRONT: usize = 4 * SMALL;

/// Memory that is held so that no one else gets it.
#[derive(Drop)]
pub struct Held {
    alloc: Global,
    blocks: Vec<Vec<u8>>,
}

impl Held {
    /// Holds nothing yet, with room for this many blocks.
    pub fn new(alloc: Global, room: usize) -> Result<Held, AllocError> {
        Ok(Held {
            alloc,
            blocks: Vec::with_capacity(alloc, room)?,
        })
    }

    /// Holds all large blocks. Left are `left` pieces of 120,000 bytes and some below 65,536.
    pub fn of_large(alloc: Global, left: u32) -> Result<Held, AllocError> {
        let mut held = Held::new(alloc, 200_000)?;
        let mut pieces = Vec::new(alloc);
        for _ in 0..left {
            pieces.push(Vec::<u8>::with_capacity(alloc, 120_000)?)?;
        }
        held.take_above(65_536);
        drop(pieces);
        Ok(held)
    }

    /// Takes a block of this many bytes, if there is one.
    fn take(&mut self, size: usize) -> bool {
        if self.blocks.len() == self.blocks.capacity() {
            return false;
        }
        match Vec::with_capacity(self.alloc, size) {
            Ok(block) => self.blocks.push(block).is_ok(),
            Err(_) => false,
        }
    }

    /// Takes all blocks of a size and above.
    pub fn take_above(&mut self, least: usize) {
        let mut size = MOST;
        for _ in 0..1_000_000 {
            if size < least {
                break;
            }
            if !self.take(size) {
                size /= 2;
            }
        }
    }

    /// Takes all memory.
    pub fn take_all(&mut self) {
        self.take_above(SMALL);
        let mut size = SMALL;
        for _ in 0..1_000_000 {
            if size < LEAST {
                break;
            }
            if !self.take(size) {
                size -= 16;
            }
        }
    }

    /// Takes all memory, then frees one piece except for its start; the rest of the piece is left.
    pub fn leave(&mut self, piece: Vec<u8>) {
        self.take_all();
        drop(piece);
        self.take(FRONT);
    }

    /// Takes all memory, then frees pieces that were allocated one after another; what is left is one piece
    /// as large as all of them, except for its start.
    pub fn leave_together(&mut self, pieces: Vec<Vec<u8>>) {
        self.take_all();
        drop(pieces);
        self.take(FRONT);
    }

    /// Frees what is held.
    pub fn release(&mut self) {
        self.blocks.clear();
    }
}

/// Pieces for `leave`: the first leaves this many bytes, and each other this many more than the one before.
pub fn pieces(
    alloc: Global,
    first: u32,
    count: u32,
    step: u32,
) -> Result<Vec<Vec<u8>>, AllocError> {
    let mut pieces = Vec::with_capacity(alloc, count as usize)?;
    for place in 0..count {
        let more = u64::from(first) + u64::from(place) * u64::from(step % 4096);
        let size = FRONT + (more % 1_048_576) as usize;
        pieces.push(Vec::with_capacity(alloc, size)?)?;
    }
    Ok(pieces)
}
