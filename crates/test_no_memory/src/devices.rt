//! Devices of std that take all memory except a piece.
use std::io::{self, Read, Write};
use test_support::memory::Held;

/// A reader that takes memory when it returns its end.
#[derive(Drop)]
pub struct Taking<'a> {
    pub bytes: &'a [u8],
    pub held: &'a mut Held,
    /// What is left of the memory.
    pub piece: Option<Vec<u8>>,
}

impl Read for Taking<'_> {
    fn read(&mut self, buf: &mut [u8]) -> io::Result<usize> {
        let count = self.bytes.len().min(buf.len());
        if count == 0 {
            if let Some(piece) = self.piece.take() {
                self.held.leave(piece);
            }
        }
        buf[..count].copy_from_slice(&self.bytes[..count]);
        self.bytes = &self.bytes[count..];
        Ok(count)
    }
}

/// A writer into room that takes memory at its first call.
#[derive(Drop)]
pub struct Greedy<'a> {
    pub room: &'a mut [u8],
    pub held: &'a mut Held,
    /// What is left of the memory.
    pub piece: Option<Vec<u8>>,
}

impl Write for Greedy<'_> {
    fn write(&mut self, buf: &[u8]) -> io::Result<usize> {
        if let Some(piece) = self.piece.take() {
            self.held.leave(piece);
        }
        self.room.write(buf)
    }

    fn flush(&mut self) -> io::Result<()> {
        Ok(())
    }
}
