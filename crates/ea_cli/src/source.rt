//! What is read: a file, or standard input.
use std::fs::File;
use std::io::{self, ErrorKind, Read, Seek, SeekFrom, Stdin};

/// How many of a file's first bytes are kept.
const FRONT: usize = 512;

/// How many bytes of a line are shown.
pub(crate) const SHOWN: usize = 120;

/// What the bytes come from.
#[derive(Drop)]
enum Origin {
    File(File),
    Input(Stdin),
}

/// A file that is read, and what its fault may be explained by.
#[derive(Drop)]
pub struct Source<'a> {
    /// What it was opened by.
    pub(crate) name: &'a str,
    origin: Origin,
    /// The first bytes that it gave.
    front: [u8; FRONT],
    kept: usize,
    /// Why the last read failed.
    pub(crate) refusal: Option<ErrorKind>,
}

impl<'a> Source<'a> {
    /// Opens the file of a name; `-` is standard input.
    pub(crate) fn open(rt: &HostRuntime, name: &'a str) -> Result<Source<'a>, ErrorKind> {
        let origin = if name == "-" {
            Origin::Input(rt.stdin())
        } else {
            match File::open(rt, name) {
                Ok(file) => Origin::File(file),
                Err(error) => return Err(error.kind()),
            }
        };
        Ok(Source {
            name,
            origin,
            front: [0; FRONT],
            kept: 0,
            refusal: None,
        })
    }

    /// The first bytes that it gave.
    pub(crate) fn front(&self) -> &[u8] {
        match self.front.get(..self.kept) {
            Some(front) => front,
            None => &[],
        }
    }

    /// Keeps bytes that it gave, if there is room.
    fn keep(&mut self, bytes: &[u8]) {
        for byte in bytes {
            match self.front.get_mut(self.kept) {
                Some(place) => *place = *byte,
                None => return,
            }
            self.kept = self.kept.saturating_add(1);
        }
    }

    /// The front of a line, counted from 1, read again; none if it can't be read again.
    pub(crate) fn line(&mut self, alloc: std::alloc::Global, line: u64) -> Option<Vec<u8>> {
        let Origin::File(file) = &mut self.origin else {
            return None;
        };
        if line == 0 || file.seek(SeekFrom::Start(0)).is_err() {
            return None;
        }
        let mut shown = Vec::with_capacity(alloc, SHOWN + 1).ok()?;
        let mut room = Vec::from_elem(alloc, 0u8, 65_536).ok()?;
        let mut left = line - 1;
        for _ in 0..u64::MAX {
            let count = file.read(room.as_mut_slice()).ok()?;
            if count == 0 || !pass(room.get(..count)?, &mut left, &mut shown) {
                break;
            }
        }
        Some(shown)
    }
}

/// Reads further through bytes: past this many line ends, then up to a line's end or a little more than is shown. Returns whether
/// more is to come.
fn pass(bytes: &[u8], left: &mut u64, shown: &mut Vec<u8>) -> bool {
    for byte in bytes {
        if *left > 0 {
            if *byte == b'\n' {
                *left -= 1;
            }
        } else if *byte == b'\n' || shown.len() > SHOWN || shown.push(*byte).is_err() {
            return false;
        }
    }
    true
}

impl Read for Source<'_> {
    fn read(&mut self, buf: &mut [u8]) -> io::Result<usize> {
        let read = match &mut self.origin {
            Origin::File(file) => file.read(buf),
            Origin::Input(input) => input.read(buf),
        };
        match read {
            Ok(count) => {
                if let Some(bytes) = buf.get(..count) {
                    self.keep(bytes);
                }
                Ok(count)
            }
            Err(error) => {
                self.refusal = Some(error.kind());
                Err(error)
            }
        }
    }
}
