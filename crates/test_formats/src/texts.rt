use crate::asserts::{assert_none_wrong, ends_in, is_shown};
use ea_blocks::{ReadFault, read_all};
use ea_bytes::*;
use std::alloc::Global;
use std::io::{self, Error, ErrorKind, Read, Write};

/// A reader of std that gives a text in pieces, is interrupted at first, and fails at a read.
#[derive(Drop)]
struct Faulty<'a> {
    text: &'a [u8],
    piece: usize,
    interruptions: u64,
    reads: u64,
    fails_at: u64,
}

impl Read for Faulty<'_> {
    fn read(&mut self, buf: &mut [u8]) -> io::Result<usize> {
        if self.interruptions > 0 {
            self.interruptions -= 1;
            return Err(Error::from(ErrorKind::Interrupted));
        }
        self.reads = self.reads.saturating_add(1);
        if self.reads == self.fails_at {
            return Err(Error::from(ErrorKind::Other));
        }
        let count = self.piece.min(self.text.len()).min(buf.len());
        let (front, rest) = self.text.split_at(count);
        buf[..count].copy_from_slice(front);
        self.text = rest;
        Ok(count)
    }
}

fn reader_of(text: &[u8], piece: usize, interruptions: u64, fails_at: u64) -> StdIn<Faulty<'_>> {
    StdIn::new(Faulty {
        text,
        piece,
        interruptions,
        reads: 0,
        fails_at,
    })
}

/// Whether a device gives this, read to its end or to one byte beyond the limit.
fn gives<R: ByteIn>(
    alloc: Global,
    reader: &mut R,
    limit: u64,
    wanted: Result<&[u8], ReadFault>,
) -> bool {
    match read_all(alloc, reader, limit) {
        Ok(bytes) => match wanted {
            Ok(text) => bytes.as_slice() == text,
            Err(_) => false,
        },
        Err(fault) => match wanted {
            Ok(_) => false,
            Err(other) => fault == other,
        },
    }
}

/// Whether a text gives this with a limit of four bytes.
fn gives_in_four(alloc: Global, text: &[u8], wanted: Result<&[u8], ReadFault>) -> bool {
    gives(alloc, &mut StdIn::new(text), 4, wanted)
}

#[test]
fn read_limit(rt: HostRuntime) {
    assert!(rt; gives_in_four(rt.alloc(), b"abcd", Ok(b"abcd")));
    assert!(rt; gives_in_four(rt.alloc(), b"abcde", Err(ReadFault::TooLarge)));
}

/// Whether eight bytes are too many for a limit of four, and three of them are left.
fn leaves_three(alloc: Global) -> bool {
    let mut eight = StdIn::new(b"abcdefgh".as_slice());
    gives(alloc, &mut eight, 4, Err(ReadFault::TooLarge)) && gives(alloc, &mut eight, 4, Ok(b"fgh"))
}

#[test]
fn one_byte_beyond_the_limit_is_taken(rt: HostRuntime) {
    assert!(rt; leaves_three(rt.alloc()));
}

/// Whether four bytes are read, or memory for them is refused.
fn gives_or_is_refused(alloc: Global) -> bool {
    match read_all(alloc, &mut StdIn::new(b"abcd".as_slice()), 4) {
        Ok(bytes) => bytes.as_slice() == b"abcd".as_slice(),
        Err(fault) => fault == ReadFault::OutOfMemory,
    }
}

#[test]
fn memory_refused(rt: HostRuntime) {
    assert!(rt; gives_or_is_refused(rt.alloc()));
}

/// Whether a device that fails at this read fails once and is never interrupted.
fn fails_once(alloc: Global, fails_at: u64) -> bool {
    let mut reader = reader_of(b"abcdefghij", 2, 0, fails_at);
    gives(alloc, &mut reader, 100, Err(ReadFault::ReadFailed))
        && reader.failures() == 1
        && reader.interruptions() == 0
}

/// The first read at which a device fails in another way.
fn wrong_failure(alloc: Global) -> Option<u64> {
    for fails_at in 1..7 {
        if !fails_once(alloc, fails_at) {
            return Some(fails_at);
        }
    }
    None
}

/// Whether a device that would fail at the read after its last gives its text.
fn never_fails(alloc: Global) -> bool {
    let mut whole = reader_of(b"abcdefghij", 2, 0, 7);
    gives(alloc, &mut whole, 100, Ok(b"abcdefghij")) && whole.failures() == 0
}

#[test]
fn failing_devices(rt: HostRuntime) {
    assert!(rt; wrong_failure(rt.alloc()) == None);
    assert!(rt; never_fails(rt.alloc()));
}

/// Whether a device that is interrupted this often, and never fails, gives this.
fn gives_after(alloc: Global, interruptions: u64, wanted: Result<&[u8], ReadFault>) -> bool {
    let mut reader = reader_of(b"abc", 1, interruptions, 0);
    gives(alloc, &mut reader, 100, wanted)
        && reader.interruptions() == interruptions
        && reader.failures() == 0
}

#[test]
fn interruptions(rt: HostRuntime) {
    assert!(rt; gives_after(rt.alloc(), 1000, Ok(b"abc")));
    assert!(rt; gives_after(rt.alloc(), 1001, Err(ReadFault::ReadFailed)));
}

/// A reader and a writer of std that returns an error of one kind.
#[derive(Drop)]
struct Refusing {
    kind: ErrorKind,
}

impl Read for Refusing {
    fn read(&mut self, _buf: &mut [u8]) -> io::Result<usize> {
        Err(Error::from(self.kind))
    }
}

impl Write for Refusing {
    fn write(&mut self, _buf: &[u8]) -> io::Result<usize> {
        Err(Error::from(self.kind))
    }

    fn flush(&mut self) -> io::Result<()> {
        Ok(())
    }
}

/// An error of the system, its fault, and the counts of failures and interruptions after it.
type Counted = (ErrorKind, DeviceFault, u64, u64);

const COUNTED: [Counted; 5] = [
    (ErrorKind::Interrupted, DeviceFault::Interrupted, 0, 1),
    (ErrorKind::WouldBlock, DeviceFault::Failed, 1, 0),
    (ErrorKind::TimedOut, DeviceFault::Failed, 1, 0),
    (ErrorKind::UnexpectedEof, DeviceFault::Failed, 1, 0),
    (ErrorKind::BrokenPipe, DeviceFault::Failed, 1, 0),
];

/// The result of a read from a device with this error: the fault, the failures and the interruptions.
fn read_of(kind: ErrorKind) -> (Option<DeviceFault>, u64, u64) {
    let mut reader = StdIn::new(Refusing { kind });
    let mut room = [0u8; 2];
    let read = reader.read(room.as_mut_slice());
    (read.err(), reader.failures(), reader.interruptions())
}

/// The result of a write to a device with this error.
fn write_of(kind: ErrorKind) -> (Option<DeviceFault>, u64, u64) {
    let mut writer = StdOut::new(Refusing { kind });
    let written = writer.write(b"ab");
    (written.err(), writer.failures(), writer.interruptions())
}

/// The index of the first error that is counted wrongly.
fn wrong_count() -> Option<usize> {
    for (place, (kind, fault, failures, interruptions)) in COUNTED.iter().enumerate() {
        let wanted = (Some(*fault), *failures, *interruptions);
        if read_of(*kind) != wanted || write_of(*kind) != wanted {
            return Some(place);
        }
    }
    None
}

#[test]
fn only_an_interruption_is_one(rt: HostRuntime) {
    assert_none_wrong(&rt, wrong_count());
}

/// Whether a write returns this, with this many failures and no interruptions counted.
fn writes(
    out: &mut StdOut<&mut [u8]>,
    text: &[u8],
    wanted: Result<usize, DeviceFault>,
    failures: u64,
) -> bool {
    out.write(text) == wanted && out.failures() == failures && out.interruptions() == 0
}

/// Whether a writer with room for three bytes takes three, then nothing of nothing, and then fails.
fn takes_three() -> bool {
    let mut room = [0u8; 3];
    let mut out = StdOut::new(room.as_mut_slice());
    writes(&mut out, b"abcd", Ok(3), 0)
        && writes(&mut out, b"", Ok(0), 0)
        && writes(&mut out, b"d", Err(DeviceFault::Failed), 1)
}

#[test]
fn a_write_of_nothing_is_a_failure(rt: HostRuntime) {
    assert!(rt; takes_three());
}

const NUMBERS: [(&[u8], Option<u128>); 7] = [
    (b"0", Some(0)),
    (b"007", Some(7)),
    (b"18446744073709551616", Some(1 << 64)),
    (
        b"99999999999999999999999999999999999999999999",
        Some(1 << 64),
    ),
    (b"", None),
    (b"-3", None),
    (b"3 ", None),
];

/// The index of the first field that is another number, or is one and should be none.
fn wrong_number() -> Option<usize> {
    for (place, (field, value)) in NUMBERS.iter().enumerate() {
        if number(field) != *value {
            return Some(place);
        }
    }
    None
}

#[test]
fn numbers(rt: HostRuntime) {
    assert_none_wrong(&rt, wrong_number());
}

/// Whether a line without its carriage return has these fields.
fn has_fields(alloc: Global, line: &[u8], wanted: &[&[u8]]) -> bool {
    fields(alloc, without_return(line)).as_slice() == wanted
}

#[test]
fn lines_and_fields(rt: HostRuntime) {
    let (line, rest) = first_line(b"\ta  b\r\nc");
    assert!(rt; line == b"\ta  b\r".as_slice() && rest == b"c".as_slice());
    assert!(rt; has_fields(rt.alloc(), line, &[b"a", b"b"]));
    assert!(rt; is_comment(b"cx") && !is_comment(b"xc"));
}

const TEXTS: [(ReadFault, &str); 3] = [
    (
        ReadFault::TooLarge,
        "there are more bytes than are allowed (10 TooLarge)",
    ),
    (
        ReadFault::ReadFailed,
        "the input could not be read (11 ReadFailed)",
    ),
    (
        ReadFault::OutOfMemory,
        "there is not enough memory (13 OutOfMemory)",
    ),
];

/// The index of the first fault that has another text.
fn wrong_text(alloc: Global) -> Option<usize> {
    for (place, (fault, text)) in TEXTS.iter().enumerate() {
        let (number, name) = (fault.number(), fault.name());
        if !is_shown(alloc, fault, text) || !ends_in(alloc, number, name, text) {
            return Some(place);
        }
    }
    None
}

#[test]
fn messages(rt: HostRuntime) {
    assert_none_wrong(&rt, wrong_text(rt.alloc()));
}
