//! Readers of std as devices.
ghost use Rattle.std.specs.Prelude.{◌≡◌};

use crate::device::{ByteIn, Device, DeviceFault};
use crate::fault_counts::{Counts, fault_of, no_faults};
use std::io::Read;
use std::marker::Model;

/// A reader of std as a device. An error of kind `Interrupted` is `Interrupted`; every other one is `Failed`.
///
/// In contracts it is the reader and the two counts.
#[derive(Drop)]
pub struct StdIn<R: Read> {
    reader: R,
    counts: Counts,
}

impl<R: Read> Model for StdIn<R> {
    ghost use Rattle.ea_bytes.specs.Opened.{Opened};

    ghost Value = { Opened R };

    ghost view = { λ s. record {
      inner = s.reader;
      failures = s.counts.failures;
      interruptions = s.counts.interruptions;
    } };
}

impl<R: Read> StdIn<R> {
    /// A device over a reader, with no faults counted.
    pub fn new(reader: R) -> Self
        ensures { result ≡ record { inner = reader; failures = 0; interruptions = 0 } }
    {
        StdIn {
            reader,
            counts: no_faults(),
        }
    }
}

impl<R: Read> Device for StdIn<R> {
    ghost use Rattle.ea_bytes.specs.Device.{Seen};

    ghost seen = { λ s. record { bytes = R.remaining s.inner; failed = s.failures; interrupted = s.interruptions } };

    fn failures(&self) -> u64 {
        self.counts.failures
    }

    fn interruptions(&self) -> u64 {
        self.counts.interruptions
    }
}

impl<R: Read> ByteIn for StdIn<R> {
    fn read(&mut self, buf: &mut [u8]) -> Result<usize, DeviceFault> {
        match self.reader.read(buf) {
            Ok(count) => Ok(count),
            Err(error) => Err(self.counts.count(fault_of(&error))),
        }
    }
}
