//! Writers of std as devices.
ghost use Rattle.std.specs.Prelude.{◌≡◌};

use crate::device::{ByteOut, Device, DeviceFault};
use crate::fault_counts::{Counts, fault_of, no_faults};
use std::io::Write;
use std::marker::Model;

/// A writer of std as a device. An error of kind `Interrupted` is `Interrupted`; every other one is `Failed`,
/// and so is a write that takes nothing of a slice that isn't empty.
///
/// In contracts it is the writer and the two counts.
#[derive(Drop)]
pub struct StdOut<W: Write> {
    writer: W,
    counts: Counts,
}

impl<W: Write> Model for StdOut<W> {
    ghost use Rattle.ea_bytes.specs.Opened.{Opened};

    ghost Value = { Opened W };

    ghost view = { λ s. record {
      inner = s.writer;
      failures = s.counts.failures;
      interruptions = s.counts.interruptions;
    } };
}

impl<W: Write> StdOut<W> {
    /// A device over a writer, with no faults counted.
    pub fn new(writer: W) -> Self
        ensures { result ≡ record { inner = writer; failures = 0; interruptions = 0 } }
    {
        StdOut {
            writer,
            counts: no_faults(),
        }
    }
}

impl<W: Write> Device for StdOut<W> {
    ghost use Rattle.ea_bytes.specs.Device.{Seen};

    ghost seen = { λ s. record { bytes = W.contents s.inner; failed = s.failures; interrupted = s.interruptions } };

    fn failures(&self) -> u64 {
        self.counts.failures
    }

    fn interruptions(&self) -> u64 {
        self.counts.interruptions
    }
}

impl<W: Write> ByteOut for StdOut<W> {
    fn write(&mut self, buf: &[u8]) -> Result<usize, DeviceFault> {
        match self.writer.write(buf) {
            Ok(count) if count > 0 || buf.is_empty() => Ok(count),
            Ok(_) => Err(self.counts.count(DeviceFault::Failed)),
            Err(error) => Err(self.counts.count(fault_of(&error))),
        }
    }
}
