//! A device that keeps its bytes in memory.
ghost use Rattle.std.specs.Prelude.{◌≡◌, [], Some};
ghost use Rattle.ea_bytes.specs.Device.{Seen, one_more};

use ea_bytes::{ByteOut, Device, DeviceFault};

/// A device that keeps up to `most` bytes. A write beyond that fails, as does one for which memory is
/// refused; it takes nothing.
#[derive(Drop)]
pub(crate) struct Sheet {
    /// The bytes written so far.
    pub text: Vec<u8>,
    /// The most bytes that it takes.
    pub most: usize,
    /// The number of failed writes.
    pub failures: u64,
}

impl Sheet {
    /// An empty sheet for up to `most` bytes, which reuses the memory of another text. Takes no more memory
    /// yet.
    pub(crate) fn over(mut memory: Vec<u8>, most: usize) -> Sheet
        ensures text { result.text.items ≡ [] }
        ensures most { result.most ≡ most }
        ensures failures { result.failures ≡ 0 }
    {
        memory.clear();
        Sheet {
            text: memory,
            most,
            failures: 0,
        }
    }

    /// Counts a failed write.
    fn fail(&mut self) -> DeviceFault
        ensures fault { result ≡ DeviceFault.Failed }
        ensures counted { self.new ≡ record self.old { failures = one_more self.old.failures } }
    {
        self.failures = self.failures.saturating_add(1);
        DeviceFault::Failed
    }
}

impl Device for Sheet {
    ghost seen = { λ s. record { bytes = Some s.text.items; failed = s.failures; interrupted = 0 } };

    fn failures(&self) -> u64 {
        self.failures
    }

    fn interruptions(&self) -> u64 {
        0
    }
}

impl ByteOut for Sheet {
    fn write(&mut self, buf: &[u8]) -> Result<usize, DeviceFault> {
        if self.most.saturating_sub(self.text.len()) < buf.len() {
            return Err(self.fail());
        }
        match self.text.extend_from_slice(buf) {
            Ok(()) => Ok(buf.len()),
            Err(_) => Err(self.fail()),
        }
    }
}
