//! Devices: they give or take bytes, and count their faults.
ghost use Rattle.std.specs.Prelude.{◌≡◌, ◌<◌, IfOk, length};
ghost use Rattle.std.specs.Io.{ReadsAtMost, WritesAtMost};
ghost use Rattle.std.specs.Io.KnownBytes.{ReadConsumes, WriteAppends};
ghost use Rattle.ea_bytes.specs.Device.{Seen, failures_after, interruptions_after};

/// Why a read or a write did nothing: it was interrupted and may be retried, or it failed.
#[derive(Clone, Copy, Debug, PartialEq, Eq)]
pub enum DeviceFault {
    Interrupted,
    Failed,
}

/// A reader or writer that counts its faults of either kind; a count stops at `u64::MAX`.
///
/// A call that returns a fault raises that fault's count by one; nothing else raises a count.
pub trait Device {
    /// In contracts: the bytes left of a reader, or taken by a writer, if its type says, and the two counts.
    ghost seen: { Self → Seen };

    /// The number of calls that failed.
    fn failures(&self) -> u64
        ensures { result ≡ (seen self.now).failed };

    /// The number of calls that were interrupted.
    fn interruptions(&self) -> u64
        ensures { result ≡ (seen self.now).interrupted };
}

/// A device that gives bytes.
pub trait ByteIn: Device {
    /// Writes bytes to the start of `buf`, and returns their number; 0 only at the end, or if `buf` is empty.
    fn read(&mut self, buf: &mut [u8]) -> Result<usize, DeviceFault>
        ensures bound { ReadsAtMost result buf.new }
        ensures bytes { ReadConsumes (Self.seen self.old).bytes
            (Self.seen self.new).bytes result buf.new }
        ensures failed { (Self.seen self.new).failed
            ≡ failures_after result (Self.seen self.old).failed }
        ensures interrupted { (Self.seen self.new).interrupted
            ≡ interruptions_after result (Self.seen self.old).interrupted };
}

/// A device that takes bytes.
pub trait ByteOut: Device {
    /// Takes bytes from the start of `buf`, at least one if it has any, and returns their number.
    fn write(&mut self, buf: &[u8]) -> Result<usize, DeviceFault>
        ensures bound { WritesAtMost result buf.now }
        ensures some { IfOk result (λ n. 0 < length buf.now → 0 < n) }
        ensures bytes { WriteAppends (Self.seen self.old).bytes
            (Self.seen self.new).bytes result buf.now }
        ensures failed { (Self.seen self.new).failed
            ≡ failures_after result (Self.seen self.old).failed }
        ensures interrupted { (Self.seen self.new).interrupted
            ≡ interruptions_after result (Self.seen self.old).interrupted };
}
