//! Faults of std's readers and writers, counted.
ghost use Rattle.std.specs.Prelude.{◌≡◌};
ghost use Rattle.std.specs.IoError.{error_kind};
ghost use Rattle.ea_bytes.specs.Device.{failures_by, interruptions_by};
ghost use Rattle.ea_bytes.specs.Errors.{fault_by};

use crate::device::DeviceFault;
use std::io::{Error, ErrorKind};

/// The faults of a device so far.
#[derive(Clone, Copy)]
pub struct Counts {
    pub failures: u64,
    pub interruptions: u64,
}

/// No faults yet.
pub fn no_faults() -> Counts
    ensures { (result.failures ≡ 0) × (result.interruptions ≡ 0) }
{
    Counts {
        failures: 0,
        interruptions: 0,
    }
}

impl Counts {
    /// Counts a fault, and returns it.
    pub fn count(&mut self, fault: DeviceFault) -> DeviceFault
        ensures fault { result ≡ fault }
        ensures failed { self.new.failures ≡ failures_by fault self.old.failures }
        ensures interrupted { self.new.interruptions
            ≡ interruptions_by fault self.old.interruptions }
    {
        match fault {
            DeviceFault::Failed => self.failures = self.failures.saturating_add(1),
            DeviceFault::Interrupted => {
                self.interruptions = self.interruptions.saturating_add(1);
            }
        }
        fault
    }
}

/// The fault for an error of std.
pub fn fault_of(error: &Error) -> DeviceFault
    ensures { result ≡ fault_by (error_kind error.now) }
{
    match error.kind() {
        ErrorKind::Interrupted => DeviceFault::Interrupted,
        _ => DeviceFault::Failed,
    }
}
