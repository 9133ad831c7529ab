//! A text that is buffered before it is sent.
ghost use Rattle.std.specs.Prelude.{◌≤◌};
ghost use Rattle.ea_base.specs.declared.limits.TheConstants.{MOST_INTERRUPTIONS};

/// A text that is sent to a device in large pieces.
#[derive(Drop)]
pub(crate) struct Pending {
    /// The bytes that are still to be sent.
    pub text: Vec<u8>,
    /// The number of bytes sent, as far as it fits.
    pub written: u128,
    /// The number of interrupted calls; up to 1,000 are retried.
    pub interruptions: u64,
    pub ghost borne: { interruptions ≤ MOST_INTERRUPTIONS },
}
