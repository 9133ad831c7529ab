//! A text that is sent without a buffer.
ghost use Rattle.std.specs.Prelude.{◌≤◌};
ghost use Rattle.ea_base.specs.declared.limits.TheConstants.{MOST_INTERRUPTIONS};

/// A text that is sent to a device piece by piece, with one count of interruptions for all of it. Both counts
/// begin at 0.
#[derive(Drop)]
pub struct Direct {
    /// The number of bytes sent, as far as it fits.
    pub written: u128,
    /// The number of interrupted calls; up to 1,000 are retried.
    pub interruptions: u64,
    pub ghost borne: { interruptions ≤ MOST_INTERRUPTIONS },
}
