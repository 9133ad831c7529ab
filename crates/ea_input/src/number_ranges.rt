//! Numbers of fields, and their ranges.
ghost use Rattle.std.specs.Prelude.{◌≡◌, ◌≤◌, IfOk};
ghost use Rattle.ea_blocks.specs.Fault as spec;

use ea_blocks::FaultKind;
use ea_bytes as text;

/// The number that a field is.
#[tactic(auto, unfolding(ea_blocks::specs::Fault::numeral))]
pub(crate) fn numeral(field: &[u8]) -> Result<u128, FaultKind>
    ensures { result ≡ spec.numeral field.now }
{
    text::number(field).ok_or(FaultKind::BadNumber)
}

/// A number, if it is in its range.
#[tactic(auto, unfolding(ea_blocks::specs::Fault::within))]
pub(crate) fn within(low: u32, high: u32, n: u128) -> Result<u32, FaultKind>
    ensures { result ≡ spec.within low high n }
{
    if u128::from(low) <= n && n <= u128::from(high) {
        Ok(n as u32)
    } else {
        Err(FaultKind::OutOfRange)
    }
}

/// The same for ranges of 64 bits.
#[tactic(auto, unfolding(ea_blocks::specs::Fault::within))]
pub(crate) fn within_wide(low: u64, high: u64, n: u128) -> Result<u64, FaultKind>
    ensures is { result ≡ spec.within low high n }
    ensures range { IfOk result (λ n. (low ≤ n) × (n ≤ high)) }
{
    if u128::from(low) <= n && n <= u128::from(high) {
        Ok(n as u64)
    } else {
        Err(FaultKind::OutOfRange)
    }
}
