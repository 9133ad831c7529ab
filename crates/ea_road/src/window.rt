//! Windows of times: the low bits in which times may differ.
ghost use Rattle.ea_road.specs.Windows.{AreWindowBits};

/// The mask of the low bits in which the times of one window may differ. A window holds between half of
/// `width` and `width` times; if `width` is 0, one time.
pub fn window_bits(width: u64) -> u64
    ensures { AreWindowBits width result }
{
    match width.checked_ilog2() {
        Some(bits) => (1 << bits) - 1,
        None => 0,
    }
}
