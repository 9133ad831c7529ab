//! Fast paths for numbers: at the front of a line, and as a whole line.
ghost use Rattle.std.specs.Prelude.{◌≡◌, ◌<◌, ◌∷◌, [], IfSome, Some, length};
ghost use Rattle.ea_bytes.specs.Text.{fields_of, number_of};
ghost use Rattle.ea_check.specs.Reads.{BeginsWithNumber};

use ea_bytes::is_blank;

/// From this value on one more digit may not fit into 64 bits.
const LARGE: u64 = 1 << 58;

/// The number that a line begins with, and the bytes after its blank, if the line begins with a digit and the
/// number is not very large.
pub(crate) fn leading_number(text: &[u8]) -> Option<(u64, &[u8])>
    ensures first { IfSome result (λ x. BeginsWithNumber text.entry.now x.0 x.1.now) }
    ensures shorter { IfSome result (λ x. length x.1.now < length text.entry.now) }
{
    let mut value: u64 = 0;
    for (i, b) in text.iter().enumerate() {
        if !b.is_ascii_digit() {
            if i == 0 || !is_blank(*b) {
                return None;
            }
            return Some((value, &text[i + 1..]));
        }
        if value >= LARGE {
            return None;
        }
        value = value * 10 + u64::from(*b - b'0');
    }
    None
}

/// The number that a line is, if it has digits alone and is not very large.
pub(crate) fn only_number(text: &[u8]) -> Option<u64>
    ensures { IfSome result (λ n. (fields_of text.now ≡ text.now ∷ [])
        × (number_of text.now ≡ Some n)) }
{
    if text.len() == 0 {
        return None;
    }
    let mut value: u64 = 0;
    for b in text {
        if !b.is_ascii_digit() || value >= LARGE {
            return None;
        }
        value = value * 10 + u64::from(*b - b'0');
    }
    Some(value)
}
