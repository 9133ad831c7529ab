//! Numbers in fields.
ghost use Rattle.std.specs.Prelude.{◌≡◌, ◌<◌, ◌^◌, length, min};
ghost use Rattle.std.specs.Option.{option_map};
ghost use Rattle.ea_bytes.specs.Text.{number_of};

/// The number in a field of digits of any length, capped at 2^64.
fn long_number(field: &[u8]) -> Option<u128>
    requires { 0 < length field.now }
    ensures { result ≡ option_map (λ n. min n (2 ^ 64)) (number_of field.now) }
{
    let mut value: u128 = 0;
    for b in field {
        if !b.is_ascii_digit() {
            return None;
        }
        value = (value * 10 + u128::from(*b - b'0')).min(1 << 64);
    }
    Some(value)
}

/// The number in a field, capped at 2^64; none if it has a byte other than a digit.
pub fn number(field: &[u8]) -> Option<u128>
    ensures { result ≡ option_map (λ n. min n (2 ^ 64)) (number_of field.now) }
{
    if field.is_empty() {
        return None;
    }
    let mut value: u64 = 0;
    for b in field {
        if !b.is_ascii_digit() {
            return None;
        }
        if value >= 1 << 58 {
            return long_number(field);
        }
        value = value * 10 + u64::from(*b - b'0');
    }
    Some(u128::from(value))
}
