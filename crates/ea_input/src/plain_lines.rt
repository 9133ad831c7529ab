//! Lines of arcs, of assignments and of steps in their plain form: single blanks between the fields and
//! nothing else.
ghost use Rattle.std.specs.Prelude.{◌≡◌, IfSome, codes, false};
ghost use Rattle.std.specs.Char.{is_ascii_digit};
ghost use Rattle.ea_input.specs.Ahead.{ArcThen, AreLeading, NumberThen, PairThen, TwoThen};

use core::dec2flt::read_digits;

/// How many digits are read at once.
const AT_ONCE: usize = 8;

/// A number of fewer digits than this is less than 2^64.
const MOST_DIGITS: usize = 19;

/// As `leading_digits`, for more than eight digits.
#[cold]
fn many_digits(text: &[u8]) -> (usize, u64)
    ensures { AreLeading text.now result.0 result.1 }
{
    read_digits(text, 0, 0)
}

/// How many digits a text begins with, and their value, wrapped to 64 bits. Eight bytes are looked at at once: what is read of a
/// text of eight has no loop.
#[inline(always)]
fn leading_digits(text: &[u8]) -> (usize, u64)
    ensures { AreLeading text.now result.0 result.1 }
{
    if text.len() < AT_ONCE {
        return many_digits(text);
    }
    let (end, value) = read_digits(&text[..AT_ONCE], 0, 0);
    if end < AT_ONCE {
        (end, value)
    } else {
        many_digits(text)
    }
}

/// The number at the front of a text, if it ends in `stop` and has less than 19 digits, and the
/// bytes after that.
#[inline(always)]
fn leading_number(text: &[u8], stop: u8) -> Option<(u64, &[u8])>
    requires { is_ascii_digit stop ≡ false }
    ensures { IfSome result (λ x. NumberThen text.now stop x.0 x.1.now) }
{
    let (end, value) = leading_digits(text);
    if end == 0 || end >= MOST_DIGITS || end == text.len() {
        return None;
    }
    if text[end] == stop {
        Some((value, &text[end + 1..]))
    } else {
        None
    }
}

/// The numbers of an arc's line.
#[derive(Clone, Copy)]
pub(crate) struct ArcNumbers {
    pub tail: u64,
    pub head: u64,
    pub weight: u64,
}

/// The numbers of the line `a U V W` at the front of a text, if it is written with single
/// blanks and nothing else, and the bytes after it.
pub(crate) fn leading_arc(text: &[u8]) -> Option<(ArcNumbers, &[u8])>
    ensures { IfSome result (λ x. ArcThen text.now x.0.tail x.0.head x.0.weight x.1.now) }
{
    let Some(rest) = text.strip_prefix(b"a ".as_slice()) else {
        return None;
    };
    let Some((tail, rest)) = leading_number(rest, b' ') else {
        return None;
    };
    let Some((head, rest)) = leading_number(rest, b' ') else {
        return None;
    };
    let Some((weight, rest)) = leading_number(rest, b'\n') else {
        return None;
    };
    Some((ArcNumbers { tail, head, weight }, rest))
}

/// The two numbers at the front of a text, the first of which ends in a blank and the second in a line feed, and the bytes after
/// it.
fn leading_two(text: &[u8]) -> Option<((u64, u64), &[u8])>
    ensures { IfSome result (λ x. TwoThen text.now x.0.0 x.0.1 x.1.now) }
{
    let Some((first, rest)) = leading_number(text, b' ') else {
        return None;
    };
    let Some((second, rest)) = leading_number(rest, b'\n') else {
        return None;
    };
    Some(((first, second), rest))
}

/// The numbers of the line `t E J` at the front of a text, if it is written with single blanks
/// and nothing else, and the bytes after it.
pub(crate) fn leading_entry(text: &[u8]) -> Option<((u64, u64), &[u8])>
    ensures { IfSome result (λ x. PairThen (codes "t") text.now x.0.0 x.0.1 x.1.now) }
{
    let Some(rest) = text.strip_prefix(b"t ".as_slice()) else {
        return None;
    };
    leading_two(rest)
}

/// The same of the line `v T X`.
pub(crate) fn leading_step(text: &[u8]) -> Option<((u64, u64), &[u8])>
    ensures { IfSome result (λ x. PairThen (codes "v") text.now x.0.0 x.0.1 x.1.now) }
{
    let Some(rest) = text.strip_prefix(b"v ".as_slice()) else {
        return None;
    };
    leading_two(rest)
}
