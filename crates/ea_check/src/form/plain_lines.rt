//! The `d` lines of nodes in their plain form, one after another: a word, single spaces, digits, a line feed
//! and nothing else.
ghost use Rattle.std.specs.Prelude.{◌≡◌, ◌∷◌, ◌++◌, IfSome};
ghost use Rattle.ea_check.specs.Form.{none_word};
ghost use Rattle.ea_check.specs.Pieces.{AreIn};
ghost use Rattle.ea_check.specs.Runs.{NumberThen, TakesTime, TimeThen};

use crate::form::line_form::told;
use ea_base::{Direction, HORIZON, MOST_NODES};
use ea_road::NONE;

/// From this value on one more digit may not fit into 64 bits.
const LARGE: u64 = 1 << 58;

/// The number that a text begins with, if this byte ends it and it is not very large, and the bytes after
/// that byte.
#[inline(always)]
fn number_before(text: &[u8], stop: u8) -> Option<(u64, &[u8])>
    ensures { IfSome result (λ x. NumberThen text.entry.now stop x.0 x.1.now) }
{
    let mut value: u64 = 0;
    for (i, b) in text.iter().enumerate() {
        if !b.is_ascii_digit() {
            if i == 0 || *b != stop {
                return None;
            }
            return Some((value, &text[i + 1..]));
        }
        if value >= LARGE {
            return None;
        }
        value = value * 10 + u64::from(*b - b'0');
    }
    None
}

/// The bytes after the word of a node's line and a space, if a text begins with these.
#[inline(always)]
fn after_word(text: &[u8]) -> Option<&[u8]>
    ensures { IfSome result (λ rest. text.entry.now ≡ 100 ∷ 32 ∷ rest.now) }
{
    match text {
        [b'd', b' ', rest @ ..] => Some(rest),
        _ => None,
    }
}

/// The bytes after the word in place of a time and a line feed, if a text begins with these.
#[inline(always)]
fn after_none(way: Direction, text: &[u8]) -> Option<&[u8]>
    ensures { IfSome result (λ rest. text.entry.now ≡ none_word way ++ 10 ∷ rest.now) }
{
    match way {
        Direction::Forward => match text {
            [b'i', b'n', b'f', b'\n', rest @ ..] => Some(rest),
            _ => None,
        },
        Direction::Turned => match text {
            [b'n', b'o', b'n', b'e', b'\n', rest @ ..] => Some(rest),
            _ => None,
        },
    }
}

/// The time at the front of a text, or NONE for the word in its place, and the bytes after the line feed that
/// ends it.
#[inline(always)]
fn time_before(way: Direction, text: &[u8]) -> Option<(u64, &[u8])>
    ensures { IfSome result (λ x. TimeThen way text.entry.now x.0 x.1.now) }
{
    if let Some(rest) = after_none(way, text) {
        return Some((NONE, rest));
    }
    match number_before(text, b'\n') {
        Some((time, rest)) if time <= HORIZON => Some((told(way, time), rest)),
        _ => None,
    }
}

/// The time in a node's line at the front of a text, if the line is plain, and how many bytes the line has.
#[inline(always)]
pub(crate) fn first_time(way: Direction, text: &[u8], node: u64) -> Option<(u64, usize)>
    ensures { IfSome result (λ x. TakesTime way node x.0 text.now x.1) }
{
    let Some(numbers) = after_word(text) else {
        return None;
    };
    let Some((place, rest)) = number_before(numbers, b' ') else {
        return None;
    };
    if place != node {
        return None;
    }
    match time_before(way, rest) {
        Some((time, rest)) => Some((time, text.len() - rest.len())),
        None => None,
    }
}

/// The node that the line at the front of a text names, if the line begins like a plain one.
pub(crate) fn leading_node(text: &[u8]) -> Option<u32> {
    let (node, _) = number_before(after_word(text)?, b' ')?;
    if node <= u64::from(MOST_NODES) {
        Some(node as u32)
    } else {
        None
    }
}

/// Replaces `times` by those in the plain lines at the front of a text, from that of the node `first` on and
/// up to that of the node `last`, without the last of these lines. Returns how many bytes they have; none if
/// the text doesn't begin with such a line.
pub(crate) fn take_times(
    way: Direction,
    text: &[u8],
    first: u32,
    last: u32,
    times: &mut Vec<u64>,
) -> Option<usize>
    ensures { IfSome result (λ bytes. AreIn way text.now last times.new.items
        (record { first = first; bytes = bytes })) }
{
    times.clear();
    if first > last {
        return None;
    }
    let Some((mut time, mut size)) = first_time(way, text, u64::from(first)) else {
        return None;
    };
    let mut bytes = 0;
    'lines: while times.len() < (last - first) as usize {
        let node = u64::from(first) + times.len() as u64 + 1;
        let Some((next, len)) = first_time(way, &text[bytes + size..], node) else {
            break;
        };
        let Ok(()) = times.push(time) else {
            break;
        };
        bytes += size;
        time = next;
        size = len;
    }
    Some(bytes)
}
