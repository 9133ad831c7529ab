//! The lines of nodes' times. They are built from the last to the first, so that many of them are copied at once.
ghost use Rattle.std.specs.Prelude.{◌≡◌, ◌≤◌, ◌<◌, ◌+◌, ◌∷◌, ◌++◌, None, OnOk, decimal, drop, length};
ghost use Rattle.ea_report.specs.Report.{shown_time, spaced, time_line};
ghost use Rattle.ea_report.specs.Times.{MayPutTimes, times_text};
ghost use Rattle.ea_report.specs.declared.time_lines.TheConstants.{LINE};

use ea_base::{Direction, HORIZON};
use ea_paths::Answer;
use itoa::write_digits;
use std::alloc::AllocError;

/// At least the length in bytes of a time's line.
pub(crate) const LINE: usize = 64;

/// Puts a byte before a place of a text. Returns its place.
fn put_byte(text: &mut [u8], end: usize, byte: u8) -> usize
    requires { (0 < end) × (end ≤ length text.old) }
    ensures start { result + 1 ≡ end }
    ensures written { drop result text.new ≡ byte ∷ drop end text.old }
{
    text[end - 1] = byte;
    end - 1
}

/// Puts a space and a number before a place of a text. Returns the place of the space.
fn put_number(text: &mut [u8], end: usize, number: u64) -> usize
    requires { (21 ≤ end) × (end ≤ length text.old) }
    ensures start { result + length (spaced (decimal number)) ≡ end }
    ensures low { end ≤ result + 21 }
    ensures written { drop result text.new ≡ spaced (decimal number) ++ drop end text.old }
{
    let start = write_digits(number, text, end) - 1;
    text[start] = b' ';
    start
}

/// Puts what a report shows if there is no time before a place of a text, with a space. Returns the place of the space.
fn put_none(text: &mut [u8], end: usize, direction: Direction) -> usize
    requires { (21 ≤ end) × (end ≤ length text.old) }
    ensures low { end ≤ result + 21 }
    ensures below { result ≤ end }
    ensures written { drop result text.new ≡ spaced (shown_time direction None) ++ drop end text.old }
{
    match direction {
        Direction::Forward => {
            let end = put_byte(text, end, b'f');
            let end = put_byte(text, end, b'n');
            let end = put_byte(text, end, b'i');
            put_byte(text, end, b' ')
        }
        Direction::Turned => {
            let end = put_byte(text, end, b'e');
            let end = put_byte(text, end, b'n');
            let end = put_byte(text, end, b'o');
            let end = put_byte(text, end, b'n');
            put_byte(text, end, b' ')
        }
    }
}

/// Puts what a report shows of a time before a place of a text, with a space. Returns the place of the space.
#[inline(always)]
fn put_shown(text: &mut [u8], end: usize, time: Option<u64>, direction: Direction) -> usize
    requires { (21 ≤ end) × (end ≤ length text.old) }
    ensures low { end ≤ result + 21 }
    ensures below { result ≤ end }
    ensures written { drop result text.new ≡ spaced (shown_time direction time) ++ drop end text.old }
{
    match time {
        Some(time) => match direction {
            Direction::Forward => put_number(text, end, time),
            Direction::Turned => put_number(text, end, HORIZON.saturating_sub(time)),
        },
        None => put_none(text, end, direction),
    }
}

/// Puts the line of a node's time before a place of a text. Returns the place of its first byte.
#[inline(always)]
pub(crate) fn put_time(
    text: &mut [u8],
    end: usize,
    node: u32,
    time: Option<u64>,
    direction: Direction,
) -> usize
    requires { (LINE ≤ end) × (end ≤ length text.old) }
    ensures low { end ≤ result + LINE }
    ensures below { result ≤ end }
    ensures written { drop result text.new ≡ time_line direction node time ++ drop end text.old }
{
    let end = put_byte(text, end, b'\n');
    let end = put_shown(text, end, time, direction);
    let end = put_number(text, end, u64::from(node));
    put_byte(text, end, b'd')
}

/// The times of some nodes in a row.
#[derive(Clone, Copy)]
pub(crate) struct TimeSpan {
    /// The node before the first of them.
    pub after: u32,
    pub count: u32,
    pub direction: Direction,
}

/// Puts the lines of the times of some nodes at the end of a text. Returns the place of the first byte.
fn put_times(text: &mut [u8], answer: &Answer, span: TimeSpan) -> usize
    requires { MayPutTimes (length text.old) answer.now span }
    ensures below { result ≤ length text.new }
    ensures written { drop result text.new ≡ times_text answer.now span }
{
    let TimeSpan {
        after,
        count,
        direction,
    } = span;
    let mut at = text.len();
    for done in 0..count {
        let node = after + (count - done);
        at = put_time(text, at, node, answer.arrival(node), direction);
    }
    at
}

/// Appends the lines of the times of some nodes, which are built in a buffer.
pub(crate) fn push_times(
    text: &mut Vec<u8>,
    buffer: &mut [u8],
    answer: &Answer,
    span: TimeSpan,
) -> Result<(), AllocError>
    requires { MayPutTimes (length buffer.old) answer.now span }
    ensures { OnOk result (text.new.items ≡ text.old.items ++ times_text answer.now span) }
{
    let start = put_times(buffer, answer, span);
    text.extend_from_slice(&buffer[start..])
}
