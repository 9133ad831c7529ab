//! The stack that the system gives the program.
use std::fs::File;
use std::io::Read;

/// The least stack, in KiB. With much less, the system would end the program by a signal.
const LEAST: u64 = 256;

/// The status if there is less: that of refused memory.
const REFUSED: u8 = 3;

/// What a line of limits begins with that says how large the stack may grow.
const NAME: &str = "Max stack size";

/// How many bytes of limits are looked at: a line has 79, and that of the stack is the fifth.
const LOOKED_AT: usize = 1024;

/// How many KiB the stack may have by a text of limits, in which this limit is the first number of its line; none if the text doesn't say,
/// or if there is no limit.
fn limit_in(text: &[u8]) -> Option<u64> {
    let text = str::from_utf8(text).ok()?;
    for line in text.lines() {
        if let Some(limits) = line.strip_prefix(NAME) {
            let first = limits.split_ascii_whitespace().next()?;
            let bytes = first.parse::<u64>().ok()?;
            return Some(bytes / 1024);
        }
    }
    None
}

/// How many KiB the stack may have; none if the system doesn't say, or if there is no limit.
fn limit(rt: &HostRuntime) -> Option<u64> {
    let mut file = File::open(rt, "/proc/self/limits").ok()?;
    let mut text = [0u8; LOOKED_AT];
    let count = file.read(&mut text).ok()?;
    limit_in(text.get(..count)?)
}

/// Writes a line and returns the exit status if the stack is too small for the program.
#[inline(never)]
pub fn refuse_small(rt: &HostRuntime) -> Option<u8> {
    let limit = limit(rt)?;
    if limit >= LEAST {
        return None;
    }
    let _ = eprintln!(rt;
        "earliest: the stack may have {limit} KiB, and {LEAST} are needed: raise its limit by `ulimit -s {LEAST}`"
    );
    Some(REFUSED)
}
