//! Networks and options for the tests.
ghost use Rattle.ea_options.specs.Limits.{AreOptions};

use earliest::{Direction, RunOptions};
use itoa::Buffer;
use std::alloc::{AllocError, Global};

/// The network of the example four-nodes.
pub const FOUR_NODES: &[u8] = b"p sp 4 5\na 1 2 7\na 1 3 2\na 3 2 3\na 2 4 1\na 3 4 9\n";

pub const FROM_ONE: &[u8] = b"p aux sp ss 1\ns 1\n";

/// With walks, by this many workers with two heaps each.
pub fn walks_by(many: bool) -> RunOptions
    ensures { AreOptions result }
{
    RunOptions {
        joint: false,
        walks: true,
        stats: false,
        progress: false,
        workers: Some(if many { 2 } else { 1 }),
        at_once: None,
        batch: None,
        prepare: None,
        heaps: 2,
        turns: 100,
        seed: 1,
        depart: 0,
        gap: 0,
        direction: Direction::Forward,
    }
}

/// The number of nodes of the network without arcs.
pub const MANY: u32 = 2_000;

pub const NO_ARCS: &[u8] = b"p sp 2000 0\n";

/// The report of the network without arcs, from node 1.
pub fn unreached(alloc: Global) -> Result<Vec<u8>, AllocError> {
    let mut text = Vec::new(alloc);
    text.extend_from_slice(b"s 1 0\nd 1 0\n")?;
    for node in 2..MANY + 1 {
        let mut number = Buffer::new();
        text.extend_from_slice(b"d ")?;
        text.extend_from_slice(number.format(node).as_bytes())?;
        text.extend_from_slice(b" inf\n")?;
    }
    Ok(text)
}

/// Whether the room has exactly this text.
pub fn holds(room: &[u8], text: &[u8]) -> bool {
    room.starts_with(text) && room[text.len()..].iter().all(|byte| *byte == 0)
}
