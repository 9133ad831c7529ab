//! A device's text, read block by block and line by line by one or several threads, up to its first fault.
#![tactic(auto)]

mod blocks;
mod fault;
mod feed;
mod line_reader;
mod pieces;
mod reading_plan;
mod stream;

pub use blocks::{Blocks, ReadFault, read_all};
pub use fault::{FaultKind, InputFault};
pub use line_reader::{LineReader, read_text};
pub use pieces::BlockReader;
pub use reading_plan::{Way, way_of};
pub use stream::{StreamFault, read_device};
