//! A prepared road: an order of the nodes, upward arcs, and bounds of the travel time to a target.
#![tactic(auto)]

mod bit_rows;
mod bounds;
mod cells;
mod chains;
mod cover;
mod customize;
mod joined;
mod landmarks;
pub mod laws;
mod neighbours;
mod numbers;
mod order;
mod postorder;
mod prepared;
mod queues;
mod ranks;
mod trimmed;
mod unprepared;
mod upward;
mod waiting;

pub use bounds::Bounds;
pub use ea_road::OutOfMemory;
pub use numbers::{MOST, NONE};
pub use postorder::elimination_order;
pub use prepared::{FIRST_NEAR, Prepared};
pub use ranks::is_order;
pub use unprepared::Unprepared;
