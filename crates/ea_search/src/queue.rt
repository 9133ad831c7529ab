//! Open nodes, first in, first out.

pub mod open;
pub mod open_list;
pub mod waiting;
