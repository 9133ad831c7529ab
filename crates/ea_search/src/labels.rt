//! The labels of nodes during a search, and the nodes that it reached.

pub mod logged_table;
pub mod reached_nodes;
pub mod table;
