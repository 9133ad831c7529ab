//! The formats: graphs, sources, pairs and timetables, read exactly or refused exactly.
#![tactic(auto)]

mod graph;
mod graph_pieces;
mod kind_lines;
mod number_ranges;
mod pairs;
mod plain_lines;
mod problem_line;
mod sources;
mod step_lines;
mod table_pieces;
mod times;
mod timetable;

pub use ea_base::{RawArc, RawGraph, RawKind, RawTable};
pub use ea_blocks::{FaultKind, InputFault, ReadFault, StreamFault, Way, read_all};
pub use ea_bytes::{ByteIn, ByteOut, Device, DeviceFault, StdIn, StdOut, number};
pub use graph::{graph_law, read_gr, read_gr_by, read_gr_from};
pub use pairs::{pair_law, read_p2p, read_p2p_from};
pub use sources::{read_ss, read_ss_from, source_law};
pub use times::{read_times, read_times_from, time_law};
pub use timetable::{read_tp, read_tp_by, read_tp_from, table_law};
