//! The network: arcs by their tails, queries, walks, and the laws of earliest arrivals and latest departures.
#![tactic(auto)]

mod arc;
mod arc_list;
mod arcs_of_graph;
mod known;
pub mod latest_laws;
pub mod laws;
mod leaving_arc;
mod network;
mod numbered_arcs;
mod problem;
mod query;
mod source;
mod tail_index;
mod target;
mod turned_arcs;
mod walk;
mod window;

pub use arc::Arc;
pub use arc_list::ArcList;
pub use arcs_of_graph::arcs_of;
pub use ea_base::{HORIZON, RawArc, RawGraph, RawKind, RawTable};
pub use ea_travel_times::{
    Arrival, ArrivalFunction, Profile, ProfileList, Profiles, StepTable, Timetable, Timetables,
    TravelTimes, Turned,
};
pub use known::{AnyPair, Known};
pub use leaving_arc::LeavingArc;
pub use network::{Leaving, Network};
pub use numbered_arcs::NumberedArcs;
pub use problem::is_problem;
pub use query::Query;
pub use source::Source;
pub use std::alloc::AllocError as OutOfMemory;
pub use target::{Target, turned_targets};
pub use walk::run_walk;
pub use window::window_bits;

/// No label.
pub const NONE: u64 = u64::MAX;
