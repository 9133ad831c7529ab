//! Travel times that depend on the departure: timetables, speeds, trips, points, and profiles of a caller.
#![tactic(auto)]

mod arrival_function;
mod last_done;
mod latest_departures;
mod latest_points;
mod latest_speeds;
mod latest_steps;
mod latest_trips;
pub mod laws;
mod least_times;
mod points;
mod profile;
mod profile_list;
mod profiles;
mod ranges;
mod road_times;
mod step_table;
mod steps;
mod timetable;
mod timetables;
mod travel_times;
mod turned;

pub use arrival_function::ArrivalFunction;
pub use ea_base::{Direction, HORIZON};
pub use profile::{Arrival, Profile};
pub use profile_list::ProfileList;
pub use profiles::Profiles;
pub use road_times::RoadTimes;
pub use step_table::StepTable;
pub use timetable::Timetable;
pub use timetables::Timetables;
pub use travel_times::TravelTimes;
pub use turned::Turned;
