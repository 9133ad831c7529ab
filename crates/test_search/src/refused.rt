//! Tests with refused memory: they first take all of the process's memory except a few bytes.

mod finishing;
pub(crate) mod given;
mod road;
mod travel_times;
