//! Searches of C: made, queried, and their answers.

pub mod arrivals;
pub mod asking;
pub mod begin;
pub mod departures;
pub mod latest;
pub mod queries;
pub mod sessions;
pub mod until;
pub mod walks;
