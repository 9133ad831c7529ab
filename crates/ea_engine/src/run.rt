//! A run of several workers: its arrays, the seeds, the seats, and the finish.

pub mod arrays;
pub mod closing;
pub mod crew;
pub mod drained;
pub mod gathering;
pub mod ground;
pub mod known_run;
pub mod problem;
pub mod ran;
pub mod row;
pub mod seats;
pub mod seeds;
pub mod solve_calls;
pub mod solved;
pub mod workers;
