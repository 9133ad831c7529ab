//! One worker: its turns, its scans and pushes, and when it ends.

pub mod company;
pub mod counters;
pub mod gate;
pub mod home_heaps;
pub mod means;
pub mod prefetch;
pub mod push;
pub mod scan;
pub mod tally;
pub mod turn;
pub mod turn_steps;
pub mod visit;
pub mod work_loop;
