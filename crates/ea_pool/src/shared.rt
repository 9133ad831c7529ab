//! Heaps that threads share: seats, steps on words, pushes and pops.

pub mod account;
pub mod attempts;
pub mod batch_calls;
pub mod calls;
pub mod closed_pool;
pub mod opening;
pub mod pool;
pub mod reply;
pub mod rules;
pub mod seat;
pub mod steps;
pub mod words;
