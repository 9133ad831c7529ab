//! Tests with refused memory: they take all of the process's memory except a few bytes, before a run or
//! during it.

mod greedy;
mod solving;
