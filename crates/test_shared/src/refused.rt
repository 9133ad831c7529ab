//! Tests with refused memory: an allocator with little memory replaces the system's.

mod batches;
mod labels;
mod pool;
