//! What tests are given: small networks, generators whose words are known, a process without memory.
//!
//! No program needs it.
#![tactic(auto)]

pub mod constant;
pub mod in_turn;
pub mod memory;
pub mod networks;
pub mod numbered;
pub mod tally;
