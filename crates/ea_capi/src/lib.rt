//! The calls for C: a library for programs that are not Rattle.
#![tactic(auto)]

mod checks;
mod fault_numbers;
mod handle;
mod road;
mod session;
