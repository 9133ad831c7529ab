//! The command line: what its words ask for, and the values of options.
#![tactic(auto)]

mod arguments;
mod bad_value;
mod chosen;
mod commands;
mod defaults;
mod fault;
mod meaning;
mod options;
mod values;

pub use bad_value::{Allowed, BadValue, asks_to_explain, bad_value_of};
pub use defaults::{
    DEFAULT_BATCH, DEFAULT_COUNTED_WORKERS, DEFAULT_DEPARTURE, DEFAULT_GAP, DEFAULT_HEAPS,
    DEFAULT_SEED, DEFAULT_TURNS, defaults_are_these,
};
pub use fault::CommandFault;
pub use options::{Command, RunOptions};
