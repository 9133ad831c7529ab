//! A command, from its words to its exit status: its files, its call, its output, its messages.
#![tactic(auto)]

mod arguments;
mod command_runs;
mod descriptors;
mod explanations;
mod files;
mod harmless;
mod messages;
mod output;
mod pages;
mod progress_line;
mod source;
mod stack;
mod stored_run;
mod target;

pub use command_runs::run;
