//! The search of several threads: workers on shared labels and heaps, and one thread that finishes.
//!
//! The answer is that of one thread, for every schedule.
#![tactic(auto)]

mod laws;
mod run;
mod settings;
mod worker;

pub use ea_paths::{
    Answer, arrivals_alone, arrivals_alone_by, solve_alone, solve_alone_by, unwind, without_walks,
};
pub use ea_search::{Finished, Open, finish, finish_in_order};
pub use laws::{finish_may_begin, ground_is_laid, nothing_open_is_lost, times_are_fifo};
pub use run::crew::Crew;
pub use run::ground::Ground;
pub use run::problem::Posed;
pub use run::solve_calls::{solve, solve_arrivals, solve_by};
pub use run::solved::Solved;
pub use settings::{Pace, Settings};
pub use worker::company::{Company, Member};
pub use worker::counters::Counters;
pub use worker::gate::{Gate, NoGate};
pub use worker::home_heaps::Homing;
pub use worker::means::Means;
pub use worker::turn::{Flow, Hand, Turn, TurnKind};
pub use worker::work_loop::{WorkerEnd, work};
