//! The program: `main`.
#![tactic(auto)]

use ea_cli::run;
use std::process::ExitCode;

fn main(rt: HostRuntime) -> ExitCode {
    ExitCode::from(run(&rt, &rt))
}
