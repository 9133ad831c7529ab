//! A command, from its words to its exit status.
ghost use Rattle.ea_messages.specs.Named.{HasFiles};
ghost use Rattle.ea_options.specs.Limits.{HasLimits};

use crate::arguments::words_of;
use crate::descriptors::hold_descriptors;
use crate::files::{CommandFiles, files_of, open_all, open_output};
use crate::messages::{refuse, tell, tell_end, tell_unopened};
use crate::pages::{explain_fault, show_text};
use crate::progress_line::{Line, tells_progress};
use crate::stack::refuse_small;
use crate::stored_run::stored;
use ea_messages::{FORMATS, Outcome};
use ea_options::{Command, RunOptions, asks_to_explain};
use earliest::{Performed, perform};
use std::io::IsTerminal;
use std::thread::Threads;

/// Carries out the words of the command line. Returns the exit status. Faults are explained if the words ask for
/// it, or on a terminal.
pub fn run<H: Threads + Sync>(rt: &HostRuntime, threads: &H) -> u8 {
    let _held = hold_descriptors(rt);
    match refuse_small(rt) {
        Some(status) => status,
        None => run_words(rt, threads),
    }
}

/// The same with enough stack: its frame is only made then.
#[inline(never)]
fn run_words<H: Threads + Sync>(rt: &HostRuntime, threads: &H) -> u8 {
    let words = match words_of(rt) {
        Ok(words) => words,
        Err(fault) => return tell(rt, &Outcome::Command(fault)),
    };
    let explains = asks_to_explain(&words) || rt.stderr().is_terminal();
    match RunOptions::of_words(rt.alloc(), &words) {
        Ok(command) => carry_out(rt, threads, &command, explains),
        Err(fault) => refuse(rt, &words, fault, explains),
    }
}

/// Carries out a command. Returns the exit status.
fn carry_out<H: Threads + Sync>(
    rt: &HostRuntime,
    threads: &H,
    command: &Command<'_>,
    explains: bool,
) -> u8
    requires { HasLimits command.now }
{
    match files_of(command) {
        Some(names) => carry_out_with(rt, threads, command, names, explains),
        None => match command {
            Command::Explain { fault } => explain_fault(rt, *fault),
            Command::Formats => show_text(rt, FORMATS),
            _ => stored(rt, threads),
        },
    }
}

/// Carries out a command that names files. Returns the exit status.
fn carry_out_with<H: Threads + Sync>(
    rt: &HostRuntime,
    threads: &H,
    command: &Command<'_>,
    names: CommandFiles<'_>,
    explains: bool,
) -> u8
    requires limits { HasLimits command.now }
    requires files { HasFiles command.now names.report }
{
    let mut sources = match open_all(rt, &names) {
        Ok(sources) => sources,
        Err(unopened) => return tell_unopened(rt, &unopened, explains),
    };
    let mut output = match open_output(rt, &names) {
        Ok(output) => output,
        Err(unopened) => return tell_unopened(rt, &unopened, explains),
    };
    let is_asked = tells_progress(command);
    let mut line = Line::begin(rt, is_asked);
    let performed = {
        let mut files = sources.readers();
        perform(
            rt.alloc(),
            threads,
            command,
            &mut files,
            &mut output,
            &mut line,
        )
    };
    line.clear();
    let is_accepted = matches!(performed, Ok(Performed::Checked(Ok(()))));
    let status = tell_end(rt, performed, &mut sources, &mut output, explains);
    if is_accepted && status == 0 && (is_asked || explains) {
        line.tell_checked();
    }
    status
}
