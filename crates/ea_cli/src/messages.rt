//! The line about a command's outcome, and its exit status.
ghost use Rattle.std.specs.Prelude.{◌≡◌};
ghost use Rattle.ea_cli.specs.Outcomes.{outcome_by};

use crate::explanations::{explain_outcome, explain_unopened, explain_words, explain_write};
use crate::files::{Sources, Unopened};
use crate::harmless::{shown_lines, shown_word};
use crate::output::Output;
use crate::pages::show_text;
use ea_bytes::StdOut;
use ea_load::AnswerFault;
use ea_messages::{Outcome, say};
use ea_options::CommandFault;
use earliest::Performed;

/// The status if the output can't be written and no reader is left for the line that says so.
const LEFT: u8 = 4;

/// Writes an outcome, and returns the status: what was asked for goes to standard output, the rest to standard error.
pub fn tell(rt: &HostRuntime, outcome: &Outcome) -> u8 {
    match outcome.asked_text() {
        Some(text) => show_text(rt, text),
        None => {
            let mut errors = StdOut::new(rt.stderr());
            match shown_fault(rt, outcome) {
                Some(shown) => say(&shown, &mut errors),
                None => say(outcome, &mut errors),
            }
        }
    }
}

/// Refused words as a terminal may be shown them; none if they are shown as they are.
fn shown_fault(rt: &HostRuntime, outcome: &Outcome) -> Option<Outcome> {
    match outcome {
        Outcome::Command(CommandFault::Words { help: false, text }) => {
            let text = shown_lines(rt, text)?;
            Some(Outcome::Command(CommandFault::Words { help: false, text }))
        }
        _ => None,
    }
}

/// Writes why words ask for nothing, and returns the status. A bad value is explained if faults are.
pub fn refuse(rt: &HostRuntime, words: &[String], fault: CommandFault, explains: bool) -> u8 {
    let explains = explains && matches!(fault, CommandFault::BadOption);
    let status = tell(rt, &Outcome::Command(fault));
    if explains {
        explain_words(rt, words);
    }
    status
}

/// Writes that a file can't be opened, and returns the status.
pub fn tell_unopened(rt: &HostRuntime, unopened: &Unopened<'_>, explains: bool) -> u8 {
    let status = tell(rt, &Outcome::Unopened(unopened.word));
    if explains {
        explain_unopened(rt, unopened);
    }
    status
}

/// The outcome to report; none if the report or the rank errors were written whole.
fn outcome_of(performed: Result<Performed, AnswerFault>) -> Option<Outcome>
    ensures { result ≡ outcome_by performed }
{
    match performed {
        Ok(Performed::Reported(_) | Performed::Ranked) => None,
        Ok(Performed::Checked(Ok(()))) => Some(Outcome::Accepted),
        Ok(Performed::Checked(Err(fault))) => Some(Outcome::Check(fault)),
        Err(fault) => Some(Outcome::Answer(fault)),
    }
}

/// Writes the outcome of a command that had files, and returns the status. If there is nothing to write, a whole report is put in
/// its place.
pub fn tell_end(
    rt: &HostRuntime,
    performed: Result<Performed, AnswerFault>,
    sources: &mut Sources<'_>,
    output: &mut Output,
    explains: bool,
) -> u8 {
    let Some(outcome) = outcome_of(performed) else {
        return tell_put(rt, output, explains);
    };
    let reason = output.refusal;
    let is_left = output.is_left();
    output.leave(rt);
    if is_left && matches!(outcome, Outcome::Answer(AnswerFault::Write { .. })) {
        return LEFT;
    }
    let status = tell(rt, &outcome);
    if explains {
        explain_outcome(rt, &outcome, sources, reason);
    }
    status
}

/// Puts a whole report in its place, or writes why that can't be done.
fn tell_put(rt: &HostRuntime, output: &mut Output, explains: bool) -> u8 {
    let written = output.written;
    match output.put_in_place(rt) {
        Ok(()) => 0,
        Err(reason) => {
            if let Some(kept) = output.part().and_then(|part| shown_word(rt, part)) {
                let _ = eprintln!(rt; "earliest: the whole report is in {kept}");
            }
            let status = tell(rt, &Outcome::Answer(AnswerFault::Write { written }));
            if explains {
                explain_write(rt, Some(reason));
            }
            status
        }
    }
}
