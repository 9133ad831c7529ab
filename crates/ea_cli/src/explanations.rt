//! What is said after the line of a fault: what it means and what to do.
use crate::files::{Sources, Unopened};
use crate::harmless::shown_word;
use crate::source::{SHOWN, Source};
use ea_blocks::{InputFault, ReadFault};
use ea_bytes::without_return;
use ea_check::CheckFault;
use ea_load::{AnswerFault, FileWord};
use ea_messages::{Outcome, encoding_of, fault_named, reason_of, wanted_of_line};
use ea_options::{Allowed, BadValue, bad_value_of};
use std::io::ErrorKind;

/// Says something on standard error, indented.
fn remark(rt: &HostRuntime, text: &str) {
    let _ = eprintln!(rt; "  {text}");
}

/// Says something of a file.
fn remark_on(rt: &HostRuntime, name: &str, text: &str) {
    let name = if name == "-" { "standard input" } else { name };
    if let Some(name) = shown_word(rt, name) {
        let _ = eprintln!(rt; "  {name}: {text}");
    }
}

/// Why a file can't be opened.
pub(crate) fn explain_unopened(rt: &HostRuntime, unopened: &Unopened<'_>) {
    remark_on(rt, unopened.name, reason_of(unopened.reason));
}

/// Whether a word is this option, alone or with its value.
fn is_option(word: &[u8], option: &[u8]) -> bool {
    word.starts_with(option) && (word.len() == option.len() || word[option.len()] == b'=')
}

/// Whether words say in two ways when searches begin.
fn say_when_twice(words: &[String]) -> bool {
    let mut once = false;
    let mut twice = false;
    let mut is_listed = false;
    let mut has_gap = false;
    for word in words {
        let word = word.as_bytes();
        let lists = is_option(word, b"--departs") || is_option(word, b"--arrives");
        if lists || is_option(word, b"--depart") || is_option(word, b"--arrive") {
            twice = twice || once;
            once = true;
        }
        is_listed = is_listed || lists;
        has_gap = has_gap || is_option(word, b"--gap");
    }
    twice || is_listed && has_gap
}

/// Which values an option may have, for a bad one.
fn explain_value(rt: &HostRuntime, bad: BadValue<'_>) {
    let Some(shown) = shown_word(rt, bad.value) else {
        return;
    };
    let option = bad.option;
    match bad.allowed {
        Allowed::Number { least, most } => {
            let _ = eprintln!(rt;
                "  --{option} {shown}: it has to be a whole number from {least} to {most}"
            );
            if bad.value.contains(':') {
                remark(
                    rt,
                    "times are counted in the units of the weights: 8:00 is 28800 where these are seconds",
                );
            }
        }
        Allowed::YesOrNo => {
            let _ = eprintln!(rt; "  --{option} {shown}: it has to be yes or no");
        }
    }
}

/// Which option's value is bad, and its limits; or which options don't go together.
pub(crate) fn explain_words(rt: &HostRuntime, words: &[String]) {
    match bad_value_of(rt.alloc(), words) {
        None if say_when_twice(words) => remark(
            rt,
            "one of --depart, --departs, --arrive and --arrives can be given, and --gap with neither file",
        ),
        None => remark(rt, "- is standard input, which one file alone can be"),
        Some(bad) => explain_value(rt, bad),
    }
}

/// A line as it is shown: at most 120 columns, with ? in place of what is no printable ASCII.
fn shown(rt: &HostRuntime, line: &[u8]) -> Option<String> {
    let mut text = String::new(rt.alloc());
    for byte in without_return(line).iter().take(SHOWN) {
        let shown = match byte {
            b'\t' => ' ',
            b' '..=b'~' => char::from(*byte),
            _ => '?',
        };
        text.push(shown).ok()?;
    }
    Some(text)
}

/// Shows a line of a file, and returns it if it can be read again.
fn show_line(rt: &HostRuntime, source: &mut Source<'_>, number: u64) -> Option<Vec<u8>> {
    let name = shown_word(rt, source.name)?;
    let line = source.line(rt.alloc(), number)?;
    let text = shown(rt, &line)?;
    let _ = eprintln!(rt; "  {name}, line {number}: {text}");
    Some(line)
}

/// What is wrong with a file's text.
fn explain_text(rt: &HostRuntime, file: FileWord, fault: InputFault, source: &mut Source<'_>) {
    if let Some(encoding) = encoding_of(source.front()) {
        remark_on(rt, source.name, encoding.advice());
        return;
    }
    let line = show_line(rt, source, fault.line);
    let line = match &line {
        Some(line) => without_return(line),
        None => &[],
    };
    remark(rt, wanted_of_line(file, fault.kind, line));
}

/// Why a file can't be read.
fn explain_read(rt: &HostRuntime, fault: ReadFault, source: &Source<'_>) {
    match (fault, source.refusal) {
        (ReadFault::TooLarge, _) => remark_on(rt, source.name, "it has more than 8589934592 bytes"),
        (_, Some(reason)) => remark_on(rt, source.name, reason_of(reason)),
        (_, None) => remark_on(rt, source.name, "it was interrupted too often"),
    }
}

/// Why a report is refused.
fn explain_check(rt: &HostRuntime, fault: CheckFault, sources: &mut Sources<'_>) {
    if let Some(line) = fault.line() {
        if let Some(report) = sources.named(FileWord::Report) {
            let _ = show_line(rt, report, line);
        }
    }
    if let Some(found) = fault_named(fault.name()) {
        remark(rt, found.meaning);
    }
}

/// Why the output can't be written.
pub(crate) fn explain_write(rt: &HostRuntime, reason: Option<ErrorKind>) {
    match reason {
        Some(reason) => remark_on(rt, "the output", reason_of(reason)),
        None => remark_on(rt, "the output", "it takes nothing more"),
    }
}

/// What the fault of a command means that has files.
pub(crate) fn explain_outcome(
    rt: &HostRuntime,
    outcome: &Outcome,
    sources: &mut Sources<'_>,
    reason: Option<ErrorKind>,
) {
    match outcome {
        Outcome::Answer(AnswerFault::Read { file, fault }) => {
            if let Some(source) = sources.named(*file) {
                explain_read(rt, *fault, source);
            }
        }
        Outcome::Answer(AnswerFault::Input { file, fault }) => {
            if let Some(source) = sources.named(*file) {
                explain_text(rt, *file, *fault, source);
            }
        }
        Outcome::Answer(AnswerFault::BadOption) => remark(
            rt,
            "a time, --depart or --arrive and so many times --gap, is above 281474976710655: make these less",
        ),
        Outcome::Answer(AnswerFault::Write { .. }) => explain_write(rt, reason),
        Outcome::Answer(AnswerFault::OutOfMemory { .. }) => remark(
            rt,
            "memory was refused: look at `ulimit -a`, or take fewer workers by --workers",
        ),
        Outcome::Check(fault) => explain_check(rt, *fault, sources),
        Outcome::Command(_) | Outcome::Unopened(_) | Outcome::Accepted => {}
    }
}
