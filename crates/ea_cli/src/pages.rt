//! Texts that are asked for.
use crate::harmless::shown_word;
use crate::output::Output;
use ea_bytes::StdOut;
use ea_messages::{FAULTS, Fault, Outcome, fault_named, say, show};
use ea_options::CommandFault;
use std::alloc::{AllocError, Global};

/// Writes a text to standard output, and returns the status. If it can't be written, a line says so, unless the reader has
/// gone.
pub fn show_text(rt: &HostRuntime, text: &str) -> u8 {
    let mut output = Output::standard(rt);
    match show(text, &mut output) {
        Ok(()) => 0,
        Err(_) if output.is_left() => 4,
        Err(fault) => say(&Outcome::Answer(fault), &mut StdOut::new(rt.stderr())),
    }
}

/// Writes a fault of the words, and returns the status.
fn refuse(rt: &HostRuntime, fault: CommandFault) -> u8 {
    say(&Outcome::Command(fault), &mut StdOut::new(rt.stderr()))
}

/// What a fault means; of none, the list of all.
pub fn explain_fault(rt: &HostRuntime, word: Option<&str>) -> u8 {
    let text = match word {
        None => list_of_faults(rt.alloc()),
        Some(word) => match fault_named(word) {
            Some(fault) => page_of(rt.alloc(), &fault),
            None => return refuse(rt, no_such_fault(rt, word)),
        },
    };
    match text {
        Ok(text) => show_text(rt, &text),
        Err(_) => refuse(rt, CommandFault::OutOfMemory),
    }
}

/// The page on a fault.
fn page_of(alloc: Global, fault: &Fault) -> Result<String, AllocError> {
    let (number, name) = (fault.number, fault.name);
    let (meaning, more) = (fault.meaning, fault.more);
    format!(in alloc; "{number} {name}: {meaning}.\n\n{more}")
}

/// A line on each fault.
fn list_of_faults(alloc: Global) -> Result<String, AllocError> {
    let mut text = String::new(alloc);
    for fault in &FAULTS {
        let (number, name, meaning) = (fault.number, fault.name, fault.meaning);
        text.push_str(&format!(in alloc; "{number:>7} {name:<17} {meaning}\n")?)?;
    }
    text.push_str("\n`earliest explain FAULT` says more of one, by its number or its name.\n")?;
    Ok(text)
}

/// The message if a fault isn't known.
fn no_such_fault(rt: &HostRuntime, word: &str) -> CommandFault {
    let Some(word) = shown_word(rt, word) else {
        return CommandFault::OutOfMemory;
    };
    let text = format!(in rt.alloc();
        "error: no fault has the number or name '{word}'\n\nFor a list of all, try 'earliest explain'.\n"
    );
    match text {
        Ok(text) => CommandFault::Words { help: false, text },
        Err(_) => CommandFault::OutOfMemory,
    }
}
