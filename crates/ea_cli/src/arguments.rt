//! The words of the command line.
use ea_options::CommandFault;
use std::env;
use std::io::{self, ErrorKind};

/// The message about a word that is no text.
const NO_TEXT: &str =
    "error: invalid UTF-8 was detected in one or more arguments\n\nFor more information, try '--help'.\n";

/// The words of the command line, without the program's name; or why they can't be read: one of them is no text, or memory was
/// refused.
pub fn words_of(rt: &HostRuntime) -> Result<Vec<String>, CommandFault> {
    let args = match env::args(rt) {
        Ok(args) => args,
        Err(error) => return Err(fault_of(rt, &error)),
    };
    let mut words = Vec::new(rt.alloc());
    for word in args.skip(1) {
        if words.push(word).is_err() {
            return Err(CommandFault::OutOfMemory);
        }
    }
    Ok(words)
}

/// Why the words can't be read: one of them is no text, or memory was refused.
fn fault_of(rt: &HostRuntime, error: &io::Error) -> CommandFault {
    if error.kind() != ErrorKind::InvalidData {
        return CommandFault::OutOfMemory;
    }
    match String::from_str(rt.alloc(), NO_TEXT) {
        Ok(text) => CommandFault::Words { help: false, text },
        Err(_) => CommandFault::OutOfMemory,
    }
}
