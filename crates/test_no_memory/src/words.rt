//! Words whose growths are refused.
use crate::counts::{Came, Trial, count_of};
use earliest::{Command, CommandFault, RunOptions};
use std::alloc::Global;
use std::test::Fail;
use test_support::memory::Held;

/// The words of a run, with a piece of memory left.
fn run_with(alloc: Global, held: &mut Held, piece: Vec<u8>) -> Came {
    let words = ["run", "g", "s", "--joint", "--gap", "5", "--workers", "03"];
    held.leave(piece);
    match RunOptions::of_words(alloc, words.as_slice()) {
        Ok(
            Command::Run {
                gr,
                ss,
                tp: None,
                times: None,
                nodes: None,
                output: None,
                options,
            },
        ) if gr == "g"
            && ss == "s"
            && options.joint
            && options.gap == 5
            && options.workers == Some(3) => Came::Whole,
        Err(CommandFault::OutOfMemory) => Came::Refused,
        _ => Came::Wrong,
    }
}

/// Words that lack a name, with a piece of memory left.
fn short_with(alloc: Global, held: &mut Held, piece: Vec<u8>) -> Came {
    let words = ["check", "g", "s"];
    held.leave(piece);
    match RunOptions::of_words(alloc, words.as_slice()) {
        Err(CommandFault::Words { help: false, text }) if text.as_str().contains("<REPORT>") => {
            Came::Whole
        }
        Err(CommandFault::OutOfMemory) => Came::Refused,
        _ => Came::Wrong,
    }
}

/// The words of a run, or words that lack a name.
#[derive(Clone, Copy)]
struct Words {
    short: bool,
}

impl Trial for Words {
    fn came(&mut self, alloc: Global, held: &mut Held, piece: Vec<u8>) -> Came {
        if self.short {
            short_with(alloc, held, piece)
        } else {
            run_with(alloc, held, piece)
        }
    }
}

#[test]
fn words_with_little_memory(rt: HostRuntime) -> Result<(), Fail> {
    for short in [false, true] {
        let count = count_of(rt.alloc(), &mut Words { short }, 0, 600, 64)?;
        assert!(rt; count.is_refused_at_least(20), "{count}");
    }
    Ok(())
}
