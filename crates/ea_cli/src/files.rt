//! The files that a command names, opened in their order.
ghost use Rattle.std.specs.Prelude.{◌≡◌, IfOk, MatchOption, is_some};
ghost use Rattle.ea_messages.specs.Named.{HasFiles};

use crate::output::Output;
use crate::source::Source;
use ea_bytes::StdIn;
use ea_load::{FileWord, OptionalFiles};
use ea_messages::Opened;
use ea_options::Command;
use std::io::ErrorKind;

/// A file that can't be opened: its word and name, and the system's reason.
#[derive(Clone, Copy)]
pub struct Unopened<'a> {
    pub(crate) word: FileWord,
    pub(crate) name: &'a str,
    pub(crate) reason: ErrorKind,
}

/// The names of a command's files.
#[derive(Clone, Copy)]
pub struct CommandFiles<'a> {
    gr: &'a str,
    /// Which file names the sources or pairs.
    word: FileWord,
    starts: &'a str,
    tp: Option<&'a str>,
    times: Option<&'a str>,
    nodes: Option<&'a str>,
    /// The report that is to be checked.
    pub report: Option<&'a str>,
    /// The file that the report goes to.
    output: Option<&'a str>,
}

/// The names of a command's files; none if it names no files.
pub fn files_of<'a>(command: &Command<'a>) -> Option<CommandFiles<'a>>
    ensures { MatchOption result (Rattle.std.specs.Prelude.⊤)
        (λ names. HasFiles command.now names.report) }
{
    match *command {
        Command::Stored | Command::Explain { .. } | Command::Formats => None,
        Command::Run {
            gr,
            ss,
            tp,
            times,
            nodes,
            output,
            ..
        } => Some(CommandFiles {
            gr,
            word: FileWord::Ss,
            starts: ss,
            tp,
            times,
            nodes,
            report: None,
            output,
        }),
        Command::Rank {
            gr,
            ss,
            tp,
            output,
            ..
        } => Some(CommandFiles {
            gr,
            word: FileWord::Ss,
            starts: ss,
            tp,
            times: None,
            nodes: None,
            report: None,
            output,
        }),
        Command::Pairs {
            gr,
            p2p,
            tp,
            times,
            output,
            ..
        } => Some(CommandFiles {
            gr,
            word: FileWord::P2p,
            starts: p2p,
            tp,
            times,
            nodes: None,
            report: None,
            output,
        }),
        Command::Check {
            gr,
            ss,
            tp,
            times,
            report,
            ..
        } => Some(CommandFiles {
            gr,
            word: FileWord::Ss,
            starts: ss,
            tp,
            times,
            nodes: None,
            report: Some(report),
            output: None,
        }),
    }
}

/// The files of a command.
#[derive(Drop)]
pub struct Sources<'a> {
    gr: Source<'a>,
    word: FileWord,
    starts: Source<'a>,
    tp: Option<Source<'a>>,
    times: Option<Source<'a>>,
    nodes: Option<Source<'a>>,
    report: Option<Source<'a>>,
}

/// Opens a file. If that fails, the error has the file and the reason.
fn open<'a>(rt: &HostRuntime, word: FileWord, name: &'a str) -> Result<Source<'a>, Unopened<'a>> {
    match Source::open(rt, name) {
        Ok(source) => Ok(source),
        Err(reason) => Err(Unopened { word, name, reason }),
    }
}

/// Opens a file that may be left out.
fn open_if_named<'a>(
    rt: &HostRuntime,
    word: FileWord,
    name: Option<&'a str>,
) -> Result<Option<Source<'a>>, Unopened<'a>>
    ensures { IfOk result (λ file. is_some file ≡ is_some name.entry) }
{
    match name {
        None => Ok(None),
        Some(name) => match open(rt, word, name) {
            Ok(file) => Ok(Some(file)),
            Err(unopened) => Err(unopened),
        },
    }
}

/// Opens the files of a command, in their order.
pub fn open_all<'a>(rt: &HostRuntime, names: &CommandFiles<'a>) -> Result<Sources<'a>, Unopened<'a>>
    ensures { IfOk result (λ files. is_some files.report ≡ is_some names.now.report) }
{
    let gr = open(rt, FileWord::Gr, names.gr)?;
    let starts = open(rt, names.word, names.starts)?;
    let tp = open_if_named(rt, FileWord::Tp, names.tp)?;
    let times = open_if_named(rt, FileWord::Times, names.times)?;
    let nodes = open_if_named(rt, FileWord::Nodes, names.nodes)?;
    let report = open_if_named(rt, FileWord::Report, names.report)?;
    Ok(Sources {
        gr,
        word: names.word,
        starts,
        tp,
        times,
        nodes,
        report,
    })
}

/// Opens what the report goes to. If that fails, the error has the reason.
pub fn open_output<'a>(rt: &HostRuntime, names: &CommandFiles<'a>) -> Result<Output, Unopened<'a>> {
    match Output::open(rt, names.output) {
        Ok(output) => Ok(output),
        Err(reason) => Err(Unopened {
            word: FileWord::Out,
            name: names.output.unwrap_or("-"),
            reason,
        }),
    }
}

/// A reader of a file that may be left out.
fn reader<'a, 'b>(source: &'b mut Option<Source<'a>>) -> Option<StdIn<&'b mut Source<'a>>>
    ensures { is_some result ≡ is_some source.old }
{
    match source {
        None => None,
        Some(source) => Some(StdIn::new(source)),
    }
}

impl<'a> Sources<'a> {
    /// The readers of the files.
    pub fn readers(&mut self) -> Opened<StdIn<&mut Source<'a>>>
        ensures { is_some result.report ≡ is_some self.old.report }
    {
        Opened {
            gr: StdIn::new(&mut self.gr),
            starts: StdIn::new(&mut self.starts),
            others: OptionalFiles {
                tp: reader(&mut self.tp),
                times: reader(&mut self.times),
                nodes: reader(&mut self.nodes),
            },
            report: reader(&mut self.report),
        }
    }

    /// The file of a word, if the command has it.
    pub(crate) fn named(&mut self, word: FileWord) -> Option<&mut Source<'a>> {
        match word {
            FileWord::Gr => Some(&mut self.gr),
            FileWord::Tp => self.tp.as_mut(),
            FileWord::Times => self.times.as_mut(),
            FileWord::Nodes => self.nodes.as_mut(),
            FileWord::Report => self.report.as_mut(),
            FileWord::Out => None,
            FileWord::Ss | FileWord::P2p if word == self.word => Some(&mut self.starts),
            FileWord::Ss | FileWord::P2p => None,
        }
    }
}
