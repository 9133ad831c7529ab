//! Reading the words of a command line.
ghost use Rattle.std.specs.Prelude.{◌≡◌, IfOk, IsOkAnd, IfErr, IfSome, true, map, codes, option_map, is_some, Some, false, [], ◌∷◌, ◌≤◌};
ghost use Rattle.clap.specs.Built.{IsParsedFrom};
ghost use Rattle.clap.specs.Words.{App, app_of, fault_of, found_of, kind_of, matches_of, rows_of, is_simple, is_simple_and_free, IsAmong};
ghost use Rattle.ea_options.specs.Building.{Builds};
ghost use Rattle.ea_options.specs.Meaning.{Verb, run_verb, pairs_verb, rank_verb, check_verb, of_files, of_explain, of_formats, of_none};
ghost use Rattle.ea_options.specs.Limits.{AreOptions, HasLimits};
ghost use Rattle.ea_options.specs.Meaning;
ghost use Rattle.ea_options.specs.Values;
ghost use Rattle.ea_options.specs.Meaning.{files, files_of, has_input_twice, head_of, options_of};
ghost use Rattle.ea_options.specs.Refusals.{Asks, AsksAs, AsksBy, IsAskedBy, IsReadBy, IsRefusal, IsRefusedBy, IsRefusalBy, IsFaultOf, IsComplaint, IsUnasked, is_shown};

use crate::chosen::options_in;
use crate::commands::{
    check_command, explain_command, formats_command, pairs_command, program, rank_command,
    run_command,
};
use crate::fault::CommandFault;
use crate::options::{Command, RunOptions};
use crate::values::text_of;
use clap::error::ErrorKind;
use clap::{ArgMatches, Error};
use std::alloc::{AllocError, Global};
use std::convert::AsStr;

/// Whether a text of this kind was asked for.
fn is_asked_for(kind: ErrorKind) -> bool
    ensures { result ≡ is_shown kind }
{
    matches!(kind, ErrorKind::DisplayHelp | ErrorKind::DisplayVersion)
}

/// The fault for clap's error.
fn fault_of_error(alloc: Global, error: Error) -> CommandFault
    ensures { IsFaultOf error result }
{
    let kind = error.kind();
    if matches!(kind, ErrorKind::OutOfMemory) {
        return CommandFault::OutOfMemory;
    }
    match format!(in alloc; "{error}") {
        Ok(text) => CommandFault::Words {
            help: is_asked_for(kind),
            text,
        },
        Err(_) => CommandFault::OutOfMemory,
    }
}

/// Parses words with clap.
fn matches_in<'a, S: AsStr>(
    alloc: Global,
    command: clap::Command<'a>,
    words: &'a [S],
) -> Result<ArgMatches<'a>, CommandFault>
    requires simple { is_simple (app_of command) ≡ true }
    requires free { is_simple_and_free (app_of command) ≡ true }
    ensures taken { IfOk result
        (λ m. fault_of (app_of command.entry) (map S.text words.entry.now) ≡ []) }
    ensures parsed { IfOk result (λ m. IsParsedFrom command.entry m) }
    ensures rows { IfOk result
        (λ m. rows_of (found_of m)
        ≡ matches_of (app_of command.entry) (map S.text words.entry.now)) }
    ensures refused { IfErr result
        (IsRefusalBy (fault_of (app_of command.entry) (map S.text words.entry.now))) }
{
    match command.try_get_matches_from(words) {
        Ok(matches) => Ok(matches),
        Err(error) => Err(fault_of_error(alloc, error)),
    }
}

/// Parses words with clap, unless memory was refused while the command was built.
fn matches_of_built<'a, S: AsStr>(
    alloc: Global,
    command: Result<clap::Command<'a>, AllocError>,
    words: &'a [S],
) -> Result<ArgMatches<'a>, CommandFault>
    requires simple { IfOk command (λ c. is_simple (app_of c) ≡ true) }
    requires free { IfOk command (λ c. is_simple_and_free (app_of c) ≡ true) }
    ensures taken { (app : App) → Builds app command.entry
        → IfOk result (λ m. fault_of app (map S.text words.entry.now) ≡ []) }
    ensures parsed { IfOk result (λ m. IsOkAnd command.entry (λ c. IsParsedFrom c m)) }
    ensures rows { (app : App) → Builds app command.entry → IfOk result
        (λ m. rows_of (found_of m) ≡ matches_of app (map S.text words.entry.now)) }
    ensures refused { (app : App) → Builds app command.entry
        → IfErr result (IsRefusalBy (fault_of app (map S.text words.entry.now))) }
{
    match command {
        Ok(command) => matches_in(alloc, command, words),
        Err(_) => Err(CommandFault::OutOfMemory),
    }
}

/// The names of a command's files.
#[derive(Clone, Copy, Debug)]
struct Names<'a> {
    gr: &'a str,
    starts: &'a str,
    tp: Option<&'a str>,
    times: Option<&'a str>,
    nodes: Option<&'a str>,
    report: Option<&'a str>,
    output: Option<&'a str>,
}

/// 1 if a name means standard input, else 0.
fn input_by(name: &str) -> u8
    ensures input { result ≡ Meaning.input_by name.now }
    ensures bound { result ≤ 1 }
{
    if name == "-" { 1 } else { 0 }
}

/// The same for an optional name.
fn input_if_named(name: Option<&str>) -> u8
    ensures input { result ≡ Meaning.input_if_named (option_map (λ t. t.now) name.entry) }
    ensures bound { result ≤ 1 }
{
    match name {
        None => 0,
        Some(name) => input_by(name),
    }
}

impl Names<'_> {
    /// Whether two of the files to read are standard input.
    fn has_input_twice(&self) -> bool
        ensures { result ≡ has_input_twice (files self.now) }
    {
        let first = input_by(self.gr) + input_by(self.starts) + input_if_named(self.tp);
        let asked = first + input_if_named(self.times) + input_if_named(self.nodes);
        2 <= asked + input_if_named(self.report)
    }
}

/// A name that is required only if it is wanted.
fn wanted(is_wanted: bool, name: Option<&str>) -> Option<Option<&str>>
    ensures { option_map (λ name. option_map (λ t. t.now) name) result
        ≡ Meaning.wanted is_wanted (option_map (λ t. t.now) name.entry) }
{
    match name {
        None if is_wanted => None,
        name => Some(name),
    }
}

/// The first of two names, if one is there.
fn either<'a>(first: Option<&'a str>, second: Option<&'a str>) -> Option<&'a str>
    ensures { option_map (λ t. t.now) result ≡ Values.either_of
        (option_map (λ t. t.now) first.entry) (option_map (λ t. t.now) second.entry) }
{
    match first {
        Some(first) => Some(first),
        None => second,
    }
}

/// The names of a command's files. `second` names the second file; `reported` says whether a report is
/// wanted.
#[tactic(auto, unfolding(crate::specs::Meaning::files_of))]
fn names_in<'a>(matches: &ArgMatches<'a>, second: &str, reported: bool) -> Option<Names<'a>>
    ensures { option_map files result
        ≡ files_of second.now reported (rows_of (found_of matches.now)) }
{
    let gr = text_of(matches, "gr")?;
    let starts = text_of(matches, second)?;
    let report = wanted(reported, text_of(matches, "report"))?;
    Some(Names {
        gr,
        starts,
        tp: text_of(matches, "tp"),
        times: either(text_of(matches, "departs"), text_of(matches, "arrives")),
        nodes: text_of(matches, "nodes"),
        report,
        output: text_of(matches, "output"),
    })
}

/// The command of these words: its files, if all names are present, and its options.
fn asked_in<'a>(
    matches: &ArgMatches<'a>,
    second: &str,
    reported: bool,
) -> Result<(Names<'a>, RunOptions), CommandFault>
    requires named { is_some (files_of second.now reported (rows_of (found_of matches.now)))
        ≡ true }
    ensures ok { IfOk result (λ asked.
        (files_of second.now reported (rows_of (found_of matches.now)) ≡ Some (files asked.0))
        × (options_of (rows_of (found_of matches.now)) ≡ Some asked.1)
        × (has_input_twice (files asked.0) ≡ false)) }
    ensures limits { IfOk result (λ asked. AreOptions asked.1) }
    ensures err { IfErr result (IsUnasked second.now reported (rows_of (found_of matches.now))) }
{
    let names = names_in(matches, second, reported).unwrap();
    match options_in(matches) {
        Some(options) => {
            if names.has_input_twice() {
                Err(CommandFault::BadOption)
            } else {
                Ok((names, options))
            }
        }
        None => Err(CommandFault::BadOption),
    }
}

/// The refusal if no command is named.
fn no_command(alloc: Global) -> CommandFault
    ensures { IsComplaint result }
{
    match String::from_str(alloc, "error: no command is named\n") {
        Ok(text) => CommandFault::Words { help: false, text },
        Err(_) => CommandFault::OutOfMemory,
    }
}

/// The command of words that begin with the name of a command with files.
fn asked_of_words<'a, S: AsStr>(
    alloc: Global,
    command: Result<clap::Command<'a>, AllocError>,
    words: &'a [S],
    second: &str,
    reported: bool,
) -> Result<(Names<'a>, RunOptions), CommandFault>
    requires { (verb : Verb) × IsReadBy verb command second.now reported }
    ensures ok { (verb : Verb) → IsReadBy verb command.entry second.now reported → IfOk result
        (λ asked. IsAskedBy verb (map S.text words.entry.now) (files asked.0) asked.1) }
    ensures limits { IfOk result (λ asked. AreOptions asked.1) }
    ensures err { (verb : Verb) → IsReadBy verb command.entry second.now reported
        → IfErr result (IsRefusedBy (of_files verb) (map S.text words.entry.now)) }
{
    match matches_of_built(alloc, command, words) {
        Ok(matches) => asked_in(&matches, second, reported),
        Err(fault) => Err(fault),
    }
}

/// The command of words that begin with `run`.
fn run_of_words<'a, S: AsStr>(alloc: Global, words: &'a [S]) -> Result<Command<'a>, CommandFault>
    ensures ok { IfOk result (AsksBy run_verb (map S.text words.entry.now)) }
    ensures limits { IfOk result HasLimits }
    ensures err { IfErr result (IsRefusedBy (of_files run_verb) (map S.text words.entry.now)) }
{
    let command = run_command(alloc);
    let (names, options) = asked_of_words(alloc, command, words, "ss", false)?;
    Ok(Command::Run {
        gr: names.gr,
        ss: names.starts,
        tp: names.tp,
        times: names.times,
        nodes: names.nodes,
        output: names.output,
        options,
    })
}

/// The command of words that begin with `pairs`.
fn pairs_of_words<'a, S: AsStr>(alloc: Global, words: &'a [S]) -> Result<Command<'a>, CommandFault>
    ensures ok { IfOk result (AsksBy pairs_verb (map S.text words.entry.now)) }
    ensures limits { IfOk result HasLimits }
    ensures err { IfErr result (IsRefusedBy (of_files pairs_verb) (map S.text words.entry.now)) }
{
    let command = pairs_command(alloc);
    let (names, options) = asked_of_words(alloc, command, words, "p2p", false)?;
    Ok(Command::Pairs {
        gr: names.gr,
        p2p: names.starts,
        tp: names.tp,
        times: names.times,
        output: names.output,
        options,
    })
}

/// The command of words that begin with `rank`.
fn rank_of_words<'a, S: AsStr>(alloc: Global, words: &'a [S]) -> Result<Command<'a>, CommandFault>
    ensures ok { IfOk result (AsksBy rank_verb (map S.text words.entry.now)) }
    ensures limits { IfOk result HasLimits }
    ensures err { IfErr result (IsRefusedBy (of_files rank_verb) (map S.text words.entry.now)) }
{
    let command = rank_command(alloc);
    let (names, options) = asked_of_words(alloc, command, words, "ss", false)?;
    Ok(Command::Rank {
        gr: names.gr,
        ss: names.starts,
        tp: names.tp,
        output: names.output,
        options,
    })
}

/// The command of words that begin with `check`.
fn check_of_words<'a, S: AsStr>(alloc: Global, words: &'a [S]) -> Result<Command<'a>, CommandFault>
    ensures ok { IfOk result (AsksBy check_verb (map S.text words.entry.now)) }
    ensures limits { IfOk result HasLimits }
    ensures err { IfErr result (IsRefusedBy (of_files check_verb) (map S.text words.entry.now)) }
{
    let command = check_command(alloc);
    let (names, options) = asked_of_words(alloc, command, words, "ss", true)?;
    Ok(Command::Check {
        gr: names.gr,
        ss: names.starts,
        tp: names.tp,
        times: names.times,
        report: names.report.unwrap(),
        options,
    })
}

/// The command of words that begin with `explain`.
fn explain_of_words<'a, S: AsStr>(
    alloc: Global,
    words: &'a [S],
) -> Result<Command<'a>, CommandFault>
    ensures ok { IfOk result (AsksAs of_explain (map S.text words.entry.now)) }
    ensures limits { IfOk result HasLimits }
    ensures err { IfErr result (IsRefusedBy of_explain (map S.text words.entry.now)) }
{
    let matches = matches_of_built(alloc, explain_command(alloc), words)?;
    Ok(Command::Explain {
        fault: text_of(&matches, "fault"),
    })
}

/// The command of words that begin with `formats`.
fn formats_of_words<'a, S: AsStr>(
    alloc: Global,
    words: &'a [S],
) -> Result<Command<'a>, CommandFault>
    ensures ok { IfOk result (AsksAs of_formats (map S.text words.entry.now)) }
    ensures limits { IfOk result HasLimits }
    ensures err { IfErr result (IsRefusedBy of_formats (map S.text words.entry.now)) }
{
    matches_of_built(alloc, formats_command(alloc), words)?;
    Ok(Command::Formats)
}

/// Why words that begin with no command's name are refused.
fn refusal_of_words<'a, S: AsStr>(alloc: Global, words: &'a [S]) -> CommandFault
    ensures { IsRefusedBy of_none (map S.text words.entry.now) result }
{
    match matches_of_built(alloc, program(alloc), words) {
        Ok(_) => no_command(alloc),
        Err(fault) => fault,
    }
}

/// The command of words with this first word.
fn answer_to<'a, S: AsStr>(
    alloc: Global,
    verb: &str,
    words: &'a [S],
) -> Result<Command<'a>, CommandFault>
    ensures ok { IfOk result (AsksAs (head_of verb.now) (map S.text words.entry.now)) }
    ensures limits { IfOk result HasLimits }
    ensures err { IfErr result (IsRefusedBy (head_of verb.now) (map S.text words.entry.now)) }
{
    if verb == "run" {
        run_of_words(alloc, words)
    } else if verb == "pairs" {
        pairs_of_words(alloc, words)
    } else if verb == "rank" {
        rank_of_words(alloc, words)
    } else if verb == "check" {
        check_of_words(alloc, words)
    } else if verb == "explain" {
        explain_of_words(alloc, words)
    } else if verb == "formats" {
        formats_of_words(alloc, words)
    } else {
        Err(refusal_of_words(alloc, words))
    }
}

impl RunOptions {
    /// The command of the words of a command line, without the program's name.
    ///
    /// No words ask for the built-in run. Otherwise the first word is a command's name. Values of options are
    /// read like the numbers of input files.
    ///
    /// Fails with `Words` if clap refuses the words or a text is asked for; with `BadOption` if clap takes
    /// them but an option doesn't take its value, two options exclude each other, or two files are standard
    /// input; with `OutOfMemory` if memory is refused.
    pub fn of_words<'a, S: AsStr>(
        alloc: Global,
        words: &'a [S],
    ) -> Result<Command<'a>, CommandFault>
        ensures ok { IfOk result (Asks (map S.text words.entry.now)) }
        // Each number of the options is within its limits.
        ensures limits { IfOk result HasLimits }
        ensures err { IfErr result (IsRefusal (map S.text words.entry.now)) }
    {
        let Some(first) = words.first() else {
            return Ok(Command::Stored);
        };
        answer_to(alloc, first.as_str(), words)
    }
}
