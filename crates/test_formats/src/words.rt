//! The example `words`, and texts that no clause specifies.
use crate::asserts::{assert_none_wrong, is_shown};
use ea_base::Direction;
use ea_options::*;
use std::alloc::Global;

/// The words of a command line.
type Words = &'static [&'static str];

fn asked<'a>(alloc: Global, words: &'a [&'a str]) -> Option<Command<'a>> {
    RunOptions::of_words(alloc, words).ok()
}

#[test]
fn no_words(rt: HostRuntime) {
    assert!(rt; matches!(asked(rt.alloc(), &[]), Some(Command::Stored)));
}

/// A command's name, the files that it names and its options; the last file is the one for the report, or the
/// report.
#[derive(Clone, Copy, PartialEq, Eq)]
struct Named<'a> {
    verb: &'a str,
    gr: &'a str,
    second: &'a str,
    tp: Option<&'a str>,
    last: Option<&'a str>,
    options: RunOptions,
}

/// What words name, with options; none if they ask for no such command.
fn names_of(alloc: Global, words: Words) -> Option<Named<'static>> {
    let Some(command) = asked(alloc, words) else {
        return None;
    };
    match command {
        Command::Run {
            gr,
            ss,
            tp,
            times: None,
            nodes: None,
            output,
            options,
        } => Some(Named {
            verb: "run",
            gr,
            second: ss,
            tp,
            last: output,
            options,
        }),
        Command::Pairs {
            gr,
            p2p,
            tp,
            times: None,
            output,
            options,
        } => Some(Named {
            verb: "pairs",
            gr,
            second: p2p,
            tp,
            last: output,
            options,
        }),
        Command::Rank {
            gr,
            ss,
            tp,
            output,
            options,
        } => Some(Named {
            verb: "rank",
            gr,
            second: ss,
            tp,
            last: output,
            options,
        }),
        Command::Check {
            gr,
            ss,
            tp,
            times: None,
            report,
            options,
        } => Some(Named {
            verb: "check",
            gr,
            second: ss,
            tp,
            last: Some(report),
            options,
        }),
        _ => None,
    }
}

/// Whether words ask for a command with these names and options.
fn asks(alloc: Global, words: Words, wanted: Named<'_>) -> bool {
    match names_of(alloc, words) {
        Some(named) => named == wanted,
        None => false,
    }
}

/// The options of words that have none.
const UNASKED: RunOptions = RunOptions {
    joint: false,
    walks: false,
    stats: false,
    progress: false,
    workers: None,
    at_once: None,
    batch: None,
    prepare: None,
    heaps: 2,
    turns: 1_000_000,
    seed: 1,
    depart: 0,
    gap: 0,
    direction: Direction::Forward,
};

const RUN: [&str; 13] = [
    "run",
    "g",
    "s",
    "--joint",
    "--gap",
    "5",
    "--workers",
    "03",
    "--at-once",
    "16",
    "--batch",
    "64",
    "--progress",
];

#[test]
fn a_run(rt: HostRuntime) {
    let wanted = Named {
        verb: "run",
        gr: "g",
        second: "s",
        tp: None,
        last: None,
        options: RunOptions {
            joint: true,
            walks: false,
            stats: false,
            progress: true,
            workers: Some(3),
            at_once: Some(16),
            batch: Some(64),
            prepare: None,
            heaps: 2,
            turns: 1_000_000,
            seed: 1,
            depart: 0,
            gap: 5,
            direction: Direction::Forward,
        },
    };
    assert!(rt; asks(rt.alloc(), &RUN, wanted));
}

const PAIRS: [&str; 8] = [
    "pairs",
    "g",
    "--tp",
    "t",
    "--walks",
    "q",
    "--seed",
    "18446744073709551615",
];

#[test]
fn pairs_with_timetables(rt: HostRuntime) {
    let wanted = Named {
        verb: "pairs",
        gr: "g",
        second: "q",
        tp: Some("t"),
        last: None,
        options: RunOptions {
            walks: true,
            seed: u64::MAX,
            workers: None,
            ..UNASKED
        },
    };
    assert!(rt; asks(rt.alloc(), &PAIRS, wanted));
}

/// Words of pairs, and whether they ask for a prepared road.
const PREPARED: [(Words, Option<bool>); 4] = [
    (&["pairs", "g", "q", "--prepare", "yes"], Some(true)),
    (&["pairs", "g", "--prepare=no", "q"], Some(false)),
    (&["pairs", "--prepare", "yes", "g", "q"], Some(true)),
    (&["pairs", "g", "q"], None),
];

/// The index of the first words that ask for another preparation.
fn wrong_preparation(alloc: Global) -> Option<usize> {
    for (place, (words, prepare)) in PREPARED.iter().enumerate() {
        let wanted = Named {
            verb: "pairs",
            gr: "g",
            second: "q",
            tp: None,
            last: None,
            options: RunOptions {
                prepare: *prepare,
                ..UNASKED
            },
        };
        if !asks(alloc, words, wanted) {
            return Some(place);
        }
    }
    None
}

/// Only the words yes and no are values of `--prepare`.
const NEITHER_YES_NOR_NO: [Words; 5] = [
    &["pairs", "g", "q", "--prepare", "maybe"],
    &["pairs", "g", "q", "--prepare", "Yes"],
    &["pairs", "g", "q", "--prepare", "1"],
    &["pairs", "g", "q", "--prepare", "no "],
    &["pairs", "g", "q", "--prepare="],
];

#[test]
fn a_prepared_road(rt: HostRuntime) {
    assert_none_wrong(&rt, wrong_preparation(rt.alloc()));
    assert_none_wrong(&rt, first_not_bad(rt.alloc(), &NEITHER_YES_NOR_NO));
}

const RANK: [&str; 11] = [
    "rank",
    "g",
    "--seed",
    "0",
    "s",
    "--heaps",
    "8",
    "--workers",
    "16",
    "--gap",
    "007",
];

#[test]
fn a_rank(rt: HostRuntime) {
    let wanted = Named {
        verb: "rank",
        gr: "g",
        second: "s",
        tp: None,
        last: None,
        options: RunOptions {
            joint: false,
            walks: false,
            stats: false,
            progress: false,
            workers: Some(16),
            at_once: None,
            batch: None,
            prepare: None,
            heaps: 8,
            turns: 1_000_000,
            seed: 0,
            depart: 0,
            gap: 7,
            direction: Direction::Forward,
        },
    };
    assert!(rt; asks(rt.alloc(), &RANK, wanted));
}

const CHECK: [&str; 9] = [
    "check",
    "g",
    "s",
    "--joint",
    "--depart",
    "281474976710655",
    "r",
    "--tp",
    "t",
];

#[test]
fn a_check(rt: HostRuntime) {
    let wanted = Named {
        verb: "check",
        gr: "g",
        second: "s",
        tp: Some("t"),
        last: Some("r"),
        options: RunOptions {
            joint: true,
            walks: false,
            stats: false,
            progress: false,
            workers: None,
            at_once: None,
            batch: None,
            prepare: None,
            heaps: 2,
            turns: 1_000_000,
            seed: 1,
            depart: 281_474_976_710_655,
            gap: 0,
            direction: Direction::Forward,
        },
    };
    assert!(rt; asks(rt.alloc(), &CHECK, wanted));
}

fn is_bad(alloc: Global, words: Words) -> bool {
    matches!(
        RunOptions::of_words(alloc, words),
        Err(CommandFault::BadOption)
    )
}

/// The index of the first words that have no bad option.
fn first_not_bad(alloc: Global, rows: &[Words]) -> Option<usize> {
    for (place, words) in rows.iter().enumerate() {
        if !is_bad(alloc, words) {
            return Some(place);
        }
    }
    None
}

const BAD_NUMBERS: [Words; 13] = [
    &["rank", "g", "s", "--workers", "0"],
    &["rank", "g", "s", "--workers", "17"],
    &["rank", "g", "s", "--heaps", "9"],
    &["rank", "g", "s", "--heaps", "two"],
    &["rank", "g", "s", "--seed", "18446744073709551616"],
    &["rank", "g", "s", "--seed", "0x1"],
    &["rank", "g", "s", "--depart", "281474976710656"],
    &["rank", "g", "s", "--gap", "+1"],
    &["check", "g", "s", "r", "--depart", "281474976710656"],
    &["check", "g", "s", "r", "--depart", "1.5"],
    &["check", "g", "s", "r", "--gap", "281474976710656"],
    &[
        "check",
        "g",
        "s",
        "r",
        "--gap",
        "99999999999999999999999999999999999999999",
    ],
    &["check", "g", "s", "r", "--gap", " 1"],
];

#[test]
fn numbers_of_rank_and_check(rt: HostRuntime) {
    assert_none_wrong(&rt, first_not_bad(rt.alloc(), &BAD_NUMBERS));
}

/// Words that are refused with a text, whether it is one that they ask for, and a part of it.
type Refusal = (Words, bool, &'static str);

/// Whether words are refused with a text that has a part, and with this help.
fn says(alloc: Global, words: Words, help: bool, part: &str) -> bool {
    match RunOptions::of_words(alloc, words) {
        Err(CommandFault::Words { help: shown, text }) => {
            shown == help && text.as_str().contains(part)
        }
        _ => false,
    }
}

/// The index of the first words that are not refused in this way.
fn wrong_refusal(alloc: Global, rows: &[Refusal]) -> Option<usize> {
    for (place, (words, help, part)) in rows.iter().enumerate() {
        if !says(alloc, words, *help, part) {
            return Some(place);
        }
    }
    None
}

/// An option's value is no file's name, and a bad value doesn't hide that a name is missing.
const NAMES_MISSING: [Refusal; 7] = [
    (&["rank"], false, "<GR>\n  <SS>"),
    (&["rank", "g"], false, "<SS>"),
    (&["pairs", "g"], false, "<P2P>"),
    (&["check", "g"], false, "<SS>\n  <REPORT>"),
    (&["check", "g", "s"], false, "<REPORT>"),
    (&["rank", "g", "--gap", "s"], false, "<SS>"),
    (&["check", "g", "s", "--tp", "r"], false, "<REPORT>"),
];

#[test]
fn names_that_are_missing(rt: HostRuntime) {
    assert_none_wrong(&rt, wrong_refusal(rt.alloc(), &NAMES_MISSING));
}

const NOT_OF_RANK_AND_CHECK: [Refusal; 18] = [
    (&["rank", "g", "s", "--walks"], false, "--walks"),
    (&["rank", "g", "s", "--stats"], false, "--stats"),
    (&["rank", "g", "s", "--joint"], false, "--joint"),
    (&["rank", "g", "s", "--turns"], false, "--turns"),
    (&["rank", "g", "s", "--at-once"], false, "--at-once"),
    (&["rank", "g", "s", "--batch"], false, "--batch"),
    (&["rank", "g", "s", "--prepare"], false, "--prepare"),
    (&["check", "g", "s", "r", "--walks"], false, "--walks"),
    (&["check", "g", "s", "r", "--stats"], false, "--stats"),
    (&["check", "g", "s", "r", "--workers"], false, "--workers"),
    (&["check", "g", "s", "r", "--at-once"], false, "--at-once"),
    (&["check", "g", "s", "r", "--batch"], false, "--batch"),
    (&["check", "g", "s", "r", "--prepare"], false, "--prepare"),
    (&["check", "g", "s", "r", "--heaps"], false, "--heaps"),
    (&["check", "g", "s", "r", "--turns"], false, "--turns"),
    (&["check", "g", "s", "r", "--seed"], false, "--seed"),
    (&["rank", "g", "s", "r"], false, "'r'"),
    (&["check", "g", "s", "r", "q"], false, "'q'"),
];

#[test]
fn words_that_rank_and_check_dont_have(rt: HostRuntime) {
    assert_none_wrong(&rt, wrong_refusal(rt.alloc(), &NOT_OF_RANK_AND_CHECK));
}

const OUT_OF_LIMITS: [Words; 10] = [
    &["run", "g", "s", "--workers", "17"],
    &["run", "g", "s", "--at-once", "17"],
    &["pairs", "g", "s", "--at-once", "0"],
    &["run", "g", "s", "--batch", "65"],
    &["pairs", "g", "s", "--batch", "0"],
    &["run", "g", "s", "--heaps", "1"],
    &["run", "g", "s", "--gap", "x"],
    &["run", "g", "s", "--gap", ""],
    &["pairs", "g", "q", "--depart", "281474976710656"],
    &["run", "g", "s", "--seed", "18446744073709551616"],
];

#[test]
fn options_out_of_their_limits(rt: HostRuntime) {
    assert_none_wrong(&rt, first_not_bad(rt.alloc(), &OUT_OF_LIMITS));
}

const NOT_UNDERSTOOD: [Refusal; 8] = [
    (&["run", "g"], false, "required"),
    (&["walk", "g", "s"], false, "unrecognized subcommand 'walk'"),
    (&["run", "g", "s", "--fast"], false, "--fast"),
    (
        &["run", "g", "s", "--gap", "1", "--gap", "1"],
        false,
        "--gap",
    ),
    (&["pairs", "g", "q", "--joint"], false, "--joint"),
    (&["run", "g", "s", "--prepare=no"], false, "--prepare"),
    (&["--joint"], false, "--joint"),
    (&["--"], false, "subcommand"),
];

#[test]
fn words_that_are_not_understood(rt: HostRuntime) {
    assert_none_wrong(&rt, wrong_refusal(rt.alloc(), &NOT_UNDERSTOOD));
}

/// The kinds of refusal that clap has for these commands, each by the start of its text.
const KINDS_OF_REFUSAL: [(Words, &str); 7] = [
    (
        &["run", "g", "s", "--fast"],
        "error: unexpected argument '--fast' found\n",
    ),
    (&["walk"], "error: unrecognized subcommand 'walk'\n"),
    (
        &["run", "g", "s", "--gap"],
        "error: a value is required for '--gap <G>' but none was supplied\n",
    ),
    (
        &["run", "g", "s", "--joint=1"],
        "error: unexpected value '1' for '--joint' found; no more were expected\n",
    ),
    (
        &["run", "g", "s", "--gap", "1", "--gap", "1"],
        "error: the argument '--gap <G>' cannot be used multiple times\n",
    ),
    (
        &["run", "g"],
        "error: the following required arguments were not provided:\n  <SS>\n",
    ),
    (
        &["--"],
        "error: 'earliest' requires a subcommand but one was not provided\n",
    ),
];

/// Whether words are refused with a text that they don't ask for and that begins with this.
fn is_refused(alloc: Global, words: Words, front: &str) -> bool {
    match RunOptions::of_words(alloc, words) {
        Err(CommandFault::Words { help, text }) => !help && text.as_str().starts_with(front),
        _ => false,
    }
}

/// The index of the first kind of refusal whose text begins differently.
fn wrong_kind(alloc: Global) -> Option<usize> {
    for (place, (words, front)) in KINDS_OF_REFUSAL.iter().enumerate() {
        if !is_refused(alloc, words, front) {
            return Some(place);
        }
    }
    None
}

#[test]
fn each_kind_of_refusal(rt: HostRuntime) {
    assert_none_wrong(&rt, wrong_kind(rt.alloc()));
}

const ASKED_FOR: [Refusal; 10] = [
    (&["--help"], true, "Usage: earliest"),
    (&["-h"], true, "pairs"),
    (&["--version"], true, "earliest 0.1.0"),
    (&["help", "run"], true, "Usage: earliest run"),
    (
        &["run", "--help"],
        true,
        "Usage: earliest run [OPTIONS] <GR> <SS>",
    ),
    (&["pairs", "-h"], true, "281474976710655"),
    (
        &["pairs", "--help"],
        true,
        "Usage: earliest pairs [OPTIONS] <GR> <P2P>",
    ),
    (
        &["rank", "--help"],
        true,
        "Usage: earliest rank [OPTIONS] <GR> <SS>",
    ),
    (
        &["check", "--help"],
        true,
        "Usage: earliest check [OPTIONS] <GR> <SS> <REPORT>",
    ),
    (&["run", "g"], false, "Usage: earliest run"),
];

#[test]
fn texts_that_are_asked_for(rt: HostRuntime) {
    assert_none_wrong(&rt, wrong_refusal(rt.alloc(), &ASKED_FOR));
}

/// Words that name the file f for the report: the command, the second file, and the words.
const WITH_REPORTS: [(&str, &str, Words); 6] = [
    ("run", "s", &["run", "g", "s", "-o", "f"]),
    ("run", "s", &["run", "g", "-of", "s"]),
    ("run", "s", &["run", "--output", "f", "g", "s"]),
    ("run", "s", &["run", "g", "s", "--output=f"]),
    ("pairs", "q", &["pairs", "g", "q", "-o", "f"]),
    ("rank", "s", &["rank", "g", "s", "-o", "f"]),
];

/// The index of the first words that don't name the file f for the report.
fn first_without_report(alloc: Global) -> Option<usize> {
    for (place, (verb, second, words)) in WITH_REPORTS.iter().enumerate() {
        let wanted = Named {
            verb,
            gr: "g",
            second,
            tp: None,
            last: Some("f"),
            options: UNASKED,
        };
        if !asks(alloc, words, wanted) {
            return Some(place);
        }
    }
    None
}

#[test]
fn a_file_for_the_report(rt: HostRuntime) {
    let of_check: Words = &["check", "g", "s", "r", "-o", "f"];
    assert_none_wrong(&rt, first_without_report(rt.alloc()));
    assert!(rt; says(rt.alloc(), of_check, false, "'-o'"));
}

const ONE_STANDARD_INPUT: [Words; 9] = [
    &["run", "-", "s"],
    &["run", "g", "-"],
    &["run", "g", "s", "--tp", "-"],
    &["run", "g", "s", "--tp=-"],
    &["run", "--", "-", "s"],
    &["run", "-", "s", "-o", "-"],
    &["pairs", "-", "q"],
    &["rank", "-", "s"],
    &["check", "g", "s", "-"],
];

const TWO_STANDARD_INPUTS: [Words; 9] = [
    &["run", "-", "-"],
    &["run", "-", "s", "--tp", "-"],
    &["run", "-", "s", "--tp=-"],
    &["run", "--", "-", "-"],
    &["pairs", "g", "-", "--tp", "-"],
    &["rank", "-", "-"],
    &["check", "-", "s", "-"],
    &["check", "g", "-", "-"],
    &["check", "g", "s", "-", "--tp=-"],
];

/// The index of the first words that are refused.
fn first_refused(alloc: Global, rows: &[Words]) -> Option<usize> {
    for (place, words) in rows.iter().enumerate() {
        if asked(alloc, words).is_none() {
            return Some(place);
        }
    }
    None
}

/// The index of the first words that have a bad value.
fn first_bad_value(alloc: Global, rows: &[Words]) -> Option<usize> {
    for (place, words) in rows.iter().enumerate() {
        if bad_value_of(alloc, words).is_some() {
            return Some(place);
        }
    }
    None
}

#[test]
fn standard_input_for_one_file(rt: HostRuntime) {
    assert_none_wrong(&rt, first_refused(rt.alloc(), &ONE_STANDARD_INPUT));
    assert_none_wrong(&rt, first_not_bad(rt.alloc(), &TWO_STANDARD_INPUTS));
    assert_none_wrong(&rt, first_bad_value(rt.alloc(), &TWO_STANDARD_INPUTS));
}

/// Whether words ask what a fault means, or which faults there are.
fn explains(alloc: Global, words: Words, named: Option<&str>) -> bool {
    match asked(alloc, words) {
        Some(Command::Explain { fault }) => fault == named,
        _ => false,
    }
}

const NEEDLESS: [Refusal; 2] = [
    (&["formats", "gr"], false, "'gr'"),
    (&["explain", "6", "7"], false, "'7'"),
];

/// Words that ask for explanations, and of which fault.
const OF_FAULTS: [(Words, Option<&str>); 2] = [
    (&["explain", "6"], Some("6")),
    (&["explain"], None),
];

/// The index of the first words that ask for no explanation, or for another.
fn wrong_explanation(alloc: Global) -> Option<usize> {
    for (place, (words, named)) in OF_FAULTS.iter().enumerate() {
        if !explains(alloc, words, *named) {
            return Some(place);
        }
    }
    None
}

const FORMATS: [&str; 1] = ["formats"];

#[test]
fn words_without_files(rt: HostRuntime) {
    assert_none_wrong(&rt, wrong_explanation(rt.alloc()));
    assert!(rt; matches!(asked(rt.alloc(), &FORMATS), Some(Command::Formats)));
    assert_none_wrong(&rt, wrong_refusal(rt.alloc(), &NEEDLESS));
}

/// Words, the option that has the first bad value, the value, and what is allowed.
type Bad = (Words, &'static str, &'static str, Allowed);

/// The times that are allowed.
const TIMES: Allowed = Allowed::Number {
    least: 0,
    most: 281_474_976_710_655,
};

const BAD_VALUES: [Bad; 8] = [
    (
        &["run", "g", "s", "--workers", "17"],
        "workers",
        "17",
        Allowed::Number { least: 1, most: 16 },
    ),
    (
        &["pairs", "g", "q", "--heaps", "1"],
        "heaps",
        "1",
        Allowed::Number { least: 2, most: 8 },
    ),
    (
        &["run", "g", "s", "--turns", "1e3"],
        "turns",
        "1e3",
        Allowed::Number {
            least: 0,
            most: 1_000_000_000,
        },
    ),
    (
        &["rank", "g", "s", "--seed", "-"],
        "seed",
        "-",
        Allowed::Number {
            least: 0,
            most: u64::MAX,
        },
    ),
    (
        &["run", "g", "s", "--depart", "8:00"],
        "depart",
        "8:00",
        TIMES,
    ),
    (&["pairs", "g", "q", "--gap", ""], "gap", "", TIMES),
    (
        &["pairs", "g", "q", "--prepare", "maybe"],
        "prepare",
        "maybe",
        Allowed::YesOrNo,
    ),
    (
        &["pairs", "g", "q", "--prepare", "0", "--gap", "x"],
        "gap",
        "x",
        TIMES,
    ),
];

/// The index of the first words whose first bad value is another.
fn wrong_bad_value(alloc: Global) -> Option<usize> {
    for (place, (words, option, value, allowed)) in BAD_VALUES.iter().enumerate() {
        let wanted = BadValue {
            option,
            value,
            allowed: *allowed,
        };
        if bad_value_of(alloc, words) != Some(wanted) {
            return Some(place);
        }
    }
    None
}

/// All values are good, there are no words, or a name is missing.
const WITHOUT_BAD_VALUE: [Words; 4] = [
    &["pairs", "g", "q", "--prepare", "no"],
    &["run", "g", "s", "--workers", "16"],
    &[],
    &["run", "g", "--workers", "17"],
];

#[test]
fn the_first_bad_value(rt: HostRuntime) {
    assert_none_wrong(&rt, wrong_bad_value(rt.alloc()));
    assert_none_wrong(&rt, first_bad_value(rt.alloc(), &WITHOUT_BAD_VALUE));
}

const EXPLAINING: [(Words, bool); 4] = [
    (&["run", "g", "--explain"], true),
    (&["--explain"], true),
    (&["run", "--", "--explain"], false),
    (&["run", "--explain=1", "explain"], false),
];

/// The index of the first words that are wrongly listed as asking for explanations or not.
fn wrong_asking() -> Option<usize> {
    for (place, (words, asking)) in EXPLAINING.iter().enumerate() {
        if asks_to_explain(*words) != *asking {
            return Some(place);
        }
    }
    None
}

#[test]
fn words_that_ask_for_explanations(rt: HostRuntime) {
    let words: Words = &["run", "g", "s", "--explain"];
    assert_none_wrong(&rt, wrong_asking());
    assert!(rt; asked(rt.alloc(), words).is_some());
}

/// Whether a fault that has a text is shown by it.
fn shows_its_text(alloc: Global, text: &str) -> bool {
    let help = false;
    match String::from_str(alloc, text) {
        Ok(copy) => is_shown(alloc, &CommandFault::Words { help, text: copy }, text),
        Err(_) => false,
    }
}

#[test]
fn each_fault_has_its_text(rt: HostRuntime) {
    let option = "an option doesn't take its value";
    assert!(rt; shows_its_text(rt.alloc(), "a text for\nthe user"));
    assert!(rt; is_shown(rt.alloc(), &CommandFault::BadOption, option));
    assert!(rt; is_shown(rt.alloc(), &CommandFault::OutOfMemory, "memory was refused"));
}
