//! The bad value in words that clap takes, and whether words ask for explanations.
ghost use Rattle.std.specs.Prelude.{IfSome};
ghost use Rattle.ea_options.specs.Bad.{IsBad};

use crate::commands::{check_command, pairs_command, rank_command, run_command};
use crate::values::{number_of_text, text_of, yes_or_no};
use clap::ArgMatches;
use ea_base::{
    HORIZON, LEAST_HEAPS, MOST_AT_ONCE, MOST_BATCH, MOST_HEAPS, MOST_TURNS, MOST_WORKERS,
};
use std::alloc::Global;
use std::convert::AsStr;

/// The values that an option may have.
#[derive(Clone, Copy, Debug, PartialEq, Eq)]
pub enum Allowed {
    /// Whole numbers from `least` to `most`.
    Number { least: u64, most: u64 },
    /// The words yes and no.
    YesOrNo,
}

/// An option whose value is none of those that it may have.
#[derive(Clone, Copy, Debug, PartialEq, Eq)]
pub struct BadValue<'a> {
    /// The option's name, without its dashes.
    pub option: &'static str,
    pub value: &'a str,
    pub allowed: Allowed,
}

/// An option's value, if it is no number from `least` to `most`.
fn bad_number<'a>(
    matches: &ArgMatches<'a>,
    option: &'static str,
    least: u64,
    most: u64,
) -> Option<BadValue<'a>>
    ensures { IfSome result IsBad }
{
    let value = text_of(matches, option)?;
    match number_of_text(least, most, value) {
        Some(_) => None,
        None => Some(BadValue {
            option,
            value,
            allowed: Allowed::Number { least, most },
        }),
    }
}

/// An option's value, if it is neither yes nor no.
fn neither_yes_nor_no<'a>(matches: &ArgMatches<'a>, option: &'static str) -> Option<BadValue<'a>>
    ensures { IfSome result IsBad }
{
    let value = text_of(matches, option)?;
    match yes_or_no(value) {
        Some(_) => None,
        None => Some(BadValue {
            option,
            value,
            allowed: Allowed::YesOrNo,
        }),
    }
}

/// The first option with a bad value.
fn first_bad<'a>(matches: &ArgMatches<'a>) -> Option<BadValue<'a>>
    ensures { IfSome result IsBad }
{
    for (option, least, most) in [
        ("workers", 1, u64::from(MOST_WORKERS)),
        ("at-once", 1, u64::from(MOST_AT_ONCE)),
        ("batch", 1, u64::from(MOST_BATCH)),
        ("heaps", u64::from(LEAST_HEAPS), u64::from(MOST_HEAPS)),
        ("turns", 0, MOST_TURNS),
        ("seed", 0, u64::MAX),
        ("depart", 0, HORIZON),
        ("arrive", 0, HORIZON),
        ("gap", 0, HORIZON),
    ] {
        if let Some(bad) = bad_number(matches, option, least, most) {
            return Some(bad);
        }
    }
    neither_yes_nor_no(matches, "prepare")
}

/// The first option with a bad value, if `of_words` returns `BadOption` for the words. None if it doesn't, if
/// all values are good but two options exclude each other or two files are standard input, or if memory is
/// refused.
pub fn bad_value_of<'a, S: AsStr>(alloc: Global, words: &'a [S]) -> Option<BadValue<'a>>
    ensures { IfSome result IsBad }
{
    let verb = words.first()?.as_str();
    let command = if verb == "run" {
        run_command(alloc)
    } else if verb == "pairs" {
        pairs_command(alloc)
    } else if verb == "rank" {
        rank_command(alloc)
    } else if verb == "check" {
        check_command(alloc)
    } else {
        return None;
    };
    match command {
        Ok(command) => match command.try_get_matches_from(words) {
            Ok(matches) => first_bad(&matches),
            Err(_) => None,
        },
        Err(_) => None,
    }
}

/// Whether words ask for explanations: `--explain` is among those before the first `--`.
pub fn asks_to_explain<S: AsStr>(words: &[S]) -> bool {
    for word in words {
        let word = word.as_str();
        if word == "--explain" {
            return true;
        }
        if word == "--" {
            return false;
        }
    }
    false
}
