//! The values of options.
ghost use Rattle.std.specs.Prelude.{◌≡◌, ◌≤◌, ◌<◌, ◌^◌, IfSome, Some, option_and_then, option_map};
ghost use Rattle.clap.specs.Words.{found_of, rows_of, first_of};
ghost use Rattle.ea_bytes.specs.Text.{number_of};
ghost use Rattle.ea_options.specs.Values.{chosen_of, chosen_yes_or_no_of, number_in, option_of, is_given, yes_or_no_of};

use clap::ArgMatches;
use ea_bytes::number;

/// A number, if it is within its limits.
fn within_limits(low: u64, high: u64, value: u128) -> Option<u64>
    ensures value { result ≡ Rattle.ea_options.specs.Values.within_limits low high value }
    ensures limits { IfSome result (λ n. (low ≤ n) × (n ≤ high)) }
{
    if u128::from(low) <= value && value <= u128::from(high) {
        Some(value as u64)
    } else {
        None
    }
}

/// The number in a text, if it is within its limits.
pub(crate) fn number_of_text(low: u64, high: u64, text: &str) -> Option<u64>
    ensures value { result ≡ option_and_then (Rattle.ea_options.specs.Values.within_limits low high)
        (number_of text.now) }
    ensures limits { IfSome result (λ n. (low ≤ n) × (n ≤ high)) }
{
    within_limits(low, high, number(text.as_bytes())?)
}

/// The number in a text, or the default if there is no text.
fn number_or(default: u64, low: u64, high: u64, text: Option<&str>) -> Option<u64>
    requires default { (low ≤ default) × (default ≤ high) }
    ensures value { result ≡ number_in default low high (option_map (λ t. t.now) text.entry) }
    ensures limits { IfSome result (λ n. (low ≤ n) × (n ≤ high)) }
{
    match text {
        None => Some(default),
        Some(text) => number_of_text(low, high, text),
    }
}

/// The number in a text, if there is a text.
fn number_if_given(low: u64, high: u64, text: Option<&str>) -> Option<Option<u64>>
    ensures value { result ≡ Rattle.ea_options.specs.Values.number_if_given low high
        (option_map (λ t. t.now) text.entry) }
    ensures limits { IfSome result (λ chosen. IfSome chosen (λ n. (low ≤ n) × (n ≤ high))) }
{
    match text {
        None => Some(None),
        Some(text) => match number_of_text(low, high, text) {
            Some(number) => Some(Some(number)),
            None => None,
        },
    }
}

/// The text of an argument.
pub(crate) fn text_of<'a>(matches: &ArgMatches<'a>, name: &str) -> Option<&'a str>
    ensures { option_map (λ t. t.now) result ≡ first_of name.now (rows_of (found_of matches.now)) }
{
    matches.get_str(name)
}

/// The number of an option.
pub(crate) fn option_number(
    matches: &ArgMatches<'_>,
    name: &str,
    default: u64,
    low: u64,
    high: u64,
) -> Option<u64>
    requires default { (low ≤ default) × (default ≤ high) }
    ensures value { result ≡ option_of name.now default low high (rows_of (found_of matches.now)) }
    ensures limits { IfSome result (λ n. (low ≤ n) × (n ≤ high)) }
{
    number_or(default, low, high, matches.get_str(name))
}

/// The number of an optional option.
pub(crate) fn chosen_number(
    matches: &ArgMatches<'_>,
    name: &str,
    low: u64,
    high: u64,
) -> Option<Option<u64>>
    ensures value { result ≡ chosen_of name.now low high (rows_of (found_of matches.now)) }
    ensures limits { IfSome result (λ chosen. IfSome chosen (λ n. (low ≤ n) × (n ≤ high))) }
{
    number_if_given(low, high, matches.get_str(name))
}

/// What the words yes and no mean.
pub(crate) fn yes_or_no(text: &str) -> Option<bool>
    ensures { result ≡ yes_or_no_of text.now }
{
    match text {
        "yes" => Some(true),
        "no" => Some(false),
        _ => None,
    }
}

/// Yes or no, if there is a text.
fn yes_or_no_if_given(text: Option<&str>) -> Option<Option<bool>>
    ensures { result ≡ Rattle.ea_options.specs.Values.yes_or_no_if_given
        (option_map (λ t. t.now) text.entry) }
{
    match text {
        None => Some(None),
        Some(text) => match yes_or_no(text) {
            Some(is_yes) => Some(Some(is_yes)),
            None => None,
        },
    }
}

/// Yes or no of an optional option.
pub(crate) fn chosen_yes_or_no(matches: &ArgMatches<'_>, name: &str) -> Option<Option<bool>>
    ensures { result ≡ chosen_yes_or_no_of name.now (rows_of (found_of matches.now)) }
{
    yes_or_no_if_given(text_of(matches, name))
}

/// Whether a flag is set.
pub(crate) fn has_flag(matches: &ArgMatches<'_>, name: &str) -> bool
    ensures { result ≡ is_given name.now (rows_of (found_of matches.now)) }
{
    match text_of(matches, name) {
        None => false,
        Some(text) => text == "true",
    }
}
