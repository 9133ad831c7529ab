//! The fields of a report's lines.
ghost use Rattle.std.specs.Prelude.{◌≡◌, ◌≤◌, ◌∷◌, ◌↔◌, [], ℕ, IfSome, IsTrue, List, MatchOption, Some, length};
ghost use Rattle.ea_base.specs.declared.limits.TheConstants.{HORIZON};
ghost use Rattle.ea_bytes.specs.Text.{fields_of, number_of};
ghost use Rattle.ea_check.specs.Form.{IsTime, IsWalkLine, SaysArcs, SaysSource, SaysTime, arcs_of, told_time};
ghost use Rattle.ea_check.specs.Form as spec;

use crate::form::leading_number::{leading_number, only_number};
use crate::form::number_count::count_numbers;
use ea_base::{Direction, HORIZON};
use ea_bytes::{first_field, number};
use ea_road::{NONE, Source};

/// The fields of a line, if it has three.
fn three_fields(text: &[u8]) -> Option<(&[u8], &[u8], &[u8])>
    ensures { MatchOption result
        ((first second third : List ℕ) → fields_of text.entry.now ≡ first ∷ second ∷ third ∷ [] → ⊥)
        (λ found. fields_of text.entry.now ≡ found.0.now ∷ found.1.now ∷ found.2.now ∷ []) }
{
    let Some((first, rest)) = first_field(text) else {
        return None;
    };
    let Some((second, rest)) = first_field(rest) else {
        return None;
    };
    let Some((third, rest)) = first_field(rest) else {
        return None;
    };
    if first_field(rest).is_some() {
        return None;
    }
    Some((first, second, third))
}

/// Whether a field is this number.
fn is_number(field: &[u8], wanted: u64) -> bool
    ensures { IsTrue result ↔ (number_of field.now ≡ Some wanted) }
{
    number(field) == Some(u128::from(wanted))
}

/// The word of a line of a source, or of a target.
fn start_word(way: Direction) -> &'static [u8]
    ensures { result.now ≡ spec.start_word way }
{
    match way {
        Direction::Forward => b"s",
        Direction::Turned => b"t",
    }
}

/// The word in place of a time.
fn none_word(way: Direction) -> &'static [u8]
    ensures { result.now ≡ spec.none_word way }
{
    match way {
        Direction::Forward => b"inf",
        Direction::Turned => b"none",
    }
}

/// The time in a report of a time of the network that was searched, and the other way round.
pub(crate) fn told(way: Direction, time: u64) -> u64
    requires { time ≤ HORIZON }
    ensures { result ≡ told_time way time }
{
    match way {
        Direction::Forward => time,
        Direction::Turned => HORIZON - time,
    }
}

/// Whether a line is this source's.
pub(crate) fn says_source(way: Direction, text: &[u8], source: Source) -> bool
    requires { source.departure ≤ HORIZON }
    ensures { IsTrue result ↔ SaysSource way (fields_of text.now) source.node source.departure }
{
    match three_fields(text) {
        Some((word, node, departure)) => are_source(way, word, node, departure, source),
        None => false,
    }
}

/// Whether three fields are this source's.
fn are_source(way: Direction, word: &[u8], node: &[u8], departure: &[u8], source: Source) -> bool
    requires { source.departure ≤ HORIZON }
    ensures { IsTrue result ↔ SaysSource way
        (word.now ∷ node.now ∷ departure.now ∷ []) source.node source.departure }
{
    if word != start_word(way) {
        return false;
    }
    if !is_number(node, u64::from(source.node)) {
        return false;
    }
    is_number(departure, told(way, source.departure))
}

/// Fast path: the time in a node's `d` line of single spaces and digits, if it has a time.
fn plain_time(way: Direction, text: &[u8], node: u32) -> Option<u64>
    ensures { IfSome result (λ time. SaysTime way (fields_of text.now) node time) }
{
    let [b'd', b' ', numbers @ ..] = text else {
        return None;
    };
    let Some((place, rest)) = leading_number(numbers) else {
        return None;
    };
    if place != u64::from(node) {
        return None;
    }
    match only_number(rest) {
        Some(time) if time <= HORIZON => Some(told(way, time)),
        _ => None,
    }
}

/// The time in a node's `d` line, or NONE for the word in its place; None if the line is no such line.
pub(crate) fn time_said(way: Direction, text: &[u8], node: u32) -> Option<u64>
    ensures { MatchOption result
        ((time : ℕ) → SaysTime way (fields_of text.now) node time → ⊥)
        (λ time. SaysTime way (fields_of text.now) node time) }
{
    if let Some(time) = plain_time(way, text, node) {
        return Some(time);
    }
    match three_fields(text) {
        Some((word, place, arrival)) => time_in(way, word, place, arrival, node),
        None => None,
    }
}

/// The time in the three fields of a node's `d` line.
fn time_in(way: Direction, word: &[u8], place: &[u8], arrival: &[u8], node: u32) -> Option<u64>
    ensures { MatchOption result
        ((time : ℕ) → SaysTime way (word.now ∷ place.now ∷ arrival.now ∷ []) node time → ⊥)
        (λ time. SaysTime way (word.now ∷ place.now ∷ arrival.now ∷ []) node time) }
{
    if word != b"d".as_slice() {
        return None;
    }
    if !is_number(place, u64::from(node)) {
        return None;
    }
    time_of(way, arrival)
}

/// A time within the horizon, or NONE for the word in its place.
fn time_of(way: Direction, field: &[u8]) -> Option<u64>
    ensures { MatchOption result ((time : ℕ) → IsTime way field.now time → ⊥)
        (λ time. IsTime way field.now time) }
{
    if field == none_word(way) {
        return Some(NONE);
    }
    let Some(time) = number(field) else {
        return None;
    };
    if time <= u128::from(HORIZON) {
        Some(told(way, time as u64))
    } else {
        None
    }
}

/// Whether a line begins with `w`.
pub(crate) fn is_walk_line(text: &[u8]) -> bool
    ensures { IsTrue result ↔ IsWalkLine (fields_of text.now) }
{
    match first_field(text) {
        None => false,
        Some((word, _)) => word == b"w".as_slice(),
    }
}

/// The number of a walk's arcs and their text, if a line is a node's `w` line.
pub(crate) fn says_walk(text: &[u8], node: u32) -> Option<(usize, &[u8])>
    ensures { MatchOption result
        ((arcs : List ℕ) → SaysArcs (fields_of text.entry.now) node arcs → ⊥)
        (λ found. SaysArcs (fields_of text.entry.now) node (arcs_of (fields_of found.1.now))
        × (found.0 ≡ length (fields_of found.1.now))) }
{
    let Some((word, rest)) = first_field(text) else {
        return None;
    };
    let Some((place, rest)) = first_field(rest) else {
        return None;
    };
    let Some((count, rest)) = first_field(rest) else {
        return None;
    };
    if word != b"w".as_slice() || !is_number(place, u64::from(node)) {
        return None;
    }
    match count_numbers(rest) {
        Some(fields) if is_number(count, fields as u64) => Some((fields, rest)),
        _ => None,
    }
}
