//! The arcs of a written walk.
ghost use Rattle.std.specs.Prelude.{◌≡◌, ◌<◌, [], IfSome, MatchOption, OnOk, length};
ghost use Rattle.ea_bytes.specs.Text.{fields_of};
ghost use Rattle.ea_check.specs.Form.{arc_of, arcs_of};
ghost use Rattle.ea_check.specs.Reads.{BeginsWithArc};

use crate::form::leading_number::leading_number;
use ea_bytes::{first_field, number};
use std::alloc::AllocError;

/// The arc number in a field. A number of more than 32 bits becomes 0, which is no arc's.
fn arc_number(field: &[u8]) -> u32
    ensures { result ≡ arc_of field.now }
{
    match number(field) {
        Some(value) if value < 4_294_967_296 => value as u32,
        _ => 0,
    }
}

/// Fast path: the arc number that a line begins with, and the bytes after its blank.
fn leading_arc(text: &[u8]) -> Option<(u32, &[u8])>
    ensures first { IfSome result (λ x. BeginsWithArc text.entry.now x.0 x.1.now) }
    ensures shorter { IfSome result (λ x. length x.1.now < length text.entry.now) }
{
    match leading_number(text) {
        Some((value, rest)) if value < 4_294_967_296 => Some((value as u32, rest)),
        _ => None,
    }
}

/// The arc number in the first field of a line, and the bytes after it.
fn first_arc(text: &[u8]) -> Option<(u32, &[u8])>
    ensures first { MatchOption result (fields_of text.entry.now ≡ [])
        (λ x. BeginsWithArc text.entry.now x.0 x.1.now) }
    ensures shorter { IfSome result (λ x. length x.1.now < length text.entry.now) }
{
    if let Some(found) = leading_arc(text) {
        return Some(found);
    }
    let (field, rest) = first_field(text)?;
    Some((arc_number(field), rest))
}

/// Replaces `arcs` by the arcs in a text.
pub(crate) fn read_arcs(text: &[u8], arcs: &mut Vec<u32>) -> Result<(), AllocError>
    ensures { OnOk result (arcs.new.items ≡ arcs_of (fields_of text.now)) }
{
    arcs.clear();
    let mut rest = text;
    while let Some((arc, after)) = first_arc(rest) {
        arcs.push(arc)?;
        rest = after;
    }
    Ok(())
}
