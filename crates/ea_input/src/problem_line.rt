//! Texts of a problem line with a number, and that many other lines of one sort.
ghost use Rattle.std.specs.Prelude.{◌≡◌, ◌∷◌, [], map, codes};
ghost use Rattle.ea_input.specs.Listing as spec;
ghost use Rattle.ea_blocks.specs.Borrowed.{result_now, texts_now};

use crate::number_ranges::{numeral, within};
use ea_blocks::FaultKind;

/// What a line says.
#[derive(Clone, Copy)]
pub enum ListLine<T> {
    Silent,
    Problem(u32),
    Item(T),
}

/// The fields after one word.
#[tactic(auto, unfolding(crate::specs::Listing::after_kinds))]
pub(crate) fn after_kind<'a, 'b>(
    kind: &[u8],
    fields: &'a [&'b [u8]],
) -> Result<&'a [&'b [u8]], FaultKind>
    ensures { result_now result
        ≡ spec.after_kinds (kind.now ∷ []) (map (λ field. field.now) fields.entry.now) }
{
    let [field, others @ ..] = fields else {
        return Err(FaultKind::FieldCount);
    };
    if *field == kind {
        Ok(others)
    } else {
        Err(FaultKind::BadKind)
    }
}

#[tactic(auto, unfolding(crate::specs::Listing::only_number))]
pub(crate) fn only_number(low: u32, high: u32, fields: &[&[u8]]) -> Result<u32, FaultKind>
    ensures { result ≡ spec.only_number low high (texts_now fields.now) }
{
    match fields {
        [field] => within(low, high, numeral(field)?),
        _ => Err(FaultKind::FieldCount),
    }
}

/// The fields after `aux sp` and a word.
#[tactic(auto, unfolding(crate::specs::Listing::after_kinds))]
fn after_kinds<'a, 'b>(kind: &[u8], fields: &'a [&'b [u8]]) -> Result<&'a [&'b [u8]], FaultKind>
    ensures { result_now result
        ≡ spec.after_kinds (codes "aux" ∷ codes "sp" ∷ kind.now ∷ [])
        (map (λ field. field.now) fields.entry.now) }
{
    let fields = after_kind(b"aux", fields)?;
    let fields = after_kind(b"sp", fields)?;
    after_kind(kind, fields)
}

#[tactic(auto, unfolding(crate::specs::Listing::announced))]
fn announced(kind: &[u8], counts: (u32, u32), fields: &[&[u8]]) -> Result<u32, FaultKind>
    ensures { result ≡ spec.announced kind.now counts (texts_now fields.now) }
{
    let numbers = after_kinds(kind, fields)?;
    only_number(counts.0, counts.1, numbers)
}

#[tactic(auto, unfolding(crate::specs::Listing::problem_line))]
pub(crate) fn problem_line<T: Copy>(
    kind: &[u8],
    counts: (u32, u32),
    size: Option<u32>,
    fields: &[&[u8]],
) -> Result<ListLine<T>, FaultKind>
    ensures { result ≡ spec.problem_line kind.now counts size (texts_now fields.now) }
{
    if size.is_some() {
        return Err(FaultKind::SecondProblemLine);
    }
    Ok(ListLine::Problem(announced(kind, counts, fields)?))
}
