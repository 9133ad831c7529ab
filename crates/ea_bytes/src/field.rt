//! Fields of a line.
ghost use Rattle.std.specs.Prelude.{◌≡◌, ◌∷◌, [], ◌<◌, ◌≤◌, length, map, take, MatchOption, IfSome, slice_index, false};
ghost use Rattle.ea_bytes.specs.Text.{fields_of};
ghost use Rattle.ea_bytes.specs.Text as spec;

use smallvec::SmallVec;
use std::alloc::Global;

/// Whether a byte is a space or a tab.
pub fn is_blank(b: u8) -> bool
    ensures { result ≡ spec.is_blank b }
{
    b == b' ' || b == b'\t'
}

/// A line after its leading blanks.
fn skip_blanks(line: &[u8]) -> &[u8]
    ensures same { fields_of result.now ≡ fields_of line.now }
    ensures start { 0 < length result.now → spec.is_blank (slice_index result.now 0) ≡ false }
    ensures no_longer { length result.now ≤ length line.now }
{
    for (i, b) in line.iter().enumerate() {
        if !is_blank(*b) {
            return &line[i..];
        }
    }
    &line[line.len()..]
}

/// The field at the start of a line, and the bytes after it and its blank.
fn split_field(line: &[u8]) -> (&[u8], &[u8])
    requires some { 0 < length line.now }
    requires start { spec.is_blank (slice_index line.now 0) ≡ false }
    ensures cut { fields_of line.now ≡ result.0.now ∷ fields_of result.1.now }
    ensures shorter { length result.1.now < length line.now }
{
    for (i, b) in line.iter().enumerate() {
        if is_blank(*b) {
            return (&line[..i], &line[i + 1..]);
        }
    }
    (line, &line[line.len()..])
}

/// The first field of a line, and the bytes after it and its blank; none if the line has no field.
pub fn first_field(line: &[u8]) -> Option<(&[u8], &[u8])>
    ensures cut { MatchOption result (fields_of line.now ≡ [])
        (λ x. fields_of line.now ≡ x.0.now ∷ fields_of x.1.now) }
    ensures shorter { IfSome result (λ x. length x.1.now < length line.now) }
{
    let rest = skip_blanks(line);
    if rest.is_empty() {
        None
    } else {
        Some(split_field(rest))
    }
}

/// One more than the most fields in any line of a file.
pub const KEPT_FIELDS: usize = 7;

/// The fields of a line, at most seven of them.
pub fn fields(alloc: Global, line: &[u8]) -> SmallVec<&[u8], 8>
    ensures { map (λ field. field.now) result.items ≡ take 7 (fields_of line.now) }
{
    let mut fields = SmallVec::new(alloc);
    let mut rest = line;
    while fields.len() < KEPT_FIELDS {
        match first_field(rest) {
            None => break,
            Some((field, after)) => {
                fields.push_reserved(field);
                rest = after;
            }
        }
    }
    fields
}

/// Whether the first field of a line makes it a comment.
pub fn is_comment(word: &[u8]) -> bool
    ensures { result ≡ spec.is_comment word.now }
{
    word.first() == Some(&b'c')
}
