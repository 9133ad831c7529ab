//! Counting the numbers in a text.
ghost use Rattle.std.specs.Prelude.{◌≡◌, ◌≤◌, ℕ, List, MatchOption, length};
ghost use Rattle.ea_bytes.specs.Text.{fields_of};
ghost use Rattle.ea_check.specs.Form.{AreArcNumbers, arcs_of};
ghost use Rattle.ea_check.specs.Counted.{ends_blank, has_other, starts};
ghost use Rattle.ea_check.specs.declared.form.number_count.TheConstants.{PIECE};

use ea_bytes::is_blank;

/// The most bytes counted at a time: a multiple of a vector register's, and few enough for a count in a byte.
const PIECE: usize = 240;

/// The counts of a piece of text.
#[derive(Clone, Copy)]
struct PieceCounts {
    /// The number of fields that begin in it.
    starts: u8,
    /// Whether it has a byte other than digits and blanks.
    other: bool,
    /// Whether its last byte is a blank.
    blank: bool,
}

/// The counts of a piece of text; `before` says whether a blank precedes it. The loop has no branch, so that
/// it is vectorised.
fn found_in(piece: &[u8], before: bool) -> PieceCounts
    requires { length piece.now ≤ PIECE }
    ensures { result ≡ record {
      starts = starts before piece.now;
      other = has_other piece.now;
      blank = ends_blank before piece.now;
    } }
{
    let mut starts = 0;
    let mut other = false;
    let mut blank = before;
    for b in piece {
        let digit = b.is_ascii_digit();
        let gap = is_blank(*b);
        starts += u8::from(blank & !gap);
        other |= !(digit | gap);
        blank = gap;
    }
    PieceCounts {
        starts,
        other,
        blank,
    }
}

/// The number of fields of a text, if all of them are numbers.
pub(crate) fn count_numbers(text: &[u8]) -> Option<usize>
    ensures { MatchOption result
        ((arcs : List ℕ) → AreArcNumbers (fields_of text.now) arcs → ⊥)
        (λ count. AreArcNumbers (fields_of text.now) (arcs_of (fields_of text.now))
        × (count ≡ length (fields_of text.now))) }
{
    let mut count = 0;
    let mut other = false;
    let mut blank = true;
    let mut rest = text;
    while !rest.is_empty() {
        let (piece, after) = rest.split_at(rest.len().min(PIECE));
        let found = found_in(piece, blank);
        count += usize::from(found.starts);
        other |= found.other;
        blank = found.blank;
        rest = after;
    }
    if other { None } else { Some(count) }
}
