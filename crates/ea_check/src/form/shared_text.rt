//! What a walk's text shares with that of another walk.
ghost use Rattle.std.specs.Prelude.{◌≤◌, length};
ghost use Rattle.ea_check.specs.Shared.{BeginsBlank, EndsBlank, IsOwnPart, SharesBack, SharesFront, arcs_in};
ghost use Rattle.ea_check.specs.declared.form.shared_text.TheConstants.{PIECE};

use ea_base::Direction;
use ea_bytes::is_blank;

/// The number of bytes that are compared at a time.
const PIECE: usize = 32;

/// A number of bytes that two texts share at the front: whole pieces.
fn shared_front(text: &[u8], other: &[u8]) -> usize
    ensures { SharesFront text.now other.now result }
{
    let most = text.len().min(other.len());
    let mut len = 0;
    'pieces: while most - len >= PIECE {
        if text[len..len + PIECE] == other[len..len + PIECE] {
            len += PIECE;
        } else {
            break;
        }
    }
    len
}

/// A number of bytes that two texts share at the back: whole pieces.
fn shared_back(text: &[u8], other: &[u8]) -> usize
    ensures { SharesBack text.now other.now result }
{
    let most = text.len().min(other.len());
    let mut len = 0;
    'pieces: while most - len >= PIECE {
        let end = text.len() - len;
        let also = other.len() - len;
        if text[end - PIECE..end] == other[also - PIECE..also] {
            len += PIECE;
        } else {
            break;
        }
    }
    len
}

/// The most bytes up to `len` at the front of a text that end with a blank.
fn to_blank(text: &[u8], len: usize) -> usize
    requires { len ≤ length text.now }
    ensures fewer { result ≤ len }
    ensures blank { EndsBlank text.now result }
{
    let mut end = len;
    'back: while end > 0 {
        if is_blank(text[end - 1]) {
            break;
        }
        end -= 1;
    }
    end
}

/// The most bytes up to `len` at the back of a text that begin with a blank.
fn from_blank(text: &[u8], len: usize) -> usize
    requires { len ≤ length text.now }
    ensures fewer { result ≤ len }
    ensures blank { BeginsBlank text.now result }
{
    let mut left = len;
    'onward: while left > 0 {
        if is_blank(text[text.len() - left]) {
            break;
        }
        left -= 1;
    }
    left
}

/// The place of the text that a walk doesn't share with another walk: behind a shared front, or before a shared
/// back if walks lead to a target.
pub(crate) fn own_part(way: Direction, text: &[u8], other: &[u8]) -> (usize, usize)
    ensures { IsOwnPart way text.now (arcs_in way other.now) result.0 result.1 }
{
    match way {
        Direction::Forward => (to_blank(text, shared_front(text, other)), text.len()),
        Direction::Turned => {
            let shared = from_blank(text, shared_back(text, other));
            (0, text.len() - shared)
        }
    }
}
