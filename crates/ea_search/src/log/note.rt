//! The notes of a search for walks: the arcs by which labels fell or were met.
ghost use Rattle.std.specs.Prelude.{◌≡◌};
ghost use Rattle.ea_search.specs.Notes.{FitsWord, note_in};

/// An arc by which a node's label fell, or was met.
#[derive(Clone, Copy, Drop)]
pub struct Note {
    pub node: u32,
    /// The tail of the arc.
    pub from: u32,
    /// The arc's place among those that leave the tail, from 0.
    pub place: u32,
    /// Whether the label was met and did not fall.
    pub again: bool,
}

/// Nodes from this number on don't fit into a note's word.
pub const NODES: u64 = 67_108_864;

/// The bit of a note's word that says whether the label was met.
pub const AGAIN: u64 = 4_503_599_627_370_496;

/// The bit at which the place begins in a note's word, and how many places fit.
pub const PLACE: u64 = 9_007_199_254_740_992;

pub const PLACES: u64 = 2_048;

/// A note packed into one word, to write as little as possible.
#[inline(always)]
pub fn word_of(note: Note) -> u64
    requires { FitsWord note }
    ensures { note_in result ≡ note }
{
    let ends = u64::from(note.node) + NODES * u64::from(note.from);
    let place = PLACE * u64::from(note.place);
    if note.again {
        ends + place + AGAIN
    } else {
        ends + place
    }
}

/// The note in a word.
#[inline(always)]
pub fn note_in(word: u64) -> Note
    ensures { result ≡ note_in word }
{
    Note {
        node: (word % NODES) as u32,
        from: (word / NODES % NODES) as u32,
        place: (word / PLACE) as u32,
        again: word / AGAIN % 2 == 1,
    }
}
