//! Labels, and the notes of a search for walks.
ghost use Rattle.std.specs.Prelude.{◌≡◌, [], ◌∷◌, ◌++◌, true, IsTrue};
ghost use Rattle.ea_search.specs.Notes.{notes_in};

use crate::labels::table::{Table, touched};
use crate::log::note::{NODES, Note, PLACES, word_of};
use crate::log::word_list::Words;
use ea_base::HORIZON;

/// Labels, and the log: the arcs by which labels fell or were met.
#[derive(Drop)]
pub struct Noted {
    pub labels: Vec<u64>,
    /// Each note in one word.
    pub notes: Words,
    /// Whether the log is complete: no memory was refused, and each note fitted into a word.
    pub whole: bool,
}

impl Noted {
    /// An empty log.
    pub fn new(labels: Vec<u64>, mut notes: Words) -> Noted
        requires { notes ≡ [] }
        ensures labels { result.labels.items ≡ labels.items }
        ensures notes { result.notes ≡ [] }
    {
        // Room for 5/4 of the nodes: labels of road networks fall little more often than once.
        let many = labels.len().saturating_add(labels.len() / 4);
        let whole = notes.reserve(many);
        Noted {
            labels,
            notes,
            whole,
        }
    }

    /// Whether the log is complete, and replaying it costs less than finding the links anew.
    pub fn tell(&self) -> bool
        ensures { IsTrue result → self.now.whole ≡ true }
    {
        self.whole && self.notes.len() >= self.labels.len() / 4
    }

    /// Notes an arc by which a label fell, or was met.
    #[inline(always)]
    fn note(&mut self, node: u32, from: u32, place: usize, again: bool)
        ensures labels { self.new.labels.items ≡ self.old.labels.items }
        ensures noted { (self.new.whole ≡ true) → (self.old.whole ≡ true)
            × (notes_in self.new.notes ≡ notes_in self.old.notes
            ++ (record { node = node; from = from; place = place; again = again }) ∷ []) }
    {
        if u64::from(node) >= NODES || u64::from(from) >= NODES || place as u64 >= PLACES {
            self.whole = false;
            return;
        }
        let word = word_of(Note {
            node,
            from,
            place: place as u32,
            again,
        });
        if !self.notes.push(word) {
            self.whole = false;
        }
    }
}

impl Table for Noted {
    ghost use Rattle.std.specs.Prelude.{◌≡◌, ◌⊎◌, true, false};
    ghost use Rattle.ea_search.specs.Notes.{by_none, had_after, met_after, notes_in};

    ghost labels = { λ table. table.labels.items };

    ghost lists = { λ table node. Unit };

    ghost met = { λ table node from place.
        (table.whole ≡ false) ⊎ met_after (notes_in table.notes) by_none node from place };

    ghost had = { λ table node from place.
        (table.whole ≡ true) × had_after (notes_in table.notes) by_none node from place };

    #[inline(always)]
    fn label(&self, node: u32) -> u64 {
        self.labels[node as usize - 1]
    }

    #[inline(always)]
    fn last(&self, node: u32) -> u64 {
        self.label(node).min(HORIZON)
    }

    #[inline(always)]
    fn touch(&self, node: u32) -> u64 {
        touched(&self.labels, node)
    }

    fn start(&mut self, node: u32, time: u64) {
        let place = node as usize - 1;
        self.labels[place] = time;
    }

    #[inline(always)]
    fn fall(&mut self, node: u32, time: u64, from: u32, place: usize) {
        self.labels[node as usize - 1] = time;
        self.note(node, from, place, false);
    }

    #[inline(never)]
    fn meet(&mut self, node: u32, from: u32, place: usize) {
        self.note(node, from, place, true);
    }
}
