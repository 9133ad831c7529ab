//! A list of words with a cheap push.
ghost use Rattle.std.specs.Prelude.{◌≡◌, ◌∷◌, ◌++◌, [], length, IsTrue};

use std::alloc::Global;
use std::marker::Model;

/// How many words are filled at once beyond the last one: as many as the cache holds. A push then hits the
/// cache, while in a list that only grows it would miss.
const AHEAD: usize = 4_096;

/// Words, in a list that is filled beyond them.
#[derive(Drop)]
pub struct Words {
    list: Vec<u64>,
    count: usize,
}

impl Model for Words {
    ghost use Rattle.std.specs.Prelude.{ℕ, ◌≤◌, List, length, take};

    ghost Value = { List ℕ };

    ghost view = { λ w. take w.count w.list.items };

    ghost invariant = { λ w. w.count ≤ length w.list.items };
}

impl Words {
    /// No words.
    pub fn none(alloc: Global) -> Words
        ensures { result ≡ [] }
    {
        Words {
            list: Vec::new(alloc),
            count: 0,
        }
    }

    /// Reserves memory for `many` words. Returns false if it was refused.
    pub fn reserve(&mut self, many: usize) -> bool
        ensures { self.new ≡ self.old }
    {
        self.list.reserve(many).is_ok()
    }

    /// Removes all words.
    pub fn clear(&mut self)
        ensures { self.new ≡ [] }
    {
        self.list.clear();
        self.count = 0;
    }

    /// The number of words.
    pub fn len(&self) -> usize
        ensures { result ≡ length self.now }
    {
        self.count
    }

    /// Appends a word. Returns false if memory was refused.
    #[inline(always)]
    pub fn push(&mut self, word: u64) -> bool
        ensures { IsTrue result → self.new ≡ self.old ++ word ∷ [] }
    {
        if self.count < self.list.len() {
            self.list[self.count] = word;
            self.count += 1;
            return true;
        }
        self.push_more(word)
    }

    /// Fills the list beyond its words, and appends a word.
    #[inline(never)]
    fn push_more(&mut self, word: u64) -> bool
        ensures { IsTrue result → self.new ≡ self.old ++ word ∷ [] }
    {
        let filled = self.list.len().saturating_add(AHEAD);
        self.list.truncate(self.count);
        if self.list.push(word).is_err() {
            return false;
        }
        self.count += 1;
        self.list.resize(filled, 0).is_ok()
    }

    /// The words.
    pub fn as_slice(&self) -> &[u64]
        ensures { result.now ≡ self.now }
    {
        &self.list[..self.count]
    }
}
