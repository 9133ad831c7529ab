//! Counting the outcomes of calls with refused memory.

/// How often a call was refused, was right, and was wrong.
#[derive(Clone, Copy, PartialEq, Eq, Debug)]
pub struct Tally {
    pub refused: u32,
    pub right: u32,
    pub wrong: u32,
}

impl Tally {
    pub fn new() -> Tally {
        Tally {
            refused: 0,
            right: 0,
            wrong: 0,
        }
    }

    /// Counts a call: whether it was right, if it wasn't refused, and whether the state after it was right.
    pub fn note(&mut self, came: Option<bool>, behind: bool) {
        match came {
            None => self.refused = self.refused.wrapping_add(1),
            Some(true) => self.right = self.right.wrapping_add(1),
            Some(false) => self.wrong = self.wrong.wrapping_add(1),
        }
        if !behind {
            self.wrong = self.wrong.wrapping_add(1);
        }
    }
}
