//! The outcomes of calls with little memory.
use std::alloc::{AllocError, Global};
use std::fmt;
use test_support::memory::{Held, pieces};

/// The outcome of a call.
#[derive(Clone, Copy, PartialEq, Eq)]
pub enum Came {
    /// It did everything.
    Whole,
    /// It reported refused memory, and did only what it says.
    Refused,
    Wrong,
}

/// The number of calls with each outcome.
#[derive(Clone, Copy)]
pub struct Count {
    whole: u32,
    refused: u32,
    wrong: u32,
}

impl Count {
    pub fn new() -> Count {
        Count {
            whole: 0,
            refused: 0,
            wrong: 0,
        }
    }

    pub fn add(&mut self, came: Came) {
        match came {
            Came::Whole => self.whole = self.whole.wrapping_add(1),
            Came::Refused => self.refused = self.refused.wrapping_add(1),
            Came::Wrong => self.wrong = self.wrong.wrapping_add(1),
        }
    }

    /// Whether none was wrong, this many were refused and some were whole.
    pub fn is_refused_at_least(&self, refused: u32) -> bool {
        self.wrong == 0 && refused <= self.refused && 2 <= self.whole
    }
}

impl fmt::Display for Count {
    fn fmt<W: fmt::Write>(&self, f: &mut fmt::Formatter<W>) -> fmt::Result {
        write!(
            f,
            "{} whole, {} refused, {} wrong",
            self.whole, self.refused, self.wrong
        )
    }
}

/// A call that is tried with little memory left.
pub trait Trial {
    /// Its outcome if all memory except a piece is taken, at its beginning or during it.
    fn came(&mut self, alloc: Global, held: &mut Held, piece: Vec<u8>) -> Came;
}

/// This many pieces of memory that grow by a step, the holder of small blocks, and the holder of all large
/// ones.
pub fn taken(
    alloc: Global,
    first: u32,
    count: u32,
    step: u32,
) -> Result<(Held, Vec<Vec<u8>>, Held), AllocError> {
    let small = Held::new(alloc, 20_000)?;
    let sizes = pieces(alloc, first, count, step)?;
    Ok((small, sizes, Held::of_large(alloc, 4)?))
}

/// A call's outcomes with each of this many pieces of memory, which grow by a step.
pub fn count_of<T: Trial>(
    alloc: Global,
    trial: &mut T,
    first: u32,
    count: u32,
    step: u32,
) -> Result<Count, AllocError> {
    let (mut small, sizes, mut large) = taken(alloc, first, count, step)?;
    let mut count = Count::new();
    for piece in sizes {
        count.add(trial.came(alloc, &mut small, piece));
        small.release();
    }
    large.release();
    Ok(count)
}
