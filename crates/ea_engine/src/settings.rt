ghost use Rattle.std.specs.Prelude.{◌≡◌};
ghost use Rattle.ea_engine.specs.Limits.{AreSettings, pace_of};

/// The number of workers, the heaps for each, and their pace.
#[derive(Clone, Copy, Debug, PartialEq, Eq)]
pub struct Settings {
    /// 1 to 16.
    pub workers: u32,
    /// Heaps per worker: 2 to 8.
    pub heaps: u32,
    /// Turns per worker: 0 to 1,000,000,000.
    pub turns: u64,
    /// The most entries taken from a heap, or given to one, at once: 1 to 64.
    pub batch: u32,
    /// Consecutive idle turns after which a worker ends: 1 to 1,048,576. From 1,024 on it spins only briefly
    /// after each.
    pub patience: u32,
}

/// The pace of a worker.
#[derive(Clone, Copy, Debug, PartialEq, Eq)]
pub struct Pace {
    /// The most turns.
    pub turns: u64,
    /// The most entries taken from a heap, or given to one, at once.
    pub batch: u32,
    /// The consecutive idle turns after which it ends.
    pub patience: u32,
}

impl Settings {
    /// The pace of each worker.
    pub fn pace(self) -> Pace
        requires { AreSettings self }
        ensures { result ≡ pace_of self }
    {
        Pace {
            turns: self.turns,
            batch: self.batch,
            patience: self.patience,
        }
    }
}
