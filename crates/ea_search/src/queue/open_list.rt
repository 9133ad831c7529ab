//! The list in which nodes wait from the fall of their labels to their scans.
ghost use Rattle.std.specs.Prelude.{◌≡◌, ℕ, ◌+◌, ◌<◌, ◌≤◌};
ghost use Rattle.ea_search.specs.Worklist.{Room};

/// A list of nodes that wait for a scan.
pub trait Opens {
    /// How many nodes there is room for, and whether for walks too.
    ghost room: { Self → Room };

    /// Whether a node waits, for these labels.
    ghost waits: { Self → (ℕ → ℕ) → ℕ → Type 0 };

    /// The work that is left, which each scan lowers.
    ghost size: { Self → ℕ };

    /// Opens a node whose label fell to a time.
    fn open(&mut self, node: u32, time: u64)
        requires { (0 < node) × (node ≤ (room self.old).nodes) }
        ensures room { room self.new ≡ room self.old }
        ensures size { size self.new ≤ size self.old + 1 }
        ensures opened { (label : ℕ → ℕ) → label node ≡ time → waits self.new label node }
        ensures kept { (old new : ℕ → ℕ) (other : ℕ) → new other ≡ old other
            → waits self.old old other → waits self.new new other };
}
