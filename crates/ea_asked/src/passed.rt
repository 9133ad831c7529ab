//! How far it is known that the asked nodes are settled.
ghost use Rattle.std.specs.Prelude.{◌<◌, ℕ, Contains, IsTrue};
ghost use Rattle.ea_road.specs.Labels.{label_of};
ghost use Rattle.ea_asked.specs.Seeking.{CanPass, IsPassed};

/// The number of the first asked nodes that are known to have labels below a time, and this time. Labels only
/// fall, so it stays so. Each asked node is passed once, whatever the number of open nodes that are taken.
#[derive(Drop)]
pub(crate) struct Passed {
    pub(crate) count: usize,
    pub(crate) time: u64,
}

impl Passed {
    /// No asked node is passed.
    pub(crate) fn none(table: &[u64], asked: &[u32]) -> Passed
        ensures { IsPassed table.now asked.now result }
    {
        Passed { count: 0, time: 0 }
    }

    /// Passes the asked nodes whose labels are below a time, up to the first other one.
    pub(crate) fn pass(&mut self, table: &[u64], asked: &[u32], time: u64)
        requires { CanPass table.now asked.now self.old }
        ensures { IsPassed table.now asked.now self.new }
    {
        while self.count < asked.len() {
            let label = table[asked[self.count] as usize - 1];
            if label >= time {
                return;
            }
            self.time = self.time.max(label + 1);
            self.count += 1;
        }
    }

    /// Whether the labels of all asked nodes are known to be below a time.
    pub(crate) fn are_below(&self, table: &[u64], asked: &[u32], time: u64) -> bool
        requires passed { IsPassed table.now asked.now self.now }
        ensures { IsTrue result → (node : ℕ) → Contains asked.now node → label_of table.now node < time }
    {
        self.count == asked.len() && self.time <= time
    }
}
