//! Rank errors in three numbers.
ghost use Rattle.std.specs.Prelude.{◌≡◌};
ghost use Rattle.ea_rank.specs.Summaries.{summary_of};

/// The number of pops, the greatest of their rank errors (0 without pops), and the sum of all.
#[derive(Clone, Copy, Debug, PartialEq, Eq)]
pub struct Summary {
    pub pops: u64,
    pub greatest: u64,
    pub sum: u128,
}

impl Summary {
    /// The summary of the rank errors of all pops.
    pub fn of(ranks: &[u64]) -> Summary
        ensures { result ≡ summary_of ranks.now }
    {
        let mut greatest = 0;
        let mut sum = 0;
        for rank in ranks {
            greatest = greatest.max(*rank);
            sum += u128::from(*rank);
        }
        Summary {
            pops: ranks.len() as u64,
            greatest,
            sum,
        }
    }
}
