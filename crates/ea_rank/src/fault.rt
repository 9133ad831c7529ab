//! Why a record has no rank errors.
ghost use Rattle.std.specs.Prelude.{◌≡◌};
ghost use Rattle.ea_rank.specs.declared.fault.RankFault.TheVariants.{OutOfMemory};

use std::alloc::{AllocError, AllocFailed};
use thiserror::Error;

/// Why a record has no rank errors.
#[derive(Clone, Copy, Debug, PartialEq, Eq, Error)]
pub enum RankFault {
    /// The event with this number, from 0, is the first that pops a key that isn't in the queue.
    #[error("event {0} pops a key that is not in the queue")]
    NotThere(usize),
    /// Memory was refused; the record may be right or wrong.
    #[error("there is not enough memory (13 OutOfMemory)")]
    OutOfMemory,
}

impl From<AllocError> for RankFault {
    ghost from_gives = { λ _ fault. fault ≡ OutOfMemory };

    fn from(_refused: AllocError) -> RankFault {
        RankFault::OutOfMemory
    }
}

impl From<AllocFailed<u64>> for RankFault {
    ghost from_gives = { λ _ fault. fault ≡ OutOfMemory };

    fn from(_refused: AllocFailed<u64>) -> RankFault {
        RankFault::OutOfMemory
    }
}
