//! Why a road isn't prepared.
ghost use Rattle.std.specs.Prelude.{◌≡◌};
ghost use Rattle.ea_hierarchy.specs.declared.unprepared.Unprepared.TheVariants.{OutOfMemory};

use std::alloc::AllocError;
use thiserror::Error;

/// Why a road isn't prepared.
#[derive(Clone, Copy, Debug, PartialEq, Eq, Error)]
pub enum Unprepared {
    /// There are too many upward arcs or triangles for the network's size: searches wouldn't gain by them.
    #[error("the network is not worth a preparation")]
    NotWorth,
    /// The list that was given is no order of the nodes: one is missing, or there twice.
    #[error("the list is no order of the nodes")]
    NoOrder,
    /// Memory was refused.
    #[error("there is not enough memory (13 OutOfMemory)")]
    OutOfMemory,
}

impl From<AllocError> for Unprepared {
    ghost from_gives = { λ _ fault. fault ≡ OutOfMemory };

    fn from(_refused: AllocError) -> Unprepared {
        Unprepared::OutOfMemory
    }
}
