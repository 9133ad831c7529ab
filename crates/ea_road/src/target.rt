ghost use Rattle.std.specs.Prelude.{◌≡◌, ◌≤◌, IfOk};
ghost use Rattle.ea_road.specs.LatestDepartures.{AreTargets, turned_target, turned_targets};

use crate::HORIZON;
use crate::source::Source;
use std::alloc::{AllocError, Global};

/// A node and the time by which it has to be reached.
#[derive(Clone, Copy, Debug, PartialEq, Eq)]
pub struct Target {
    /// The node's number, from 1.
    pub node: u32,
    /// The time by which it has to be reached, at most HORIZON.
    pub time: u64,
}

impl Target {
    /// The source of the turned question: what has to be reached by a time begins at HORIZON less that time.
    fn turned(self) -> Source
        requires { self.time ≤ HORIZON }
        ensures { result ≡ turned_target self }
    {
        Source {
            node: self.node,
            departure: HORIZON - self.time,
        }
    }
}

/// The sources of the turned question, in the order of the targets: what has to be reached by a time begins at HORIZON less that time.
/// An error comes only if memory for the list was refused.
pub fn turned_targets(alloc: Global, targets: &[Target]) -> Result<Vec<Source>, AllocError>
    requires { AreTargets targets.now }
    ensures { IfOk result (λ sources. sources.items ≡ turned_targets targets.now) }
{
    let mut sources = Vec::with_capacity(alloc, targets.len())?;
    for target in targets {
        sources.push(target.turned())?;
    }
    Ok(sources)
}
