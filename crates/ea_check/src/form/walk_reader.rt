//! The walks of a problem, read again one after another.
ghost use Rattle.std.specs.Prelude.{◌≡◌, IfOk, OnOk, take};
ghost use Rattle.ea_check.specs.WalksLeft.{ReadsNext};

use crate::form::kept::KeptWalk;
use std::alloc::AllocError;

/// The walks that are left to be read.
#[derive(Drop)]
pub(crate) struct WalkReader<'a> {
    /// Those of the next nodes; the nodes behind have none.
    pub walks: &'a [Option<KeptWalk>],
    /// The arcs that they don't share.
    pub own: &'a [u32],
    /// The arcs of the last walk that was read, in the network that was searched.
    pub arcs: Vec<u32>,
    /// How many first arcs it shares with the walk before.
    pub shared: usize,
}

impl<'a> WalkReader<'a> {
    /// Reads the next node's walk, if it has one. Returns the number of its line.
    pub(crate) fn read_next(&mut self) -> Result<Option<u64>, AllocError>
        ensures read { IfOk result (λ line. ReadsNext line self.old self.new) }
        ensures shared { OnOk result (take self.new.shared self.old.arcs.items
            ≡ take self.new.shared self.new.arcs.items) }
    {
        self.shared = self.arcs.len();
        if self.walks.len() == 0 {
            return Ok(None);
        }
        let first = self.walks[0];
        let (_, walks) = self.walks.split_at(1);
        self.walks = walks;
        let Some(walk) = first else {
            return Ok(None);
        };
        let (own, left) = self.own.split_at(walk.own.min(self.own.len()));
        self.own = left;
        self.arcs.truncate(walk.shared);
        self.shared = self.arcs.len();
        self.arcs.extend_from_slice(own)?;
        Ok(Some(walk.line))
    }
}
