// A seat at a label table.
ghost use Rattle.std.specs.Prelude.{◌≡◌};

use crate::record::SeatRecord;
use atomic_table::Seat;
use std::marker::{Model, PhantomData};

/// The right to step on one label table. In contracts it is the identity of the table and the seat's record.
#[derive(Drop)]
pub struct LabelSeat<K> {
    pub(crate) shares: u32,
    pub(crate) seat: Seat<(), SeatRecord>,
    pub(crate) known: PhantomData<K>,
}

impl<K> Model for LabelSeat<K> {
    ghost use Rattle.std.specs.Prelude.{◌≡◌, ◌≤◌, []};
    ghost use Rattle.ea_base.specs.declared.limits.TheConstants.{SHARES};
    ghost use Rattle.ea_labels.specs.Core.{SeatView};

    ghost Value = { SeatView };

    ghost view = { λ s. record { table = s.seat.table_id; history = s.seat.me.0 } };

    ghost invariant = { λ s. (s.seat.me.0.shares ≡ s.shares) × (s.seat.me.1 ≡ [])
        × (1 ≤ s.shares) × (s.shares ≤ SHARES) };
}

impl<K> LabelSeat<K> {
    /// How many of the table's 64 shares the seat has, at least 1.
    pub fn shares(&self) -> u32
        ensures { result ≡ self.now.history.shares }
    {
        self.shares
    }
}
