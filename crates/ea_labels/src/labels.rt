// The label table.
ghost use Rattle.std.specs.Prelude.{◌≡◌, ◌≤◌, ◌⊎◌, ℕ, All, [], ◌∷◌, vec_len, IfOk};
ghost use Rattle.ea_road.specs.Roads.{IsNode};
ghost use Rattle.ea_road.specs.Labels.{label_of};
ghost use Rattle.ea_labels.specs.Core.{IsLawful, IsAtMostBounds, IsNoneOrKnown, HasLowered};
ghost use Rattle.ea_labels.specs.Core.{seen, first_record, with_one_share_less, with_one_share, joined};
ghost use Rattle.ea_labels.specs.Events.{IsRunEnd};
ghost use Rattle.ea_labels.specs.Offers.{IfKept, IfLowered, Keeps, LowersWord};

use crate::offered::Offered;
use crate::record::SeatRecord;
use crate::rules::{AllShares, CountsShares, LabelRule, Loads, Lowers, OneShare};
use crate::seat::LabelSeat;
use crate::{OutOfMemory, SHARES};
use atomic_table::Table;
use ea_road::{Known, NONE};
use std::alloc::{Allocator, Global};
use std::marker::{Model, PhantomData};

/// One word for each node, which only falls. Threads share it by reference, each with its seat.
#[derive(Drop)]
pub struct Labels<K: Known, A: Allocator = Global> {
    nodes: u32,
    // The vector that `close` returns, so that it takes no memory.
    kept: Vec<u64, A>,
    table: Table<(), SeatRecord, u32, LabelRule<K>, A>,
}

impl<K: Known, A: Allocator> Model for Labels<K, A> {
    ghost use Rattle.std.specs.Prelude.{◌≡◌, ◌+◌, vec_len};
    ghost use Rattle.ea_labels.specs.Core.{TableView};

    ghost Value = { TableView };

    ghost view = { λ t. record { table = t.table.shared.table_id; nodes = t.nodes } };

    ghost invariant = { λ t. (t.table.shared.table_id.words ≡ t.nodes + 1) × (t.table.shared.table_id.slots ≡ 0)
        × (t.table.shared.key ≡ t.nodes) × (vec_len t.kept ≡ t.nodes) };
}

impl<K: Known, A: Allocator + Copy> Labels<K, A> {
    /// A table of this many nodes, numbered from 1, without labels, and its first seat, which has all 64
    /// shares. Reserves the memory for `close` too; no other call takes any. Fails only if memory is refused.
    pub fn open(alloc: A, nodes: u32) -> Result<(Labels<K, A>, LabelSeat<K>), OutOfMemory>
        ensures nodes { IfOk result (λ r. r.0.nodes ≡ nodes) }
        ensures seat { IfOk result (λ r. (r.1.table ≡ r.0.table) × (r.1.history ≡ first_record)) }
    {
        let mut kept = Vec::from_elem(alloc, NONE, nodes as usize + 1)?;
        let (table, seat) = Table::of_words(alloc, kept.as_slice(), &nodes)?;
        kept.truncate(nodes as usize);
        let seat = LabelSeat {
            shares: SHARES,
            seat,
            known: PhantomData,
        };
        Ok((Labels { nodes, kept, table }, seat))
    }
}

impl<K: Known, A: Allocator> Labels<K, A> {
    /// The word of a node: NONE or a known time, at most what this seat saw before. If the seat has all
    /// shares, it is NONE or one of its lowerings.
    pub fn read(&self, seat: &mut LabelSeat<K>, node: u32) -> u64
        requires same_table { seat.old.table ≡ self.now.table }
        requires node { IsNode self.now.nodes node }
        ensures same_table { seat.new.table ≡ seat.old.table }
        ensures value { IsNoneOrKnown K.is_known node result }
        ensures least { IsAtMostBounds seat.old.history node result }
        ensures gains { seat.new.history ≡ seen seat.old.history node result }
        ensures alone { seat.old.history.shares ≡ SHARES
            → (result ≡ NONE) ⊎ HasLowered seat.old.history node result }
    {
        self.table
            .shared
            .load::<Loads<K>>(&mut seat.seat, node as usize)
    }

    /// Lowers the word of a node to the time if the word is above it, in one atomic step. The pair has to be
    /// known, so the time is at most HORIZON. If the seat has all shares, a word that stays is one of its
    /// lowerings.
    pub fn offer(&self, seat: &mut LabelSeat<K>, node: u32, time: u64) -> Offered
        requires same_table { seat.old.table ≡ self.now.table }
        requires node { IsNode self.now.nodes node }
        requires known { K.is_known node time }
        ensures same_table { seat.new.table ≡ seat.old.table }
        ensures lowered { IfLowered result
            (LowersWord K.is_known seat.old.history node time seat.new.history) }
        ensures kept { IfKept result
            (λ old. Keeps K.is_known seat.old.history node time old seat.new.history) }
        ensures alone { seat.old.history.shares ≡ SHARES
            → IfKept result (λ old. HasLowered seat.old.history node old) }
        ensures same_shares { seat.new.history.shares ≡ seat.old.history.shares }
    {
        let found = self
            .table
            .shared
            .fetch_min::<Lowers<K>>(&mut seat.seat, node as usize, time);
        if time < found {
            Offered::Lowered
        } else {
            Offered::Kept(found)
        }
    }

    /// Moves one share to a new seat, which has the same bounds and no lowering. The seat needs at least two.
    pub fn split(&self, seat: &mut LabelSeat<K>) -> LabelSeat<K>
        requires same_table { seat.old.table ≡ self.now.table }
        requires shares { 2 ≤ seat.old.history.shares }
        ensures same_table { (seat.new.table ≡ seat.old.table) × (result.table ≡ seat.old.table) }
        ensures gives { seat.new.history ≡ with_one_share_less seat.old.history }
        ensures new_seat { result.history ≡ with_one_share seat.old.history }
    {
        let other = self.table.shared.split_seat::<OneShare>(&mut seat.seat);
        seat.shares -= 1;
        LabelSeat {
            shares: 1,
            seat: other,
            known: PhantomData,
        }
    }

    /// Adds the other seat's shares, bounds and lowerings.
    pub fn join(&self, seat: &mut LabelSeat<K>, other: LabelSeat<K>)
        requires same_table { seat.old.table ≡ self.now.table }
        requires other_same_table { other.table ≡ self.now.table }
        ensures same_table { seat.new.table ≡ seat.old.table }
        ensures gains { seat.new.history ≡ joined seat.old.history other.history }
    {
        let LabelSeat {
            shares,
            seat: other,
            known: _,
        } = other;
        let shared = &self.table.shared;
        shared.join_seat::<AllShares>(&mut seat.seat, other);
        shared.load::<CountsShares>(&mut seat.seat, 0);
        seat.shares += shares;
    }

    /// The word of each node v, at index v - 1. The seat has all 64 shares, so no other seat is live.
    pub fn close(self, seat: LabelSeat<K>) -> Vec<u64, A>
        requires same_table { seat.table ≡ self.table }
        requires all_shares { seat.history.shares ≡ SHARES }
        ensures len { vec_len result ≡ self.nodes }
        ensures known { (node : ℕ) → IsNode self.nodes node
            → IsNoneOrKnown K.is_known node (label_of result.items node) }
        ensures least { All (λ b. label_of result.items b.node ≤ b.time) seat.history.bounds }
        ensures lowered_to { (node : ℕ) → IsNode self.nodes node
            → (label_of result.items node ≡ NONE)
            ⊎ HasLowered seat.history node (label_of result.items node) }
        ensures lawful { IsLawful K.is_known self.nodes result.items (seat.history ∷ []) }
        ensures run { IsRunEnd K.is_known self.nodes result.items seat.history }
    {
        let Labels {
            nodes: _,
            mut kept,
            table,
        } = self;
        let LabelSeat {
            shares: _,
            seat,
            known: _,
        } = seat;
        let closed = table.close_with(seat);
        for place in 0..kept.len() {
            kept[place] = closed.word(place + 1);
        }
        closed.free();
        kept
    }
}
