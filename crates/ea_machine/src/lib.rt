//! Lemmas on the machines of shared tables: totals over members, places of lists, runs of events.
#![tactic(auto)]

ghost use Rattle.std.specs.Prelude.{◌≡◌, ℕ, ◌+◌, ◌<◌, List, length, slice_set, slice_index_or};
ghost use Rattle.ea_machine.specs.Totals.{total};

/// If one place of a list changes, its total changes by that member alone.
pub fn totals_follow_places<T>()
    ensures { (weight : T → ℕ) (members : List T) (place : ℕ) (new : T) → place < length members
        → total weight (slice_set members place new) + weight (slice_index_or members place new)
        ≡ total weight members + weight new }
{}
