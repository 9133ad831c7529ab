ghost use Rattle.std.specs.Prelude.{ℕ, ◌≡◌, ◌≤◌};
ghost use Rattle.ea_travel_times.specs.Answers.{AreInRange};
ghost use Rattle.ea_travel_times.specs.ProfileLists.{IsFifoProfile};

use crate::travel_times::TravelTimes;

/// A caller's box from weight and departure to the arrival.
pub type Arrival = Box<dyn Fn(u64, u64) -> u64 + Send + Sync>;

/// A box from weight and departure to the arrival, kept with its fact: it may be called at each weight and each
/// departure within the horizon, has an arrival there, none before the departure, and none for a later
/// departure that is earlier.
#[derive(Drop)]
pub struct Profile {
    pub arrival: Arrival,
    pub ghost may_ask: { (weight departure : ℕ) → AreInRange weight departure
        → Arrival.pre arrival weight departure },
    pub ghost fifo: { ∥ IsFifoProfile (Arrival.pre arrival) (Arrival.post arrival) ∥₁ },
}

impl Profile {
    /// A profile by a box.
    pub fn new(arrival: Arrival) -> Profile
        requires { IsFifoProfile (Arrival.pre arrival) (Arrival.post arrival) }
        ensures { result.arrival ≡ arrival }
    {
        Profile { arrival }
    }

    /// When an arc of this profile and a weight arrives that is left at a departure.
    pub fn arrive(&self, weight: u64, departure: u64) -> u64
        requires { AreInRange weight departure }
        ensures { Arrival.post self.now.arrival weight departure result }
    {
        (self.arrival)(weight, departure)
    }
}

/// One profile for every arc, whatever its class.
impl TravelTimes for Profile {
    ghost use Rattle.ea_travel_times.specs.ProfileLaws.{profile_is_fifo};

    ghost classes = { λ profile. 4294967295 };

    ghost answers = { λ profile class weight departure arrival.
        ∥ Arrival.post profile.arrival weight departure arrival ∥₁ };

    fn arrive(&self, _class: u32, weight: u64, departure: u64) -> u64 {
        Profile::arrive(self, weight, departure)
    }

    ghost fifo = { λ profile. profile_is_fifo _ _ 4294967295 profile.fifo };
}
