ghost use Rattle.std.specs.Prelude.{◌≡◌, ◌≤◌, ◌<◌, ◌^◌, ◌++◌, ◌∷◌, [], length, MatchResult, OnErr, vec_len};
ghost use Rattle.std.specs.Vec.{vec_capacity};
ghost use Rattle.ea_travel_times.specs.ProfileLists.{ListAnswers};
ghost use Rattle.ea_travel_times.specs.Answers.{IsQuestion};

use crate::profile::{Arrival, Profile};
use crate::travel_times::TravelTimes;
use std::alloc::{AllocError, Global};

/// Profiles by their classes: class 0 is plain, class J is the J-th that was pushed.
#[derive(Drop)]
pub struct ProfileList {
    pub profiles: Vec<Profile>,
}

impl ProfileList {
    /// No profile but the plain one.
    pub fn new(alloc: Global) -> ProfileList
        ensures { result.profiles.items ≡ [] }
    {
        ProfileList {
            profiles: Vec::new(alloc),
        }
    }

    /// Puts a profile at the end. If memory is refused it comes back, and the list is as before; that is only if the list
    /// has to grow.
    pub fn push(&mut self, profile: Profile) -> Result<(), (Profile, AllocError)>
        ensures pushed { MatchResult result
            (λ _. self.new.profiles.items ≡ self.old.profiles.items ++ profile ∷ [])
            (λ refused. (refused.0 ≡ profile)
            × (self.new.profiles.items ≡ self.old.profiles.items)) }
        ensures full { OnErr result (vec_capacity self.old.profiles ≤ vec_len self.old.profiles) }
    {
        match self.profiles.push(profile) {
            Ok(()) => Ok(()),
            Err(refused) => Err((refused.value, AllocError)),
        }
    }

    /// How many profiles were pushed: the greatest class.
    pub fn len(&self) -> usize
        ensures { result ≡ length self.now.profiles.items }
    {
        self.profiles.len()
    }

    /// When an arc of a class and a weight arrives that is left at a departure.
    pub fn arrive(&self, class: u32, weight: u64, departure: u64) -> u64
        requires { IsQuestion (length self.now.profiles.items) class weight departure }
        ensures answer { ListAnswers (λ profile. Arrival.post profile.arrival)
            self.now.profiles.items class weight departure result }
        ensures not_before { departure ≤ result }
    {
        if class == 0 {
            departure + weight
        } else {
            let profile = &self.profiles[class as usize - 1];
            profile.arrive(weight, departure)
        }
    }
}

impl TravelTimes for ProfileList {
    ghost use Rattle.std.specs.Prelude.{length};
    ghost use Rattle.ea_travel_times.specs.ProfileLists.{ListAnswers};
    ghost use Rattle.ea_travel_times.specs.ProfileLaws.{profiles_are_fifo};

    ghost classes = { λ list. length list.profiles.items };

    ghost answers = { λ list class weight departure arrival.
        ListAnswers (λ profile. Arrival.post profile.arrival)
        list.profiles.items class weight departure arrival };

    fn arrive(&self, class: u32, weight: u64, departure: u64) -> u64 {
        ProfileList::arrive(self, class, weight, departure)
    }

    ghost fifo = { λ list. profiles_are_fifo _ _ (λ profile. profile.fifo) list.profiles.items };
}
