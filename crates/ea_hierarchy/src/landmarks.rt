//! How far apart two ranks are at least, by their travel times to a few that are far from one another.
use crate::customize::Numbers;
use crate::numbers::{NONE, number_at, plus};
use crate::upward::Upward;
use std::alloc::{AllocError, Global};

/// How many landmarks there are.
const LANDMARKS: usize = 3;

/// No walk to a landmark.
const NO_WALK: u16 = u16::MAX;

/// The greatest time to a landmark: longer ones count as this.
const LONGEST: u16 = u16::MAX - 1;

/// Least travel times from each rank to some landmarks, which are ranks far from one another (Goldberg and
/// Harrelson, 2005). They are hints: no answer rests on them.
#[derive(Drop)]
pub(crate) struct Landmarks {
    alloc: Global,
    /// What times are counted in.
    unit: u32,
    /// Those from a rank side by side, rank after rank.
    times: Vec<u16>,
}

/// The unit in which times have 16 bits if the longest is at most twice as long as one of these.
fn unit_of(times: &[u32]) -> u32 {
    let mut longest = 0;
    for time in times {
        if *time < NONE {
            longest = longest.max(*time);
        }
    }
    longest / u32::from(LONGEST / 2) + 1
}

/// A time in whole units.
fn in_units(time: u32, unit: u32) -> u16 {
    if time == NONE {
        return NO_WALK;
    }
    let units = time.checked_div(unit).unwrap_or(0);
    units.min(u32::from(LONGEST)) as u16
}

/// Lowers the number at a place of a list.
fn lower(list: &mut [u32], place: usize, number: u32) {
    if let Some(slot) = list.get_mut(place) {
        *slot = number.min(*slot);
    }
}

/// Lowers the times from the heads of a rank's arcs by walks down to this rank.
fn pass_up(upward: &Upward, downs: &[u32], rank: usize, times: &mut [u32]) {
    let time = number_at(times, rank);
    if time == NONE {
        return;
    }
    let begin = number_at(&upward.firsts, rank) as usize;
    let end = number_at(&upward.firsts, rank.saturating_add(1)) as usize;
    for place in begin..end {
        let head = number_at(&upward.heads, place) as usize;
        lower(times, head, plus(number_at(downs, place), time));
    }
}

/// Lowers the time from a rank by walks up to the heads of its arcs.
fn pass_down(upward: &Upward, ups: &[u32], rank: usize, times: &mut [u32]) {
    let begin = number_at(&upward.firsts, rank) as usize;
    let end = number_at(&upward.firsts, rank.saturating_add(1)) as usize;
    let mut least = number_at(times, rank);
    for place in begin..end {
        let head = number_at(&upward.heads, place) as usize;
        least = least.min(plus(number_at(ups, place), number_at(times, head)));
    }
    lower(times, rank, least);
}

/// The least travel times from all ranks to a landmark.
fn times_to(
    alloc: Global,
    upward: &Upward,
    numbers: &Numbers,
    landmark: usize,
) -> Result<Vec<u32>, AllocError> {
    let ranks = upward.parents.len();
    let mut times = vec![in alloc; NONE; ranks]?;
    lower(&mut times, landmark, 0);
    for rank in landmark..ranks {
        pass_up(upward, &numbers.downs, rank, &mut times);
    }
    for below in 0..ranks {
        let rank = ranks.saturating_sub(below).saturating_sub(1);
        pass_down(upward, &numbers.ups, rank, &mut times);
    }
    Ok(times)
}

/// The place of the greatest number of a list but `NONE`; 0 if there is none.
fn farthest(times: &[u32]) -> usize {
    let mut greatest = 0;
    let mut found = 0;
    for place in 0..times.len() {
        let time = times[place];
        if greatest < time && time < NONE {
            greatest = time;
            found = place;
        }
    }
    found
}

impl Landmarks {
    /// No landmarks.
    pub(crate) fn none(alloc: Global) -> Landmarks {
        Landmarks {
            alloc,
            unit: 1,
            times: Vec::new(alloc),
        }
    }

    /// Takes up the times to one of the landmarks.
    fn take_up(&mut self, number: usize, times: &[u32]) {
        for rank in 0..times.len() {
            let place = rank.saturating_mul(LANDMARKS).saturating_add(number);
            if let Some(slot) = self.times.get_mut(place) {
                *slot = in_units(times[rank], self.unit);
            }
        }
    }

    /// Chooses landmarks, each as far as possible from those before and from the last rank, and finds the times to
    /// them. Takes time in proportion to the upward arcs. If memory is refused, there are fewer or none.
    pub(crate) fn fill(&mut self, upward: &Upward, numbers: &Numbers) -> Result<(), AllocError> {
        let ranks = upward.parents.len();
        self.times.clear();
        let mut nearest = times_to(self.alloc, upward, numbers, ranks.saturating_sub(1))?;
        self.times.resize(ranks.saturating_mul(LANDMARKS), NO_WALK)?;
        for number in 0..LANDMARKS {
            let landmark = farthest(&nearest);
            let times = times_to(self.alloc, upward, numbers, landmark)?;
            if number == 0 {
                self.unit = unit_of(&times);
            }
            self.take_up(number, &times);
            for rank in 0..times.len() {
                lower(&mut nearest, rank, times[rank]);
            }
        }
        Ok(())
    }

    /// The time from a rank to a landmark, in units; `NO_WALK` if it isn't known.
    fn units(&self, rank: u32, number: usize) -> u16 {
        let place = (rank as usize).saturating_mul(LANDMARKS);
        match self.times.get(place.saturating_add(number)) {
            Some(units) => *units,
            None => NO_WALK,
        }
    }

    /// How far apart two ranks are at least, if all arcs take as long in both directions; 0 if it isn't known. Two units or less are lost by
    /// rounding.
    pub(crate) fn apart(&self, rank: u32, other: u32) -> u32 {
        let mut apart = 0;
        for number in 0..LANDMARKS {
            let units = self.units(rank, number);
            let other_units = self.units(other, number);
            if units < NO_WALK && other_units < NO_WALK {
                apart = apart.max(units.abs_diff(other_units));
            }
        }
        // Each time is at most one unit less one longer than its whole units.
        u32::from(apart)
            .saturating_mul(self.unit)
            .saturating_sub(self.unit.saturating_sub(1))
    }
}
