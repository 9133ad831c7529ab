// Each allocation of travel times, refused in turn.
ghost use Rattle.std.specs.Prelude.{◌≡◌, ◌<◌, ◌≤◌, ◌+◌, ◌%◌, ◌^◌};

use crate::asserts::assert_that;
use crate::refused::given::fared;
use ea_base::RawKind;
use ea_travel_times::{Profile, ProfileList, Timetables};
use std::alloc::{AllocError, Global};
use std::test::Fail;
use test_support::memory::{Held, pieces};
use test_support::tally::Tally;

/// Whether three classes that leave every 10 have these arrivals.
fn are_whole(times: &Timetables) -> bool {
    times.classes() == 3 && times.arrive(0, 3, 1) == 4 && times.arrive(3, 3, 1) == 13
}

/// Whether travel times that are made with such a piece left are whole; none if they were refused.
fn are_made(alloc: Global, small: &mut Held, piece: Vec<u8>) -> Option<bool> {
    let every = RawKind::Every {
        period: 10,
        offset: 0,
    };
    small.leave(piece);
    let answer = Timetables::of(alloc, &[every, every, every]);
    small.release();
    match answer {
        Ok(times) => Some(are_whole(&times)),
        Err(_) => None,
    }
}

/// How travel times fare with ever more memory.
fn fare_with_timetables(alloc: Global) -> Result<Tally, AllocError> {
    let mut tally = Tally::new();
    let mut small = Held::new(alloc, 20_000)?;
    let pieces = pieces(alloc, 0, 16, 32)?;
    let mut large = Held::of_large(alloc, 1)?;
    for piece in pieces {
        tally.note(are_made(alloc, &mut small, piece), true);
    }
    large.release();
    Ok(tally)
}

#[test]
fn timetables_are_refused_or_whole(rt: HostRuntime) -> Result<(), Fail> {
    let tally = fare_with_timetables(rt.alloc())?;
    assert_that(&rt, "the tally", fared(tally, 1, 2));
    Ok(())
}

/// Whether the list has this many profiles, each of which arrives one later than the one before for weight 3
/// and departure 4.
fn has_profiles(list: &ProfileList, count: u32) -> bool {
    let mut right = list.len() == count as usize;
    for class in 1..33u32 {
        if class <= count && class as usize <= list.len() {
            right &= list.arrive(class, 3, 4) == 7 + u64::from(class);
        }
    }
    right
}

/// Pushes a class's profile without memory, and again if it is returned. Whether it and the list were
/// unchanged then; none if the first push succeeds.
fn comes_back(
    list: &mut ProfileList,
    class: u32,
    profile: Profile,
    small: &mut Held,
) -> Option<bool>
    requires { (0 < class) × (class < 13) }
{
    small.take_all();
    let answer = list.push(profile);
    small.release();
    let Err((profile, _)) = answer else {
        return None;
    };
    let arrives = profile.arrive(3, 4) == 7 + u64::from(class);
    let stays = has_profiles(list, class - 1);
    Some(list.push(profile).is_ok() && arrives && stays)
}

/// How many of twelve profiles are returned first, each of which arrives one later than the one before, and
/// whether the list has all up to each one afterwards.
fn fare_with_profiles(alloc: Global) -> Result<(u32, bool), AllocError> {
    let (mut back, mut right) = (0u32, true);
    let mut list = ProfileList::new(alloc);
    let mut small = Held::new(alloc, 20_000)?;
    let mut large = Held::of_large(alloc, 1)?;
    for class in 1..13u32 {
        let arrival: Box<dyn Fn(u64, u64) -> u64 + Send + Sync> = Box::new(
            alloc,
            move |weight: u64, departure: u64| -> u64
                requires { departure + weight + 32 ≤ 2 ^ 64 }
                ensures { result ≡ departure + weight + class % 32 }
            { departure + weight + u64::from(class % 32) },
        )?;
        if let Some(same) = comes_back(&mut list, class, Profile::new(arrival), &mut small) {
            back = back.wrapping_add(1);
            right &= same;
        }
        right &= has_profiles(&list, class);
    }
    large.release();
    Ok((back, right))
}

#[test]
fn profile_comes_back_or_is_pushed(rt: HostRuntime) -> Result<(), Fail> {
    let (refused, right) = fare_with_profiles(rt.alloc())?;
    assert_that(&rt, "the list", right);
    assert_that(&rt, "how many come back", 2 <= refused && refused < 12);
    Ok(())
}
