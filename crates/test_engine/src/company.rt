//! Workers that notice together that nothing is left.
use crate::asserts::{assert_none_wrong, assert_that};
use ea_engine::{Company, Flow, Member, Turn, TurnKind};

fn after(member: &mut Member<'_>, number: u64, kind: TurnKind) -> bool {
    after_falls(member, number, kind, 0)
}

/// Whether a worker continues after a turn in which this many labels fell.
fn after_falls(member: &mut Member<'_>, number: u64, kind: TurnKind, lowered: u64) -> bool {
    let turn = Turn {
        number,
        kind,
        node: 0,
        key: 0,
        lowered,
    };
    matches!(member.after(turn), Flow::Go)
}

/// Whether a worker continues after this many turns that found nothing.
fn goes_on(member: &mut Member<'_>, turns: u32) -> bool {
    goes_on_with(member, TurnKind::Empty, 0, u64::from(turns))
}

/// Which of two workers makes turns of a kind, from which number on and how many, and whether it continues
/// after all of them.
type Row = (usize, TurnKind, u64, u64, bool);

/// The first of the rows that goes wrong with two workers of a new company.
fn wrong_row(rows: &[Row]) -> Option<usize> {
    let company = Company::new();
    let mut one = company.member();
    let mut other = company.member();
    for (place, (worker, kind, first, turns, goes)) in rows.iter().enumerate() {
        let went = if *worker == 0 {
            goes_on_with(&mut one, *kind, *first, *turns)
        } else {
            goes_on_with(&mut other, *kind, *first, *turns)
        };
        if went != *goes {
            return Some(place);
        }
    }
    None
}

/// Whether a worker continues after this many turns of a kind.
fn goes_on_with(member: &mut Member<'_>, kind: TurnKind, first: u64, turns: u64) -> bool {
    let mut goes = true;
    for turn in 0..turns {
        goes = goes && after(member, first.wrapping_add(turn), kind);
    }
    goes
}

#[test]
fn nobody_leaves_before_the_first_entry_is_found(rt: HostRuntime) {
    let company = Company::new();
    let mut early = company.member();
    assert_that(&rt, "goes on", goes_on(&mut early, 2_000));
}

/// Short pauses, those of 160 turns, end no worker.
const ALL_LEAVE: [Row; 11] = [
    (0, TurnKind::Scanned, 1, 1, true),
    (1, TurnKind::Empty, 0, 2_000, true),
    (1, TurnKind::Stale, 1, 1, true),
    (0, TurnKind::Empty, 0, 2_000, true),
    (0, TurnKind::Cut, 1, 1, true),
    (1, TurnKind::Empty, 0, 2_000, true),
    (0, TurnKind::Empty, 0, 160, true),
    (1, TurnKind::Empty, 0, 160, true),
    (0, TurnKind::Scanned, 1, 1, true),
    (0, TurnKind::Empty, 0, 2_000, false),
    (1, TurnKind::Empty, 0, 800, false),
];

#[test]
fn all_leave_when_none_is_active(rt: HostRuntime) {
    assert_none_wrong(&rt, wrong_row(&ALL_LEAVE));
}

const REFUSED: [Row; 4] = [
    (0, TurnKind::Scanned, 0, 1, true),
    (1, TurnKind::Empty, 0, 2_000, true),
    (0, TurnKind::Refused, 1, 1, false),
    (1, TurnKind::Empty, 0, 800, false),
];

#[test]
fn a_refused_worker_leaves(rt: HostRuntime) {
    assert_none_wrong(&rt, wrong_row(&REFUSED));
}

/// The visit after which a worker leaves if this many labels fall in each, at most 100,000.
fn visits_of_falls(member: &mut Member<'_>, lowered: u64) -> u64 {
    for number in 0..100_000 {
        if !after_falls(member, number, TurnKind::Scanned, lowered) {
            return number;
        }
    }
    100_000
}

/// Whether a worker leaves after this many visits as expected, after the other found nothing in 160 turns,
/// and whether the other one does.
fn leaves_alone() -> bool {
    let company = Company::new();
    let mut one = company.member();
    let mut other = company.member();
    if !goes_on(&mut other, 160) {
        return false;
    }
    let alone = visits_of_falls(&mut one, 1);
    alone > 10_000 && alone < 100_000 && !goes_on(&mut other, 2_000)
}

/// What other workers do before a worker's visits: whether one scans an entry, and how many turns another makes that find
/// nothing; and how many labels fall in each visit. The worker makes 100,000 visits and continues.
const STAYS: [(bool, u32, u64); 4] = [(true, 0, 1), (false, 0, 1), (false, 160, 0), (true, 160, 1)];

/// Whether the other workers continue after that.
fn others_go_on(company: &Company, scans: bool, turns: u32) -> bool {
    let mut busy = company.member();
    let mut idle = company.member();
    let goes = !scans || after(&mut busy, 0, TurnKind::Scanned);
    goes && goes_on(&mut idle, turns)
}

/// Whether a worker stays in such a case.
fn stays(scans: bool, turns: u32, lowered: u64) -> bool {
    let company = Company::new();
    let mut one = company.member();
    others_go_on(&company, scans, turns) && visits_of_falls(&mut one, lowered) == 100_000
}

/// The index of the first case in which a worker leaves.
fn wrong_stay() -> Option<usize> {
    for (place, (scans, turns, lowered)) in STAYS.iter().enumerate() {
        if !stays(*scans, *turns, *lowered) {
            return Some(place);
        }
    }
    None
}

#[test]
fn a_worker_that_is_long_alone_leaves(rt: HostRuntime) {
    assert_that(&rt, "both leave", leaves_alone());
}

/// No worker leaves while others are active, before others begin, or during visits that lower nothing.
#[test]
fn nobody_else_leaves(rt: HostRuntime) {
    assert_none_wrong(&rt, wrong_stay());
}

/// The visit after which a worker leaves if ten labels fall in each, while another is active; at most 10,000.
fn visits_of_ten_falls(company: &Company) -> u64 {
    let mut one = company.member();
    let mut other = company.member();
    let mut goes = after(&mut other, 1, TurnKind::Scanned);
    for number in 0..10_000 {
        goes = goes && after_falls(&mut one, number, TurnKind::Scanned, 10);
        if !goes {
            return number;
        }
    }
    10_000
}

/// The nodes of a company, and the visit after which a worker leaves. 100 + 50 + 16,384 labels may fall:
/// 16,010 fell after visit 1,600, and 16,650 after visit 1,664. 1,000 + 500 + 16,384: 17,290 fell after visit
/// 1,728, and 17,930 after visit 1,792.
const FALLS: [(u32, u64); 3] = [(100, 1_664), (1_000, 1_792), (1_000_000, 10_000)];

/// The index of the first company whose worker leaves after another number of visits; the number of companies
/// if a worker of a company of unknown size leaves.
fn wrong_falls() -> Option<usize> {
    for (place, (nodes, visits)) in FALLS.iter().enumerate() {
        if visits_of_ten_falls(&Company::on(*nodes)) != *visits {
            return Some(place);
        }
    }
    if visits_of_ten_falls(&Company::new()) != 10_000 {
        return Some(FALLS.len());
    }
    None
}

#[test]
fn workers_leave_where_labels_fall_too_often(rt: HostRuntime) {
    assert_none_wrong(&rt, wrong_falls());
}

/// The number of the visit after which a worker of a company on 100 nodes leaves if a million labels fall in
/// each; 300 if it doesn't.
fn first_look() -> u64 {
    let company = Company::on(100);
    let mut one = company.member();
    for number in 0..300 {
        if !after_falls(&mut one, number, TurnKind::Scanned, 1_000_000) {
            return number;
        }
    }
    300
}

#[test]
fn workers_look_from_turn_256_on(rt: HostRuntime) {
    assert_that(&rt, "visit 256 is the last", first_look() == 256);
}

/// Whether a worker still continues after this many turns that found nothing, after 16,000 before, with
/// another worker active.
fn goes_on_after_waits(company: &Company, turns: u32) -> bool {
    let mut one = company.member();
    let mut other = company.member();
    let mut goes = after(&mut other, 1, TurnKind::Scanned);
    // It is idle from the 128th turn on: 15,873 count.
    goes = goes && goes_on(&mut one, 16_000) && after(&mut one, 1_024, TurnKind::Scanned);
    goes && goes_on(&mut one, turns) && after(&mut one, 1_088, TurnKind::Scanned)
}

#[test]
fn workers_leave_where_they_wait_too_long(rt: HostRuntime) {
    // 16,384 turns may find nothing, and one more for the 2 visits. After 639 more turns 512 more count,
    // after 640 more 513.
    let (goes, leaves) = (Company::on(1_000_000), Company::on(1_000_000));
    assert_that(&rt, "goes on after 639", goes_on_after_waits(&goes, 639));
    assert_that(&rt, "leaves after 640", !goes_on_after_waits(&leaves, 640));
    assert_that(&rt, "goes on", goes_on_after_waits(&Company::new(), 20_000));
}

/// Whether a worker continues that finds an entry after every 127 turns that found nothing, this often, with
/// another worker active.
fn goes_on_after_short_waits(company: &Company, finds: u64) -> bool {
    let mut one = company.member();
    let mut other = company.member();
    let mut goes = after(&mut other, 1, TurnKind::Scanned);
    for find in 0..finds {
        let number = find.wrapping_mul(128);
        goes = goes && goes_on(&mut one, 127) && after(&mut one, number, TurnKind::Stale);
    }
    goes
}

#[test]
fn short_waits_are_no_end(rt: HostRuntime) {
    let company = Company::on(1_000_000);
    assert_that(&rt, "goes on", goes_on_after_short_waits(&company, 1_000));
}
