//! Days, and their plans.
use super::{
    PLANS, Planned, UPDATES, is_day, is_planned, is_planned_anew, made, morning, plans_around,
};
use crate::tests::asserts::{assert_found, assert_holds};
use crate::tests::days::THREE_FLIGHTS;
use cdm_day::{DayState, Reply};
use cdm_flight::{Role, Update};
use cdm_phase::{OpenGate, Workers};
use std::alloc::{AllocError, Global};
use std::process::Abort;
use std::thread::Threads;

// The reply to an update that so many workers plan, or the caller alone.
fn reply<R: Threads + Sync>(
    rt: &R,
    alloc: Global,
    day: &mut DayState,
    update: &(Role, Update),
    count: usize,
) -> Result<Option<Reply>, AllocError> {
    let batch = [*update];
    let replied = match Workers::new(count) {
        Some(workers) => day.apply_all(rt, alloc, &batch, workers, &OpenGate),
        None => day.apply(alloc, &batch),
    };
    Ok(replied?.first().copied())
}

// Whether the day, planned like this, accepts the update.
fn accepts<R: Threads + Sync>(
    rt: &R,
    alloc: Global,
    day: &mut DayState,
    update: &(Role, Update),
    count: usize,
    before: Planned,
) -> bool {
    let updates = day.journal().len();
    let replied = again!(
        reply(rt, alloc, day, update, count),
        AllocError,
        is_day(day, updates, before)
    );
    replied == Some(Some(Reply::Accepted))
}

// Whether a copy of the day's plan is such a one.
fn is_copied(alloc: Global, day: &DayState, wanted: Planned) -> bool {
    let plan = day.plan();
    match again!(plan.copy(alloc), AllocError, is_planned(plan, wanted)) {
        Some(copied) => is_planned(&copied, wanted),
        None => false,
    }
}

// The whole day after the morning once more.
fn copied(alloc: Global, day: &DayState) -> Option<DayState> {
    again!(day.copy(alloc), AllocError, is_day(day, 18, PLANS[9]))
}

// Whether it is alike.
fn is_copied_whole(alloc: Global, day: &DayState) -> bool {
    match copied(alloc, day) {
        Some(copied) => is_day(&copied, 18, PLANS[9]),
        None => false,
    }
}

// Whether the airport that it shares is its own.
fn shares_airport(day: &DayState) -> bool {
    match again!(day.share_airport(), AllocError, true) {
        Some(airport) => airport.is_same(day.airport()),
        None => false,
    }
}

// How many updates the journal that it shares has.
fn shared_updates(day: &DayState) -> Option<usize> {
    let journal = again!(day.share_journal(), AllocError, true)?;
    Some(journal.len())
}

// Asserts that the day has so many updates, and is planned like this, also anew and in a copy.
fn assert_day(rt: &impl Abort, alloc: Global, day: &DayState, updates: usize, after: Planned) {
    assert_holds(rt, is_day(day, updates, after), (updates, "the day"));
    assert_holds(rt, is_planned_anew(alloc, day, after), (updates, "anew"));
    assert_holds(rt, is_copied(alloc, day, after), (updates, "a copy"));
}

// Asserts that the day takes each update of a morning by so many workers, or alone.
fn assert_takes_all<R: Threads + Sync + Abort>(
    rt: &R,
    alloc: Global,
    day: &mut DayState,
    count: usize,
) {
    for place in 0..UPDATES {
        let update = morning(place).expect(rt, "no update");
        let (before, after) = plans_around(place).expect(rt, "no plan");
        let accepted = accepts(rt, alloc, day, &update, count, before);
        assert_holds(rt, accepted, (place, count));
        assert_day(rt, alloc, day, 10 + place, after);
    }
}

// Asserts that a day takes each update of a morning by so many workers, or alone, and what it then shares.
fn assert_day_taken<R: Threads + Sync + Abort>(rt: &R, alloc: Global, count: usize) {
    let mut day = made(alloc, &THREE_FLIGHTS).expect(rt, "no day");
    assert_takes_all(rt, alloc, &mut day, count);
    assert_holds(rt, is_copied_whole(alloc, &day), (count, "a copy"));
    assert_holds(rt, shares_airport(&day), (count, "the airport"));
    assert_found(rt, shared_updates(&day), Some(18), count);
}

/// A day takes each update of a morning, alone and by two workers; its plan made anew and a copy of it are alike.
#[test]
fn refused_memory_leaves_a_day(rt: HostRuntime) {
    assert_day_taken(&rt, rt.alloc(), 0);
    assert_day_taken(&rt, rt.alloc(), 2);
}
