//! Records that are posted to a day.
use super::{Planned, is_day, made, morning, plans_around};
use crate::tests::asserts::{assert_found, assert_holds};
use crate::tests::days::THREE_FLIGHTS;
use cdm_desk::{DeskDay, DeskReply, RowReply, push_reply};
use cdm_flight::{Role, Update};
use std::alloc::{AllocError, Global};
use std::process::Abort;

/// How many lines each reply of the morning has: its own, and one for each flight that changes. CD4 becomes known, has a
/// runway, and a slot; the closure and the first taxi time move all four, the one from a stand none; the rate moves two, the
/// opening none, and the clock all.
const LINES: [usize; 9] = [2, 1, 2, 5, 5, 1, 3, 1, 5];

/// How many Rows change by each: with a runway CD4 has an EXOT too.
const ROWS: [usize; 9] = [1, 1, 1, 4, 4, 0, 2, 0, 4];

// The reply of a day that is planned like this.
fn posted(
    alloc: Global,
    desk: &mut DeskDay,
    update: (Role, Update),
    before: Planned,
) -> Option<DeskReply> {
    let record = Ok(update);
    let updates = desk.state().journal().len();
    again!(
        desk.post(alloc, &record),
        AllocError,
        is_day(desk.state(), updates, before)
    )
}

// How many lines the text of the reply has.
fn lines(alloc: Global, desk: &DeskDay, reply: &DeskReply) -> Option<usize> {
    let day = *desk.state().day();
    let mut text = String::new(alloc);
    if push_reply(&mut text, day, 7, reply).is_err() {
        text = String::new(alloc);
        push_reply(&mut text, day, 7, reply).ok()?;
    }
    Some(text.lines().count())
}

// How many lines the reply of a day that is planned like this has.
fn lines_posted(
    alloc: Global,
    desk: &mut DeskDay,
    update: (Role, Update),
    before: Planned,
) -> Option<usize> {
    let reply = posted(alloc, desk, update, before)?;
    lines(alloc, desk, &reply)
}

// Asserts that the update at this place of a morning has a reply of so many lines, and that the day then has it.
fn assert_posted(rt: &impl Abort, alloc: Global, desk: &mut DeskDay, place: usize, count: usize) {
    let update = morning(place).expect(rt, "no update");
    let (before, after) = plans_around(place).expect(rt, "no plan");
    let found = lines_posted(alloc, desk, update, before);
    assert_found(rt, found, Some(count), place);
    let updates = place.saturating_add(10);
    assert_holds(rt, is_day(desk.state(), updates, after), place);
}

/// Each record of a morning is answered, the day then has it, and it has a reply of a line for each flight.
#[test]
fn refused_memory_leaves_a_posted_day(rt: HostRuntime) {
    let alloc = rt.alloc();
    let day = made(alloc, &THREE_FLIGHTS).expect(&rt, "no day");
    let mut desk = DeskDay::new(day);
    for (place, count) in LINES.iter().enumerate() {
        assert_posted(&rt, alloc, &mut desk, place, *count);
    }
}

// How many Rows the reply of a day that is planned like this has.
fn rows_posted(
    alloc: Global,
    desk: &mut DeskDay,
    update: (Role, Update),
    before: Planned,
) -> Option<usize> {
    let record = Ok(update);
    let updates = desk.state().journal().len();
    let reply = again!(
        desk.post_rows(alloc, &record),
        AllocError,
        is_day(desk.state(), updates, before)
    )?;
    match &reply {
        RowReply::Accepted(rows) => Some(rows.as_slice().len()),
        RowReply::Refused(_) => None,
    }
}

// Asserts that the update at this place of a morning has a reply of so many Rows, and that the day then has it.
fn assert_rows_posted(
    rt: &impl Abort,
    alloc: Global,
    desk: &mut DeskDay,
    place: usize,
    count: usize,
) {
    let update = morning(place).expect(rt, "no update");
    let (before, after) = plans_around(place).expect(rt, "no plan");
    let found = rows_posted(alloc, desk, update, before);
    assert_found(rt, found, Some(count), place);
    let updates = place.saturating_add(10);
    assert_holds(rt, is_day(desk.state(), updates, after), place);
}

/// Each record of a morning is answered by the changed Rows, and the day then has it.
#[test]
fn refused_memory_leaves_a_day_told_by_rows(rt: HostRuntime) {
    let alloc = rt.alloc();
    let day = made(alloc, &THREE_FLIGHTS).expect(&rt, "no day");
    let mut desk = DeskDay::new(day);
    for (place, count) in ROWS.iter().enumerate() {
        assert_rows_posted(&rt, alloc, &mut desk, place, *count);
    }
}
