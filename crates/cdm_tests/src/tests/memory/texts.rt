//! Texts of a day.
use super::{PLANS, is_day, made};
use crate::tests::asserts::{assert_found, assert_holds};
use crate::tests::days::THREE_FLIGHTS;
use cdm_day::DayState;
use cdm_flight::{FlightName, RefusalWord};
use cdm_report::{delta_text, indicators, refused_text, report_text};
use cdm_view::{Question, Standings, ViewFault, answer};
use std::alloc::{AllocError, Global};
use std::process::Abort;

const REPORT: &str = "\
DAY 2025-03-10 NOW 100000
RUNWAY 27L
AB1     100600   15 ------ 100600 100615 P    0
AB2     100600   15 ------ 100600 100615 P    0
AB3     100600   15 ------ 100605 100620 P    5
TOTAL PLACED 3 DELAY 5 MAX 5 LATE 0 BLOCKED 0
REFUSED 7 EXISTS
REFUSED 1000 FULL
";

/// From a day without flights.
const DELTA: &str = "DELTA PLACED +3 DELAY +5 MAX +5 LATE +0 BLOCKED +0\n";

const WHY: &str = "\
DAY 2025-03-10 NOW 100000
FLIGHT AB3 RUNWAY 27L STAND - PRIORITY 5 GROUP M
TOBT 100600 ICE NONE 0 EXOT 15 CTOT ------
WAIT 100615 100619 RATE 2 AB1 AB2
TSAT 100605 TTOT 100620 DELAY 5
";

const LOAD: &str = "\
DAY 2025-03-10 NOW 100000
RUNWAY 27L CELL 10
100610  2/2  CLOSED  0 AB1 AB2
100620  1/2  CLOSED  0 AB3
";

// Whether it is this text.
fn is_text(found: Option<Vec<u8>>, wanted: &str) -> bool {
    match found {
        Some(text) => text.as_slice() == wanted.as_bytes(),
        None => false,
    }
}

// The line of a refused record.
fn line(alloc: Global) -> Option<Vec<u8>> {
    again!(
        refused_text(alloc, 7, RefusalWord::Exists),
        AllocError,
        true
    )
}

// The report of a day with two refused records.
fn reported(alloc: Global, state: &DayState) -> Result<Vec<u8>, AllocError> {
    let refused = [(7, RefusalWord::Exists), (1000, RefusalWord::Full)];
    report_text(alloc, state.day(), state.plan(), &refused)
}

// The report of a day.
fn report(alloc: Global, state: &DayState) -> Option<Vec<u8>> {
    again!(reported(alloc, state), AllocError, true)
}

// The growth from a day without flights.
fn growth(alloc: Global, state: &DayState) -> Option<Vec<u8>> {
    let empty = made(alloc, &[])?;
    let base = indicators(empty.plan());
    let counts = indicators(state.plan());
    again!(delta_text(alloc, &base, &counts), AllocError, true)
}

// What a question is answered.
fn answered(alloc: Global, state: &DayState, question: &Question) -> Option<Vec<u8>> {
    let airport = state.airport();
    let plan = state.plan();
    again!(
        answer(alloc, airport, state, plan, *question),
        ViewFault::Memory,
        true
    )
}

// Asserts that the question has this answer.
fn assert_answered(
    rt: &impl Abort,
    alloc: Global,
    state: &DayState,
    question: Question,
    wanted: &str,
) {
    let found = answered(alloc, state, &question);
    assert_holds(rt, is_text(found, wanted), wanted);
}

// How many standings the day has, and how many of them stand otherwise before.
fn standings(alloc: Global, state: &DayState) -> Option<(usize, usize)> {
    let day = state.day();
    let plan = state.plan();
    let all = again!(Standings::of(alloc, state, plan), AllocError, true)?;
    let none = again!(all.changes(alloc, day, &all), AllocError, true)?;
    Some((all.as_slice().len(), none.len()))
}

/// The report of a day, a growth, the line of a refused record, and what holds a flight.
#[test]
fn refused_memory_in_texts(rt: HostRuntime) {
    let alloc = rt.alloc();
    let why = Question::Why(FlightName::new(b"AB3").expect(&rt, "no name"));
    assert_holds(&rt, is_text(line(alloc), "REFUSED 7 EXISTS\n"), "a line");
    let state = made(alloc, &THREE_FLIGHTS).expect(&rt, "no day");
    assert_holds(&rt, is_text(report(alloc, &state), REPORT), "a report");
    assert_holds(&rt, is_text(growth(alloc, &state), DELTA), "a growth");
    assert_answered(&rt, alloc, &state, why, WHY);
    assert_answered(&rt, alloc, &state, Question::Load(None), LOAD);
    assert_found(&rt, standings(alloc, &state), Some((3, 0)), "standings");
    assert_holds(&rt, is_day(&state, 9, PLANS[0]), "the day");
}
