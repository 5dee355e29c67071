//! Updates that are laid over a day, and scenarios.
use super::{
    PLANS, Planned, UPDATES, is_day, is_planned, is_planned_anew, made, morning, plans_around,
};
use crate::tests::asserts::{assert_found, assert_holds};
use crate::tests::days::THREE_FLIGHTS;
use cdm_day::{DayState, Records, Reply};
use cdm_flight::{Role, Update};
use cdm_phase::{OpenGate, Workers};
use cdm_scenario::{Outcome, Overlay, Scenario, ScenarioFault, ScenarioName, answer, answer_all};
use std::alloc::{AllocError, Global};
use std::process::Abort;
use std::thread::Threads;

// Whether the update is accepted over a day that is planned like this.
fn accepts(alloc: Global, overlay: &mut Overlay, update: &Update, before: Planned) -> bool {
    let accepted = overlay.accepted();
    let replied = again!(
        overlay.apply(alloc, update),
        AllocError,
        overlay.accepted() == accepted && is_planned_anew(alloc, overlay, before)
    );
    replied == Some(Reply::Accepted)
}

// Whether the plan over the day is such a one.
fn is_planned_over(alloc: Global, overlay: &Overlay, wanted: Planned) -> bool {
    match again!(overlay.plan(alloc), AllocError, true) {
        Some(plan) => is_planned(&plan, wanted),
        None => false,
    }
}

// Asserts that the update at this place of a morning is accepted, and that the plan over the day is then that of the place.
fn assert_laid(rt: &impl Abort, alloc: Global, overlay: &mut Overlay, place: usize) {
    let (_, update) = morning(place).expect(rt, "no update");
    let (before, after) = plans_around(place).expect(rt, "no plan");
    assert_holds(rt, accepts(alloc, overlay, &update, before), place);
    assert_holds(rt, is_planned_over(alloc, overlay, after), place);
    assert_holds(rt, is_planned_anew(alloc, overlay, after), place);
}

// Asserts that each update of a morning is laid over the day.
fn assert_all_laid(rt: &impl Abort, alloc: Global, base: &DayState) {
    let mut overlay = Overlay::over(alloc, base);
    for place in 0..UPDATES {
        assert_laid(rt, alloc, &mut overlay, place);
    }
    assert_found(rt, overlay.accepted(), 18, "accepted");
}

/// Each update of a morning is laid over a day, which stays.
#[test]
fn refused_memory_leaves_an_overlay(rt: HostRuntime) {
    let alloc = rt.alloc();
    let base = made(alloc, &THREE_FLIGHTS).expect(&rt, "no day");
    assert_all_laid(&rt, alloc, &base);
    assert_holds(&rt, is_day(&base, 9, PLANS[0]), "the day");
}

// Adds an update to a scenario.
fn add(scenario: &mut Scenario, update: &Update) -> Option<()> {
    let updates = scenario.updates().len();
    again!(
        scenario.add(*update),
        ScenarioFault::Memory,
        scenario.updates().len() == updates
    )
}

// All updates of a morning.
fn whole_morning() -> Option<[(Role, Update); UPDATES]> {
    Some([
        morning(0)?,
        morning(1)?,
        morning(2)?,
        morning(3)?,
        morning(4)?,
        morning(5)?,
        morning(6)?,
        morning(7)?,
        morning(8)?,
    ])
}

// The scenario of a morning's updates.
fn of_morning(alloc: Global) -> Option<Scenario> {
    let mut scenario = Scenario::empty(alloc, ScenarioName::new(b"MORNING")?);
    for (_, update) in &whole_morning()? {
        add(&mut scenario, update)?;
    }
    Some(scenario)
}

// Whether it has the morning's last plan.
fn is_answered(outcome: &Outcome) -> bool {
    match outcome {
        Outcome::Planned(plan, counts) => is_planned(plan, PLANS[9]) && counts.placed == 4,
        Outcome::Refused(_, _) => false,
    }
}

// Whether the scenario is answered by the caller alone.
fn is_answered_alone(alloc: Global, base: &DayState, scenario: &Scenario) -> bool {
    match again!(
        answer(alloc, base, scenario),
        AllocError,
        is_day(base, 9, PLANS[0])
    ) {
        Some(outcome) => is_answered(&outcome),
        None => false,
    }
}

// Whether both outcomes have it.
fn are_answered(outcomes: &[Outcome]) -> bool {
    match outcomes {
        [first, second] => is_answered(first) && is_answered(second),
        _ => false,
    }
}

// Whether both scenarios are answered by so many workers.
fn are_answered_by<R: Threads + Sync>(
    rt: &R,
    alloc: Global,
    base: &DayState,
    scenarios: &[Scenario],
    workers: Workers,
) -> bool {
    match again!(
        answer_all(rt, alloc, base, scenarios, workers, &OpenGate),
        AllocError,
        is_day(base, 9, PLANS[0])
    ) {
        Some(outcomes) => are_answered(&outcomes),
        None => false,
    }
}

// Asserts that the scenario is answered by the caller alone, and each of two scenarios by two workers.
fn assert_answered<R: Threads + Sync + Abort>(
    rt: &R,
    alloc: Global,
    base: &DayState,
    scenarios: &[Scenario; 2],
) {
    let alone = is_answered_alone(alloc, base, &scenarios[0]);
    assert_holds(rt, alone, "alone");
    let workers = Workers::new(2).expect(rt, "no workers");
    let both = are_answered_by(rt, alloc, base, scenarios, workers);
    assert_holds(rt, both, "two workers");
}

// Two scenarios of a morning's updates.
fn two_of_morning(alloc: Global) -> Option<[Scenario; 2]> {
    let first = of_morning(alloc)?;
    Some([first, of_morning(alloc)?])
}

/// A scenario takes each update of a morning, and is answered over a day, which stays.
#[test]
fn refused_memory_leaves_a_scenario(rt: HostRuntime) {
    let alloc = rt.alloc();
    let base = made(alloc, &THREE_FLIGHTS).expect(&rt, "no day");
    let scenarios = two_of_morning(alloc).expect(&rt, "no scenario");
    assert_answered(&rt, alloc, &base, &scenarios);
    assert_holds(&rt, is_day(&base, 9, PLANS[0]), "the day");
}
