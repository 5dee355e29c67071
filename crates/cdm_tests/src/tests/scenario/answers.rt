//! What becomes of a day by scenarios, by one worker and by many.
use super::meeting::Meeting;
use crate::tests::asserts::assert_found;
use crate::tests::days::{THREE_FLIGHTS, closed, day_of};
use cdm_flight::Update;
use cdm_phase::Workers;
use cdm_scenario::{Scenario, ScenarioName, answer_all};
use std::alloc::Global;
use std::thread::Threads;

// The question what becomes of a day by the update.
fn question(alloc: Global, name: &[u8], update: &Update) -> Option<Scenario> {
    let mut scenario = Scenario::empty(alloc, ScenarioName::new(name)?);
    scenario.add(*update).ok()?;
    Some(scenario)
}

// Whether one of the workers who answer two scenarios went on alone.
fn is_missed<R: Threads + Sync>(rt: &R, alloc: Global, count: usize, turns: usize) -> Option<bool> {
    let base = day_of(alloc, &THREE_FLIGHTS)?;
    let update = closed()?;
    let scenarios = [
        question(alloc, b"SHUT", &update)?,
        question(alloc, b"SHUT2", &update)?,
    ];
    let workers = Workers::new(count)?;
    let gate = Meeting::new(turns);
    answer_all(rt, alloc, &base, &scenarios, workers, &gate).ok()?;
    Some(gate.is_missed())
}

/// Two workers or more meet at the two scenarios, and one goes on alone.
#[test]
fn scenarios_are_answered_side_by_side(rt: HostRuntime) {
    for (count, turns) in [(1, 1_000), (2, 1_000_000), (7, 1_000_000), (64, 1_000_000)] {
        let missed = is_missed(&rt, rt.alloc(), count, turns);
        assert_found(&rt, missed, Some(count == 1), (count, "workers"));
    }
}
