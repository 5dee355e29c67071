//! What-if questions while another desk posts.
use super::days::two_desks;
use super::desks::is_accepted;
use crate::tests::asserts::{assert_found, assert_holds};
use crate::tests::days::{THREE_FLIGHTS, closed};
use cdm_board::{Board, Desk, Snapshot, what_if};
use cdm_day::DayState;
use cdm_flight::{Role, Update};
use cdm_phase::{Gate, PhaseName, Workers};
use cdm_scenario::{Outcome, Scenario, ScenarioName};
use std::alloc::Global;
use std::sync::Wait;
use std::sync::atomic::{AtomicBool, Ordering};
use std::thread;
use std::thread::{Threads, join};

/// Holds every piece until a post was accepted, for so many turns at most.
#[derive(Drop)]
struct UntilPosted {
    posted: AtomicBool,
    missed: AtomicBool,
}

impl UntilPosted {
    fn is_missed(&self) -> bool {
        self.missed.load(Ordering::SeqCst)
    }
}

impl Gate for UntilPosted {
    fn pass(&self, _phase: PhaseName, _piece: usize) {
        for _ in 0..10_000_000u32 {
            if self.posted.load(Ordering::SeqCst) {
                return;
            }
            thread::yield_now();
        }
        self.missed.store(true, Ordering::SeqCst);
    }
}

// Whether the day has so many updates, and these take-off minutes on its one runway.
fn is_day(day: &DayState, updates: usize, minutes: &[u16]) -> bool {
    let [runway] = day.plan().runways.as_slice() else {
        return false;
    };
    let slots = runway.slots.as_slice();
    day.journal().len() == updates
        && slots
            .iter()
            .map(|slot| slot.ttot.get())
            .eq(minutes.iter().copied())
}

// Whether a look finds such a day.
fn finds_day<R: Wait>(
    rt: &R,
    alloc: Global,
    board: &Board,
    desk: &mut Desk,
    updates: usize,
    minutes: &[u16],
) -> bool {
    match board.look(rt, alloc, desk) {
        Ok(snapshot) => is_day(snapshot.state(), updates, minutes),
        Err(_) => false,
    }
}

// The question what becomes of a day by the update.
fn question(alloc: Global, update: &Update) -> Option<Scenario> {
    let mut scenario = Scenario::empty(alloc, ScenarioName::new(b"SHUT")?);
    scenario.add(*update).ok()?;
    Some(scenario)
}

// Whether two workers answer what becomes of the snapshot's day by the closure.
fn is_answered<R: Threads + Sync>(
    rt: &R,
    alloc: Global,
    snapshot: &Snapshot,
    closure: Update,
    gate: &UntilPosted,
) -> bool {
    let (Some(workers), Some(scenario)) = (Workers::new(2), question(alloc, &closure)) else {
        return false;
    };
    let Ok(outcomes) = what_if(rt, alloc, snapshot, &[scenario], workers, gate) else {
        return false;
    };
    match outcomes.as_slice() {
        [Outcome::Planned(_, counts)] => {
            (counts.placed, counts.blocked) == (3, 0)
                && (counts.delay, counts.greatest, counts.late) == (55, 25, 1)
        }
        _ => false,
    }
}

// Whether the closure is accepted in each of 100 posts.
fn is_posted<R: Wait>(
    rt: &R,
    alloc: Global,
    board: &Board,
    desk: &mut Desk,
    closure: Update,
    gate: &UntilPosted,
) -> bool {
    let batch = [(Role::AirTrafficControl, closure)];
    for _ in 0..100u8 {
        if !is_accepted(rt, alloc, board, desk, &batch) {
            return false;
        }
        gate.posted.store(true, Ordering::SeqCst);
    }
    true
}

// Whether the question is answered while the other desk posts.
fn ask_meanwhile<R: Threads + Sync + Wait>(
    rt: &R,
    alloc: Global,
    board: &Board,
    snapshot: &Snapshot,
    desk: &mut Desk,
) -> Option<bool> {
    let closure = closed()?;
    let gate = UntilPosted {
        posted: AtomicBool::new(false),
        missed: AtomicBool::new(false),
    };
    let (answered, posted) = join(
        rt,
        || is_answered(rt, alloc, snapshot, closure, &gate),
        || is_posted(rt, alloc, board, desk, closure, &gate),
    );
    Some(answered && posted && !gate.is_missed())
}

// Whether a question over the first desk's snapshot is answered while the second posts, and whether the snapshot stays.
fn seen<R: Threads + Sync + Wait>(
    rt: &R,
    alloc: Global,
    board: &Board,
    first: &mut Desk,
    second: &mut Desk,
) -> Option<(bool, bool)> {
    let snapshot = board.look(rt, alloc, first).ok()?;
    let answered = ask_meanwhile(rt, alloc, board, &snapshot, second)?;
    Some((answered, is_day(snapshot.state(), 9, &[375, 375, 380])))
}

/// A question is answered over the snapshot while another desk posts, and after 100 posts the snapshot
/// has its plan and its journal. The next look has the closure.
#[test]
fn a_snapshot_keeps_its_moment(rt: HostRuntime) {
    let alloc = rt.alloc();
    let opened = two_desks(alloc, &THREE_FLIGHTS);
    let (board, mut first, mut second) = opened.expect(&rt, "not opened");
    let found = seen(&rt, alloc, &board, &mut first, &mut second);
    assert_found(&rt, found, Some((true, true)), "the snapshot");
    let found = finds_day(&rt, alloc, &board, &mut first, 109, &[390, 390, 400]);
    assert_holds(&rt, found, "the next look");
}
