//! Boards, desks and snapshots.
use super::{Planned, is_day, made};
use crate::tests::asserts::{assert_found, assert_holds};
use crate::tests::board::desks::entries;
use crate::tests::days::{closed, planned};
use cdm_board::{Board, BoardError, BoardState, Desk, OpenFault, Snapshot, what_if};
use cdm_phase::{OpenGate, Workers};
use cdm_scenario::{Outcome, Scenario, ScenarioFault, ScenarioName};
use std::alloc::{AllocError, Global};
use std::sync::Wait;
use std::thread::Threads;

/// With one flight, and with two.
static ONE: Planned = (&[375], 0);

static TWO: Planned = (&[375, 375], 0);

// How many replies the first desk's post of a flight's updates has.
fn replies_alone(alloc: Global, state: &mut BoardState) -> Option<usize> {
    let batch = planned("CD2")?;
    let replies = again!(
        state.post(alloc, 1, &batch),
        BoardError::Memory,
        state.calls() == 0 && is_day(state.day(), 3, ONE)
    )?;
    Some(replies.len())
}

// Whether the last desk's look has both flights.
fn looks_alone(alloc: Global, state: &mut BoardState) -> bool {
    let seen = again!(
        state.look(alloc, 16),
        BoardError::Memory,
        state.calls() == 1 && is_day(state.day(), 6, TWO)
    );
    match seen {
        Some(snapshot) => is_day(snapshot.state(), 6, TWO),
        None => false,
    }
}

/// The board of one thread, with a post and a look.
#[test]
fn refused_memory_leaves_a_board_of_one_thread(rt: HostRuntime) {
    let alloc = rt.alloc();
    let day = made(alloc, &["AB1"]).expect(&rt, "no day");
    let mut state = BoardState::new(alloc, day);
    assert_found(&rt, replies_alone(alloc, &mut state), Some(3), "replies");
    assert_holds(&rt, looks_alone(alloc, &mut state), "a look");
    assert_found(&rt, state.calls(), 2, "calls");
}

// A board with two desks on the day that plans AB1, which comes back where memory is refused.
fn opened(alloc: Global) -> Option<(Board, Vec<Desk>)> {
    match Board::open(alloc, made(alloc, &["AB1"])?, 2) {
        Ok(opened) => Some(opened),
        Err(OpenFault { error, state }) => {
            let came_back = error == BoardError::Memory && is_day(&state, 3, ONE);
            if came_back {
                Board::open(alloc, state, 2).ok()
            } else {
                None
            }
        }
    }
}

// Whether the desk's post of a flight's updates has a reply for each.
fn posts<R: Wait>(rt: &R, alloc: Global, board: &Board, desk: &mut Desk) -> bool {
    let Some(batch) = planned("CD2") else {
        return false;
    };
    match again!(
        board.post(rt, alloc, desk, &batch),
        BoardError::Memory,
        desk.calls() == 0
    ) {
        Some(replies) => replies.len() == 3,
        None => false,
    }
}

// How many updates the desk's look has.
fn looks<R: Wait>(rt: &R, alloc: Global, board: &Board, desk: &mut Desk) -> Option<usize> {
    let snapshot = again!(
        board.look(rt, alloc, desk),
        BoardError::Memory,
        desk.calls() == 1
    )?;
    Some(snapshot.state().journal().len())
}

/// A board is opened, its desks post and look, and it is closed with the answered calls alone. The second post of a flight
/// is refused in the update that makes it known.
#[test]
fn refused_memory_leaves_desks(rt: HostRuntime) {
    let alloc = rt.alloc();
    let (board, mut desks) = opened(alloc).expect(&rt, "not opened");
    let mut updates = [6, 8].iter();
    for desk in &mut desks {
        let wanted = updates.next().copied();
        assert_holds(&rt, posts(&rt, alloc, &board, desk), wanted);
        assert_found(&rt, looks(&rt, alloc, &board, desk), wanted, "updates");
    }
    assert_found(&rt, entries(board, desks), Some(4), "entries");
}

// The scenario that closes the runway.
fn closing(alloc: Global) -> Option<Scenario> {
    let name = ScenarioName::new(b"SHUT")?;
    let closure = closed()?;
    let mut scenario = Scenario::empty(alloc, name);
    again!(
        scenario.add(closure),
        ScenarioFault::Memory,
        scenario.updates().is_empty()
    )?;
    Some(scenario)
}

// Whether the outcome has the flight 15 minutes late, behind the closure.
fn is_late(outcome: &Outcome) -> bool {
    match outcome {
        Outcome::Planned(_, counts) => (counts.placed, counts.delay) == (1, 15),
        Outcome::Refused(_, _) => false,
    }
}

// Whether both outcomes have it so.
fn are_late(outcomes: &[Outcome]) -> bool {
    match outcomes {
        [first, second] => is_late(first) && is_late(second),
        _ => false,
    }
}

// Whether both outcomes over the snapshot are late.
fn are_late_over<R: Threads + Sync>(
    rt: &R,
    alloc: Global,
    snapshot: &Snapshot,
    scenarios: &[Scenario],
    workers: Workers,
) -> bool {
    match again!(
        what_if(rt, alloc, snapshot, scenarios, workers, &OpenGate),
        AllocError,
        is_day(snapshot.state(), 3, ONE)
    ) {
        Some(outcomes) => are_late(&outcomes),
        None => false,
    }
}

// Two scenarios that close the runway.
fn two_closing(alloc: Global) -> Option<[Scenario; 2]> {
    let first = closing(alloc)?;
    Some([first, closing(alloc)?])
}

// Whether both are late over the snapshot, where two workers answer them.
fn late<R: Threads + Sync>(rt: &R, alloc: Global, snapshot: &Snapshot) -> bool {
    let Some(workers) = Workers::new(2) else {
        return false;
    };
    match two_closing(alloc) {
        Some(scenarios) => are_late_over(rt, alloc, snapshot, &scenarios, workers),
        None => false,
    }
}

// The snapshot of the first desk's first look.
fn seen(alloc: Global, state: &mut BoardState) -> Option<Snapshot> {
    again!(state.look(alloc, 1), BoardError::Memory, state.calls() == 0)
}

/// Questions over a snapshot, which stays.
#[test]
fn refused_memory_leaves_a_snapshot(rt: HostRuntime) {
    let alloc = rt.alloc();
    let day = made(alloc, &["AB1"]).expect(&rt, "no day");
    let mut state = BoardState::new(alloc, day);
    let snapshot = seen(alloc, &mut state).expect(&rt, "no snapshot");
    assert_holds(&rt, late(&rt, alloc, &snapshot), "late");
    assert_holds(&rt, is_day(snapshot.state(), 3, ONE), "the snapshot");
}
