//! The limits of a board.
use super::days::opened;
use super::desks::entries;
use crate::tests::asserts::{assert_found, assert_holds};
use crate::tests::days::{day_of, planned};
use cdm_board::{Board, BoardError, BoardState, Desk, OpenFault};
use cdm_flight::{Role, Update};
use cdm_time::Minute;
use std::alloc::Global;
use std::process::Abort;
use std::sync::Wait;
use std::thread::{Threads, join};

// How many updates the day has that comes back where no board has so many desks.
fn not_opened(alloc: Global, desks: usize) -> Option<usize> {
    match Board::open(alloc, day_of(alloc, &["AB1"])?, desks) {
        Err(
            OpenFault {
                error: BoardError::DeskCount,
                state,
            },
        ) => Some(state.journal().len()),
        _ => None,
    }
}

// How many replies a batch of so many updates has, 257 at most.
fn replies<R: Wait>(
    rt: &R,
    alloc: Global,
    board: &Board,
    desk: &mut Desk,
    count: usize,
) -> Result<usize, BoardError> {
    let clock = Update::Clock { now: Minute::FIRST };
    let batch = [(Role::AirTrafficControl, clock); 257];
    let batch = batch.get(..count).unwrap_or(&batch);
    Ok(board.post(rt, alloc, desk, batch)?.len())
}

// Why a desk's look is refused.
fn look_refusal<R: Wait>(
    rt: &R,
    alloc: Global,
    board: &Board,
    desk: &mut Desk,
) -> Option<BoardError> {
    board.look(rt, alloc, desk).err()
}

// Whether a desk can make 256 calls, empty posts and looks in turn.
fn makes_calls<R: Wait>(rt: &R, alloc: Global, board: &Board, desk: &mut Desk) -> bool {
    for _ in 0..128u8 {
        if board.post(rt, alloc, desk, &[]).is_err() || board.look(rt, alloc, desk).is_err() {
            return false;
        }
    }
    true
}

// Whether each desk can make its calls.
fn all_make_calls<R: Wait>(rt: &R, alloc: Global, board: &Board, desks: &mut [Desk]) -> bool {
    for desk in desks {
        if !makes_calls(rt, alloc, board, desk) {
            return false;
        }
    }
    true
}

// Whether all can, the first eight on one thread and the others on another.
fn make_calls_side_by_side<R: Threads + Sync + Wait>(
    rt: &R,
    alloc: Global,
    board: &Board,
    desks: &mut [Desk],
) -> bool {
    let Some((first, others)) = desks.split_at_mut_checked(8) else {
        return false;
    };
    let (first_made, others_made) = join(
        rt,
        || all_make_calls(rt, alloc, board, first),
        || all_make_calls(rt, alloc, board, others),
    );
    first_made && others_made
}

// Whether the first desk's post of a flight's updates has a reply for each.
fn posts_alone(alloc: Global, state: &mut BoardState) -> bool {
    let Some(batch) = planned("CD2") else {
        return false;
    };
    state
        .post(alloc, 1, &batch)
        .is_ok_and(|replies| replies.len() == 3)
}

// How many updates the last desk's look has.
fn updates_alone(alloc: Global, state: &mut BoardState) -> Option<usize> {
    let snapshot = state.look(alloc, 16).ok()?;
    Some(snapshot.state().journal().len())
}

// Whether the first desk's post of 257 updates is refused for its size.
fn is_too_long(alloc: Global, state: &mut BoardState) -> bool {
    let clock = Update::Clock { now: Minute::FIRST };
    let batch = [(Role::AirTrafficControl, clock); 257];
    state.post(alloc, 1, &batch).err() == Some(BoardError::BatchSize)
}

// How many calls the board of one thread took, a post and, after one that is too long, a look that has the posted updates.
fn calls_alone(alloc: Global) -> Option<usize> {
    let mut state = BoardState::new(alloc, day_of(alloc, &["AB1"])?);
    let posted = posts_alone(alloc, &mut state) && is_too_long(alloc, &mut state);
    if posted && updates_alone(alloc, &mut state) == Some(6) {
        Some(state.calls())
    } else {
        None
    }
}

// Asserts that a new desk's batches are answered, that of 257 updates by a refusal, and that refused calls aren't counted.
fn assert_counted<R: Wait + Abort>(rt: &R, alloc: Global, board: &Board, desk: &mut Desk) {
    for (count, answer) in [
        (0, Ok(0)),
        (257, Err(BoardError::BatchSize)),
        (256, Ok(256)),
    ] {
        let found = replies(rt, alloc, board, desk, count);
        assert_found(rt, found, answer, (count, "updates"));
    }
    assert_found(rt, (desk.number(), desk.calls()), (1, 2), "two posts");
    let found = replies(rt, alloc, board, desk, 257);
    assert_found(rt, found, Err(BoardError::BatchSize), "once more");
    assert_found(rt, look_refusal(rt, alloc, board, desk), None, "a look");
    assert_found(rt, desk.calls(), 3, "three calls");
}

/// A board has 1 to 16 desks, and a batch 0 to 256 updates. A board of one thread takes posts and looks.
#[test]
fn desks_and_batches_are_counted(rt: HostRuntime) {
    let alloc = rt.alloc();
    assert_found(&rt, calls_alone(alloc), Some(2), "alone");
    for desks in [0, 17] {
        assert_found(&rt, not_opened(alloc, desks), Some(3), (desks, "desks"));
    }
    let (board, mut desks) = opened(alloc, &["AB1"], 1).expect(&rt, "not opened");
    let desk = desks.last_mut().expect(&rt, "no desk");
    assert_counted(&rt, alloc, &board, desk);
}

// Asserts that a look and a post of a desk which made its calls are refused.
fn assert_full<R: Wait + Abort>(rt: &R, alloc: Global, board: &Board, desk: &mut Desk) {
    let full = Some(BoardError::HistoryFull(4_096));
    assert_found(rt, look_refusal(rt, alloc, board, desk), full, "a look");
    let refusal = replies(rt, alloc, board, desk, 0).err();
    assert_found(rt, refusal, full, "a post");
    assert_found(rt, desk.calls(), 256, "calls");
}

/// Sixteen desks on two threads make 4,096 calls, and one more is refused, a look or a post.
#[test]
fn a_history_is_full(rt: HostRuntime) {
    let alloc = rt.alloc();
    let (board, mut desks) = opened(alloc, &["AB1"], 16).expect(&rt, "not opened");
    let made = make_calls_side_by_side(&rt, alloc, &board, &mut desks);
    assert_holds(&rt, made, "4,096 calls");
    let last = desks.last_mut().expect(&rt, "no desk");
    assert_full(&rt, alloc, &board, last);
    assert_found(&rt, entries(board, desks), Some(4_096), "entries");
}
