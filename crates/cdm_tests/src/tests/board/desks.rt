//! Two desks on two threads.
use super::days::two_desks;
use crate::tests::asserts::{assert_found, assert_holds};
use crate::tests::days::planned;
use cdm_board::{Board, Closed, Desk};
use cdm_day::Reply;
use cdm_flight::{Role, Update};
use std::alloc::Global;
use std::sync::Wait;
use std::thread::{Threads, join};

/// Whether all updates of the batch are accepted.
pub fn is_accepted<R: Wait>(
    rt: &R,
    alloc: Global,
    board: &Board,
    desk: &mut Desk,
    batch: &[(Role, Update)],
) -> bool {
    match board.post(rt, alloc, desk, batch) {
        Ok(replies) => {
            replies.len() == batch.len() && replies.iter().all(|reply| *reply == Reply::Accepted)
        }
        Err(_) => false,
    }
}

// Whether the desk finds the update in its snapshot.
fn finds<R: Wait>(rt: &R, alloc: Global, board: &Board, desk: &mut Desk, update: &Update) -> bool {
    match board.look(rt, alloc, desk) {
        Ok(snapshot) => snapshot.state().journal().contains(update),
        Err(_) => false,
    }
}

// Whether the desk finds what it posted, the updates of this flight, in a look after the post.
fn works<R: Wait>(rt: &R, alloc: Global, board: &Board, desk: &mut Desk, name: &str) -> bool {
    let Some(batch) = planned(name) else {
        return false;
    };
    let (_, tobt) = batch[2];
    is_accepted(rt, alloc, board, desk, &batch) && finds(rt, alloc, board, desk, &tobt)
}

// Whether both desks do, each on a thread of its own.
fn work_side_by_side<R: Threads + Sync + Wait>(
    rt: &R,
    alloc: Global,
    board: &Board,
    first: &mut Desk,
    second: &mut Desk,
) -> bool {
    let (first_works, second_works) = join(
        rt,
        || works(rt, alloc, board, first, "AB1"),
        || works(rt, alloc, board, second, "CD2"),
    );
    first_works && second_works
}

/// What comes back where the board isn't closed for want of a desk.
pub fn withheld(board: Board, desks: Vec<Desk>) -> Option<(Board, Vec<Desk>)> {
    match Board::close(board, desks) {
        Err(Closed::MissingDesk { board, desks }) => Some((board, desks)),
        _ => None,
    }
}

/// How many entries the history of the closed board has.
pub fn entries(board: Board, desks: Vec<Desk>) -> Option<usize> {
    match Board::close(board, desks) {
        Ok((history, _)) => Some(history.len()),
        Err(_) => None,
    }
}

// The desks with one more.
fn with(mut desks: Vec<Desk>, desk: Desk) -> Option<Vec<Desk>> {
    desks.push(desk).ok()?;
    Some(desks)
}

// How many entries the history has of a board that isn't closed without its second desk.
fn closed(alloc: Global, board: Board, first: Desk, second: Desk) -> Option<usize> {
    let (board, desks) = withheld(board, with(Vec::new(alloc), first)?)?;
    entries(board, with(desks, second)?)
}

/// Each desk finds in its snapshot what it posted, both are in the history, and the board isn't closed
/// without one of them.
#[test]
fn two_desks_share_a_day(rt: HostRuntime) {
    let alloc = rt.alloc();
    let (board, mut first, mut second) = two_desks(alloc, &[]).expect(&rt, "not opened");
    let works = work_side_by_side(&rt, alloc, &board, &mut first, &mut second);
    assert_holds(&rt, works, "side by side");
    let found = closed(alloc, board, first, second);
    assert_found(&rt, found, Some(4), "entries");
}
