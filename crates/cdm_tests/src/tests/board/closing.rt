//! Desks whose receipts aren't the calls of the history.
use super::days::two_desks;
use super::desks::withheld;
use crate::tests::asserts::assert_found;
use crate::tests::days::planned;
use cdm_board::{Board, Closed, Desk};
use std::alloc::Global;
use std::sync::Wait;

// Whether the desk can post a flight's updates.
fn posts<R: Wait>(rt: &R, alloc: Global, board: &Board, desk: &mut Desk) -> bool {
    match planned("CD2") {
        Some(batch) => board.post(rt, alloc, desk, &batch).is_ok(),
        None => false,
    }
}

// Whether the desk can look.
fn looks<R: Wait>(rt: &R, alloc: Global, board: &Board, desk: &mut Desk) -> bool {
    board.look(rt, alloc, desk).is_ok()
}

// Whether both desks can post in turn; desk 1 looks in between.
fn work<R: Wait>(
    rt: &R,
    alloc: Global,
    board: &Board,
    first: &mut Desk,
    second: &mut Desk,
) -> bool {
    let posted = posts(rt, alloc, board, first);
    let looked = looks(rt, alloc, board, first);
    posted && looked && posts(rt, alloc, board, second)
}

// A board on the day that plans AB1, and its two desks, which worked.
fn worked<R: Wait>(rt: &R, alloc: Global) -> Option<(Board, Desk, Desk)> {
    let (board, mut first, mut second) = two_desks(alloc, &["AB1"])?;
    let done = work(rt, alloc, &board, &mut first, &mut second);
    done.then_some((board, first, second))
}

// The list of both desks, the second first.
fn both(alloc: Global, first: Desk, second: Desk) -> Option<Vec<Desk>> {
    let mut desks = Vec::new(alloc);
    desks.push(second).ok()?;
    desks.push(first).ok()?;
    Some(desks)
}

// The calls of the state and the desks that come back where a receipt differs, and which it is.
fn mismatch(board: Board, desks: Vec<Desk>) -> Option<(usize, usize, usize, usize)> {
    match Board::close(board, desks) {
        Err(
            Closed::Mismatch {
                state,
                desks,
                desk,
                receipt,
            },
        ) => { Some((state.calls(), desks.len(), desk, receipt)) }
        _ => None,
    }
}

// The desks of another board, which worked.
fn worked_desks<R: Wait>(rt: &R, alloc: Global) -> Option<Vec<Desk>> {
    let (_, first, second) = worked(rt, alloc)?;
    both(alloc, first, second)
}

// The board of two desks which worked, the second of which looks once more.
fn worked_board<R: Wait>(rt: &R, alloc: Global) -> Option<Board> {
    let (board, _, mut last) = worked(rt, alloc)?;
    looks(rt, alloc, &board, &mut last).then_some(board)
}

// Where the desks of another board differ, which made the same calls but for the last.
fn mismatch_at_the_end<R: Wait>(rt: &R, alloc: Global) -> Option<(usize, usize, usize, usize)> {
    let desks = worked_desks(rt, alloc)?;
    mismatch(worked_board(rt, alloc)?, desks)
}

// The desks of another board, which made no calls.
fn idle_desks(alloc: Global) -> Option<Vec<Desk>> {
    let (_, first, second) = two_desks(alloc, &[])?;
    both(alloc, first, second)
}

// Where they differ.
fn mismatch_of_others<R: Wait>(rt: &R, alloc: Global) -> Option<(usize, usize, usize, usize)> {
    let desks = idle_desks(alloc)?;
    let (board, _, _) = worked(rt, alloc)?;
    mismatch(board, desks)
}

// The first desk of a board.
fn first_desk(alloc: Global) -> Option<Desk> {
    let (_, first, _) = two_desks(alloc, &[])?;
    Some(first)
}

// Whether a board isn't closed with two desks of one number.
fn is_missing(alloc: Global) -> Option<bool> {
    let again = first_desk(alloc)?;
    let (board, first, _) = two_desks(alloc, &[])?;
    Some(withheld(board, both(alloc, first, again)?).is_some())
}

/// The desks of another board differ in the first receipt that isn't a call of the history, and two desks
/// of one number aren't taken.
#[test]
fn desks_of_another_board_are_told(rt: HostRuntime) {
    let alloc = rt.alloc();
    let found = mismatch_at_the_end(&rt, alloc);
    assert_found(&rt, found, Some((4, 2, 2, 2)), "the last call");
    let found = mismatch_of_others(&rt, alloc);
    assert_found(&rt, found, Some((3, 2, 1, 1)), "no calls");
    assert_found(&rt, is_missing(alloc), Some(true), "one number");
}
