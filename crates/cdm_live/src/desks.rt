//! Two desks that share a board, each on a thread of its own.
ghost use Rattle.std.specs.Prelude.{◌≡◌, ◌≢◌, ℕ, [], IfErr, IfOk, flat_map};
ghost use Rattle.std.specs.List.{AllZip};
ghost use Rattle.cdm_board.specs.History.{IsLegal, calls_of, day_of, fresh_desk, fresh_desks, journal_of, opened_of};
ghost use Rattle.cdm_live.specs.Live.{IsPostOf, batches, replies_of};
ghost use Rattle.cdm_live.specs.inner.LiveSteps.{HasMerged, HasWorked, IsDeskFault};

use crate::live_error::LiveError;
use cdm_board::{Board, BoardError, Desk, History, MOST_BATCH_UPDATES};
use cdm_day::{DayState, Reply};
use cdm_flight::{Role, Update};
use cdm_phase::{Gate, PhaseName};
use std::alloc::{AllocError, Global};
use std::sync::Wait;
use std::thread;
use std::thread::Threads;

/// A desk that has made its calls, and the replies to its updates.
#[derive(Drop)]
pub(crate) struct Worked {
    pub(crate) desk: Desk,
    pub(crate) replies: Vec<Reply>,
}

// Posts the updates in batches, in order.
fn post_all<R: Wait>(
    rt: &R,
    alloc: Global,
    board: &Board,
    desk: Desk,
    updates: &[(Role, Update)],
) -> Result<Worked, BoardError>
    requires { desk.receipts ≡ [] }
    ensures number { IfOk result (λ w. w.desk.number ≡ desk.number) }
    ensures posts { IfOk result (λ w. AllZip IsPostOf (batches updates.now) w.desk.receipts) }
    ensures replied { IfOk result (λ w. w.replies.items ≡ flat_map replies_of w.desk.receipts) }
{
    let mut desk = desk;
    let mut replies = Vec::new(alloc);
    for batch in updates.chunks(MOST_BATCH_UPDATES) {
        let answered = board.post(rt, alloc, &mut desk, batch)?;
        replies.extend_from_slice(&answered)?;
    }
    Ok(Worked { desk, replies })
}

// Passes the gate as the desk of this number, posts the updates in batches, and looks.
fn work<R: Wait, G: Gate>(
    rt: &R,
    alloc: Global,
    board: &Board,
    desk: Desk,
    updates: &[(Role, Update)],
    gate: &G,
) -> Result<Worked, BoardError>
    requires { desk.receipts ≡ [] }
    ensures { IfOk result (λ w. HasWorked desk.number updates.now w.desk w.replies.items) }
{
    gate.pass(PhaseName::Desks, desk.number() - 1);
    let Worked { mut desk, replies } = post_all(rt, alloc, board, desk, updates)?;
    board.look(rt, alloc, &mut desk)?;
    Ok(Worked { desk, replies })
}

// Both desks work, desk 1 on a thread of its own where one can be started.
fn work_both<R: Threads + Wait + Sync, G: Gate>(
    rt: &R,
    alloc: Global,
    board: &Board,
    first: Desk,
    second: Desk,
    updates1: &[(Role, Update)],
    updates2: &[(Role, Update)],
    gate: &G,
) -> Result<(Worked, Worked), BoardError>
    requires first { first ≡ fresh_desk 1 }
    requires second { second ≡ fresh_desk 2 }
    ensures first { IfOk result (λ w. HasWorked 1 updates1.now w.0.desk w.0.replies.items) }
    ensures second { IfOk result (λ w. HasWorked 2 updates2.now w.1.desk w.1.replies.items) }
{
    let (one, other) = thread::join(
        rt,
        move || -> Result<Worked, BoardError>
            requires { first ≡ fresh_desk 1 }
            ensures { IfOk result (λ w. HasWorked 1 updates1.entry.now w.desk w.replies.items) }
        { work(rt, alloc, board, first, updates1, gate) },
        move || -> Result<Worked, BoardError>
            requires { second ≡ fresh_desk 2 }
            ensures { IfOk result (λ w. HasWorked 2 updates2.entry.now w.desk w.replies.items) }
        { work(rt, alloc, board, second, updates2, gate) },
    );
    Ok((one?, other?))
}

// Opens a board on a day for two desks. It fails for want of memory alone.
fn open_board(alloc: Global, day: DayState) -> Result<(Board, Vec<Desk>), AllocError>
    ensures { IfOk result (λ r. (r.0 ≡ opened_of day 2) × (r.1.items ≡ fresh_desks 2)) }
{
    match Board::open(alloc, day, 2) {
        Ok(opened) => Ok(opened),
        Err(_) => Err(AllocError),
    }
}

/// A board that two desks have closed: its history, its day, and the replies to each desk.
#[derive(Drop)]
pub(crate) struct Merged {
    pub(crate) history: History,
    pub(crate) state: DayState,
    pub(crate) replies1: Vec<Reply>,
    pub(crate) replies2: Vec<Reply>,
}

/// Opens a board on a day, lets desk 1 post the one updates and desk 2 the others, each in batches and
/// then with a look, and closes the board. Each desk works on a thread of its own, where one can be
/// started, and passes the gate before its first call.
pub(crate) fn run_desks<R: Threads + Wait + Sync, G: Gate>(
    rt: &R,
    alloc: Global,
    day: DayState,
    updates1: &[(Role, Update)],
    updates2: &[(Role, Update)],
    gate: &G,
) -> Result<Merged, LiveError>
    requires { day.journal ≡ [] }
    ensures merged { IfOk result (λ m.
        HasMerged day.airport updates1.now updates2.now m.history m.state m.replies1.items m.replies2.items) }
    ensures fault { IfErr result IsDeskFault }
{
    let (board, mut desks) = open_board(alloc, day)?;
    let (Some(second), Some(first)) = (desks.pop(), desks.pop()) else {
        unreachable!()
    };
    let (first, second) = work_both(rt, alloc, &board, first, second, updates1, updates2, gate)?;
    close(board, first, second, desks)
}

// Closes the board of two desks that have worked.
fn close(board: Board, first: Worked, second: Worked, desks: Vec<Desk>) -> Result<Merged, LiveError>
    requires first { first.desk.number ≡ 1 }
    requires second { second.desk.number ≡ 2 }
    requires desks { desks.items ≡ [] }
    ensures legal { IfOk result (λ m. IsLegal board.airport board.opening m.history) }
    ensures day { IfOk result (λ m. m.state ≡ day_of board.airport (journal_of board.airport board.opening m.history)) }
    ensures first { IfOk result (λ m. calls_of 1 m.history ≡ first.desk.receipts) }
    ensures second { IfOk result (λ m. calls_of 2 m.history ≡ second.desk.receipts) }
    ensures no_other { IfOk result (λ m. (k : ℕ) → k ≢ 1 → k ≢ 2 → calls_of k m.history ≡ []) }
    ensures replies { IfOk result (λ m. (m.replies1 ≡ first.replies) × (m.replies2 ≡ second.replies)) }
    ensures fault { IfErr result IsDeskFault }
{
    let mut desks = desks;
    desks.push(first.desk)?;
    desks.push(second.desk)?;
    let Ok((history, state)) = Board::close(board, desks) else {
        return Err(LiveError::Mismatch);
    };
    Ok(Merged {
        history,
        state,
        replies1: first.replies,
        replies2: second.replies,
    })
}
