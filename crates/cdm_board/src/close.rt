//! Boards opened and closed.
ghost use Rattle.std.specs.Prelude.{◌≡◌, ◌==◌, ◌≤◌, ◌↔◌, All, count_by, IfOk, IfErr, IsTrue, MatchResult, MatchOption};
ghost use Rattle.cdm_board.specs.History.{AreNumbered, IsMerge, IsMismatch, IsFirstDifference, calls_of, receipts_of, opened_of, fresh_desks, IsDesk};
ghost use Rattle.cdm_board.specs.Refusals.{IsOpenRefusal};
ghost use Rattle.cdm_board.specs.Closing.{IsCloseFault, IsClosed};

use crate::board::{Board, numbered};
use crate::desk::Desk;
use crate::fault::BoardError;
use crate::history::History;
use crate::state::BoardState;
use cdm_day::DayState;
use std::alloc::Global;
use std::sync::Mutex;

/// How many desks a board has at most (local profile).
pub const MOST_DESKS: usize = 16;

/// Why a board was not opened. The day comes back.
#[derive(Drop)]
pub struct OpenFault {
    /// `DeskCount` or `Memory`.
    pub error: BoardError,
    /// The day that was handed in.
    pub state: DayState,
}

/// Why a board was not closed. What was handed in comes back.
#[derive(Drop)]
pub enum Closed {
    /// The desks' numbers aren't 1 to the number of desks opened, each once.
    MissingDesk {
        board: Board,
        desks: Vec<Desk>,
    },
    /// The state didn't begin from the airport and the journal that the board was opened with.
    Opening {
        state: BoardState,
        desks: Vec<Desk>,
    },
    /// This receipt, numbered from 1, isn't this desk's call at that place of the history, or the desk has
    /// more or fewer receipts than calls.
    Mismatch {
        state: BoardState,
        desks: Vec<Desk>,
        desk: usize,
        receipt: usize,
    },
}

// Whether the desks' numbers are 1 to `most`.
fn are_in_range(desks: &[Desk], most: usize) -> bool
    ensures { IsTrue result ↔ All (λ k. (1 ≤ k.number) × (k.number ≤ most)) desks.now }
{
    desks
        .iter()
        .all(|desk| 1 <= desk.number() && desk.number() <= most)
}

// How many desks have this number.
fn count_numbered(desks: &[Desk], number: usize) -> usize
    ensures { result ≡ count_by (λ k. k.number == number) desks.now }
{
    desks.iter().filter(|desk| desk.number() == number).count()
}

// Whether the desks' numbers are 1 to `most`, each once.
fn are_numbered(desks: &[Desk], most: usize) -> bool
    requires { most ≤ 16 }
    ensures { IsTrue result ↔ AreNumbered most desks.now }
{
    if !are_in_range(desks, most) {
        return false;
    }
    for before in 0..most {
        if count_numbered(desks, before + 1) != 1 {
            return false;
        }
    }
    true
}

// The first receipt of the desk of this number that is not its call at that place.
fn place_of(state: &BoardState, desks: &[Desk], number: usize) -> Option<usize>
    ensures { MatchOption result (calls_of number state.now.history ≡ receipts_of number desks.now) (λ k. IsFirstDifference (calls_of number state.now.history) (receipts_of number desks.now) k) }
{
    for desk in desks {
        if desk.number() == number {
            return state.first_difference(number, desk.receipts());
        }
    }
    state.first_difference(number, &[])
}

// The least desk whose receipts are not its calls, with the first receipt that differs.
fn mismatch(state: &BoardState, desks: &[Desk], most: usize) -> Option<(usize, usize)>
    requires most { most ≤ 16 }
    requires desks { All (λ k. (1 ≤ k.number) × (k.number ≤ most)) desks.now }
    ensures { MatchOption result (IsMerge state.now.history desks.now) (λ p. IsMismatch state.now.history desks.now p.0 p.1) }
{
    let _calls = state.calls();
    for desk in 0..MOST_DESKS + 1 {
        if let Some(receipt) = place_of(state, desks, desk) {
            return Some((desk, receipt));
        }
    }
    None
}

impl Board {
    /// Opens a board on a day, with so many desks, which are numbered from 1. The board keeps the day's
    /// airport and journal, shared with the state.
    ///
    /// `DeskCount` for no desks or more than 16, else `Memory`; the day comes back.
    pub fn open(alloc: Global, day: DayState, desks: usize) -> Result<(Board, Vec<Desk>), OpenFault>
        ensures opened { IfOk result (λ r. (r.0 ≡ opened_of day desks) × (r.1.items ≡ fresh_desks desks)) }
        ensures fault { IfErr result (λ f. f.state ≡ day) }
        ensures cause { MatchResult result (λ _. IsDesk desks) (λ f. IsOpenRefusal desks f.error) }
    {
        if desks == 0 || desks > MOST_DESKS {
            return Err(OpenFault {
                error: BoardError::DeskCount,
                state: day,
            });
        }
        let Ok(airport) = day.share_airport() else {
            return Err(OpenFault {
                error: BoardError::Memory,
                state: day,
            });
        };
        let Ok(opening) = day.share_journal() else {
            return Err(OpenFault {
                error: BoardError::Memory,
                state: day,
            });
        };
        let Ok(all) = numbered(alloc, desks) else {
            return Err(OpenFault {
                error: BoardError::Memory,
                state: day,
            });
        };
        let board = Board {
            state: Mutex::new(BoardState::new(alloc, day)),
            airport,
            opening,
            desks,
        };
        Ok((board, all))
    }

    /// Closes a board, and compares its history with the receipts of its desks: for each number, the calls
    /// of that desk in the history are the desk's receipts. The state's opening is compared with the
    /// board's own.
    ///
    /// `MissingDesk`, else `Opening`, else `Mismatch`, as they say. The history of a state that comes back
    /// is legal from what that state began with.
    pub fn close(board: Board, desks: Vec<Desk>) -> Result<(History, DayState), Closed>
        ensures { MatchResult result (λ r. IsClosed board desks.items r.0 r.1) (λ e. IsCloseFault board desks.items e) }
    {
        if !are_numbered(desks.as_slice(), board.desks) {
            return Err(Closed::MissingDesk { board, desks });
        }
        let Board {
            state,
            airport,
            opening,
            desks: count,
        } = board;
        let state = state.into_inner();
        let _calls = state.calls();
        if !state.began_from(&airport, opening.as_slice()) {
            return Err(Closed::Opening { state, desks });
        }
        if let Some((desk, receipt)) = mismatch(&state, desks.as_slice(), count) {
            return Err(Closed::Mismatch {
                state,
                desks,
                desk,
                receipt,
            });
        }
        Ok(state.into_parts())
    }
}
