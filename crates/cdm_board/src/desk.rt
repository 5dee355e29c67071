//! Desks.
ghost use Rattle.std.specs.Prelude.{◌≡◌, ◌<◌, ◌≤◌, length, map, IfOk, OnErr, MatchResult};
ghost use Rattle.cdm_board.specs.History.{Posts, Looks, IsDesk, answers_to, journal_now, day_now, with_call, with_receipt, fresh_desk};
ghost use Rattle.cdm_board.specs.Receipts.{call_of};
ghost use Rattle.cdm_board.specs.Refusals.{IsPostRefusal, IsLookRefusal};

use crate::fault::BoardError;
use crate::receipt::Receipt;
use crate::snapshot::Snapshot;
use crate::state::{BoardState, MOST_BATCH_UPDATES, MOST_CALLS};
use cdm_day::Reply;
use cdm_flight::{Role, Update};
use std::alloc::Global;
use std::marker::Model;

/// A desk of a board: its number, and a receipt of each call that it made, the oldest first.
#[derive(Drop)]
pub struct Desk {
    number: usize,
    receipts: Vec<Receipt>,
}

impl Model for Desk {
    ghost use Rattle.std.specs.Prelude.{map};
    ghost use Rattle.std.specs.Coded.{codes};
    ghost use Rattle.cdm_day.specs.inner.AirportCode.{airport_code};
    ghost use Rattle.cdm_board.specs.History.{DeskRecord, IsDesk};

    ghost Value = { DeskRecord };

    ghost coded = { Prim.hlevel (codes, airport_code) };

    ghost use Rattle.cdm_board.specs.Receipts.{call_of};

    ghost view = { λ d. record { number = d.number; receipts = map call_of d.receipts.items } };

    ghost invariant = { λ d. IsDesk d.number };
}

impl Desk {
    // The desk of this number without receipts.
    pub(crate) fn new(alloc: Global, number: usize) -> Desk
        requires { IsDesk number }
        ensures { result ≡ fresh_desk number }
    {
        Desk {
            number,
            receipts: Vec::new(alloc),
        }
    }

    /// The desk's number, 1 to 16.
    pub fn number(&self) -> usize
        ensures number { result ≡ self.now.number }
        ensures desk { IsDesk result }
    {
        self.number
    }

    /// How many calls the desk made.
    pub fn calls(&self) -> usize
        ensures { result ≡ length self.now.receipts }
    {
        self.receipts.len()
    }

    /// The receipts of its calls, the oldest first.
    pub fn receipts(&self) -> &[Receipt]
        ensures { map call_of result.now ≡ self.now.receipts }
    {
        self.receipts.as_slice()
    }

    // A post of this desk to a state that it is lent.
    pub(crate) fn post_to(
        &mut self,
        state: &mut BoardState,
        alloc: Global,
        batch: &[(Role, Update)],
    ) -> Result<Vec<Reply>, BoardError>
        ensures replies { IfOk result (λ r. r.items ≡ answers_to state.old.airport (journal_now state.old) batch.now) }
        ensures state { IfOk result (λ r. state.new ≡ with_call state.old self.old.number (Posts batch.now r.items)) }
        ensures desk { IfOk result (λ r. self.new ≡ with_receipt self.old (Posts batch.now r.items)) }
        ensures cause { MatchResult result (λ _. (length batch.now ≤ 256) × (length state.old.history < 4096)) (λ e. IsPostRefusal (length batch.now) (length state.old.history) e) }
        ensures err { OnErr result ((state.new ≡ state.old) × (self.new ≡ self.old)) }
    {
        if batch.len() > MOST_BATCH_UPDATES {
            return Err(BoardError::BatchSize);
        }
        if state.calls() == MOST_CALLS {
            return Err(BoardError::HistoryFull(MOST_CALLS));
        }
        self.receipts.reserve(1)?;
        let (replies, receipt) = state.post_twice(alloc, self.number, batch)?;
        self.receipts.push(receipt).unwrap();
        Ok(replies)
    }

    // A look of this desk at a state that it is lent.
    pub(crate) fn look_at(
        &mut self,
        state: &mut BoardState,
        alloc: Global,
    ) -> Result<Snapshot, BoardError>
        ensures snapshot { IfOk result (λ r. r ≡ day_now state.old) }
        ensures state { IfOk result (λ r. state.new ≡ with_call state.old self.old.number (Looks r.airport r.journal)) }
        ensures desk { IfOk result (λ r. self.new ≡ with_receipt self.old (Looks r.airport r.journal)) }
        ensures cause { MatchResult result (λ _. length state.old.history < 4096) (λ e. IsLookRefusal (length state.old.history) e) }
        ensures err { OnErr result ((state.new ≡ state.old) × (self.new ≡ self.old)) }
    {
        if state.calls() == MOST_CALLS {
            return Err(BoardError::HistoryFull(MOST_CALLS));
        }
        self.receipts.reserve(1)?;
        let (snapshot, receipt) = state.look_twice(alloc, self.number)?;
        self.receipts.push(receipt).unwrap();
        Ok(snapshot)
    }
}
