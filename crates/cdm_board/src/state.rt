//! The state of a board: a day, and the history of the calls on it.
ghost use Rattle.std.specs.Prelude.{◌≡◌, ◌<◌, ◌≤◌, [], length, map, IfOk, OnErr, OnOk, IsTrue, All, ◌↔◌, Some, MatchOption, MatchResult};
ghost use Rattle.std.specs.List.{slice_get};
ghost use Rattle.cdm_board.specs.History.{Posts, Looks, IsLegal, IsDesk, answers_to, journal_now, day_now, with_call, calls_of, IsFirstDifference};
ghost use Rattle.cdm_board.specs.Receipts.{call_of, entry_of};
ghost use Rattle.cdm_board.specs.Refusals.{IsPostRefusal, IsLookRefusal};

use crate::fault::BoardError;
use crate::history::History;
use crate::receipt::{Entry, Receipt, is_same_call, is_same_journal, looked, posted};
use crate::snapshot::Snapshot;
use cdm_day::{Airport, DayState, Reply};
use cdm_flight::{Role, Update};
use std::alloc::{AllocError, Global};
use std::marker::Model;

/// How many calls a board takes (local profile).
pub const MOST_CALLS: usize = 4096;

/// How many updates a batch has at most (local profile).
pub const MOST_BATCH_UPDATES: usize = 256;

/// The board that one thread would have: a day, and the history of the calls on it. A contract sees the
/// airport and the journal from which it began and the calls since; its day is the one that these calls
/// make, and every answer in it is the one that a day gives there.
pub struct BoardState {
    // How many updates of the day's journal were there when the board began.
    opened: usize,
    day: DayState,
    entries: Vec<Entry>,
}

// One call drops it, in place of its fields one by one at each exit of each function that owns it.
impl Drop for BoardState {
    fn drop(self) {
        let BoardState {
            opened: _,
            day: _,
            entries: _,
        } = self;
    }
}

impl Model for BoardState {
    ghost use Rattle.std.specs.Prelude.{map, take, length, ◌≤◌};
    ghost use Rattle.std.specs.Coded.{codes};
    ghost use Rattle.cdm_day.specs.inner.AirportCode.{airport_code};
    ghost use Rattle.cdm_board.specs.History.{BoardRecord};

    ghost Value = { BoardRecord };

    ghost coded = { Prim.hlevel (codes, airport_code) };

    ghost use Rattle.cdm_board.specs.Receipts.{entry_of, IsBoard};

    ghost view = { λ s. record { airport = s.day.airport; opening = take s.opened s.day.journal; history = map entry_of s.entries.items } };

    ghost invariant = { λ s. (s.opened ≤ length s.day.journal) × IsBoard s.day.airport (take s.opened s.day.journal) (map entry_of s.entries.items) s.day.journal };
}

impl BoardState {
    /// The board of a day without calls. Its opening is the day's journal.
    pub fn new(alloc: Global, day: DayState) -> BoardState
        ensures { result ≡ record { airport = day.airport; opening = day.journal; history = [] } }
    {
        BoardState {
            opened: day.journal().len(),
            day,
            entries: Vec::new(alloc),
        }
    }

    /// How many calls there were, which desks 1 to 16 made. Each was answered as a day answers it after
    /// those before it.
    pub fn calls(&self) -> usize
        ensures length { result ≡ length self.now.history }
        ensures bound { result ≤ 4096 }
        ensures legal { IsLegal self.now.airport self.now.opening self.now.history }
        ensures desks { All (λ e. IsDesk e.0) self.now.history }
    {
        self.entries.len()
    }

    /// The day, with its plan.
    pub fn day(&self) -> &DayState
        ensures { result.now ≡ day_now self.now }
    {
        &self.day
    }

    // A post for which there is room, with a second receipt of it. After an error nothing has changed.
    pub(crate) fn post_twice(
        &mut self,
        alloc: Global,
        desk: usize,
        batch: &[(Role, Update)],
    ) -> Result<(Vec<Reply>, Receipt), AllocError>
        requires desk { IsDesk desk }
        requires batch { length batch.now ≤ 256 }
        requires room { length self.old.history < 4096 }
        ensures replies { IfOk result (λ r. r.0.items ≡ answers_to self.old.airport (journal_now self.old) batch.now) }
        ensures receipt { IfOk result (λ r. call_of r.1 ≡ Posts batch.now r.0.items) }
        ensures state { IfOk result (λ r. self.new ≡ with_call self.old desk (Posts batch.now r.0.items)) }
        ensures err { OnErr result (self.new ≡ self.old) }
    {
        let mut day = self.day.copy(alloc)?;
        let replies = day.apply(alloc, batch)?;
        let kept = posted(alloc, batch, replies.as_slice())?;
        let receipt = posted(alloc, batch, replies.as_slice())?;
        self.entries.push(Entry {
            desk,
            receipt: kept,
        })?;
        self.day = day;
        Ok((replies, receipt))
    }

    // A look for which there is room, with a second receipt of it. After an error nothing has changed.
    pub(crate) fn look_twice(
        &mut self,
        alloc: Global,
        desk: usize,
    ) -> Result<(Snapshot, Receipt), AllocError>
        requires desk { IsDesk desk }
        requires room { length self.old.history < 4096 }
        ensures snapshot { IfOk result (λ r. r.0 ≡ day_now self.old) }
        ensures receipt { IfOk result (λ r. call_of r.1 ≡ Looks self.old.airport (journal_now self.old)) }
        ensures state { OnOk result (self.new ≡ with_call self.old desk (Looks self.old.airport (journal_now self.old))) }
        ensures err { OnErr result (self.new ≡ self.old) }
    {
        let state = self.day.copy(alloc)?;
        let kept = looked(&state)?;
        let receipt = looked(&state)?;
        self.entries.push(Entry {
            desk,
            receipt: kept,
        })?;
        Ok((Snapshot { state }, receipt))
    }

    /// Applies the batch as the day does, and adds the call of this desk, 1 to 16, to the history.
    ///
    /// `BatchSize` for more than 256 updates, else `HistoryFull` where there were 4,096 calls, else
    /// `Memory`; nothing has changed then.
    pub fn post(
        &mut self,
        alloc: Global,
        desk: usize,
        batch: &[(Role, Update)],
    ) -> Result<Vec<Reply>, BoardError>
        requires { IsDesk desk }
        ensures replies { IfOk result (λ r. r.items ≡ answers_to self.old.airport (journal_now self.old) batch.now) }
        ensures state { IfOk result (λ r. self.new ≡ with_call self.old desk (Posts batch.now r.items)) }
        ensures cause { MatchResult result (λ _. (length batch.now ≤ 256) × (length self.old.history < 4096)) (λ e. IsPostRefusal (length batch.now) (length self.old.history) e) }
        ensures err { OnErr result (self.new ≡ self.old) }
    {
        if batch.len() > MOST_BATCH_UPDATES {
            return Err(BoardError::BatchSize);
        }
        if self.calls() == MOST_CALLS {
            return Err(BoardError::HistoryFull(MOST_CALLS));
        }
        let (replies, _receipt) = self.post_twice(alloc, desk, batch)?;
        Ok(replies)
    }

    /// The day as it is now, and adds the call of this desk, 1 to 16, to the history.
    ///
    /// `HistoryFull` where there were 4,096 calls, else `Memory`; nothing has changed then.
    pub fn look(&mut self, alloc: Global, desk: usize) -> Result<Snapshot, BoardError>
        requires { IsDesk desk }
        ensures snapshot { IfOk result (λ r. r ≡ day_now self.old) }
        ensures state { OnOk result (self.new ≡ with_call self.old desk (Looks self.old.airport (journal_now self.old))) }
        ensures cause { MatchResult result (λ _. length self.old.history < 4096) (λ e. IsLookRefusal (length self.old.history) e) }
        ensures err { OnErr result (self.new ≡ self.old) }
    {
        if self.calls() == MOST_CALLS {
            return Err(BoardError::HistoryFull(MOST_CALLS));
        }
        let (snapshot, _receipt) = self.look_twice(alloc, desk)?;
        Ok(snapshot)
    }

    // Whether the state began from this airport and journal.
    pub(crate) fn began_from(&self, airport: &Airport, opening: &[Update]) -> bool
        ensures { IsTrue result ↔ ((self.now.airport ≡ airport.now) × (self.now.opening ≡ opening.now)) }
    {
        self.day.airport().is_same(airport)
            && is_same_journal(&self.day.journal()[..self.opened], opening)
    }

    // The first receipt that is not the desk's call at that place, or None where the desk's calls are the receipts.
    pub(crate) fn first_difference(&self, desk: usize, receipts: &[Receipt]) -> Option<usize>
        ensures { MatchOption result (calls_of desk self.now.history ≡ map call_of receipts.now) (λ k. IsFirstDifference (calls_of desk self.now.history) (map call_of receipts.now) k) }
    {
        first_difference(self.entries.as_slice(), desk, receipts)
    }

    // The history, and the day with its plan.
    pub(crate) fn into_parts(self) -> (History, DayState)
        ensures history { result.0 ≡ self.history }
        ensures day { result.1 ≡ day_now self }
    {
        let BoardState {
            opened: _,
            day,
            entries,
        } = self;
        (History { entries }, day)
    }
}

// Whether the receipt at this place is of the call of that receipt.
fn is_call_at(receipts: &[Receipt], place: usize, receipt: &Receipt) -> bool
    ensures same { IsTrue result ↔ (slice_get (map call_of receipts.now) place ≡ Some (call_of receipt.now)) }
    ensures within { IsTrue result → place < length receipts.now }
{
    match receipts.get(place) {
        Some(other) => is_same_call(receipt, other),
        None => false,
    }
}

// The number, from 1, of the first receipt that is not the desk's call at that place.
fn first_difference(entries: &[Entry], desk: usize, receipts: &[Receipt]) -> Option<usize>
    ensures { MatchOption result (calls_of desk (map entry_of entries.now) ≡ map call_of receipts.now) (λ k. IsFirstDifference (calls_of desk (map entry_of entries.now)) (map call_of receipts.now) k) }
{
    let mut next = 0;
    for entry in entries {
        if entry.desk == desk {
            if !is_call_at(receipts, next, &entry.receipt) {
                return Some(next + 1);
            }
            next += 1;
        }
    }
    if next < receipts.len() {
        Some(next + 1)
    } else {
        None
    }
}
