//! Boards that desks share.
ghost use Rattle.std.specs.Prelude.{◌≡◌, ◌≤◌, List, length, IfOk, OnErr, MatchResult};
ghost use Rattle.cdm_flight.specs.declared.update.Update.{Update as AnUpdate};
ghost use Rattle.cdm_flight.specs.Journal.{AirportRows};
ghost use Rattle.cdm_board.specs.History.{Posts, Looks, IsDesk, answers_to, with_receipt, fresh_desks};
ghost use Rattle.cdm_board.specs.Refusals.{IsDeskRefusal};

use crate::desk::Desk;
use crate::fault::BoardError;
use crate::snapshot::Snapshot;
use crate::state::BoardState;
use cdm_day::{Airport, Reply};
use cdm_flight::{Role, Update};
use std::alloc::{AllocError, Global};
use std::marker::Model;
use std::sync::{Arc, Mutex, Wait};

/// A board that desks share: one lock round its state. A contract sees the airport and the journal that
/// it was opened with, and how many desks it has.
#[derive(Drop)]
pub struct Board {
    pub(crate) state: Mutex<BoardState>,
    pub(crate) airport: Arc<Airport>,
    pub(crate) opening: Arc<Vec<Update>>,
    pub(crate) desks: usize,
}

impl Model for Board {
    ghost use Rattle.std.specs.Coded.{codes};
    ghost use Rattle.cdm_day.specs.inner.AirportCode.{airport_code};
    ghost use Rattle.cdm_board.specs.History.{Opened, IsDesk};

    ghost Value = { Opened };

    ghost coded = { Prim.hlevel (codes, airport_code) };

    ghost use Rattle.std.specs.Arc.{arc_value};

    ghost view = { λ b. record { airport = arc_value b.airport; opening = (arc_value b.opening).items; desks = b.desks } };

    ghost invariant = { λ b. IsDesk b.desks };
}

// The desks 1 to `desks` without receipts.
pub(crate) fn numbered(alloc: Global, desks: usize) -> Result<Vec<Desk>, AllocError>
    requires { desks ≤ 16 }
    ensures { IfOk result (λ v. v.items ≡ fresh_desks desks) }
{
    let mut all = Vec::new(alloc);
    for before in 0..desks {
        all.push(Desk::new(alloc, before + 1))?;
    }
    Ok(all)
}

impl Board {
    /// Posts a batch for a desk, and adds to the desk the receipt of what it answers: the batch with the
    /// replies, which are those of a day, of which the lock tells no more. It may wait for the lock.
    ///
    /// `BatchSize` for more than 256 updates, else `HistoryFull` where the board took 4,096 calls, else
    /// `Memory`; the desk and the board are then as before.
    pub fn post<R: Wait>(
        &self,
        rt: &R,
        alloc: Global,
        desk: &mut Desk,
        batch: &[(Role, Update)],
    ) -> Result<Vec<Reply>, BoardError>
        ensures desk { IfOk result (λ r. desk.new ≡ with_receipt desk.old (Posts batch.now r.items)) }
        ensures replies { IfOk result (λ r. (g : AirportRows) × (a : List AnUpdate) × (r.items ≡ answers_to g a batch.now)) }
        ensures each { IfOk result (λ r. length r.items ≡ length batch.now) }
        ensures cause { MatchResult result (λ _. length batch.now ≤ 256) (λ e. IsDeskRefusal (length batch.now) e) }
        ensures err { OnErr result (desk.new ≡ desk.old) }
    {
        let mut guard = self.state.lock(rt);
        desk.post_to(&mut guard, alloc, batch)
    }

    /// The day as it is now, for a desk, to which the receipt of it is added. It may wait for the lock.
    ///
    /// `HistoryFull` where the board took 4,096 calls, else `Memory`; the desk and the board are then as
    /// before.
    pub fn look<R: Wait>(
        &self,
        rt: &R,
        alloc: Global,
        desk: &mut Desk,
    ) -> Result<Snapshot, BoardError>
        ensures desk { IfOk result (λ s. desk.new ≡ with_receipt desk.old (Looks s.airport s.journal)) }
        ensures cause { MatchResult result (λ _. Unit {0}) (λ e. IsDeskRefusal 0 e) }
        ensures err { OnErr result (desk.new ≡ desk.old) }
    {
        let mut guard = self.state.lock(rt);
        desk.look_at(&mut guard, alloc)
    }
}
