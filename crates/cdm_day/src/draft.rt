//! A day that a batch of updates is changing.
ghost use Rattle.std.specs.Prelude.{◌≡◌, map, IfOk, OnOk};
ghost use Rattle.cdm_flight.specs.Accepted.{refusal, after_one, accepted, replies_to};
ghost use Rattle.cdm_plan.specs.Day.{DayRecord};
ghost use Rattle.cdm_day.specs.Replies.{reply_of};
ghost use Rattle.cdm_plan.specs.Kept.{IsSince};

use crate::judging::judge_as;
use crate::reply::Reply;
use crate::tables::Tables;
use crate::takes::Takes;
use cdm_flight::{Role, Update};
use cdm_plan::{Noting, Touched};
use std::alloc::{AllocError, Global};

/// The tables of a day, and the runways that were touched since the batch began, by the updates of such flights.
#[derive(Drop)]
pub(crate) struct Draft {
    pub(crate) tables: Tables,
    pub(crate) touched: Touched,
    pub(crate) noting: Noting,
}

impl Draft {
    // Takes the update, unless a word refuses it, and tells which of the two was done.
    fn reply_to(&mut self, alloc: Global, role: Role, update: &Update) -> Result<Reply, AllocError>
        ensures day { OnOk result (self.new.tables ≡ record self.old.tables { journal = after_one self.old.tables.airport self.old.tables.journal (role, update.now) }) }
        ensures reply { IfOk result (λ reply. reply ≡ reply_of (refusal self.old.tables.airport self.old.tables.journal role update.now)) }
        ensures since { OnOk result ((first : DayRecord) → IsSince first self.old.touched self.old.tables → IsSince first self.new.touched self.new.tables) }
    {
        match judge_as(&self.tables, role, update) {
            Err(word) => Ok(Reply::Refused(word)),
            Ok(change) => {
                self.touched.note(&self.tables, update, self.noting)?;
                self.tables.take(alloc, *update, change)?;
                self.touched.note(&self.tables, update, self.noting)?;
                Ok(Reply::Accepted)
            }
        }
    }

    /// Judges each update of the batch in turn, and takes those that no word refuses.
    pub(crate) fn apply(
        &mut self,
        alloc: Global,
        batch: &[(Role, Update)],
    ) -> Result<Vec<Reply>, AllocError>
        ensures day { OnOk result (self.new.tables ≡ record self.old.tables { journal = accepted self.old.tables.airport self.old.tables.journal batch.now }) }
        ensures replies { IfOk result (λ replies. replies.items ≡ map reply_of (replies_to self.old.tables.airport self.old.tables.journal batch.now)) }
        ensures since { OnOk result ((first : DayRecord) → IsSince first self.old.touched self.old.tables → IsSince first self.new.touched self.new.tables) }
    {
        let mut replies = Vec::new(alloc);
        for (role, update) in batch {
            let reply = self.reply_to(alloc, *role, update)?;
            replies.push(reply)?;
        }
        Ok(replies)
    }
}
