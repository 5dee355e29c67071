//! A day with updates that it is still to take.
ghost use Rattle.std.specs.Prelude.{◌≡◌, ◌≤◌, IfOk, unwrap_or};
ghost use Rattle.cdm_desk.specs.Replies.{day_after};
ghost use Rattle.cdm_flight.specs.Journal.{clock_given, values_of};

use cdm_day::Records;
use cdm_desk::DeskDay;
use cdm_flight::{RefusalWord, Role, Update, push_last};
use cdm_time::{Day, Minute};
use std::alloc::{AllocError, Global};
use std::marker::Model;

/// How many updates a batch has at most: more than a day accepts, so a feed with few refused records is one batch.
const MOST_IN_A_BATCH: usize = 32_768;

/// The desk of a day, and updates that it is to take behind its own as one batch, with one plan for all. A contract sees
/// the day that has taken them.
#[derive(Drop)]
pub(crate) struct BatchedDay {
    desk: DeskDay,
    batch: Vec<(Role, Update)>,
    // The clock is this minute at most.
    latest: Minute,
}

impl Model for BatchedDay {
    ghost use Rattle.std.specs.Coded.{codes};
    ghost use Rattle.cdm_day.specs.inner.AirportCode.{airport_code};
    ghost use Rattle.cdm_plan.specs.Day.{DayRecord};

    ghost Value = { DayRecord };

    ghost coded = { Prim.hlevel (codes, airport_code) };

    ghost use Rattle.std.specs.Prelude.{◌≤◌};
    ghost use Rattle.cdm_flight.specs.Accepted.{accepted};
    ghost use Rattle.cdm_flight.specs.Journal.{values_of};

    ghost view = { λ d. record d.desk { journal = accepted d.desk.airport d.desk.journal d.batch.items } };

    ghost invariant = { λ d. (values_of (accepted d.desk.airport d.desk.journal d.batch.items)).clock ≤ d.latest };
}

// The later one of a minute and the one that a CLOCK names.
fn later(latest: Minute, update: &Update) -> Minute
    ensures before { latest ≤ result }
    ensures named { unwrap_or (clock_given update.now) 0 ≤ result }
{
    match *update {
        Update::Clock { now } => {
            if now.get() > latest.get() {
                now
            } else {
                latest
            }
        }
        _ => latest,
    }
}

impl BatchedDay {
    /// The day of a desk.
    pub(crate) fn new(alloc: Global, desk: DeskDay) -> BatchedDay
        ensures { result ≡ desk }
    {
        let latest = desk.state().values().clock;
        BatchedDay {
            desk,
            batch: Vec::new(alloc),
            latest,
        }
    }

    /// The horizon's first day.
    pub(crate) fn day(&self) -> Day
        ensures { result ≡ self.now.airport.day }
    {
        *self.desk.state().day()
    }

    /// A minute that the clock does not pass with this record.
    pub(crate) fn latest_after(&self, spelled: &Result<(Role, Update), RefusalWord>) -> Minute
        ensures { (values_of (day_after self.now spelled.now).journal).clock ≤ result }
    {
        match spelled {
            Ok((_, update)) => later(self.latest, update),
            Err(_) => self.latest,
        }
    }

    /// The desk of the day, which has taken the batch.
    pub(crate) fn taken(self, alloc: Global) -> Result<DeskDay, AllocError>
        ensures { IfOk result (λ desk. desk ≡ self) }
    {
        if self.batch.is_empty() {
            return Ok(self.desk);
        }
        let own = self.desk.state().copy(alloc)?;
        let (state, _) = own.after(alloc, &self.batch)?;
        Ok(DeskDay::new(state))
    }

    // The same day, with room in its batch.
    fn with_room(self, alloc: Global) -> Result<BatchedDay, AllocError>
        ensures { IfOk result (λ d. d ≡ self) }
    {
        if self.batch.len() < MOST_IN_A_BATCH {
            return Ok(self);
        }
        let desk = self.taken(alloc)?;
        Ok(BatchedDay::new(alloc, desk))
    }

    /// The day after a record, whose update is the last of the batch.
    pub(crate) fn with_record(
        self,
        alloc: Global,
        spelled: &Result<(Role, Update), RefusalWord>,
    ) -> Result<BatchedDay, AllocError>
        ensures { IfOk result (λ d. d ≡ day_after self spelled.now) }
    {
        let Ok(update) = spelled else {
            return Ok(self);
        };
        let latest = self.latest_after(spelled);
        let day = self.with_room(alloc)?;
        let BatchedDay {
            desk,
            mut batch,
            ..
        } = day;
        push_last(&mut batch, *update)?;
        Ok(BatchedDay {
            desk,
            batch,
            latest,
        })
    }
}
