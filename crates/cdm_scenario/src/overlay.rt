//! Further updates laid over the state of a day.
ghost use Rattle.std.specs.Prelude.{◌≡◌, IfOk, OnOk, OnErr};
ghost use Rattle.cdm_flight.specs.Accepted.{refusal_of};
ghost use Rattle.cdm_flight.specs.Reach.{reach_of};
ghost use Rattle.cdm_plan.specs.DayPlan.{IsDayPlan};
ghost use Rattle.cdm_plan.specs.Kept.{Adds, is_noted};
ghost use Rattle.cdm_plan.specs.declared.touched.Noting.TheVariants.{CountedFlights};
ghost use Rattle.cdm_sequence.specs.declared.plan.Plan.{Plan as APlan};
ghost use Rattle.cdm_day.specs.Replies.{reply_of};
ghost use Rattle.cdm_scenario.specs.Outcome.{IsLaid};
ghost use Rattle.cdm_scenario.specs.Overlay.{after_judged};

mod records;

use crate::laid::Laid;
use cdm_day::{Change, DayState, Records, Reply, Takes, judge};
use cdm_flight::{RefusalWord, Update};
use cdm_plan::{Kept, Noting, Touched, plan_keeping};
use cdm_sequence::Plan;
use std::alloc::{AllocError, Global};
use std::marker::Model;

// Notes what an update touches; where there is no memory for the name of a runway, that is all of them.
fn note<R: Records>(touched: &mut Touched, records: &R, update: &Update)
    ensures { Adds touched.old (is_noted CountedFlights (R.day records.now) (reach_of update.now)) touched.new }
{
    match touched.note(records, update, Noting::CountedFlights) {
        Ok(()) => {}
        Err(_) => *touched = Touched::All,
    }
}

/// The state of a day with further updates. It borrows the state and leaves it as it is, and knows which runways the
/// updates touch: on the others the plan of the day stands. A contract sees the airport and the longer journal alone.
pub struct Overlay<'a> {
    base: &'a DayState,
    laid: Laid<'a>,
    // The runways that the updates touched.
    touched: Touched,
}

// One call drops it, in place of its fields one by one at each exit of each function that owns it.
impl Drop for Overlay<'_> {
    fn drop(self) {
        let Overlay {
            base: _,
            laid: _,
            touched: _,
        } = self;
    }
}

impl<'a> Model for Overlay<'a> {
    ghost use Rattle.std.specs.Coded.{codes};
    ghost use Rattle.cdm_day.specs.inner.AirportCode.{airport_code};
    ghost use Rattle.cdm_plan.specs.Day.{DayRecord};

    ghost Value = { DayRecord };

    ghost coded = { Prim.hlevel (codes, airport_code) };

    ghost use Rattle.cdm_plan.specs.Kept.{IsSince};

    ghost view = { λ o. o.laid };

    ghost invariant = { λ o. IsSince o.base.now o.touched o.laid };
}

impl<'a> Overlay<'a> {
    /// The day without further updates. It takes no memory.
    pub fn over(alloc: Global, base: &'a DayState) -> Overlay<'a>
        ensures { result ≡ base.now }
    {
        Overlay {
            base,
            laid: Laid::over(alloc, base),
            touched: Touched::none(alloc),
        }
    }

    /// The day with all of the updates, or the number, from 1, of the first that is refused, and the word
    /// that refuses it.
    pub fn after(
        alloc: Global,
        base: &'a DayState,
        updates: &[Update],
    ) -> Result<Result<Overlay<'a>, (usize, RefusalWord)>, AllocError>
        ensures { IfOk result (IsLaid base.now updates.now) }
    {
        let mut overlay = Overlay::over(alloc, base);
        for (place, update) in updates.iter().enumerate() {
            match overlay.apply(alloc, update)? {
                Reply::Refused(word) => return Ok(Err((place + 1, word))),
                Reply::Accepted => {}
            }
        }
        Ok(Ok(overlay))
    }

    /// Judges an update and takes it, unless a word refuses it. Where there is no memory nothing
    /// changes.
    pub fn apply(&mut self, alloc: Global, update: &Update) -> Result<Reply, AllocError>
        ensures reply { IfOk result (λ reply. reply ≡ reply_of (refusal_of self.old.airport self.old.journal update.now)) }
        ensures ok { OnOk result (self.new ≡ after_judged self.old update.now) }
        ensures err { OnErr result (self.new ≡ self.old) }
    {
        match judge(self, update) {
            Err(word) => Ok(Reply::Refused(word)),
            Ok(change) => {
                self.take(alloc, *update, change)?;
                Ok(Reply::Accepted)
            }
        }
    }

    /// The plan of the day. On the runways that no update touched it is that of the day without the updates; the others are
    /// planned anew, all of them after a CLOCK or a TOL. No other plan is the day's.
    pub fn plan(&self, alloc: Global) -> Result<Plan, AllocError>
        ensures of_day { IfOk result (λ plan. IsDayPlan self.now plan) }
        ensures only { IfOk result (λ plan. (other : APlan) → IsDayPlan self.now other → other ≡ plan) }
    {
        // What the base's records tell is sound, which makes its plan the only one.
        let _values = self.base.values();
        let before = self.base.plan();
        let kept = Kept {
            plans: before.runways.as_slice(),
            blocked: before.blocked.as_slice(),
            touched: &self.touched,
        };
        let plan = plan_keeping(alloc, self, &kept)?;
        Ok(plan)
    }
}

impl Takes for Overlay<'_> {
    // A flight may have another runway after the update, so what it touches is noted before and after.
    fn take(&mut self, alloc: Global, update: Update, change: Change) -> Result<(), AllocError> {
        note(&mut self.touched, &self.laid, &update);
        self.laid.take(alloc, update, change)?;
        note(&mut self.touched, &self.laid, &update);
        Ok(())
    }
}
