//! The plans of a runway and of a day.
ghost use Rattle.std.specs.Prelude.{◌≡◌, IfOk};

use crate::{BlockedFlight, SharedList, Slot};
use cdm_flight::{Listed, RunwayName};
use cdm_time::Minute;
use std::alloc::{AllocError, Global};
use std::marker::Model;

/// The plan of one runway: its slots by TTOT and then by name, and its blocked flights by name. It
/// has at most 2,000 flights. The slots may be shared with the plans of other days.
#[derive(Debug, Drop)]
pub struct RunwayPlan {
    pub runway: RunwayName,
    pub slots: SharedList<Slot>,
    pub blocked: Listed<BlockedFlight>,
}

impl Model for RunwayPlan {
    ghost use Rattle.cdm_sequence.specs.declared.plan.RunwayPlan.TheInside as inside;

    ghost Value = { inside.Inside };

    ghost use Rattle.cdm_sequence.specs.Slots.{KeepsRunwayOrder};

    ghost view = { λ p. p };

    ghost invariant = { λ p. KeepsRunwayOrder p.slots p.blocked };
}

impl RunwayPlan {
    /// The same plan once more, which shares the slots.
    pub fn copy(&self, alloc: Global) -> Result<RunwayPlan, AllocError>
        ensures { IfOk result (λ p. p ≡ self.now) }
    {
        let slots = self.slots.share()?;
        let blocked = Vec::from_slice(alloc, self.blocked.as_slice())?;
        Ok(RunwayPlan {
            runway: self.runway,
            slots,
            blocked: Listed::new(blocked),
        })
    }
}

/// The plan of a day: the minute that it is now, the plans of its runways by their names, and all
/// blocked flights by name. It has at most 2,000 flights.
#[derive(Debug)]
pub struct Plan {
    pub clock: Minute,
    pub runways: Listed<RunwayPlan>,
    pub blocked: Listed<BlockedFlight>,
}

// One call drops it, in place of its fields one by one at each exit of each function that owns it.
impl Drop for Plan {
    fn drop(self) {
        let Plan {
            clock: _,
            runways: _,
            blocked: _,
        } = self;
    }
}

impl Model for Plan {
    ghost use Rattle.cdm_sequence.specs.declared.plan.Plan.TheInside as inside;

    ghost Value = { inside.Inside };

    ghost use Rattle.cdm_sequence.specs.Slots.{KeepsPlanOrder};

    ghost view = { λ p. p };

    ghost invariant = { λ p. KeepsPlanOrder p.runways p.blocked };
}

impl Plan {
    /// The same plan once more.
    pub fn copy(&self, alloc: Global) -> Result<Plan, AllocError>
        ensures { IfOk result (λ p. p ≡ self.entry.now) }
    {
        let runways = copies(alloc, self.runways.as_slice())?;
        let blocked = Vec::from_slice(alloc, self.blocked.as_slice())?;
        Ok(Plan {
            clock: self.clock,
            runways: Listed::new(runways),
            blocked: Listed::new(blocked),
        })
    }
}

// The same plans once more.
fn copies(alloc: Global, plans: &[RunwayPlan]) -> Result<Vec<RunwayPlan>, AllocError>
    ensures { IfOk result (λ v. v.items ≡ plans.now) }
{
    let mut copies = Vec::new(alloc);
    for plan in plans {
        copies.push(plan.copy(alloc)?)?;
    }
    Ok(copies)
}
