//! What changes by updates.
ghost use Rattle.std.specs.Prelude.{IfOk};
ghost use Rattle.cdm_table.specs.Comparison.{IsChanged};

use cdm_day::DayState;
use cdm_flight::{Listed, RefusalWord, Update};
use cdm_report::{Counts, indicators};
use cdm_scenario::Overlay;
use cdm_view::{Standing, changes_to};
use std::alloc::{AllocError, Global};

/// The indicators of the plan with all updates, and the standings that differ from those of the day, by name; or
/// the number of the first update that is refused, from 1, and its word.
pub(crate) type Changed = Result<(Counts, Listed<Standing>), (usize, RefusalWord)>;

/// What changes by updates over the base.
pub(crate) fn changed_by(
    alloc: Global,
    base: &DayState,
    updates: &[Update],
) -> Result<Changed, AllocError>
    ensures { IfOk result (IsChanged base.now updates.now) }
{
    match Overlay::after(alloc, base, updates)? {
        Ok(day) => {
            let plan = day.plan(alloc)?;
            let changed = changes_to(alloc, base, &day, &plan)?;
            Ok(Ok((indicators(&plan), Listed::new(changed))))
        }
        Err(refusal) => Ok(Err(refusal)),
    }
}
