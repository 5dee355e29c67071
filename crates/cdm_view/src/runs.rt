//! Runs of minutes for which a flight waits for the same.
ghost use Rattle.std.specs.Prelude.{◌≡◌, ◌+◌, ◌≤◌, ℕ, Option, Some, IfOk, OnOk};
ghost use Rattle.cdm_view.specs.declared.reason.Reason.{Reason as AReason};
ghost use Rattle.cdm_view.specs.Reasons.{reason_at};
ghost use Rattle.cdm_view.specs.Runs.{AreRuns};

use crate::reason::Reason;
use crate::waiting::Waiting;
use cdm_time::{Bound, Minute};
use std::alloc::{AllocError, Global};

/// Minutes one after another, from the first to the last, with the same reason.
#[derive(Debug, Drop)]
pub struct Run {
    pub first: Minute,
    pub last: Minute,
    pub reason: Reason,
}

// Puts a minute with a reason behind the runs of those before it.
fn add_minute(runs: &mut Vec<Run>, minute: Minute, reason: Reason) -> Result<(), AllocError>
    ensures { OnOk result ((told : ℕ → Option AReason) (from : ℕ) →
        AreRuns told from minute runs.old.items → from ≤ minute → told minute ≡ Some reason →
        AreRuns told from (minute + 1) runs.new.items) }
{
    if let Some(run) = runs.pop() {
        if run.last.get() + 1 == minute.get() && run.reason.is(&reason) {
            runs.push(Run {
                first: run.first,
                last: minute,
                reason,
            })?;
            return Ok(());
        }
        runs.push(run)?;
    }
    runs.push(Run {
        first: minute,
        last: minute,
        reason,
    })?;
    Ok(())
}

/// The runs of the flight's waiting from its TOBT and taxi-out time on, up to a bound.
pub(crate) fn runs_of(alloc: Global, waiting: &Waiting, to: Bound) -> Result<Vec<Run>, AllocError>
    ensures { IfOk result (λ runs. AreRuns (reason_at waiting.now) (waiting.now.tobt + waiting.now.exot) to runs.items) }
{
    let mut runs = Vec::new(alloc);
    let mut ahead = waiting.earlier.as_slice();
    for number in waiting.tobt.get() + waiting.exot..to.get() {
        let minute = Minute::new(number).unwrap();
        ahead = waiting.not_passed(minute, ahead);
        if let Some(reason) = waiting.reason_at(alloc, minute, ahead)? {
            add_minute(&mut runs, minute, reason)?;
        }
    }
    Ok(runs)
}
