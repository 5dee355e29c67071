//! What held a flight, minute by minute.
ghost use Rattle.std.specs.Prelude.{◌≡◌, IfOk, Some};
ghost use Rattle.cdm_shift.specs.Held.{causes_named, causes_of, causes_until};

use cdm_flight::{Flight, FlightName, push_last};
use cdm_plan::Records;
use cdm_sequence::{Plan, Slot};
use cdm_time::Minute;
use cdm_view::{Cause, Waiting, own_slot, waits_for};
use std::alloc::{AllocError, Global};

// The causes of the minutes from the earliest at which the flight could take off up to its take-off.
fn causes_up_to(alloc: Global, waiting: &Waiting<'_>, slot: &Slot) -> Result<Vec<Cause>, AllocError>
    ensures { IfOk result (λ causes. causes.items ≡ causes_until (Some waiting.now) (Some slot.now)) }
{
    let mut causes = Vec::new(alloc);
    for number in waiting.earliest()..slot.ttot.get() {
        if let Some(cause) = waiting.cause_at(Minute::at(number)) {
            push_last(&mut causes, cause)?;
        }
    }
    Ok(causes)
}

// What held the flight on its stand.
fn causes_of<R: Records>(
    alloc: Global,
    records: &R,
    plan: &Plan,
    flight: &Flight,
) -> Result<Vec<Cause>, AllocError>
    ensures { IfOk result (λ causes. causes.items ≡ causes_of (R.day records.now) plan.entry.now flight.now) }
{
    let waiting = waits_for(alloc, records, plan, flight)?;
    match (&waiting, own_slot(plan, flight)) {
        (Some(waiting), Some(slot)) => causes_up_to(alloc, waiting, slot),
        _ => Ok(Vec::new(alloc)),
    }
}

/// What held the flight of this name on its stand, minute by minute from the earliest minute at which it could take off up to its
/// take-off: nothing where it isn't known, doesn't wait or has no slot.
#[tactic(auto, unfolding(crate::specs::Held::causes_named))]
pub(crate) fn causes_named<R: Records>(
    alloc: Global,
    records: &R,
    plan: &Plan,
    name: FlightName,
) -> Result<Vec<Cause>, AllocError>
    ensures { IfOk result (λ causes. causes.items ≡ causes_named (R.day records.now) plan.entry.now name) }
{
    match records.flight(name) {
        Some(flight) => causes_of(alloc, records, plan, flight),
        None => Ok(Vec::new(alloc)),
    }
}
