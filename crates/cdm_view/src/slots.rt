//! The slots of a runway in a plan.
ghost use Rattle.std.specs.Prelude.{◌≡◌, IsSorted};
ghost use Rattle.std.specs.List.{find};
ghost use Rattle.std.specs.Option.{option_copied};
ghost use Rattle.cdm_flight.specs.Names.{same_name};
ghost use Rattle.cdm_sequence.specs.Slots.{slot_cmp};
ghost use Rattle.cdm_view.specs.Reasons.{slots_on};

use cdm_flight::RunwayName;
use cdm_sequence::{Plan, RunwayPlan, Slot};

// The plan of the runway of this name.
fn plan_on(plans: &[RunwayPlan], runway: RunwayName) -> Option<&RunwayPlan>
    ensures { option_copied result ≡ find (λ p. same_name p.runway runway) plans.now }
{
    plans.iter().find(|plan| plan.runway == runway)
}

// The slots that the plan has on a runway, and that they stand by take-off and name.
pub(crate) fn sorted_slots(plan: &Plan, runway: RunwayName) -> &[Slot]
    ensures slots { result.now ≡ slots_on plan.entry.now runway }
    ensures order { IsSorted slot_cmp result.now }
{
    match plan_on(plan.runways.as_slice(), runway) {
        Some(plan) => plan.slots.as_slice(),
        None => &[],
    }
}

/// The slots that the plan has on a runway.
pub fn slots_on(plan: &Plan, runway: RunwayName) -> &[Slot]
    ensures { result.now ≡ slots_on plan.entry.now runway }
{
    sorted_slots(plan, runway)
}
