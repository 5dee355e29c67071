//! One runway's sequence.
ghost use Rattle.std.specs.Prelude.{◌≡◌, ℕ, ◌+◌, ◌≤◌, ◌++◌, length, map, All, Contains, IfOk, IsPermutation, IsSorted, IsSortedByKey, IsTrue};
ghost use Rattle.std.specs.List.{filter_map, IsDistinct};
ghost use Rattle.std.specs.Option.{option_map};
ghost use Rattle.cdm_flight.specs.Names.{name_cmp, same_name};
ghost use Rattle.cdm_sequence.specs.Fixed.{takeoffs};
ghost use Rattle.cdm_sequence.specs.Plan.{Placing, IsFirst};
ghost use Rattle.cdm_sequence.specs.Sequence.{IsSequence, IsSequenceBy, flight_names, planned_slot};
ghost use Rattle.cdm_sequence.specs.Slots.{is_fixed, slot_cmp};
ghost use Rattle.cdm_sequence.specs.declared.target.Target.{Target as ATarget};
ghost use Rattle.cdm_sequence.specs.inner.Turns.{blocked_from, placed_at};

use crate::decision::Decision;
use crate::turns::{decide_all, in_order, take_fixed};
use crate::{BlockedFlight, RunwayPlan, SharedList, Slot, Target};
use cdm_flight::{Listed, RunwayName};
use cdm_runway::{Runway, RunwayLoad};
use std::alloc::{AllocError, Global};

// The slot of the flight, if it got a minute.
fn slot_given(decision: &Decision) -> Option<Slot>
    ensures { result ≡ option_map (planned_slot decision.now.target) (placed_at decision.now.outcome) }
{
    match decision.outcome {
        Ok(minute) => Some(decision.target.slot(minute)),
        Err(_) => None,
    }
}

// The slots of the fixed flights and of the decisions that gave a minute, in order.
fn slots_given(
    alloc: Global,
    fixed: &[Slot],
    decisions: &[Decision],
) -> Result<Vec<Slot>, AllocError>
    ensures { IfOk result (λ v. v.items ≡ fixed.now ++ filter_map (λ d. option_map (planned_slot d.target) (placed_at d.outcome)) decisions.now) }
{
    let given = decisions.iter().filter_map(slot_given);
    fixed.iter().copied().chain(given).collect(alloc)
}

// The same slots by take-off and name.
fn slots_of(alloc: Global, fixed: &[Slot], decisions: &[Decision]) -> Result<Vec<Slot>, AllocError>
    ensures same { IfOk result (λ v. IsPermutation
        (fixed.now ++ filter_map (λ d. option_map (planned_slot d.target) (placed_at d.outcome)) decisions.now) v.items) }
    ensures sorted { IfOk result (λ v. IsSorted slot_cmp v.items) }
{
    let mut slots = slots_given(alloc, fixed, decisions)?;
    slots.sort_unstable_by_key(|slot| (slot.ttot, slot.name));
    Ok(slots)
}

// The flight, if it got no minute, and why.
fn blocked_by(decision: &Decision) -> Option<BlockedFlight>
    ensures { result ≡ blocked_from decision.now.target decision.now.outcome }
{
    match decision.outcome {
        Ok(_) => None,
        Err(reason) => Some(BlockedFlight {
            name: decision.target.key.name,
            rule: reason.into(),
        }),
    }
}

// The flights of the decisions that gave no minute, in order.
fn blocked_given(alloc: Global, decisions: &[Decision]) -> Result<Vec<BlockedFlight>, AllocError>
    ensures { IfOk result (λ v. v.items ≡ filter_map (λ d. blocked_from d.target d.outcome) decisions.now) }
{
    decisions.iter().filter_map(blocked_by).collect(alloc)
}

// The same flights by name.
fn blocked_of(alloc: Global, decisions: &[Decision]) -> Result<Vec<BlockedFlight>, AllocError>
    ensures same { IfOk result (λ v. IsPermutation (filter_map (λ d. blocked_from d.target d.outcome) decisions.now) v.items) }
    ensures sorted { IfOk result (λ v. IsSortedByKey (λ b. b.name) name_cmp v.items) }
{
    let mut blocked = blocked_given(alloc, decisions)?;
    blocked.sort_unstable_by_key(|flight| flight.name);
    Ok(blocked)
}

// What is shown of the fixed flights and the decisions.
fn shown(
    alloc: Global,
    runway: RunwayName,
    fixed: &[Slot],
    decisions: &[Decision],
) -> Result<RunwayPlan, AllocError>
    requires { length fixed.now + length decisions.now ≤ 2000 }
    ensures runway { IfOk result (λ plan. plan.runway ≡ runway) }
    ensures slots { IfOk result (λ plan. IsPermutation
        (fixed.now ++ filter_map (λ d. option_map (planned_slot d.target) (placed_at d.outcome)) decisions.now) plan.slots) }
    ensures slot_order { IfOk result (λ plan. IsSorted slot_cmp plan.slots) }
    ensures blocked { IfOk result (λ plan. IsPermutation
        (filter_map (λ d. blocked_from d.target d.outcome) decisions.now) plan.blocked) }
    ensures blocked_order { IfOk result (λ plan. IsSortedByKey (λ b. b.name) name_cmp plan.blocked) }
{
    let slots = slots_of(alloc, fixed, decisions)?;
    let blocked = blocked_of(alloc, decisions)?;
    Ok(RunwayPlan {
        runway,
        slots: SharedList::new(alloc, slots)?,
        blocked: Listed::new(blocked),
    })
}

/// The sequence of one runway: each planned flight, in the order of priority, TOBT and name, gets
/// the earliest minute of its window at which the runway is open, it meets no other flight, and the
/// cell has room, after the fixed flights, which have left their stands, and the flights before it. The others are
/// blocked. The targets may come in any order.
pub fn sequence(
    alloc: Global,
    runway: &Runway,
    fixed: &[Slot],
    targets: &[Target],
) -> Result<RunwayPlan, AllocError>
    requires runway { All (λ f. f.runway ≡ runway.now.name) targets.now }
    requires fixed { All (λ x. IsTrue (is_fixed x.mark)) fixed.now }
    requires names { IsDistinct same_name (flight_names fixed.now targets.now) }
    requires few { length fixed.now + length targets.now ≤ 2000 }
    ensures sequence { IfOk result (λ plan. IsSequence runway.now fixed.now targets.now plan) }

    // Each flight stands once, among the slots or among the blocked flights.
    ensures each_once { IfOk result (λ plan. IsPermutation (flight_names fixed.now targets.now)
        (map (λ s. s.name) plan.slots ++ map (λ b. b.name) plan.blocked)) }

    // The plan's placing is allowed, and no allowed placing is earlier at the first flight, in the
    // order of sequence, at which the two differ; no other placing is so.
    ensures first { IfOk result (λ plan. (placing : Placing) → IsSequenceBy placing runway.now fixed.now targets.now plan →
        IsFirst runway.now (takeoffs runway.now fixed.now) targets.now placing) }
    ensures only { IfOk result (λ plan. (placing other : Placing) → IsSequenceBy placing runway.now fixed.now targets.now plan →
        IsFirst runway.now (takeoffs runway.now fixed.now) targets.now other →
        (f : ATarget) → Contains targets.now f → other f ≡ placing f) }
{
    // A load is large: made first, it is filled once.
    let mut load = RunwayLoad::empty(runway);
    take_fixed(&mut load, runway, fixed);
    let ordered = in_order(alloc, targets)?;
    let decisions = decide_all(alloc, runway, &mut load, &ordered)?;
    let plan = shown(alloc, runway.name(), fixed, &decisions)?;
    Ok(plan)
}
