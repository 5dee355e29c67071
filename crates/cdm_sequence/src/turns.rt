//! The targets one by one, in the order of sequence.
ghost use Rattle.std.specs.Prelude.{◌≡◌, ◌+◌, ◌<◌, ◌≤◌, ◌++◌, [], length, map, IfOk, IsPermutation, IsSortedByKey};
ghost use Rattle.std.specs.Option.{option_to_list};
ghost use Rattle.cdm_flight.specs.Order.{key_cmp};
ghost use Rattle.cdm_runway.specs.Passed.{ArePassed};
ghost use Rattle.cdm_sequence.specs.Fixed.{takeoffs};
ghost use Rattle.cdm_sequence.specs.inner.Turns.{taken_in, IsDecided, AreDecided};

use crate::decision::Decision;
use crate::{Slot, Target};
use cdm_flight::push_last;
use cdm_runway::{PassedOver, Runway, RunwayLoad};
use std::alloc::{AllocError, Global};

// The targets one by one, borrowed.
fn borrowed(alloc: Global, targets: &[Target]) -> Result<Vec<&Target>, AllocError>
    ensures { IfOk result (λ v. map (λ t. t.now) v.items ≡ targets.now) }
{
    targets.iter().collect(alloc)
}

/// The targets in the order of sequence.
pub(crate) fn in_order(alloc: Global, targets: &[Target]) -> Result<Vec<&Target>, AllocError>
    ensures same { IfOk result (λ v. IsPermutation targets.now (map (λ t. t.now) v.items)) }
    ensures sorted { IfOk result (λ v. IsSortedByKey (λ t. t.now.key) key_cmp v.items) }
{
    let mut sorted = borrowed(alloc, targets)?;
    sorted.sort_unstable_by_key(|target| target.key);
    Ok(sorted)
}

/// The fixed flights take their minutes of the runway. A load is large, so it stays where it is.
pub(crate) fn take_fixed(load: &mut RunwayLoad, runway: &Runway, fixed: &[Slot])
    requires cell { load.old.cell ≡ runway.now.cell }
    requires none { load.old.taken ≡ [] }
    requires room { length fixed.now ≤ 2000 }
    ensures { load.new ≡ record { cell = runway.now.cell; taken = takeoffs runway.now fixed.now } }
{
    for flight in fixed {
        load.take(runway, flight.ttot, flight.group);
    }
}

// One flight's turn.
fn decide(
    runway: &Runway,
    load: &mut RunwayLoad,
    passed: &mut PassedOver,
    target: &Target,
) -> Decision
    requires cell { load.old.cell ≡ runway.now.cell }
    requires room { length load.old.taken < 2000 }
    requires passed { ArePassed runway.now load.old.taken passed.old }
    ensures target { result.target ≡ target.now }
    ensures decided { IsDecided runway.now load.old.taken result }
    ensures taken { load.new ≡ record load.old { taken = load.old.taken ++ option_to_list (taken_in runway.now result) } }
    ensures passed { ArePassed runway.now load.new.taken passed.new }
{
    let outcome = load.earliest_past(runway, target.window, target.group, passed);
    if let Ok(minute) = outcome {
        load.take(runway, minute, target.group);
    }
    Decision {
        target: *target,
        outcome,
    }
}

/// Each flight's turn, in the order of the list.
pub(crate) fn decide_all(
    alloc: Global,
    runway: &Runway,
    load: &mut RunwayLoad,
    targets: &[&Target],
) -> Result<Vec<Decision>, AllocError>
    requires cell { load.old.cell ≡ runway.now.cell }
    requires room { length load.old.taken + length targets.now ≤ 2000 }
    ensures targets { IfOk result (λ ds. map (λ d. d.target) ds.items ≡ map (λ t. t.now) targets.now) }
    ensures decided { IfOk result (λ ds. AreDecided runway.now load.old.taken ds.items) }
{
    let mut decisions = Vec::with_capacity(alloc, targets.len())?;
    let mut passed = PassedOver::none();
    for target in targets {
        let decision = decide(runway, load, &mut passed, target);
        push_last(&mut decisions, decision)?;
    }
    Ok(decisions)
}
