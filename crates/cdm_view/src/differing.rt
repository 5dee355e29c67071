//! Where the standings of a day differ from those of an earlier day.
ghost use Rattle.std.specs.Prelude.{◌≡◌, ◌++◌, List, IsPermutation, IsSortedByKey, None, false, map, IfOk, OnOk};
ghost use Rattle.std.specs.List.{IsDistinct, filter_map, flat_map};
ghost use Rattle.cdm_flight.specs.Accepted.{refusal_of};
ghost use Rattle.cdm_flight.specs.Journal.{is_cancel};
ghost use Rattle.cdm_flight.specs.Names.{name_cmp, same_name};
ghost use Rattle.cdm_plan.specs.Day.{with_update};
ghost use Rattle.cdm_plan.specs.DayPlan.{IsDayPlan, records_in};
ghost use Rattle.cdm_plan.specs.Kept.{AreSameElsewhere, IsSince, is_touched};
ghost use Rattle.cdm_plan.specs.Sound.{IsSound};
ghost use Rattle.cdm_view.specs.declared.standing.Standing.{Standing as Stood};
ghost use Rattle.cdm_view.specs.declared.standing.Standing.TheVariants.{Blocked, OnRunway};
ghost use Rattle.cdm_view.specs.Standings.{IsChangedTo, cancelled, changes, flight_name, on_runway};
ghost use Rattle.cdm_view.specs.inner.Left.{AreLeft, AreRests};

use crate::gathering::{push_blocked, push_cancelled, push_runways, push_slots};
use crate::rests::rests_of;
use crate::standing::Standing;
use crate::standings::Standings;
use cdm_day::DayState;
use cdm_flight::Update;
use cdm_plan::{Noting, Records, Touched};
use cdm_sequence::{BlockedFlight, Plan, RunwayPlan, Slot};
use cdm_time::Day;
use std::alloc::{AllocError, Global};

/// Standings of two days, in no order, without some that both days have.
#[derive(Drop)]
pub(crate) struct Differing {
    before: Vec<Standing>,
    after: Vec<Standing>,
}

// The slots of a runway on two days, without those that it has on both.
fn slots_between(
    alloc: Global,
    before: &RunwayPlan,
    after: &RunwayPlan,
) -> Result<(Vec<Slot>, Vec<Slot>), AllocError>
    ensures { IfOk result (λ rests. AreRests (on_runway before.now) (on_runway after.now)
        (map (OnRunway before.now.runway) rests.0.items) (map (OnRunway after.now.runway) rests.1.items)) }
{
    let (slots, others) = (before.slots.as_slice(), after.slots.as_slice());
    if before.runway != after.runway {
        return Ok((
            Vec::from_slice(alloc, slots)?,
            Vec::from_slice(alloc, others)?,
        ));
    }
    let rests = rests_of(alloc, slots, others)?;
    Ok(rests)
}

// The slots of a runway behind the others, without those that it has on both days.
fn push_runway(
    alloc: Global,
    differing: &mut Differing,
    before: &RunwayPlan,
    after: &RunwayPlan,
) -> Result<(), AllocError>
    ensures { OnOk result ((first second : List Stood) → AreLeft first second differing.old
        → AreLeft (first ++ on_runway before.now) (second ++ on_runway after.now) differing.new) }
{
    let (slots, others) = slots_between(alloc, before, after)?;
    push_slots(&mut differing.before, before.runway, &slots)?;
    push_slots(&mut differing.after, after.runway, &others)?;
    Ok(())
}

// The slots of a runway behind the others, as above, unless it was not touched: then they are the same on both days.
fn push_if_touched(
    alloc: Global,
    differing: &mut Differing,
    touched: &Touched,
    before: &RunwayPlan,
    after: &RunwayPlan,
) -> Result<(), AllocError>
    requires { before.now.runway ≡ after.now.runway → is_touched touched.now before.now.runway ≡ false → before.now ≡ after.now }
    ensures { OnOk result ((first second : List Stood) → AreLeft first second differing.old
        → AreLeft (first ++ on_runway before.now) (second ++ on_runway after.now) differing.new) }
{
    if before.runway == after.runway && !touched.has(before.runway) {
        return Ok(());
    }
    push_runway(alloc, differing, before, after)
}

// The slots of the runways, but those of a runway that has the same on both days.
fn differing_slots(
    alloc: Global,
    touched: &Touched,
    before: &[RunwayPlan],
    after: &[RunwayPlan],
) -> Result<Differing, AllocError>
    requires { AreSameElsewhere touched.now before.now after.now }
    ensures { IfOk result (λ left. AreLeft (flat_map on_runway before.now) (flat_map on_runway after.now) left) }
{
    let mut differing = Differing {
        before: Vec::new(alloc),
        after: Vec::new(alloc),
    };
    if before.len() != after.len() {
        push_runways(&mut differing.before, before)?;
        push_runways(&mut differing.after, after)?;
        return Ok(differing);
    }
    for place in 0..before.len() {
        push_if_touched(
            alloc,
            &mut differing,
            touched,
            &before[place],
            &after[place],
        )?;
    }
    Ok(differing)
}

// The blocked flights behind the others, without those that both days have.
fn push_blocked_of(
    alloc: Global,
    differing: &mut Differing,
    before: &[BlockedFlight],
    after: &[BlockedFlight],
) -> Result<(), AllocError>
    ensures { OnOk result ((first second : List Stood) → AreLeft first second differing.old
        → AreLeft (first ++ map Blocked before.now) (second ++ map Blocked after.now) differing.new) }
{
    let (flights, others) = rests_of(alloc, before, after)?;
    push_blocked(&mut differing.before, &flights)?;
    push_blocked(&mut differing.after, &others)?;
    Ok(())
}

// The cancelled flights of a day.
fn cancelled_of<R: Records>(alloc: Global, records: &R) -> Result<Vec<Standing>, AllocError>
    ensures all { let d = R.day records.now in IfOk result (λ v. v.items ≡ filter_map cancelled (records_in d.airport d.journal)) }
    ensures sound { OnOk result (IsSound (R.day records.now)) }
{
    let mut standings = Vec::new(alloc);
    push_cancelled(&mut standings, records)?;
    Ok(standings)
}

// The cancelled flights behind the others, without those that both days have.
fn push_cancelled_of<R: Records>(
    alloc: Global,
    differing: &mut Differing,
    before: &DayState,
    after: &R,
) -> Result<(), AllocError>
    ensures pushed { let d = before.now in let next = R.day after.now in
        OnOk result ((first second : List Stood) → AreLeft first second differing.old
        → AreLeft (first ++ filter_map cancelled (records_in d.airport d.journal))
        (second ++ filter_map cancelled (records_in next.airport next.journal)) differing.new) }
    ensures sound { OnOk result (IsSound (R.day after.now)) }
{
    let cancelled = cancelled_of(alloc, before)?;
    let cancelled_after = cancelled_of(alloc, after)?;
    let (standings, others) = rests_of(alloc, &cancelled, &cancelled_after)?;
    differing.before.extend_from_slice(&standings)?;
    differing.after.extend_from_slice(&others)?;
    Ok(())
}

// Whether the update cancels a flight.
fn is_cancel(update: &Update) -> bool
    ensures { result ≡ is_cancel update.now }
{
    matches!(update, Update::Cnl { .. })
}

// The cancelled flights behind the others, as above, if the update cancels one: otherwise they are the same on both days.
fn push_cancelled_by(
    alloc: Global,
    differing: &mut Differing,
    update: &Update,
    before: &DayState,
    after: &DayState,
) -> Result<(), AllocError>
    requires accepted { refusal_of before.now.airport before.now.journal update.now ≡ None }
    requires after { after.now ≡ with_update before.now update.now }
    ensures { OnOk result ((first second : List Stood) → AreLeft first second differing.old
        → AreLeft (first ++ filter_map cancelled (records_in before.now.airport before.now.journal))
        (second ++ filter_map cancelled (records_in after.now.airport after.now.journal)) differing.new) }
{
    if !is_cancel(update) {
        return Ok(());
    }
    push_cancelled_of(alloc, differing, before, after)
}

// The runways that an update touches, on the day before it and on the day after it.
fn touched_by(
    alloc: Global,
    update: &Update,
    before: &DayState,
    after: &DayState,
) -> Result<Touched, AllocError>
    requires { after.now ≡ with_update before.now update.now }
    ensures { IfOk result (λ touched. IsSince before.now touched after.now) }
{
    let mut touched = Touched::none(alloc);
    touched.note(before, update, Noting::CountedFlights)?;
    touched.note(after, update, Noting::CountedFlights)?;
    Ok(touched)
}

// The slots and the blocked flights of two plans, without those that both have.
fn differing_plans(
    alloc: Global,
    touched: &Touched,
    plan: &Plan,
    next: &Plan,
) -> Result<Differing, AllocError>
    requires { AreSameElsewhere touched.now plan.now.runways next.now.runways }
    ensures { let p = plan.entry.now in let q = next.entry.now in IfOk result (λ left.
        AreLeft (flat_map on_runway p.runways ++ map Blocked p.blocked) (flat_map on_runway q.runways ++ map Blocked q.blocked) left) }
{
    let (plans, others) = (plan.runways.as_slice(), next.runways.as_slice());
    let mut differing = differing_slots(alloc, touched, plans, others)?;
    let (blocked, others) = (plan.blocked.as_slice(), next.blocked.as_slice());
    push_blocked_of(alloc, &mut differing, blocked, others)?;
    Ok(differing)
}

// The changes by what is left of the standings of two days: by name, those of the second that were not told before.
fn changes_of(alloc: Global, day: &Day, differing: Differing) -> Result<Vec<Standing>, AllocError>
    requires before { IsDistinct same_name (map flight_name differing.before.items) }
    requires after { IsDistinct same_name (map flight_name differing.after.items) }
    ensures all { IfOk result (λ changed. IsPermutation (changes day.now differing.before.items differing.after.items) changed.items) }
    ensures by_name { IfOk result (λ changed. IsSortedByKey flight_name name_cmp changed.items) }
{
    let told = Standings::by_name(differing.before);
    let standings = Standings::by_name(differing.after);
    let changed = standings.changes(alloc, day, &told)?;
    Ok(changed)
}

/// The changes from a day to another with its plan: by name, the standings of the flights that stand otherwise there, or
/// were not known before. Only the standings that differ are sorted.
pub fn changes_to<R: Records>(
    alloc: Global,
    before: &DayState,
    after: &R,
    plan: &Plan,
) -> Result<Vec<Standing>, AllocError>
    requires { IsDayPlan (R.day after.now) plan.now }
    ensures { IfOk result (λ changed. IsChangedTo before.now (R.day after.now) changed.items) }
{
    let mut differing = differing_plans(alloc, &Touched::All, before.plan(), plan)?;
    push_cancelled_of(alloc, &mut differing, before, after)?;
    let changed = changes_of(alloc, before.day(), differing)?;
    Ok(changed)
}

/// The changes that an update makes to a day which does not refuse it: by name, the standings of the flights that stand
/// otherwise after it, or were not known before. Only the runways that it touches are gone through.
pub fn changes_by(
    alloc: Global,
    update: &Update,
    before: &DayState,
    after: &DayState,
) -> Result<Vec<Standing>, AllocError>
    requires accepted { refusal_of before.now.airport before.now.journal update.now ≡ None }
    requires after { after.now ≡ with_update before.now update.now }
    ensures { IfOk result (λ changed. IsChangedTo before.now after.now changed.items) }
{
    let touched = touched_by(alloc, update, before, after)?;
    let mut differing = differing_plans(alloc, &touched, before.plan(), after.plan())?;
    push_cancelled_by(alloc, &mut differing, update, before, after)?;
    let changed = changes_of(alloc, before.day(), differing)?;
    Ok(changed)
}
