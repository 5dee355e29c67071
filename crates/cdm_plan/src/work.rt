//! What there is to do for the plan of a day.
ghost use Rattle.std.specs.Prelude.{◌≡◌, ℕ, true, ◌+◌, ◌<◌, ◌≤◌, ◌++◌, ◌∷◌, [], false, not, filter, map, slice_get, All, IfOk, OnOk, vec_len, vec_capacity};
ghost use Rattle.std.specs.List.{cons_option};
ghost use Rattle.std.specs.Option.{option_copied};
ghost use Rattle.cdm_flight.specs.Journal.{taxi_of};
ghost use Rattle.cdm_sequence.specs.Aims.{TaxiTimes, own_exot};
ghost use Rattle.cdm_plan.specs.Brief.{counted_on};
ghost use Rattle.cdm_plan.specs.DayPlan.{AreByName, records_in};
ghost use Rattle.cdm_plan.specs.Kept.{asked_of, is_touched};
ghost use Rattle.cdm_plan.specs.Planning.{gone_of, planned_of};
ghost use Rattle.cdm_plan.specs.Sound.{IsSound};
ghost use Rattle.cdm_plan.specs.inner.Work.{HasExot, IsWork, is_standing};

use crate::aimed::Asked;
use crate::brief::Brief;
use crate::records::Records;
use crate::touched::Touched;
use cdm_flight::{Flight, Status, push_last};
use cdm_runway::Runway;
use std::alloc::{AllocError, Global};

/// What there is to do for the plan of a day, from the flights that count on no runway or on a touched one: those that have left
/// their stands or won't depart, those on their stands, which are asked when they could take off; all runways, and those that were
/// touched.
#[derive(Drop)]
pub(crate) struct Work<'a> {
    pub(crate) gone: Vec<&'a Flight>,
    pub(crate) asked: Vec<Asked<'a>>,
    pub(crate) runways: Vec<&'a Runway>,
    pub(crate) left: Vec<&'a Runway>,
}

// Puts one more behind the others, if there is one.
fn push_known<'a, T>(items: &mut Vec<&'a T>, item: Option<&'a T>) -> Result<(), AllocError>
    ensures { OnOk result (map (λ x. x.now) items.new.items ≡ map (λ x. x.now) items.old.items ++ cons_option (option_copied item.entry) []) }
{
    match item {
        Some(item) => push_last(items, item),
        None => Ok(()),
    }
}

// Puts a flight, unless it stands as it did, behind those that have left or behind those that are asked, which have room.
#[inline(always)]
fn push_touched<'a>(
    gone: &mut Vec<&'a Flight>,
    asked: &mut Vec<Asked<'a>>,
    touched: &Touched,
    flight: &'a Flight,
    brief: Brief,
)
    requires room { (vec_len gone.old < vec_capacity gone.old) × (vec_len asked.old < vec_capacity asked.old) }
    requires brief { brief.runway ≡ counted_on flight.now }
    ensures gone { map (λ f. f.now) gone.new.items ≡ map (λ f. f.now) gone.old.items ++ gone_of (asked_of touched.now (flight.now ∷ [])) }
    ensures asked { map (λ a. a.flight.now) asked.new.items
        ≡ map (λ a. a.flight.now) asked.old.items ++ planned_of (asked_of touched.now (flight.now ∷ [])) }
    ensures exots { (times : TaxiTimes) → own_exot times flight.now ≡ brief.exot → All (HasExot times) asked.old.items
        → All (HasExot times) asked.new.items }
    ensures len { (vec_len gone.new ≤ vec_len gone.old + 1) × (vec_len asked.new ≤ vec_len asked.old + 1) }
    ensures capacity { (vec_capacity gone.new ≡ vec_capacity gone.old) × (vec_capacity asked.new ≡ vec_capacity asked.old) }
{
    if touched.keeps(brief.runway) {
        return;
    }
    if flight.status == Status::Planned {
        asked.push_reserved(Asked {
            flight,
            exot: brief.exot,
        });
    } else {
        gone.push_reserved(flight);
    }
}

// Whether the flight at a place is kept in brief, and counts on a runway that wasn't touched.
#[inline(always)]
fn stands(briefs: &[Brief], touched: &Touched, place: usize) -> bool
    ensures { result ≡ is_standing touched.now (slice_get briefs.now place) }
{
    match briefs.get(place) {
        Some(brief) => touched.keeps(brief.runway),
        None => false,
    }
}

// The first place from this one on whose flight isn't kept in brief, or counts on a runway that was touched.
fn first_touched(briefs: &[Brief], touched: &Touched, from: usize) -> usize
    ensures from { from ≤ result }
    ensures before { (k : ℕ) → from ≤ k → k < result → is_standing touched.now (slice_get briefs.now k) ≡ true }
{
    let mut place = from;
    while stands(briefs, touched, place) {
        place += 1;
    }
    place
}

// The flights that count on no runway and those of the touched runways, in the order of first appearance: those that have left
// their stands or won't depart, and those that are asked.
fn touched_flights<'a, R: Records>(
    alloc: Global,
    records: &'a R,
    touched: &Touched,
) -> Result<(Vec<&'a Flight>, Vec<Asked<'a>>), AllocError>
    ensures sound { IsSound (R.day records.now) }
    ensures gone { IfOk result (λ v. let d = R.day records.now in
        map (λ f. f.now) v.0.items ≡ gone_of (asked_of touched.now (records_in d.airport d.journal))) }
    ensures asked { IfOk result (λ v. let d = R.day records.now in
        map (λ a. a.flight.now) v.1.items ≡ planned_of (asked_of touched.now (records_in d.airport d.journal))) }
    ensures exots { IfOk result (λ v. let d = R.day records.now in All (HasExot (taxi_of d.airport d.journal)) v.1.items) }
{
    let known = records.flights();
    let mut gone = Vec::with_capacity(alloc, known)?;
    let mut asked = Vec::with_capacity(alloc, known)?;
    let briefs = records.briefs();
    let mut place = first_touched(briefs, touched, 0);
    while place < known {
        let Some((flight, brief)) = records.known_at(place) else {
            place += 1;
            continue;
        };
        push_touched(&mut gone, &mut asked, touched, flight, brief);
        place = first_touched(briefs, touched, place + 1);
    }
    Ok((gone, asked))
}

// All runways by name.
fn all_runways<R: Records>(alloc: Global, records: &R) -> Result<Vec<&Runway>, AllocError>
    ensures { IfOk result (λ v. AreByName (R.day records.now) (map (λ r. r.now) v.items)) }
{
    let mut runways = Vec::with_capacity(alloc, records.runways())?;
    for place in 0..records.runways() {
        push_known(&mut runways, records.runway_at(place))?;
    }
    Ok(runways)
}

// The runways that were touched, in order.
fn touched_runways<'a>(
    alloc: Global,
    runways: &[&'a Runway],
    touched: &Touched,
) -> Result<Vec<&'a Runway>, AllocError>
    ensures { IfOk result (λ v. v.items ≡ filter (λ r. is_touched touched.now r.now.name) runways.now) }
{
    let mut left = Vec::with_capacity(alloc, runways.len())?;
    for runway in runways {
        let runway: &'a Runway = runway;
        if touched.has(runway.name()) {
            push_last(&mut left, runway)?;
        }
    }
    Ok(left)
}

/// What there is to do for the plan of the day that the records tell.
pub(crate) fn work_of<'a, R: Records>(
    alloc: Global,
    records: &'a R,
    touched: &Touched,
) -> Result<Work<'a>, AllocError>
    ensures { IfOk result (λ work. IsWork (R.day records.now) touched.now work) }
{
    let (gone, asked) = touched_flights(alloc, records, touched)?;
    let runways = all_runways(alloc, records)?;
    let left = touched_runways(alloc, &runways, touched)?;
    Ok(Work {
        gone,
        asked,
        runways,
        left,
    })
}
