//! What holds a flight.
ghost use Rattle.std.specs.Prelude.{◌≡◌, ◌++◌, IfErr, IfOk, OnOk, Some};
ghost use Rattle.std.specs.List.{find};
ghost use Rattle.std.specs.Option.{IsSomeAnd, option_copied, option_map_or};
ghost use Rattle.std.specs.String.{string_bytes};
ghost use Rattle.cdm_flight.specs.Journal.{flight_of};
ghost use Rattle.cdm_flight.specs.Names.{same_name};
ghost use Rattle.cdm_view.specs.Turns.{AreTurns};
ghost use Rattle.cdm_view.specs.Why.{AreWaits, IsWhy, IsWhyFault, exot_known, outcome_line, own_slot, waits_for};

use crate::fault::ViewFault;
use crate::lines::{push_flight, push_left, push_planned, push_runs, push_times};
use crate::runs::{Run, runs_of};
use crate::slots::slots_on;
use crate::turns::Turns;
use crate::waiting::{Waiting, exot_to, waiting_of};
use cdm_flight::{Flight, FlightName, Status};
use cdm_plan::Records;
use cdm_report::push_day;
use cdm_sequence::{BlockedFlight, Plan, Slot};
use cdm_time::{Bound, Day, Minute};
use std::alloc::{AllocError, Global};
use std::fmt::Write;

// The slot of the flight of this name.
fn slot_named(slots: &[Slot], name: FlightName) -> Option<&Slot>
    ensures { option_copied result ≡ find (λ s. same_name s.name name) slots.now }
{
    slots.iter().find(|slot| slot.name == name)
}

/// The flight's slot on its runway, if it has one.
pub fn own_slot<'a>(plan: &'a Plan, flight: &Flight) -> Option<&'a Slot>
    ensures { option_copied result ≡ own_slot plan.entry.now flight.now }
{
    let runway = flight.runway?;
    slot_named(slots_on(plan, runway), flight.name)
}

// The blocked flight of this name.
fn blocked_named(flights: &[BlockedFlight], name: FlightName) -> Option<&BlockedFlight>
    ensures { option_copied result ≡ find (λ b. same_name b.name name) flights.now }
{
    flights.iter().find(|flight| flight.name == name)
}

// The flight's taxi-out time: on its stand as it is known now, off-block as it was fixed then.
fn exot_known<R: Records>(records: &R, flight: &Flight) -> Option<u16>
    ensures { result ≡ exot_known (R.day records.now) flight.now flight.now.status }
{
    match flight.status {
        Status::Planned => exot_to(records, flight, flight.runway?),
        Status::OffBlock { exot, .. } => Some(exot),
        Status::Airborne { .. } | Status::Cancelled => None,
    }
}

// Where the waiting of a flight with this slot ends.
fn end_of_wait(slot: Option<&Slot>) -> Bound
    ensures { result ≡ option_map_or (λ s. s.ttot) (option_copied slot.entry) 2880 }
{
    match slot {
        Some(slot) => slot.ttot.into(),
        None => Bound::END,
    }
}

/// What the flight waits for on its stand: nothing once it has left or is cancelled, nor without a TOBT, a runway of the
/// airport and a taxi-out time to it.
#[tactic(auto, using(crate::proofs::WaitingLemmas::no_runway))]
pub fn waits_for<'a, R: Records>(
    alloc: Global,
    records: &'a R,
    plan: &Plan,
    flight: &'a Flight,
) -> Result<Option<Waiting<'a>>, AllocError>
    ensures { IfOk result (λ waiting. waiting ≡ waits_for (R.day records.now) plan.entry.now flight.now) }
{
    let Some(runway) = flight.runway else {
        return Ok(None);
    };
    waits_by(
        alloc,
        records,
        &Turns::of(alloc, records, plan, runway)?,
        flight,
    )
}

// What a flight of the runway of these turns waits for on its stand.
fn waits_by<'a, R: Records>(
    alloc: Global,
    records: &'a R,
    turns: &Turns<'_>,
    flight: &'a Flight,
) -> Result<Option<Waiting<'a>>, AllocError>
    requires turns { AreTurns (R.day records.now) turns.now }
    requires on { flight.now.runway ≡ Some turns.now.runway }
    ensures { IfOk result (λ waiting. waiting ≡ waits_for (R.day records.now) turns.now.plan.now flight.now) }
{
    if flight.status != Status::Planned {
        return Ok(None);
    }
    waiting_of(alloc, records, turns, flight)
}

/// The runs of minutes for which a planned flight waits for the same, from its TOBT and taxi-out time up to its
/// take-off, or up to the horizon's end where it is blocked. No run of a flight that waits for nothing.
#[tactic(auto, using(crate::proofs::WaitingLemmas::no_runway))]
pub fn waits_of<R: Records>(
    alloc: Global,
    records: &R,
    plan: &Plan,
    flight: &Flight,
) -> Result<Vec<Run>, AllocError>
    ensures { IfOk result (λ runs. AreWaits (R.day records.now) plan.entry.now flight.now runs.items) }
{
    match flight.runway {
        Some(runway) => {
            let turns = Turns::of(alloc, records, plan, runway)?;
            waits_among(alloc, records, &turns, flight)
        }
        None => Ok(Vec::new(alloc)),
    }
}

/// The runs of minutes for which a flight of the runway of these turns waits, as [`waits_of`] tells them by their plan.
pub fn waits_among<R: Records>(
    alloc: Global,
    records: &R,
    turns: &Turns<'_>,
    flight: &Flight,
) -> Result<Vec<Run>, AllocError>
    requires turns { AreTurns (R.day records.now) turns.now }
    requires on { flight.now.runway ≡ Some turns.now.runway }
    ensures { IfOk result (λ runs. AreWaits (R.day records.now) turns.now.plan.now flight.now runs.items) }
{
    match waits_by(alloc, records, turns, flight)? {
        Some(waiting) => runs_of(alloc, &waiting, end_of_wait(own_slot(turns.plan, flight))),
        None => Ok(Vec::new(alloc)),
    }
}

// What the plan gives the flight, or how far it has come.
#[tactic(auto, unfolding(crate::specs::Why::outcome_line))]
fn push_outcome(text: &mut String, day: Day, plan: &Plan, flight: &Flight) -> Result<(), AllocError>
    ensures { OnOk result (string_bytes text.new ≡ string_bytes text.old ++ outcome_line day plan.entry.now flight.now flight.now.status) }
{
    match flight.status {
        Status::Planned => {
            let blocked = blocked_named(plan.blocked.as_slice(), flight.name);
            push_planned(text, day, own_slot(plan, flight), blocked)
        }
        Status::OffBlock { aobt, exot } => {
            let ttot = Minute::new(aobt.get() + exot).unwrap();
            push_left(text, day, aobt, "TTOT", ttot)
        }
        Status::Airborne { aobt, atot } => push_left(text, day, aobt, "AIRBORNE", atot),
        Status::Cancelled => writeln!(text, "CANCELLED"),
    }
}

/// What holds a flight, as a text (local profile).
///
/// Its lines, each ended by LF, are the day and the minute that it is now, what is known of the
/// flight, the minutes at which it can't take off, each run of them with its reason, and what the plan
/// gives it or how far it has come. `NoFlight` where no such flight is known, and else only `Memory`.
#[tactic(auto, unfolding(crate::specs::Why::why_bytes))]
pub fn why<R: Records>(
    alloc: Global,
    day: &Day,
    records: &R,
    plan: &Plan,
    name: FlightName,
) -> Result<Vec<u8>, ViewFault>
    requires day { day.now ≡ (R.day records.now).airport.day }
    ensures text { let d = R.day records.now in
        IfOk result (λ text. IsSomeAnd (flight_of d.airport d.journal name) (λ f. IsWhy d plan.entry.now f text.items)) }
    ensures fault { let d = R.day records.now in
        IfErr result (λ fault. IsWhyFault (flight_of d.airport d.journal name) name fault) }
{
    let Some(flight) = records.flight(name) else {
        return Err(ViewFault::NoFlight(name));
    };
    let runs = waits_of(alloc, records, plan, flight)?;
    let mut text = String::new(alloc);
    push_day(&mut text, *day, plan.clock)?;
    push_flight(&mut text, flight)?;
    push_times(&mut text, *day, flight, exot_known(records, flight))?;
    push_runs(&mut text, *day, &runs)?;
    push_outcome(&mut text, *day, plan, flight)?;
    Ok(text.into_bytes())
}
