//! All standings of a day, gathered from its plan and its records.
ghost use Rattle.std.specs.Prelude.{◌≡◌, ◌++◌, [], IsTrue, map, flat_map, IfOk, OnOk};
ghost use Rattle.std.specs.List.{cons_option, filter_map};
ghost use Rattle.std.specs.Option.{ForSome, option_copied};
ghost use Rattle.cdm_flight.specs.Record.{is_sound};
ghost use Rattle.cdm_plan.specs.DayPlan.{records_in};
ghost use Rattle.cdm_view.specs.declared.standing.Standing.TheVariants.{Blocked, OnRunway};
ghost use Rattle.cdm_view.specs.Standings.{cancelled, on_runway, standings_of};
ghost use Rattle.cdm_view.specs.inner.Known.{AllSound};

use crate::standing::Standing;
use cdm_flight::{Flight, RunwayName, Status, push_last};
use cdm_plan::Records;
use cdm_sequence::{BlockedFlight, Plan, RunwayPlan, Slot};
use std::alloc::{AllocError, Global};

/// Slots of a runway behind the others.
pub(crate) fn push_slots(
    standings: &mut Vec<Standing>,
    runway: RunwayName,
    slots: &[Slot],
) -> Result<(), AllocError>
    ensures { OnOk result (standings.new.items ≡ standings.old.items ++ map (OnRunway runway) slots.now) }
{
    for slot in slots {
        push_last(standings, Standing::OnRunway(runway, *slot))?;
    }
    Ok(())
}

// All slots of a runway behind the others.
fn push_plan(standings: &mut Vec<Standing>, plan: &RunwayPlan) -> Result<(), AllocError>
    ensures { OnOk result (standings.new.items ≡ standings.old.items ++ on_runway plan.now) }
{
    push_slots(standings, plan.runway, plan.slots.as_slice())
}

/// The slots of all runways behind the others.
pub(crate) fn push_runways(
    standings: &mut Vec<Standing>,
    plans: &[RunwayPlan],
) -> Result<(), AllocError>
    ensures { OnOk result (standings.new.items ≡ standings.old.items ++ flat_map on_runway plans.now) }
{
    for plan in plans {
        push_plan(standings, plan)?;
    }
    Ok(())
}

/// The blocked flights behind the others.
pub(crate) fn push_blocked(
    standings: &mut Vec<Standing>,
    flights: &[BlockedFlight],
) -> Result<(), AllocError>
    ensures { OnOk result (standings.new.items ≡ standings.old.items ++ map Blocked flights.now) }
{
    for flight in flights {
        push_last(standings, Standing::Blocked(*flight))?;
    }
    Ok(())
}

// The standing of the flight, if it is cancelled.
fn cancelled(flight: &Flight) -> Option<Standing>
    ensures value { result ≡ cancelled flight.now }
    ensures sound { IsTrue (is_sound flight.now.runway flight.now.status) }
{
    match flight.status {
        Status::Cancelled => Some(Standing::Cancelled(flight.name)),
        Status::Planned | Status::OffBlock { .. } | Status::Airborne { .. } => None,
    }
}

// The flight behind the others, if it is known and cancelled.
fn push_if_cancelled(
    standings: &mut Vec<Standing>,
    flight: Option<&Flight>,
) -> Result<(), AllocError>
    ensures pushed { OnOk result (standings.new.items ≡ standings.old.items ++ filter_map cancelled (cons_option (option_copied flight.entry) [])) }
    ensures sound { ForSome (option_copied flight.entry) (λ f. IsTrue (is_sound f.runway f.status)) }
{
    let Some(flight) = flight else {
        return Ok(());
    };
    match cancelled(flight) {
        Some(standing) => push_last(standings, standing),
        None => Ok(()),
    }
}

/// The cancelled flights behind the others.
pub(crate) fn push_cancelled<R: Records>(
    standings: &mut Vec<Standing>,
    records: &R,
) -> Result<(), AllocError>
    ensures pushed { let d = R.day records.now in
        OnOk result (standings.new.items ≡ standings.old.items ++ filter_map cancelled (records_in d.airport d.journal)) }
    ensures sound { OnOk result (AllSound (R.day records.now)) }
{
    for place in 0..records.flights() {
        push_if_cancelled(standings, records.flight_at(place))?;
    }
    Ok(())
}

/// All standings of a day with its plan, in no order.
pub(crate) fn all_standings<R: Records>(
    alloc: Global,
    records: &R,
    plan: &Plan,
) -> Result<Vec<Standing>, AllocError>
    ensures all { IfOk result (λ v. v.items ≡ standings_of (R.day records.now) plan.entry.now) }
    ensures sound { OnOk result (AllSound (R.day records.now)) }
{
    let mut standings = Vec::with_capacity(alloc, records.flights())?;
    push_runways(&mut standings, plan.runways.as_slice())?;
    push_blocked(&mut standings, plan.blocked.as_slice())?;
    push_cancelled(&mut standings, records)?;
    Ok(standings)
}
