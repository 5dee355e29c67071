//! The standings of a day's flights, and those that changed.
ghost use Rattle.std.specs.Prelude.{◌≡◌, List, IsPermutation, map, IfOk};
ghost use Rattle.std.specs.List.{IsDistinct, find};
ghost use Rattle.std.specs.Option.{option_copied};
ghost use Rattle.cdm_flight.specs.Names.{same_name};
ghost use Rattle.cdm_plan.specs.DayPlan.{IsDayPlan};
ghost use Rattle.cdm_view.specs.declared.standing.Standing.{Standing as Stood};
ghost use Rattle.cdm_view.specs.Standings.{AreStandings, KeepsFlights, changes, flight_name};
ghost use Rattle.cdm_view.specs.inner.Passed.{from_name, is_first_told};

use crate::gathering::all_standings;
use crate::standing::{Standing, are_told_alike};
use cdm_flight::{FlightName, push_last};
use cdm_plan::Records;
use cdm_sequence::Plan;
use cdm_time::Day;
use std::alloc::{AllocError, Global};
use std::marker::Model;

/// Where the known flights of a day stand, by name.
#[derive(Debug, Drop)]
pub struct Standings {
    items: Vec<Standing>,
}

impl Model for Standings {
    ghost use Rattle.std.specs.Prelude.{List};
    ghost use Rattle.cdm_view.specs.declared.standing.Standing.{Standing as Stood};
    ghost use Rattle.cdm_view.specs.Standings.{KeepsFlights};

    ghost Value = { List Stood };

    ghost view = { λ s. s.items.items };

    ghost invariant = { λ s. KeepsFlights s.items.items };
}

// The standing of the flight of this name.
fn standing_of(standings: &[Standing], name: FlightName) -> Option<&Standing>
    requires { KeepsFlights standings.now }
    ensures { option_copied result ≡ find (λ s. same_name (flight_name s) name) standings.now }
{
    match standings.binary_search_by_key(&name, |standing| standing.flight()) {
        Ok(place) => Some(&standings[place]),
        Err(_) => None,
    }
}

// The standings from the flight of this name on.
fn from_flight(standings: &[Standing], name: FlightName) -> &[Standing]
    ensures { result.now ≡ from_name name standings.now }
{
    let below = standings
        .iter()
        .take_while(|standing| standing.flight() < name)
        .count();
    &standings[below..]
}

// Whether the first is of the standing's flight, with the same line.
fn is_first_told(
    alloc: Global,
    day: Day,
    told: &[Standing],
    standing: &Standing,
) -> Result<bool, AllocError>
    ensures { IfOk result (λ is_so. is_so ≡ is_first_told day told.now standing.now) }
{
    match told.first() {
        Some(first) => are_told_alike(alloc, day, first, standing),
        None => Ok(false),
    }
}

impl Standings {
    /// The standings of a day with its plan, one of each known flight: its slot, if it has one, else the rule
    /// that blocks it, or that it is cancelled.
    pub fn of<R: Records>(alloc: Global, records: &R, plan: &Plan) -> Result<Standings, AllocError>
        requires { IsDayPlan (R.day records.now) plan.now }
        ensures all { IfOk result (AreStandings (R.day records.now) plan.entry.now) }
        ensures only { IfOk result (λ s. (other : List Stood) → AreStandings (R.day records.now) plan.entry.now other → other ≡ s) }
    {
        let items = all_standings(alloc, records, plan)?;
        Ok(Standings::by_name(items))
    }

    /// These standings by name, no two of which are of one flight.
    pub(crate) fn by_name(standings: Vec<Standing>) -> Standings
        requires { IsDistinct same_name (map flight_name standings.items) }
        ensures all { IsPermutation standings.items result }
        ensures keeps { KeepsFlights result }
    {
        let mut items = standings;
        items.sort_unstable_by_key(|standing| standing.flight());
        Standings { items }
    }

    /// The standings by name.
    pub fn as_slice(&self) -> &[Standing]
        ensures items { result.now ≡ self.now }
        ensures keeps { KeepsFlights self.now }
    {
        &self.items
    }

    /// The standing of a flight, if it is known.
    pub fn of_flight(&self, name: FlightName) -> Option<&Standing>
        ensures { option_copied result ≡ find (λ s. same_name (flight_name s) name) self.now }
    {
        standing_of(self.as_slice(), name)
    }

    /// The standings, by name, of the flights that stood otherwise before, or were not known. Both lists are
    /// by name, so each is gone through once.
    pub fn changes(
        &self,
        alloc: Global,
        day: &Day,
        before: &Standings,
    ) -> Result<Vec<Standing>, AllocError>
        ensures { IfOk result (λ changed. changed.items ≡ changes day.now before.now self.now) }
    {
        let mut told = before.as_slice();
        let mut changed = Vec::new(alloc);
        for standing in self.as_slice() {
            told = from_flight(told, standing.flight());
            if !is_first_told(alloc, *day, told, standing)? {
                push_last(&mut changed, *standing)?;
            }
        }
        Ok(changed)
    }
}
