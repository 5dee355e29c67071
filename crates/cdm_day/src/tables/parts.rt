//! Parts that tables may share. A change makes a part anew, unless flights or taxi times have one owner.
ghost use Rattle.std.specs.Prelude.{◌≡◌, ℕ, List, Some, true, false, map, slice_get, All, IfOk, IfSome, OnOk, OnErr};
ghost use Rattle.std.specs.Option.{option_map};
ghost use Rattle.std.specs.Arc.{arc_value};
ghost use Rattle.std.specs.FinMap as finite;
ghost use Rattle.indexmap.specs.IndexMap.{insert_entry, insert_index, values};
ghost use Rattle.cdm_flight.specs.Names.{same_name};
ghost use Rattle.cdm_flight.specs.Taxi.{is_one_stand_too_many, stands_in};
ghost use Rattle.cdm_day.specs.Changes.{has_window};
ghost use Rattle.cdm_plan.specs.declared.brief.Brief.{Brief};
ghost use Rattle.cdm_day.specs.inner.Briefs.{AreBrief, AreKeptAs, brief_by, put_at};
ghost use Rattle.cdm_day.specs.inner.Put.{if_named};
ghost use Rattle.cdm_day.specs.inner.Tables.{ArePut, AreSame, HasPlace, Sets};

use super::runways::copied_runways;
use crate::change::{Change, RunwayChange, set_taxi};
use cdm_flight::{DayValues, Flight, FlightName, Place, RunwayName, TaxiMinutes};
use cdm_plan::Brief;
use cdm_runway::Runway;
use cdm_taxi::TaxiTable;
use indexmap::IndexMap;
use std::alloc::{AllocError, Global};
use std::sync::Arc;

/// What the accepted updates of a day say of each flight, of each runway by name, of taxi times and of the
/// whole day.
#[derive(Drop)]
pub(super) struct Parts {
    pub(super) flights: Arc<IndexMap<FlightName, Flight>>,
    // The same flights in brief, unless a taxi time changed since they were kept.
    pub(super) briefs: Option<Arc<Vec<Brief>>>,
    pub(super) runways: Arc<Vec<Runway>>,
    pub(super) taxi: Arc<TaxiTable>,
    pub(super) values: DayValues,
}

impl Parts {
    /// The same parts once more, shared.
    pub(super) fn share(&self) -> Result<Parts, AllocError>
        ensures { IfOk result (AreSame self.now) }
    {
        Ok(Parts {
            flights: Arc::try_clone(&self.flights)?,
            briefs: shared_briefs(&self.briefs)?,
            runways: Arc::try_clone(&self.runways)?,
            taxi: Arc::try_clone(&self.taxi)?,
            values: self.values,
        })
    }

    /// Puts a change in.
    pub(super) fn put(&mut self, alloc: Global, change: Change) -> Result<(), AllocError>
        requires { HasPlace self.old change }
        ensures ok { OnOk result (ArePut self.old change self.new) }
        ensures err { OnErr result (AreSame self.old self.new) }
    {
        match change {
            Change::NewFlight(flight) | Change::NextRecord(flight) => {
                self.set_flight(alloc, flight)
            }
            Change::Runway(name, change) => change_runways(alloc, &mut self.runways, name, change),
            Change::TaxiRow(place, runway, minutes) => {
                self.briefs = None;
                change_taxi(alloc, &mut self.taxi, place, runway, minutes)
            }
            Change::Values(values) => {
                self.values = values;
                Ok(())
            }
        }
    }
}

impl Parts {
    // Sets the record of a flight, and the flight in brief; where there is no memory for that, no flight is kept in brief.
    fn set_flight(&mut self, alloc: Global, flight: Flight) -> Result<(), AllocError>
        ensures known { OnOk result (Sets (arc_value self.old.flights) (arc_value self.new.flights) flight) }
        ensures entries { OnOk result
            ((arc_value self.new.flights).entries ≡ insert_entry same_name (arc_value self.old.flights).entries flight.name flight) }
        ensures err { OnErr result ((arc_value self.new.flights).entries ≡ (arc_value self.old.flights).entries) }
        ensures briefs { AreBrief self.old → AreBrief self.new }
        ensures others { (self.new.runways ≡ self.old.runways) × (self.new.taxi ≡ self.old.taxi) × (self.new.values ≡ self.old.values) }
    {
        let briefs = self.briefs.take();
        let place = set_flight(alloc, &mut self.flights, flight)?;
        self.briefs = briefs_with(alloc, briefs, place, &flight, &self.taxi);
        Ok(())
    }

    /// The flight at a place in brief.
    pub(super) fn brief_at(&self, place: usize, flight: &Flight) -> Option<Brief>
        requires briefs { AreBrief self.now }
        requires flight { slice_get (values (arc_value self.now.flights)) place ≡ Some flight.now }
        ensures { result ≡ Some (brief_by (arc_value self.now.taxi) flight.now) }
    {
        match &self.briefs {
            Some(briefs) => briefs.get(place).copied(),
            None => Some(Brief::of(flight, &self.taxi)),
        }
    }

    /// The flights in brief by place, if they are kept; else none.
    pub(super) fn kept_briefs(&self) -> &[Brief]
        requires briefs { AreBrief self.now }
        ensures { (place : ℕ) → IfSome (slice_get result.now place) (λ brief.
            option_map (brief_by (arc_value self.now.taxi)) (slice_get (values (arc_value self.now.flights)) place) ≡ Some brief) }
    {
        match &self.briefs {
            Some(briefs) => briefs.as_slice(),
            None => &[],
        }
    }

    /// Keeps the flights in brief, if they aren't, and if there is memory for it.
    pub(super) fn keep_briefs(&mut self, alloc: Global)
        ensures { AreSame self.old self.new }
    {
        if self.briefs.is_none() {
            self.briefs = briefs_of(alloc, &self.flights, &self.taxi).ok();
        }
    }
}

// The flights in brief once more, shared, if they are kept.
fn shared_briefs(briefs: &Option<Arc<Vec<Brief>>>) -> Result<Option<Arc<Vec<Brief>>>, AllocError>
    ensures { IfOk result (λ shared. (kept : List Brief) → AreKeptAs briefs.now kept → AreKeptAs shared kept) }
{
    match briefs {
        Some(briefs) => Ok(Some(Arc::try_clone(briefs)?)),
        None => Ok(None),
    }
}

// Flights in brief, by a table of taxi times.
fn briefs_of(
    alloc: Global,
    flights: &IndexMap<FlightName, Flight>,
    taxi: &TaxiTable,
) -> Result<Arc<Vec<Brief>>, AllocError>
    ensures { IfOk result (λ briefs. (arc_value briefs).items ≡ map (brief_by taxi.now) (values flights.now)) }
{
    let briefs = flights
        .values()
        .map(|flight| Brief::of(flight, taxi))
        .collect(alloc)?;
    let briefs = Arc::new(alloc, briefs)?;
    Ok(briefs)
}

// Puts a flight in brief at its place.
fn put_brief(briefs: &mut Vec<Brief>, place: usize, brief: Brief) -> Result<(), AllocError>
    ensures { OnOk result (briefs.new.items ≡ put_at briefs.old.items place brief) }
{
    match briefs.get_mut(place) {
        Some(known) => *known = brief,
        None => briefs.push(brief)?,
    }
    Ok(())
}

// The same where the flights in brief may be shared.
fn set_brief(
    alloc: Global,
    briefs: &mut Arc<Vec<Brief>>,
    place: usize,
    brief: Brief,
) -> Result<(), AllocError>
    ensures { OnOk result ((arc_value briefs.new).items ≡ put_at (arc_value briefs.old).items place brief) }
{
    if let Some(own) = Arc::get_mut(briefs) {
        return put_brief(own, place, brief);
    }
    let mut own = Vec::from_slice(alloc, briefs.as_slice())?;
    put_brief(&mut own, place, brief)?;
    *briefs = Arc::new(alloc, own)?;
    Ok(())
}

// The flights in brief with one more at its place, if they are kept and there is memory for it.
fn briefs_with(
    alloc: Global,
    briefs: Option<Arc<Vec<Brief>>>,
    place: usize,
    flight: &Flight,
    taxi: &TaxiTable,
) -> Option<Arc<Vec<Brief>>>
    ensures { (kept : List Brief) → AreKeptAs briefs kept → AreKeptAs result (put_at kept place (brief_by taxi.now flight.now)) }
{
    let mut briefs = briefs?;
    let brief = Brief::of(flight, taxi);
    match set_brief(alloc, &mut briefs, place, brief) {
        Ok(()) => Some(briefs),
        Err(_) => None,
    }
}

// Sets the record of a flight, and returns its place.
fn set_flight(
    alloc: Global,
    flights: &mut Arc<IndexMap<FlightName, Flight>>,
    flight: Flight,
) -> Result<usize, AllocError>
    ensures known { OnOk result (Sets (arc_value flights.old) (arc_value flights.new) flight) }
    ensures entries { OnOk result ((arc_value flights.new).entries ≡ insert_entry same_name (arc_value flights.old).entries flight.name flight) }
    ensures place { IfOk result (λ place. place ≡ insert_index same_name (arc_value flights.old) flight.name) }
    ensures err { OnErr result ((arc_value flights.new).entries ≡ (arc_value flights.old).entries) }
{
    if let Some(own) = Arc::get_mut(flights) {
        let (place, _) = own.insert_full(flight.name, flight)?;
        return Ok(place);
    }
    let mut own = copy_flights(flights)?;
    let (place, _) = own.insert_full(flight.name, flight)?;
    *flights = Arc::new(alloc, own)?;
    Ok(place)
}

// A copy of the flights.
fn copy_flights(
    flights: &IndexMap<FlightName, Flight>,
) -> Result<IndexMap<FlightName, Flight>, AllocError>
    ensures { IfOk result (λ copy. copy.entries ≡ flights.now.entries) }
{
    let copy = flights.clone()?;
    Ok(copy)
}

// Changes the runway of this name. They are few, so that all are made anew.
fn change_runways(
    alloc: Global,
    runways: &mut Arc<Vec<Runway>>,
    name: RunwayName,
    change: RunwayChange,
) -> Result<(), AllocError>
    requires { All (λ rules. same_name rules.name name ≡ true → has_window change rules ≡ true) (arc_value runways.old).items }
    ensures ok { OnOk result ((arc_value runways.new).items ≡ map (if_named name change) (arc_value runways.old).items) }
    ensures err { OnErr result ((arc_value runways.new).items ≡ (arc_value runways.old).items) }
{
    let changed = copied_runways(alloc, runways.as_slice(), name, &change)?;
    *runways = Arc::new(alloc, changed)?;
    Ok(())
}

// Sets a taxi time, of which there is room for its stand.
fn change_taxi(
    alloc: Global,
    taxi: &mut Arc<TaxiTable>,
    place: Place,
    runway: RunwayName,
    minutes: TaxiMinutes,
) -> Result<(), AllocError>
    requires { is_one_stand_too_many (stands_in (arc_value taxi.old)) place ≡ false }
    ensures ok { OnOk result (arc_value taxi.new ≡ finite.insert (arc_value taxi.old) (place, runway) minutes) }
    ensures err { OnErr result (arc_value taxi.new ≡ arc_value taxi.old) }
{
    if let Some(own) = Arc::get_mut(taxi) {
        return set_taxi(own, place, runway, minutes);
    }
    let mut own = taxi.copy()?;
    set_taxi(&mut own, place, runway, minutes)?;
    *taxi = Arc::new(alloc, own)?;
    Ok(())
}
