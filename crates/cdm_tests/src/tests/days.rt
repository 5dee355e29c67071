//! Days with one runway or two, whose cells of ten minutes have room for two flights.
use cdm_day::{Airport, DayState};
use cdm_flight::{
    Cap, CellLength, FlightName, Place, Priority, Role, RunwayName, TaxiMinutes, Update,
};
use cdm_time::{Bound, Day, Minute};
use std::alloc::Global;

/// Three flights that want its first cell at 06:00.
pub const THREE_FLIGHTS: [&str; 3] = ["AB1", "AB2", "AB3"];

/// That a flight can leave its stand at 06:00.
pub fn ready(flight: &str) -> Option<Update> {
    let flight = FlightName::new(flight.as_bytes())?;
    let tobt = Minute::new(360)?;
    Some(Update::Tobt { flight, tobt })
}

/// That the runway is closed from 06:10 to 06:30.
pub fn closed() -> Option<Update> {
    let runway = RunwayName::new(b"27L")?;
    let from = Minute::new(370)?;
    let to = Bound::new(390)?;
    Some(Update::Close { runway, from, to })
}

/// The updates that plan a flight for 06:00.
pub fn planned(name: &str) -> Option<[(Role, Update); 3]> {
    let flight = FlightName::new(name.as_bytes())?;
    let priority = Priority::new(5)?;
    let runway = RunwayName::new(b"27L")?;
    Some([
        (Role::AirportOperator, Update::Flt { flight, priority }),
        (Role::AirTrafficControl, Update::Rwy { flight, runway }),
        (Role::AircraftOperator, ready(name)?),
    ])
}

// Adds a runway, with 15 minutes to it from every stand.
fn add_runway(airport: &mut Airport, name: &str) -> Option<()> {
    let runway = RunwayName::new(name.as_bytes())?;
    let cell = CellLength::new(10)?;
    let cap = Cap::new(2)?;
    let minutes = TaxiMinutes::new(15)?;
    airport.add_runway(runway, cell, cap).ok()?;
    airport.add_taxi(Place::Default, runway, minutes).ok()
}

/// The day of an airport with these runways, before its first update.
pub fn day_with(alloc: Global, runways: &[&str]) -> Option<DayState> {
    let mut airport = Airport::new(alloc, Day::of_text(b"2025-03-10").ok()?);
    for name in runways {
        add_runway(&mut airport, name)?;
    }
    DayState::new(alloc, airport).ok()
}

// Makes the updates that plan a flight for 06:00.
fn plan_flight(alloc: Global, state: &mut DayState, name: &str) -> Option<()> {
    let batch = planned(name)?;
    state.apply(alloc, &batch).ok()?;
    Some(())
}

/// The day of an airport with one runway after the updates that plan these flights for 06:00.
pub fn day_of(alloc: Global, flights: &[&str]) -> Option<DayState> {
    let mut state = day_with(alloc, &["27L"])?;
    for name in flights {
        plan_flight(alloc, &mut state, name)?;
    }
    Some(state)
}
