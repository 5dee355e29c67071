//! Airports row by row.
use crate::tests::asserts::assert_found;
use cdm_day::{Airport, AirportFault, DayState};
use cdm_flight::{Cap, CellLength, Group, Occupancy, Place, RunwayName, StandName, TaxiMinutes};
use cdm_time::Day;
use std::alloc::{AllocError, Global};

/// A row of an airport file in short: a runway, a taxi time from a stand or by default, or how long a group occupies it.
#[derive(Clone, Copy)]
enum Row {
    Runway,
    Taxi(&'static str),
    Space(&'static str),
}

/// The answer to a row, if it is one.
type Added = Option<Result<(), AirportFault>>;

// Adds a runway.
fn add_runway(airport: &mut Airport, runway: RunwayName) -> Added {
    let cell = CellLength::new(10)?;
    let cap = Cap::new(2)?;
    Some(airport.add_runway(runway, cell, cap))
}

// Adds a taxi time by default.
fn add_default(airport: &mut Airport, runway: RunwayName) -> Added {
    let minutes = TaxiMinutes::new(15)?;
    Some(airport.add_taxi(Place::Default, runway, minutes))
}

// Adds a taxi time from a stand.
fn add_stand(airport: &mut Airport, runway: RunwayName, stand: &str) -> Added {
    let stand = StandName::new(stand.as_bytes())?;
    let minutes = TaxiMinutes::new(10)?;
    Some(airport.add_taxi(Place::Stand(stand), runway, minutes))
}

// Adds how long a group occupies the runway.
fn add_space(airport: &mut Airport, runway: RunwayName, group: &str) -> Added {
    let group = Group::new(group.as_bytes())?;
    let occupancy = Occupancy::new(3)?;
    Some(airport.add_space(runway, group, occupancy))
}

// Adds the row of a runway, if it is one.
fn add(airport: &mut Airport, row: Row, runway: &str) -> Added {
    let runway = RunwayName::new(runway.as_bytes())?;
    match row {
        Row::Runway => add_runway(airport, runway),
        Row::Taxi("*") => add_default(airport, runway),
        Row::Taxi(stand) => add_stand(airport, runway, stand),
        Row::Space(group) => add_space(airport, runway, group),
    }
}

// The answer to the row of a runway.
fn answer(airport: &mut Airport, row: Row, runway: &str) -> Result<(), AirportFault> {
    add(airport, row, runway).unwrap_or(Err(AirportFault::Unknown))
}

// The airport once more.
fn copied(alloc: Global, airport: &Airport) -> Option<Airport> {
    again!(airport.copy(alloc), AllocError, true)
}

// The answer to the row, which is given anew where memory was refused and the airport was as before.
fn answer_again(
    airport: &mut Airport,
    before: &Airport,
    row: Row,
    runway: &str,
) -> Result<(), AirportFault> {
    match answer(airport, row, runway) {
        Err(AirportFault::Memory) if airport.is_same(before) => answer(airport, row, runway),
        answer => answer,
    }
}

// The answer to the row, and whether the airport is as before, which it is where memory is refused.
fn answered(
    alloc: Global,
    airport: &mut Airport,
    row: Row,
    runway: &str,
) -> Option<(Result<(), AirportFault>, bool)> {
    let before = copied(alloc, airport)?;
    let last = answer_again(airport, &before, row, runway);
    Some((last, airport.is_same(&before)))
}

// The day that begins at the airport, which comes back where memory is refused.
fn begun(alloc: Global, airport: Airport, before: &Airport) -> Option<DayState> {
    match DayState::new(alloc, airport) {
        Ok(day) => Some(day),
        Err(airport) => {
            if airport.is_same(before) {
                DayState::new(alloc, airport).ok()
            } else {
                None
            }
        }
    }
}

// How many runways are planned on the day that begins so.
fn runways_of(day: Option<DayState>) -> Option<usize> {
    Some(day?.plan().runways.len())
}

// How many runways are planned on it.
fn runways_begun(alloc: Global, airport: Airport) -> Option<usize> {
    let before = copied(alloc, &airport)?;
    runways_of(begun(alloc, airport, &before))
}

/// Rows of runways, each with its answer.
static ROWS: [(Row, &str, Result<(), AirportFault>); 17] = [
    (Row::Taxi("*"), "01", Err(AirportFault::Unknown)),
    (Row::Space("H"), "01", Err(AirportFault::Unknown)),
    (Row::Runway, "02", Ok(())),
    (Row::Runway, "01", Ok(())),
    (Row::Runway, "01", Err(AirportFault::Exists)),
    (Row::Taxi("*"), "01", Ok(())),
    (Row::Space("H"), "01", Ok(())),
    (Row::Taxi("A1"), "03", Err(AirportFault::Unknown)),
    (Row::Runway, "03", Ok(())),
    (Row::Taxi("A1"), "03", Ok(())),
    (Row::Runway, "04", Ok(())),
    (Row::Runway, "05", Ok(())),
    (Row::Runway, "06", Ok(())),
    (Row::Runway, "07", Ok(())),
    (Row::Runway, "08", Ok(())),
    (Row::Runway, "08", Err(AirportFault::Exists)),
    (Row::Runway, "09", Err(AirportFault::Full)),
];

/// A refused row leaves no trace, and the airport comes back where its day can't begin.
#[test]
fn refused_memory_leaves_an_airport(rt: HostRuntime) {
    let alloc = rt.alloc();
    let day = Day::of_text(b"2025-03-10").expect(&rt, "no day");
    let mut airport = Airport::new(alloc, day);
    for (row, runway, wanted) in &ROWS {
        let found = answered(alloc, &mut airport, *row, runway);
        assert_found(&rt, found, Some((*wanted, wanted.is_err())), *runway);
    }
    assert_found(&rt, runways_begun(alloc, airport), Some(8), "the day");
}
