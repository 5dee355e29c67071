//! Updates in short.
use cdm_flight::{FlightName, Priority, Role, RunwayName, Update};
use cdm_time::Minute;
use std::alloc::Global;

/// An update in short: its kind, a flight, a runway, and a priority or a minute of the horizon, as 360
/// for 06:00. What its kind hasn't is not read.
pub type Short = (&'static str, &'static str, &'static str, u16);

// The update and who makes it.
fn update_of(short: Short) -> Option<(Role, Update)> {
    let (kind, name, runway, number) = short;
    let flight = FlightName::new(name.as_bytes())?;
    let runway = RunwayName::new(runway.as_bytes())?;
    let minute = Minute::new(number)?;
    let (tobt, now) = (minute, minute);
    let priority = Priority::new(number % 10)?;
    Some(match kind {
        "FLT" => (Role::AirportOperator, Update::Flt { flight, priority }),
        "TOBT" => (Role::AircraftOperator, Update::Tobt { flight, tobt }),
        "PRIO" => (Role::AirTrafficControl, Update::Prio { flight, priority }),
        "RWY" => (Role::AirTrafficControl, Update::Rwy { flight, runway }),
        "CLOCK" => (Role::AirTrafficControl, Update::Clock { now }),
        _ => return None,
    })
}

/// The batch of the updates, if each of them is one.
pub fn batch_of(alloc: Global, updates: &[Short]) -> Option<Vec<(Role, Update)>> {
    let batch = updates.iter().copied().filter_map(update_of);
    let batch: Vec<(Role, Update)> = batch.collect(alloc).ok()?;
    (batch.len() == updates.len()).then_some(batch)
}
