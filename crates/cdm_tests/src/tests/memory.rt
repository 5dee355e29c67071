//! Calls of which one request for memory may be refused. They answer so, and what they were lent is as before; the same
//! call then gives the answer that it would have given. `cases/refuse` refuses each request in its turn.
use crate::tests::days::{closed, day_of, planned};
use cdm_day::{DayState, Records, plan_of};
use cdm_flight::{Place, Role, RunwayName, StandName, TaxiMinutes, Update};
use cdm_report::indicators;
use cdm_sequence::{Plan, Slot};
use cdm_time::Minute;
use runway::window_of;
use std::alloc::{AllocError, Global};

mod airport;
mod board;
mod day;
mod desk;
mod overlay;
mod pieces;
pub mod runway;
mod taxi;
mod texts;

/// The take-off minutes on the one runway, and how many flights are blocked.
pub type Planned = (&'static [u16], u32);

/// Those of the day of three flights, and those after each update of the morning. Flight CD4 comes behind the others. The
/// closure leaves them the cells of 06:30 and 06:40, the longer taxi time those of 06:40 and 06:50, and the clock those of
/// 07:40 and 07:50.
pub static PLANS: [Planned; 10] = [
    (&[375, 375, 380], 0),
    (&[375, 375, 380], 1),
    (&[375, 375, 380], 1),
    (&[375, 375, 380, 380], 0),
    (&[390, 390, 400, 400], 0),
    (&[405, 405, 410, 410], 0),
    (&[405, 405, 410, 410], 0),
    (&[405, 410, 410, 420], 0),
    (&[405, 410, 410, 420], 0),
    (&[465, 465, 470, 470], 0),
];

// 45 minutes from a place to the runway.
fn taxi_from(place: Place) -> Option<Update> {
    let runway = RunwayName::new(b"27L")?;
    let minutes = TaxiMinutes::new(45)?;
    Some(Update::Taxi {
        place,
        runway,
        minutes,
    })
}

// 45 minutes from a stand to the runway.
fn taxi_from_stand() -> Option<Update> {
    taxi_from(Place::Stand(StandName::new(b"A1")?))
}

// A rate of one flight in the cell of 06:40.
fn rate() -> Option<Update> {
    let (from, to, cap) = window_of(400, 410, 1)?;
    let runway = RunwayName::new(b"27L")?;
    Some(Update::Rate {
        runway,
        from,
        to,
        cap,
    })
}

// The opening of that cell.
fn opening() -> Option<Update> {
    let (from, to, _) = window_of(400, 410, 1)?;
    let runway = RunwayName::new(b"27L")?;
    Some(Update::Reopen { runway, from, to })
}

// That it is 07:00.
fn clock() -> Option<Update> {
    let now = Minute::new(420)?;
    Some(Update::Clock { now })
}

// The update of air traffic control at this place of the morning.
fn of_control(place: usize) -> Option<Update> {
    match place {
        3 => closed(),
        4 => taxi_from(Place::Default),
        5 => taxi_from_stand(),
        6 => rate(),
        7 => opening(),
        8 => clock(),
        _ => None,
    }
}

/// How many updates a morning has.
pub const UPDATES: usize = 9;

/// The update at this place of the morning: a fourth flight in three updates, a closure, two taxi times, a rate of one flight
/// in the cell of 06:40, its opening, and the clock at 07:00.
pub fn morning(place: usize) -> Option<(Role, Update)> {
    if place < 3 {
        return planned("CD4")?.get(place).copied();
    }
    Some((Role::AirTrafficControl, of_control(place)?))
}

// Whether the slots have these take-off minutes.
fn has_minutes(slots: &[Slot], minutes: &[u16]) -> bool {
    for (slot, minute) in slots.iter().zip(minutes) {
        if slot.ttot.get() != *minute {
            return false;
        }
    }
    slots.len() == minutes.len()
}

/// Whether the plan has these minutes and so many blocked flights.
pub fn is_planned(plan: &Plan, wanted: Planned) -> bool {
    let [runway] = plan.runways.as_slice() else {
        return false;
    };
    has_minutes(runway.slots.as_slice(), wanted.0) && indicators(plan).blocked == wanted.1
}

/// Whether the day has so many updates and such a plan.
pub fn is_day(day: &DayState, updates: usize, wanted: Planned) -> bool {
    day.journal().len() == updates && is_planned(day.plan(), wanted)
}

/// The plans before and after the update at this place of the morning.
pub fn plans_around(place: usize) -> Option<(Planned, Planned)> {
    match PLANS.get(place..)? {
        [before, after, ..] => Some((*before, *after)),
        _ => None,
    }
}

/// Whether the plan that the records have, made anew, is such a one.
pub fn is_planned_anew<R: Records>(alloc: Global, records: &R, wanted: Planned) -> bool {
    match again!(plan_of(alloc, records), AllocError, true) {
        Some(plan) => is_planned(&plan, wanted),
        None => false,
    }
}

/// The day that plans these flights, made anew where memory was refused.
pub fn made(alloc: Global, flights: &[&str]) -> Option<DayState> {
    match day_of(alloc, flights) {
        Some(day) => Some(day),
        None => day_of(alloc, flights),
    }
}
