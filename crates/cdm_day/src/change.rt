//! What an update that no word refuses puts where.
ghost use Rattle.std.specs.Prelude.{◌≡◌, true, false, OnOk, OnErr};
ghost use Rattle.std.specs.FinMap as map;
ghost use Rattle.cdm_flight.specs.Taxi.{is_one_stand_too_many, stands_in};
ghost use Rattle.cdm_day.specs.Changes.{has_window, with_change};

use cdm_flight::{Cap, DayValues, Flight, Place, RunwayName, TaxiMinutes};
use cdm_runway::{Runway, RunwayFault};
use cdm_taxi::{TaxiFault, TaxiTable};
use cdm_time::{Bound, Minute};
use std::alloc::AllocError;

/// What changes on a runway in a window, from a minute up to a bound.
#[derive(Clone, Copy, Debug, PartialEq, Eq)]
pub enum RunwayChange {
    /// How many flights each of its cells takes.
    Rate {
        from: Minute,
        to: Bound,
        cap: Cap,
    },
    /// Whether it is closed.
    Closure {
        from: Minute,
        to: Bound,
        closed: bool,
    },
}

/// What an update that no word refuses puts where.
#[derive(Clone, Copy, Debug, PartialEq, Eq)]
pub enum Change {
    /// A flight becomes known, with this record.
    NewFlight(Flight),
    /// The next record of a flight that is known.
    NextRecord(Flight),
    /// What changes on the runway of this name.
    Runway(RunwayName, RunwayChange),
    /// The taxi time from a place to a runway.
    TaxiRow(Place, RunwayName, TaxiMinutes),
    /// The values of the day.
    Values(DayValues),
}

/// Changes a runway.
pub fn change_runway(runway: &mut Runway, change: RunwayChange) -> Result<(), AllocError>
    requires { has_window change runway.old ≡ true }
    ensures ok { OnOk result (runway.new ≡ with_change change runway.old) }
    ensures err { OnErr result (runway.new ≡ runway.old) }
{
    let answer = match change {
        RunwayChange::Rate { from, to, cap } => runway.rate(from, to, cap),
        RunwayChange::Closure { from, to, closed } => {
            if closed {
                runway.close(from, to)
            } else {
                runway.reopen(from, to)
            }
        }
    };
    match answer {
        Ok(()) => Ok(()),
        Err(RunwayFault::Memory) => Err(AllocError),
        Err(RunwayFault::Order) => unreachable!(),
    }
}

/// Sets a taxi time, of which there is room for its stand.
pub fn set_taxi(
    taxi: &mut TaxiTable,
    place: Place,
    runway: RunwayName,
    minutes: TaxiMinutes,
) -> Result<(), AllocError>
    requires { is_one_stand_too_many (stands_in taxi.old) place ≡ false }
    ensures ok { OnOk result (taxi.new ≡ map.insert taxi.old (place, runway) minutes) }
    ensures err { OnErr result (taxi.new ≡ taxi.old) }
{
    match taxi.set(place, runway, minutes) {
        Ok(()) => Ok(()),
        Err(TaxiFault::Memory) => Err(AllocError),
        Err(TaxiFault::Full) => unreachable!(),
    }
}
