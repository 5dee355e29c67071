//! Flights in brief.
ghost use Rattle.std.specs.Prelude.{◌≡◌};
ghost use Rattle.std.specs.FinMap as finite;
ghost use Rattle.cdm_plan.specs.Brief.{brief_of, counted_on, counts};

use cdm_flight::{Flight, RunwayName, Status};
use cdm_sequence::own_exot;
use cdm_taxi::TaxiTable;

/// A flight in brief: what planning asks of each flight of a day before it reads the records of those that it plans.
#[derive(Clone, Copy, PartialEq, Eq, Debug)]
pub struct Brief {
    /// The runway on which the flight counts, if it counts on one: it has left its stand, or has a TOBT.
    pub runway: Option<RunwayName>,
    /// Its taxi-out time in minutes to the runway that it has (EXOT), if it has one and there is a taxi time to it.
    pub exot: Option<u16>,
}

impl Brief {
    /// A flight in brief, by the table of taxi times.
    pub fn of(flight: &Flight, taxi: &TaxiTable) -> Brief
        ensures { result ≡ brief_of (λ place runway. finite.get taxi.now (place, runway)) flight.now }
    {
        Brief {
            runway: counted_on(flight),
            exot: own_exot(flight, taxi),
        }
    }
}

/// Whether the flight counts on its runway.
pub(crate) fn counts(flight: &Flight) -> bool
    ensures { result ≡ counts flight.now }
{
    match flight.status {
        Status::Planned => flight.tobt.is_some(),
        Status::OffBlock { .. } | Status::Airborne { .. } | Status::Cancelled => true,
    }
}

/// The runway on which the flight counts, if it counts on one.
pub(crate) fn counted_on(flight: &Flight) -> Option<RunwayName>
    ensures { result ≡ counted_on flight.now }
{
    if counts(flight) { flight.runway } else { None }
}
