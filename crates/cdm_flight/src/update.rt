//! Updates of the day.
ghost use Rattle.std.specs.Prelude.{◌≡◌};
ghost use Rattle.cdm_flight.specs.Reach.{reach_of};

use crate::{
    Cap, FlightName, Group, Ice, Place, Priority, Reach, RunwayName, StandName, TaxiMinutes,
};
use cdm_time::{Bound, Minute, Tolerance};

/// An update that a partner makes, one variant for each kind of feed record. Windows run from a
/// minute up to a bound, which is not among them.
#[derive(Clone, Copy, Debug, PartialEq, Eq)]
pub enum Update {
    /// FLT: a flight becomes known, planned, with this priority.
    Flt {
        flight: FlightName,
        priority: Priority,
    },
    /// TOBT: its target off-block time.
    Tobt {
        flight: FlightName,
        tobt: Minute,
    },
    /// STAND: where it is parked.
    Stand {
        flight: FlightName,
        stand: StandName,
    },
    /// RWY: its runway.
    Rwy {
        flight: FlightName,
        runway: RunwayName,
    },
    /// CTOT: its calculated take-off time, or none any more.
    Ctot {
        flight: FlightName,
        ctot: Option<Minute>,
    },
    /// ICE: its de-icing.
    Ice {
        flight: FlightName,
        ice: Ice,
    },
    /// PRIO: its priority.
    Prio {
        flight: FlightName,
        priority: Priority,
    },
    /// GROUP: how heavy it is.
    Group {
        flight: FlightName,
        group: Group,
    },
    /// OFF: its actual off-block time.
    Off {
        flight: FlightName,
        aobt: Minute,
    },
    /// AIR: its actual take-off time.
    Air {
        flight: FlightName,
        atot: Minute,
    },
    /// CNL: it is cancelled.
    Cnl {
        flight: FlightName,
    },
    /// RATE: the capacity of a runway's cells in a window.
    Rate {
        runway: RunwayName,
        from: Minute,
        to: Bound,
        cap: Cap,
    },
    /// CLOSE: a runway is closed in a window.
    Close {
        runway: RunwayName,
        from: Minute,
        to: Bound,
    },
    /// OPEN: it is open in a window.
    Reopen {
        runway: RunwayName,
        from: Minute,
        to: Bound,
    },
    /// TAXI: the taxi time from a place to a runway.
    Taxi {
        place: Place,
        runway: RunwayName,
        minutes: TaxiMinutes,
    },
    /// CLOCK: the time is now this minute.
    Clock {
        now: Minute,
    },
    /// TOL: the tolerance of every CTOT.
    Tol {
        tolerance: Tolerance,
    },
}

impl Update {
    /// What the update touches.
    pub fn reach(&self) -> Reach
        ensures { result ≡ reach_of self.now }
    {
        match *self {
            Update::Flt { flight, .. }
            | Update::Tobt { flight, .. }
            | Update::Stand { flight, .. }
            | Update::Rwy { flight, .. }
            | Update::Ctot { flight, .. }
            | Update::Ice { flight, .. }
            | Update::Prio { flight, .. }
            | Update::Group { flight, .. }
            | Update::Off { flight, .. }
            | Update::Air { flight, .. }
            | Update::Cnl { flight } => Reach::Flight(flight),
            Update::Rate { runway, .. }
            | Update::Close { runway, .. }
            | Update::Reopen { runway, .. } => Reach::Runway(runway),
            Update::Taxi { runway, .. } => Reach::Taxi(runway),
            Update::Clock { .. } | Update::Tol { .. } => Reach::Day,
        }
    }
}
