//! Which flights stay.
ghost use Rattle.std.specs.Prelude.{◌≡◌};
ghost use Rattle.cdm_carry.specs.Carry.{stays};
ghost use Rattle.cdm_carry.specs.Notices.{stays_by};
ghost use Rattle.cdm_carry.specs.inner.Leaving.{LeaveOnce};

use cdm_day::Records;
use cdm_flight::{FlightName, Status};
use cdm_scenario::Overlay;

/// The minute at which the next day begins.
pub(crate) const NEXT_DAY: u16 = 1440;

/// Whether a flight of this status stays.
pub(crate) fn stays_by(status: Status) -> bool
    ensures { result ≡ stays_by status }
{
    match status {
        Status::Planned => true,
        Status::OffBlock { aobt, .. } | Status::Airborne { aobt, .. } => aobt.get() >= NEXT_DAY,
        Status::Cancelled => false,
    }
}

/// Whether a flight stays: it is known and not cancelled, and hasn't left its stand before the next day.
pub(crate) fn stays(day: &Overlay<'_>, name: FlightName) -> bool
    requires { LeaveOnce day.now.journal }
    ensures { result ≡ stays day.now.journal name }
{
    match day.flight(name) {
        Some(flight) => stays_by(flight.status),
        None => false,
    }
}
