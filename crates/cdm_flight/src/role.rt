//! Partners, and which updates they may make.
ghost use Rattle.std.specs.Prelude.{◌≡◌};
ghost use Rattle.cdm_flight.specs.Authority.{may_make};

use crate::Update;

/// A partner of Airport CDM.
#[derive(Clone, Copy, Debug, PartialEq, Eq)]
pub enum Role {
    /// AO, the aircraft operator.
    AircraftOperator,
    /// GH, the ground handler.
    GroundHandler,
    /// AP, the airport operator.
    AirportOperator,
    /// ATC, air traffic control.
    AirTrafficControl,
    /// NM, the Network Manager.
    NetworkManager,
}

/// Whether the role may make this kind of update (local profile; the TOBT is the operator's or its
/// handler's and the CTOT the Network Manager's, as the manual says).
pub fn allows(role: Role, update: &Update) -> bool
    ensures { result ≡ may_make role update.now }
{
    match update {
        Update::Flt { .. } | Update::Stand { .. } | Update::Group { .. } => {
            role == Role::AirportOperator
        }
        Update::Tobt { .. } => role == Role::AircraftOperator || role == Role::GroundHandler,
        Update::Ice { .. } => role == Role::GroundHandler,
        Update::Ctot { .. } | Update::Tol { .. } => role == Role::NetworkManager,
        Update::Cnl { .. } => role == Role::AircraftOperator,
        Update::Rwy { .. }
        | Update::Prio { .. }
        | Update::Off { .. }
        | Update::Air { .. }
        | Update::Rate { .. }
        | Update::Close { .. }
        | Update::Reopen { .. }
        | Update::Taxi { .. }
        | Update::Clock { .. } => role == Role::AirTrafficControl,
    }
}
