//! The words of roles.
ghost use Rattle.std.specs.Prelude.{◌≡◌};
ghost use Rattle.cdm_kinds.specs.Words.{role_name};

use cdm_flight::Role;

/// The word of a role, as records have it.
pub fn role_name(role: Role) -> &'static str
    ensures { result.now ≡ role_name role }
{
    match role {
        Role::AircraftOperator => "AO",
        Role::GroundHandler => "GH",
        Role::AirportOperator => "AP",
        Role::AirTrafficControl => "ATC",
        Role::NetworkManager => "NM",
    }
}
