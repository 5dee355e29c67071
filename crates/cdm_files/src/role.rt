//! The words of roles.
ghost use Rattle.std.specs.Prelude.{◌≡◌};
ghost use Rattle.cdm_files.specs.Roles.{role_of};

use cdm_flight::Role;

/// The role that a field names: AO, GH, AP, ATC or NM, byte by byte.
#[tactic(auto, unfolding(crate::specs::Roles::role_of))]
pub fn role_of(text: &[u8]) -> Option<Role>
    ensures { result ≡ role_of text.now }
{
    match text {
        b"AO" => Some(Role::AircraftOperator),
        b"GH" => Some(Role::GroundHandler),
        b"AP" => Some(Role::AirportOperator),
        b"ATC" => Some(Role::AirTrafficControl),
        b"NM" => Some(Role::NetworkManager),
        _ => None,
    }
}
