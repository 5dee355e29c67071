//! The partners of a day: their roles, and other names that feeds have for them.

use cdm_flight::Role;
use cdm_kinds::role_name;
use std::fmt;

/// Other names of roles, in capitals.
const OTHER_NAMES: &[(&str, Role)] = &[
    ("TWR", Role::AirTrafficControl),
    ("TOWER", Role::AirTrafficControl),
    ("GND", Role::AirTrafficControl),
    ("DEL", Role::AirTrafficControl),
    ("ATCO", Role::AirTrafficControl),
    ("ANSP", Role::AirTrafficControl),
    ("NMOC", Role::NetworkManager),
    ("CFMU", Role::NetworkManager),
    ("ETFMS", Role::NetworkManager),
    ("AIRLINE", Role::AircraftOperator),
    ("AOC", Role::AircraftOperator),
    ("GHA", Role::GroundHandler),
    ("HANDLER", Role::GroundHandler),
    ("AIRPORT", Role::AirportOperator),
    ("APOC", Role::AirportOperator),
    ("APT", Role::AirportOperator),
];

/// A role with the partner that has it, as `ATC (tower)`.
#[derive(Clone, Copy)]
pub(crate) struct RoleText(pub Role);

impl fmt::Display for RoleText {
    fn fmt<W: fmt::Write>(&self, f: &mut fmt::Formatter<W>) -> fmt::Result {
        let (role, partner) = (role_name(self.0), partner_of(self.0));
        write!(f, "{role} ({partner})")
    }
}

/// The partner that has a role.
pub(crate) fn partner_of(role: Role) -> &'static str {
    match role {
        Role::AircraftOperator => "operator",
        Role::GroundHandler => "handler",
        Role::AirportOperator => "airport",
        Role::AirTrafficControl => "tower",
        Role::NetworkManager => "Network Manager",
    }
}

/// The role that a text means, in capitals or not, if it is another name of one.
pub(crate) fn role_meant(text: &[u8]) -> Option<Role> {
    for (name, role) in OTHER_NAMES {
        if name.as_bytes().eq_ignore_ascii_case(text) {
            return Some(*role);
        }
    }
    None
}

/// Roles, each with its partner.
#[derive(Clone, Copy)]
pub(crate) struct RoleList(pub &'static [Role]);

impl fmt::Display for RoleList {
    fn fmt<W: fmt::Write>(&self, f: &mut fmt::Formatter<W>) -> fmt::Result {
        let mut joint = "";
        for role in self.0 {
            let role = RoleText(*role);
            write!(f, "{joint}{role}")?;
            joint = " or ";
        }
        Ok(())
    }
}
