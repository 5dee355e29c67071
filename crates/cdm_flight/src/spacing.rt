//! For how long departures occupy a runway.
ghost use Rattle.std.specs.Prelude.{◌≡◌};
ghost use Rattle.cdm_flight.specs.Spacing.{no_spacing, occupancy_of, with_occupancy};

use crate::{Group, Occupancy};

/// For how many minutes from its take-off on a departure of each group occupies a runway
/// (local profile).
#[derive(Clone, Copy, Debug, PartialEq, Eq)]
pub struct Spacing {
    pub light: Occupancy,
    pub medium: Occupancy,
    pub heavy: Occupancy,
}

impl Spacing {
    /// No minute for any group.
    pub fn none() -> Spacing
        ensures { result ≡ no_spacing }
    {
        Spacing {
            light: Occupancy::NONE,
            medium: Occupancy::NONE,
            heavy: Occupancy::NONE,
        }
    }

    /// The occupancy of a group.
    pub fn occupancy(self, group: Group) -> Occupancy
        ensures { result ≡ occupancy_of self group }
    {
        match group {
            Group::Light => self.light,
            Group::Medium => self.medium,
            Group::Heavy => self.heavy,
        }
    }

    /// The same with the occupancy of one group.
    pub fn with(self, group: Group, occupancy: Occupancy) -> Spacing
        ensures { result ≡ with_occupancy self group occupancy }
    {
        let mut spacing = self;
        match group {
            Group::Light => spacing.light = occupancy,
            Group::Medium => spacing.medium = occupancy,
            Group::Heavy => spacing.heavy = occupancy,
        }
        spacing
    }
}
