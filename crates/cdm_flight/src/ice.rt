//! De-icing.
ghost use Rattle.std.specs.Prelude.{◌≡◌, ◌≤◌};

use crate::IceMinutes;

/// Where a flight is de-iced and for how long (the manual's de-icing; the two places are local
/// profile). On the stand it delays readiness; remote it is a part of the taxi-out time.
#[derive(Clone, Copy, Debug, PartialEq, Eq)]
pub enum Ice {
    /// It isn't de-iced.
    NoIce,
    /// On the stand, before off-block.
    AtStand(IceMinutes),
    /// On the way to the runway.
    Remote(IceMinutes),
}

impl Ice {
    ghost use Rattle.cdm_flight.specs.Taxi.{stand_minutes};

    /// The minutes of de-icing on the stand, 0 for a flight that isn't de-iced there.
    pub fn minutes_on_stand(self) -> u16
        ensures value { result ≡ stand_minutes self }
        ensures range { result ≤ 60 }
    {
        match self {
            Ice::AtStand(minutes) => minutes.get(),
            Ice::NoIce | Ice::Remote(_) => 0,
        }
    }
}
