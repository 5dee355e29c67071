//! What updates touch.
use crate::{FlightName, RunwayName};

/// What an update touches.
#[derive(Clone, Copy, Debug, PartialEq, Eq)]
pub enum Reach {
    /// A flight.
    Flight(FlightName),
    /// What a runway allows.
    Runway(RunwayName),
    /// The taxi times to a runway.
    Taxi(RunwayName),
    /// The whole day.
    Day,
}
