//! What is asked of a day.
use cdm_flight::{FlightName, RunwayName};

/// What is asked of a day and its plan.
#[derive(Clone, Copy, PartialEq, Eq, Debug)]
pub enum Question {
    /// What holds this flight.
    Why(FlightName),
    /// How full the runways are, or this one alone.
    Load(Option<RunwayName>),
}
