//! What is wrong with a day, or about to be.
use cdm_flight::{FlightName, RunwayName};
use cdm_sequence::Rule;
use cdm_time::Minute;

/// What a supervisor must not overlook (local profile). Times are minutes of the horizon.
#[derive(Clone, Copy, PartialEq, Eq, Debug)]
pub enum Warning {
    /// A flight is off-block, and its take-off is more than 5 minutes before now: flight and TTOT.
    Overdue(FlightName, Minute),
    /// A flight is off-block, and the later of now and its take-off is after the window of its CTOT: flight, CTOT and TTOT.
    Missed(FlightName, Minute, Minute),
    /// A flight has a TOBT or a CTOT, and no slot: flight, the rule that leaves it none, and CTOT.
    Blocked(FlightName, Rule, Option<Minute>),
    /// A flight is planned at one of the last 3 minutes of its window, after its CTOT: flight, CTOT and TTOT.
    Edge(FlightName, Minute, Minute),
    /// A flight is planned, and at a minute nothing but the clock held it: flight, TOBT and TSAT.
    Past(FlightName, Minute, Minute),
    /// A flight has left its stand, or taken off, more than 2 minutes after now: flight, and AOBT or ATOT.
    Ahead(FlightName, Minute),
    /// A cell has more flights than it takes, and isn't over: runway, the cell's first minute, its flights and its capacity.
    Full(RunwayName, Minute, usize, u16),
    /// A flight is off-block, and its runway is closed at the later of now and its take-off: flight, runway and TTOT.
    Shut(FlightName, RunwayName, Minute),
}
