//! The marks of a day's flights, and the part of a picture that has them.

use crate::shape::{Paint, Shape};
use crate::words::Words;
use cdm_flight::RunwayName;
use cdm_sequence::{BlockedFlight, Slot};

/// The mark of a flight with a take-off: the flight's slot on its runway, and where the mark is. Its place from
/// left to right is that of the TTOT, in tenths of a pixel, and from the top in whole pixels.
#[derive(Debug, Drop)]
pub struct FlightMark {
    pub runway: RunwayName,
    pub slot: Slot,
    pub x: u32,
    pub y: u32,
    /// How the take-off is painted.
    pub paint: Paint,
    /// What is told of its waiting.
    pub waits: Words,
    /// What is drawn before the take-off.
    pub bar: Vec<Shape>,
}

/// The line of a flight that is blocked, with the rule that leaves it no minute. Its place is as that of a
/// text.
#[derive(Clone, Copy, Debug, PartialEq, Eq)]
pub struct BlockedMark {
    pub flight: BlockedFlight,
    pub paint: Paint,
    pub x: u32,
    pub y: u32,
}

/// What is drawn of one day: its heading, what lies behind its flights, these, and those that are blocked.
#[derive(Debug, Drop)]
pub struct Section {
    pub heading: Words,
    /// From the top of the page, in whole pixels.
    pub y: u32,
    /// Where the next one may begin.
    pub end: u32,
    pub shapes: Vec<Shape>,
    pub flights: Vec<FlightMark>,
    pub blocked: Vec<BlockedMark>,
}
