//! Where a flight stands.
ghost use Rattle.std.specs.Prelude.{◌≡◌, ◌++◌, IfOk, OnOk};
ghost use Rattle.std.specs.String.{string_bytes};
ghost use Rattle.cdm_view.specs.Standings.{flight_name, is_same_told, standing_line};

use cdm_flight::{FlightName, RunwayName};
use cdm_report::FlightLine;
use cdm_sequence::{BlockedFlight, Slot};
use cdm_time::Day;
use std::alloc::{AllocError, Global};
use std::fmt::Write;

// The bytes of the longest line, that of a slot.
const LONGEST_LINE: usize = 56;

/// Where a known flight stands in a day (local profile).
#[derive(Clone, Copy, Debug, PartialEq, Eq)]
pub enum Standing {
    /// It has this slot on the runway: a planned one, or its own where it is off-block or airborne.
    OnRunway(RunwayName, Slot),
    /// It is planned, and has no slot.
    Blocked(BlockedFlight),
    /// It won't depart.
    Cancelled(FlightName),
}

impl Standing {
    /// The flight that stands so.
    pub fn flight(&self) -> FlightName
        ensures { result ≡ flight_name self.now }
    {
        match self {
            Standing::OnRunway(_, slot) => slot.name,
            Standing::Blocked(flight) => flight.name,
            Standing::Cancelled(name) => *name,
        }
    }
}

/// Puts the line of a standing, without its end, behind a text (local profile). Only want of memory
/// makes it fail.
#[tactic(auto, unfolding(crate::specs::Standings::standing_line))]
pub fn push_standing(text: &mut String, day: Day, standing: &Standing) -> Result<(), AllocError>
    ensures { OnOk result (string_bytes text.new ≡ string_bytes text.old ++ standing_line day standing.now) }
{
    match standing {
        Standing::OnRunway(runway, slot) => {
            let runway = runway.text();
            let line = FlightLine { day, slot };
            write!(text, "SLOT {runway:<3} {line}")
        }
        Standing::Blocked(flight) => {
            let name = flight.name.text();
            let rule = flight.rule;
            write!(text, "BLOCKED {name:<7} {rule}")
        }
        Standing::Cancelled(name) => {
            let name = name.text();
            write!(text, "CANCELLED {name}")
        }
    }
}

// The line of a standing.
fn line_of(alloc: Global, day: Day, standing: &Standing) -> Result<String, AllocError>
    ensures { IfOk result (λ text. string_bytes text ≡ standing_line day standing.now) }
{
    let mut text = String::with_capacity(alloc, LONGEST_LINE)?;
    push_standing(&mut text, day, standing)?;
    Ok(text)
}

/// Whether two standings are of one flight, and have one line.
#[tactic(auto, using(crate::proofs::EqualLemmas::equal_standings, crate::proofs::ChangeLemmas::told_alike))]
pub(crate) fn are_told_alike(
    alloc: Global,
    day: Day,
    one: &Standing,
    other: &Standing,
) -> Result<bool, AllocError>
    ensures { IfOk result (λ same. same ≡ is_same_told day one.now other.now) }
{
    if one == other {
        return Ok(true);
    }
    if one.flight() != other.flight() {
        return Ok(false);
    }
    let line = line_of(alloc, day, one)?;
    Ok(line == line_of(alloc, day, other)?)
}
