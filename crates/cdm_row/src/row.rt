//! The Row of a flight.
ghost use Rattle.std.specs.Prelude.{◌≡◌};
ghost use Rattle.std.specs.Option.{option_and_then, option_map};
ghost use Rattle.cdm_row.specs.Rows.{row_of, rule_of, slot_of, status_of, told_exot};
ghost use Rattle.cdm_row.specs.Columns.{status_word};

use cdm_flight::{Flight, FlightName, Group, Priority, RunwayName, StandName};
use cdm_plan::Records;
use cdm_sequence::{Mark, Rule};
use cdm_time::Minute;
use cdm_view::{Standing, exot_to};

/// How far a flight has come, as a Row tells it (local profile).
#[derive(Clone, Copy, Debug, PartialEq, Eq)]
pub enum RowStatus {
    /// On its stand, with a slot.
    Planned,
    /// On its stand, and without a slot.
    Blocked,
    /// It left its stand.
    OffBlock,
    /// It took off.
    Airborne,
    /// It won't depart.
    Cancelled,
}

impl RowStatus {
    /// The status as a word.
    pub fn text(self) -> &'static str
        ensures { result.now ≡ status_word self }
    {
        match self {
            RowStatus::Planned => "PLANNED",
            RowStatus::Blocked => "BLOCKED",
            RowStatus::OffBlock => "OFFBLOCK",
            RowStatus::Airborne => "AIRBORNE",
            RowStatus::Cancelled => "CANCELLED",
        }
    }
}

/// What programs are told of a known flight (local profile). Times are minutes of the horizon, the others are whole
/// minutes.
#[derive(Clone, Copy, Debug, PartialEq, Eq)]
pub struct Row {
    pub flight: FlightName,
    pub status: RowStatus,
    pub runway: Option<RunwayName>,
    pub stand: Option<StandName>,
    /// 0 to 9: the smaller number comes first.
    pub priority: Priority,
    pub group: Group,
    /// Target off-block time.
    pub tobt: Option<Minute>,
    /// Estimated taxi-out time, 0 to 180: that of the slot; of a blocked flight that from its stand to its runway.
    pub exot: Option<u16>,
    /// Calculated take-off time.
    pub ctot: Option<Minute>,
    /// Target start-up approval time of the slot, or the actual off-block time.
    pub tsat: Option<Minute>,
    /// Target take-off time of the slot, or the actual one of a flight that is airborne.
    pub ttot: Option<Minute>,
    /// From TOBT to TSAT, for a planned flight alone.
    pub delay: Option<u16>,
    /// What leaves a blocked flight no slot.
    pub rule: Option<Rule>,
}

// How far the flight of a standing has come.
fn status_of(standing: &Standing) -> RowStatus
    ensures { result ≡ status_of standing.now }
{
    match standing {
        Standing::OnRunway(_, slot) => match slot.mark {
            Mark::Planned => RowStatus::Planned,
            Mark::OffBlock => RowStatus::OffBlock,
            Mark::Airborne => RowStatus::Airborne,
        },
        Standing::Blocked(_) => RowStatus::Blocked,
        Standing::Cancelled(_) => RowStatus::Cancelled,
    }
}

// The start-up time of the flight's slot, if it has one.
fn tsat_of(standing: &Standing) -> Option<Minute>
    ensures { result ≡ option_map (λ slot. slot.tsat) (slot_of standing.now) }
{
    match standing {
        Standing::OnRunway(_, slot) => Some(slot.tsat),
        Standing::Blocked(_) | Standing::Cancelled(_) => None,
    }
}

// The take-off time of the flight's slot, if it has one.
fn ttot_of(standing: &Standing) -> Option<Minute>
    ensures { result ≡ option_map (λ slot. slot.ttot) (slot_of standing.now) }
{
    match standing {
        Standing::OnRunway(_, slot) => Some(slot.ttot),
        Standing::Blocked(_) | Standing::Cancelled(_) => None,
    }
}

// The delay of the flight's slot, if it has one.
fn delay_of(standing: &Standing) -> Option<u16>
    ensures { result ≡ option_and_then (λ slot. slot.delay) (slot_of standing.now) }
{
    match standing {
        Standing::OnRunway(_, slot) => slot.delay,
        Standing::Blocked(_) | Standing::Cancelled(_) => None,
    }
}

// The rule that blocks the flight, if one does.
fn rule_of(standing: &Standing) -> Option<Rule>
    ensures { result ≡ rule_of standing.now }
{
    match standing {
        Standing::Blocked(flight) => Some(flight.rule),
        Standing::OnRunway(..) | Standing::Cancelled(_) => None,
    }
}

// The flight's taxi-out time, if it has one.
fn told_exot<R: Records>(records: &R, flight: &Flight, standing: &Standing) -> Option<u16>
    ensures { result ≡ told_exot (R.day records.now) flight.now standing.now }
{
    match standing {
        Standing::OnRunway(_, slot) => Some(slot.exot),
        Standing::Blocked(_) => exot_to(records, flight, flight.runway?),
        Standing::Cancelled(_) => None,
    }
}

impl Row {
    /// The Row of a flight that stands so, from what the day's records say of it.
    #[tactic(auto, unfolding(crate::specs::Rows::row_of))]
    pub fn of<R: Records>(records: &R, flight: &Flight, standing: &Standing) -> Row
        ensures { result ≡ row_of (R.day records.now) flight.now standing.now }
    {
        Row {
            flight: flight.name,
            status: status_of(standing),
            runway: flight.runway,
            stand: flight.stand,
            priority: flight.priority,
            group: flight.group,
            tobt: flight.tobt,
            exot: told_exot(records, flight, standing),
            ctot: flight.ctot,
            tsat: tsat_of(standing),
            ttot: ttot_of(standing),
            delay: delay_of(standing),
            rule: rule_of(standing),
        }
    }
}
