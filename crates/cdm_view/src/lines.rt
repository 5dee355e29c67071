//! The lines that tell of a flight.
ghost use Rattle.std.specs.Prelude.{◌≡◌, ◌++◌, Some, OnOk, flat_map};
ghost use Rattle.std.specs.Option.{option_copied};
ghost use Rattle.std.specs.String.{string_bytes};
ghost use Rattle.cdm_view.specs.Why.{blocked_line, flight_line, group_letter, ice_told, left_line, minutes_or_dash, name_or_dash, name_told, plan_line, reason_told, slot_line, times_line, wait_line};

use crate::reason::Reason;
use crate::runs::Run;
use cdm_flight::{Flight, FlightName, Group, Ice, Name};
use cdm_report::TimeColumn;
use cdm_sequence::{BlockedFlight, Slot};
use cdm_time::{Day, Minute};
use std::alloc::AllocError;
use std::fmt;
use std::fmt::Write;

/// A number of minutes, or a dash where there is none.
#[derive(Clone, Copy)]
struct MinutesText(Option<u16>);

impl fmt::Display for MinutesText {
    ghost output = { λ minutes. Some (minutes_or_dash minutes.0) };

    #[tactic(auto, unfolding(crate::specs::Why::minutes_or_dash))]
    fn fmt<W: fmt::Write>(&self, f: &mut fmt::Formatter<W>) -> fmt::Result {
        match self.0 {
            None => f.write_str("-"),
            Some(minutes) => write!(f, "{minutes}"),
        }
    }
}

/// Where a flight is de-iced, and for how long.
#[derive(Clone, Copy)]
struct IceText(Ice);

impl fmt::Display for IceText {
    ghost output = { λ ice. Some (ice_told ice.0) };

    #[tactic(auto, unfolding(crate::specs::Why::ice_told))]
    fn fmt<W: fmt::Write>(&self, f: &mut fmt::Formatter<W>) -> fmt::Result {
        match self.0 {
            Ice::NoIce => f.write_str("NONE 0"),
            Ice::AtStand(minutes) => {
                let minutes = minutes.get();
                write!(f, "STAND {minutes}")
            }
            Ice::Remote(minutes) => {
                let minutes = minutes.get();
                write!(f, "REMOTE {minutes}")
            }
        }
    }
}

/// The letter of a group (local profile).
pub fn group_letter(group: Group) -> &'static str
    ensures { result.now ≡ group_letter group }
{
    match group {
        Group::Light => "L",
        Group::Medium => "M",
        Group::Heavy => "H",
    }
}

// The name as text, or a dash where there is none.
fn name_text<const MOST: usize>(name: &Option<Name<MOST>>) -> &str
    ensures { result.now ≡ name_or_dash name.now }
{
    match name {
        Some(name) => name.text(),
        None => "-",
    }
}

/// Puts the line of the flight's name, runway, stand, priority and group behind a text.
#[tactic(auto, unfolding(crate::specs::Why::flight_line))]
pub(crate) fn push_flight(text: &mut String, flight: &Flight) -> Result<(), AllocError>
    ensures { OnOk result (string_bytes text.new ≡ string_bytes text.old ++ flight_line flight.now) }
{
    let name = flight.name.text();
    let runway = name_text(&flight.runway);
    let stand = name_text(&flight.stand);
    let priority = flight.priority.get();
    let group = group_letter(flight.group);
    writeln!(
        text,
        "FLIGHT {name} RUNWAY {runway} STAND {stand} PRIORITY {priority} GROUP {group}"
    )
}

/// Puts the line of the flight's times behind a text.
#[tactic(auto, unfolding(crate::specs::Why::times_line))]
pub(crate) fn push_times(
    text: &mut String,
    day: Day,
    flight: &Flight,
    exot: Option<u16>,
) -> Result<(), AllocError>
    ensures { OnOk result (string_bytes text.new ≡ string_bytes text.old ++ times_line day flight.now exot) }
{
    let tobt = TimeColumn {
        day,
        minute: flight.tobt,
    };
    let ice = IceText(flight.ice);
    let exot = MinutesText(exot);
    let ctot = TimeColumn {
        day,
        minute: flight.ctot,
    };
    writeln!(text, "TOBT {tobt} ICE {ice} EXOT {exot} CTOT {ctot}")
}

// Names, each with a blank before it.
fn push_names(text: &mut String, names: &[FlightName]) -> Result<(), AllocError>
    ensures { OnOk result (string_bytes text.new ≡ string_bytes text.old ++ flat_map name_told names.now) }
{
    for name in names {
        let name = name.text();
        write!(text, " {name}")?;
    }
    Ok(())
}

#[tactic(auto, unfolding(crate::specs::Why::reason_told))]
fn push_reason(text: &mut String, reason: &Reason) -> Result<(), AllocError>
    ensures { OnOk result (string_bytes text.new ≡ string_bytes text.old ++ reason_told reason.now) }
{
    match reason {
        Reason::Ice => write!(text, "ICE"),
        Reason::Now => write!(text, "NOW"),
        Reason::Ctot => write!(text, "CTOT"),
        Reason::Closure => write!(text, "CLOSURE"),
        Reason::Spacing(names) => {
            write!(text, "SPACING")?;
            push_names(text, names.as_slice())
        }
        Reason::Rate(cap, names) => {
            let cap = cap.get();
            write!(text, "RATE {cap}")?;
            push_names(text, names.as_slice())
        }
    }
}

#[tactic(auto, unfolding(crate::specs::Why::wait_line))]
fn push_run(text: &mut String, day: Day, run: &Run) -> Result<(), AllocError>
    ensures { OnOk result (string_bytes text.new ≡ string_bytes text.old ++ wait_line day run.now) }
{
    let first = TimeColumn {
        day,
        minute: Some(run.first),
    };
    let last = TimeColumn {
        day,
        minute: Some(run.last),
    };
    write!(text, "WAIT {first} {last} ")?;
    push_reason(text, &run.reason)?;
    writeln!(text)
}

/// Puts the lines of the runs behind a text.
pub fn push_runs(text: &mut String, day: Day, runs: &[Run]) -> Result<(), AllocError>
    ensures { OnOk result (string_bytes text.new ≡ string_bytes text.old ++ flat_map (wait_line day) runs.now) }
{
    for run in runs {
        push_run(text, day, run)?;
    }
    Ok(())
}

#[tactic(auto, unfolding(crate::specs::Why::slot_line))]
fn push_slot(text: &mut String, day: Day, slot: &Slot) -> Result<(), AllocError>
    ensures { OnOk result (string_bytes text.new ≡ string_bytes text.old ++ slot_line day slot.now) }
{
    let tsat = TimeColumn {
        day,
        minute: Some(slot.tsat),
    };
    let ttot = TimeColumn {
        day,
        minute: Some(slot.ttot),
    };
    let delay = MinutesText(slot.delay);
    writeln!(text, "TSAT {tsat} TTOT {ttot} DELAY {delay}")
}

#[tactic(auto, unfolding(crate::specs::Why::blocked_line))]
fn push_blocked(text: &mut String, flight: &BlockedFlight) -> Result<(), AllocError>
    ensures { OnOk result (string_bytes text.new ≡ string_bytes text.old ++ blocked_line flight.now) }
{
    let rule = flight.rule;
    writeln!(text, "BLOCKED {rule}")
}

/// Puts the line of a planned flight's slot behind a text, else that of the rule that blocks it.
pub(crate) fn push_planned(
    text: &mut String,
    day: Day,
    slot: Option<&Slot>,
    blocked: Option<&BlockedFlight>,
) -> Result<(), AllocError>
    ensures { OnOk result (string_bytes text.new ≡ string_bytes text.old ++ plan_line day (option_copied slot.entry) (option_copied blocked.entry)) }
{
    match (slot, blocked) {
        (Some(slot), _) => push_slot(text, day, slot),
        (None, Some(flight)) => push_blocked(text, flight),
        (None, None) => Ok(()),
    }
}

/// Puts the line of a flight that has left its stand behind a text, and of its take-off.
pub(crate) fn push_left(
    text: &mut String,
    day: Day,
    aobt: Minute,
    word: &str,
    takeoff: Minute,
) -> Result<(), AllocError>
    ensures { OnOk result (string_bytes text.new ≡ string_bytes text.old ++ left_line day aobt word.now takeoff) }
{
    let aobt = TimeColumn {
        day,
        minute: Some(aobt),
    };
    let takeoff = TimeColumn {
        day,
        minute: Some(takeoff),
    };
    writeln!(text, "OFFBLOCK {aobt} {word} {takeoff}")
}
