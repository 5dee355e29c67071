//! The text of how full the runways are.
ghost use Rattle.std.specs.Prelude.{◌≡◌, ◌/◌, ◌<◌, ◌++◌, if◌then◌else◌, [], List, ℕ, None, codes, nat_lt, filter, flat_map, IfErr, IfOk, OnOk};
ghost use Rattle.std.specs.List.{cons_option, find};
ghost use Rattle.std.specs.Option.{option_copied};
ghost use Rattle.std.specs.String.{string_bytes};
ghost use Rattle.cdm_flight.specs.Names.{same_name};
ghost use Rattle.cdm_runway.specs.Rules.{RunwayRules};
ghost use Rattle.cdm_plan.specs.DayPlan.{AreByName};
ghost use Rattle.cdm_view.specs.Load.{IsLoad, cell_columns, cell_line, flights_in_cell, heading, is_asked, runway_load, told_cells, unknown_in, usual_cap, IsLoadFault};

use crate::cells::{
    cap_of_cell, closed_in_cell, first_minute, flights_in_cell, is_in_cell, told_cells,
};
use crate::fault::ViewFault;
use crate::slots::slots_on;
use cdm_day::{Airport, Records};
use cdm_flight::{RunwayName, RunwayRow};
use cdm_report::{TimeColumn, push_day};
use cdm_runway::Runway;
use cdm_sequence::{Plan, Slot};
use cdm_time::Day;
use std::alloc::{AllocError, Global};
use std::fmt::Write;

/// How full the runways are by the plan: the runway of this name, or all by name (local profile).
///
/// Its lines, each ended by LF, are the day and the minute that it is now, and for each runway its name and
/// the length of its cells, and then each cell from the first to the last that has a flight or a closed
/// minute, or takes another number of flights than the airport's row says: its first minute, how many
/// flights take off in it and how many it takes, `!` if those are more, how many of its minutes are closed, and the flights by
/// take-off and name. Each flight of the runway's slots is in one of these lines
/// (`each_flight_in_one_line`), and the counts add up to them (`counts_add_up`).
///
/// `NoRunway` where the airport has no runway of the name, and else only `Memory`.
pub fn load<R: Records>(
    alloc: Global,
    airport: &Airport,
    records: &R,
    plan: &Plan,
    runway: Option<RunwayName>,
) -> Result<Vec<u8>, ViewFault>
    requires { airport.now ≡ (R.day records.now).airport }
    ensures text { IfOk result (λ text. IsLoad (R.day records.now) plan.entry.now runway text.items) }
    ensures only { IfOk result (λ text. (other : List ℕ) → IsLoad (R.day records.now) plan.entry.now runway other → other ≡ text.items) }
    ensures known { OnOk result (unknown_in (R.day records.now).airport runway ≡ None) }
    ensures fault { IfErr result (λ fault. IsLoadFault (R.day records.now).airport runway fault) }
{
    if let Some(name) = unknown_in(airport, &runway) {
        return Err(ViewFault::NoRunway(name));
    }
    let mut text = String::new(alloc);
    push_day(&mut text, *airport.day(), plan.clock)?;
    push_runways(&mut text, airport, records, plan, &runway)?;
    Ok(text.into_bytes())
}

/// The runway that is asked, if the airport hasn't it.
pub fn unknown_in(airport: &Airport, asked: &Option<RunwayName>) -> Option<RunwayName>
    ensures { result ≡ unknown_in airport.now asked.now }
{
    match *asked {
        Some(name) if !airport.has_runway(name) => Some(name),
        _ => None,
    }
}

/// Whether this runway is asked: the one of the name, or all where there is none.
pub fn is_asked(asked: &Option<RunwayName>, runway: &Runway) -> bool
    ensures { result ≡ is_asked asked.now runway.now }
{
    match *asked {
        Some(name) => name == runway.name(),
        None => true,
    }
}

// The runways asked, by name.
fn push_runways<R: Records>(
    text: &mut String,
    airport: &Airport,
    records: &R,
    plan: &Plan,
    asked: &Option<RunwayName>,
) -> Result<(), AllocError>
    ensures { OnOk result ((runways : List RunwayRules) → AreByName (R.day records.now) runways → string_bytes text.new
        ≡ string_bytes text.old ++ flat_map (runway_load airport.now plan.entry.now) (filter (is_asked asked.now) runways)) }
{
    for place in 0..records.runways() {
        push_asked(text, airport, plan, asked, records.runway_at(place))?;
    }
    Ok(())
}

// The runway, if there is one and it is asked.
fn push_asked(
    text: &mut String,
    airport: &Airport,
    plan: &Plan,
    asked: &Option<RunwayName>,
    runway: Option<&Runway>,
) -> Result<(), AllocError>
    ensures { OnOk result (string_bytes text.new ≡ string_bytes text.old
        ++ flat_map (runway_load airport.now plan.entry.now) (filter (is_asked asked.now) (cons_option (option_copied runway.entry) []))) }
{
    match runway {
        Some(runway) if is_asked(asked, runway) => push_runway(text, airport, plan, runway),
        _ => Ok(()),
    }
}

// A runway's heading and cells.
#[tactic(auto, unfolding(crate::specs::Load::runway_load))]
fn push_runway(
    text: &mut String,
    airport: &Airport,
    plan: &Plan,
    runway: &Runway,
) -> Result<(), AllocError>
    ensures { OnOk result (string_bytes text.new ≡ string_bytes text.old ++ runway_load airport.now plan.entry.now runway.now) }
{
    let usual = usual_cap(airport, runway.name());
    let slots = slots_on(plan, runway.name());
    push_heading(text, runway)?;
    push_cells(text, *airport.day(), runway, usual, slots)
}

// The airport's row of the runway of this name.
fn row_named(rows: &[RunwayRow], name: RunwayName) -> Option<&RunwayRow>
    ensures { option_copied result ≡ find (λ row. same_name row.name name) rows.now }
{
    rows.iter().find(|row| row.name == name)
}

/// The cap that the airport's row of the runway gives, 0 where it has none.
pub fn usual_cap(airport: &Airport, name: RunwayName) -> u16
    ensures { result ≡ usual_cap airport.now name }
{
    match row_named(airport.runways(), name) {
        Some(row) => row.cap.get(),
        None => 0,
    }
}

#[tactic(auto, unfolding(crate::specs::Load::heading))]
fn push_heading(text: &mut String, runway: &Runway) -> Result<(), AllocError>
    ensures { OnOk result (string_bytes text.new ≡ string_bytes text.old ++ heading runway.now) }
{
    let name = runway.name();
    let name = name.text();
    let cell = runway.cell().get();
    writeln!(text, "RUNWAY {name} CELL {cell}")
}

// The lines of the cells from the first that tells something to the last.
fn push_cells(
    text: &mut String,
    day: Day,
    runway: &Runway,
    usual: u16,
    slots: &[Slot],
) -> Result<(), AllocError>
    ensures { OnOk result (string_bytes text.new
        ≡ string_bytes text.old ++ flat_map (cell_line day runway.now slots.now) (told_cells runway.now usual slots.now)) }
{
    let (from, to) = told_cells(runway, usual, slots);
    for cell in from..to {
        push_cell(text, day, runway, slots, cell)?;
    }
    Ok(())
}

// A cell's line.
#[tactic(auto, unfolding(crate::specs::Load::cell_line))]
fn push_cell(
    text: &mut String,
    day: Day,
    runway: &Runway,
    slots: &[Slot],
    cell: u16,
) -> Result<(), AllocError>
    requires { cell < 2880 / runway.now.cell }
    ensures { OnOk result (string_bytes text.new ≡ string_bytes text.old ++ cell_line day runway.now slots.now cell) }
{
    push_columns(text, day, runway, slots, cell)?;
    push_names(text, runway, slots, cell)?;
    writeln!(text)
}

// The mark of a cell with more flights than it takes.
fn over_mark(count: usize, cap: u16) -> &'static str
    ensures { result.now ≡ if nat_lt cap count then codes "!" else codes " " }
{
    if usize::from(cap) < count { "!" } else { " " }
}

// A cell's first minute and its counts.
fn push_columns(
    text: &mut String,
    day: Day,
    runway: &Runway,
    slots: &[Slot],
    cell: u16,
) -> Result<(), AllocError>
    requires { cell < 2880 / runway.now.cell }
    ensures { OnOk result (string_bytes text.new ≡ string_bytes text.old ++ cell_columns day runway.now slots.now cell) }
{
    let from = TimeColumn {
        day,
        minute: Some(first_minute(runway, cell)),
    };
    let count = flights_in_cell(runway, slots, cell);
    let cap = cap_of_cell(runway, cell);
    let closed = closed_in_cell(runway, cell);
    let mark = over_mark(count, cap);
    write!(text, "{from} {count:>2}/{cap:<2}{mark}CLOSED {closed:>2}")
}

// A blank and the name of each flight of the cell.
fn push_names(
    text: &mut String,
    runway: &Runway,
    slots: &[Slot],
    cell: u16,
) -> Result<(), AllocError>
    ensures { OnOk result (string_bytes text.new
        ≡ string_bytes text.old ++ flat_map (λ s. codes " " ++ s.name) (flights_in_cell runway.now slots.now cell)) }
{
    for slot in slots {
        if is_in_cell(runway, slot, cell) {
            let name = slot.name.text();
            write!(text, " {name}")?;
        }
    }
    Ok(())
}
