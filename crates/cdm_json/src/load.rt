//! How full the runways are, as JSON.
ghost use Rattle.std.specs.Prelude.{◌≡◌, ◌/◌, ◌<◌, ◌++◌, [], ℕ, List, None, filter, flat_map, map, IfErr, IfOk, OnOk};
ghost use Rattle.std.specs.List.{cons_option};
ghost use Rattle.std.specs.Option.{option_copied};
ghost use Rattle.json.specs.Tree.{json_tokens};
ghost use Rattle.cdm_runway.specs.Rules.{RunwayRules};
ghost use Rattle.cdm_plan.specs.DayPlan.{AreByName};
ghost use Rattle.cdm_view.specs.Load.{IsLoadFault, flights_in_cell, is_asked, told_cells, unknown_in};
ghost use Rattle.cdm_row.specs.Json.{member_tokens};
ghost use Rattle.cdm_json.specs.Loads.{AreLoadLines, cell_json, cell_members, cells_members, load_line, load_members, name_json, names_members, runway_members};

use crate::lines::{begin_line, end_line};
use cdm_day::{Airport, Records};
use cdm_flight::RunwayName;
use cdm_row::{push_count, push_minute, push_text};
use cdm_runway::Runway;
use cdm_sequence::{Plan, Slot};
use cdm_time::{Day, Minute};
use cdm_view::{
    ViewFault, cap_of_cell, closed_in_cell, first_minute, flights_in_cell, is_asked, is_in_cell,
    slots_on, told_cells, unknown_in, usual_cap,
};
use json::Writer;
use std::alloc::{AllocError, Global};

// Writes the names of a cell's flights, one after another.
fn push_names(
    writer: &mut Writer<Global>,
    runway: &Runway,
    slots: &[Slot],
    cell: u16,
) -> Result<(), AllocError>
    ensures tokens { OnOk result (writer.new.tokens ≡ writer.old.tokens ++ flat_map json_tokens (map name_json (flights_in_cell runway.now slots.now cell))) }
    ensures before { writer.new.before ≡ writer.old.before }
{
    for slot in slots {
        if is_in_cell(runway, slot, cell) {
            writer.string(slot.name.text())?;
        }
    }
    Ok(())
}

// Writes the member of a cell's flights.
fn push_flights(
    writer: &mut Writer<Global>,
    runway: &Runway,
    slots: &[Slot],
    cell: u16,
) -> Result<(), AllocError>
    ensures tokens { OnOk result (writer.new.tokens ≡ writer.old.tokens ++ flat_map member_tokens (names_members runway.now slots.now cell)) }
    ensures before { writer.new.before ≡ writer.old.before }
{
    writer.key("flights")?;
    writer.begin_array()?;
    push_names(writer, runway, slots, cell)?;
    writer.end_array()
}

// Writes the members of a cell but for its flights.
fn push_numbers(
    writer: &mut Writer<Global>,
    day: Day,
    runway: &Runway,
    slots: &[Slot],
    cell: u16,
) -> Result<(), AllocError>
    requires { cell < 2880 / runway.now.cell }
    ensures tokens { OnOk result (writer.new.tokens ≡ writer.old.tokens ++ flat_map member_tokens (cell_members day runway.now slots.now cell)) }
    ensures before { writer.new.before ≡ writer.old.before }
{
    let placed = flights_in_cell(runway, slots, cell);
    push_minute(writer, day, "from", first_minute(runway, cell))?;
    push_count(writer, "placed", placed as u64)?;
    push_count(writer, "cap", u64::from(cap_of_cell(runway, cell)))?;
    push_count(writer, "closed", u64::from(closed_in_cell(runway, cell)))
}

// Writes the object of a cell.
#[tactic(auto, using(crate::proofs::TokenLemmas::part_tokens))]
fn push_cell(
    writer: &mut Writer<Global>,
    day: Day,
    runway: &Runway,
    slots: &[Slot],
    cell: u16,
) -> Result<(), AllocError>
    requires { cell < 2880 / runway.now.cell }
    ensures tokens { OnOk result (writer.new.tokens ≡ writer.old.tokens ++ json_tokens (cell_json day runway.now slots.now cell)) }
    ensures before { writer.new.before ≡ writer.old.before }
{
    writer.begin_object()?;
    push_numbers(writer, day, runway, slots, cell)?;
    push_flights(writer, runway, slots, cell)?;
    writer.end_object()
}

// Writes the cells from the first that tells something to the last.
fn push_each(
    writer: &mut Writer<Global>,
    day: Day,
    runway: &Runway,
    usual: u16,
    slots: &[Slot],
) -> Result<(), AllocError>
    ensures tokens { OnOk result (writer.new.tokens
        ≡ writer.old.tokens ++ flat_map json_tokens (map (cell_json day runway.now slots.now) (told_cells runway.now usual slots.now))) }
    ensures before { writer.new.before ≡ writer.old.before }
{
    let (from, to) = told_cells(runway, usual, slots);
    for cell in from..to {
        push_cell(writer, day, runway, slots, cell)?;
    }
    Ok(())
}

// Writes the member of the cells.
fn push_cells(
    writer: &mut Writer<Global>,
    day: Day,
    runway: &Runway,
    usual: u16,
    slots: &[Slot],
) -> Result<(), AllocError>
    ensures tokens { OnOk result (writer.new.tokens ≡ writer.old.tokens ++ flat_map member_tokens (cells_members day runway.now usual slots.now)) }
    ensures before { writer.new.before ≡ writer.old.before }
{
    writer.key("cells")?;
    writer.begin_array()?;
    push_each(writer, day, runway, usual, slots)?;
    writer.end_array()
}

// Writes the runway, the length of its cells, and the minute that it is now.
#[tactic(auto, using(crate::proofs::TokenLemmas::runway_tokens))]
fn push_runway(
    writer: &mut Writer<Global>,
    day: Day,
    runway: &Runway,
    now: Minute,
) -> Result<(), AllocError>
    ensures tokens { OnOk result (writer.new.tokens ≡ writer.old.tokens ++ flat_map member_tokens (runway_members day runway.now now)) }
    ensures before { writer.new.before ≡ writer.old.before }
{
    let name = runway.name();
    push_text(writer, "runway", name.text())?;
    push_count(writer, "cell", u64::from(runway.cell().get()))?;
    push_minute(writer, day, "now", now)
}

// The line of a runway.
fn line_of(
    alloc: Global,
    number: Option<u32>,
    airport: &Airport,
    plan: &Plan,
    runway: &Runway,
) -> Result<Vec<u8>, AllocError>
    ensures { IfOk result (λ text. text.items ≡ load_line airport.now number plan.entry.now runway.now) }
{
    let day = *airport.day();
    let name = runway.name();
    let slots = slots_on(plan, name);
    let mut writer = begin_line(alloc, number, "LOAD")?;
    push_runway(&mut writer, day, runway, plan.clock)?;
    push_cells(&mut writer, day, runway, usual_cap(airport, name), slots)?;
    end_line(writer)
}

// The line of a runway behind the others, if there is one and it is asked.
fn push_asked(
    text: &mut Vec<u8>,
    number: Option<u32>,
    airport: &Airport,
    plan: &Plan,
    asked: &Option<RunwayName>,
    runway: Option<&Runway>,
) -> Result<(), AllocError>
    ensures { OnOk result (text.new.items ≡ text.old.items
        ++ flat_map (load_line airport.now number plan.entry.now) (filter (is_asked asked.now) (cons_option (option_copied runway.entry) []))) }
{
    match runway {
        Some(runway) if is_asked(asked, runway) => {
            let line = line_of(*text.allocator(), number, airport, plan, runway)?;
            text.extend_from_slice(&line)
        }
        _ => Ok(()),
    }
}

// The lines of the runways asked, by name, behind the others.
fn push_runways<R: Records>(
    text: &mut Vec<u8>,
    number: Option<u32>,
    airport: &Airport,
    records: &R,
    plan: &Plan,
    asked: &Option<RunwayName>,
) -> Result<(), AllocError>
    ensures { OnOk result ((runways : List RunwayRules) → AreByName (R.day records.now) runways → text.new.items
        ≡ text.old.items ++ flat_map (load_line airport.now number plan.entry.now) (filter (is_asked asked.now) runways)) }
{
    for place in 0..records.runways() {
        push_asked(text, number, airport, plan, asked, records.runway_at(place))?;
    }
    Ok(())
}

/// A line for each runway that is asked, by name: the length of its cells, the minute that it is now, and the cells from the first
/// that tells something to the last, each with its first minute, how many flights it has and may have, how many of its minutes
/// are closed, and its flights by take-off and name.
///
/// `NoRunway` where the airport has no runway of the name, and else only `Memory`.
pub fn load_lines<R: Records>(
    alloc: Global,
    number: Option<u32>,
    airport: &Airport,
    records: &R,
    plan: &Plan,
    asked: Option<RunwayName>,
) -> Result<Vec<u8>, ViewFault>
    requires { airport.now ≡ (R.day records.now).airport }
    ensures text { IfOk result (λ text. AreLoadLines (R.day records.now) number plan.entry.now asked text.items) }
    ensures known { OnOk result (unknown_in (R.day records.now).airport asked ≡ None) }
    ensures fault { IfErr result (λ fault. IsLoadFault (R.day records.now).airport asked fault) }
{
    if let Some(name) = unknown_in(airport, &asked) {
        return Err(ViewFault::NoRunway(name));
    }
    let mut text = Vec::new(alloc);
    push_runways(&mut text, number, airport, records, plan, &asked)?;
    Ok(text)
}
