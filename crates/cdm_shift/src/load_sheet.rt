//! How full the runways are, as CSV: a row that names the columns, and one for each cell.
ghost use Rattle.std.specs.Prelude.{◌≡◌, ◌/◌, ◌<◌, ◌++◌, ◌∷◌, [], List, None, codes, drop, filter, flat_map, map, IfErr, IfOk, OnOk};
ghost use Rattle.std.specs.List.{cons_option};
ghost use Rattle.std.specs.Option.{option_copied};
ghost use Rattle.std.specs.String.{string_bytes};
ghost use Rattle.cdm_runway.specs.Rules.{RunwayRules};
ghost use Rattle.cdm_plan.specs.DayPlan.{AreByName};
ghost use Rattle.cdm_view.specs.Load.{IsLoadFault, flights_in_cell, is_asked, told_cells, unknown_in};
ghost use Rattle.cdm_csv.specs.Rows.{csv_text};
ghost use Rattle.cdm_shift.specs.Sheets.{IsLoadSheet, cell_columns, cell_fields, cell_row, names_field, runway_sheet};

use crate::sheet::Sheet;
use cdm_csv::Fields;
use cdm_day::{Airport, Records};
use cdm_flight::RunwayName;
use cdm_row::Value;
use cdm_runway::Runway;
use cdm_sequence::{Plan, Slot};
use cdm_time::Day;
use cdm_view::{
    ViewFault, cap_of_cell, closed_in_cell, first_minute, flights_in_cell, is_asked, is_in_cell,
    slots_on, told_cells, unknown_in, usual_cap,
};
use std::alloc::{AllocError, Global};
use std::fmt::Write;

// The columns of cells.
#[tactic(auto, unfolding(crate::specs::Sheets::cell_columns))]
fn cell_columns() -> [&'static str; 7]
    ensures { map (λ name. name.now) result ≡ cell_columns }
{
    [
        "runway", "cell", "from", "placed", "cap", "closed", "flights",
    ]
}

// A space and the name of each flight of the cell.
fn push_names(
    text: &mut String,
    runway: &Runway,
    slots: &[Slot],
    cell: u16,
) -> Result<(), AllocError>
    ensures { OnOk result (string_bytes text.new
        ≡ string_bytes text.old ++ flat_map (λ s. codes " " ++ s.name) (flights_in_cell runway.now slots.now cell)) }
{
    for slot in slots {
        if is_in_cell(runway, slot, cell) {
            let name = slot.name.text();
            write!(text, " {name}")?;
        }
    }
    Ok(())
}

// Bytes without the first, if there is one.
fn without_first(bytes: &[u8]) -> &[u8]
    ensures { result.now ≡ drop 1 bytes.now }
{
    if bytes.is_empty() { bytes } else { &bytes[1..] }
}

// The field of a cell's flights.
fn push_flights(
    fields: &mut Fields,
    names: &mut String,
    runway: &Runway,
    slots: &[Slot],
    cell: u16,
) -> Result<(), AllocError>
    ensures { OnOk result (fields.new ≡ fields.old ++ names_field (flights_in_cell runway.now slots.now cell) ∷ []) }
{
    names.clear();
    push_names(names, runway, slots, cell)?;
    fields.push(without_first(names.as_bytes()))
}

// Makes the fields those of a cell. The names are what its flights are written in.
#[tactic(auto, unfolding(crate::specs::Sheets::cell_fields))]
fn set_cell(
    fields: &mut Fields,
    names: &mut String,
    day: Day,
    runway: &Runway,
    slots: &[Slot],
    cell: u16,
) -> Result<(), AllocError>
    requires { cell < 2880 / runway.now.cell }
    ensures { OnOk result (fields.new ≡ cell_fields day runway.now slots.now cell) }
{
    fields.clear();
    let name = runway.name();
    fields.push(name.bytes())?;
    fields.push_number(u64::from(runway.cell().get()))?;
    fields.push_value(day, &Value::Minute(first_minute(runway, cell)))?;
    fields.push_number(flights_in_cell(runway, slots, cell) as u64)?;
    fields.push_number(u64::from(cap_of_cell(runway, cell)))?;
    fields.push_number(u64::from(closed_in_cell(runway, cell)))?;
    push_flights(fields, names, runway, slots, cell)
}

// The rows of the cells from the first that tells something to the last.
fn push_cells(
    text: &mut Vec<u8>,
    sheet: &mut Sheet,
    day: Day,
    runway: &Runway,
    usual: u16,
    slots: &[Slot],
) -> Result<(), AllocError>
    ensures { OnOk result (text.new.items
        ≡ text.old.items ++ flat_map (cell_row day runway.now slots.now) (told_cells runway.now usual slots.now)) }
{
    let mut names = String::new(sheet.alloc);
    let (from, to) = told_cells(runway, usual, slots);
    for cell in from..to {
        set_cell(&mut sheet.fields, &mut names, day, runway, slots, cell)?;
        sheet.writer.push_row(sheet.alloc, text, &sheet.fields)?;
    }
    Ok(())
}

// The rows of a runway's cells.
#[tactic(auto, unfolding(crate::specs::Sheets::runway_sheet))]
fn push_runway(
    text: &mut Vec<u8>,
    sheet: &mut Sheet,
    airport: &Airport,
    plan: &Plan,
    runway: &Runway,
) -> Result<(), AllocError>
    ensures { OnOk result (text.new.items ≡ text.old.items ++ runway_sheet airport.now plan.entry.now runway.now) }
{
    let usual = usual_cap(airport, runway.name());
    let slots = slots_on(plan, runway.name());
    push_cells(text, sheet, *airport.day(), runway, usual, slots)
}

// The rows of a runway, if there is one and it is asked.
fn push_asked(
    text: &mut Vec<u8>,
    sheet: &mut Sheet,
    airport: &Airport,
    plan: &Plan,
    asked: &Option<RunwayName>,
    runway: Option<&Runway>,
) -> Result<(), AllocError>
    ensures { OnOk result (text.new.items ≡ text.old.items
        ++ flat_map (runway_sheet airport.now plan.entry.now) (filter (is_asked asked.now) (cons_option (option_copied runway.entry) []))) }
{
    match runway {
        Some(runway) if is_asked(asked, runway) => push_runway(text, sheet, airport, plan, runway),
        _ => Ok(()),
    }
}

// The rows of the runways asked, by name.
fn push_runways<R: Records>(
    text: &mut Vec<u8>,
    sheet: &mut Sheet,
    airport: &Airport,
    records: &R,
    plan: &Plan,
    asked: &Option<RunwayName>,
) -> Result<(), AllocError>
    ensures { OnOk result ((runways : List RunwayRules) → AreByName (R.day records.now) runways → text.new.items
        ≡ text.old.items ++ flat_map (runway_sheet airport.now plan.entry.now) (filter (is_asked asked.now) runways)) }
{
    for place in 0..records.runways() {
        push_asked(text, sheet, airport, plan, asked, records.runway_at(place))?;
    }
    Ok(())
}

// The row that names the columns.
fn begun(alloc: Global, sheet: &mut Sheet) -> Result<Vec<u8>, AllocError>
    ensures { IfOk result (λ text. text.items ≡ csv_text (cell_columns ∷ [])) }
{
    let mut text = Vec::new(alloc);
    sheet.push_names(&mut text, &cell_columns())?;
    Ok(text)
}

/// A row for each cell that is told of the runways that are asked, by name.
///
/// `NoRunway` where the airport has no runway of the name, and else only `Memory`.
pub(crate) fn load_sheet<R: Records>(
    alloc: Global,
    airport: &Airport,
    records: &R,
    plan: &Plan,
    asked: Option<RunwayName>,
) -> Result<Vec<u8>, ViewFault>
    requires { airport.now ≡ (R.day records.now).airport }
    ensures text { IfOk result (λ text. IsLoadSheet (R.day records.now) plan.entry.now asked text.items) }
    ensures known { OnOk result (unknown_in (R.day records.now).airport asked ≡ None) }
    ensures fault { IfErr result (λ fault. IsLoadFault (R.day records.now).airport asked fault) }
{
    if let Some(name) = unknown_in(airport, &asked) {
        return Err(ViewFault::NoRunway(name));
    }
    let mut sheet = Sheet::new(alloc)?;
    let mut text = begun(alloc, &mut sheet)?;
    push_runways(&mut text, &mut sheet, airport, records, plan, &asked)?;
    Ok(text)
}
