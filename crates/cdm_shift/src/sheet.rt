//! What a shift is told, as CSV: a row that names the columns, and one for each start-up, warning or group.
ghost use Rattle.std.specs.Prelude.{◌≡◌, ◌++◌, ◌∷◌, [], IfOk, OnOk, List, map};
ghost use Rattle.csv.specs.Writing.{default_writer, row_text};
ghost use Rattle.cdm_runway.specs.Rules.{RunwayRules};
ghost use Rattle.cdm_plan.specs.DayPlan.{AreByName};
ghost use Rattle.cdm_csv.specs.Rows.{csv_text};
ghost use Rattle.cdm_row.specs.Columns.{value_of};
ghost use Rattle.cdm_shift.specs.Sheets.{causes_sheet, costs_columns, fields_of, next_sheet, start_up_columns, start_up_fields, warning_columns, warning_fields, warnings_sheet};
ghost use Rattle.cdm_shift.specs.Warnings.{has_clock};

use crate::costs::{costs_of, on_stand, rows_in, told_groups};
use crate::objects::{Member, costs_members, start_up_members, warning_members};
use crate::question::{Ahead, GroupBy};
use crate::start_ups::{StartUp, start_ups};
use crate::text::name_text;
use crate::warning::Warning;
use crate::warnings::warnings;
use cdm_csv::{Fields, RowWriter};
use cdm_plan::Records;
use cdm_row::Row;
use cdm_sequence::Plan;
use cdm_time::Day;
use std::alloc::{AllocError, Global};

// Makes the fields the names of columns.
fn set_names(fields: &mut Fields, names: &[&str]) -> Result<(), AllocError>
    ensures { OnOk result (fields.new ≡ map (λ name. name.now) names.now) }
{
    fields.clear();
    for name in names {
        fields.push(name.as_bytes())?;
    }
    Ok(())
}

// Makes the fields the values of members.
fn set_values(fields: &mut Fields, day: Day, members: &[Member<'_>]) -> Result<(), AllocError>
    ensures { OnOk result (fields.new ≡ fields_of day (map (λ m. (m.0.now, value_of m.1)) members.now)) }
{
    fields.clear();
    for member in members {
        fields.push_value(day, &member.1)?;
    }
    Ok(())
}

/// Writes rows, each over the fields of the one before.
#[derive(Drop)]
pub(crate) struct Sheet {
    pub(crate) alloc: Global,
    pub(crate) fields: Fields,
    pub(crate) writer: RowWriter,
}

impl Sheet {
    /// One that has written nothing.
    pub(crate) fn new(alloc: Global) -> Result<Sheet, AllocError> {
        Ok(Sheet {
            alloc,
            fields: Fields::new(alloc)?,
            writer: RowWriter::new(alloc),
        })
    }

    /// Puts the row that names the columns behind the text.
    pub(crate) fn push_names(
        &mut self,
        text: &mut Vec<u8>,
        names: &[&str],
    ) -> Result<(), AllocError>
        ensures { OnOk result (text.new.items ≡ text.old.items ++ row_text default_writer (map (λ name. name.now) names.now)) }
    {
        set_names(&mut self.fields, names)?;
        self.writer.push_row(self.alloc, text, &self.fields)
    }

    // Puts the row of members behind the text.
    fn push(
        &mut self,
        text: &mut Vec<u8>,
        day: Day,
        members: &[Member<'_>],
    ) -> Result<(), AllocError>
        ensures { OnOk result (text.new.items
            ≡ text.old.items ++ row_text default_writer (fields_of day (map (λ m. (m.0.now, value_of m.1)) members.now))) }
    {
        set_values(&mut self.fields, day, members)?;
        self.writer.push_row(self.alloc, text, &self.fields)
    }
}

// The columns of start-ups.
#[tactic(auto, unfolding(crate::specs::Sheets::start_up_columns))]
fn start_up_columns() -> [&'static str; 9]
    ensures { map (λ name. name.now) result ≡ start_up_columns }
{
    [
        "tsat", "flight", "runway", "stand", "tobt", "ctot", "ttot", "delay", "cause",
    ]
}

// The rows of start-ups.
fn start_up_rows(alloc: Global, day: Day, found: &[StartUp]) -> Result<Vec<u8>, AllocError>
    ensures { IfOk result (λ text. text.items ≡ csv_text (start_up_columns ∷ map (start_up_fields day) found.now)) }
{
    let mut sheet = Sheet::new(alloc)?;
    let mut text = Vec::new(alloc);
    sheet.push_names(&mut text, &start_up_columns())?;
    for start_up in found {
        sheet.push(&mut text, day, &start_up_members(start_up))?;
    }
    Ok(text)
}

/// The start-ups of the next minutes, a row each.
pub(crate) fn next_sheet<R: Records>(
    alloc: Global,
    day: Day,
    records: &R,
    plan: &Plan,
    rows: &[Row],
    ahead: Ahead,
) -> Result<Vec<u8>, AllocError>
    requires { day ≡ (R.day records.now).airport.day }
    ensures { IfOk result (λ text. text.items ≡ next_sheet (R.day records.now) plan.entry.now rows.now ahead) }
{
    let found = start_ups(alloc, records, plan, rows, ahead)?;
    start_up_rows(alloc, day, &found)
}

// The columns of warnings.
#[tactic(auto, unfolding(crate::specs::Sheets::warning_columns))]
fn warning_columns() -> [&'static str; 9]
    ensures { map (λ name. name.now) result ≡ warning_columns }
{
    [
        "kind", "flight", "runway", "time", "ctot", "ttot", "rule", "placed", "cap",
    ]
}

// The rows of warnings.
fn warning_rows(alloc: Global, day: Day, found: &[Warning]) -> Result<Vec<u8>, AllocError>
    ensures { IfOk result (λ text. text.items ≡ csv_text (warning_columns ∷ map (warning_fields day) found.now)) }
{
    let mut sheet = Sheet::new(alloc)?;
    let mut text = Vec::new(alloc);
    sheet.push_names(&mut text, &warning_columns())?;
    for warning in found {
        sheet.push(&mut text, day, &warning_members(warning))?;
    }
    Ok(text)
}

/// The warnings of a day, a row each.
pub(crate) fn warnings_sheet<R: Records>(
    alloc: Global,
    day: Day,
    clocked: bool,
    records: &R,
    plan: &Plan,
    rows: &[Row],
) -> Result<Vec<u8>, AllocError>
    requires day { day ≡ (R.day records.now).airport.day }
    requires clock { clocked ≡ has_clock (R.day records.now).journal }
    ensures { IfOk result (λ text. (runways : List RunwayRules) → AreByName (R.day records.now) runways →
        text.items ≡ warnings_sheet (R.day records.now) plan.entry.now rows.now runways) }
{
    let found = warnings(alloc, clocked, records, plan, rows)?;
    warning_rows(alloc, day, &found)
}

// The columns of groups.
#[tactic(auto, unfolding(crate::specs::Sheets::costs_columns))]
fn costs_columns() -> [&'static str; 10]
    ensures { map (λ name. name.now) result ≡ costs_columns }
{
    [
        "group", "placed", "delay", "ice", "ctot", "closure", "spacing", "rate", "now", "blocked",
    ]
}

/// Where the minutes of delay come from, a row for each group and one for all.
pub(crate) fn causes_sheet<R: Records>(
    alloc: Global,
    day: Day,
    records: &R,
    plan: &Plan,
    by: GroupBy,
    rows: &[Row],
) -> Result<Vec<u8>, AllocError>
    requires { day ≡ (R.day records.now).airport.day }
    ensures { IfOk result (λ text. text.items ≡ causes_sheet (R.day records.now) plan.entry.now by rows.now) }
{
    let standing = on_stand(alloc, rows)?;
    let groups = told_groups(alloc, by, &standing)?;
    let mut sheet = Sheet::new(alloc)?;
    let mut text = Vec::new(alloc);
    sheet.push_names(&mut text, &costs_columns())?;
    for group in &groups {
        let rows = rows_in(alloc, by, &standing, group)?;
        let costs = costs_of(alloc, records, plan, &rows)?;
        sheet.push(&mut text, day, &costs_members(name_text(group), &costs))?;
    }
    let costs = costs_of(alloc, records, plan, &standing)?;
    sheet.push(&mut text, day, &costs_members("TOTAL", &costs))?;
    Ok(text)
}
