//! A comparison as JSON.
ghost use Rattle.std.specs.Prelude.{◌≡◌, ◌++◌, IfOk, OnOk, codes, flat_map};
ghost use Rattle.std.specs.Option.{option_copied};
ghost use Rattle.cdm_row.specs.Changed.{row_named};
ghost use Rattle.cdm_row.specs.Json.{member_tokens, or_null, row_json};
ghost use Rattle.cdm_row.specs.Rows.{KeepsRows};
ghost use Rattle.cdm_table.specs.ComparisonJson.{AreChangeLines, AreChangeLinesIf, IsComparisonJson, change_line, change_members, name_members, summary_line, summary_members};

use crate::line::{Line, Summary};
use crate::plans::push_refusal;
use crate::ranking::{Ranking, ranked_lines};
use crate::tries::as_they_are;
use cdm_day::{DayState, Records};
use cdm_flight::FlightName;
use cdm_json::{begin_line, end_line, push_counts};
use cdm_phase::Gate;
use cdm_plan::Runner;
use cdm_row::{Row, Rows, push_count, push_row, push_text};
use cdm_scenario::{Overlay, Scenario, ScenarioName};
use cdm_time::Day;
use cdm_view::{Standing, changes_to};
use json::Writer;
use std::alloc::{AllocError, Global};
use std::thread::Threads;

/// Writes the name of a scenario, or null for the day itself.
pub(crate) fn push_name(
    writer: &mut Writer<Global>,
    name: &Option<ScenarioName>,
) -> Result<(), AllocError>
    ensures tokens { OnOk result (writer.new.tokens ≡ writer.old.tokens ++ flat_map member_tokens (name_members name.now)) }
    ensures before { writer.new.before ≡ writer.old.before }
{
    writer.key("scenario")?;
    match name {
        Some(name) => writer.string(name.text()),
        None => writer.null(),
    }
}

/// Writes what comes of a scenario.
pub(crate) fn push_summary(writer: &mut Writer<Global>, summary: &Summary) -> Result<(), AllocError>
    ensures tokens { OnOk result (writer.new.tokens ≡ writer.old.tokens ++ flat_map member_tokens (summary_members summary.now)) }
    ensures before { writer.new.before ≡ writer.old.before }
{
    match summary {
        Summary::Planned(counts, moved) => {
            push_counts(writer, counts)?;
            push_count(writer, "moved", *moved as u64)
        }
        Summary::Refused(number, word) => push_refusal(writer, *number, *word),
    }
}

// The line of a scenario, or of the day itself.
fn summary_line(alloc: Global, line: &Line) -> Result<Vec<u8>, AllocError>
    ensures { IfOk result (λ text. text.items ≡ summary_line line.now) }
{
    let mut writer = begin_line(alloc, None, "")?;
    push_name(&mut writer, &line.name)?;
    push_summary(&mut writer, &line.summary)?;
    end_line(writer)
}

// The lines.
fn lines_text(alloc: Global, lines: &[Line]) -> Result<Vec<u8>, AllocError>
    ensures { IfOk result (λ text. text.items ≡ flat_map summary_line lines.now) }
{
    let mut text = Vec::new(alloc);
    for line in lines {
        text.extend_from_slice(&summary_line(alloc, line)?)?;
    }
    Ok(text)
}

// The Row of the flight of this name.
fn row_named(rows: &[Row], name: FlightName) -> Option<&Row>
    requires { KeepsRows rows.now }
    ensures { option_copied result ≡ row_named rows.now name }
{
    match rows.binary_search_by_key(&name, |row| row.flight) {
        Ok(place) => Some(&rows[place]),
        Err(_) => None,
    }
}

// Writes the member of a Row, or of null where there is none.
fn push_row_if_any(
    writer: &mut Writer<Global>,
    day: Day,
    name: &str,
    row: Option<&Row>,
) -> Result<(), AllocError>
    ensures tokens { OnOk result (writer.new.tokens
        ≡ writer.old.tokens ++ member_tokens (name.now, or_null (row_json day) (option_copied row.entry))) }
    ensures before { writer.new.before ≡ writer.old.before }
{
    writer.key(name)?;
    match row {
        Some(row) => push_row(writer, day, row),
        None => writer.null(),
    }
}

// Writes a flight with its Rows before and after.
fn push_change(
    writer: &mut Writer<Global>,
    day: Day,
    name: FlightName,
    before: Option<&Row>,
    after: Option<&Row>,
) -> Result<(), AllocError>
    ensures tokens { OnOk result (writer.new.tokens
        ≡ writer.old.tokens ++ flat_map member_tokens (change_members day name (option_copied before.entry) (option_copied after.entry))) }
    ensures before { writer.new.before ≡ writer.old.before }
{
    push_text(writer, "flight", name.text())?;
    push_row_if_any(writer, day, "before", before)?;
    push_row_if_any(writer, day, "after", after)
}

// The Rows of a day's flights, and those by a scenario.
#[derive(Clone, Copy)]
struct Sides<'a> {
    day: Day,
    before: &'a Rows,
    after: &'a Rows,
}

// The line of a flight that stands otherwise by a scenario.
fn change_line(alloc: Global, sides: &Sides<'_>, standing: &Standing) -> Result<Vec<u8>, AllocError>
    ensures { IfOk result (λ text. text.items ≡ change_line sides.now.day sides.now.before.now sides.now.after.now standing.now) }
{
    let name = standing.flight();
    let before = row_named(sides.before.as_slice(), name);
    let after = row_named(sides.after.as_slice(), name);
    let mut writer = begin_line(alloc, None, "")?;
    push_change(&mut writer, sides.day, name, before, after)?;
    end_line(writer)
}

// The lines of the flights that stand otherwise.
fn change_lines(
    alloc: Global,
    sides: &Sides<'_>,
    changed: &[Standing],
) -> Result<Vec<u8>, AllocError>
    ensures { IfOk result (λ text. text.items
        ≡ flat_map (change_line sides.now.day sides.now.before.now sides.now.after.now) changed.now) }
{
    let mut text = Vec::new(alloc);
    for standing in changed {
        text.extend_from_slice(&change_line(alloc, sides, standing)?)?;
    }
    Ok(text)
}

// What changes in the day with all updates of a scenario.
fn told_of(alloc: Global, base: &DayState, day: &Overlay<'_>) -> Result<Vec<u8>, AllocError>
    ensures { IfOk result (λ text. AreChangeLines base.now day.now text.items) }
{
    let plan = day.plan(alloc)?;
    let changed = changes_to(alloc, base, day, &plan)?;
    let known = base.plan();
    let before = Rows::of(alloc, base, known)?;
    let after = Rows::of(alloc, day, &plan)?;
    let sides = Sides {
        day: *base.day(),
        before: &before,
        after: &after,
    };
    change_lines(alloc, &sides, &changed)
}

// What changes in the day by the scenario that is asked for, if one is.
fn told(alloc: Global, base: &DayState, asked: Option<&Overlay<'_>>) -> Result<Vec<u8>, AllocError>
    ensures { IfOk result (λ text. AreChangeLinesIf base.now (option_copied asked.entry) text.items) }
{
    match asked {
        Some(day) => told_of(alloc, base, day),
        None => Ok(Vec::new(alloc)),
    }
}

/// A line of JSON for the day and for each scenario, the best first, and then one for each flight that stands otherwise by
/// all updates of the scenario that is asked for, if one is, with its Rows before and after. Each scenario is answered over the base by
/// one of the workers in phase `Scenarios`, and every scenario is one piece.
pub(crate) fn comparison_json<R: Threads + Sync, G: Gate>(
    alloc: Global,
    base: &DayState,
    scenarios: &[Scenario],
    asked: Option<&Overlay<'_>>,
    runner: &Runner<'_, R, G>,
) -> Result<Vec<u8>, AllocError>
    ensures { IfOk result (λ text. IsComparisonJson base.now scenarios.now (option_copied asked.entry) text.items) }
{
    let tries = as_they_are(alloc, scenarios)?;
    let Ranking { before: _, lines } = ranked_lines(alloc, base, &tries, runner)?;
    let mut text = lines_text(alloc, &lines)?;
    text.extend_from_slice(&told(alloc, base, asked)?)?;
    Ok(text)
}
