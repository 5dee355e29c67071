//! The lines of a day and its scenarios as CSV.
ghost use Rattle.std.specs.Prelude.{◌≡◌, ◌++◌, [], IfOk, OnOk, map, unwrap_or};
ghost use Rattle.cdm_csv.specs.Rows.{csv_text};
ghost use Rattle.cdm_table.specs.Comparison.{IsComparisonCsv, count_fields, line_columns, line_fields, no_counts};

use crate::line::{Line, Summary};
use crate::ranking::ranked_lines;
use crate::tries::as_they_are;
use cdm_csv::{Fields, RowWriter};
use cdm_day::DayState;
use cdm_phase::Gate;
use cdm_plan::Runner;
use cdm_report::Counts;
use cdm_scenario::{Scenario, ScenarioName};
use std::alloc::{AllocError, Global};
use std::thread::Threads;

// The row that names the columns.
#[tactic(auto, unfolding(crate::specs::Comparison::line_columns))]
fn line_columns(alloc: Global) -> Result<Fields, AllocError>
    ensures { IfOk result (λ fields. fields ≡ line_columns) }
{
    let mut fields = Fields::new(alloc)?;
    fields.push(b"scenario")?;
    fields.push(b"placed")?;
    fields.push(b"delay")?;
    fields.push(b"max")?;
    fields.push(b"late")?;
    fields.push(b"blocked")?;
    fields.push(b"moved")?;
    Ok(fields)
}

// The name of a scenario, or nothing for the day itself.
fn name_field(name: &Option<ScenarioName>) -> &[u8]
    ensures { result.now ≡ unwrap_or name.now [] }
{
    match name {
        Some(name) => name.bytes(),
        None => b"",
    }
}

// A plan's numbers behind the other fields.
#[tactic(auto, unfolding(crate::specs::Comparison::count_fields))]
fn push_counts(fields: &mut Fields, counts: &Counts, moved: usize) -> Result<(), AllocError>
    ensures { OnOk result (fields.new ≡ fields.old ++ count_fields counts.now moved) }
{
    fields.push_number(u64::from(counts.placed))?;
    fields.push_number(u64::from(counts.delay))?;
    fields.push_number(u64::from(counts.greatest))?;
    fields.push_number(u64::from(counts.late))?;
    fields.push_number(u64::from(counts.blocked))?;
    fields.push_number(moved as u64)
}

// The empty fields of a scenario that is refused behind the others.
#[tactic(auto, unfolding(crate::specs::Comparison::no_counts))]
fn push_no_counts(fields: &mut Fields) -> Result<(), AllocError>
    ensures { OnOk result (fields.new ≡ fields.old ++ no_counts) }
{
    fields.push(b"")?;
    fields.push(b"")?;
    fields.push(b"")?;
    fields.push(b"")?;
    fields.push(b"")?;
    fields.push(b"")
}

// Makes the fields those of a line.
fn set_line(fields: &mut Fields, line: &Line) -> Result<(), AllocError>
    ensures { OnOk result (fields.new ≡ line_fields line.now) }
{
    fields.clear();
    fields.push(name_field(&line.name))?;
    match &line.summary {
        Summary::Planned(counts, moved) => push_counts(fields, counts, *moved),
        Summary::Refused(..) => push_no_counts(fields),
    }
}

// The lines behind the text, each over the fields of the one before.
fn push_lines(
    alloc: Global,
    text: &mut Vec<u8>,
    fields: &mut Fields,
    writer: &mut RowWriter,
    lines: &[Line],
) -> Result<(), AllocError>
    ensures { OnOk result (text.new.items ≡ text.old.items ++ csv_text (map line_fields lines.now)) }
{
    for line in lines {
        set_line(fields, line)?;
        writer.push_row(alloc, text, fields)?;
    }
    Ok(())
}

/// A row for the day and for each scenario, the best first, as CSV. Each scenario is answered over the base by one of
/// the workers in phase `Scenarios`, and every scenario is one piece.
pub(crate) fn comparison_csv<R: Threads + Sync, G: Gate>(
    alloc: Global,
    base: &DayState,
    scenarios: &[Scenario],
    runner: &Runner<'_, R, G>,
) -> Result<Vec<u8>, AllocError>
    ensures { IfOk result (λ text. IsComparisonCsv base.now scenarios.now text.items) }
{
    let tries = as_they_are(alloc, scenarios)?;
    let ranking = ranked_lines(alloc, base, &tries, runner)?;
    let mut fields = line_columns(alloc)?;
    let mut writer = RowWriter::new(alloc);
    let mut text = Vec::new(alloc);
    writer.push_row(alloc, &mut text, &fields)?;
    push_lines(alloc, &mut text, &mut fields, &mut writer, &ranking.lines)?;
    Ok(text)
}
