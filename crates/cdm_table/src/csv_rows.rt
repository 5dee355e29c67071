//! The rows of a day and of its scenarios.
ghost use Rattle.std.specs.Prelude.{◌≡◌, ◌++◌, ◌∷◌, [], All, IfOk, IfSome, OnOk};
ghost use Rattle.cdm_phase.specs.declared.job.PhaseName.TheVariants.{Scenarios};
ghost use Rattle.cdm_plan.specs.Sound.{IsSound};
ghost use Rattle.csv.specs.Writing.{default_writer, row_text};
ghost use Rattle.cdm_csv.specs.Rows.{csv_text};
ghost use Rattle.cdm_table.specs.Rows.{AreScenarioRows, IsCsv, column_names, flight_row, flights_text, refused_row};
ghost use Rattle.cdm_table.specs.inner.OwnRows.{IsOwnRow, csv_row, own_text};
ghost use Rattle.cdm_table.specs.inner.OneTable.{one_scenario_rows};

use crate::answers::push_all;
use crate::own_row::{OwnRow, from_flight, text_of_same};
use crate::row::{FlightWriter, column_names, refused_row};
use cdm_csv::{Fields, RowWriter};
use cdm_day::{DayState, Records};
use cdm_flight::{Listed, RefusalWord};
use cdm_phase::{Gate, Job, PhaseName, run_phase};
use cdm_plan::Runner;
use cdm_row::{Row, Rows};
use cdm_scenario::{Overlay, Scenario, ScenarioName};
use cdm_time::Day;
use std::alloc::{AllocError, Global};
use std::thread::Threads;

/// For how many bytes the text of a flight has room at first.
const ROOM: usize = 128;

// The day of rows, and the scenario whose rows they are.
#[derive(Clone, Copy)]
struct Sheet<'a> {
    day: Day,
    scenario: &'a ScenarioName,
}

// The row of a flight behind the others: the day's own with the scenario's name before it, where it is the same,
// else written anew.
fn push_flight(
    text: &mut Vec<u8>,
    writer: &mut FlightWriter,
    sheet: &Sheet<'_>,
    row: &Row,
    own: Option<&[u8]>,
) -> Result<(), AllocError>
    requires { IfSome own (λ own. own.now ≡ csv_row sheet.now.day row.now) }
    ensures { OnOk result (text.new.items ≡ text.old.items
        ++ row_text default_writer (flight_row sheet.now.day sheet.now.scenario.now row.now)) }
{
    if let Some(own) = own {
        text.extend_from_slice(sheet.scenario.bytes())?;
        text.extend_from_slice(own)?;
        return Ok(());
    }
    writer.push(text, sheet.day, sheet.scenario.bytes(), row)
}

// Rows of flights under a scenario's name, of which the day without it has these. Both are by name, so each is gone
// through once.
fn flight_rows(
    alloc: Global,
    sheet: &Sheet<'_>,
    rows: &Rows,
    own: &[OwnRow],
) -> Result<Vec<u8>, AllocError>
    requires { All (IsOwnRow (csv_row sheet.now.day)) own.now }
    ensures { IfOk result (λ text. text.items ≡ flights_text sheet.now.day sheet.now.scenario.now rows.now) }
{
    let mut writer = FlightWriter::new(alloc)?;
    let mut text = Vec::with_capacity(alloc, own.len().saturating_mul(ROOM))?;
    let mut left = own;
    for row in rows.as_slice() {
        left = from_flight(left, row.flight);
        push_flight(&mut text, &mut writer, sheet, row, text_of_same(left, row))?;
    }
    Ok(text)
}

// The text of one row.
fn text_of(alloc: Global, fields: &Fields) -> Result<Vec<u8>, AllocError>
    ensures { IfOk result (λ text. text.items ≡ row_text default_writer fields.now) }
{
    let mut text = Vec::new(alloc);
    RowWriter::new(alloc).push_row(alloc, &mut text, fields)?;
    Ok(text)
}

// The row of a scenario that is refused.
fn refused_text(
    alloc: Global,
    scenario: &ScenarioName,
    word: RefusalWord,
) -> Result<Vec<u8>, AllocError>
    ensures { IfOk result (λ text. text.items ≡ csv_text (refused_row scenario.now word ∷ [])) }
{
    text_of(alloc, &refused_row(alloc, scenario, word)?)
}

// The rows of a scenario over the base, which has these itself.
fn scenario_rows(
    alloc: Global,
    base: &DayState,
    own: &[OwnRow],
    scenario: &Scenario,
) -> Result<Vec<u8>, AllocError>
    requires { All (IsOwnRow (csv_row base.now.airport.day)) own.now }
    ensures { IfOk result (λ text. AreScenarioRows base.now scenario.now text.items) }
{
    let name = scenario.name();
    match Overlay::after(alloc, base, scenario.updates())? {
        Ok(day) => {
            let plan = day.plan(alloc)?;
            let sheet = Sheet {
                day: *base.day(),
                scenario: name,
            };
            let rows = Rows::of(alloc, &day, &plan)?;
            let text = flight_rows(alloc, &sheet, &rows, own)?;
            Ok(text)
        }
        Err((_, word)) => {
            let text = refused_text(alloc, name, word)?;
            Ok(text)
        }
    }
}

// The rows of each scenario over the base that they share.
#[derive(Clone, Copy)]
struct RowsJob<'a> {
    base: &'a DayState,
    own: &'a [OwnRow],
}

impl Job for RowsJob<'_> {
    type Item = Scenario;

    type Out = Listed<u8>;

    ghost can_run = { λ job _. IsSound job.base.now × All (IsOwnRow (csv_row job.base.now.airport.day)) job.own.now };

    ghost gives = { λ job scenario text. AreScenarioRows job.base.now scenario text };

    ghost phase_name = { Scenarios };

    fn run(&self, alloc: Global, scenario: &Scenario) -> Result<Listed<u8>, AllocError> {
        let text = scenario_rows(alloc, self.base, self.own, scenario)?;
        Ok(Listed::new(text))
    }

    fn phase(&self) -> PhaseName {
        PhaseName::Scenarios
    }

    ghost one_value = { λ job scenario x y can a b. one_scenario_rows job.base.now can.0.airport.names can.0.names scenario x y a b };
}

// The row that names the columns.
fn column_text(alloc: Global) -> Result<Vec<u8>, AllocError>
    ensures { IfOk result (λ text. text.items ≡ csv_text (column_names ∷ [])) }
{
    text_of(alloc, &column_names(alloc)?)
}

// A Row with its text behind the others.
fn push_own(
    alloc: Global,
    own: &mut Vec<OwnRow>,
    writer: &mut FlightWriter,
    day: Day,
    row: &Row,
) -> Result<(), AllocError>
    requires { All (IsOwnRow (csv_row day)) own.old.items }
    ensures made { OnOk result (All (IsOwnRow (csv_row day)) own.new.items) }
    ensures text { OnOk result (own_text own.new.items ≡ own_text own.old.items ++ csv_row day row.now) }
{
    let mut text = Vec::with_capacity(alloc, ROOM)?;
    writer.push(&mut text, day, b"", row)?;
    own.push(OwnRow::new(row, text))?;
    Ok(())
}

// The Rows of a day's flights with their texts.
fn own_rows(alloc: Global, day: Day, rows: &Rows) -> Result<Vec<OwnRow>, AllocError>
    ensures made { IfOk result (λ own. All (IsOwnRow (csv_row day)) own.items) }
    ensures text { IfOk result (λ own. own_text own.items ≡ flights_text day [] rows.now) }
{
    let mut writer = FlightWriter::new(alloc)?;
    let mut own = Vec::with_capacity(alloc, rows.as_slice().len())?;
    for row in rows.as_slice() {
        push_own(alloc, &mut own, &mut writer, day, row)?;
    }
    Ok(own)
}

// Puts the texts of rows behind what is there.
fn push_texts(text: &mut Vec<u8>, rows: &[OwnRow]) -> Result<(), AllocError>
    ensures { OnOk result (text.new.items ≡ text.old.items ++ own_text rows.now) }
{
    for row in rows {
        text.extend_from_slice(row.text())?;
    }
    Ok(())
}

/// Each flight's row by name, of the day and then of each scenario, as CSV. Each scenario is answered over
/// the base by one of the workers in phase `Scenarios`, and every scenario is one piece.
pub(crate) fn csv<R: Threads + Sync, G: Gate>(
    alloc: Global,
    base: &DayState,
    scenarios: &[Scenario],
    runner: &Runner<'_, R, G>,
) -> Result<Vec<u8>, AllocError>
    ensures { IfOk result (λ text. IsCsv base.now scenarios.now text.items) }
{
    // What the base's records tell is sound, which makes each answer the only one.
    let _values = base.values();
    let mut text = column_text(alloc)?;
    let rows = Rows::of(alloc, base, base.plan())?;
    let own = own_rows(alloc, *base.day(), &rows)?;
    push_texts(&mut text, &own)?;
    let job = RowsJob { base, own: &own };
    let (rt, workers, gate) = (runner.rt, runner.workers, runner.gate);
    let answers = run_phase(rt, alloc, workers, 1, &job, scenarios, gate)?;
    push_all(&mut text, answers)?;
    Ok(text)
}
