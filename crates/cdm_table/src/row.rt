//! The rows of the table as fields: its heading, that of a flight, and that of a scenario that is refused.
ghost use Rattle.std.specs.Prelude.{◌≡◌, ◌++◌, IfOk, OnOk};
ghost use Rattle.csv.specs.Writing.{default_writer, row_text};
ghost use Rattle.cdm_table.specs.Rows.{column_names, flight_row, refused_field, refused_row};

use cdm_csv::{Fields, RowWriter};
use cdm_flight::RefusalWord;
use cdm_row::Row;
use cdm_scenario::ScenarioName;
use cdm_time::Day;
use std::alloc::{AllocError, Global};

/// The row that names the columns.
pub(crate) fn column_names(alloc: Global) -> Result<Fields, AllocError>
    ensures { IfOk result (λ fields. fields ≡ column_names) }
{
    let mut fields = Fields::new(alloc)?;
    fields.push(b"scenario")?;
    for name in &cdm_row::column_names() {
        fields.push(name.as_bytes())?;
    }
    Ok(fields)
}

// Makes the fields those of a flight's Row, under a scenario's name or under none.
fn set_flight(fields: &mut Fields, day: Day, scenario: &[u8], row: &Row) -> Result<(), AllocError>
    ensures { OnOk result (fields.new ≡ flight_row day scenario.now row.now) }
{
    fields.clear();
    fields.push(scenario)?;
    for value in &row.values() {
        fields.push_value(day, value)?;
    }
    Ok(())
}

/// Writes rows of flights, each over the one before.
#[derive(Drop)]
pub(crate) struct FlightWriter {
    alloc: Global,
    fields: Fields,
    writer: RowWriter,
}

impl FlightWriter {
    /// A writer that has written nothing.
    pub(crate) fn new(alloc: Global) -> Result<FlightWriter, AllocError> {
        Ok(FlightWriter {
            alloc,
            fields: Fields::new(alloc)?,
            writer: RowWriter::new(alloc),
        })
    }

    /// Puts the row of a flight behind the text, under a scenario's name or under none.
    pub(crate) fn push(
        &mut self,
        text: &mut Vec<u8>,
        day: Day,
        scenario: &[u8],
        row: &Row,
    ) -> Result<(), AllocError>
        ensures { OnOk result (text.new.items ≡ text.old.items ++ row_text default_writer (flight_row day scenario.now row.now)) }
    {
        set_flight(&mut self.fields, day, scenario, row)?;
        self.writer.push_row(self.alloc, text, &self.fields)
    }
}

// What the row of a refused scenario has in the column of this name.
fn refused_field(name: &str, word: RefusalWord) -> &'static [u8]
    ensures { result.now ≡ refused_field word name.now }
{
    if name == "status" {
        b"REFUSED"
    } else if name == "rule" {
        word.text().as_bytes()
    } else {
        b""
    }
}

/// The row of a scenario that is refused, with its word.
pub(crate) fn refused_row(
    alloc: Global,
    scenario: &ScenarioName,
    word: RefusalWord,
) -> Result<Fields, AllocError>
    ensures { IfOk result (λ fields. fields ≡ refused_row scenario.now word) }
{
    let mut fields = Fields::new(alloc)?;
    fields.push(scenario.bytes())?;
    for name in &cdm_row::column_names() {
        fields.push(refused_field(name, word))?;
    }
    Ok(fields)
}
