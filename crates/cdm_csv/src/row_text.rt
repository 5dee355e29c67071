//! Fields, and the text of rows of them. Only this module writes by `csv`.
ghost use Rattle.std.specs.Prelude.{◌≡◌, ◌++◌, ◌∷◌, [], decimal, IfOk, OnOk};
ghost use Rattle.csv.specs.Records.{fields_of};
ghost use Rattle.csv.specs.Writing.{default_writer, row_text};
ghost use Rattle.cdm_row.specs.Columns.{field, value_of};
ghost use Rattle.cdm_csv.specs.inner.Writers.{IsBetweenRows, written};

use cdm_row::Value;
use cdm_time::Day;
use csv::{ByteRecord, Writer, WriterBuilder};
use std::alloc::{AllocError, Global};
use std::fmt::Write;
use std::marker::Model;

/// For how many bytes and fields a row has room at first.
const ROOM: (usize, usize) = (160, 14);

/// The fields of a row. A contract sees the list of them.
pub struct Fields {
    record: ByteRecord,
    // The digits of a number, while they become a field.
    digits: String,
}

// One call drops it, in place of its fields one by one at each exit of each function that owns it.
impl Drop for Fields {
    fn drop(self) {
        let Fields {
            record: _,
            digits: _,
        } = self;
    }
}

impl Model for Fields {
    ghost use Rattle.std.specs.Prelude.{◌≡◌, List, ℕ, []};
    ghost use Rattle.csv.specs.Records.{fields_of, partial_of};

    ghost Value = { List (List ℕ) };

    ghost view = { λ fields. fields_of fields.record };

    ghost invariant = { λ fields. partial_of fields.record ≡ [] };
}

impl Fields {
    /// No fields.
    pub fn new(alloc: Global) -> Result<Fields, AllocError>
        ensures { IfOk result (λ fields. fields ≡ []) }
    {
        let (bytes, fields) = ROOM;
        Ok(Fields {
            record: ByteRecord::with_capacity(alloc, bytes, fields)?,
            digits: String::new(alloc),
        })
    }

    /// Takes all fields away.
    pub fn clear(&mut self)
        ensures { self.new ≡ [] }
    {
        self.record.clear();
    }

    /// One more field behind the others.
    pub fn push(&mut self, field: &[u8]) -> Result<(), AllocError>
        ensures { OnOk result (self.new ≡ self.old ++ field.now ∷ []) }
    {
        if self.record.push_field(field).is_err() {
            // What may stand of the field goes.
            self.record.clear();
            return Err(AllocError);
        }
        Ok(())
    }

    /// One more field with the digits of a number.
    pub fn push_number(&mut self, number: u64) -> Result<(), AllocError>
        ensures { OnOk result (self.new ≡ self.old ++ decimal number ∷ []) }
    {
        self.digits.clear();
        write!(self.digits, "{number}")?;
        if self.record.push_field(self.digits.as_bytes()).is_err() {
            self.record.clear();
            return Err(AllocError);
        }
        Ok(())
    }

    /// One more field with a value, empty where there is nothing.
    pub fn push_value(&mut self, day: Day, value: &Value<'_>) -> Result<(), AllocError>
        ensures { OnOk result (self.new ≡ self.old ++ field day (value_of value.now) ∷ []) }
    {
        match value {
            Value::Nothing => self.push(b""),
            Value::Text(text) => self.push(text.as_bytes()),
            Value::Number(number) => self.push_number(*number),
            Value::Minute(minute) => self.push(&day.time_text(*minute)),
        }
    }
}

/// Writes rows of one length: commas between fields, quotes where they are needed, and each row ended by LF. A
/// contract sees what it has written.
pub struct RowWriter {
    writer: Writer<Vec<u8>>,
}

// One call drops it, in place of the writer's fields one by one at each exit of each function that owns it.
impl Drop for RowWriter {
    fn drop(self) {
        let RowWriter { writer: _ } = self;
    }
}

impl Model for RowWriter {
    ghost use Rattle.std.specs.Prelude.{List, ℕ};
    ghost use Rattle.cdm_csv.specs.inner.Writers.{IsBetweenRows, written};

    ghost Value = { List ℕ };

    ghost view = { λ w. written w.writer };

    ghost invariant = { λ w. IsBetweenRows w.writer };
}

// A writer that has written nothing.
fn fresh(alloc: Global) -> Writer<Vec<u8>>
    ensures between { IsBetweenRows result }
    ensures text { written result ≡ [] }
{
    WriterBuilder::new().from_writer(Vec::new(alloc))
}

// Writes a row, with all that the writer holds back.
fn write_row(writer: &mut Writer<Vec<u8>>, row: &ByteRecord) -> Result<(), csv::Error>
    requires { IsBetweenRows writer.old }
    ensures between { OnOk result (IsBetweenRows writer.new) }
    ensures text { OnOk result (written writer.new ≡ written writer.old ++ row_text default_writer (fields_of row.now)) }
{
    writer.write_byte_record(row)?;
    writer.flush()
}

impl RowWriter {
    /// A writer that has written nothing.
    pub fn new(alloc: Global) -> RowWriter
        ensures { result ≡ [] }
    {
        RowWriter {
            writer: fresh(alloc),
        }
    }

    /// Writes a row, and puts its text behind the other text. Memory is written, which fails for want of it alone.
    pub fn push_row(
        &mut self,
        alloc: Global,
        text: &mut Vec<u8>,
        fields: &Fields,
    ) -> Result<(), AllocError>
        ensures { OnOk result (text.new.items ≡ text.old.items ++ row_text default_writer fields.now) }
    {
        let begin = self.writer.get_ref().len();
        if write_row(&mut self.writer, &fields.record).is_err() {
            self.writer = fresh(alloc);
            return Err(AllocError);
        }
        let written = self.writer.get_ref().as_slice();
        text.extend_from_slice(&written[begin..])
    }
}
