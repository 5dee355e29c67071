//! What is told of a record, as JSON on a line of its own.
ghost use Rattle.std.specs.Prelude.{◌≡◌, ◌++◌, IfOk, OnOk, flat_map, map};
ghost use Rattle.std.specs.Option.{option_copied};
ghost use Rattle.csv.specs.Records.{fields_of};
ghost use Rattle.json.specs.Tree.{json_tokens};
ghost use Rattle.cdm_row.specs.Changed.{row_named};
ghost use Rattle.cdm_row.specs.Json.{member_tokens};
ghost use Rattle.cdm_trace.specs.Traces.{field_json, json_of_all, json_of_flight, moved_line, record_members};

use cdm_desk::RowReply;
use cdm_files::field_at;
use cdm_flight::FlightName;
use cdm_json::{begin_line, end_line, reply_line};
use cdm_row::{Row, push_count, push_row};
use cdm_time::Day;
use csv::ByteRecord;
use json::Writer;
use std::alloc::{AllocError, Global};
use std::str;

// Writes a field as a text, or null where it is no UTF-8.
fn push_field(writer: &mut Writer<Global>, field: &[u8]) -> Result<(), AllocError>
    ensures tokens { OnOk result (writer.new.tokens ≡ writer.old.tokens ++ json_tokens (field_json field.now)) }
    ensures before { writer.new.before ≡ writer.old.before }
{
    match str::from_utf8(field) {
        Ok(text) => writer.string(text),
        Err(_) => writer.null(),
    }
}

// Writes the fields of a record, one after another.
fn push_each(writer: &mut Writer<Global>, row: &ByteRecord) -> Result<(), AllocError>
    ensures tokens { OnOk result (writer.new.tokens ≡ writer.old.tokens ++ flat_map json_tokens (map field_json (fields_of row.now))) }
    ensures before { writer.new.before ≡ writer.old.before }
{
    for place in 0..row.len() {
        push_field(writer, field_at(row, place))?;
    }
    Ok(())
}

// Writes the number of a record and its fields.
fn push_record(writer: &mut Writer<Global>, number: u32, row: &ByteRecord) -> Result<(), AllocError>
    ensures tokens { OnOk result (writer.new.tokens ≡ writer.old.tokens ++ flat_map member_tokens (record_members number (fields_of row.now))) }
    ensures before { writer.new.before ≡ writer.old.before }
{
    push_count(writer, "record", u64::from(number))?;
    writer.key("fields")?;
    writer.begin_array()?;
    push_each(writer, row)?;
    writer.end_array()
}

// The line of a record that changes a flight's Row to this one.
fn moved_line(
    alloc: Global,
    day: Day,
    number: u32,
    row: &ByteRecord,
    changed: &Row,
) -> Result<Vec<u8>, AllocError>
    ensures { IfOk result (λ text. text.items ≡ moved_line day number (fields_of row.now) changed.now) }
{
    let mut writer = begin_line(alloc, None, "")?;
    push_record(&mut writer, number, row)?;
    writer.key("row")?;
    push_row(&mut writer, day, changed)?;
    end_line(writer)
}

// The Row of the flight of this name, if it is among these.
fn row_named(rows: &[Row], name: FlightName) -> Option<&Row>
    ensures { option_copied result ≡ row_named rows.now name }
{
    rows.iter().find(|row| row.flight == name)
}

/// What is told of a record with this reply, where all records are asked for and the day has so many updates then.
pub(crate) fn line_of_all(
    alloc: Global,
    day: Day,
    number: u32,
    count: usize,
    reply: &RowReply,
) -> Result<Vec<u8>, AllocError>
    ensures { IfOk result (λ text. text.items ≡ json_of_all day number count reply.now) }
{
    if let RowReply::Accepted(changed) = reply {
        if changed.as_slice().is_empty() {
            return Ok(Vec::new(alloc));
        }
    }
    reply_line(alloc, day, number, count, reply)
}

/// What is told of a record with this reply, where one flight is asked for.
pub(crate) fn line_of_flight(
    alloc: Global,
    name: FlightName,
    day: Day,
    number: u32,
    row: &ByteRecord,
    reply: &RowReply,
) -> Result<Vec<u8>, AllocError>
    ensures { IfOk result (λ text. text.items ≡ json_of_flight name day number (fields_of row.now) reply.now) }
{
    let RowReply::Accepted(changed) = reply else {
        return Ok(Vec::new(alloc));
    };
    match row_named(changed.as_slice(), name) {
        Some(changed) => moved_line(alloc, day, number, row, changed),
        None => Ok(Vec::new(alloc)),
    }
}
