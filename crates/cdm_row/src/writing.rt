//! Values and Rows as JSON, token by token.
ghost use Rattle.std.specs.Prelude.{◌≡◌, ◌++◌, ◌∷◌, [], OnOk, flat_map, map};
ghost use Rattle.json.specs.Json.{string as a_string};
ghost use Rattle.json.specs.Token.{string};
ghost use Rattle.json.specs.Tree.{json_tokens};
ghost use Rattle.cdm_row.specs.Columns.{value_of};
ghost use Rattle.cdm_time.specs.Times.{time_text};
ghost use Rattle.cdm_row.specs.Json.{array_of, count_json, json_value, member_tokens, row_json, row_members};

use crate::columns::{COLUMN_COUNT, Value, column_names};
use crate::row::Row;
use cdm_time::{Day, Minute};
use json::Writer;
use std::alloc::{AllocError, Global};
use std::str;

// A time in full.
fn push_time(writer: &mut Writer<Global>, day: Day, minute: Minute) -> Result<(), AllocError>
    ensures tokens { OnOk result (writer.new.tokens ≡ writer.old.tokens ++ string (time_text day minute) ∷ []) }
    ensures before { writer.new.before ≡ writer.old.before }
{
    let text = day.time_text(minute);
    writer.string(str::from_utf8(&text).unwrap())
}

/// Writes a value: null where there is nothing, and a time in full.
pub fn push_value(
    writer: &mut Writer<Global>,
    day: Day,
    value: &Value<'_>,
) -> Result<(), AllocError>
    ensures tokens { OnOk result (writer.new.tokens ≡ writer.old.tokens ++ json_tokens (json_value day (value_of value.now))) }
    ensures before { writer.new.before ≡ writer.old.before }
{
    match value {
        Value::Nothing => writer.null(),
        Value::Text(text) => writer.string(text),
        Value::Number(number) => writer.u64(*number),
        Value::Minute(minute) => push_time(writer, day, *minute),
    }
}

/// Writes a member of an object, whose value may be null.
pub fn push_member(
    writer: &mut Writer<Global>,
    day: Day,
    name: &str,
    value: &Value<'_>,
) -> Result<(), AllocError>
    ensures tokens { OnOk result (writer.new.tokens ≡ writer.old.tokens ++ member_tokens (name.now, json_value day (value_of value.now))) }
    ensures before { writer.new.before ≡ writer.old.before }
{
    writer.key(name)?;
    push_value(writer, day, value)
}

/// Writes a member of an object that is a text.
pub fn push_text(writer: &mut Writer<Global>, name: &str, text: &str) -> Result<(), AllocError>
    ensures tokens { OnOk result (writer.new.tokens ≡ writer.old.tokens ++ member_tokens (name.now, a_string text.now)) }
    ensures before { writer.new.before ≡ writer.old.before }
{
    writer.key(name)?;
    writer.string(text)
}

/// Writes a member of an object that counts something.
pub fn push_count(writer: &mut Writer<Global>, name: &str, count: u64) -> Result<(), AllocError>
    ensures tokens { OnOk result (writer.new.tokens ≡ writer.old.tokens ++ member_tokens (name.now, count_json count)) }
    ensures before { writer.new.before ≡ writer.old.before }
{
    writer.key(name)?;
    writer.u64(count)
}

/// Writes a member of an object that is a minute in full.
pub fn push_minute(
    writer: &mut Writer<Global>,
    day: Day,
    name: &str,
    minute: Minute,
) -> Result<(), AllocError>
    ensures tokens { OnOk result (writer.new.tokens ≡ writer.old.tokens ++ member_tokens (name.now, a_string (time_text day minute))) }
    ensures before { writer.new.before ≡ writer.old.before }
{
    writer.key(name)?;
    push_time(writer, day, minute)
}

// Writes the members of a Row.
fn push_members(writer: &mut Writer<Global>, day: Day, row: &Row) -> Result<(), AllocError>
    ensures tokens { OnOk result (writer.new.tokens ≡ writer.old.tokens ++ flat_map member_tokens (row_members day row.now)) }
    ensures before { writer.new.before ≡ writer.old.before }
{
    let names = column_names();
    let values = row.values();
    for place in 0..COLUMN_COUNT {
        push_member(writer, day, names[place], &values[place])?;
    }
    Ok(())
}

/// Writes the object of a Row. Only want of memory makes it fail.
pub fn push_row(writer: &mut Writer<Global>, day: Day, row: &Row) -> Result<(), AllocError>
    ensures tokens { OnOk result (writer.new.tokens ≡ writer.old.tokens ++ json_tokens (row_json day row.now)) }
    ensures before { writer.new.before ≡ writer.old.before }
{
    writer.begin_object()?;
    push_members(writer, day, row)?;
    writer.end_object()
}

// Writes Rows, one after another.
fn push_each(writer: &mut Writer<Global>, day: Day, rows: &[Row]) -> Result<(), AllocError>
    ensures tokens { OnOk result (writer.new.tokens ≡ writer.old.tokens ++ flat_map json_tokens (map (row_json day) rows.now)) }
    ensures before { writer.new.before ≡ writer.old.before }
{
    for row in rows {
        push_row(writer, day, row)?;
    }
    Ok(())
}

/// Writes the array of some Rows. Only want of memory makes it fail.
pub fn push_rows(writer: &mut Writer<Global>, day: Day, rows: &[Row]) -> Result<(), AllocError>
    ensures tokens { OnOk result (writer.new.tokens ≡ writer.old.tokens ++ json_tokens (array_of (map (row_json day) rows.now))) }
    ensures before { writer.new.before ≡ writer.old.before }
{
    writer.begin_array()?;
    push_each(writer, day, rows)?;
    writer.end_array()
}
