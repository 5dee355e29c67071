//! The Rows of a day and of its scenarios as JSON.
ghost use Rattle.std.specs.Prelude.{◌≡◌, ◌++◌, ◌∷◌, [], ◌==◌, All, IfOk, IfSome, OnOk, cond};
ghost use Rattle.cdm_json.specs.Plans.{flights_text};
ghost use Rattle.cdm_table.specs.inner.OwnRows.{IsOwnRow, json_row};

use crate::own_row::{OwnRow, from_flight, text_of_same};
use cdm_row::{Row, Rows, push_row};
use cdm_time::Day;
use json::Writer;
use std::alloc::{AllocError, Global};

/// For how many bytes the text of a Row has room at first.
const ROOM: usize = 256;

// The text of a Row.
fn row_text(alloc: Global, day: Day, row: &Row) -> Result<Vec<u8>, AllocError>
    ensures { IfOk result (λ text. text.items ≡ json_row day row.now) }
{
    let mut writer = Writer::new(Vec::with_capacity(alloc, ROOM)?);
    push_row(&mut writer, day, row)?;
    Ok(writer.into_inner())
}

/// The Rows of a day's flights with their texts.
pub(crate) fn own_rows(alloc: Global, day: Day, rows: &Rows) -> Result<Vec<OwnRow>, AllocError>
    ensures { IfOk result (λ own. All (IsOwnRow (json_row day)) own.items) }
{
    let mut own = Vec::with_capacity(alloc, rows.as_slice().len())?;
    for row in rows.as_slice() {
        let text = row_text(alloc, day, row)?;
        own.push(OwnRow::new(row, text))?;
    }
    Ok(own)
}

// The comma before the flight at this place.
fn push_comma(text: &mut Vec<u8>, place: usize) -> Result<(), AllocError>
    ensures { OnOk result (text.new.items ≡ text.old.items ++ cond (place == 0) [] (44 ∷ [])) }
{
    if place > 0 {
        text.push(b',')?;
    }
    Ok(())
}

// The Row of a flight behind what is there: the day's own text, where it is the same, else written anew.
fn push_flight(
    text: &mut Vec<u8>,
    alloc: Global,
    day: Day,
    row: &Row,
    own: Option<&[u8]>,
) -> Result<(), AllocError>
    requires { IfSome own (λ own. own.now ≡ json_row day row.now) }
    ensures { OnOk result (text.new.items ≡ text.old.items ++ json_row day row.now) }
{
    match own {
        Some(own) => text.extend_from_slice(own)?,
        None => text.extend_from_slice(&row_text(alloc, day, row)?)?,
    }
    Ok(())
}

/// The text of the Rows of all flights, of which the day itself has these. Both are by name, so each is gone through once.
pub(crate) fn flights_text(
    alloc: Global,
    day: Day,
    rows: &Rows,
    own: &[OwnRow],
) -> Result<Vec<u8>, AllocError>
    requires { All (IsOwnRow (json_row day)) own.now }
    ensures { IfOk result (λ text. text.items ≡ flights_text day rows.now) }
{
    let mut text = Vec::with_capacity(alloc, own.len().saturating_mul(ROOM))?;
    text.push(b'[')?;
    let mut left = own;
    let rows = rows.as_slice();
    for place in 0..rows.len() {
        let row = &rows[place];
        left = from_flight(left, row.flight);
        push_comma(&mut text, place)?;
        push_flight(&mut text, alloc, day, row, text_of_same(left, row))?;
    }
    text.push(b']')?;
    Ok(text)
}
