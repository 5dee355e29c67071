//! The rows of a day itself, which those of its scenarios mostly repeat.
ghost use Rattle.std.specs.Prelude.{◌≡◌, ℕ, List, All, IfSome};
ghost use Rattle.cdm_row.specs.declared.row.Row.{Row as ARow};
ghost use Rattle.cdm_table.specs.inner.OwnRows.{IsOwnRow};

use cdm_flight::FlightName;
use cdm_row::Row;

/// A flight's Row with its text, as CSV or as JSON.
#[derive(Drop)]
pub(crate) struct OwnRow {
    row: Row,
    text: Vec<u8>,
}

impl OwnRow {
    /// A Row that has this text.
    pub(crate) fn new(row: &Row, text: Vec<u8>) -> OwnRow
        ensures row { result.row ≡ row.now }
        ensures text { result.text ≡ text }
    {
        OwnRow { row: *row, text }
    }

    /// The row's text.
    pub(crate) fn text(&self) -> &[u8]
        ensures { result.now ≡ self.now.text.items }
    {
        &self.text
    }
}

/// The rows from the flight of this name on.
pub(crate) fn from_flight(rows: &[OwnRow], name: FlightName) -> &[OwnRow]
    ensures { (form : ARow → List ℕ) → All (IsOwnRow form) rows.now → All (IsOwnRow form) result.now }
{
    let below = rows.iter().take_while(|own| own.row.flight < name).count();
    &rows[below..]
}

/// The text of the first row, if it is of this very Row.
pub(crate) fn text_of_same<'a>(rows: &'a [OwnRow], row: &Row) -> Option<&'a [u8]>
    ensures { (form : ARow → List ℕ) → All (IsOwnRow form) rows.now → IfSome result (λ text. text.now ≡ form row.now) }
{
    if rows.is_empty() {
        return None;
    }
    let first = &rows[0];
    if first.row == *row {
        Some(first.text())
    } else {
        None
    }
}
