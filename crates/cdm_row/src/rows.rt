//! The Rows of a day's flights, and those that changed.
ghost use Rattle.std.specs.Prelude.{◌≡◌, ◌++◌, [], List, IfOk, OnOk};
ghost use Rattle.std.specs.List.{cons_option};
ghost use Rattle.std.specs.Option.{option_copied};
ghost use Rattle.cdm_plan.specs.DayPlan.{IsDayPlan};
ghost use Rattle.cdm_row.specs.Changed.{changed_rows};
ghost use Rattle.cdm_row.specs.Rows.{AreRows, KeepsRows, standing_row};
ghost use Rattle.cdm_row.specs.declared.row.Row.{Row as ARow};
ghost use Rattle.cdm_row.specs.inner.Passed.{from_name, is_first};

use crate::row::Row;
use cdm_flight::{FlightName, push_last};
use cdm_plan::Records;
use cdm_sequence::Plan;
use cdm_view::{Standing, Standings};
use std::alloc::{AllocError, Global};
use std::marker::Model;

/// The Rows of a day's known flights, by name. A contract sees the list.
#[derive(Debug, Drop)]
pub struct Rows {
    items: Vec<Row>,
}

impl Model for Rows {
    ghost use Rattle.std.specs.Prelude.{List};
    ghost use Rattle.cdm_row.specs.declared.row.Row.{Row as ARow};
    ghost use Rattle.cdm_row.specs.Rows.{KeepsRows};

    ghost Value = { List ARow };

    ghost view = { λ rows. rows.items.items };

    ghost invariant = { λ rows. KeepsRows rows.items.items };
}

// The Row of a standing behind the others, if its flight is known.
fn push_standing<R: Records>(
    rows: &mut Vec<Row>,
    records: &R,
    standing: &Standing,
) -> Result<(), AllocError>
    ensures { OnOk result (rows.new.items ≡ rows.old.items ++ cons_option (standing_row (R.day records.now) standing.now) []) }
{
    match records.flight(standing.flight()) {
        Some(flight) => push_last(rows, Row::of(records, flight, standing)),
        None => Ok(()),
    }
}

// The Rows from the flight of this name on.
fn from_flight(rows: &[Row], name: FlightName) -> &[Row]
    ensures { result.now ≡ from_name name rows.now }
{
    let below = rows.iter().take_while(|row| row.flight < name).count();
    &rows[below..]
}

// Whether the first is this Row.
fn is_first(rows: &[Row], row: &Row) -> bool
    ensures { result ≡ is_first rows.now row.now }
{
    match rows.first() {
        Some(first) => first == row,
        None => false,
    }
}

impl Rows {
    /// The Rows of a day with its plan, by name: one of each known flight (`each_flight_has_one_row`).
    pub fn of<R: Records>(alloc: Global, records: &R, plan: &Plan) -> Result<Rows, AllocError>
        requires { IsDayPlan (R.day records.now) plan.now }
        ensures all { IfOk result (AreRows (R.day records.now) plan.entry.now) }
        ensures only { IfOk result (λ rows. (other : List ARow) → AreRows (R.day records.now) plan.entry.now other → other ≡ rows) }
    {
        let standings = Standings::of(alloc, records, plan)?;
        let mut items = Vec::with_capacity(alloc, standings.as_slice().len())?;
        for standing in standings.as_slice() {
            push_standing(&mut items, records, standing)?;
        }
        Ok(Rows { items })
    }

    /// The Rows by name.
    pub fn as_slice(&self) -> &[Row]
        ensures items { result.now ≡ self.now }
        ensures keeps { KeepsRows self.now }
    {
        &self.items
    }

    /// The Rows, by name, of the flights that had another Row before, or none. Both lists are by name, so each is gone
    /// through once. Who puts them over the Rows before has these (`changed_rows_suffice`).
    pub fn changed_since(&self, alloc: Global, before: &Rows) -> Result<Vec<Row>, AllocError>
        ensures { IfOk result (λ changed. changed.items ≡ changed_rows before.now self.now) }
    {
        let mut left = before.as_slice();
        let mut changed = Vec::new(alloc);
        for row in self.as_slice() {
            left = from_flight(left, row.flight);
            if !is_first(left, row) {
                push_last(&mut changed, *row)?;
            }
        }
        Ok(changed)
    }
}
