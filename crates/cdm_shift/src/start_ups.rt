//! The start-ups ahead.
ghost use Rattle.std.specs.Prelude.{◌≡◌, ◌+◌, ◌++◌, ◌&&◌, ◌==◌, ◌≤◌, IfOk, OnOk, filter, min, slice_get};
ghost use Rattle.std.specs.Option.{option_map_or};
ghost use Rattle.cdm_shift.specs.StartUps.{is_planned, last_of, start_up, start_ups, starting, starts_at};

use crate::held::causes_named;
use crate::question::Ahead;
use cdm_flight::push_last;
use cdm_plan::Records;
use cdm_row::{Row, RowStatus};
use cdm_sequence::Plan;
use cdm_time::{HORIZON_MINUTES, Minute};
use cdm_view::Cause;
use std::alloc::{AllocError, Global};

/// A start-up ahead: the Row of a planned flight, and what held it in the last minute before its take-off, if it waited.
#[derive(Clone, Copy, PartialEq, Eq, Debug)]
pub struct StartUp {
    pub row: Row,
    pub cause: Option<Cause>,
}

/// Whether a flight is on its stand with a slot.
pub(crate) fn is_planned(status: RowStatus) -> bool
    ensures { result ≡ is_planned status }
{
    status == RowStatus::Planned
}

// Whether the flight starts up at the minute.
fn starts_at(number: u16, row: &Row) -> bool
    ensures { result ≡ starts_at number row.now }
{
    is_planned(row.status)
        && match row.tsat {
            Some(tsat) => tsat.get() == number,
            None => false,
        }
}

// The Rows of the flights that start up at the minute, behind the others.
fn push_starting(found: &mut Vec<Row>, rows: &[Row], number: u16) -> Result<(), AllocError>
    ensures { OnOk result (found.new.items ≡ found.old.items ++ filter (starts_at number) rows.now) }
{
    for row in rows {
        if starts_at(number, row) {
            push_last(found, *row)?;
        }
    }
    Ok(())
}

// The Rows of the flights that start up before the minute, by TSAT, and those of one minute as they stand.
#[tactic(auto, unfolding(crate::specs::StartUps::starting))]
fn starting(alloc: Global, rows: &[Row], end: u16) -> Result<Vec<Row>, AllocError>
    ensures { IfOk result (λ found. found.items ≡ starting rows.now end) }
{
    let mut found = Vec::new(alloc);
    for number in 0..end {
        push_starting(&mut found, rows, number)?;
    }
    Ok(found)
}

// The start-up of a flight.
fn start_up<R: Records>(
    alloc: Global,
    records: &R,
    plan: &Plan,
    row: &Row,
) -> Result<StartUp, AllocError>
    ensures { IfOk result (λ found. found ≡ start_up (R.day records.now) plan.entry.now row.now) }
{
    let causes = causes_named(alloc, records, plan, row.flight)?;
    Ok(StartUp {
        row: *row,
        cause: causes.last().copied(),
    })
}

/// The start-ups of the next minutes, by TSAT and name, of a day's Rows by name.
pub(crate) fn start_ups<R: Records>(
    alloc: Global,
    records: &R,
    plan: &Plan,
    rows: &[Row],
    ahead: Ahead,
) -> Result<Vec<StartUp>, AllocError>
    ensures { IfOk result (λ found. found.items ≡ start_ups (R.day records.now) plan.entry.now rows.now ahead) }
{
    let end = (plan.clock.get() + ahead.get()).min(HORIZON_MINUTES);
    let mut found = Vec::new(alloc);
    for row in &starting(alloc, rows, end)? {
        push_last(&mut found, start_up(alloc, records, plan, row)?)?;
    }
    Ok(found)
}
