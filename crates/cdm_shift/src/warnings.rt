//! The warnings of a day, kind by kind.
ghost use Rattle.std.specs.Prelude.{◌≡◌, ◌/◌, ◌<◌, ◌++◌, [], List, IfOk, OnOk, filter, flat_map, map};
ghost use Rattle.std.specs.List.{cons_option, filter_map, list_any};
ghost use Rattle.std.specs.Option.{option_copied};
ghost use Rattle.cdm_runway.specs.Rules.{RunwayRules};
ghost use Rattle.cdm_plan.specs.DayPlan.{AreByName};
ghost use Rattle.cdm_view.specs.Causes.{same_cause};
ghost use Rattle.cdm_view.specs.Load.{cells_of};
ghost use Rattle.cdm_shift.specs.Warnings.{ahead, blocked, edge, full_cell, full_cells, has_clock, is_clock, is_full, missed, overdue, past, shut, warnings, window_end};

use crate::held::causes_named;
use crate::warning::Warning;
use cdm_day::runway_named;
use cdm_flight::{DayValues, Update, push_last};
use cdm_plan::Records;
use cdm_row::{Row, RowStatus};
use cdm_runway::Runway;
use cdm_sequence::{Plan, Slot};
use cdm_time::{Minute, ctot_window};
use cdm_view::{Cause, cap_of_cell, cell_count, first_minute, flights_in_cell, slots_on};
use std::alloc::{AllocError, Global};

// The end of the window of a CTOT.
fn window_end(values: DayValues, ctot: Minute) -> u16
    ensures { result ≡ window_end values.tolerance ctot }
{
    ctot_window(ctot, values.tolerance).to().get()
}

// The flight is off-block, and its take-off is more than 5 minutes before now.
fn overdue(values: DayValues, row: &Row) -> Option<Warning>
    ensures { result ≡ overdue values row.now row.now.status }
{
    match (row.status, row.ttot) {
        (RowStatus::OffBlock, Some(ttot)) if ttot.get() + 5 < values.clock.get() => {
            Some(Warning::Overdue(row.flight, ttot))
        }
        _ => None,
    }
}

// The flight is off-block, and it has missed its CTOT or will.
fn missed(values: DayValues, row: &Row) -> Option<Warning>
    ensures { result ≡ missed values row.now row.now.status }
{
    let (RowStatus::OffBlock, Some(ctot), Some(ttot)) = (row.status, row.ctot, row.ttot) else {
        return None;
    };
    let minute = values.clock.max(ttot);
    if window_end(values, ctot) <= minute.get() {
        Some(Warning::Missed(row.flight, ctot, ttot))
    } else {
        None
    }
}

// The flight is blocked, though it has a TOBT or a CTOT.
fn blocked(row: &Row) -> Option<Warning>
    ensures { result ≡ blocked row.now }
{
    match row.rule {
        Some(rule) if row.tobt.is_some() || row.ctot.is_some() => {
            Some(Warning::Blocked(row.flight, rule, row.ctot))
        }
        _ => None,
    }
}

// The flight is planned at the edge of its window.
fn edge(values: DayValues, row: &Row) -> Option<Warning>
    ensures { result ≡ edge values row.now row.now.status }
{
    let (RowStatus::Planned, Some(ctot), Some(ttot)) = (row.status, row.ctot, row.ttot) else {
        return None;
    };
    if ctot < ttot && window_end(values, ctot) <= ttot.get() + 3 {
        Some(Warning::Edge(row.flight, ctot, ttot))
    } else {
        None
    }
}

// Whether nothing but the clock held a flight at some minute.
fn is_held_by_clock(causes: &[Cause]) -> bool
    ensures { result ≡ list_any (same_cause Cause.Now) causes.now }
{
    causes.iter().any(|cause| Cause::Now == *cause)
}

// The flight is planned, and it could have gone.
fn past<R: Records>(
    alloc: Global,
    records: &R,
    plan: &Plan,
    row: &Row,
) -> Result<Option<Warning>, AllocError>
    ensures { IfOk result (λ found. found ≡ past (R.day records.now) plan.entry.now row.now row.now.status) }
{
    let (RowStatus::Planned, Some(tobt), Some(tsat)) = (row.status, row.tobt, row.tsat) else {
        return Ok(None);
    };
    let causes = causes_named(alloc, records, plan, row.flight)?;
    if is_held_by_clock(&causes) {
        Ok(Some(Warning::Past(row.flight, tobt, tsat)))
    } else {
        Ok(None)
    }
}

// Whether the update is a CLOCK.
fn is_clock(update: &Update) -> bool
    ensures { result ≡ is_clock update.now }
{
    match update {
        Update::Clock { .. } => true,
        _ => false,
    }
}

/// Whether a CLOCK is among the accepted updates of a day, so that its current time is known.
pub fn has_clock(journal: &[Update]) -> bool
    ensures { result ≡ has_clock journal.now }
{
    journal.iter().any(is_clock)
}

// The flight is said to have done more than 2 minutes after now what it did, where now is known.
fn ahead(clocked: bool, values: DayValues, row: &Row) -> Option<Warning>
    ensures { result ≡ ahead clocked values row.now row.now.status }
{
    let now = values.clock.get();
    let minute = match row.status {
        RowStatus::OffBlock => row.tsat?,
        RowStatus::Airborne => row.ttot?,
        _ => return None,
    };
    if clocked && now + 2 < minute.get() {
        Some(Warning::Ahead(row.flight, minute))
    } else {
        None
    }
}

// The flight is off-block, and its runway is closed when it would take off.
fn shut<R: Records>(records: &R, row: &Row) -> Option<Warning>
    ensures { result ≡ shut (R.day records.now) row.now row.now.status }
{
    let (RowStatus::OffBlock, Some(name), Some(ttot)) = (row.status, row.runway, row.ttot) else {
        return None;
    };
    let runway = runway_named(records, name)?;
    let minute = records.values().clock.max(ttot);
    if runway.closed(minute) {
        Some(Warning::Shut(row.flight, name, ttot))
    } else {
        None
    }
}

// Whether a cell has more flights than it takes, and isn't over.
fn is_full(runway: &Runway, slots: &[Slot], now: Minute, cell: u16) -> bool
    requires { cell < 2880 / runway.now.cell }
    ensures { result ≡ is_full runway.now slots.now now cell }
{
    let end = first_minute(runway, cell).get() + runway.cell().get();
    usize::from(cap_of_cell(runway, cell)) < flights_in_cell(runway, slots, cell) && now.get() < end
}

// The warning of a full cell.
fn full_cell(runway: &Runway, slots: &[Slot], cell: u16) -> Warning
    requires { cell < 2880 / runway.now.cell }
    ensures { result ≡ full_cell runway.now slots.now cell }
{
    Warning::Full(
        runway.name(),
        first_minute(runway, cell),
        flights_in_cell(runway, slots, cell),
        cap_of_cell(runway, cell),
    )
}

// The full cells of a runway, behind the other warnings.
#[tactic(auto, unfolding(crate::specs::Warnings::full_cells))]
fn push_full(found: &mut Vec<Warning>, plan: &Plan, runway: &Runway) -> Result<(), AllocError>
    ensures { OnOk result (found.new.items ≡ found.old.items ++ full_cells plan.entry.now runway.now) }
{
    let slots = slots_on(plan, runway.name());
    push_cells(found, runway, slots, plan.clock)
}

// The full ones of a runway's cells, behind the other warnings.
fn push_cells(
    found: &mut Vec<Warning>,
    runway: &Runway,
    slots: &[Slot],
    now: Minute,
) -> Result<(), AllocError>
    ensures { OnOk result (found.new.items
        ≡ found.old.items ++ map (full_cell runway.now slots.now) (filter (is_full runway.now slots.now now) (cells_of runway.now))) }
{
    for cell in 0..cell_count(runway) {
        if is_full(runway, slots, now, cell) {
            push_last(found, full_cell(runway, slots, cell))?;
        }
    }
    Ok(())
}

// The full cells of the runway at a place, if there is one.
fn push_full_at(
    found: &mut Vec<Warning>,
    plan: &Plan,
    runway: Option<&Runway>,
) -> Result<(), AllocError>
    ensures { OnOk result (found.new.items ≡ found.old.items ++ flat_map (full_cells plan.entry.now) (cons_option (option_copied runway.entry) [])) }
{
    match runway {
        Some(runway) => push_full(found, plan, runway),
        None => Ok(()),
    }
}

// The full cells of all runways, by name, behind the other warnings.
fn push_all_full<R: Records>(
    found: &mut Vec<Warning>,
    records: &R,
    plan: &Plan,
) -> Result<(), AllocError>
    ensures { OnOk result ((runways : List RunwayRules) → AreByName (R.day records.now) runways →
        found.new.items ≡ found.old.items ++ flat_map (full_cells plan.entry.now) runways) }
{
    for place in 0..records.runways() {
        push_full_at(found, plan, records.runway_at(place))?;
    }
    Ok(())
}

// A warning behind the others, if there is one.
fn push_if_any(found: &mut Vec<Warning>, warning: Option<Warning>) -> Result<(), AllocError>
    ensures { OnOk result (found.new.items ≡ found.old.items ++ cons_option warning []) }
{
    match warning {
        Some(warning) => push_last(found, warning),
        None => Ok(()),
    }
}

// The flights that could have gone, behind the other warnings.
fn push_past<R: Records>(
    found: &mut Vec<Warning>,
    alloc: Global,
    records: &R,
    plan: &Plan,
    rows: &[Row],
) -> Result<(), AllocError>
    ensures { OnOk result (found.new.items
        ≡ found.old.items ++ filter_map (λ row. past (R.day records.now) plan.entry.now row row.status) rows.now) }
{
    for row in rows {
        push_if_any(found, past(alloc, records, plan, row)?)?;
    }
    Ok(())
}

// The flights whose take-off is overdue.
fn all_overdue(alloc: Global, values: DayValues, rows: &[Row]) -> Result<Vec<Warning>, AllocError>
    ensures { IfOk result (λ found. found.items ≡ filter_map (λ row. overdue values row row.status) rows.now) }
{
    rows.iter()
        .filter_map(|row| overdue(values, row))
        .collect(alloc)
}

// The flights that have missed their CTOT or will.
fn all_missed(alloc: Global, values: DayValues, rows: &[Row]) -> Result<Vec<Warning>, AllocError>
    ensures { IfOk result (λ found. found.items ≡ filter_map (λ row. missed values row row.status) rows.now) }
{
    rows.iter()
        .filter_map(|row| missed(values, row))
        .collect(alloc)
}

// The flights that are blocked, though they have a TOBT or a CTOT.
fn all_blocked(alloc: Global, rows: &[Row]) -> Result<Vec<Warning>, AllocError>
    ensures { IfOk result (λ found. found.items ≡ filter_map blocked rows.now) }
{
    rows.iter().filter_map(blocked).collect(alloc)
}

// The flights at the edge of their windows.
fn all_edge(alloc: Global, values: DayValues, rows: &[Row]) -> Result<Vec<Warning>, AllocError>
    ensures { IfOk result (λ found. found.items ≡ filter_map (λ row. edge values row row.status) rows.now) }
{
    rows.iter()
        .filter_map(|row| edge(values, row))
        .collect(alloc)
}

// The flights that are ahead of the clock.
fn all_ahead(
    alloc: Global,
    clocked: bool,
    values: DayValues,
    rows: &[Row],
) -> Result<Vec<Warning>, AllocError>
    ensures { IfOk result (λ found. found.items ≡ filter_map (λ row. ahead clocked values row row.status) rows.now) }
{
    rows.iter()
        .filter_map(|row| ahead(clocked, values, row))
        .collect(alloc)
}

// The flights whose runway is closed when they would take off.
fn all_shut<R: Records>(
    alloc: Global,
    records: &R,
    rows: &[Row],
) -> Result<Vec<Warning>, AllocError>
    ensures { IfOk result (λ found. found.items ≡ filter_map (λ row. shut (R.day records.now) row row.status) rows.now) }
{
    rows.iter()
        .filter_map(|row| shut(records, row))
        .collect(alloc)
}

/// All warnings of a day with its plan, kind by kind: those of flights by name, those of cells by runway and minute.
pub(crate) fn warnings<R: Records>(
    alloc: Global,
    clocked: bool,
    records: &R,
    plan: &Plan,
    rows: &[Row],
) -> Result<Vec<Warning>, AllocError>
    requires { clocked ≡ has_clock (R.day records.now).journal }
    ensures { IfOk result (λ found. (runways : List RunwayRules) → AreByName (R.day records.now) runways →
        found.items ≡ warnings (R.day records.now) plan.entry.now rows.now runways) }
{
    let values = records.values();
    let mut found = all_overdue(alloc, values, rows)?;
    found.extend_from_slice(&all_missed(alloc, values, rows)?)?;
    found.extend_from_slice(&all_blocked(alloc, rows)?)?;
    found.extend_from_slice(&all_edge(alloc, values, rows)?)?;
    push_past(&mut found, alloc, records, plan, rows)?;
    found.extend_from_slice(&all_ahead(alloc, clocked, values, rows)?)?;
    push_all_full(&mut found, records, plan)?;
    found.extend_from_slice(&all_shut(alloc, records, rows)?)?;
    Ok(found)
}
