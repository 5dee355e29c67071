//! The texts that a shift is told, line by line.
ghost use Rattle.std.specs.Prelude.{◌≡◌, ◌≤◌, ◌<◌, ◌++◌, ◌∷◌, [], ℕ, IfOk, OnOk, Some, List, codes, flat_map, length, slice_index};
ghost use Rattle.std.specs.List.{concat};
ghost use Rattle.std.specs.String.{string_bytes};
ghost use Rattle.cdm_report.specs.Report.{line_end};
ghost use Rattle.cdm_runway.specs.Rules.{RunwayRules};
ghost use Rattle.cdm_plan.specs.DayPlan.{AreByName};
ghost use Rattle.cdm_view.specs.Why.{name_or_dash};
ghost use Rattle.cdm_shift.specs.Lines.{at, causes_text, cause_or_dash, cause_word, costs_line, count_line, number_in, place_told, times_told, group_line, next_text, start_up_line, warning_line, warnings_text};
ghost use Rattle.cdm_shift.specs.Warnings.{has_clock};

use crate::costs::{Costs, Group, costs_of, on_stand, rows_in, told_groups};
use crate::question::{Ahead, GroupBy};
use crate::start_ups::{StartUp, start_ups};
use crate::warning::Warning;
use crate::warnings::warnings;
use cdm_flight::{FlightName, Name};
use cdm_plan::Records;
use cdm_report::{TimeColumn, push_day};
use cdm_row::Row;
use cdm_sequence::Plan;
use cdm_time::{Day, Minute};
use cdm_view::Cause;
use std::alloc::{AllocError, Global};
use std::fmt;
use std::fmt::Write;

/// The word of a cause.
pub(crate) fn cause_word(cause: Cause) -> &'static str
    ensures { result.now ≡ cause_word cause }
{
    match cause {
        Cause::Ice => "ICE",
        Cause::Ctot => "CTOT",
        Cause::Closure => "CLOSURE",
        Cause::Spacing => "SPACING",
        Cause::Rate => "RATE",
        Cause::Now => "NOW",
    }
}

// The word of a cause, or a dash where there is none.
fn cause_or_dash(cause: Option<Cause>) -> &'static str
    ensures { result.now ≡ cause_or_dash cause }
{
    match cause {
        Some(cause) => cause_word(cause),
        None => "-",
    }
}

/// The name as text, or a dash where there is none.
pub(crate) fn name_text<const MOST: usize>(name: &Option<Name<MOST>>) -> &str
    ensures value { result.now ≡ name_or_dash name.now }
    ensures ascii { (k : ℕ) → slice_index result.now k < 128 }
    ensures short { 1 ≤ MOST → length result.now ≤ MOST }
{
    match name {
        Some(name) => name.text(),
        None => "-",
    }
}

// The column of a minute.
fn column(day: Day, minute: Option<Minute>) -> TimeColumn
    ensures day { result.day ≡ day }
    ensures minute { result.minute ≡ minute }
{
    TimeColumn { day, minute }
}

// Who starts up, when and where.
fn push_place(text: &mut String, day: Day, row: &Row) -> Result<(), AllocError>
    ensures { OnOk result (string_bytes text.new ≡ string_bytes text.old ++ place_told day row.now) }
{
    let tsat = column(day, row.tsat);
    let name = row.flight.text();
    let runway = name_text(&row.runway);
    let stand = name_text(&row.stand);
    write!(text, "{tsat} {name:<7} {runway:<3} {stand:<5}")
}

// Its other times, and what held it last.
fn push_times(
    text: &mut String,
    day: Day,
    row: &Row,
    cause: Option<Cause>,
) -> Result<(), AllocError>
    ensures { OnOk result (string_bytes text.new ≡ string_bytes text.old ++ times_told day row.now cause) }
{
    let tobt = column(day, row.tobt);
    let ctot = column(day, row.ctot);
    let ttot = column(day, row.ttot);
    let delay = row.delay.unwrap_or(0);
    let cause = cause_or_dash(cause);
    writeln!(text, " {tobt} {ctot} {ttot} {delay:>4} {cause}")
}

// The line of a start-up.
fn push_start_up(text: &mut String, day: Day, found: &StartUp) -> Result<(), AllocError>
    ensures { OnOk result (string_bytes text.new ≡ string_bytes text.old ++ start_up_line day found.now) }
{
    push_place(text, day, &found.row)?;
    push_times(text, day, &found.row, found.cause)
}

/// The start-ups of the next minutes, as a text.
#[tactic(auto, unfolding(crate::specs::Lines::next_text))]
pub(crate) fn next_text<R: Records>(
    alloc: Global,
    day: Day,
    records: &R,
    plan: &Plan,
    rows: &[Row],
    ahead: Ahead,
) -> Result<Vec<u8>, AllocError>
    requires { day ≡ (R.day records.now).airport.day }
    ensures { IfOk result (λ text. text.items ≡ next_text (R.day records.now) plan.entry.now rows.now ahead) }
{
    let mut text = String::new(alloc);
    push_day(&mut text, day, plan.clock)?;
    for found in &start_ups(alloc, records, plan, rows, ahead)? {
        push_start_up(&mut text, day, found)?;
    }
    Ok(text.into_bytes())
}

// The line of a warning of a flight with its CTOT and its TTOT.
fn push_window(
    text: &mut String,
    day: Day,
    kind: &str,
    flight: FlightName,
    ctot: Minute,
    ttot: Minute,
) -> Result<(), AllocError>
    ensures { OnOk result (string_bytes text.new ≡ string_bytes text.old ++ concat (
        kind.now ∷ codes " " ∷ flight ∷ at day (codes "CTOT") ctot ∷ at day (codes "TTOT") ttot ∷ line_end ∷ [])) }
{
    let name = flight.text();
    let ctot = column(day, Some(ctot));
    let ttot = column(day, Some(ttot));
    writeln!(text, "{kind} {name} CTOT {ctot} TTOT {ttot}")
}

// The line of a warning.
#[tactic(auto, unfolding(crate::specs::Lines::warning_line))]
fn push_warning(text: &mut String, day: Day, warning: &Warning) -> Result<(), AllocError>
    ensures { OnOk result (string_bytes text.new ≡ string_bytes text.old ++ warning_line day warning.now) }
{
    match *warning {
        Warning::Overdue(flight, ttot) => {
            let name = flight.text();
            let ttot = column(day, Some(ttot));
            writeln!(text, "OVERDUE {name} TTOT {ttot}")
        }
        Warning::Missed(flight, ctot, ttot) => {
            push_window(text, day, "MISSED", flight, ctot, ttot)
        }
        Warning::Blocked(flight, rule, ctot) => {
            let name = flight.text();
            let ctot = column(day, ctot);
            writeln!(text, "BLOCKED {name} {rule} CTOT {ctot}")
        }
        Warning::Edge(flight, ctot, ttot) => { push_window(text, day, "EDGE", flight, ctot, ttot) }
        Warning::Past(flight, tobt, tsat) => {
            let name = flight.text();
            let tobt = column(day, Some(tobt));
            let tsat = column(day, Some(tsat));
            writeln!(text, "PAST {name} TOBT {tobt} TSAT {tsat}")
        }
        Warning::Ahead(flight, minute) => {
            let name = flight.text();
            let minute = column(day, Some(minute));
            writeln!(text, "AHEAD {name} {minute}")
        }
        Warning::Full(runway, first, placed, cap) => {
            let name = runway.text();
            let first = column(day, Some(first));
            writeln!(text, "FULL {name} {first} {placed}/{cap}")
        }
        Warning::Shut(flight, runway, ttot) => {
            let name = flight.text();
            let runway = runway.text();
            let ttot = column(day, Some(ttot));
            writeln!(text, "SHUT {name} {runway} TTOT {ttot}")
        }
    }
}

// The lines of warnings.
fn push_warnings(text: &mut String, day: Day, found: &[Warning]) -> Result<(), AllocError>
    ensures { OnOk result (string_bytes text.new ≡ string_bytes text.old ++ flat_map (warning_line day) found.now) }
{
    for warning in found {
        push_warning(text, day, warning)?;
    }
    Ok(())
}

// How many warnings there are.
#[tactic(auto, unfolding(crate::specs::Lines::count_line))]
fn push_warning_count(text: &mut String, count: usize) -> Result<(), AllocError>
    ensures { OnOk result (string_bytes text.new ≡ string_bytes text.old ++ count_line count) }
{
    writeln!(text, "WARNINGS {count}")
}

/// The warnings of a day, as a text.
#[tactic(auto, unfolding(crate::specs::Lines::warnings_text))]
pub(crate) fn warnings_text<R: Records>(
    alloc: Global,
    day: Day,
    clocked: bool,
    records: &R,
    plan: &Plan,
    rows: &[Row],
) -> Result<Vec<u8>, AllocError>
    requires day { day ≡ (R.day records.now).airport.day }
    requires clock { clocked ≡ has_clock (R.day records.now).journal }
    ensures { IfOk result (λ text. (runways : List RunwayRules) → AreByName (R.day records.now) runways →
        text.items ≡ warnings_text (R.day records.now) plan.entry.now rows.now runways) }
{
    let found = warnings(alloc, clocked, records, plan, rows)?;
    let mut text = String::new(alloc);
    push_day(&mut text, day, plan.clock)?;
    push_warnings(&mut text, day, &found)?;
    push_warning_count(&mut text, found.len())?;
    Ok(text.into_bytes())
}

// A number on the right of 7, behind a blank.
#[derive(Clone, Copy)]
struct NumberColumn(usize);

impl fmt::Display for NumberColumn {
    ghost output = { λ column. Some (number_in column.0) };

    fn fmt<W: fmt::Write>(&self, f: &mut fmt::Formatter<W>) -> fmt::Result {
        let number = self.0;
        write!(f, " {number:>7}")
    }
}

// The line of a group.
fn push_costs(text: &mut String, name: &str, costs: &Costs) -> Result<(), AllocError>
    requires ascii { (k : ℕ) → slice_index name.now k < 128 }
    requires short { length name.now ≤ 7 }
    ensures { OnOk result (string_bytes text.new ≡ string_bytes text.old ++ costs_line name.now costs.now) }
{
    let (placed, delay) = (NumberColumn(costs.placed), NumberColumn(costs.delay));
    let (ice, ctot) = (NumberColumn(costs.ice), NumberColumn(costs.ctot));
    let (closure, spacing) = (NumberColumn(costs.closure), NumberColumn(costs.spacing));
    let (rate, clock) = (NumberColumn(costs.rate), NumberColumn(costs.clock));
    let blocked = NumberColumn(costs.blocked);
    writeln!(
        text,
        "{name:<7}{placed}{delay}{ice}{ctot}{closure}{spacing}{rate}{clock}{blocked}"
    )
}

// The line of a group, by the flights on their stands.
fn push_group<R: Records>(
    text: &mut String,
    records: &R,
    plan: &Plan,
    by: GroupBy,
    rows: &[Row],
    group: &Group,
) -> Result<(), AllocError>
    ensures { OnOk result (string_bytes text.new ≡ string_bytes text.old ++ group_line (R.day records.now) plan.entry.now by rows.now group.now) }
{
    let alloc = *text.allocator();
    let rows = rows_in(alloc, by, rows, group)?;
    push_costs(
        text,
        name_text(group),
        &costs_of(alloc, records, plan, &rows)?,
    )
}

/// Where the minutes of delay come from, as a text.
#[tactic(auto, unfolding(crate::specs::Lines::causes_text))]
pub(crate) fn causes_text<R: Records>(
    alloc: Global,
    records: &R,
    plan: &Plan,
    by: GroupBy,
    rows: &[Row],
) -> Result<Vec<u8>, AllocError>
    ensures { IfOk result (λ text. text.items ≡ causes_text (R.day records.now) plan.entry.now by rows.now) }
{
    let standing = on_stand(alloc, rows)?;
    let groups = told_groups(alloc, by, &standing)?;
    let mut text = String::new(alloc);
    writeln!(
        text,
        "GROUP    PLACED   DELAY     ICE    CTOT CLOSURE SPACING    RATE     NOW BLOCKED"
    )?;
    for group in &groups {
        push_group(&mut text, records, plan, by, &standing, group)?;
    }
    push_costs(
        &mut text,
        "TOTAL",
        &costs_of(alloc, records, plan, &standing)?,
    )?;
    Ok(text.into_bytes())
}
