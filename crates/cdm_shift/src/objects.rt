//! What a shift is told, as JSON: an object on a line of its own for each start-up, warning or group.
ghost use Rattle.std.specs.Prelude.{◌≡◌, ◌++◌, IfOk, OnOk, List, flat_map, map};
ghost use Rattle.cdm_runway.specs.Rules.{RunwayRules};
ghost use Rattle.cdm_plan.specs.DayPlan.{AreByName};
ghost use Rattle.cdm_row.specs.Columns.{if_any, minute as a_minute, number as a_number, text as a_text, value_of};
ghost use Rattle.cdm_row.specs.Json.{member_tokens};
ghost use Rattle.cdm_shift.specs.Costs.{costs_of};
ghost use Rattle.cdm_shift.specs.Objects.{causes_lines, cause_value, cap_value, costs_members, ctot_value, flight_value, kind_word, member_of, next_lines, object_line, placed_value, rule_told, runway_value, start_up_members, time_value, ttot_value, warning_lines, warning_members};
ghost use Rattle.cdm_shift.specs.Warnings.{has_clock};

use crate::costs::{Costs, costs_of, on_stand, rows_in, told_groups};
use crate::question::{Ahead, GroupBy};
use crate::start_ups::{StartUp, start_ups};
use crate::text::{cause_word, name_text};
use crate::warning::Warning;
use crate::warnings::warnings;
use cdm_flight::Name;
use cdm_json::{begin_line, end_line};
use cdm_plan::Records;
use cdm_row::{Row, Value, push_member};
use cdm_sequence::Plan;
use cdm_time::{Day, Minute};
use cdm_view::Cause;
use json::Writer;
use std::alloc::{AllocError, Global};

/// A member: its name and its value.
pub(crate) type Member<'a> = (&'static str, Value<'a>);

// Writes members, one after another.
fn push_members(
    writer: &mut Writer<Global>,
    day: Day,
    members: &[Member<'_>],
) -> Result<(), AllocError>
    ensures tokens { OnOk result (writer.new.tokens
        ≡ writer.old.tokens ++ flat_map member_tokens (map (member_of day) (map (λ m. (m.0.now, value_of m.1)) members.now))) }
    ensures before { writer.new.before ≡ writer.old.before }
{
    for member in members {
        push_member(writer, day, member.0, &member.1)?;
    }
    Ok(())
}

// Puts the object of these members behind a text, on a line.
fn push_object(text: &mut Vec<u8>, day: Day, members: &[Member<'_>]) -> Result<(), AllocError>
    ensures { OnOk result (text.new.items ≡ text.old.items ++ object_line day (map (λ m. (m.0.now, value_of m.1)) members.now)) }
{
    let mut writer = begin_line(*text.allocator(), None, "")?;
    push_members(&mut writer, day, members)?;
    text.extend_from_slice(&end_line(writer)?)
}

// A minute, if there is one.
fn minute_value(value: Option<Minute>) -> Value<'static>
    ensures { value_of result ≡ if_any a_minute value }
{
    match value {
        Some(value) => Value::Minute(value),
        None => Value::Nothing,
    }
}

// A name, if there is one.
fn name_value<const MOST: usize>(name: &Option<Name<MOST>>) -> Value<'_>
    ensures { value_of result ≡ if_any a_text name.now }
{
    match name {
        Some(name) => Value::Text(name.text()),
        None => Value::Nothing,
    }
}

// A number, if there is one.
fn number_value(value: Option<u16>) -> Value<'static>
    ensures { value_of result ≡ if_any a_number value }
{
    match value {
        Some(value) => Value::Number(u64::from(value)),
        None => Value::Nothing,
    }
}

// A cause, if there is one.
fn cause_value(cause: Option<Cause>) -> Value<'static>
    ensures { value_of result ≡ if_any cause_value cause }
{
    match cause {
        Some(cause) => Value::Text(cause_word(cause)),
        None => Value::Nothing,
    }
}

/// The members of a start-up.
#[tactic(auto, unfolding(crate::specs::Objects::start_up_members))]
pub(crate) fn start_up_members(found: &StartUp) -> [Member<'_>; 9]
    ensures { map (λ m. (m.0.now, value_of m.1)) result ≡ start_up_members found.now }
{
    let StartUp { row, cause } = found;
    [
        ("tsat", minute_value(row.tsat)),
        ("flight", Value::Text(row.flight.text())),
        ("runway", name_value(&row.runway)),
        ("stand", name_value(&row.stand)),
        ("tobt", minute_value(row.tobt)),
        ("ctot", minute_value(row.ctot)),
        ("ttot", minute_value(row.ttot)),
        ("delay", number_value(row.delay)),
        ("cause", cause_value(*cause)),
    ]
}

/// The start-ups of the next minutes, a line each.
pub(crate) fn next_lines<R: Records>(
    alloc: Global,
    day: Day,
    records: &R,
    plan: &Plan,
    rows: &[Row],
    ahead: Ahead,
) -> Result<Vec<u8>, AllocError>
    requires { day ≡ (R.day records.now).airport.day }
    ensures { IfOk result (λ text. text.items ≡ next_lines (R.day records.now) plan.entry.now rows.now ahead) }
{
    let mut text = Vec::new(alloc);
    for found in &start_ups(alloc, records, plan, rows, ahead)? {
        push_object(&mut text, day, &start_up_members(found))?;
    }
    Ok(text)
}

// The kind of a warning.
fn kind_word(warning: &Warning) -> &'static str
    ensures { result.now ≡ kind_word warning.now }
{
    match warning {
        Warning::Overdue(..) => "OVERDUE",
        Warning::Missed(..) => "MISSED",
        Warning::Blocked(..) => "BLOCKED",
        Warning::Edge(..) => "EDGE",
        Warning::Past(..) => "PAST",
        Warning::Ahead(..) => "AHEAD",
        Warning::Full(..) => "FULL",
        Warning::Shut(..) => "SHUT",
    }
}

// Its flight, but for a cell.
fn flight_value(warning: &Warning) -> Value<'_>
    ensures { value_of result ≡ flight_value warning.now }
{
    match warning {
        Warning::Overdue(flight, _)
        | Warning::Missed(flight, _, _)
        | Warning::Blocked(flight, _, _)
        | Warning::Edge(flight, _, _)
        | Warning::Past(flight, _, _)
        | Warning::Ahead(flight, _)
        | Warning::Shut(flight, _, _) => Value::Text(flight.text()),
        Warning::Full(..) => Value::Nothing,
    }
}

// The runway that is too full or closed.
fn runway_value(warning: &Warning) -> Value<'_>
    ensures { value_of result ≡ runway_value warning.now }
{
    match warning {
        Warning::Full(runway, _, _, _) | Warning::Shut(_, runway, _) => Value::Text(runway.text()),
        _ => Value::Nothing,
    }
}

// The TSAT of a flight that could have gone, when a flight left its stand or took off, or when a cell begins.
fn time_value(warning: &Warning) -> Value<'static>
    ensures { value_of result ≡ time_value warning.now }
{
    match *warning {
        Warning::Past(_, _, minute) | Warning::Ahead(_, minute) | Warning::Full(_, minute, _, _) =>
            { Value::Minute(minute) }
        _ => Value::Nothing,
    }
}

// The CTOT of a flight that misses it or may.
fn ctot_value(warning: &Warning) -> Value<'static>
    ensures { value_of result ≡ ctot_value warning.now }
{
    match *warning {
        Warning::Missed(_, ctot, _) | Warning::Edge(_, ctot, _) => Value::Minute(ctot),
        Warning::Blocked(_, _, ctot) => minute_value(ctot),
        _ => Value::Nothing,
    }
}

// The TTOT of a flight that is off-block or planned.
fn ttot_value(warning: &Warning) -> Value<'static>
    ensures { value_of result ≡ ttot_value warning.now }
{
    match *warning {
        Warning::Overdue(_, ttot)
        | Warning::Missed(_, _, ttot)
        | Warning::Edge(_, _, ttot)
        | Warning::Shut(_, _, ttot) => Value::Minute(ttot),
        _ => Value::Nothing,
    }
}

// The rule that blocks a flight.
fn rule_told(warning: &Warning) -> Value<'static>
    ensures { value_of result ≡ rule_told warning.now }
{
    match *warning {
        Warning::Blocked(_, rule, _) => Value::Text(rule.text()),
        _ => Value::Nothing,
    }
}

// How many flights a cell has.
fn placed_value(warning: &Warning) -> Value<'static>
    ensures { value_of result ≡ placed_value warning.now }
{
    match *warning {
        Warning::Full(_, _, placed, _) => Value::Number(placed as u64),
        _ => Value::Nothing,
    }
}

// How many it takes.
fn cap_value(warning: &Warning) -> Value<'static>
    ensures { value_of result ≡ cap_value warning.now }
{
    match *warning {
        Warning::Full(_, _, _, cap) => Value::Number(u64::from(cap)),
        _ => Value::Nothing,
    }
}

/// The members of a warning.
#[tactic(auto, unfolding(crate::specs::Objects::warning_members))]
pub(crate) fn warning_members(warning: &Warning) -> [Member<'_>; 9]
    ensures { map (λ m. (m.0.now, value_of m.1)) result ≡ warning_members warning.now }
{
    [
        ("kind", Value::Text(kind_word(warning))),
        ("flight", flight_value(warning)),
        ("runway", runway_value(warning)),
        ("time", time_value(warning)),
        ("ctot", ctot_value(warning)),
        ("ttot", ttot_value(warning)),
        ("rule", rule_told(warning)),
        ("placed", placed_value(warning)),
        ("cap", cap_value(warning)),
    ]
}

/// The warnings of a day, a line each.
pub(crate) fn warning_lines<R: Records>(
    alloc: Global,
    day: Day,
    clocked: bool,
    records: &R,
    plan: &Plan,
    rows: &[Row],
) -> Result<Vec<u8>, AllocError>
    requires day { day ≡ (R.day records.now).airport.day }
    requires clock { clocked ≡ has_clock (R.day records.now).journal }
    ensures { IfOk result (λ text. (runways : List RunwayRules) → AreByName (R.day records.now) runways →
        text.items ≡ warning_lines (R.day records.now) plan.entry.now rows.now runways) }
{
    let found = warnings(alloc, clocked, records, plan, rows)?;
    objects_of(alloc, day, &found)
}

// The lines of warnings.
fn objects_of(alloc: Global, day: Day, found: &[Warning]) -> Result<Vec<u8>, AllocError>
    ensures { IfOk result (λ text. text.items ≡ flat_map (λ w. object_line day (warning_members w)) found.now) }
{
    let mut text = Vec::new(alloc);
    for warning in found {
        push_object(&mut text, day, &warning_members(warning))?;
    }
    Ok(text)
}

/// The members of a group.
#[tactic(auto, unfolding(crate::specs::Objects::costs_members))]
pub(crate) fn costs_members<'a>(name: &'a str, costs: &Costs) -> [Member<'a>; 10]
    ensures { map (λ m. (m.0.now, value_of m.1)) result ≡ costs_members name.now costs.now }
{
    [
        ("group", Value::Text(name)),
        ("placed", Value::Number(costs.placed as u64)),
        ("delay", Value::Number(costs.delay as u64)),
        ("ice", Value::Number(costs.ice as u64)),
        ("ctot", Value::Number(costs.ctot as u64)),
        ("closure", Value::Number(costs.closure as u64)),
        ("spacing", Value::Number(costs.spacing as u64)),
        ("rate", Value::Number(costs.rate as u64)),
        ("now", Value::Number(costs.clock as u64)),
        ("blocked", Value::Number(costs.blocked as u64)),
    ]
}

// The line of a group, by the flights on their stands.
fn push_group<R: Records>(
    text: &mut Vec<u8>,
    day: Day,
    records: &R,
    plan: &Plan,
    name: &str,
    rows: &[Row],
) -> Result<(), AllocError>
    ensures { OnOk result (text.new.items ≡ text.old.items ++ object_line day (costs_members name.now (costs_of (R.day records.now) plan.entry.now rows.now))) }
{
    let costs = costs_of(*text.allocator(), records, plan, rows)?;
    push_object(text, day, &costs_members(name, &costs))
}

/// Where the minutes of delay come from, a line for each group and one for all.
pub(crate) fn causes_lines<R: Records>(
    alloc: Global,
    day: Day,
    records: &R,
    plan: &Plan,
    by: GroupBy,
    rows: &[Row],
) -> Result<Vec<u8>, AllocError>
    requires { day ≡ (R.day records.now).airport.day }
    ensures { IfOk result (λ text. text.items ≡ causes_lines (R.day records.now) plan.entry.now by rows.now) }
{
    let standing = on_stand(alloc, rows)?;
    let groups = told_groups(alloc, by, &standing)?;
    let mut text = Vec::new(alloc);
    for group in &groups {
        let rows = rows_in(alloc, by, &standing, group)?;
        push_group(&mut text, day, records, plan, name_text(group), &rows)?;
    }
    push_group(&mut text, day, records, plan, "TOTAL", &standing)?;
    Ok(text)
}
