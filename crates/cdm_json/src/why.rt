//! What holds a flight, as JSON.
ghost use Rattle.std.specs.Prelude.{◌≡◌, ◌++◌, IfErr, IfOk, OnOk, flat_map, map};
ghost use Rattle.std.specs.List.{find};
ghost use Rattle.std.specs.Option.{IsSomeAnd, option_copied};
ghost use Rattle.json.specs.Json.{string as a_string};
ghost use Rattle.json.specs.Tree.{json_tokens};
ghost use Rattle.cdm_flight.specs.Journal.{flight_of};
ghost use Rattle.cdm_plan.specs.DayPlan.{IsDayPlan};
ghost use Rattle.cdm_view.specs.Why.{IsWhyFault};
ghost use Rattle.cdm_row.specs.Changed.{row_named};
ghost use Rattle.cdm_row.specs.Columns.{value_of};
ghost use Rattle.cdm_row.specs.Json.{member_tokens, or_null, row_json};
ghost use Rattle.cdm_json.specs.Whys.{IsWhyLine, flights_members, ice_json, ice_kind, ice_minutes, known_members, minute_members, reason_cap, reason_flights, reason_word, wait_json, waits_members};

use crate::lines::{begin_line, end_line};
use cdm_day::Records;
use cdm_flight::{Flight, FlightName, Ice};
use cdm_row::{Row, Rows, Value, push_count, push_member, push_minute, push_row, push_text};
use cdm_sequence::Plan;
use cdm_time::Day;
use cdm_view::{Reason, Run, ViewFault, waits_of};
use json::Writer;
use std::alloc::{AllocError, Global};

// Where a flight is de-iced.
fn ice_kind(ice: &Ice) -> &'static str
    ensures { result.now ≡ ice_kind ice.now }
{
    match ice {
        Ice::NoIce => "NONE",
        Ice::AtStand(_) => "STAND",
        Ice::Remote(_) => "REMOTE",
    }
}

// For how many minutes.
fn ice_minutes(ice: &Ice) -> u16
    ensures { result ≡ ice_minutes ice.now }
{
    match ice {
        Ice::NoIce => 0,
        Ice::AtStand(minutes) | Ice::Remote(minutes) => minutes.get(),
    }
}

// Writes the object of a de-icing.
fn push_ice(writer: &mut Writer<Global>, ice: &Ice) -> Result<(), AllocError>
    ensures tokens { OnOk result (writer.new.tokens ≡ writer.old.tokens ++ json_tokens (ice_json ice.now)) }
    ensures before { writer.new.before ≡ writer.old.before }
{
    writer.begin_object()?;
    push_text(writer, "kind", ice_kind(ice))?;
    push_count(writer, "minutes", u64::from(ice_minutes(ice)))?;
    writer.end_object()
}

// The word of a reason.
fn reason_word(reason: &Reason) -> &'static str
    ensures { result.now ≡ reason_word reason.now }
{
    match reason {
        Reason::Ice => "ICE",
        Reason::Now => "NOW",
        Reason::Ctot => "CTOT",
        Reason::Closure => "CLOSURE",
        Reason::Spacing(_) => "SPACING",
        Reason::Rate(..) => "RATE",
    }
}

// How many flights the cell takes, where it has taken them.
fn reason_cap(reason: &Reason) -> Value<'static>
    ensures { value_of result ≡ reason_cap reason.now }
{
    match reason {
        Reason::Rate(cap, _) => Value::Number(u64::from(cap.get())),
        Reason::Ice | Reason::Now | Reason::Ctot | Reason::Closure | Reason::Spacing(_) => {
            Value::Nothing
        }
    }
}

// The flights in the way.
fn reason_flights(reason: &Reason) -> &[FlightName]
    ensures { result.now ≡ reason_flights reason.now }
{
    match reason {
        Reason::Spacing(names) | Reason::Rate(_, names) => names.as_slice(),
        Reason::Ice | Reason::Now | Reason::Ctot | Reason::Closure => &[],
    }
}

// Writes names, one after another.
fn push_names(writer: &mut Writer<Global>, names: &[FlightName]) -> Result<(), AllocError>
    ensures tokens { OnOk result (writer.new.tokens ≡ writer.old.tokens ++ flat_map json_tokens (map a_string names.now)) }
    ensures before { writer.new.before ≡ writer.old.before }
{
    for name in names {
        writer.string(name.text())?;
    }
    Ok(())
}

// Writes the member of the flights in the way.
fn push_flights(writer: &mut Writer<Global>, names: &[FlightName]) -> Result<(), AllocError>
    ensures tokens { OnOk result (writer.new.tokens ≡ writer.old.tokens ++ flat_map member_tokens (flights_members names.now)) }
    ensures before { writer.new.before ≡ writer.old.before }
{
    writer.key("flights")?;
    writer.begin_array()?;
    push_names(writer, names)?;
    writer.end_array()
}

// Writes the members of a wait but for the flights.
fn push_minutes(writer: &mut Writer<Global>, day: Day, run: &Run) -> Result<(), AllocError>
    ensures tokens { OnOk result (writer.new.tokens ≡ writer.old.tokens ++ flat_map member_tokens (minute_members day run.now)) }
    ensures before { writer.new.before ≡ writer.old.before }
{
    let reason = &run.reason;
    push_minute(writer, day, "from", run.first)?;
    push_minute(writer, day, "to", run.last)?;
    push_text(writer, "reason", reason_word(reason))?;
    push_member(writer, day, "cap", &reason_cap(reason))
}

// Writes the object of a wait.
#[tactic(auto, using(crate::proofs::TokenLemmas::part_tokens))]
fn push_wait(writer: &mut Writer<Global>, day: Day, run: &Run) -> Result<(), AllocError>
    ensures tokens { OnOk result (writer.new.tokens ≡ writer.old.tokens ++ json_tokens (wait_json day run.now)) }
    ensures before { writer.new.before ≡ writer.old.before }
{
    writer.begin_object()?;
    push_minutes(writer, day, run)?;
    push_flights(writer, reason_flights(&run.reason))?;
    writer.end_object()
}

// Writes waits, one after another.
fn push_each(writer: &mut Writer<Global>, day: Day, runs: &[Run]) -> Result<(), AllocError>
    ensures tokens { OnOk result (writer.new.tokens ≡ writer.old.tokens ++ flat_map json_tokens (map (wait_json day) runs.now)) }
    ensures before { writer.new.before ≡ writer.old.before }
{
    for run in runs {
        push_wait(writer, day, run)?;
    }
    Ok(())
}

// Writes the member of the waits.
fn push_waits(writer: &mut Writer<Global>, day: Day, runs: &[Run]) -> Result<(), AllocError>
    ensures tokens { OnOk result (writer.new.tokens ≡ writer.old.tokens ++ flat_map member_tokens (waits_members day runs.now)) }
    ensures before { writer.new.before ≡ writer.old.before }
{
    writer.key("waits")?;
    writer.begin_array()?;
    push_each(writer, day, runs)?;
    writer.end_array()
}

// Writes a Row, or null where there is none.
fn push_if_any(writer: &mut Writer<Global>, day: Day, row: Option<&Row>) -> Result<(), AllocError>
    ensures tokens { OnOk result (writer.new.tokens ≡ writer.old.tokens ++ json_tokens (or_null (row_json day) (option_copied row.entry))) }
    ensures before { writer.new.before ≡ writer.old.before }
{
    match row {
        Some(row) => push_row(writer, day, row),
        None => writer.null(),
    }
}

// Writes the members of the Row and of the de-icing.
fn push_known(
    writer: &mut Writer<Global>,
    day: Day,
    flight: &Flight,
    row: Option<&Row>,
) -> Result<(), AllocError>
    ensures tokens { OnOk result (writer.new.tokens ≡ writer.old.tokens ++ flat_map member_tokens (known_members day flight.now (option_copied row.entry))) }
    ensures before { writer.new.before ≡ writer.old.before }
{
    writer.key("row")?;
    push_if_any(writer, day, row)?;
    writer.key("ice")?;
    push_ice(writer, &flight.ice)
}

// The Row of the flight of this name.
fn row_named(rows: &[Row], name: FlightName) -> Option<&Row>
    ensures { option_copied result ≡ row_named rows.now name }
{
    rows.iter().find(|row| row.flight == name)
}

/// The line that says what holds a flight: its Row, its de-icing, the minute that it is now, and the minutes at which it can't take
/// off with the reason of each.
///
/// `NoFlight` where the flight isn't known, and else only `Memory`.
pub fn why_line<R: Records>(
    alloc: Global,
    number: Option<u32>,
    day: &Day,
    records: &R,
    plan: &Plan,
    name: FlightName,
) -> Result<Vec<u8>, ViewFault>
    requires day { day.now ≡ (R.day records.now).airport.day }
    requires plan { IsDayPlan (R.day records.now) plan.now }
    ensures text { let d = R.day records.now in
        IfOk result (λ text. IsSomeAnd (flight_of d.airport d.journal name) (λ f. IsWhyLine d number plan.entry.now f text.items)) }
    ensures fault { let d = R.day records.now in
        IfErr result (λ fault. IsWhyFault (flight_of d.airport d.journal name) name fault) }
{
    let Some(flight) = records.flight(name) else {
        return Err(ViewFault::NoFlight(name));
    };
    let rows = Rows::of(alloc, records, plan)?;
    let runs = waits_of(alloc, records, plan, flight)?;
    let mut writer = begin_line(alloc, number, "WHY")?;
    push_known(
        &mut writer,
        *day,
        flight,
        row_named(rows.as_slice(), flight.name),
    )?;
    push_minute(&mut writer, *day, "now", plan.clock)?;
    push_waits(&mut writer, *day, &runs)?;
    Ok(end_line(writer)?)
}
