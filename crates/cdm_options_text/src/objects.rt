//! What could help a flight, as lines of JSON.
ghost use Rattle.std.specs.Prelude.{◌≡◌, ◌++◌, All, IfOk, OnOk, flat_map, map};
ghost use Rattle.cdm_row.specs.Columns.{value_of};
ghost use Rattle.cdm_row.specs.Json.{member_tokens};
ghost use Rattle.cdm_time.specs.declared.calendar.CalendarDate.{CalendarDate};
ghost use Rattle.cdm_options.specs.Tried.{EndsInTime};
ghost use Rattle.cdm_options_text.specs.Lines.{sent};
ghost use Rattle.cdm_options_text.specs.Objects.{flight_members, gain_value, help_members, member_of, minute_value, object_line, options_objects, rule_value};

use crate::line::sent;
use cdm_json::{begin_line, end_line};
use cdm_kinds::role_name;
use cdm_options::{Helping, Options, sender_of};
use cdm_row::{Value, push_member};
use cdm_sequence::Rule;
use cdm_time::{Day, Minute};
use json::Writer;
use std::alloc::{AllocError, Global};

/// A member: its name and its value.
pub(crate) type Member<'a> = (&'static str, Value<'a>);

/// Writes members, one after another.
pub(crate) fn push_members(
    writer: &mut Writer<Global>,
    day: Day,
    members: &[Member<'_>],
) -> Result<(), AllocError>
    ensures tokens { OnOk result (writer.new.tokens
        ≡ writer.old.tokens ++ flat_map member_tokens (map (member_of day) (map (λ m. (m.0.now, value_of m.1)) members.now))) }
    ensures before { writer.new.before ≡ writer.old.before }
{
    for member in members {
        push_member(writer, day, member.0, &member.1)?;
    }
    Ok(())
}

// Puts the object of these members behind a text, on a line.
fn push_object(text: &mut Vec<u8>, day: Day, members: &[Member<'_>]) -> Result<(), AllocError>
    ensures { OnOk result (text.new.items ≡ text.old.items ++ object_line day (map (λ m. (m.0.now, value_of m.1)) members.now)) }
{
    let mut writer = begin_line(*text.allocator(), None, "")?;
    push_members(&mut writer, day, members)?;
    text.extend_from_slice(&end_line(writer)?)
}

// A minute, or nothing.
fn minute_value(minute: Option<Minute>) -> Value<'static>
    ensures { value_of result ≡ minute_value minute }
{
    match minute {
        Some(minute) => Value::Minute(minute),
        None => Value::Nothing,
    }
}

// The word of a rule, or nothing.
fn rule_value(rule: Option<Rule>) -> Value<'static>
    ensures { value_of result ≡ rule_value rule }
{
    match rule {
        Some(rule) => Value::Text(rule.text()),
        None => Value::Nothing,
    }
}

// By how many minutes a take-off is sooner, or nothing where there was none before.
fn gain_value(before: &Option<Minute>, ttot: Minute) -> Value<'static>
    ensures { value_of result ≡ gain_value before.now ttot }
{
    match before {
        Some(before) => Value::Number(u64::from(before.get().saturating_sub(ttot.get()))),
        None => Value::Nothing,
    }
}

/// The members of the flight and its day.
#[tactic(auto, unfolding(crate::specs::Objects::flight_members))]
pub(crate) fn flight_members<'a>(options: &'a Options) -> [Member<'a>; 13]
    ensures { map (λ m. (m.0.now, value_of m.1)) result ≡ flight_members options.now }
{
    let counts = &options.counts;
    [
        ("flight", Value::Text(options.flight.name.text())),
        ("now", Value::Minute(options.clock)),
        ("ttot", minute_value(options.before)),
        ("rule", rule_value(options.rule)),
        ("ctot", minute_value(options.flight.ctot)),
        ("placed", Value::Number(counts.placed as u64)),
        ("delay", Value::Number(counts.delay as u64)),
        ("max", Value::Number(counts.greatest as u64)),
        ("late", Value::Number(counts.late as u64)),
        ("blocked", Value::Number(counts.blocked as u64)),
        ("tried", Value::Number(options.tried as u64)),
        ("help", Value::Number(options.helping.len() as u64)),
        ("refused", Value::Number(options.refused as u64)),
    ]
}

/// The members of a record that helps, of which this is the text.
#[tactic(auto, unfolding(crate::specs::Objects::help_members))]
pub(crate) fn help_members<'a>(
    before: &Option<Minute>,
    help: &'a Helping,
    line: &'a str,
) -> [Member<'a>; 10]
    ensures { (day : CalendarDate) → line.now ≡ sent day help.now.update → map (λ m. (m.0.now, value_of m.1)) result ≡ help_members day before.now help.now }
{
    let counts = &help.counts;
    [
        ("record", Value::Text(line)),
        ("role", Value::Text(role_name(sender_of(&help.update)))),
        ("ttot", Value::Minute(help.ttot)),
        ("gain", gain_value(before, help.ttot)),
        ("placed", Value::Number(counts.placed as u64)),
        ("delay", Value::Number(counts.delay as u64)),
        ("max", Value::Number(counts.greatest as u64)),
        ("late", Value::Number(counts.late as u64)),
        ("blocked", Value::Number(counts.blocked as u64)),
        ("moved", Value::Number(help.moved as u64)),
    ]
}

// The object of a record that helps.
fn push_help(
    text: &mut Vec<u8>,
    day: Day,
    before: &Option<Minute>,
    help: &Helping,
) -> Result<(), AllocError>
    requires { EndsInTime help.now.update }
    ensures { OnOk result (text.new.items ≡ text.old.items ++ object_line day (help_members day before.now help.now)) }
{
    let line = sent(*text.allocator(), day, &help.update)?;
    push_object(text, day, &help_members(before, help, &line))
}

/// What could help a flight, as lines of JSON.
pub(crate) fn options_objects(
    alloc: Global,
    day: Day,
    options: &Options,
) -> Result<Vec<u8>, AllocError>
    requires { All (λ h. EndsInTime h.update) options.now.helping }
    ensures { IfOk result (λ text. text.items ≡ options_objects day options.now) }
{
    let mut text = Vec::new(alloc);
    push_object(&mut text, day, &flight_members(options))?;
    let helping = options.helping.as_slice();
    for help in helping {
        push_help(&mut text, day, &options.before, help)?;
    }
    Ok(text)
}
