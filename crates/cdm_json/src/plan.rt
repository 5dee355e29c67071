//! The plan of a day as JSON.
ghost use Rattle.std.specs.Prelude.{◌≡◌, ◌++◌, IfOk, List, OnOk, flat_map, map, zip};
ghost use Rattle.json.specs.Tree.{json_tokens};
ghost use Rattle.cdm_sequence.specs.Words.{all_rules};
ghost use Rattle.cdm_report.specs.Counts.{counts_of};
ghost use Rattle.cdm_row.specs.Columns.{value_of};
ghost use Rattle.cdm_row.specs.Json.{member_tokens};
ghost use Rattle.cdm_row.specs.declared.row.Row.{Row as ARow};
ghost use Rattle.cdm_json.specs.Plans.{count_members, day_members, flights_text, number_of, plan_line, refused_json, refused_members, rule_members, rules_json, scenario_of};
ghost use Rattle.cdm_json.specs.inner.Around.{first_members, text_before, text_behind};

use crate::lines::begin_line;
use cdm_flight::RefusalWord;
use cdm_report::{Counts, indicators};
use cdm_row::{Row, Rows, Value, push_count, push_member, push_minute, push_rows, push_text};
use cdm_scenario::ScenarioName;
use cdm_sequence::{Plan, Rule};
use cdm_time::{Day, Minute};
use json::Writer;
use std::alloc::{AllocError, Global};
use std::str;

/// For how many bytes the line has room behind its flights.
const ROOM: usize = 64;

/// Whose plan is told.
#[derive(Clone, Copy, Debug, PartialEq, Eq)]
pub enum PlanOf {
    /// The day's.
    Day,
    /// The day's, which the record of this number asked for.
    Asked(u32),
    /// That of the day with all updates of the scenario of this name.
    Scenario(ScenarioName),
}

/// Writes the members of the indicators without the rules.
pub fn push_counts(writer: &mut Writer<Global>, counts: &Counts) -> Result<(), AllocError>
    ensures tokens { OnOk result (writer.new.tokens ≡ writer.old.tokens ++ flat_map member_tokens (count_members counts.now)) }
    ensures before { writer.new.before ≡ writer.old.before }
{
    push_count(writer, "placed", u64::from(counts.placed))?;
    push_count(writer, "delay", u64::from(counts.delay))?;
    push_count(writer, "max", u64::from(counts.greatest))?;
    push_count(writer, "late", u64::from(counts.late))?;
    push_count(writer, "blocked", u64::from(counts.blocked))
}

// Writes the member of a rule, where it blocks a flight.
fn push_rule(writer: &mut Writer<Global>, rule: Rule, count: u32) -> Result<(), AllocError>
    ensures tokens { OnOk result (writer.new.tokens ≡ writer.old.tokens ++ flat_map member_tokens (rule_members (rule, count))) }
    ensures before { writer.new.before ≡ writer.old.before }
{
    if count == 0 {
        return Ok(());
    }
    push_count(writer, rule.text(), u64::from(count))
}

// Writes the members of the rules.
fn push_rule_members(writer: &mut Writer<Global>, by_rule: &[u32; 8]) -> Result<(), AllocError>
    ensures tokens { OnOk result (writer.new.tokens ≡ writer.old.tokens ++ flat_map member_tokens (flat_map rule_members (zip all_rules by_rule.now))) }
    ensures before { writer.new.before ≡ writer.old.before }
{
    let rules = Rule::all();
    for place in 0..rules.len() {
        push_rule(writer, rules[place], by_rule[place])?;
    }
    Ok(())
}

// Writes the object of the rules that block flights.
fn push_rules(writer: &mut Writer<Global>, counts: &Counts) -> Result<(), AllocError>
    ensures tokens { OnOk result (writer.new.tokens ≡ writer.old.tokens ++ json_tokens (rules_json counts.now)) }
    ensures before { writer.new.before ≡ writer.old.before }
{
    writer.begin_object()?;
    push_rule_members(writer, &counts.by_rule)?;
    writer.end_object()
}

// Writes the object of a refused record.
#[tactic(auto, using(crate::proofs::TokenLemmas::refused_tokens))]
fn push_refusal(
    writer: &mut Writer<Global>,
    number: u32,
    word: RefusalWord,
) -> Result<(), AllocError>
    ensures tokens { OnOk result (writer.new.tokens ≡ writer.old.tokens ++ json_tokens (refused_json (number, word))) }
    ensures before { writer.new.before ≡ writer.old.before }
{
    writer.begin_object()?;
    push_count(writer, "record", u64::from(number))?;
    push_text(writer, "word", word.text())?;
    writer.end_object()
}

// Writes refused records, one after another.
fn push_refusals(
    writer: &mut Writer<Global>,
    refused: &[(u32, RefusalWord)],
) -> Result<(), AllocError>
    ensures tokens { OnOk result (writer.new.tokens ≡ writer.old.tokens ++ flat_map json_tokens (map refused_json refused.now)) }
    ensures before { writer.new.before ≡ writer.old.before }
{
    for refusal in refused {
        let (number, word) = *refusal;
        push_refusal(writer, number, word)?;
    }
    Ok(())
}

// Writes whose plan it is, the day, and the minute that it is now.
#[tactic(auto, using(crate::proofs::TokenLemmas::day_tokens))]
fn push_day(
    writer: &mut Writer<Global>,
    day: Day,
    scenario: &Value<'_>,
    now: Minute,
) -> Result<(), AllocError>
    ensures tokens { OnOk result (writer.new.tokens ≡ writer.old.tokens ++ flat_map member_tokens (day_members day (value_of scenario.now) now)) }
    ensures before { writer.new.before ≡ writer.old.before }
{
    let date = day.date_text();
    push_member(writer, day, "scenario", scenario)?;
    push_text(writer, "day", str::from_utf8(&date).unwrap())?;
    push_minute(writer, day, "now", now)
}

// Writes the members before that of the flights.
fn push_first(
    writer: &mut Writer<Global>,
    day: Day,
    scenario: &Value<'_>,
    plan: &Plan,
) -> Result<(), AllocError>
    ensures tokens { OnOk result (writer.new.tokens ≡ writer.old.tokens
        ++ flat_map member_tokens (first_members day (value_of scenario.now) plan.entry.now)) }
    ensures before { writer.new.before ≡ writer.old.before }
{
    let counts = indicators(plan);
    push_day(writer, day, scenario, plan.clock)?;
    push_counts(writer, &counts)?;
    writer.key("rules")?;
    push_rules(writer, &counts)
}

// Writes the member of the refused records.
fn push_refused(
    writer: &mut Writer<Global>,
    refused: &[(u32, RefusalWord)],
) -> Result<(), AllocError>
    ensures tokens { OnOk result (writer.new.tokens ≡ writer.old.tokens ++ flat_map member_tokens (refused_members refused.now)) }
    ensures before { writer.new.before ≡ writer.old.before }
{
    writer.key("refused")?;
    writer.begin_array()?;
    push_refusals(writer, refused)?;
    writer.end_array()
}

// The number of the record that asked for the plan, if one did.
fn number_of(of: PlanOf) -> Option<u32>
    ensures { result ≡ number_of of }
{
    match of {
        PlanOf::Asked(number) => Some(number),
        PlanOf::Day | PlanOf::Scenario(_) => None,
    }
}

// The name of the scenario whose plan it is, or nothing for the day itself.
fn scenario_of(of: &PlanOf) -> Value<'_>
    ensures { value_of result ≡ scenario_of of.now }
{
    match of {
        PlanOf::Scenario(name) => Value::Text(name.text()),
        PlanOf::Day | PlanOf::Asked(_) => Value::Nothing,
    }
}

// The line of a plan up to its flights.
fn text_before(alloc: Global, of: PlanOf, day: Day, plan: &Plan) -> Result<Vec<u8>, AllocError>
    ensures { IfOk result (λ text. text.items ≡ text_before day of plan.entry.now) }
{
    let number = number_of(of);
    let scenario = scenario_of(&of);
    let mut writer = begin_line(alloc, number, "PLAN")?;
    push_first(&mut writer, day, &scenario, plan)?;
    writer.key("flights")?;
    Ok(writer.into_inner())
}

// Ends the line of a plan behind its flights.
fn end_plan(mut text: Vec<u8>, refused: &[(u32, RefusalWord)]) -> Result<Vec<u8>, AllocError>
    ensures { IfOk result (λ line. line.items ≡ text.items ++ text_behind refused.now) }
{
    text.push(b',')?;
    let mut writer = Writer::new(text);
    push_refused(&mut writer, refused)?;
    writer.end_object()?;
    let mut line = writer.into_inner();
    line.push(b'\n')?;
    Ok(line)
}

/// The line of a plan whose flights' Rows have this text, as [`plan_line`] writes it. So who has the text of most Rows needn't write
/// them again. Only want of memory makes it fail.
pub fn plan_line_around(
    alloc: Global,
    of: PlanOf,
    day: Day,
    plan: &Plan,
    flights: &[u8],
    refused: &[(u32, RefusalWord)],
) -> Result<Vec<u8>, AllocError>
    ensures { IfOk result (λ text. (rows : List ARow) → flights.now ≡ flights_text day rows
        → text.items ≡ plan_line day of plan.entry.now rows refused.now) }
{
    let mut text = text_before(alloc, of, day, plan)?;
    text.reserve(flights.len().saturating_add(ROOM))?;
    text.extend_from_slice(flights)?;
    end_plan(text, refused)
}

// The text of the Rows of all flights.
fn flights_text(alloc: Global, day: Day, rows: &[Row]) -> Result<Vec<u8>, AllocError>
    ensures { IfOk result (λ text. text.items ≡ flights_text day rows.now) }
{
    let mut writer = Writer::new(Vec::new(alloc));
    push_rows(&mut writer, day, rows)?;
    Ok(writer.into_inner())
}

/// The line of a plan: whose it is, the day and the minute that it is now, the indicators with each rule that blocks flights, the
/// Rows of all known flights by name, and the refused records. Only want of memory makes it fail.
pub fn plan_line(
    alloc: Global,
    of: PlanOf,
    day: Day,
    plan: &Plan,
    rows: &Rows,
    refused: &[(u32, RefusalWord)],
) -> Result<Vec<u8>, AllocError>
    ensures { IfOk result (λ text. text.items ≡ plan_line day of plan.entry.now rows.now refused.now) }
{
    let flights = flights_text(alloc, day, rows.as_slice())?;
    plan_line_around(alloc, of, day, plan, &flights, refused)
}
