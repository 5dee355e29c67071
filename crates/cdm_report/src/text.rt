//! The text of a report.
ghost use Rattle.std.specs.Prelude.{◌≡◌, ◌++◌, All, codes, IfOk, OnOk, flat_map, zip};
ghost use Rattle.std.specs.Fmt.{decimal};
ghost use Rattle.std.specs.String.{string_bytes};
ghost use Rattle.cdm_sequence.specs.Words.{all_rules};
ghost use Rattle.cdm_report.specs.Made.{AreLines};
ghost use Rattle.cdm_report.specs.Report.{blocked_line, day_line, indicators_told, refused_line, report_bytes, rule_count, runway_lines, total_line};

use crate::counts::{Counts, indicators};
use crate::line::{FlightLine, TimeColumn};
use crate::made::{RunwayLines, lines_of_same};
use cdm_flight::RefusalWord;
use cdm_sequence::{BlockedFlight, Plan, Rule, RunwayPlan};
use cdm_time::{Day, Minute};
use std::alloc::{AllocError, Global};
use std::fmt::Write;
use std::str;

/// The report of a day's plan and of the feed's refused records, which are numbered from 1
/// (local profile).
///
/// Its lines, each ended by LF, are the day and the minute that it is now, each runway with its
/// flights, the blocked flights, the indicators and the refused records. Only want of memory makes
/// it fail.
pub fn report_text(
    alloc: Global,
    day: &Day,
    plan: &Plan,
    refused: &[(u32, RefusalWord)],
) -> Result<Vec<u8>, AllocError>
    ensures { IfOk result (λ text. text.items ≡ report_bytes day.now plan.entry.now refused.now) }
{
    report_over(alloc, day, plan, refused, &[])
}

/// The report, as [`report_text`] makes it: a runway whose lines are among those made already gets them as they stand.
#[tactic(auto, unfolding(crate::specs::Report::report_bytes))]
pub fn report_over(
    alloc: Global,
    day: &Day,
    plan: &Plan,
    refused: &[(u32, RefusalWord)],
    made: &[RunwayLines<'_>],
) -> Result<Vec<u8>, AllocError>
    requires { All (AreLines day.now) made.now }
    ensures { IfOk result (λ text. text.items ≡ report_bytes day.now plan.entry.now refused.now) }
{
    let mut text = String::new(alloc);
    push_day(&mut text, *day, plan.clock)?;
    push_runways(&mut text, *day, plan.runways.as_slice(), made)?;
    push_blocked(&mut text, plan.blocked.as_slice())?;
    push_total(&mut text, &indicators(plan))?;
    push_refused(&mut text, refused)?;
    Ok(text.into_bytes())
}

/// Puts the line of the day and of the minute that it is now behind a text (local profile). Only want
/// of memory makes it fail.
#[tactic(auto, unfolding(crate::specs::Report::day_line, crate::specs::Columns::time_column))]
pub fn push_day(text: &mut String, day: Day, now: Minute) -> Result<(), AllocError>
    ensures { OnOk result (string_bytes text.new ≡ string_bytes text.old ++ day_line day now) }
{
    let date = day.date_text();
    let date = str::from_utf8(&date).unwrap();
    let now = TimeColumn {
        day,
        minute: Some(now),
    };
    writeln!(text, "DAY {date} NOW {now}")
}

// The lines of the runways. Those that are made already are put there as they stand.
fn push_runways(
    text: &mut String,
    day: Day,
    runways: &[RunwayPlan],
    made: &[RunwayLines<'_>],
) -> Result<(), AllocError>
    requires { All (AreLines day) made.now }
    ensures { OnOk result (string_bytes text.new ≡ string_bytes text.old ++ flat_map (runway_lines day) runways.now) }
{
    for runway in runways {
        match lines_of_same(made, runway) {
            Some(lines) => text.push_str(lines)?,
            None => push_runway(text, day, runway)?,
        }
    }
    Ok(())
}

/// Puts a runway's heading and the lines of its flights behind a text.
#[tactic(auto, unfolding(crate::specs::Report::runway_lines))]
pub(crate) fn push_runway(
    text: &mut String,
    day: Day,
    runway: &RunwayPlan,
) -> Result<(), AllocError>
    ensures { OnOk result (string_bytes text.new ≡ string_bytes text.old ++ runway_lines day runway.now) }
{
    let name = runway.runway.text();
    writeln!(text, "RUNWAY {name}")?;
    for slot in runway.slots.as_slice() {
        let line = FlightLine { day, slot };
        writeln!(text, "{line}")?;
    }
    Ok(())
}

fn push_blocked(text: &mut String, flights: &[BlockedFlight]) -> Result<(), AllocError>
    ensures { OnOk result (string_bytes text.new ≡ string_bytes text.old ++ flat_map blocked_line flights.now) }
{
    for flight in flights {
        push_blocked_flight(text, flight)?;
    }
    Ok(())
}

#[tactic(auto, unfolding(crate::specs::Report::blocked_line))]
fn push_blocked_flight(text: &mut String, flight: &BlockedFlight) -> Result<(), AllocError>
    ensures { OnOk result (string_bytes text.new ≡ string_bytes text.old ++ blocked_line flight.now) }
{
    let name = flight.name.text();
    let rule = flight.rule;
    writeln!(text, "BLOCKED {name:<7} {rule}")
}

// The indicators, with each rule that blocks a flight.
#[tactic(auto, unfolding(crate::specs::Report::total_line))]
fn push_total(text: &mut String, counts: &Counts) -> Result<(), AllocError>
    ensures { OnOk result (string_bytes text.new ≡ string_bytes text.old ++ total_line counts.now) }
{
    push_total_head(text, counts)?;
    push_rule_counts(text, &counts.by_rule)?;
    writeln!(text)
}

#[tactic(auto, unfolding(crate::specs::Report::indicators_told))]
fn push_total_head(text: &mut String, counts: &Counts) -> Result<(), AllocError>
    ensures { OnOk result (string_bytes text.new ≡ string_bytes text.old ++ indicators_told (codes "TOTAL") (λ of. decimal (of counts.now))) }
{
    let Counts {
        placed,
        delay,
        greatest,
        late,
        blocked,
        ..
    } = *counts;
    write!(
        text,
        "TOTAL PLACED {placed} DELAY {delay} MAX {greatest} LATE {late} BLOCKED {blocked}"
    )
}

fn push_rule_counts(text: &mut String, by_rule: &[u32; 8]) -> Result<(), AllocError>
    ensures { OnOk result (string_bytes text.new ≡ string_bytes text.old ++ flat_map rule_count (zip all_rules by_rule.now)) }
{
    let rules = Rule::all();
    for place in 0..rules.len() {
        push_rule_count(text, rules[place], by_rule[place])?;
    }
    Ok(())
}

#[tactic(auto, unfolding(crate::specs::Report::rule_count))]
fn push_rule_count(text: &mut String, rule: Rule, count: u32) -> Result<(), AllocError>
    ensures { OnOk result (string_bytes text.new ≡ string_bytes text.old ++ rule_count (rule, count)) }
{
    if count == 0 {
        return Ok(());
    }
    write!(text, " {rule} {count}")
}

/// The line of one refused update or record, by its number, which is counted from 1, and why it was
/// refused (local profile). Only want of memory makes it fail.
pub fn refused_text(alloc: Global, number: usize, word: RefusalWord) -> Result<Vec<u8>, AllocError>
    ensures { IfOk result (λ text. text.items ≡ refused_line (number, word)) }
{
    let mut text = String::new(alloc);
    push_refusal(&mut text, number, word)?;
    Ok(text.into_bytes())
}

fn push_refused(text: &mut String, refused: &[(u32, RefusalWord)]) -> Result<(), AllocError>
    ensures { OnOk result (string_bytes text.new ≡ string_bytes text.old ++ flat_map refused_line refused.now) }
{
    for refusal in refused {
        let (number, word) = *refusal;
        push_refusal(text, number as usize, word)?;
    }
    Ok(())
}

#[tactic(auto, unfolding(crate::specs::Report::refused_line))]
fn push_refusal(text: &mut String, number: usize, word: RefusalWord) -> Result<(), AllocError>
    ensures { OnOk result (string_bytes text.new ≡ string_bytes text.old ++ refused_line (number, word)) }
{
    writeln!(text, "REFUSED {number} {word}")
}
