//! The text of a comparison.
ghost use Rattle.std.specs.Prelude.{◌≡◌, ◌++◌, ◌<◌, ◌≤◌, ℕ, [], IfOk, OnOk, Some, codes, flat_map, length, slice_index, unwrap_or};
ghost use Rattle.std.specs.Option.{option_copied, option_map_or};
ghost use Rattle.std.specs.String.{string_bytes};
ghost use Rattle.cdm_table.specs.Comparison.{AreTold, IsComparison, IsToldIf, change_lines, heading, line_text, marked_line, summary_text};

use crate::line::{Line, Summary};
use crate::ranking::{Ranking, ranked_lines};
use crate::tries::as_they_are;
use cdm_day::{DayState, Records};
use cdm_phase::Gate;
use cdm_plan::Runner;
use cdm_scenario::{Overlay, Scenario, ScenarioName};
use cdm_time::Day;
use cdm_view::{Standing, Standings, changes_to, push_standing};
use std::alloc::{AllocError, Global};
use std::fmt;
use std::fmt::Write;
use std::thread::Threads;

impl fmt::Display for Summary {
    ghost output = { λ is. Some (summary_text is) };

    #[tactic(auto, unfolding(crate::specs::Comparison::summary_text))]
    fn fmt<W: fmt::Write>(&self, f: &mut fmt::Formatter<W>) -> fmt::Result {
        match self {
            Summary::Planned(counts, moved) => {
                let placed = counts.placed;
                let delay = counts.delay;
                let greatest = counts.greatest;
                let late = counts.late;
                let blocked = counts.blocked;
                write!(
                    f,
                    "{placed:>6} {delay:>6} {greatest:>5} {late:>5} {blocked:>7} {moved:>6}"
                )
            }
            Summary::Refused(number, word) => write!(f, "REFUSED {number} {word}"),
        }
    }
}

/// The name of a scenario, or a hyphen for the day itself.
pub(crate) fn name_text(name: &Option<ScenarioName>) -> &str
    ensures value { result.now ≡ unwrap_or name.now (codes "-") }
    ensures ascii { (k : ℕ) → slice_index result.now k < 128 }
    ensures short { length result.now ≤ 16 }
{
    match name {
        Some(name) => name.text(),
        None => "-",
    }
}

#[tactic(auto, unfolding(crate::specs::Comparison::line_text))]
fn push_line(text: &mut String, line: &Line) -> Result<(), AllocError>
    ensures { OnOk result (string_bytes text.new ≡ string_bytes text.old ++ line_text line.now) }
{
    let name = name_text(&line.name);
    let summary = line.summary;
    writeln!(text, "{name:<16} {summary}")
}

// The lines.
fn push_lines(text: &mut String, lines: &[Line]) -> Result<(), AllocError>
    ensures { OnOk result (string_bytes text.new ≡ string_bytes text.old ++ flat_map line_text lines.now) }
{
    for line in lines {
        push_line(text, line)?;
    }
    Ok(())
}

// The heading and the lines.
fn lines_text(alloc: Global, lines: &[Line]) -> Result<Vec<u8>, AllocError>
    ensures { IfOk result (λ text. text.items ≡ heading ++ flat_map line_text lines.now) }
{
    let mut text = String::new(alloc);
    writeln!(
        text,
        "SCENARIO         PLACED  DELAY   MAX  LATE BLOCKED  MOVED"
    )?;
    push_lines(&mut text, lines)?;
    Ok(text.into_bytes())
}

// A standing after a mark.
fn push_marked(
    text: &mut String,
    day: Day,
    mark: &str,
    standing: &Standing,
) -> Result<(), AllocError>
    ensures { OnOk result (string_bytes text.new ≡ string_bytes text.old ++ marked_line day mark.now standing.now) }
{
    text.push_str(mark)?;
    push_standing(text, day, standing)?;
    writeln!(text)
}

// A flight's standing in the day, if it has one.
fn push_before(text: &mut String, day: Day, before: Option<&Standing>) -> Result<(), AllocError>
    ensures { OnOk result (string_bytes text.new ≡ string_bytes text.old
        ++ option_map_or (marked_line day (codes "- ")) (option_copied before.entry) []) }
{
    match before {
        Some(standing) => push_marked(text, day, "- ", standing),
        None => Ok(()),
    }
}

// A flight's standing in the day, if it has one, and the one that it gets.
#[tactic(auto, unfolding(crate::specs::Comparison::change_lines))]
fn push_change(
    text: &mut String,
    day: Day,
    before: &Standings,
    standing: &Standing,
) -> Result<(), AllocError>
    ensures { OnOk result (string_bytes text.new ≡ string_bytes text.old ++ change_lines day before.now standing.now) }
{
    push_before(text, day, before.of_flight(standing.flight()))?;
    push_marked(text, day, "+ ", standing)
}

// Each change.
fn push_changes(
    text: &mut String,
    day: Day,
    before: &Standings,
    changed: &[Standing],
) -> Result<(), AllocError>
    ensures { OnOk result (string_bytes text.new ≡ string_bytes text.old ++ flat_map (change_lines day before.now) changed.now) }
{
    for standing in changed {
        push_change(text, day, before, standing)?;
    }
    Ok(())
}

// What is told of the day with all updates of a scenario.
fn told_of(
    alloc: Global,
    base: &DayState,
    before: &Standings,
    day: &Overlay<'_>,
) -> Result<Vec<u8>, AllocError>
    ensures { IfOk result (λ text. AreTold base.now before.now day.now text.items) }
{
    let plan = day.plan(alloc)?;
    let changed = changes_to(alloc, base, day, &plan)?;
    let mut text = String::new(alloc);
    push_changes(&mut text, *base.day(), before, &changed)?;
    Ok(text.into_bytes())
}

// What is told of the day by the scenario that is asked for, if one is.
fn told(
    alloc: Global,
    base: &DayState,
    before: &Standings,
    asked: Option<&Overlay<'_>>,
) -> Result<Vec<u8>, AllocError>
    ensures { IfOk result (λ text. IsToldIf base.now before.now (option_copied asked.entry) text.items) }
{
    match asked {
        Some(day) => told_of(alloc, base, before, day),
        None => Ok(Vec::new(alloc)),
    }
}

/// A line for the day and for each scenario, the best first, and then what changes in the day with all updates of the
/// scenario that is asked for, if one is. Each scenario is answered over the base by one of the workers in phase
/// `Scenarios`, and every scenario is one piece.
pub(crate) fn comparison<R: Threads + Sync, G: Gate>(
    alloc: Global,
    base: &DayState,
    scenarios: &[Scenario],
    asked: Option<&Overlay<'_>>,
    runner: &Runner<'_, R, G>,
) -> Result<Vec<u8>, AllocError>
    ensures { IfOk result (λ text. IsComparison base.now scenarios.now (option_copied asked.entry) text.items) }
{
    let tries = as_they_are(alloc, scenarios)?;
    let Ranking { before, lines } = ranked_lines(alloc, base, &tries, runner)?;
    let mut text = lines_text(alloc, &lines)?;
    text.extend_from_slice(&told(alloc, base, &before, asked)?)?;
    Ok(text)
}
