//! The text of scenarios that are tried at each of some minutes.
ghost use Rattle.std.specs.Prelude.{◌≡◌, ◌++◌, IfOk, OnOk, flat_map};
ghost use Rattle.std.specs.String.{string_bytes};
ghost use Rattle.cdm_table.specs.Sweep.{IsSweep, sweep_heading, sweep_line};

use crate::comparison::name_text;
use crate::line::Line;
use crate::ranking::ranked_lines;
use crate::tries::tries_of;
use cdm_day::{DayState, Records};
use cdm_phase::Gate;
use cdm_plan::Runner;
use cdm_report::TimeColumn;
use cdm_scenario::Scenario;
use cdm_time::{Day, Minute};
use std::alloc::{AllocError, Global};
use std::fmt::Write;
use std::thread::Threads;

// A line of a comparison with its minute behind the name.
#[tactic(auto, unfolding(crate::specs::Sweep::sweep_line))]
fn push_line(text: &mut String, day: Day, line: &Line) -> Result<(), AllocError>
    ensures { OnOk result (string_bytes text.new ≡ string_bytes text.old ++ sweep_line day line.now) }
{
    let name = name_text(&line.name);
    let at = TimeColumn {
        day,
        minute: line.at,
    };
    let summary = line.summary;
    writeln!(text, "{name:<16} {at} {summary}")
}

// The lines.
fn push_lines(text: &mut String, day: Day, lines: &[Line]) -> Result<(), AllocError>
    ensures { OnOk result (string_bytes text.new ≡ string_bytes text.old ++ flat_map (sweep_line day) lines.now) }
{
    for line in lines {
        push_line(text, day, line)?;
    }
    Ok(())
}

// The heading and the lines.
fn lines_text(alloc: Global, day: Day, lines: &[Line]) -> Result<Vec<u8>, AllocError>
    ensures { IfOk result (λ text. text.items ≡ sweep_heading ++ flat_map (sweep_line day) lines.now) }
{
    let mut text = String::new(alloc);
    writeln!(
        text,
        "SCENARIO         AT     PLACED  DELAY   MAX  LATE BLOCKED  MOVED"
    )?;
    push_lines(&mut text, day, lines)?;
    Ok(text.into_bytes())
}

/// A line for the day and for each try: each scenario of which a time can be moved at each of the minutes, and the others once. The best
/// is first. Each try is answered over the base by one of the workers in phase `Scenarios`, and every try is one piece.
pub(crate) fn sweep<R: Threads + Sync, G: Gate>(
    alloc: Global,
    base: &DayState,
    scenarios: &[Scenario],
    minutes: &[Minute],
    runner: &Runner<'_, R, G>,
) -> Result<Vec<u8>, AllocError>
    ensures { IfOk result (λ text. IsSweep base.now scenarios.now minutes.now text.items) }
{
    let tries = tries_of(alloc, scenarios, minutes)?;
    let ranking = ranked_lines(alloc, base, &tries, runner)?;
    let text = lines_text(alloc, *base.day(), &ranking.lines)?;
    Ok(text)
}
