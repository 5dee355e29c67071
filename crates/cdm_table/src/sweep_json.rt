//! Scenarios that are tried at each of some minutes, as JSON.
ghost use Rattle.std.specs.Prelude.{◌≡◌, ◌++◌, IfOk, OnOk, flat_map};
ghost use Rattle.cdm_row.specs.Json.{member_tokens};
ghost use Rattle.cdm_table.specs.Sweep.{IsSweepJson, at_members, sweep_json_line};

use crate::comparison_json::{push_name, push_summary};
use crate::line::Line;
use crate::ranking::ranked_lines;
use crate::tries::tries_of;
use cdm_day::{DayState, Records};
use cdm_json::{begin_line, end_line};
use cdm_phase::Gate;
use cdm_plan::Runner;
use cdm_row::push_minute;
use cdm_scenario::Scenario;
use cdm_time::{Day, Minute};
use json::Writer;
use std::alloc::{AllocError, Global};
use std::thread::Threads;

// Writes the time of a try, or null where the scenario isn't moved.
fn push_at(writer: &mut Writer<Global>, day: Day, at: &Option<Minute>) -> Result<(), AllocError>
    ensures tokens { OnOk result (writer.new.tokens ≡ writer.old.tokens ++ flat_map member_tokens (at_members day at.now)) }
    ensures before { writer.new.before ≡ writer.old.before }
{
    match at {
        Some(minute) => push_minute(writer, day, "at", *minute),
        None => {
            writer.key("at")?;
            writer.null()
        }
    }
}

// The line of a try, or of the day itself.
fn sweep_json_line(alloc: Global, day: Day, line: &Line) -> Result<Vec<u8>, AllocError>
    ensures { IfOk result (λ text. text.items ≡ sweep_json_line day line.now) }
{
    let mut writer = begin_line(alloc, None, "")?;
    push_name(&mut writer, &line.name)?;
    push_at(&mut writer, day, &line.at)?;
    push_summary(&mut writer, &line.summary)?;
    end_line(writer)
}

// The lines.
fn lines_text(alloc: Global, day: Day, lines: &[Line]) -> Result<Vec<u8>, AllocError>
    ensures { IfOk result (λ text. text.items ≡ flat_map (sweep_json_line day) lines.now) }
{
    let mut text = Vec::new(alloc);
    for line in lines {
        text.extend_from_slice(&sweep_json_line(alloc, day, line)?)?;
    }
    Ok(text)
}

/// A line of JSON for the day and for each try: each scenario of which a time can be moved at each of the minutes, and the others once. The
/// best is first. Each try is answered over the base by one of the workers in phase `Scenarios`, and every try is one piece.
pub(crate) fn sweep_json<R: Threads + Sync, G: Gate>(
    alloc: Global,
    base: &DayState,
    scenarios: &[Scenario],
    minutes: &[Minute],
    runner: &Runner<'_, R, G>,
) -> Result<Vec<u8>, AllocError>
    ensures { IfOk result (λ text. IsSweepJson base.now scenarios.now minutes.now text.items) }
{
    let tries = tries_of(alloc, scenarios, minutes)?;
    let ranking = ranked_lines(alloc, base, &tries, runner)?;
    let text = lines_text(alloc, *base.day(), &ranking.lines)?;
    Ok(text)
}
