//! The lines of runways that are made already, which the reports of a day's scenarios mostly repeat.
ghost use Rattle.std.specs.Prelude.{◌≡◌, true, All, IfOk, IfSome, map};
ghost use Rattle.std.specs.String.{string_bytes};
ghost use Rattle.cdm_time.specs.declared.calendar.CalendarDate.{CalendarDate};
ghost use Rattle.cdm_report.specs.Report.{runway_lines};
ghost use Rattle.cdm_report.specs.Made.{AreLines};

use crate::text::push_runway;
use cdm_sequence::RunwayPlan;
use cdm_time::Day;
use std::alloc::{AllocError, Global};

/// The plan of a runway, and its lines in a report.
#[derive(Debug, Drop)]
pub struct RunwayLines<'a> {
    pub plan: &'a RunwayPlan,
    pub text: String,
}

// The lines of a runway.
fn lines_of(alloc: Global, day: Day, plan: &RunwayPlan) -> Result<String, AllocError>
    ensures { IfOk result (λ text. string_bytes text ≡ runway_lines day plan.now) }
{
    let mut text = String::new(alloc);
    push_runway(&mut text, day, plan)?;
    Ok(text)
}

/// Each of the runways with its lines in the reports of a day.
pub fn made_lines<'a>(
    alloc: Global,
    day: &Day,
    runways: &'a [RunwayPlan],
) -> Result<Vec<RunwayLines<'a>>, AllocError>
    ensures lines { IfOk result (λ made. All (AreLines day.now) made.items) }
    ensures plans { IfOk result (λ made. map (λ lines. lines.plan.now) made.items ≡ runways.now) }
{
    let mut made = Vec::new(alloc);
    for plan in runways {
        let text = lines_of(alloc, *day, plan)?;
        made.push(RunwayLines { plan, text })?;
    }
    Ok(made)
}

// Whether the two are of one runway, with the same slots.
fn has_same_slots(one: &RunwayPlan, other: &RunwayPlan) -> bool
    ensures runway { result ≡ true → one.now.runway ≡ other.now.runway }
    ensures slots { result ≡ true → one.now.slots ≡ other.now.slots }
{
    one.runway == other.runway && one.slots.as_slice() == other.slots.as_slice()
}

/// The lines of a runway, if they are among those that are made.
pub(crate) fn lines_of_same<'a>(made: &'a [RunwayLines<'_>], plan: &RunwayPlan) -> Option<&'a str>
    ensures { (day : CalendarDate) → All (AreLines day) made.now → IfSome result (λ text. text.now ≡ runway_lines day plan.now) }
{
    for lines in made {
        if has_same_slots(lines.plan, plan) {
            return Some(lines.text.as_str());
        }
    }
    None
}
