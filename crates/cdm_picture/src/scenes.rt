//! The picture of a day and of scenarios over it.
ghost use Rattle.std.specs.Prelude.{◌≡◌, ◌++◌, ◌∷◌, [], All, IfOk, OnOk, length};
ghost use Rattle.std.specs.List.{AllZip};
ghost use Rattle.cdm_scenario.specs.Outcome.{IsOutcome};
ghost use Rattle.cdm_picture.specs.Sections.{IsEmpty, refused_heading};
ghost use Rattle.cdm_picture.specs.Pictures.{IsPicture, IsScenarioDrawn};
ghost use Rattle.cdm_picture.specs.inner.Spans.{HaveOutcome};

use crate::legend::{LEGEND, legend};
use crate::marks::Section;
use crate::section::{Page, plan_section};
use crate::spans::Span;
use crate::svg::picture_text;
use crate::words::Words;
use cdm_day::{DayState, Records};
use cdm_flight::RefusalWord;
use cdm_phase::{Gate, Workers};
use cdm_scenario::{Outcome, Overlay, Scenario, ScenarioName, answer_all};
use cdm_view::Standings;
use std::alloc::{AllocError, Global};
use std::thread::Threads;

/// The height of the section of a scenario that is refused.
const REFUSED: u32 = 40;

// The section of a scenario that is refused, from `y` down.
fn refused_section(
    alloc: Global,
    name: &ScenarioName,
    number: usize,
    word: RefusalWord,
    y: u32,
) -> Result<Section, AllocError>
    ensures heading { IfOk result (λ section. section.heading ≡ refused_heading name.now number word) }
    ensures empty { IfOk result IsEmpty }
{
    Ok(Section {
        heading: Words::refused(alloc, name, number, word)?,
        y,
        end: y.saturating_add(REFUSED),
        shapes: Vec::new(alloc),
        flights: Vec::new(alloc),
        blocked: Vec::new(alloc),
    })
}

// The section of a scenario that becomes this of the base, from `y` down.
fn scenario_section(
    alloc: Global,
    page: &Page<'_>,
    base: &DayState,
    scenario: &Scenario,
    outcome: &Outcome,
    y: u32,
) -> Result<Section, AllocError>
    requires of { IsOutcome base.now scenario.now.updates outcome.now }
    requires within { HaveOutcome page.now.hours outcome.now }
    ensures { IfOk result (IsScenarioDrawn base.now page.now.hours scenario.now) }
{
    let name = scenario.name();
    let plan = match outcome {
        Outcome::Planned(plan, _) => plan,
        Outcome::Refused(number, word) => {
            let section = refused_section(alloc, name, *number, *word, y)?;
            return Ok(section);
        }
    };
    match Overlay::after(alloc, base, scenario.updates())? {
        Ok(day) => {
            let heading = Words::scenario(alloc, name)?;
            let section = plan_section(alloc, page, &day, plan, heading, y)?;
            Ok(section)
        }
        Err((number, word)) => {
            let section = refused_section(alloc, name, number, word, y)?;
            Ok(section)
        }
    }
}

// The sections of the scenarios with these outcomes, one below another from `top` down.
fn scenario_sections(
    alloc: Global,
    page: &Page<'_>,
    base: &DayState,
    scenarios: &[Scenario],
    outcomes: &[Outcome],
    top: u32,
) -> Result<Vec<Section>, AllocError>
    requires of { AllZip (λ s o. IsOutcome base.now s.updates o) scenarios.now outcomes.now }
    requires long { length outcomes.now ≡ length scenarios.now }
    requires within { All (HaveOutcome page.now.hours) outcomes.now }
    ensures { IfOk result (λ sections. AllZip (IsScenarioDrawn base.now page.now.hours) scenarios.now sections.items) }
{
    let mut sections = Vec::new(alloc);
    let mut y = top;
    for place in 0..scenarios.len() {
        let (scenario, outcome) = (&scenarios[place], &outcomes[place]);
        let section = scenario_section(alloc, page, base, scenario, outcome, y)?;
        y = section.end;
        sections.push(section)?;
    }
    Ok(sections)
}

// A section and those beneath it.
fn with_first(
    alloc: Global,
    first: Section,
    others: Vec<Section>,
) -> Result<Vec<Section>, AllocError>
    ensures { IfOk result (λ sections. sections.items ≡ first ∷ others.items) }
{
    let mut sections = Vec::new(alloc);
    let mut others = others;
    sections.push(first)?;
    sections.append(&mut others)?;
    Ok(sections)
}

// Where the last of the sections ends.
fn height_of(sections: &[Section]) -> u32 {
    match sections.last() {
        Some(section) => section.end,
        None => LEGEND,
    }
}

/// The picture of a day and of scenarios over it, as SVG 1.1, with each scenario beneath the day. Each flight with a take-off
/// has one mark, at the place of its TTOT, and each blocked flight stands once in the list below (`IsPicture`). What becomes of the scenarios is found by so many
/// workers in phase `Scenarios`, and every scenario is one piece.
pub fn picture<R: Threads + Sync, G: Gate>(
    rt: &R,
    alloc: Global,
    base: &DayState,
    scenarios: &[Scenario],
    workers: Workers,
    gate: &G,
) -> Result<Vec<u8>, AllocError>
    ensures { IfOk result (λ text. IsPicture base.now scenarios.now text.items) }
{
    let outcomes = answer_all(rt, alloc, base, scenarios, workers, gate)?;
    let plan = base.plan();
    let span = Span::NONE.with_plan(plan).with_closures(base);
    let hours = span.with_outcomes(&outcomes).hours();
    let day = *base.day();
    let page = Page {
        day,
        hours,
        before: None,
    };
    let heading = Words::day(alloc, day, plan.clock)?;
    let own = plan_section(alloc, &page, base, plan, heading, LEGEND)?;
    let before = Standings::of(alloc, base, plan)?;
    let page = Page {
        day,
        hours,
        before: Some(&before),
    };
    let others = scenario_sections(alloc, &page, base, scenarios, &outcomes, own.end)?;
    let sections = with_first(alloc, own, others)?;
    let height = height_of(&sections);
    let text = picture_text(alloc, day, height, &legend(alloc)?, &sections)?;
    Ok(text)
}
