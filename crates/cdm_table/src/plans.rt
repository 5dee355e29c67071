//! The plans of a day and of its scenarios as JSON.
ghost use Rattle.std.specs.Prelude.{◌≡◌, ◌++◌, ℕ, List, All, IfOk, OnOk, flat_map};
ghost use Rattle.cdm_phase.specs.declared.job.PhaseName.TheVariants.{Scenarios};
ghost use Rattle.cdm_plan.specs.Sound.{IsSound};
ghost use Rattle.cdm_row.specs.Json.{member_tokens};
ghost use Rattle.cdm_table.specs.Plans.{IsPlans, IsScenarioLine, refusal_line, refusal_members};
ghost use Rattle.cdm_table.specs.inner.Lines.{HasLinesOf};
ghost use Rattle.cdm_table.specs.inner.OneTable.{one_scenario_line};
ghost use Rattle.cdm_table.specs.inner.OwnRows.{IsOwnRow, json_row};

use crate::answers::push_all;
use crate::json_rows::{flights_text, own_rows};
use crate::own_row::OwnRow;
use cdm_day::{DayState, Records};
use cdm_flight::{Listed, RefusalWord};
use cdm_json::{PlanOf, begin_line, end_line, plan_line_around};
use cdm_phase::{Gate, Job, PhaseName, run_phase};
use cdm_plan::Runner;
use cdm_row::{Rows, push_count, push_text};
use cdm_scenario::{Overlay, Scenario, ScenarioName};
use json::Writer;
use std::alloc::{AllocError, Global};
use std::thread::Threads;

/// How many scenarios are answered at a time.
const AT_ONCE: usize = 16;

/// Writes which update of a scenario is refused, and why.
#[tactic(auto, using(crate::proofs::MemberLemmas::refusal_tokens))]
pub(crate) fn push_refusal(
    writer: &mut Writer<Global>,
    number: usize,
    word: RefusalWord,
) -> Result<(), AllocError>
    ensures tokens { OnOk result (writer.new.tokens ≡ writer.old.tokens ++ flat_map member_tokens (refusal_members number word)) }
    ensures before { writer.new.before ≡ writer.old.before }
{
    push_count(writer, "update", number as u64)?;
    push_text(writer, "word", word.text())
}

// The line of a scenario that is refused.
fn refusal_line(
    alloc: Global,
    scenario: &ScenarioName,
    number: usize,
    word: RefusalWord,
) -> Result<Vec<u8>, AllocError>
    ensures { IfOk result (λ text. text.items ≡ refusal_line scenario.now number word) }
{
    let mut writer = begin_line(alloc, None, "")?;
    push_text(&mut writer, "scenario", scenario.text())?;
    push_refusal(&mut writer, number, word)?;
    end_line(writer)
}

// The line of a scenario over the base, which has these Rows itself.
fn scenario_line(
    alloc: Global,
    base: &DayState,
    own: &[OwnRow],
    scenario: &Scenario,
) -> Result<Vec<u8>, AllocError>
    requires { All (IsOwnRow (json_row base.now.airport.day)) own.now }
    ensures { IfOk result (λ text. IsScenarioLine base.now scenario.now text.items) }
{
    let name = scenario.name();
    match Overlay::after(alloc, base, scenario.updates())? {
        Ok(day) => {
            let plan = day.plan(alloc)?;
            let rows = Rows::of(alloc, &day, &plan)?;
            let date = *base.day();
            let flights = flights_text(alloc, date, &rows, own)?;
            let of = PlanOf::Scenario(*name);
            let line = plan_line_around(alloc, of, date, &plan, &flights, &[])?;
            Ok(line)
        }
        Err((number, word)) => {
            let line = refusal_line(alloc, name, number, word)?;
            Ok(line)
        }
    }
}

// The line of each scenario over the base that they share.
#[derive(Clone, Copy)]
struct PlansJob<'a> {
    base: &'a DayState,
    own: &'a [OwnRow],
}

impl Job for PlansJob<'_> {
    type Item = Scenario;

    type Out = Listed<u8>;

    ghost can_run = { λ job _. IsSound job.base.now × All (IsOwnRow (json_row job.base.now.airport.day)) job.own.now };

    ghost gives = { λ job scenario line. IsScenarioLine job.base.now scenario line };

    ghost phase_name = { Scenarios };

    fn run(&self, alloc: Global, scenario: &Scenario) -> Result<Listed<u8>, AllocError> {
        let line = scenario_line(alloc, self.base, self.own, scenario)?;
        Ok(Listed::new(line))
    }

    fn phase(&self) -> PhaseName {
        PhaseName::Scenarios
    }

    ghost one_value = { λ job scenario x y can a b. one_scenario_line job.base.now can.0.airport.names can.0.names scenario x y a b };
}

// Puts the lines of scenarios behind what is there. Some are answered at a time, so that not all lines wait beside the text.
fn push_scenarios<R: Threads + Sync, G: Gate>(
    text: &mut Vec<u8>,
    alloc: Global,
    job: &PlansJob<'_>,
    scenarios: &[Scenario],
    runner: &Runner<'_, R, G>,
) -> Result<(), AllocError>
    requires sound { IsSound job.now.base.now }
    requires own { All (IsOwnRow (json_row job.now.base.now.airport.day)) job.now.own.now }
    ensures { OnOk result (HasLinesOf job.now.base.now scenarios.now text.old.items text.new.items) }
{
    let (rt, workers, gate) = (runner.rt, runner.workers, runner.gate);
    let mut left = scenarios;
    'scenarios: loop {
        if left.is_empty() {
            return Ok(());
        }
        let (first, others) = left.split_at(left.len().min(AT_ONCE));
        let answers = run_phase(rt, alloc, workers, 1, job, first, gate)?;
        push_all(text, answers)?;
        left = others;
    }
}

/// The plans of a day and of scenarios over it as JSON, one on a line: the day's with the records that were refused, and
/// then, in the order of the file, that of each scenario, or which update of it is refused. Each scenario is
/// answered over the base by one of the workers in phase `Scenarios`, and every scenario is one piece. Only want of
/// memory makes it fail.
pub fn plans_json<R: Threads + Sync, G: Gate>(
    alloc: Global,
    base: &DayState,
    refused: &[(u32, RefusalWord)],
    scenarios: &[Scenario],
    runner: &Runner<'_, R, G>,
) -> Result<Vec<u8>, AllocError>
    ensures plans { IfOk result (λ text. IsPlans base.now refused.now scenarios.now text.items) }
    ensures only { IfOk result (λ text. (other : List ℕ) → IsPlans base.now refused.now scenarios.now other → other ≡ text.items) }
{
    // What the base's records tell is sound, which makes each answer the only one.
    let _values = base.values();
    let day = *base.day();
    let plan = base.plan();
    let rows = Rows::of(alloc, base, plan)?;
    let own = own_rows(alloc, day, &rows)?;
    let flights = flights_text(alloc, day, &rows, &own)?;
    let mut text = plan_line_around(alloc, PlanOf::Day, day, plan, &flights, refused)?;
    let job = PlansJob { base, own: &own };
    push_scenarios(&mut text, alloc, &job, scenarios, runner)?;
    Ok(text)
}
