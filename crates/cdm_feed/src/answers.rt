//! What is written of scenarios.
ghost use Rattle.std.specs.Prelude.{◌≡◌, ◌++◌, ℕ, List, [], ◌∷◌, All, codes, IfOk, OnOk};
ghost use Rattle.std.specs.List.{AllZip, concat};
ghost use Rattle.cdm_phase.specs.declared.job.PhaseName.TheVariants.{Scenarios};
ghost use Rattle.cdm_report.specs.Made.{AreLines};
ghost use Rattle.cdm_report.specs.Report.{line_end};
ghost use Rattle.cdm_plan.specs.Sound.{IsSound};
ghost use Rattle.cdm_feed.specs.Answers.{IsAnswer, outcome_text};
ghost use Rattle.cdm_feed.specs.inner.OneAnswer.{one_answer};

use cdm_day::{DayState, Records};
use cdm_files::Lent;
use cdm_flight::Listed;
use cdm_phase::{Gate, Job, PhaseName, run_phase};
use cdm_report::{Counts, RunwayLines, delta_text, refused_text, report_over};
use cdm_scenario::{Outcome, Scenario, ScenarioName, answer};
use cdm_time::Day;
use std::alloc::{AllocError, Global};
use std::thread::Threads;

/// What is told of the base: its indicators, and the lines of its runways.
#[derive(Clone, Copy)]
pub(crate) struct BaseTold<'a> {
    pub(crate) counts: Counts,
    pub(crate) made: &'a [RunwayLines<'a>],
}

// The line that names a scenario.
fn scenario_line(alloc: Global, name: &ScenarioName) -> Result<Vec<u8>, AllocError>
    ensures { IfOk result (λ text. text.items ≡ concat (codes "SCENARIO " ∷ name.now ∷ line_end ∷ [])) }
{
    let mut text = Vec::from_slice(alloc, b"SCENARIO ")?;
    text.extend_from_slice(name.bytes())?;
    text.extend_from_slice(b"\n")?;
    Ok(text)
}

// What becomes of a day, beside what is told of the day itself.
#[tactic(auto, unfolding(crate::specs::Answers::outcome_text))]
fn outcome_text(
    alloc: Global,
    day: &Day,
    base: &BaseTold<'_>,
    outcome: &Outcome,
) -> Result<Vec<u8>, AllocError>
    requires { All (AreLines day.now) base.now.made.now }
    ensures { IfOk result (λ text. text.items ≡ outcome_text day.now base.now.counts outcome.now) }
{
    match outcome {
        Outcome::Planned(plan, counts) => {
            let mut text = report_over(alloc, day, plan, &[], base.made)?;
            let delta = delta_text(alloc, &base.counts, counts)?;
            text.extend_from_slice(&delta)?;
            Ok(text)
        }
        Outcome::Refused(number, word) => refused_text(alloc, *number, *word),
    }
}

// What is written of a scenario over a day of which this is told.
fn answer_text(
    alloc: Global,
    base: &DayState,
    told: &BaseTold<'_>,
    scenario: &Scenario,
) -> Result<Vec<u8>, AllocError>
    requires { All (AreLines base.now.airport.day) told.now.made.now }
    ensures { IfOk result (λ text. IsAnswer base.now told.now.counts scenario.now text.items) }
{
    let outcome = answer(alloc, base, scenario)?;
    let mut text = scenario_line(alloc, scenario.name())?;
    let rest = outcome_text(alloc, base.day(), told, &outcome)?;
    text.extend_from_slice(&rest)?;
    Ok(text)
}

// What is written of each scenario over the base that they share.
#[derive(Clone, Copy)]
struct TextJob<'a> {
    base: &'a DayState,
    told: BaseTold<'a>,
}

impl Job for TextJob<'_> {
    type Item = Scenario;

    type Out = Listed<u8>;

    ghost can_run = { λ job _. IsSound job.base.now × All (AreLines job.base.now.airport.day) job.told.made.now };

    ghost gives = { λ job scenario text. IsAnswer job.base.now job.told.counts scenario text };

    ghost phase_name = { Scenarios };

    fn run(&self, alloc: Global, scenario: &Scenario) -> Result<Listed<u8>, AllocError> {
        let text = answer_text(alloc, self.base, &self.told, scenario)?;
        Ok(Listed::new(text))
    }

    fn phase(&self) -> PhaseName {
        PhaseName::Scenarios
    }

    ghost one_value = { λ job scenario x y sound a b. one_answer job.base.now job.told.counts scenario sound.0.airport.names sound.0.names x y a b };
}

// How many bytes the texts have together.
fn bytes_of(texts: &[Listed<u8>]) -> usize {
    let mut bytes: usize = 0;
    for text in texts {
        bytes = bytes.saturating_add(text.as_slice().len());
    }
    bytes
}

// Puts the texts behind what is there, one after another. There is room for all of them at once, so no copy of the first
// ones stays behind in memory.
fn push_all(text: &mut Vec<u8>, answers: &[Listed<u8>]) -> Result<(), AllocError>
    ensures { OnOk result (text.new.items ≡ text.old.items ++ concat answers.now) }
{
    text.reserve_exact(bytes_of(answers))?;
    for answer in answers {
        text.extend_from_slice(answer.as_slice())?;
    }
    Ok(())
}

/// Puts what is written of each scenario behind the text, in the order of the scenarios: its name, and
/// the report and the growth of the indicators, or the first update that is refused. Each scenario is
/// answered over the base, of which `told` is told, by one of the workers in phase `Scenarios`, and
/// every scenario is one piece. A runway that a scenario leaves as it is gets the base's lines. No plan of a
/// scenario is kept longer than its text is made.
pub(crate) fn push_answers<R: Threads + Sync, G: Gate>(
    lent: &Lent<'_, R, G>,
    base: &DayState,
    told: &BaseTold<'_>,
    scenarios: &[Scenario],
    text: &mut Vec<u8>,
) -> Result<(), AllocError>
    requires { All (AreLines base.now.airport.day) told.now.made.now }
    ensures { OnOk result ((answers : List (List ℕ))
        × AllZip (IsAnswer base.now told.now.counts) scenarios.now answers
        × (text.new.items ≡ text.old.items ++ concat answers)) }
{
    // What the base's records tell is sound, which makes each answer the only one.
    let _values = base.values();
    let job = TextJob { base, told: *told };
    let answers = run_phase(
        lent.rt,
        lent.alloc,
        lent.workers,
        1,
        &job,
        scenarios,
        lent.gate,
    )?;
    push_all(text, &answers)
}
