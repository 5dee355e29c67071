//! The answers to scenarios.
ghost use Rattle.std.specs.Prelude.{◌≡◌, List, IfOk};
ghost use Rattle.std.specs.List.{AllZip};
ghost use Rattle.cdm_phase.specs.declared.job.PhaseName.TheVariants.{Scenarios};
ghost use Rattle.cdm_plan.specs.Sound.{IsSound};
ghost use Rattle.cdm_scenario.specs.declared.outcome.Outcome.{Outcome as AnOutcome};
ghost use Rattle.cdm_scenario.specs.Outcome.{IsOutcome};
ghost use Rattle.cdm_scenario.specs.inner.OneOutcome.{one_outcome};

use crate::{Outcome, Overlay, Scenario};
use cdm_day::{DayState, Records};
use cdm_phase::{Gate, Job, PhaseName, Workers, run_phase};
use cdm_report::indicators;
use std::alloc::{AllocError, Global};
use std::thread::Threads;

/// The plan and the indicators of the day after all updates of the scenario, or the first of them that
/// is refused. The day has no other outcome by them.
pub fn answer(alloc: Global, base: &DayState, scenario: &Scenario) -> Result<Outcome, AllocError>
    ensures of_day { IfOk result (λ outcome. IsOutcome base.now scenario.now.updates outcome) }
    ensures only { IfOk result (λ outcome. (other : AnOutcome) → IsOutcome base.now scenario.now.updates other → other ≡ outcome) }
{
    // What the base's records tell is sound, which makes the answer the only one.
    let _of_base = base.values();
    match Overlay::after(alloc, base, scenario.updates())? {
        Err((number, word)) => Ok(Outcome::Refused(number, word)),
        Ok(day) => {
            let plan = day.plan(alloc)?;
            let counts = indicators(&plan);
            Ok(Outcome::Planned(plan, counts))
        }
    }
}

// The answer to each scenario over the base that they share.
#[derive(Clone, Copy)]
struct AnswerJob<'a> {
    base: &'a DayState,
}

impl Job for AnswerJob<'_> {
    type Item = Scenario;

    type Out = Outcome;

    ghost can_run = { λ job _. IsSound job.base.now };

    ghost gives = { λ job scenario outcome. IsOutcome job.base.now scenario.updates outcome };

    ghost phase_name = { Scenarios };

    fn run(&self, alloc: Global, scenario: &Scenario) -> Result<Outcome, AllocError> {
        answer(alloc, self.base, scenario)
    }

    fn phase(&self) -> PhaseName {
        PhaseName::Scenarios
    }

    ghost one_value = { λ job scenario x y sound a b. one_outcome job.base.now scenario.updates sound.airport.names sound.names x y a b };
}

/// The answers to the scenarios, in their order, by so many workers: each scenario is one piece, and
/// every piece passes the gate once, in phase `Scenarios`. All answers stand on the base as it is, and
/// none on another's updates. The scenarios have no other answers.
pub fn answer_all<R: Threads + Sync, G: Gate>(
    rt: &R,
    alloc: Global,
    base: &DayState,
    scenarios: &[Scenario],
    workers: Workers,
    gate: &G,
) -> Result<Vec<Outcome>, AllocError>
    ensures of_day { IfOk result (λ outcomes.
        AllZip (λ scenario outcome. IsOutcome base.now scenario.updates outcome) scenarios.now outcomes.items) }
    ensures only { IfOk result (λ outcomes. (others : List AnOutcome) →
        AllZip (λ scenario outcome. IsOutcome base.now scenario.updates outcome) scenarios.now others → others ≡ outcomes.items) }
{
    // What the base's records tell is sound, which makes each answer the only one.
    let _values = base.values();
    run_phase(rt, alloc, workers, 1, &AnswerJob { base }, scenarios, gate)
}
