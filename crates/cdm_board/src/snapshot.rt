//! What a look answers.
ghost use Rattle.std.specs.Prelude.{◌≡◌, List, IfOk};
ghost use Rattle.std.specs.List.{AllZip};
ghost use Rattle.cdm_scenario.specs.declared.outcome.Outcome.{Outcome as AnOutcome};
ghost use Rattle.cdm_scenario.specs.Outcome.{IsOutcome};

use cdm_day::DayState;
use cdm_phase::{Gate, Workers};
use cdm_scenario::{Outcome, Scenario, answer_all};
use std::alloc::{AllocError, Global};
use std::marker::Model;
use std::thread::Threads;

/// The day as it was when a desk looked. It shares its parts with the board's.
#[derive(Drop)]
pub struct Snapshot {
    pub(crate) state: DayState,
}

impl Model for Snapshot {
    ghost use Rattle.std.specs.Coded.{codes};
    ghost use Rattle.cdm_day.specs.inner.AirportCode.{airport_code};
    ghost use Rattle.cdm_plan.specs.Day.{DayRecord};

    ghost Value = { DayRecord };

    ghost coded = { Prim.hlevel (codes, airport_code) };

    ghost view = { λ s. s.state };
}

impl Snapshot {
    /// The day with its journal and its plan.
    pub fn state(&self) -> &DayState
        ensures { result.now ≡ self.now }
    {
        &self.state
    }
}

/// What becomes of the day of the snapshot by each scenario, in their order and by so many workers,
/// whatever is posted meanwhile. The scenarios have no other answers.
pub fn what_if<R: Threads + Sync, G: Gate>(
    rt: &R,
    alloc: Global,
    snapshot: &Snapshot,
    scenarios: &[Scenario],
    workers: Workers,
    gate: &G,
) -> Result<Vec<Outcome>, AllocError>
    ensures of_day { IfOk result (λ outcomes.
        AllZip (λ scenario outcome. IsOutcome snapshot.now scenario.updates outcome) scenarios.now outcomes.items) }
    ensures only { IfOk result (λ outcomes. (others : List AnOutcome) →
        AllZip (λ scenario outcome. IsOutcome snapshot.now scenario.updates outcome) scenarios.now others → others ≡ outcomes.items) }
{
    answer_all(rt, alloc, snapshot.state(), scenarios, workers, gate)
}
