//! What is asked of a run: the day that its inputs make, and the scenarios over that day.
ghost use Rattle.std.specs.Prelude.{◌≡◌, ◌≤◌, Ok, length, IfOk, IfErr};
ghost use Rattle.cdm_files.specs.AirportFile.{airport_in};
ghost use Rattle.cdm_files.specs.Input.{input_limit};
ghost use Rattle.cdm_files.specs.FeedDay.{day_in, refusals_in};
ghost use Rattle.cdm_files.specs.RunFaults.{IsRecordFault};
ghost use Rattle.cdm_files.specs.ScenarioFile.{scenarios_in};

use crate::airport_file::airport_of;
use crate::common_fault::CommonFault;
use crate::file_fault::FileFault;
use crate::inputs::Inputs;
use crate::judging::{Judged, judge};
use crate::run_error::RunError;
use crate::scenario_file::read_scenarios;
use cdm_day::{Airport, DayState};
use cdm_flight::RefusalWord;
use cdm_phase::{Gate, Workers};
use cdm_scenario::Scenario;
use std::alloc::Global;
use std::thread::Threads;

/// The day that the inputs of a run make, and the scenarios that are asked over it.
#[derive(Drop)]
pub struct AskedDay {
    /// The day of the airport file and the feed.
    pub state: DayState,
    /// The refused records of the feed by their numbers, from 1, each with its word.
    pub refused: Vec<(u32, RefusalWord)>,
    /// The scenarios in the order of their file.
    pub scenarios: Vec<Scenario>,
}

/// The scenarios of the scenario file, which is the third of these inputs. Their airport file says this airport.
///
/// `Scenario`, the first faulty record of the scenario file and its word, and `Memory`.
pub fn scenarios_of(
    alloc: Global,
    airport: &Airport,
    inputs: &Inputs,
) -> Result<Vec<Scenario>, RunError>
    requires { airport_in inputs.now.airport.items ≡ Ok airport.now }
    ensures said { IfOk result (λ scenarios. scenarios_in airport.now.day inputs.now.third.items ≡ Ok scenarios.items) }
    ensures fault { IfErr result (IsRecordFault inputs.now.airport.items inputs.now.third.items) }
{
    match read_scenarios(alloc, airport.day(), &inputs.third) {
        Ok(scenarios) => Ok(scenarios),
        Err(FileFault::Refused(number, word)) => Err(RunError::Scenario(number, word)),
        Err(FileFault::Memory) => Err(RunError::Common(CommonFault::Memory)),
    }
}

/// The day of the airport file and the feed, which is the second of these inputs, judged and planned by so many
/// workers; and the scenarios of the scenario file, which is the third. They depend on the bytes of the inputs
/// alone, whatever the workers and the gate do.
///
/// Faults in their order: `Airport` and `Scenario`, the first faulty record of that file and its word; `Memory`,
/// wherever memory was first refused.
pub fn asked_day<R: Threads + Sync, G: Gate>(
    rt: &R,
    alloc: Global,
    inputs: &Inputs,
    workers: Workers,
    gate: &G,
) -> Result<AskedDay, RunError>
    requires { length inputs.now.second.items ≤ input_limit }
    ensures airport { IfOk result (λ asked. airport_in inputs.now.airport.items ≡ Ok asked.state.airport) }
    ensures state { IfOk result (λ asked. asked.state ≡ day_in asked.state.airport inputs.now.second.items) }
    ensures refused { IfOk result (λ asked. asked.refused.items ≡ refusals_in asked.state.airport inputs.now.second.items) }
    ensures scenarios { IfOk result (λ asked. scenarios_in asked.state.airport.day inputs.now.third.items ≡ Ok asked.scenarios.items) }
    ensures fault { IfErr result (IsRecordFault inputs.now.airport.items inputs.now.third.items) }
{
    let airport = airport_of(alloc, &inputs.airport)?;
    let scenarios = scenarios_of(alloc, &airport, inputs)?;
    let Judged { state, refused, .. } = judge(rt, alloc, airport, &inputs.second, workers, gate)?;
    Ok(AskedDay {
        state,
        refused,
        scenarios,
    })
}
