//! Scenario files.
ghost use Rattle.std.specs.Prelude.{◌≡◌, Ok, IfOk, IfErr, OnOk};
ghost use Rattle.csv.specs.Records.{fields_of};
ghost use Rattle.cdm_files.specs.Files.{IsFaultOf};
ghost use Rattle.cdm_files.specs.inner.RecordFaults.{IsRecordFaultOf};
ghost use Rattle.std.specs.List.{list_any};
ghost use Rattle.cdm_flight.specs.Names.{same_name};
ghost use Rattle.cdm_files.specs.Fields.{and_then};
ghost use Rattle.cdm_files.specs.ScenarioFile.{scenarios_in, with_line};
ghost use Rattle.cdm_files.specs.ScenarioRecords.{scenario_line_of};
ghost use Rattle.cdm_files.specs.declared.scenario_record.ScenarioLine.TheVariants.{Begin, Next};

use crate::file_fault::{FileFault, RecordFault};
use crate::record_reader::RecordReader;
use crate::scenario_record::{ScenarioLine, scenario_line};
use cdm_flight::{RefusalWord, Update};
use cdm_scenario::{Scenario, ScenarioFault, ScenarioName};
use cdm_time::Day;
use csv::ByteRecord;
use std::alloc::Global;

/// How many scenarios a file has at most.
const MOST_SCENARIOS: usize = 64;

// Whether one of the scenarios has the name.
fn has_name(scenarios: &[Scenario], name: ScenarioName) -> bool
    ensures { result ≡ list_any (λ s. same_name s.name name) scenarios.now }
{
    scenarios.iter().any(|scenario| *scenario.name() == name)
}

// Begins a scenario behind the others.
#[tactic(auto, unfolding(crate::specs::ScenarioFile::with_line))]
fn begin(
    alloc: Global,
    scenarios: &mut Vec<Scenario>,
    name: ScenarioName,
) -> Result<(), RecordFault>
    ensures begun { OnOk result (with_line scenarios.old.items (Begin name) ≡ Ok scenarios.new.items) }
    ensures refused { IfErr result (IsRecordFaultOf (with_line scenarios.old.items (Begin name))) }
{
    if has_name(scenarios, name) {
        return Err(RecordFault::Refused(RefusalWord::Exists));
    }
    if scenarios.len() >= MOST_SCENARIOS {
        return Err(RecordFault::Refused(RefusalWord::Full));
    }
    match scenarios.push(Scenario::empty(alloc, name)) {
        Ok(()) => Ok(()),
        Err(_) => Err(RecordFault::Memory),
    }
}

// Adds an update to the scenario that began last.
#[tactic(auto, using(std::proofs::lemmas::Option::slice_get_read, std::proofs::lemmas::Option::slice_get_past), unfolding(crate::specs::ScenarioFile::with_line))]
fn add(scenarios: &mut [Scenario], update: Update) -> Result<(), RecordFault>
    ensures added { OnOk result (with_line scenarios.old (Next update) ≡ Ok scenarios.new) }
    ensures refused { IfErr result (IsRecordFaultOf (with_line scenarios.old (Next update))) }
{
    match scenarios.last_mut() {
        Some(scenario) => match scenario.add(update) {
            Ok(()) => Ok(()),
            Err(ScenarioFault::Full) => Err(RecordFault::Refused(RefusalWord::Full)),
            Err(ScenarioFault::Memory) => Err(RecordFault::Memory),
        },
        None => Err(RecordFault::Refused(RefusalWord::Order)),
    }
}

// Takes what one more record of the file says.
#[tactic(auto, unfolding(crate::specs::ScenarioFile::with_line))]
fn add_line(
    alloc: Global,
    scenarios: &mut Vec<Scenario>,
    line: ScenarioLine,
) -> Result<(), RecordFault>
    ensures added { OnOk result (with_line scenarios.old.items line ≡ Ok scenarios.new.items) }
    ensures refused { IfErr result (IsRecordFaultOf (with_line scenarios.old.items line)) }
{
    match line {
        ScenarioLine::Begin(name) => begin(alloc, scenarios, name),
        ScenarioLine::Next(update) => add(scenarios.as_mut_slice(), update),
    }
}

// Takes one more record of the file, as its fields spell it.
fn add_record(
    alloc: Global,
    scenarios: &mut Vec<Scenario>,
    day: Day,
    row: &ByteRecord,
) -> Result<(), RecordFault>
    ensures added { OnOk result (and_then (scenario_line_of day (fields_of row.now)) (with_line scenarios.old.items) ≡ Ok scenarios.new.items) }
    ensures refused { IfErr result (IsRecordFaultOf (and_then (scenario_line_of day (fields_of row.now)) (with_line scenarios.old.items))) }
{
    match scenario_line(day, row) {
        Ok(line) => add_line(alloc, scenarios, line),
        Err(word) => Err(RecordFault::Refused(word)),
    }
}

/// The scenarios of a scenario file, in its order. Records are numbered from 1, and a blank line is
/// none. Times are minutes of the horizon that begins on `day`.
///
/// `Refused` with the number and the word of the first faulty record, the first that holds of Fields,
/// Kind, Text, Range, Exists (a name used before), Order (an update before the first SCENARIO) and Full
/// (a 65th scenario, or a 65th update of one scenario); a file without records has no scenarios (local
/// profile). `Memory` where there is none.
#[tactic(auto, unfolding(crate::specs::ScenarioFile::scenarios_in, crate::specs::Files::after_records))]
pub fn read_scenarios(alloc: Global, day: &Day, text: &[u8]) -> Result<Vec<Scenario>, FileFault>
    ensures said { IfOk result (λ scenarios. scenarios_in day.now text.now ≡ Ok scenarios.items) }
    ensures fault { IfErr result (IsFaultOf (scenarios_in day.now text.now)) }
{
    let mut reader = RecordReader::new(alloc, text);
    let mut row = ByteRecord::new(alloc);
    let mut scenarios = Vec::new(alloc);
    let mut number = 0;
    'records: while reader.read(&mut row)? {
        number += 1;
        match add_record(alloc, &mut scenarios, *day, &row) {
            Ok(()) => {}
            Err(fault) => return Err(fault.at(number)),
        }
    }
    Ok(scenarios)
}
