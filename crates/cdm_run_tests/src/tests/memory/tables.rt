//! Tables of a day.
use super::readers::airport_of;
use super::runs::{AIRPORT, FEED};
use cdm_day::{Airport, DayState};
use cdm_feed::{FileFault, read_scenarios};
use cdm_journal::read_journal;
use cdm_phase::{OpenGate, Workers};
use cdm_plan::Runner;
use cdm_scenario::{Scenario, ScenarioName};
use cdm_table::{Table, TableFault, tabulate};
use std::alloc::Global;
use std::test::Fail;
use std::thread::Threads;

const SCENARIO: &[u8] = b"SCENARIO,SHUT\nCLOSE,27L,2025-03-10T06:10Z,2025-03-10T06:30Z\n";

const ROWS: &str = "\
scenario,flight,status,runway,stand,priority,group,tobt,exot,ctot,tsat,ttot,delay,rule
,AB1,PLANNED,27L,,5,M,2025-03-10T06:00Z,15,,2025-03-10T06:00Z,2025-03-10T06:15Z,0,
,AB2,PLANNED,27L,,5,M,2025-03-10T06:00Z,15,,2025-03-10T06:00Z,2025-03-10T06:15Z,0,
,AB3,PLANNED,27L,,5,M,2025-03-10T06:00Z,15,,2025-03-10T06:05Z,2025-03-10T06:20Z,5,
SHUT,AB1,PLANNED,27L,,5,M,2025-03-10T06:00Z,15,,2025-03-10T06:15Z,2025-03-10T06:30Z,15,
SHUT,AB2,PLANNED,27L,,5,M,2025-03-10T06:00Z,15,,2025-03-10T06:15Z,2025-03-10T06:30Z,15,
SHUT,AB3,PLANNED,27L,,5,M,2025-03-10T06:00Z,15,,2025-03-10T06:25Z,2025-03-10T06:40Z,25,
";

const COMPARED: &str = "\
SCENARIO         PLACED  DELAY   MAX  LATE BLOCKED  MOVED
-                     3      5     5     0       0      0
SHUT                  3     55    25     1       0      3
- SLOT 27L AB1     100600   15 ------ 100600 100615 P    0
+ SLOT 27L AB1     100600   15 ------ 100615 100630 P   15
- SLOT 27L AB2     100600   15 ------ 100600 100615 P    0
+ SLOT 27L AB2     100600   15 ------ 100615 100630 P   15
- SLOT 27L AB3     100600   15 ------ 100605 100620 P    5
+ SLOT 27L AB3     100600   15 ------ 100625 100640 P   25
";

// The day of three flights, whose airport goes with it.
fn day_of<R: Threads + Sync>(
    rt: &R,
    alloc: Global,
    airport: &Airport,
) -> Result<DayState, FileFault> {
    let workers = Workers::new(1).unwrap();
    let airport = airport.copy(alloc)?;
    read_journal(rt, alloc, airport, FEED.as_bytes(), workers, &OpenGate)
}

// The scenarios of a file.
fn scenarios_of(alloc: Global, airport: &Airport) -> Result<Vec<Scenario>, FileFault> {
    again!(
        read_scenarios(alloc, airport.day(), SCENARIO),
        FileFault::Memory
    )
}

// The text of a table.
fn text_of<R: Threads + Sync>(
    rt: &R,
    alloc: Global,
    base: &DayState,
    scenarios: &[Scenario],
    table: &Table,
    workers: &Workers,
) -> Result<Vec<u8>, TableFault> {
    let runner = Runner {
        rt,
        workers: *workers,
        gate: &OpenGate,
    };
    tabulate(alloc, base, scenarios, *table, &runner)
}

/// Rows and a comparison of a day and a scenario over it, by one worker and by two.
#[test]
fn refused_memory_in_tables(rt: HostRuntime) -> Result<(), Fail> {
    let alloc = rt.alloc();
    let airport = airport_of(alloc, AIRPORT.as_bytes()).map_err(|_| "no airport")?;
    let base = again!(day_of(&rt, alloc, &airport), FileFault::Memory);
    let base = base.map_err(|_| "no day")?;
    let scenarios = scenarios_of(alloc, &airport).map_err(|_| "no scenario")?;
    let name = ScenarioName::new(b"SHUT").ok_or("no name")?;
    for (table, count, wanted) in [
        (Table::Csv, 1, ROWS),
        (Table::Csv, 2, ROWS),
        (Table::Comparison(Some(name)), 2, COMPARED),
    ] {
        let workers = Workers::new(count).ok_or("no workers")?;
        let text = again!(
            text_of(&rt, alloc, &base, &scenarios, &table, &workers),
            TableFault::Memory
        );
        let text = text.map_err(|_| "no table")?;
        assert_eq!(rt; text.as_slice(), wanted.as_bytes(), "{count} workers");
    }
    assert_eq!(rt; base.journal().len(), 9);
    Ok(())
}
