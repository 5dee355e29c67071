//! Tables over a day and its scenarios.
ghost use Rattle.std.specs.Prelude.{◌≡◌, ℕ, List, None, Some, IfErr, IfOk, OnOk};
ghost use Rattle.std.specs.Option.{option_copied};
ghost use Rattle.cdm_table.specs.Steps.{steps_of};
ghost use Rattle.cdm_table.specs.Tables.{IsAsked, IsFaultOf, IsLaidIf, IsNameFault, IsStepFault, IsTable, IsTableFault, asked_day, asked_of, day_by, named_as_day, unknown_in};
ghost use Rattle.cdm_table.specs.inner.Refusals.{IsRefusedOr};
ghost use Rattle.cdm_table.specs.declared.table.TableFault.TheVariants as fault;

use crate::comparison::comparison;
use crate::comparison_json::comparison_json;
use crate::csv_rows::csv;
use crate::each::{Each, steps_of};
use crate::line_rows::comparison_csv;
use crate::sweep::sweep;
use crate::sweep_json::sweep_json;
use cdm_day::{DayState, Records};
use cdm_flight::{Listed, RefusalWord};
use cdm_phase::Gate;
use cdm_plan::Runner;
use cdm_scenario::{Overlay, Scenario, ScenarioName, scenario_named};
use cdm_time::Minute;
use std::alloc::{AllocError, Global};
use std::thread::Threads;

/// What is told of a day and its scenarios.
#[derive(Clone, Copy, PartialEq, Eq, Debug)]
pub enum Table {
    /// Each flight's row, of the day and of each scenario, as CSV.
    Csv,
    /// A line for the day and for each scenario, the best first, and then what changes by the scenario of
    /// this name, if one is asked for.
    Comparison(Option<ScenarioName>),
    /// A row for the day and for each scenario, the best first, as CSV. A scenario that is refused has no numbers.
    ComparisonCsv,
    /// A line of JSON for the day and for each scenario, the best first, and then one for each flight that stands
    /// otherwise by the scenario of this name, if one is asked for, with its Rows before and after.
    ComparisonJson(Option<ScenarioName>),
    /// A line for the day and for each scenario at each of these steps, the best first.
    Sweep(Each),
    /// The same as lines of JSON.
    SweepJson(Each),
}

/// Why there is no table.
#[derive(Clone, Copy, PartialEq, Eq, Debug)]
pub enum TableFault {
    /// The record of this number, from 1, gives a scenario the name that a comparison has for the day itself.
    NamedAsDay(usize),
    /// There is no scenario of this name.
    NoScenario(ScenarioName),
    /// FROM or TO isn't a time of the airport's two days.
    OtherDay,
    /// An update of the scenario of this name is refused: the first of them, by its number from 1, and the word that refuses it.
    Refused(ScenarioName, usize, RefusalWord),
    /// Want of memory.
    Memory,
}

impl From<AllocError> for TableFault {
    ghost from_gives = { λ _ e. e ≡ fault.Memory };

    fn from(_error: AllocError) -> TableFault {
        TableFault::Memory
    }
}

// No scenario has the name that a comparison has for the day itself.
#[tactic(auto, unfolding(crate::specs::Tables::named_as_day))]
fn check_names(scenarios: &[Scenario]) -> Result<(), TableFault>
    ensures free { OnOk result (named_as_day 1 scenarios.now ≡ None) }
    ensures fault { IfErr result (IsNameFault scenarios.now) }
{
    let mut number: usize = 1;
    for scenario in scenarios {
        if scenario.name().bytes() == b"-".as_slice() {
            return Err(TableFault::NamedAsDay(number));
        }
        let records = 1 + scenario.updates().len();
        number = number.checked_add(records).ok_or(TableFault::Memory)?;
    }
    Ok(())
}

// The scenario of this name, if one is asked for.
fn asked_of(
    scenarios: &[Scenario],
    asked: Option<ScenarioName>,
) -> Result<Option<&Scenario>, TableFault>
    ensures asked { IfOk result (λ scenario. option_copied scenario ≡ asked_of scenarios.now asked) }
    ensures known { OnOk result (unknown_in scenarios.now asked ≡ None) }
    ensures fault { IfErr result (λ fault. (name : List ℕ) × (fault ≡ TableFault.NoScenario name) × (unknown_in scenarios.now asked ≡ Some name)) }
{
    let Some(name) = asked else {
        return Ok(None);
    };
    match scenario_named(scenarios, name) {
        Some(scenario) => Ok(Some(scenario)),
        None => Err(TableFault::NoScenario(name)),
    }
}

// The day with all updates of a scenario.
fn day_by<'a>(
    alloc: Global,
    base: &'a DayState,
    scenario: &Scenario,
) -> Result<Overlay<'a>, TableFault>
    ensures day { IfOk result (λ day. day ≡ day_by base.now scenario.now) }
    ensures laid { OnOk result (IsLaidIf base.now (Some scenario.now)) }
    ensures fault { IfErr result (IsRefusedOr base.now scenario.now) }
{
    match Overlay::after(alloc, base, scenario.updates())? {
        Ok(day) => Ok(day),
        Err((number, word)) => Err(TableFault::Refused(*scenario.name(), number, word)),
    }
}

// The day with all updates of the scenario of this name, if one is asked for.
fn asked_day<'a>(
    alloc: Global,
    base: &'a DayState,
    scenarios: &[Scenario],
    asked: Option<ScenarioName>,
) -> Result<Option<Overlay<'a>>, TableFault>
    ensures day { IfOk result (λ day. day ≡ asked_day base.now scenarios.now asked) }
    ensures named { OnOk result (named_as_day 1 scenarios.now ≡ None) }
    ensures asked { OnOk result (IsAsked base.now scenarios.now asked) }
    ensures fault { IfErr result (IsFaultOf base.now scenarios.now asked) }
{
    let scenario = asked_of(scenarios, asked)?;
    check_names(scenarios)?;
    match scenario {
        Some(scenario) => Ok(Some(day_by(alloc, base, scenario)?)),
        None => Ok(None),
    }
}

// The steps as minutes of the day.
fn asked_steps(
    alloc: Global,
    base: &DayState,
    scenarios: &[Scenario],
    each: &Each,
) -> Result<Listed<Minute>, TableFault>
    ensures steps { IfOk result (λ minutes. steps_of base.now.airport.day each.now ≡ Some minutes) }
    ensures named { OnOk result (named_as_day 1 scenarios.now ≡ None) }
    ensures fault { IfErr result (IsStepFault base.now scenarios.now each.now) }
{
    let Some(minutes) = steps_of(alloc, *base.day(), each)? else {
        return Err(TableFault::OtherDay);
    };
    check_names(scenarios)?;
    Ok(minutes)
}

/// The table of a day and scenarios over it: as CSV each known flight's row by name, of the day and then of
/// each scenario (`each_flight_has_one_row` of `cdm_row`), or the scenarios side by side, the best first: fewer blocked
/// flights, then less delay, then the order of the file, in which the day itself is first; and behind them
/// those that are refused (local profile), as text, as CSV or as JSON. With steps each scenario of which a time can be moved is tried at
/// each of them, so that its earliest time stands there, and an earlier step comes before a later one. Each scenario is answered over the
/// base, by one of the workers in phase `Scenarios`, and every scenario, or try, is one piece.
///
/// Of a comparison `NoScenario` where none of them has the name that is asked for, `NamedAsDay` where one has the day's name, which is a
/// hyphen, `Refused` where an update of the one that is asked for is refused, `OtherDay` where FROM or TO is a time of another day; and else
/// only `Memory`.
pub fn tabulate<R: Threads + Sync, G: Gate>(
    alloc: Global,
    base: &DayState,
    scenarios: &[Scenario],
    table: Table,
    runner: &Runner<'_, R, G>,
) -> Result<Vec<u8>, TableFault>
    ensures table { IfOk result (λ text. IsTable table base.now scenarios.now text.items) }
    ensures only { IfOk result (λ text. (other : List ℕ) → IsTable table base.now scenarios.now other → other ≡ text.items) }
    ensures fault { IfErr result (IsTableFault base.now scenarios.now table) }
{
    // What the base's records tell is sound, which makes the table the only one.
    let _values = base.values();
    match table {
        Table::Csv => Ok(csv(alloc, base, scenarios, runner)?),
        Table::ComparisonCsv => {
            check_names(scenarios)?;
            Ok(comparison_csv(alloc, base, scenarios, runner)?)
        }
        Table::Comparison(asked) => {
            let day = asked_day(alloc, base, scenarios, asked)?;
            Ok(comparison(alloc, base, scenarios, day.as_ref(), runner)?)
        }
        Table::ComparisonJson(asked) => {
            let day = asked_day(alloc, base, scenarios, asked)?;
            Ok(comparison_json(alloc, base, scenarios, day.as_ref(), runner)?)
        }
        Table::Sweep(each) => {
            let minutes = asked_steps(alloc, base, scenarios, &each)?;
            Ok(sweep(alloc, base, scenarios, minutes.as_slice(), runner)?)
        }
        Table::SweepJson(each) => {
            let minutes = asked_steps(alloc, base, scenarios, &each)?;
            Ok(sweep_json(alloc, base, scenarios, minutes.as_slice(), runner)?)
        }
    }
}
