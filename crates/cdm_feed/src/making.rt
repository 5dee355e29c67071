//! Texts, made from complete inputs.
ghost use Rattle.std.specs.Prelude.{◌≡◌, ◌≤◌, List, None, Some, Ok, length, IfErr, IfOk, OnOk};
ghost use Rattle.cdm_flight.specs.Journal.{flight_of};
ghost use Rattle.cdm_files.specs.AirportFile.{airport_in};
ghost use Rattle.cdm_files.specs.FeedDay.{day_in, refusals_in};
ghost use Rattle.cdm_files.specs.Input.{input_limit};
ghost use Rattle.cdm_files.specs.RunFaults.{IsRecordFault};
ghost use Rattle.cdm_files.specs.ScenarioFile.{scenarios_in};
ghost use Rattle.cdm_options_text.specs.Texts.{IsOptionsText};
ghost use Rattle.cdm_picture.specs.Pictures.{IsPicture};
ghost use Rattle.cdm_shift.specs.Warnings.{has_clock};
ghost use Rattle.cdm_table.specs.Tables.{IsTable};
ghost use Rattle.cdm_scenario.specs.Outcome.{IsLaid};
ghost use Rattle.cdm_scenario.specs.Overlay.{with_updates};
ghost use Rattle.cdm_scenario.specs.Scenarios.{ScenarioRecord};
ghost use Rattle.cdm_feed.specs.Made.{IsAskedOf, IsKnown, IsMade, IsPlanIn, IsTraceSince, IsUnmade, IsUntold, IsView, options_error, table_error, view_error};
ghost use Rattle.cdm_feed.specs.Output.{IsReport};
ghost use Rattle.cdm_feed.specs.inner.Over.{IsUntoldOver};

use crate::answers::{BaseTold, push_answers};
use crate::asked::{Asked, DayText};
use crate::counted::Counted;
use crate::runs::RunCounts;
use cdm_carry::{Carried, carried_text};
use cdm_check::{Checked, check_of};
use cdm_day::{Airport, DayState, Records};
use cdm_files::{
    AskedDay, CommonFault, Inputs, Lent, RunError, airport_of, asked_day, scenarios_of,
};
use cdm_flight::{FlightName, RefusalWord, Role, Update};
use cdm_kinds::Format;
use cdm_options::OptionsFault;
use cdm_options_text::options_text;
use cdm_phase::Gate;
use cdm_picture::picture;
use cdm_plan::Runner;
use cdm_report::{indicators, made_lines, report_over};
use cdm_scenario::{Overlay, Scenario, ScenarioName, scenario_named};
use cdm_shift::{Asking, day_answer, has_clock};
use cdm_table::{Table, TableFault, plans_json, tabulate};
use cdm_trace::{Since, Trace, from_minute, trace_of};
use cdm_view::ViewFault;
use std::alloc::{AllocError, Global};
use std::thread::Threads;

/// The text of a run and what it counts.
#[derive(Drop)]
pub(crate) struct Made {
    pub(crate) text: Vec<u8>,
    pub(crate) counted: Counted,
}

// What a plan is made by.
fn runner_of<'a, R: Threads + Sync, G: Gate>(lent: &'a Lent<'_, R, G>) -> Runner<'a, R, G> {
    Runner {
        rt: lent.rt,
        workers: lent.workers,
        gate: lent.gate,
    }
}

// The report of a day, and then the answer to each scenario.
fn report_of<R: Threads + Sync, G: Gate>(
    lent: &Lent<'_, R, G>,
    day: &AskedDay,
) -> Result<Vec<u8>, AllocError>
    ensures { IfOk result (λ text. IsReport day.now.state day.now.refused.items day.now.scenarios.items text.items) }
{
    let state = &day.state;
    let plan = state.plan();
    let made = made_lines(lent.alloc, state.day(), plan.runways.as_slice())?;
    let mut text = report_over(lent.alloc, state.day(), plan, &day.refused, &made)?;
    let told = BaseTold {
        counts: indicators(plan),
        made: &made,
    };
    push_answers(lent, state, &told, &day.scenarios, &mut text)?;
    Ok(text)
}

// The plan of a day and of its scenarios.
fn plan_in<R: Threads + Sync, G: Gate>(
    lent: &Lent<'_, R, G>,
    format: Format,
    day: &AskedDay,
) -> Result<Vec<u8>, AllocError>
    ensures { IfOk result (λ text. IsPlanIn format day.now.state day.now.refused.items day.now.scenarios.items text.items) }
{
    match format {
        Format::Text => report_of(lent, day),
        Format::Json => plans_json(
            lent.alloc,
            &day.state,
            &day.refused,
            &day.scenarios,
            &runner_of(lent),
        ),
    }
}

// Why there is no table, as the error of a run.
fn table_error(fault: TableFault) -> RunError
    ensures { result ≡ table_error fault }
{
    match fault {
        TableFault::NamedAsDay(number) => RunError::Scenario(number, RefusalWord::Exists),
        TableFault::NoScenario(name) => RunError::NoScenario(name),
        TableFault::OtherDay => RunError::OtherDay,
        TableFault::Refused(name, number, word) => RunError::Update(name, number, word),
        TableFault::Memory => RunError::Common(CommonFault::Memory),
    }
}

// A table of a day and its scenarios.
fn table_of<R: Threads + Sync, G: Gate>(
    lent: &Lent<'_, R, G>,
    table: Table,
    day: &AskedDay,
) -> Result<Vec<u8>, RunError>
    ensures made { IfOk result (λ text. IsTable table day.now.state day.now.scenarios.items text.items) }
    ensures fault { IfErr result (IsUntold (DayText.Table table) day.now.state day.now.scenarios.items) }
{
    let AskedDay {
        state,
        scenarios,
        ..
    } = day;
    match tabulate(lent.alloc, state, scenarios, table, &runner_of(lent)) {
        Ok(text) => Ok(text),
        Err(fault) => Err(table_error(fault)),
    }
}

// Why there is no answer, as the error of a run.
fn view_error(fault: ViewFault) -> RunError
    ensures { result ≡ view_error fault }
{
    match fault {
        ViewFault::NoFlight(name) => RunError::NoFlight(name),
        ViewFault::NoRunway(name) => RunError::NoRunway(name),
        ViewFault::Memory => RunError::Common(CommonFault::Memory),
    }
}

// Why nothing could help a flight, as the error of a run.
fn options_error(fault: OptionsFault) -> RunError
    ensures { result ≡ options_error fault }
{
    match fault {
        OptionsFault::NoFlight(name) => RunError::NoFlight(name),
        OptionsFault::NotPlanned(name, status) => RunError::NotPlanned(name, status),
        OptionsFault::Memory => RunError::Common(CommonFault::Memory),
    }
}

// What could help a flight of a day, by records of this role, if one is named.
fn help_of<R: Threads + Sync, G: Gate>(
    lent: &Lent<'_, R, G>,
    name: FlightName,
    role: Option<Role>,
    format: Format,
    day: &AskedDay,
) -> Result<Vec<u8>, RunError>
    ensures made { let d = day.now.state in IfOk result (λ text. IsOptionsText format d (flight_of d.airport d.journal name) role text.items) }
    ensures fault { IfErr result (IsUntold (DayText.Options name role format) day.now.state day.now.scenarios.items) }
{
    match options_text(lent.alloc, format, &day.state, name, role, &runner_of(lent)) {
        Ok(text) => Ok(text),
        Err(fault) => Err(options_error(fault)),
    }
}

// The picture of a day and its scenarios.
fn picture_of<R: Threads + Sync, G: Gate>(
    lent: &Lent<'_, R, G>,
    day: &AskedDay,
) -> Result<Vec<u8>, AllocError>
    ensures { IfOk result (λ text. IsPicture day.now.state day.now.scenarios.items text.items) }
{
    picture(
        lent.rt,
        lent.alloc,
        &day.state,
        &day.scenarios,
        lent.workers,
        lent.gate,
    )
}

// The answer to a question of a day.
fn answer_of_base(alloc: Global, asking: Asking, day: &AskedDay) -> Result<Vec<u8>, RunError>
    ensures made { IfOk result (λ text. IsView asking.format asking.question (IsAskedOf None day.now.state day.now.scenarios.items) text.items) }
    ensures fault { IfErr result (IsUntold (DayText.Answer asking.question None asking.format) day.now.state day.now.scenarios.items) }
{
    let state = &day.state;
    let clocked = has_clock(state.journal());
    match day_answer(alloc, asking, state.airport(), clocked, state, state.plan()) {
        Ok(text) => Ok(text),
        Err(fault) => Err(view_error(fault)),
    }
}

// Whether a CLOCK is among the accepted updates of a day with further ones.
#[tactic(auto, using(crate::proofs::AskedLemmas::clock_after))]
fn has_clock_after(base: &DayState, updates: &[Update]) -> bool
    ensures { result ≡ has_clock (with_updates base.now updates.now).journal }
{
    has_clock(base.journal()) || has_clock(updates)
}

// The answer to a question of a day with all updates of the scenario that was asked for by this name.
fn answer_over(
    alloc: Global,
    asking: Asking,
    base: &DayState,
    name: ScenarioName,
    scenario: &Scenario,
) -> Result<Vec<u8>, RunError>
    ensures made { IfOk result (λ text. IsView asking.format asking.question (IsLaid base.now scenario.now.updates) text.items) }
    ensures fault { IfErr result (IsUntoldOver asking.question base.now name scenario.now) }
{
    match Overlay::after(alloc, base, scenario.updates())? {
        Ok(day) => {
            let plan = day.plan(alloc)?;
            let clocked = has_clock_after(base, scenario.updates());
            match day_answer(alloc, asking, base.airport(), clocked, &day, &plan) {
                Ok(text) => Ok(text),
                Err(fault) => Err(view_error(fault)),
            }
        }
        Err((number, word)) => Err(RunError::Update(name, number, word)),
    }
}

// The answer to a question of a day with all updates of the scenario of this name, if there is one.
fn answer_by(
    alloc: Global,
    asking: Asking,
    base: &DayState,
    scenarios: &[Scenario],
    name: ScenarioName,
) -> Result<Vec<u8>, RunError>
    ensures made { IfOk result (λ text. IsView asking.format asking.question (IsAskedOf (Some name) base.now scenarios.now) text.items) }
    ensures fault { IfErr result (IsUntold (DayText.Answer asking.question (Some name) asking.format) base.now scenarios.now) }
{
    match scenario_named(scenarios, name) {
        Some(scenario) => answer_over(alloc, asking, base, name, scenario),
        None => Err(RunError::NoScenario(name)),
    }
}

// The answer to a question of a day, or of the day with all updates of the scenario of this name.
fn answer_of(
    alloc: Global,
    asking: Asking,
    scenario: Option<ScenarioName>,
    day: &AskedDay,
) -> Result<Vec<u8>, RunError>
    ensures made { IfOk result (λ text. IsView asking.format asking.question (IsAskedOf scenario day.now.state day.now.scenarios.items) text.items) }
    ensures fault { IfErr result (IsUntold (DayText.Answer asking.question scenario asking.format) day.now.state day.now.scenarios.items) }
{
    match scenario {
        None => answer_of_base(alloc, asking, day),
        Some(name) => answer_by(alloc, asking, &day.state, &day.scenarios, name),
    }
}

// The flight that is asked for, if one is, is known to the day.
fn check_known(state: &DayState, asked: Option<FlightName>) -> Result<(), FlightName>
    ensures known { OnOk result (IsKnown asked state.now) }
    ensures unknown { IfErr result (λ name. (asked ≡ Some name) × (flight_of state.now.airport state.now.journal name ≡ None)) }
{
    match asked {
        None => Ok(()),
        Some(name) => match state.flight(name) {
            Some(_) => Ok(()),
            None => Err(name),
        },
    }
}

// What a trace tells of: all records or those that move a flight, from which time on, and in which format.
#[derive(Clone, Copy)]
struct Tracing {
    flight: Option<FlightName>,
    since: Option<Since>,
    format: Format,
}

// What is told of the records of a feed at an airport, and the day that they make. The day is made once, record by record, so
// only its end tells whether it knows the flight.
fn trace_at(alloc: Global, asked: Tracing, airport: Airport, feed: &[u8]) -> Result<Trace, RunError>
    requires { length feed.now ≤ input_limit }
    ensures told { IfOk result (λ trace. IsTraceSince asked.flight asked.since asked.format airport feed.now trace.text.items) }
    ensures day { IfOk result (λ trace. trace.desk ≡ day_in airport feed.now) }
    ensures refused { IfOk result (λ trace. trace.refused ≡ length (refusals_in airport feed.now)) }
    ensures fault { (questions : List ScenarioRecord) → IfErr result
        (IsUntold (DayText.Trace asked.flight asked.since asked.format) (day_in airport feed.now) questions) }
{
    let Ok(from) = from_minute(*airport.day(), asked.since) else {
        return Err(RunError::OtherDay);
    };
    let trace = trace_of(alloc, airport, feed, asked.flight, from, asked.format)?;
    match check_known(trace.desk.state(), asked.flight) {
        Ok(()) => Ok(trace),
        Err(name) => Err(RunError::NoFlight(name)),
    }
}

// What is told of the records of the feed, and what is counted of the day that they make. The airport file is dropped before.
#[tactic(auto, using(crate::proofs::RunLemmas::record_unmade))]
fn made_of_trace(alloc: Global, asked: Tracing, inputs: Inputs) -> Result<Made, RunError>
    requires { length inputs.second.items ≤ input_limit }
    ensures made { IfOk result (λ made. IsMade (Asked.Day (DayText.Trace asked.flight asked.since asked.format)) inputs.airport.items inputs.second.items inputs.third.items made.text.items made.counted) }
    ensures fault { IfErr result (IsUnmade (Asked.Day (DayText.Trace asked.flight asked.since asked.format)) inputs.airport.items inputs.second.items inputs.third.items) }
{
    let airport = airport_of(alloc, &inputs.airport)?;
    let scenarios = scenarios_of(alloc, &airport, &inputs)?;
    let Inputs {
        airport: airport_file,
        second: feed,
        ..
    } = inputs;
    drop(airport_file);
    let Trace {
        text,
        desk,
        refused,
    } = trace_at(alloc, asked, airport, &feed)?;
    let counted = Counted::Day(RunCounts {
        accepted: desk.state().accepted(),
        refused,
        scenarios: scenarios.len(),
    });
    Ok(Made { text, counted })
}

// The day and the scenarios that the inputs make. The inputs are dropped, so what is told of the day has no bytes of theirs
// beside it.
fn day_of_inputs<R: Threads + Sync, G: Gate>(
    lent: &Lent<'_, R, G>,
    inputs: Inputs,
) -> Result<AskedDay, RunError>
    requires { length inputs.second.items ≤ input_limit }
    ensures airport { IfOk result (λ day. airport_in inputs.airport.items ≡ Ok day.state.airport) }
    ensures state { IfOk result (λ day. day.state ≡ day_in day.state.airport inputs.second.items) }
    ensures refused { IfOk result (λ day. day.refused.items ≡ refusals_in day.state.airport inputs.second.items) }
    ensures scenarios { IfOk result (λ day. scenarios_in day.state.airport.day inputs.third.items ≡ Ok day.scenarios.items) }
    ensures fault { IfErr result (IsRecordFault inputs.airport.items inputs.third.items) }
{
    asked_day(lent.rt, lent.alloc, &inputs, lent.workers, lent.gate)
}

// This text of a day, and what is counted of the day.
fn made_with(text: Vec<u8>, day: &AskedDay) -> Made
    ensures text { result.text ≡ text }
    ensures counted { result.counted ≡ Counted.Day (record { accepted = length day.now.state.journal; refused = length day.now.refused.items; scenarios = length day.now.scenarios.items }) }
{
    let counted = Counted::Day(RunCounts {
        accepted: day.state.accepted(),
        refused: day.refused.len(),
        scenarios: day.scenarios.len(),
    });
    Made { text, counted }
}

// What is told of the day and the scenarios that the inputs make.
#[tactic(auto, using(crate::proofs::RunLemmas::record_unmade))]
fn made_of_day<R: Threads + Sync, G: Gate>(
    lent: &Lent<'_, R, G>,
    asked: DayText,
    inputs: Inputs,
) -> Result<Made, RunError>
    requires { length inputs.second.items ≤ input_limit }
    ensures made { IfOk result (λ made. IsMade (Asked.Day asked) inputs.airport.items inputs.second.items inputs.third.items made.text.items made.counted) }
    ensures fault { IfErr result (IsUnmade (Asked.Day asked) inputs.airport.items inputs.second.items inputs.third.items) }
{
    match asked {
        DayText::Trace(flight, since, format) => {
            let asked = Tracing {
                flight,
                since,
                format,
            };
            made_of_trace(lent.alloc, asked, inputs)
        }
        DayText::Plan(format) => {
            let day = day_of_inputs(lent, inputs)?;
            let text = plan_in(lent, format, &day)?;
            Ok(made_with(text, &day))
        }
        DayText::Table(table) => {
            let day = day_of_inputs(lent, inputs)?;
            let text = table_of(lent, table, &day)?;
            Ok(made_with(text, &day))
        }
        DayText::Picture => {
            let day = day_of_inputs(lent, inputs)?;
            let text = picture_of(lent, &day)?;
            Ok(made_with(text, &day))
        }
        DayText::Answer(question, scenario, format) => {
            let day = day_of_inputs(lent, inputs)?;
            let text = answer_of(lent.alloc, Asking { question, format }, scenario, &day)?;
            Ok(made_with(text, &day))
        }
        DayText::Options(name, role, format) => {
            let day = day_of_inputs(lent, inputs)?;
            let text = help_of(lent, name, role, format, &day)?;
            Ok(made_with(text, &day))
        }
    }
}

/// What is asked for, made of whole inputs: an airport file, a feed, and a scenario file or the next airport file.
pub(crate) fn made_of_inputs<R: Threads + Sync, G: Gate>(
    lent: &Lent<'_, R, G>,
    asked: &Asked<'_>,
    inputs: Inputs,
) -> Result<Made, RunError>
    requires second { length inputs.second.items ≤ input_limit }
    requires third { length inputs.third.items ≤ input_limit }
    ensures made { IfOk result (λ made. IsMade asked.now inputs.airport.items inputs.second.items inputs.third.items made.text.items made.counted) }
    ensures fault { IfErr result (IsUnmade asked.now inputs.airport.items inputs.second.items inputs.third.items) }
{
    match asked {
        Asked::Day(text) => made_of_day(lent, *text, inputs),
        Asked::Check(paths, format) => {
            let Checked { text, counts } = check_of(lent, *paths, &inputs, *format)?;
            let counted = Counted::Check(counts);
            Ok(Made { text, counted })
        }
        Asked::Carry(carry) => {
            let Carried { text, needs_care } = carried_text(lent.alloc, *carry, &inputs)?;
            let counted = Counted::Carry { needs_care };
            Ok(Made { text, counted })
        }
    }
}
