//! What could help a flight.
ghost use Rattle.std.specs.Prelude.{◌≡◌, All, IfErr, IfOk};
ghost use Rattle.cdm_flight.specs.Journal.{flight_of};
ghost use Rattle.cdm_options.specs.Options.{AreOptions, HasOptions, IsOptionsFault, rule_in};
ghost use Rattle.cdm_options.specs.Tried.{EndsInTime};
ghost use Rattle.cdm_options.specs.declared.options.OptionsFault.TheVariants as fault;
ghost use Rattle.cdm_options.specs.declared.options.Options.{Options as TheOptions};

use crate::effect::{effects_of, minute_in};
use crate::helping::{Helping, best_first, count_refused};
use crate::tried::tried_for;
use cdm_day::{DayState, Records};
use cdm_flight::{Flight, FlightName, Listed, Role, Status};
use cdm_phase::Gate;
use cdm_plan::Runner;
use cdm_report::{Counts, indicators};
use cdm_sequence::{Plan, Rule};
use cdm_time::Minute;
use cdm_view::waits_of;
use std::alloc::{AllocError, Global};
use std::thread::Threads;

/// What could help a flight: each record alone, and what it would do.
#[derive(Debug, Drop)]
pub struct Options {
    /// What is known of the flight.
    pub flight: Flight,
    /// The minute that it is now.
    pub clock: Minute,
    /// The flight's take-off without them, if it has one.
    pub before: Option<Minute>,
    /// The rule that blocks it without them, if one does.
    pub rule: Option<Rule>,
    /// The indicators without them.
    pub counts: Counts,
    /// The records that help, the best first.
    pub helping: Listed<Helping>,
    /// How many were tried.
    pub tried: usize,
    /// How many of these were refused.
    pub refused: usize,
}

/// Why no record is tried.
#[derive(Clone, Copy, PartialEq, Eq, Debug)]
pub enum OptionsFault {
    /// No such flight is known.
    NoFlight(FlightName),
    /// The flight has left its stand, or won't.
    NotPlanned(FlightName, Status),
    /// Want of memory.
    Memory,
}

impl From<AllocError> for OptionsFault {
    ghost from_gives = { λ _ e. e ≡ fault.Memory };

    fn from(_error: AllocError) -> OptionsFault {
        OptionsFault::Memory
    }
}

// The rule that blocks the flight of this name, if one does.
fn rule_in(plan: &Plan, name: FlightName) -> Option<Rule>
    ensures { result ≡ rule_in plan.entry.now name }
{
    let flights = plan.blocked.as_slice();
    let found = flights.iter().find(|flight| flight.name == name);
    match found {
        Some(flight) => Some(flight.rule),
        None => None,
    }
}

// What could help a planned flight.
fn options_for<R: Threads + Sync, G: Gate>(
    alloc: Global,
    base: &DayState,
    flight: &Flight,
    role: Option<Role>,
    runner: &Runner<'_, R, G>,
) -> Result<Options, AllocError>
    ensures { IfOk result (λ options. AreOptions base.now flight.now role options) }
{
    let plan = base.plan();
    let runs = waits_of(alloc, base, plan, flight)?;
    let tried = tried_for(alloc, base, plan, flight, &runs, role)?;
    let effects = effects_of(alloc, base, flight.name, &tried, runner)?;
    let before = minute_in(base, plan, flight.name);
    let helping = best_first(alloc, &before, &tried, &effects)?;
    Ok(Options {
        flight: *flight,
        clock: plan.clock,
        before,
        rule: rule_in(plan, flight.name),
        counts: indicators(plan),
        helping: Listed::new(helping),
        tried: tried.len(),
        refused: count_refused(&effects),
    })
}

/// What could help a planned flight (local profile): each record that is tried alone over the day, and those of them with which
/// it takes off sooner, or at all, the best first. A role leaves those that it may send.
///
/// `NoFlight` where no such flight is known, `NotPlanned` where it has left its stand or is cancelled, and else only `Memory`.
#[tactic(auto, using(crate::proofs::EndLemmas::helping_ends))]
pub fn options_of<R: Threads + Sync, G: Gate>(
    alloc: Global,
    base: &DayState,
    name: FlightName,
    role: Option<Role>,
    runner: &Runner<'_, R, G>,
) -> Result<Options, OptionsFault>
    ensures options { let d = base.now in
        IfOk result (λ options. HasOptions d (flight_of d.airport d.journal name) role options) }
    ensures only { let d = base.now in IfOk result (λ options. (other : TheOptions) →
        HasOptions d (flight_of d.airport d.journal name) role other → other ≡ options) }
    ensures ends { IfOk result (λ options. All (λ h. EndsInTime h.update) options.helping) }
    ensures fault { let d = base.now in IfErr result (IsOptionsFault (flight_of d.airport d.journal name) name) }
{
    // What the base's records tell is sound, which makes the options the only ones.
    let _values = base.values();
    let Some(flight) = base.flight(name) else {
        return Err(OptionsFault::NoFlight(name));
    };
    if flight.status != Status::Planned {
        return Err(OptionsFault::NotPlanned(name, flight.status));
    }
    let options = options_for(alloc, base, flight, role, runner)?;
    Ok(options)
}
