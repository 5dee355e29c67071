//! The records that are tried for a flight.
ghost use Rattle.std.specs.Prelude.{◌≡◌, ◌++◌, ◌∷◌, [], ◌<◌, ◌≤◌, ◌/◌, IfOk, OnOk};
ghost use Rattle.cdm_options.specs.Tried.{all_tried, ctots_tried, is_allowed, is_closure, is_full, is_own, is_rate, meets_cell, on_own, on_runway, openings_tried, opened, priorities_tried, priority_tried, raised, rates_tried, runway_tried, runways_tried, sender_of, tried_by};
ghost use Rattle.cdm_options.specs.Options.{tried_for};

use cdm_day::runway_named;
use cdm_flight::{Cap, Flight, Priority, Role, RunwayName, Update, allows, push_last};
use cdm_plan::Records;
use cdm_runway::Runway;
use cdm_sequence::{Plan, RunwayPlan};
use cdm_time::Bound;
use cdm_view::{Reason, Run, cap_of_cell, cell_count, first_minute};
use std::alloc::{AllocError, Global};

/// How many records are tried at most, whatever their kind (local profile).
const MOST_TRIED: usize = 64;

/// At which minute a window that is tried ends at the latest: a feed's text has no later one on its second day.
const LAST_END: u16 = 2879;

/// How many flights a cell takes at most.
const MOST_FLIGHTS: u16 = 60;

/// How many openings of a runway are tried at most (local profile).
const MOST_OPENINGS: usize = 8;

/// How many rates of a cell are tried at most (local profile).
const MOST_RATES: usize = 16;

/// The role that sends a record that is tried. No other may.
pub fn sender_of(update: &Update) -> Role
    ensures { result ≡ sender_of update.now }
{
    match update {
        Update::Ctot { .. } => Role::NetworkManager,
        _ => Role::AirTrafficControl,
    }
}

// A priority of the flight.
fn push_priority(tried: &mut Vec<Update>, flight: &Flight, number: u16) -> Result<(), AllocError>
    requires { number ≤ 9 }
    ensures { OnOk result (tried.new.items ≡ tried.old.items ++ priority_tried flight.now number ∷ []) }
{
    let priority = Priority::new(number).unwrap();
    push_last(
        tried,
        Update::Prio {
            flight: flight.name,
            priority,
        },
    )
}

// Each smaller priority number, from 0.
fn push_priorities(tried: &mut Vec<Update>, flight: &Flight) -> Result<(), AllocError>
    ensures { OnOk result (tried.new.items ≡ tried.old.items ++ priorities_tried flight.now) }
{
    for number in 0..flight.priority.get() {
        push_priority(tried, flight, number)?;
    }
    Ok(())
}

// Whether the flight is to use the runway.
fn is_own(flight: &Flight, runway: RunwayName) -> bool
    ensures { result ≡ is_own flight.now runway }
{
    match flight.runway {
        Some(own) => own == runway,
        None => false,
    }
}

// The runway of a plan, unless it is the flight's.
fn push_runway(
    tried: &mut Vec<Update>,
    flight: &Flight,
    plan: &RunwayPlan,
) -> Result<(), AllocError>
    ensures { OnOk result (tried.new.items ≡ tried.old.items ++ runway_tried flight.now plan.now) }
{
    let runway = plan.runway;
    if is_own(flight, runway) {
        return Ok(());
    }
    push_last(
        tried,
        Update::Rwy {
            flight: flight.name,
            runway,
        },
    )
}

// Each other runway, by name.
fn push_runways(tried: &mut Vec<Update>, flight: &Flight, plan: &Plan) -> Result<(), AllocError>
    ensures { OnOk result (tried.new.items ≡ tried.old.items ++ runways_tried flight.now plan.entry.now) }
{
    for runway in plan.runways.as_slice() {
        push_runway(tried, flight, runway)?;
    }
    Ok(())
}

// No CTOT any more, if the flight has one.
fn push_ctot(tried: &mut Vec<Update>, flight: &Flight) -> Result<(), AllocError>
    ensures { OnOk result (tried.new.items ≡ tried.old.items ++ ctots_tried flight.now) }
{
    match flight.ctot {
        Some(_) => push_last(
            tried,
            Update::Ctot {
                flight: flight.name,
                ctot: None,
            },
        ),
        None => Ok(()),
    }
}

// Whether the runway is closed.
fn is_closure(reason: &Reason) -> bool
    ensures { result ≡ is_closure reason.now }
{
    matches!(reason, Reason::Closure)
}

// Whether the cell is full.
fn is_rate(reason: &Reason) -> bool
    ensures { result ≡ is_rate reason.now }
{
    matches!(reason, Reason::Rate(..))
}

// The opening of a run of minutes, if the runway is closed at them.
fn push_opening(found: &mut Vec<Update>, runway: RunwayName, run: &Run) -> Result<(), AllocError>
    ensures { OnOk result (found.new.items ≡ found.old.items ++ opened runway run.now) }
{
    if !is_closure(&run.reason) || run.first.get() >= LAST_END {
        return Ok(());
    }
    let end = (run.last.get() + 1).min(LAST_END);
    let to = Bound::new(end).unwrap();
    push_last(
        found,
        Update::Reopen {
            runway,
            from: run.first,
            to,
        },
    )
}

// The openings of the first runs of minutes at which the runway is closed.
fn openings(alloc: Global, runway: RunwayName, runs: &[Run]) -> Result<Vec<Update>, AllocError>
    ensures { IfOk result (λ found. found.items ≡ openings_tried runway runs.now) }
{
    let mut found = Vec::new(alloc);
    for run in runs {
        push_opening(&mut found, runway, run)?;
    }
    found.truncate(MOST_OPENINGS);
    Ok(found)
}

// Whether a minute of the run is in the cell, which is full at it.
fn meets_cell(run: &Run, from: u16, to: u16) -> bool
    ensures { result ≡ meets_cell from to run.now }
{
    is_rate(&run.reason) && run.first.get() < to && from <= run.last.get()
}

// Whether the flight's cell is full at one of these minutes.
fn is_full(runs: &[Run], from: u16, to: u16) -> bool
    ensures { result ≡ is_full runs.now from to }
{
    runs.iter().any(|run| meets_cell(run, from, to))
}

// One more flight in the cell, if it is full.
fn push_rate(
    found: &mut Vec<Update>,
    runway: &Runway,
    runs: &[Run],
    cell: u16,
) -> Result<(), AllocError>
    requires { cell < 2880 / runway.now.cell }
    ensures { OnOk result (found.new.items ≡ found.old.items ++ raised runway.now runs.now cell) }
{
    let from = first_minute(runway, cell);
    let end = from.get() + runway.cell().get();
    let cap = cap_of_cell(runway, cell);
    if end > LAST_END || cap >= MOST_FLIGHTS || !is_full(runs, from.get(), end) {
        return Ok(());
    }
    let to = Bound::new(end).unwrap();
    let cap = Cap::new(cap + 1).unwrap();
    push_last(
        found,
        Update::Rate {
            runway: runway.name(),
            from,
            to,
            cap,
        },
    )
}

// One more flight in each of the first cells that are full.
fn rates(alloc: Global, runway: &Runway, runs: &[Run]) -> Result<Vec<Update>, AllocError>
    ensures { IfOk result (λ found. found.items ≡ rates_tried runway.now runs.now) }
{
    let mut found = Vec::new(alloc);
    for cell in 0..cell_count(runway) {
        push_rate(&mut found, runway, runs, cell)?;
    }
    found.truncate(MOST_RATES);
    Ok(found)
}

// What is tried on the flight's runway.
fn push_on_runway(tried: &mut Vec<Update>, runway: &Runway, runs: &[Run]) -> Result<(), AllocError>
    ensures { OnOk result (tried.new.items ≡ tried.old.items ++ on_runway runs.now runway.now) }
{
    let alloc = *tried.allocator();
    tried.extend_from_slice(&openings(alloc, runway.name(), runs)?)?;
    tried.extend_from_slice(&rates(alloc, runway, runs)?)?;
    Ok(())
}

// What is tried on the flight's runway, if it has one.
fn push_on_own<R: Records>(
    tried: &mut Vec<Update>,
    records: &R,
    flight: &Flight,
    runs: &[Run],
) -> Result<(), AllocError>
    ensures { OnOk result (tried.new.items ≡ tried.old.items ++ on_own (R.day records.now) flight.now runs.now) }
{
    let Some(name) = flight.runway else {
        return Ok(());
    };
    match runway_named(records, name) {
        Some(runway) => push_on_runway(tried, runway, runs),
        None => Ok(()),
    }
}

// All records that are tried for a planned flight that waits for these runs of minutes.
#[tactic(auto, unfolding(crate::specs::Tried::all_tried))]
fn all_tried<R: Records>(
    alloc: Global,
    records: &R,
    plan: &Plan,
    flight: &Flight,
    runs: &[Run],
) -> Result<Vec<Update>, AllocError>
    ensures { IfOk result (λ tried. tried.items ≡ all_tried (R.day records.now) plan.entry.now flight.now runs.now) }
{
    let mut tried = Vec::new(alloc);
    push_priorities(&mut tried, flight)?;
    push_runways(&mut tried, flight, plan)?;
    push_ctot(&mut tried, flight)?;
    push_on_own(&mut tried, records, flight, runs)?;
    tried.truncate(MOST_TRIED);
    Ok(tried)
}

// Whether the role that is asked for, if one is, may send the record.
fn is_allowed(role: Option<Role>, update: &Update) -> bool
    ensures { result ≡ is_allowed role update.now }
{
    match role {
        Some(role) => allows(role, update),
        None => true,
    }
}

// Those of the records that the role may send, or all, where none is asked for.
fn tried_by(
    alloc: Global,
    role: Option<Role>,
    updates: &[Update],
) -> Result<Vec<Update>, AllocError>
    ensures { IfOk result (λ tried. tried.items ≡ tried_by role updates.now) }
{
    let mut tried = Vec::new(alloc);
    for update in updates {
        if is_allowed(role, update) {
            push_last(&mut tried, *update)?;
        }
    }
    Ok(tried)
}

/// The records that are tried for a planned flight that waits for these runs of minutes, of which a role that is asked for may send
/// these.
pub(crate) fn tried_for<R: Records>(
    alloc: Global,
    records: &R,
    plan: &Plan,
    flight: &Flight,
    runs: &[Run],
    role: Option<Role>,
) -> Result<Vec<Update>, AllocError>
    ensures { IfOk result (λ tried. tried.items ≡ tried_for (R.day records.now) plan.entry.now flight.now runs.now role) }
{
    let all = all_tried(alloc, records, plan, flight, runs)?;
    tried_by(alloc, role, &all)
}
