//! What planned flights could have.
ghost use Rattle.std.specs.Prelude.{◌≡◌, true, IfOk};
ghost use Rattle.std.specs.List.{filter_map};
ghost use Rattle.cdm_flight.specs.Record.{is_planned};
ghost use Rattle.cdm_plan.specs.Planning.{blocked_in};
ghost use Rattle.cdm_plan.specs.inner.Aimed.{IsAimedBy, early_among, target_for};

use cdm_flight::{DayValues, Flight, FlightName, RunwayName};
use cdm_sequence::{AimResult, BlockedFlight, Target, aim_by};
use std::alloc::{AllocError, Global};

/// A planned flight that is asked what it could have, with its taxi-out time to its runway.
#[derive(Clone, Copy)]
pub(crate) struct Asked<'a> {
    pub(crate) flight: &'a Flight,
    pub(crate) exot: Option<u16>,
}

// A planned flight and what it could have.
#[derive(Clone, Copy, PartialEq, Eq)]
pub(crate) struct Aimed {
    pub(crate) name: FlightName,
    pub(crate) aim: AimResult,
}

/// A planned flight with what it could have.
pub(crate) fn aimed_of(asked: &Asked, values: DayValues) -> Aimed
    requires { is_planned asked.now.flight.now.status ≡ true }
    ensures { IsAimedBy values asked.now.flight.now asked.now.exot result }
{
    let flight = asked.flight;
    Aimed {
        name: flight.name,
        aim: aim_by(flight, asked.exot, values),
    }
}

// The flight's target, if it has one on the runway.
fn target_on(aimed: &Aimed, runway: RunwayName) -> Option<Target>
    ensures { result ≡ target_for runway aimed.now }
{
    match aimed.aim {
        AimResult::Ready(target) if target.runway == runway => Some(target),
        AimResult::Ready(_) | AimResult::Early(_) => None,
    }
}

/// The targets of a runway, in order.
pub(crate) fn targets_on_runway(
    alloc: Global,
    runway: RunwayName,
    aims: &[Aimed],
) -> Result<Vec<Target>, AllocError>
    ensures { IfOk result (λ v. v.items ≡ filter_map (target_for runway) aims.now) }
{
    aims.iter()
        .filter_map(|aimed| target_on(aimed, runway))
        .collect(alloc)
}

// The flight, if it is blocked before the traffic of its runway is asked.
fn blocked_by(aimed: &Aimed) -> Option<BlockedFlight>
    ensures { result ≡ blocked_in aimed.now.name aimed.now.aim }
{
    match aimed.aim {
        AimResult::Early(rule) => Some(BlockedFlight {
            name: aimed.name,
            rule,
        }),
        AimResult::Ready(_) => None,
    }
}

/// The flights that are blocked before the traffic of their runway is asked, in order.
pub(crate) fn blocked(alloc: Global, aims: &[Aimed]) -> Result<Vec<BlockedFlight>, AllocError>
    ensures { IfOk result (λ v. v.items ≡ early_among aims.now) }
{
    aims.iter().filter_map(blocked_by).collect(alloc)
}
