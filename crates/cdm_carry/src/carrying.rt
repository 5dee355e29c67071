//! What the next day has of a day.
ghost use Rattle.std.specs.Prelude.{◌≡◌, ◌<◌, [], All, IfOk};
ghost use Rattle.cdm_flight.specs.Accepted.{accepted};
ghost use Rattle.cdm_carry.specs.Carry.{carried_all, carry, taken};
ghost use Rattle.cdm_carry.specs.Texts.{window_end};
ghost use Rattle.cdm_carry.specs.inner.Leaving.{LeaveOnce};

use crate::moving::{goes_on, moved};
use crate::taking::{day_of, take_records};
use cdm_day::Airport;
use cdm_flight::{Role, Update, push_last};
use cdm_scenario::Overlay;
use std::alloc::{AllocError, Global};

// Of the records that a day accepted, those that the next day has, in their order.
fn carried_all(
    alloc: Global,
    day: &Overlay<'_>,
    records: &[(Role, Update)],
) -> Result<Vec<(Role, Update)>, AllocError>
    requires { LeaveOnce day.now.journal }
    ensures value { IfOk result (λ carried. carried.items ≡ carried_all day.now.journal records.now) }
    ensures short { IfOk result (λ carried. All (λ p. window_end p.1 < 2880) carried.items) }
{
    let mut carried = Vec::new(alloc);
    for item in records {
        let (role, update) = *item;
        if goes_on(day, &update) {
            push_last(&mut carried, (role, moved(&update)))?;
        }
    }
    Ok(carried)
}

// What the next day has of the records that an airport accepts.
fn carried_of(
    alloc: Global,
    airport: Airport,
    records: &[(Role, Update)],
) -> Result<Vec<(Role, Update)>, AllocError>
    ensures value { IfOk result (λ carried. carried.items ≡ carried_all (accepted airport [] records.now) (taken airport [] records.now)) }
    ensures short { IfOk result (λ carried. All (λ p. window_end p.1 < 2880) carried.items) }
{
    let first = day_of(alloc, airport)?;
    let mut day = Overlay::over(alloc, &first);
    let taken = take_records(alloc, &mut day, records)?;
    carried_all(alloc, &day, &taken)
}

/// What the next airport has of the records of a day: of those that the airport accepts, each with the role that sent it, the
/// ones that the next day has, as far as the next airport accepts them. The next airport's day is taken to be the one after
/// the airport's. Only want of memory makes it fail.
#[tactic(auto, unfolding(crate::specs::Carry::carry))]
pub fn carry_of(
    alloc: Global,
    airport: Airport,
    records: &[(Role, Update)],
    next: Airport,
) -> Result<Vec<(Role, Update)>, AllocError>
    ensures value { IfOk result (λ carried. carried.items ≡ carry airport records.now next) }
    ensures short { IfOk result (λ carried. All (λ p. window_end p.1 < 2880) carried.items) }
{
    let carried = carried_of(alloc, airport, records)?;
    let first = day_of(alloc, next)?;
    let taken = take_records(alloc, &mut Overlay::over(alloc, &first), &carried)?;
    Ok(taken)
}
