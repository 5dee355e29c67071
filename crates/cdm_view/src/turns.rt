//! The slots of a runway with the keys of their flights, by which their turns come.
ghost use Rattle.std.specs.Prelude.{◌≡◌, IfOk, map};
ghost use Rattle.cdm_view.specs.Reasons.{slots_on};
ghost use Rattle.cdm_view.specs.Turns.{AreTurns, turn_in};

use crate::slots::sorted_slots;
use cdm_flight::{Key, RunwayName, push_last};
use cdm_plan::Records;
use cdm_sequence::{Plan, Slot};
use std::alloc::{AllocError, Global};

/// A slot, and the key of its flight in the order of sequence, if it has one.
#[derive(Clone, Copy, Debug)]
pub struct Turn {
    pub(crate) slot: Slot,
    pub(crate) key: Option<Key>,
}

/// The slots that a plan has on a runway, by take-off and name, with the keys of their flights. What several flights of
/// the runway wait for is found by one of these.
#[derive(Debug, Drop)]
pub struct Turns<'a> {
    pub(crate) plan: &'a Plan,
    pub(crate) runway: RunwayName,
    pub(crate) items: Vec<Turn>,
}

// The slot with the key of its flight.
fn turn_of<R: Records>(records: &R, slot: &Slot) -> Turn
    ensures { result ≡ turn_in (R.day records.now) slot.now }
{
    let key = match records.flight(slot.name) {
        Some(flight) => flight.key(),
        None => None,
    };
    Turn { slot: *slot, key }
}

// The slots with the keys of their flights.
fn turns_in<R: Records>(alloc: Global, records: &R, slots: &[Slot]) -> Result<Vec<Turn>, AllocError>
    ensures { IfOk result (λ turns. turns.items ≡ map (turn_in (R.day records.now)) slots.now) }
{
    let mut turns = Vec::with_capacity(alloc, slots.len())?;
    for slot in slots {
        push_last(&mut turns, turn_of(records, slot))?;
    }
    Ok(turns)
}

impl<'a> Turns<'a> {
    /// The slots that the plan of a day has on a runway.
    pub fn of<R: Records>(
        alloc: Global,
        records: &R,
        plan: &'a Plan,
        runway: RunwayName,
    ) -> Result<Turns<'a>, AllocError>
        ensures turns { IfOk result (AreTurns (R.day records.now)) }
        ensures plan { IfOk result (λ turns. turns.plan.now ≡ plan.entry.now) }
        ensures runway { IfOk result (λ turns. turns.runway ≡ runway) }
    {
        let items = turns_in(alloc, records, sorted_slots(plan, runway))?;
        Ok(Turns {
            plan,
            runway,
            items,
        })
    }
    /// The runway.
    pub fn runway(&self) -> RunwayName
        ensures { result ≡ self.now.runway }
    {
        self.runway
    }
}
