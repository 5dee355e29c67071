//! What a planned flight waits for.
ghost use Rattle.std.specs.Prelude.{◌≡◌, ◌≤◌, ◌+◌, IfOk, Some, filter, true};
ghost use Rattle.std.specs.Option.{ForSome, option_map_or};
ghost use Rattle.cdm_time.specs.Windows.{is_in_tolerance, window_has};
ghost use Rattle.cdm_flight.specs.Journal.{taxi_of};
ghost use Rattle.cdm_flight.specs.Spacing.{occupancy_of};
ghost use Rattle.cdm_flight.specs.declared.group.Group.{Group};
ghost use Rattle.cdm_runway.specs.Room.{meets, taken_by};
ghost use Rattle.cdm_sequence.specs.Aims.{exot_to};
ghost use Rattle.cdm_view.specs.inner.Earlier.{IsAhead, IsByTakeOff, is_passed, is_taken, met_among, not_passed, taken_slots};
ghost use Rattle.cdm_view.specs.Reasons.{held_at, met_at, names_of, reason_at, waiting_of};
ghost use Rattle.cdm_view.specs.Turns.{AreTurns};

use crate::names::Names;
use crate::reason::Reason;
use crate::turns::{Turn, Turns};
use cdm_day::runway_named;
use cdm_flight::{DayValues, Flight, FlightName, Group, Key, RunwayName, before, push_last};
use cdm_plan::Records;
use cdm_runway::Runway;
use cdm_sequence::{Mark, Slot};
use cdm_time::{Minute, ctot_window};
use std::alloc::{AllocError, Global};
use std::marker::Model;

/// A planned flight with its TOBT and its taxi-out time to its runway, the values of the day, the
/// runway, and the slots on it that are taken when the flight's turn comes.
#[derive(Drop)]
pub struct Waiting<'a> {
    pub(crate) flight: &'a Flight,
    pub(crate) tobt: Minute,
    pub(crate) exot: u16,
    pub(crate) values: DayValues,
    pub(crate) runway: &'a Runway,
    pub(crate) earlier: Vec<Slot>,
}

impl<'a> Model for Waiting<'a> {
    ghost use Rattle.cdm_view.specs.Reasons.{Waiting};

    ghost Value = { Waiting };

    ghost view = { λ w. record {
      flight = w.flight.now;
      tobt = w.tobt;
      exot = w.exot;
      values = w.values;
      rules = w.runway.now;
      earlier = w.earlier.items;
    } };

    ghost use Rattle.cdm_view.specs.inner.Earlier.{KeepsEarlier};

    ghost invariant = { λ w. KeepsEarlier w.exot w.earlier.items };
}

impl Waiting<'_> {
    /// The first minute at which the flight could take off if nothing held it: its TOBT and its taxi-out time.
    pub fn earliest(&self) -> u16
        ensures value { result ≡ self.now.tobt + self.now.exot }
    {
        self.tobt.get() + self.exot
    }

    // Whether the minute is within the tolerance of the flight's CTOT, if it has one.
    pub(crate) fn keeps_ctot(&self, minute: Minute) -> bool
        ensures { result ≡ option_map_or (λ c. is_in_tolerance self.now.values.tolerance c minute) self.now.flight.ctot true }
    {
        let flight = self.flight;
        match flight.ctot {
            Some(ctot) => ctot_window(ctot, self.values.tolerance).contains(minute),
            None => true,
        }
    }

    // Whether the flight would meet that of the slot, if it took off at the minute.
    pub(crate) fn meets(&self, minute: Minute, slot: &Slot) -> bool
        ensures { result ≡ meets (taken_by self.now.rules self.now.flight.group minute) (taken_by self.now.rules slot.now.group slot.now.ttot) }
    {
        let flight = self.flight;
        let (own, other) = (minute.get(), slot.ttot.get());
        let own_end = own + self.runway.occupancy(flight.group).get();
        let other_end = other + self.runway.occupancy(slot.group).get();
        own.max(other) < own_end.min(other_end)
    }

    // The slots at the minutes from one up to another: one part of them, since they stand by take-off.
    fn earlier_in(&self, from: u16, to: u16) -> &[Slot]
        ensures { result.now ≡ filter (λ s. window_has from to s.ttot) self.now.earlier }
    {
        let first = self.earlier.partition_point(|slot| slot.ttot.get() < from);
        let later = &self.earlier[first..];
        let count = later.partition_point(|slot| slot.ttot.get() < to);
        &later[..count]
    }

    // For how many minutes a flight of any group occupies the runway at most.
    fn longest(&self) -> u16
        ensures { (g : Group) → occupancy_of self.now.rules.spacing g ≤ result }
    {
        let light = self.runway.occupancy(Group::Light).get();
        let medium = self.runway.occupancy(Group::Medium).get();
        let heavy = self.runway.occupancy(Group::Heavy).get();
        light.max(medium).max(heavy)
    }

    // The slots near the minute: all those whose flights it would meet, if it took off at it, are among them.
    pub(crate) fn near(&self, minute: Minute) -> &[Slot]
        ensures { met_among self.now minute result.now ≡ met_at self.now minute }
    {
        let flight = self.flight;
        let own = minute.get();
        let end = own + self.runway.occupancy(flight.group).get();
        self.earlier_in(own.saturating_sub(self.longest()), end)
    }

    // Whether the flight of the slot has left the runway by the minute.
    fn is_passed(&self, minute: Minute, slot: &Slot) -> bool
        ensures { result ≡ is_passed self.now minute slot.now }
    {
        let end = slot.ttot.get() + self.runway.occupancy(slot.group).get();
        end <= minute.get()
    }

    // The slots from the first on whose flight hasn't left the runway by the minute.
    pub(crate) fn not_passed<'s>(&self, minute: Minute, slots: &'s [Slot]) -> &'s [Slot]
        ensures { result.now ≡ not_passed self.now minute slots.now }
    {
        let passed = slots
            .iter()
            .take_while(|slot| self.is_passed(minute, slot))
            .count();
        &slots[passed..]
    }

    // The slots up to the first that takes off when the flight has left the runway, if it took off at the minute.
    fn before_end<'s>(&self, minute: Minute, slots: &'s [Slot]) -> &'s [Slot]
        requires { IsByTakeOff slots.now }
        ensures { met_among self.now minute result.now ≡ met_among self.now minute slots.now }
    {
        let flight = self.flight;
        let end = minute.get() + self.runway.occupancy(flight.group).get();
        let count = slots
            .iter()
            .take_while(|slot| slot.ttot.get() < end)
            .count();
        &slots[..count]
    }

    // The flights of the slots that it would meet, if it took off at the minute.
    fn met_among(&self, alloc: Global, minute: Minute, slots: &[Slot]) -> Result<Names, AllocError>
        ensures { IfOk result (λ names. names ≡ names_of (met_among self.now minute slots.now)) }
    {
        let mut names = Names::none(alloc);
        for slot in slots {
            if self.meets(minute, slot) {
                names.push(alloc, slot.name)?;
            }
        }
        Ok(names)
    }

    // The slots in the cell of the minute.
    pub(crate) fn held_at(&self, minute: Minute) -> &[Slot]
        ensures { result.now ≡ held_at self.now minute }
    {
        let cell = self.runway.cell().get();
        let first = minute.get() / cell * cell;
        self.earlier_in(first, first + cell)
    }

    /// Why the flight can't take off at the minute, by the slots that are ahead of it: the first reason that holds.
    #[tactic(auto, unfolding(crate::specs::Reasons::reason_at))]
    pub(crate) fn reason_at(
        &self,
        alloc: Global,
        minute: Minute,
        ahead: &[Slot],
    ) -> Result<Option<Reason>, AllocError>
        requires { IsAhead self.now minute ahead.now }
        ensures { IfOk result (λ reason. reason ≡ reason_at self.now minute) }
    {
        let flight = self.flight;
        let number = minute.get();
        if number < self.tobt.get() + flight.ice.minutes_on_stand() + self.exot {
            return Ok(Some(Reason::Ice));
        }
        if number < self.values.clock.get() + self.exot {
            return Ok(Some(Reason::Now));
        }
        if !self.keeps_ctot(minute) {
            return Ok(Some(Reason::Ctot));
        }
        if self.runway.closed(minute) {
            return Ok(Some(Reason::Closure));
        }
        let met = self.met_among(alloc, minute, self.before_end(minute, ahead))?;
        if !met.as_slice().is_empty() {
            return Ok(Some(Reason::Spacing(met)));
        }
        let cap = self.runway.cap_at(minute);
        let held = self.held_at(minute);
        if usize::from(cap.get()) <= held.len() {
            let names = names_of(alloc, held)?;
            return Ok(Some(Reason::Rate(cap, Names::of(names))));
        }
        Ok(None)
    }
}

// The names of the flights of slots.
fn names_of(alloc: Global, slots: &[Slot]) -> Result<Vec<FlightName>, AllocError>
    ensures { IfOk result (λ names. names.items ≡ names_of slots.now) }
{
    slots.iter().map(|slot| slot.name).collect(alloc)
}

/// The flight's taxi-out time to the runway as it is known now, in minutes, if it is known.
pub fn exot_to<R: Records>(records: &R, flight: &Flight, runway: RunwayName) -> Option<u16>
    ensures value { let d = R.day records.now in result ≡ exot_to (taxi_of d.airport d.journal) flight.now runway }
    ensures range { ForSome result (λ minutes. minutes ≤ 180) }
{
    records.taxi().exot(flight.stand, runway, flight.ice)
}

// Whether the slot is taken when the turn of the flight with this key comes.
fn is_taken(key: &Key, turn: &Turn) -> bool
    ensures { result ≡ is_taken key.now turn.now }
{
    if turn.slot.mark != Mark::Planned {
        return true;
    }
    match turn.key {
        Some(other) => before(&other, key),
        None => false,
    }
}

// The slots that are taken when the turn of the flight with this key comes.
fn taken_slots(alloc: Global, key: &Key, turns: &[Turn]) -> Result<Vec<Slot>, AllocError>
    ensures { IfOk result (λ v. v.items ≡ taken_slots key.now turns.now) }
{
    let mut taken = Vec::new(alloc);
    for turn in turns {
        if is_taken(key, turn) {
            push_last(&mut taken, turn.slot)?;
        }
    }
    Ok(taken)
}

/// What a flight of the runway of these turns waits for, if it has a TOBT and a taxi-out time to the runway.
#[tactic(auto, using(crate::proofs::EarlierLemmas::taken_earlier, crate::proofs::EarlierLemmas::taken_by_take_off), unfolding(crate::specs::Reasons::waiting_of))]
pub(crate) fn waiting_of<'a, R: Records>(
    alloc: Global,
    records: &'a R,
    turns: &Turns<'_>,
    flight: &'a Flight,
) -> Result<Option<Waiting<'a>>, AllocError>
    requires turns { AreTurns (R.day records.now) turns.now }
    requires on { flight.now.runway ≡ Some turns.now.runway }
    ensures { IfOk result (λ waiting. waiting ≡ waiting_of (R.day records.now) turns.now.plan.now flight.now) }
{
    let name = turns.runway;
    let Some(key) = flight.key() else {
        return Ok(None);
    };
    let Some(runway) = runway_named(records, name) else {
        return Ok(None);
    };
    let Some(exot) = exot_to(records, flight, name) else {
        return Ok(None);
    };
    let earlier = taken_slots(alloc, &key, &turns.items)?;
    Ok(Some(Waiting {
        flight,
        tobt: key.tobt,
        exot,
        values: records.values(),
        runway,
        earlier,
    }))
}
