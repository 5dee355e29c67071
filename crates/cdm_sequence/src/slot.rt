//! The lines of a plan: flights with their minutes, and flights without.
use crate::Rule;
use cdm_flight::{FlightName, Group};
use cdm_time::Minute;
use std::marker::Model;

/// How far the flight of a slot has come.
#[derive(Clone, Copy, Debug, PartialEq, Eq)]
pub enum Mark {
    /// On its stand; the slot is a plan.
    Planned,
    /// Off-block; its take-off is expected.
    OffBlock,
    /// Airborne; its take-off was.
    Airborne,
}

/// A flight with its start-up and its take-off. Times are minutes of the horizon, the others are
/// whole minutes. TTOT is always TSAT plus EXOT (local profile).
#[derive(Clone, Copy, Debug, PartialEq, Eq)]
pub struct Slot {
    pub name: FlightName,
    /// Target off-block time, if there is one; a planned flight has it.
    pub tobt: Option<Minute>,
    /// Estimated taxi-out time: of a planned flight as it is known now, of one that is off-block
    /// as it was then, of one that is airborne the actual one (AXOT).
    pub exot: u16,
    /// Calculated take-off time, if there is one.
    pub ctot: Option<Minute>,
    /// By which it is spaced from the flights around it.
    pub group: Group,
    /// Target start-up approval time, or the actual off-block time (AOBT).
    pub tsat: Minute,
    /// Target take-off time, or the actual one (ATOT) of a flight that is airborne.
    pub ttot: Minute,
    pub mark: Mark,
    /// From TOBT to TSAT, for planned flights alone.
    pub delay: Option<u16>,
}

impl Model for Slot {
    ghost use Rattle.cdm_sequence.specs.declared.slot.Slot.TheInside as inside;

    ghost Value = { inside.Inside };

    ghost use Rattle.cdm_sequence.specs.Slots.{KeepsTimes};

    ghost view = { λ s. s };

    ghost invariant = { λ s. KeepsTimes s.tobt s.exot s.tsat s.ttot s.mark s.delay };

    ghost inverse = { λ s. s };
}

/// A planned flight that gets no take-off minute, and the first rule that leaves it none.
#[derive(Clone, Copy, Debug, PartialEq, Eq)]
pub struct BlockedFlight {
    pub name: FlightName,
    pub rule: Rule,
}
