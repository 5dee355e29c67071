//! A flight's record.
ghost use Rattle.std.specs.Prelude.{◌≡◌, ◌≤◌, false};
ghost use Rattle.std.specs.Option.{ForSome};
ghost use Rattle.cdm_flight.specs.declared.reach.Reach.TheVariants as reach;
ghost use Rattle.cdm_flight.specs.Reach.{reach_of};
ghost use Rattle.cdm_flight.specs.Step.{step_of, is_fresh};
ghost use Rattle.cdm_flight.specs.Record.{fresh, key_of};

use crate::{FlightName, Group, Ice, Key, Priority, RefusalWord, RunwayName, StandName, Update};
use cdm_time::Minute;
use std::marker::Model;

/// How far a flight has come (the manual's flight states, cut to those that the sequence needs).
#[derive(Clone, Copy, Debug, PartialEq, Eq)]
pub enum Status {
    /// On its stand.
    Planned,
    /// It left its stand at the AOBT, with the taxi-out time that was estimated then, in minutes.
    OffBlock { aobt: Minute, exot: u16 },
    /// It left its stand at the AOBT and took off at the ATOT.
    Airborne { aobt: Minute, atot: Minute },
    /// It won't depart.
    Cancelled,
}

/// What is known of a departure. Off-block or airborne it has a runway; off-block it takes off
/// within the horizon; it never takes off before it leaves its stand.
#[derive(Clone, Copy, Debug, PartialEq, Eq)]
pub struct Flight {
    pub name: FlightName,
    pub priority: Priority,
    pub tobt: Option<Minute>,
    pub stand: Option<StandName>,
    pub runway: Option<RunwayName>,
    pub ctot: Option<Minute>,
    pub ice: Ice,
    pub group: Group,
    pub status: Status,
}

impl Model for Flight {
    ghost use Rattle.cdm_flight.specs.declared.flight.Flight.TheInside as inside;

    ghost Value = { inside.Inside };

    ghost use Rattle.std.specs.Prelude.{IsTrue};
    ghost use Rattle.cdm_flight.specs.Record.{is_sound};

    ghost view = { λ f. f };

    ghost invariant = { λ f. IsTrue (is_sound f.runway f.status) };

    ghost inverse = { λ f. f };
}

impl Flight {
    /// A planned flight of which nothing is known but its name and priority.
    pub fn fresh(name: FlightName, priority: Priority) -> Flight
        ensures { result ≡ fresh name priority }
    {
        Flight {
            name,
            priority,
            tobt: None,
            stand: None,
            runway: None,
            ctot: None,
            ice: Ice::NoIce,
            group: Group::Medium,
            status: Status::Planned,
        }
    }

    /// What the order of sequence compares, or None without a TOBT.
    pub fn key(&self) -> Option<Key>
        ensures { result ≡ key_of self.now }
    {
        match self.tobt {
            Some(tobt) => Some(Key {
                priority: self.priority,
                tobt,
                name: self.name,
            }),
            None => None,
        }
    }

    /// The record after an update of this flight other than FLT. `exot` is the taxi-out time in
    /// minutes as it is known now, which OFF alone uses. The errors, the first that holds: Ended
    /// for a flight that is airborne or cancelled; OffBlock for another update than AIR of one that
    /// is off-block; Order for AIR of one that isn't, or before the AOBT; NotReady for OFF of one
    /// without a runway or a taxi-out time, or that would take off past the horizon.
    pub fn step(&self, update: &Update, exot: Option<u16>) -> Result<Flight, RefusalWord>
        requires of_this { reach_of update.now ≡ reach.Flight self.now.name }
        requires known { is_fresh update.now ≡ false }
        requires taxi { ForSome exot (λ minutes. minutes ≤ 180) }
        ensures { result ≡ step_of self.now update.now exot }
    {
        let mut next = *self;
        match self.status {
            Status::Airborne { .. } | Status::Cancelled => return Err(RefusalWord::Ended),
            Status::OffBlock { aobt, .. } => {
                let Update::Air { atot, .. } = *update else {
                    return Err(RefusalWord::OffBlock);
                };
                if atot < aobt {
                    return Err(RefusalWord::Order);
                }
                next.status = Status::Airborne { aobt, atot };
                return Ok(next);
            }
            Status::Planned => {}
        }
        match *update {
            Update::Tobt { tobt, .. } => next.tobt = Some(tobt),
            Update::Stand { stand, .. } => next.stand = Some(stand),
            Update::Rwy { runway, .. } => next.runway = Some(runway),
            Update::Ctot { ctot, .. } => next.ctot = ctot,
            Update::Ice { ice, .. } => next.ice = ice,
            Update::Prio { priority, .. } => next.priority = priority,
            Update::Group { group, .. } => next.group = group,
            Update::Off { aobt, .. } => {
                let (Some(_), Some(exot)) = (self.runway, exot) else {
                    return Err(RefusalWord::NotReady);
                };
                if aobt.get() + exot > Minute::LAST.get() {
                    return Err(RefusalWord::NotReady);
                }
                next.status = Status::OffBlock { aobt, exot };
            }
            Update::Air { .. } => return Err(RefusalWord::Order),
            Update::Cnl { .. } => next.status = Status::Cancelled,
            Update::Flt { .. }
            | Update::Rate { .. }
            | Update::Close { .. }
            | Update::Reopen { .. }
            | Update::Taxi { .. }
            | Update::Clock { .. }
            | Update::Tol { .. } => unreachable!(),
        }
        Ok(next)
    }
}
