//! Planned flights that can be sequenced.
ghost use Rattle.std.specs.Prelude.{◌≡◌, ◌+◌, ◌-◌, ◌≤◌};

use crate::{Mark, Slot};
use cdm_flight::{Group, Key, RunwayName};
use cdm_time::{Minute, Window};
use std::marker::Model;

/// A planned flight that has a TOBT, a runway and a taxi-out time, and at least one minute of the
/// horizon at which it may take off.
#[derive(Clone, Copy, Debug, PartialEq, Eq)]
pub struct Target {
    /// Its place in the order of sequence, with its TOBT and its name.
    pub key: Key,
    pub runway: RunwayName,
    pub ctot: Option<Minute>,
    /// By which it is spaced from the flights around it.
    pub group: Group,
    /// Estimated taxi-out time in minutes, with remote de-icing.
    pub exot: u16,
    /// When it can leave its stand: TOBT and de-icing on the stand, and not before now.
    pub ready: Minute,
    /// When it may take off: from its readiness and EXOT on, within the CTOT tolerance.
    pub window: Window,
}

impl Model for Target {
    ghost use Rattle.cdm_sequence.specs.declared.target.Target.TheInside as inside;

    ghost Value = { inside.Inside };

    ghost use Rattle.cdm_sequence.specs.Targets.{KeepsReadiness};

    ghost view = { λ t. t };

    ghost invariant = { λ t. KeepsReadiness t.key t.exot t.ready t.window };

    ghost inverse = { λ t. t };
}

// The minute of a number of minutes before another.
fn minute_before(minute: Minute, minutes: u16) -> Minute
    requires { minutes ≤ minute }
    ensures { result ≡ minute - minutes }
{
    Minute::new(minute.get() - minutes).unwrap()
}

impl Target {
    ghost use Rattle.cdm_sequence.specs.Sequence.{planned_slot};

    /// The flight's slot at a take-off that it can reach.
    pub(crate) fn slot(&self, ttot: Minute) -> Slot
        requires { self.now.ready + self.now.exot ≤ ttot }
        ensures { result ≡ planned_slot self.now ttot }
    {
        let tsat = minute_before(ttot, self.exot);
        Slot {
            name: self.key.name,
            tobt: Some(self.key.tobt),
            exot: self.exot,
            ctot: self.ctot,
            group: self.group,
            tsat,
            ttot,
            mark: Mark::Planned,
            delay: Some(tsat.get() - self.key.tobt.get()),
        }
    }
}
