//! Records that take updates.
use crate::change::Change;
use cdm_flight::Update;
use cdm_plan::Records;
use std::alloc::{AllocError, Global};

/// Records that take one update after another.
pub trait Takes: Records {
    ghost use Rattle.std.specs.Prelude.{◌≡◌, None, OnOk, OnErr};
    ghost use Rattle.cdm_flight.specs.Accepted.{refusal_of};
    ghost use Rattle.cdm_plan.specs.Day.{with_update};
    ghost use Rattle.cdm_day.specs.Changes.{IsChange};

    /// Takes an update that no word refuses, with what it puts where. Where there is no memory the
    /// records tell what they told.
    fn take(&mut self, alloc: Global, update: Update, change: Change) -> Result<(), AllocError>
        requires accepted { let d = Self.day self.old in refusal_of d.airport d.journal update ≡ None }
        requires change { IsChange (Self.day self.old) update change }
        ensures ok { OnOk result (Self.day self.new ≡ with_update (Self.day self.old) update) }
        ensures err { OnErr result (Self.day self.new ≡ Self.day self.old) };
}
