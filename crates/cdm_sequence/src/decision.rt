//! What became of a target.
ghost use Rattle.std.specs.Prelude.{◌+◌, ◌≤◌};
ghost use Rattle.std.specs.Result.{ForOk};

use crate::Target;
use cdm_runway::Blocked;
use cdm_time::Minute;

/// A target with the minute that its runway gave it, or why it gave none.
#[derive(Clone, Copy)]
pub(crate) struct Decision {
    pub target: Target,
    pub outcome: Result<Minute, Blocked>,
    ghost reachable: { ForOk outcome (λ m. target.ready + target.exot ≤ m) },
}
