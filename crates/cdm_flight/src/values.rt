//! What is said of the whole day.
ghost use Rattle.std.specs.Prelude.{◌≡◌, List, [], ◌∷◌, ◌++◌};
ghost use Rattle.cdm_flight.specs.declared.update.Update.{Update as AnUpdate};
ghost use Rattle.cdm_flight.specs.Journal.{values_of};

use crate::Update;
use cdm_time::{Minute, Tolerance};

/// The values of the whole day.
#[derive(Clone, Copy, Debug, PartialEq, Eq)]
pub struct DayValues {
    /// The minute that it is now.
    pub clock: Minute,
    /// How far from their CTOT flights may take off.
    pub tolerance: Tolerance,
}

impl DayValues {
    /// Those of a day without updates.
    #[tactic(auto, unfolding(crate::specs::Journal::values_of))]
    pub fn initial() -> DayValues
        ensures { result ≡ values_of [] }
    {
        DayValues {
            clock: Minute::FIRST,
            tolerance: Tolerance::usual(),
        }
    }

    /// The values after one more update.
    pub fn after(self, update: &Update) -> DayValues
        ensures { (a : List AnUpdate) → values_of a ≡ self → values_of (a ++ update.now ∷ []) ≡ result }
    {
        match *update {
            Update::Clock { now } => DayValues { clock: now, ..self },
            Update::Tol { tolerance } => DayValues { tolerance, ..self },
            _ => self,
        }
    }
}
