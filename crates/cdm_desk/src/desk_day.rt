//! A day and the day once more.
ghost use Rattle.std.specs.Prelude.{◌≡◌};

use cdm_day::DayState;
use std::marker::Model;

/// One desk: a day that takes records one at a time. Once it has taken one it has the day twice, each with its own
/// parts, so that a record changes the one where it is, and the other tells what was before. Both share one list of
/// updates. A contract sees the day alone.
pub struct DeskDay {
    pub(crate) state: DayState,
    pub(crate) spare: Option<DayState>,
}

// One call drops it, in place of its fields one by one at each exit of each function that owns it.
impl Drop for DeskDay {
    fn drop(self) {
        let DeskDay { state: _, spare: _ } = self;
    }
}

impl Model for DeskDay {
    ghost use Rattle.std.specs.Coded.{codes};
    ghost use Rattle.cdm_day.specs.inner.AirportCode.{airport_code};
    ghost use Rattle.cdm_plan.specs.Day.{DayRecord};

    ghost Value = { DayRecord };

    ghost coded = { Prim.hlevel (codes, airport_code) };

    ghost use Rattle.std.specs.Prelude.{◌≡◌, IfSome};

    ghost view = { λ d. d.state };

    ghost invariant = { λ d. IfSome d.spare (λ spare. spare ≡ d.state) };
}

impl DeskDay {
    /// The desk of a day.
    pub fn new(state: DayState) -> DeskDay
        ensures { result ≡ state }
    {
        DeskDay { state, spare: None }
    }

    /// The day.
    pub fn state(&self) -> &DayState
        ensures { result.now ≡ self.now }
    {
        &self.state
    }
}
