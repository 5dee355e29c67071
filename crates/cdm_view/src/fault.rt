//! Why there is no view.
ghost use Rattle.std.specs.Prelude.{◌≡◌};
ghost use Rattle.cdm_view.specs.declared.fault.ViewFault.TheVariants as fault;

use cdm_flight::{FlightName, RunwayName};
use std::alloc::AllocError;

/// Why there is no text of what was asked.
#[derive(Clone, Copy, PartialEq, Eq, Debug)]
pub enum ViewFault {
    /// No such flight is known.
    NoFlight(FlightName),
    /// The airport has no such runway.
    NoRunway(RunwayName),
    /// Want of memory.
    Memory,
}

impl From<AllocError> for ViewFault {
    ghost from_gives = { λ _ e. e ≡ fault.Memory };

    fn from(_error: AllocError) -> ViewFault {
        ViewFault::Memory
    }
}
