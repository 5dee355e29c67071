//! The order of sequence.
ghost use Rattle.std.specs.Prelude.{◌≡◌};

use crate::{FlightName, Priority};
use cdm_time::Minute;

/// What the order of sequence compares: the priority, then the TOBT, then the name by bytes
/// (local profile).
#[derive(Clone, Copy, Debug, PartialEq, Eq, PartialOrd, Ord)]
pub struct Key {
    pub priority: Priority,
    pub tobt: Minute,
    pub name: FlightName,
}

ghost use Rattle.cdm_flight.specs.Order.{is_before};

/// Whether a flight comes before another in the order of sequence: by the smaller priority number,
/// then the earlier TOBT, then the smaller name by bytes.
#[tactic(auto, unfolding(crate::specs::Order::is_before))]
pub fn before(first: &Key, second: &Key) -> bool
    ensures { result ≡ is_before first.now second.now }
{
    first.cmp(second).is_lt()
}
