//! Flights whose take-off is fixed.
ghost use Rattle.std.specs.Prelude.{◌≡◌};
ghost use Rattle.cdm_sequence.specs.Fixed.{fixed_slot};

use crate::{Mark, Slot};
use cdm_flight::{Flight, Status};
use cdm_time::Minute;

/// The slot of a flight that has left its stand, or None where it is planned or cancelled. Its
/// take-off is fixed, whatever the rate of its runway: off-block it is the AOBT plus the EXOT that
/// was fixed then, airborne it is the ATOT.
#[tactic(auto, unfolding(crate::specs::Fixed::fixed_slot))]
pub fn fixed_of(flight: &Flight) -> Option<Slot>
    ensures { result ≡ fixed_slot flight.now }
{
    let (exot, tsat, ttot, mark) = match flight.status {
        Status::OffBlock { aobt, exot } => {
            let ttot = Minute::new(aobt.get() + exot).unwrap();
            (exot, aobt, ttot, Mark::OffBlock)
        }
        Status::Airborne { aobt, atot } => (atot.get() - aobt.get(), aobt, atot, Mark::Airborne),
        Status::Planned | Status::Cancelled => return None,
    };
    Some(Slot {
        name: flight.name,
        tobt: flight.tobt,
        exot,
        ctot: flight.ctot,
        group: flight.group,
        tsat,
        ttot,
        mark,
        delay: None,
    })
}
