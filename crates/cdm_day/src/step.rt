//! What an update makes of a flight.
ghost use Rattle.std.specs.Prelude.{◌≡◌, ◌++◌, ◌∷◌, [], false, not, nat_le, length, None, Some, if◌then◌else◌, IfErr, IfOk, OnOk};
ghost use Rattle.cdm_flight.specs.declared.reach.Reach.TheVariants as reach;
ghost use Rattle.cdm_flight.specs.Reach.{reach_of};
ghost use Rattle.cdm_flight.specs.Step.{is_fresh};
ghost use Rattle.cdm_flight.specs.Journal.{flight_of, is_known};
ghost use Rattle.cdm_flight.specs.Accepted.{is_unknown, refusal_of};

use cdm_flight::{Flight, FlightName, RefusalWord, Update};
use cdm_plan::Records;
use cdm_sequence::own_exot;

/// The flight after an update of it, other than its FLT, or the first word that refuses the update,
/// but for Full. A runway that it names is one of the airport.
pub(crate) fn flight_after<R: Records>(
    records: &R,
    flight: FlightName,
    update: &Update,
) -> Result<Flight, RefusalWord>
    requires of_flight { reach_of update.now ≡ reach.Flight flight }
    requires old { is_fresh update.now ≡ false }
    requires runway { let d = R.day records.now in is_unknown d.airport d.journal update.now ≡ not (is_known d.journal flight) }
    ensures refused { let d = R.day records.now in IfErr result (λ word. refusal_of d.airport d.journal update.now ≡ Some word) }
    ensures rest { let d = R.day records.now in OnOk result
        (refusal_of d.airport d.journal update.now ≡ (if nat_le 20000 (length d.journal) then Some RefusalWord.Full else None)) }
    ensures after { let d = R.day records.now in IfOk result (λ next. flight_of d.airport (d.journal ++ update.now ∷ []) flight ≡ Some next) }
{
    let Some(record) = records.flight(flight) else {
        return Err(RefusalWord::Unknown);
    };
    record.step(update, own_exot(record, records.taxi()))
}
