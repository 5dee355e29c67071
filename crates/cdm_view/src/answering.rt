//! The answer to a question of a day.
ghost use Rattle.std.specs.Prelude.{◌≡◌, IfErr, IfOk};
ghost use Rattle.cdm_view.specs.Questions.{IsAnswer, IsUnanswered};

use crate::fault::ViewFault;
use crate::loading::load;
use crate::question::Question;
use crate::whys::why;
use cdm_day::{Airport, Records};
use cdm_sequence::Plan;
use std::alloc::Global;

/// The text that answers a question of a day, from what is known of it and its plan.
///
/// `NoFlight` and `NoRunway` where what is asked for isn't known, and else only `Memory`.
pub fn answer<R: Records>(
    alloc: Global,
    airport: &Airport,
    records: &R,
    plan: &Plan,
    question: Question,
) -> Result<Vec<u8>, ViewFault>
    requires airport { airport.now ≡ (R.day records.now).airport }
    ensures answer { IfOk result (λ text. IsAnswer question (R.day records.now) plan.entry.now text.items) }
    ensures fault { IfErr result (IsUnanswered question (R.day records.now)) }
{
    match question {
        Question::Why(flight) => why(alloc, airport.day(), records, plan, flight),
        Question::Load(runway) => load(alloc, airport, records, plan, runway),
    }
}
