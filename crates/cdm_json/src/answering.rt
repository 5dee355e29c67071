//! The answer to a question of a day, as JSON.
ghost use Rattle.std.specs.Prelude.{◌≡◌, IfErr, IfOk};
ghost use Rattle.cdm_plan.specs.DayPlan.{IsDayPlan};
ghost use Rattle.cdm_view.specs.Questions.{IsUnanswered};
ghost use Rattle.cdm_json.specs.Answers.{IsJsonAnswer};

use crate::load::load_lines;
use crate::why::why_line;
use cdm_day::{Airport, Records};
use cdm_sequence::Plan;
use cdm_view::{Question, ViewFault};
use std::alloc::Global;

/// The lines that answer a question of a day, from what is known of it and its plan, alone or as a reply to the record of a
/// number.
///
/// `NoFlight` and `NoRunway` where what is asked for isn't known, and else only `Memory`.
pub fn json_answer<R: Records>(
    alloc: Global,
    number: Option<u32>,
    airport: &Airport,
    records: &R,
    plan: &Plan,
    question: Question,
) -> Result<Vec<u8>, ViewFault>
    requires airport { airport.now ≡ (R.day records.now).airport }
    requires plan { IsDayPlan (R.day records.now) plan.now }
    ensures answer { IfOk result (λ text. IsJsonAnswer question (R.day records.now) number plan.entry.now text.items) }
    ensures fault { IfErr result (IsUnanswered question (R.day records.now)) }
{
    match question {
        Question::Why(flight) => why_line(alloc, number, airport.day(), records, plan, flight),
        Question::Load(runway) => load_lines(alloc, number, airport, records, plan, runway),
    }
}
