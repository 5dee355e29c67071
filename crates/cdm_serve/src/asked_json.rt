//! The replies to questions of a served day, as JSON.
ghost use Rattle.std.specs.Prelude.{◌≡◌, IfOk};
ghost use Rattle.cdm_json.specs.Records.{refused_line};
ghost use Rattle.cdm_serve.specs.Asked.{IsAnswerText};

use crate::asked::Asked;
use crate::options::json_options;
use cdm_day::DayState;
use cdm_desk::RowReply;
use cdm_files::Lent;
use cdm_flight::RefusalWord;
use cdm_json::{PlanOf, json_answer, plan_line, reply_line};
use cdm_kinds::Format;
use cdm_phase::OpenGate;
use cdm_row::Rows;
use cdm_view::{Question, ViewFault};
use std::alloc::{AllocError, Global};
use std::thread::Threads;

// The line of the plan.
fn plan_asked(alloc: Global, state: &DayState, number: u32) -> Result<Vec<u8>, AllocError>
    ensures { IfOk result (λ text. IsAnswerText Format.Json state.now number Asked.Plan text.items) }
{
    let rows = Rows::of(alloc, state, state.plan())?;
    plan_line(
        alloc,
        PlanOf::Asked(number),
        *state.day(),
        state.plan(),
        &rows,
        &[],
    )
}

/// The line that refuses a question by a word.
pub(crate) fn refused_line(
    alloc: Global,
    state: &DayState,
    number: u32,
    word: RefusalWord,
) -> Result<Vec<u8>, AllocError>
    ensures { IfOk result (λ text. text.items ≡ refused_line number word) }
{
    let refused = RowReply::Refused(word);
    reply_line(alloc, *state.day(), number, state.journal().len(), &refused)
}

// The line that answers a view.
fn view_asked(
    alloc: Global,
    state: &DayState,
    number: u32,
    question: Question,
) -> Result<Vec<u8>, AllocError>
    ensures { IfOk result (λ text. IsAnswerText Format.Json state.now number (Asked.View question) text.items) }
{
    match json_answer(
        alloc,
        Some(number),
        state.airport(),
        state,
        state.plan(),
        question,
    ) {
        Ok(line) => Ok(line),
        Err(ViewFault::Memory) => Err(AllocError),
        Err(ViewFault::NoFlight(_) | ViewFault::NoRunway(_)) => {
            refused_line(alloc, state, number, RefusalWord::Unknown)
        }
    }
}

/// The reply to the question of this number, on a line of JSON: the plan, or the answer to a view, or what could help a flight, or the
/// refusal of what can't be told. Only want of memory makes it fail.
pub(crate) fn json_asked<R: Threads + Sync>(
    lent: &Lent<'_, R, OpenGate>,
    state: &DayState,
    number: u32,
    asked: Asked,
) -> Result<Vec<u8>, AllocError>
    ensures { IfOk result (λ text. IsAnswerText Format.Json state.now number asked text.items) }
{
    match asked {
        Asked::Plan => plan_asked(lent.alloc, state, number),
        Asked::View(question) => view_asked(lent.alloc, state, number, question),
        Asked::Options(flight) => json_options(lent, state, number, flight),
    }
}
