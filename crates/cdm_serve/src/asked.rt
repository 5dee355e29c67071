//! Questions of a served day, and their replies.
ghost use Rattle.std.specs.Prelude.{◌≡◌, ◌++◌, IfOk, OnOk, codes, count_by, ◌==◌};
ghost use Rattle.cdm_desk.specs.Replies.{reply_text};
ghost use Rattle.cdm_desk.specs.declared.reply.DeskReply.TheVariants.{Refused};
ghost use Rattle.cdm_serve.specs.Asked.{IsAnswerText, told_text, word_of};

use crate::asked_json::json_asked;
use crate::options::told_options;
use crate::posting::reply_text;
use cdm_day::DayState;
use cdm_desk::DeskReply;
use cdm_files::Lent;
use cdm_flight::{FlightName, RefusalWord};
use cdm_kinds::Format;
use cdm_phase::OpenGate;
use cdm_report::report_text;
use cdm_view::{Question, ViewFault, answer};
use std::alloc::{AllocError, Global};
use std::fmt::Write;
use std::thread::Threads;

/// A question to a served day (local profile).
#[derive(Clone, Copy, PartialEq, Eq, Debug)]
pub enum Asked {
    /// The report of the plan.
    Plan,
    /// What delays or blocks a flight, or how full a runway is.
    View(Question),
    /// What could help a flight, whoever may send it.
    Options(FlightName),
}

// The word of a question.
fn word_of(question: &Question) -> &'static str
    ensures { result.now ≡ word_of question.now }
{
    match question {
        Question::Why(_) => "WHY",
        Question::Load(_) => "LOAD",
    }
}

// How many lines a text has.
fn line_count(text: &[u8]) -> usize
    ensures { result ≡ count_by (λ byte. byte == 10) text.now }
{
    text.iter().filter(|byte| **byte == b'\n').count()
}

/// The reply to a question: its number, its word, how many lines follow, and these.
#[tactic(auto, unfolding(crate::specs::Asked::told_text))]
pub(crate) fn told_text(
    alloc: Global,
    number: u32,
    word: &str,
    body: &[u8],
) -> Result<Vec<u8>, AllocError>
    ensures { IfOk result (λ text. text.items ≡ told_text number word.now body.now) }
{
    let mut text = String::new(alloc);
    let count = line_count(body);
    writeln!(text, "{number} {word} {count}")?;
    let mut text = text.into_bytes();
    text.extend_from_slice(body)?;
    Ok(text)
}

// The reply to a question of a view.
fn view_text(
    alloc: Global,
    state: &DayState,
    number: u32,
    question: &Question,
) -> Result<Vec<u8>, AllocError>
    ensures { IfOk result (λ text. IsAnswerText Format.Text state.now number (Asked.View question.now) text.items) }
{
    let word = word_of(question);
    match answer(alloc, state.airport(), state, state.plan(), *question) {
        Ok(body) => told_text(alloc, number, word, &body),
        Err(ViewFault::Memory) => Err(AllocError),
        Err(ViewFault::NoFlight(_) | ViewFault::NoRunway(_)) => reply_text(
            alloc,
            *state.day(),
            number,
            &DeskReply::Refused(RefusalWord::Unknown),
        ),
    }
}

// The reply for people.
fn text_asked<R: Threads + Sync>(
    lent: &Lent<'_, R, OpenGate>,
    state: &DayState,
    number: u32,
    asked: Asked,
) -> Result<Vec<u8>, AllocError>
    ensures { IfOk result (λ text. IsAnswerText Format.Text state.now number asked text.items) }
{
    let alloc = lent.alloc;
    match asked {
        Asked::Plan => {
            let body = report_text(alloc, state.day(), state.plan(), &[])?;
            told_text(alloc, number, "PLAN", &body)
        }
        Asked::View(question) => view_text(alloc, state, number, &question),
        Asked::Options(flight) => told_options(lent, state, number, flight),
    }
}

/// The reply to the question of this number: the report of the plan, or the answer to a view, or what could help a flight, or the
/// refusal of what can't be told. Only want of memory makes it fail.
pub(crate) fn asked_text<R: Threads + Sync>(
    lent: &Lent<'_, R, OpenGate>,
    format: Format,
    state: &DayState,
    number: u32,
    asked: Asked,
) -> Result<Vec<u8>, AllocError>
    ensures { IfOk result (λ text. IsAnswerText format state.now number asked text.items) }
{
    match format {
        Format::Text => text_asked(lent, state, number, asked),
        Format::Json => json_asked(lent, state, number, asked),
    }
}
