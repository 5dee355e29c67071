//! What could help a flight of a served day.
ghost use Rattle.std.specs.Prelude.{◌≡◌, IfOk};
ghost use Rattle.cdm_flight.specs.Journal.{flight_of};
ghost use Rattle.cdm_serve.specs.Asked.{IsAnswerText, helpless_by, word_at};

use crate::asked::{Asked, told_text};
use crate::asked_json::refused_line;
use crate::posting::reply_text;
use cdm_day::DayState;
use cdm_desk::DeskReply;
use cdm_files::Lent;
use cdm_flight::{FlightName, RefusalWord, Status};
use cdm_kinds::Format;
use cdm_options_text::{options_line, options_text};
use cdm_phase::OpenGate;
use cdm_plan::{Records, Runner};
use std::alloc::AllocError;
use std::thread::Threads;

// The word that refuses a question of a flight that isn't on its stand.
fn word_at(status: &Status) -> RefusalWord
    ensures { result ≡ word_at status.now }
{
    match status {
        Status::OffBlock { .. } => RefusalWord::OffBlock,
        Status::Planned | Status::Airborne { .. } | Status::Cancelled => RefusalWord::Ended,
    }
}

/// The word that refuses to say what could help a flight, if one does.
pub(crate) fn helpless_by(state: &DayState, name: FlightName) -> Option<RefusalWord>
    ensures { let d = state.now in result ≡ helpless_by (flight_of d.airport d.journal name) }
{
    let Some(flight) = state.flight(name) else {
        return Some(RefusalWord::Unknown);
    };
    if flight.status == Status::Planned {
        return None;
    }
    Some(word_at(&flight.status))
}

// The workers that a served day is lent.
fn workers_of<'a, R: Threads + Sync>(lent: &Lent<'a, R, OpenGate>) -> Runner<'a, R, OpenGate> {
    Runner {
        rt: lent.rt,
        workers: lent.workers,
        gate: lent.gate,
    }
}

/// What could help a flight, for people, or the word that refuses to tell. Only want of memory makes it fail.
pub(crate) fn told_options<R: Threads + Sync>(
    lent: &Lent<'_, R, OpenGate>,
    state: &DayState,
    number: u32,
    flight: FlightName,
) -> Result<Vec<u8>, AllocError>
    ensures { IfOk result (λ text. IsAnswerText Format.Text state.now number (Asked.Options flight) text.items) }
{
    let alloc = lent.alloc;
    if let Some(word) = helpless_by(state, flight) {
        return reply_text(alloc, *state.day(), number, &DeskReply::Refused(word));
    }
    match options_text(alloc, Format::Text, state, flight, None, &workers_of(lent)) {
        Ok(body) => told_text(alloc, number, "OPTIONS", &body),
        Err(_) => Err(AllocError),
    }
}

/// What could help a flight, as a line of JSON, or the word that refuses to tell. Only want of memory makes it fail.
pub(crate) fn json_options<R: Threads + Sync>(
    lent: &Lent<'_, R, OpenGate>,
    state: &DayState,
    number: u32,
    flight: FlightName,
) -> Result<Vec<u8>, AllocError>
    ensures { IfOk result (λ text. IsAnswerText Format.Json state.now number (Asked.Options flight) text.items) }
{
    if let Some(word) = helpless_by(state, flight) {
        return refused_line(lent.alloc, state, number, word);
    }
    match options_line(lent.alloc, number, state, flight, None, &workers_of(lent)) {
        Ok(line) => Ok(line),
        Err(_) => Err(AllocError),
    }
}
