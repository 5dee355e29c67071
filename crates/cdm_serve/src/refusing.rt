//! Replies that refuse, with a sentence that says why.
ghost use Rattle.std.specs.Prelude.{◌≡◌, IfOk};
ghost use Rattle.cdm_serve.specs.Refused.{IsExplained, is_unknown, refused_text, sentence_line, word_asked};

use crate::asked::Asked;
use crate::options::helpless_by;
use cdm_check::{push_cause, refused_sentence};
use cdm_day::DayState;
use cdm_flight::RefusalWord;
use cdm_journal::LineRead;
use cdm_json::{begin_line, end_line};
use cdm_kinds::Format;
use cdm_plan::Records;
use cdm_view::{Question, unknown_in};
use csv::ByteRecord;
use std::alloc::{AllocError, Global};
use std::fmt::Write;

// Whether the day doesn't know what a question of a view asks for.
fn is_unknown(state: &DayState, question: &Question) -> bool
    ensures { result ≡ is_unknown state.now question.now }
{
    match question {
        Question::Why(name) => state.flight(*name).is_none(),
        Question::Load(runway) => unknown_in(state.airport(), runway).is_some(),
    }
}

/// The word that refuses a question, if one does.
pub(crate) fn word_asked(state: &DayState, asked: &Asked) -> Option<RefusalWord>
    ensures { result ≡ word_asked state.now asked.now }
{
    match asked {
        Asked::Plan => None,
        Asked::View(question) => {
            if is_unknown(state, question) {
                Some(RefusalWord::Unknown)
            } else {
                None
            }
        }
        Asked::Options(flight) => helpless_by(state, *flight),
    }
}

// The record of a line that is one.
fn row_of(read: &LineRead) -> Option<&ByteRecord> {
    match read {
        LineRead::One(row) => Some(row),
        LineRead::Blank | LineRead::Several => None,
    }
}

// A refusal as text.
#[tactic(auto, unfolding(crate::specs::Refused::refused_text))]
fn refused_text(
    alloc: Global,
    number: u32,
    word: RefusalWord,
    sentence: &str,
) -> Result<Vec<u8>, AllocError>
    ensures { IfOk result (λ text. text.items ≡ refused_text number word sentence.now) }
{
    let mut text = String::new(alloc);
    writeln!(text, "{number} REFUSED {word}: {sentence}")?;
    Ok(text.into_bytes())
}

// A refusal as a line of JSON.
fn refused_line(
    alloc: Global,
    number: u32,
    word: RefusalWord,
    sentence: &str,
) -> Result<Vec<u8>, AllocError>
    ensures { IfOk result (λ text. text.items ≡ sentence_line Format.Json number word sentence.now) }
{
    let mut writer = begin_line(alloc, Some(number), "REFUSED")?;
    push_cause(&mut writer, word, sentence)?;
    end_line(writer)
}

// A refusal with its sentence.
fn sentence_line(
    alloc: Global,
    format: Format,
    number: u32,
    word: RefusalWord,
    sentence: &str,
) -> Result<Vec<u8>, AllocError>
    ensures { IfOk result (λ text. text.items ≡ sentence_line format number word sentence.now) }
{
    match format {
        Format::Text => refused_text(alloc, number, word, sentence),
        Format::Json => refused_line(alloc, number, word, sentence),
    }
}

/// The reply of this number that refuses a line by this word, with the sentence that says why. Only want of memory makes it fail.
pub(crate) fn explained(
    alloc: Global,
    format: Format,
    state: &DayState,
    number: u32,
    read: &LineRead,
    word: RefusalWord,
) -> Result<Vec<u8>, AllocError>
    ensures { IfOk result (λ text. IsExplained format number word text.items) }
{
    let (airport, journal) = (state.airport(), state.journal());
    let sentence = refused_sentence(alloc, airport, journal, row_of(read), word)?;
    sentence_line(alloc, format, number, word, &sentence)
}
