//! Why a served day refuses a line.
ghost use Rattle.std.specs.Prelude.{IfOk};
ghost use Rattle.std.specs.String.{string_bytes};
ghost use Rattle.cdm_check.specs.Check.{IsSentence};

use crate::day_words::{Before, cause_of_day, unknown_flight, unknown_runway};
use crate::fields::{field_at, kind_of};
use crate::kinds::FileKind;
use crate::known::Known;
use crate::lines::sentence_of;
use crate::record_words::cause_in_record;
use cdm_day::Airport;
use cdm_files::parse_record;
use cdm_flight::{FlightName, RefusalWord, RunwayName, Update};
use csv::ByteRecord;
use std::alloc::{AllocError, Global};

/// What to do in place of a line that isn't one record.
const NO_RECORD: &str = "send one record per line, of 4,096 bytes at most and with LF at its end";

/// Why a served day refuses a line by this word: what a check says of its record as the last one of a feed that has the
/// journal's updates before it. Where the line isn't one record, there is no row. Only want of memory makes it fail.
pub fn refused_sentence(
    alloc: Global,
    airport: &Airport,
    journal: &[Update],
    row: Option<&ByteRecord>,
    word: RefusalWord,
) -> Result<String, AllocError>
    ensures { IfOk result (λ sentence. IsSentence (string_bytes sentence)) }
{
    let cause = match row {
        Some(row) => cause_of(alloc, airport, journal, row, word)?,
        None => String::from_str(alloc, NO_RECORD)?,
    };
    sentence_of(alloc, &cause)
}

// Why a record or a question is refused.
fn cause_of(
    alloc: Global,
    airport: &Airport,
    journal: &[Update],
    row: &ByteRecord,
    word: RefusalWord,
) -> Result<String, AllocError> {
    if kind_of(FileKind::Questions, row).is_some() {
        return cause_of_question(alloc, airport, row, word);
    }
    let day = *airport.day();
    match parse_record(day, row) {
        Err(word) => cause_in_record(alloc, FileKind::Feed, day, row, word),
        Ok((role, update)) => {
            let known = Known::after(alloc, journal)?;
            let before = Before {
                airport,
                known: &known,
                later: None,
            };
            cause_of_day(alloc, before, Some(role), &update, word)
        }
    }
}

// Why a question is refused.
fn cause_of_question(
    alloc: Global,
    airport: &Airport,
    row: &ByteRecord,
    word: RefusalWord,
) -> Result<String, AllocError> {
    match word {
        RefusalWord::Unknown => cause_of_unknown(alloc, airport, row),
        RefusalWord::OffBlock => cause_of_left(alloc, row, "off-block"),
        RefusalWord::Ended => cause_of_left(alloc, row, "airborne or cancelled"),
        _ => cause_in_record(alloc, FileKind::Questions, *airport.day(), row, word),
    }
}

// What isn't known: a runway, if the question is of the load, or a flight.
fn cause_of_unknown(
    alloc: Global,
    airport: &Airport,
    row: &ByteRecord,
) -> Result<String, AllocError> {
    let name = field_at(row, 1);
    match RunwayName::new(name) {
        Some(runway) if field_at(row, 0) == b"LOAD".as_slice() => {
            unknown_runway(alloc, airport, runway)
        }
        _ => match FlightName::new(name) {
            Some(flight) => unknown_flight(alloc, None, flight),
            None => String::from_str(alloc, "no flight has this name"),
        },
    }
}

// Where a flight is that nothing can help any more.
fn cause_of_left(alloc: Global, row: &ByteRecord, place: &str) -> Result<String, AllocError> {
    match FlightName::new(field_at(row, 1)) {
        Some(flight) => {
            let name = flight.text();
            format!(in alloc; "{name} is {place}; only a flight on its stand has options")
        }
        None => String::from_str(alloc, "only a flight on its stand has options"),
    }
}
