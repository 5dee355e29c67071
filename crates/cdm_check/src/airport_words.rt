//! Why the first faulty record of an airport file refuses it.

use crate::fields::field_at;
use crate::kinds::FileKind;
use crate::place::Cause;
use crate::record_words::cause_in_record;
use crate::rows::{Rows, number_of};
use crate::shown::Shown;
use cdm_flight::RefusalWord;
use cdm_time::Day;
use csv::ByteRecord;
use std::alloc::{AllocError, Global};
use std::{fmt, str};

/// The day that sentences on an airport file have as an example.
const EXAMPLE_DAY: &[u8] = b"2025-03-10";

/// Why the record of this number refuses an airport file, by this word.
pub(crate) fn airport_fault(
    alloc: Global,
    text: &[u8],
    number: usize,
    word: RefusalWord,
) -> Result<Cause, AllocError> {
    let mut rows = Rows::new(alloc, text);
    let runways = rows.names_before(alloc, b"RUNWAY", number)?;
    if !rows.read()? {
        return no_record(alloc);
    }
    let sentence = sentence_of(alloc, &runways, rows.row(), number, word)?;
    Ok(rows.cause(sentence))
}

// A file without a record.
fn no_record(alloc: Global) -> Result<Cause, AllocError> {
    let sentence = String::from_str(
        alloc,
        "the file has no record; the first one is DAY, as DAY,2025-03-10",
    )?;
    Ok(Cause { line: 1, sentence })
}

// Why a record of this number is refused by this word, behind records of these runways.
fn sentence_of(
    alloc: Global,
    runways: &[(usize, Vec<u8>)],
    row: &ByteRecord,
    number: usize,
    word: RefusalWord,
) -> Result<String, AllocError> {
    match word {
        RefusalWord::Unknown => unknown_runway(alloc, runways, row),
        RefusalWord::Exists => used_runway(alloc, runways, row),
        RefusalWord::Order => order(alloc, number),
        RefusalWord::Full => no_room(alloc, row),
        _ => in_record(alloc, row, word),
    }
}

// A record that is wrong in itself.
fn in_record(alloc: Global, row: &ByteRecord, word: RefusalWord) -> Result<String, AllocError> {
    match Day::of_text(EXAMPLE_DAY) {
        Ok(day) => cause_in_record(alloc, FileKind::Airport, day, row, word),
        Err(_) => String::from_str(alloc, "the record is wrong"),
    }
}

// The place of the runway in a record of this kind.
fn runway_in(row: &ByteRecord) -> &[u8] {
    if field_at(row, 0) == b"TAXI".as_slice() {
        field_at(row, 2)
    } else {
        field_at(row, 1)
    }
}

// A runway that no earlier record names.
fn unknown_runway(
    alloc: Global,
    runways: &[(usize, Vec<u8>)],
    row: &ByteRecord,
) -> Result<String, AllocError> {
    let name = text_of(runway_in(row));
    let names = Names(runways);
    format!(in alloc; "no RUNWAY {name} before this record; there is {names}")
}

// The names of runways, or `none`.
#[derive(Clone, Copy)]
struct Names<'a>(&'a [(usize, Vec<u8>)]);

impl fmt::Display for Names<'_> {
    fn fmt<W: fmt::Write>(&self, f: &mut fmt::Formatter<W>) -> fmt::Result {
        if self.0.is_empty() {
            return f.write_str("none");
        }
        let mut joint = "";
        for runway in self.0 {
            let name = text_of(&runway.1);
            write!(f, "{joint}{name}")?;
            joint = ", ";
        }
        Ok(())
    }
}

// The text of a name.
fn text_of(name: &[u8]) -> &str {
    str::from_utf8(name).unwrap_or_default()
}

// A runway that an earlier record names.
fn used_runway(
    alloc: Global,
    runways: &[(usize, Vec<u8>)],
    row: &ByteRecord,
) -> Result<String, AllocError> {
    let wanted = runway_in(row);
    let name = text_of(wanted);
    match number_of(runways, wanted) {
        Some(number) => format!(in alloc; "RUNWAY {name} stands in record {number} already"),
        None => format!(in alloc; "RUNWAY {name} stands in the file already"),
    }
}

// A first record that isn't DAY, or a later one that is.
fn order(alloc: Global, number: usize) -> Result<String, AllocError> {
    if number == 1 {
        String::from_str(alloc, "the first record is DAY, as DAY,2025-03-10")
    } else {
        String::from_str(alloc, "DAY stands in record 1 already")
    }
}

// A runway or a stand that is one too many.
fn no_room(alloc: Global, row: &ByteRecord) -> Result<String, AllocError> {
    if field_at(row, 0) == b"RUNWAY".as_slice() {
        return String::from_str(
            alloc,
            "8 runways stand before this one, which is the most of an airport",
        );
    }
    let stand = Shown(field_at(row, 1));
    format!(in alloc; "400 stands have taxi times, which is the most, and {stand} is none of them")
}
