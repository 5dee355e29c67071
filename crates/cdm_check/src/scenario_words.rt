//! Why the first faulty record of a scenario file refuses it.

use crate::fields::field_at;
use crate::kinds::FileKind;
use crate::place::Cause;
use crate::record_words::cause_in_record;
use crate::rows::{Rows, number_of};
use crate::shown::Shown;
use cdm_flight::RefusalWord;
use cdm_time::Day;
use csv::ByteRecord;
use std::alloc::{AllocError, Global};

/// Why the record of this number refuses a scenario file, by this word.
pub(crate) fn scenario_fault(
    alloc: Global,
    day: Day,
    text: &[u8],
    number: usize,
    word: RefusalWord,
) -> Result<Cause, AllocError> {
    let mut rows = Rows::new(alloc, text);
    let names = rows.names_before(alloc, b"SCENARIO", number)?;
    rows.read()?;
    let sentence = sentence_of(alloc, day, &names, rows.row(), word)?;
    Ok(rows.cause(sentence))
}

// Why a record is refused by this word, behind records of these scenarios.
fn sentence_of(
    alloc: Global,
    day: Day,
    names: &[(usize, Vec<u8>)],
    row: &ByteRecord,
    word: RefusalWord,
) -> Result<String, AllocError> {
    match word {
        RefusalWord::Exists => used_name(alloc, names, row),
        RefusalWord::Order => first_update(alloc, row),
        RefusalWord::Full => no_room(alloc, names, row),
        _ => cause_in_record(alloc, FileKind::Scenarios, day, row, word),
    }
}

// A name that another scenario has.
fn used_name(
    alloc: Global,
    names: &[(usize, Vec<u8>)],
    row: &ByteRecord,
) -> Result<String, AllocError> {
    let wanted = field_at(row, 1);
    let name = Shown(wanted);
    match number_of(names, wanted) {
        Some(number) => {
            format!(in alloc; "a scenario has the name {name} already, in record {number}")
        }
        None => format!(in alloc; "a scenario has the name {name} already"),
    }
}

// An update before the first scenario.
fn first_update(alloc: Global, row: &ByteRecord) -> Result<String, AllocError> {
    let kind = Shown(field_at(row, 0));
    format!(in alloc; "{kind} stands before the first SCENARIO, which says whose update it is")
}

// A scenario or an update that is one too many.
fn no_room(
    alloc: Global,
    names: &[(usize, Vec<u8>)],
    row: &ByteRecord,
) -> Result<String, AllocError> {
    if field_at(row, 0) == b"SCENARIO".as_slice() {
        return String::from_str(
            alloc,
            "64 scenarios stand before this one, which is the most of a file",
        );
    }
    match names.last() {
        Some(last) => {
            let name = Shown(&last.1);
            format!(in alloc;
                "64 updates of {name} stand before this one, which is the most of a scenario"
            )
        }
        None => String::from_str(
            alloc,
            "64 updates stand before this one, which is the most of a scenario",
        ),
    }
}
