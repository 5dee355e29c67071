//! Hints on whole files.
ghost use Rattle.std.specs.Prelude.{◌≡◌, ◌≤◌, ◌++◌, length, take, is_some, IfOk, All};
ghost use Rattle.std.specs.List.{concat, list_all};
ghost use Rattle.cdm_files.specs.Input.{input_limit};
ghost use Rattle.cdm_files.specs.Records.{records_of};
ghost use Rattle.cdm_check.specs.Check.{AreFeedHintsOf, AreHintsOf, HasStandingHintOf};
ghost use Rattle.cdm_check.specs.Findings.{has_no_role, is_no_feed};

use crate::fields::field_at;
use crate::kinds::FileKind;
use crate::lines::{STANDING_COLUMNS, hint_line, record_count, standing_line};
use crate::place::without_mark;
use crate::quotes::open_quote;
use crate::record_words::cause_in_record;
use crate::rows::Rows;
use cdm_files::{RecordReader, role_of};
use cdm_flight::RefusalWord;
use cdm_kinds::Format;
use cdm_time::Day;
use csv::ByteRecord;
use std::alloc::{AllocError, Global};

/// The hints on a file of this kind, a line each, and then further hints on it.
pub(crate) fn hints_of(
    alloc: Global,
    format: Format,
    path: &str,
    file: FileKind,
    text: &[u8],
    further: &[String],
) -> Result<Vec<u8>, AllocError>
    ensures { IfOk result (λ hints. AreHintsOf format path.now hints.items) }
{
    let mut hints = Vec::new(alloc);
    if let Some(hint) = explanation(alloc, file, text)? {
        hints.push(hint)?;
    }
    push_others(alloc, text, &mut hints)?;
    for hint in further {
        hints.push(hint.clone()?)?;
    }
    lines_of(alloc, format, path, &hints)
}

/// The hints on a feed, a line each: one that stands for all its records and those on the whole file, or else the latter and further ones.
pub(crate) fn feed_hints(
    alloc: Global,
    format: Format,
    path: &str,
    text: &[u8],
    standing: Option<&str>,
    further: &[String],
) -> Result<Vec<u8>, AllocError>
    requires { length text.now ≤ input_limit }
    ensures { IfOk result (λ hints.
        AreFeedHintsOf format (is_some standing.entry) path.now (length (records_of text.now)) hints.items) }
{
    match standing {
        Some(hint) => standing_hints(alloc, format, path, text, hint),
        None => hints_of(alloc, format, path, FileKind::Feed, text, further),
    }
}

// The hints on a feed of which this one stands for all its records.
fn standing_hints(
    alloc: Global,
    format: Format,
    path: &str,
    text: &[u8],
    hint: &str,
) -> Result<Vec<u8>, AllocError>
    requires { length text.now ≤ input_limit }
    ensures { IfOk result (λ hints. HasStandingHintOf format path.now (length (records_of text.now)) hints.items) }
{
    let records = record_count(alloc, text)?;
    let mut lines = standing_line(alloc, format, path, hint, records)?;
    let mut hints = Vec::new(alloc);
    push_others(alloc, text, &mut hints)?;
    let others = lines_of(alloc, format, path, &hints)?;
    lines.extend_from_slice(&others)?;
    Ok(lines)
}

// The lines of hints on a file.
fn lines_of(
    alloc: Global,
    format: Format,
    path: &str,
    hints: &[String],
) -> Result<Vec<u8>, AllocError>
    ensures { IfOk result (λ text. AreHintsOf format path.now text.items) }
{
    let mut text = Vec::new(alloc);
    for hint in hints {
        let line = hint_line(alloc, format, path, hint)?;
        text.extend_from_slice(&line)?;
    }
    Ok(text)
}

// Whether no record of a text begins with a role.
fn have_no_role(alloc: Global, text: &[u8]) -> Result<bool, AllocError>
    ensures { IfOk result (λ none. none ≡ list_all has_no_role (records_of text.now)) }
{
    let mut reader = RecordReader::new(alloc, text);
    let mut row = ByteRecord::new(alloc);
    'records: while reader.read(&mut row)? {
        if role_of(field_at(&row, 0)).is_some() {
            return Ok(false);
        }
    }
    Ok(true)
}

// Whether a text is no feed: it has two records or more, and none of them begins with a role.
#[tactic(auto, unfolding(crate::specs::Findings::is_no_feed))]
fn is_no_feed(alloc: Global, text: &[u8]) -> Result<bool, AllocError>
    ensures { IfOk result (λ is. is ≡ is_no_feed text.now) }
{
    let records = record_count(alloc, text)?;
    Ok(records >= 2 && have_no_role(alloc, text)?)
}

/// The hint that stands for all records of a feed of this day, where it is no feed.
pub(crate) fn standing_hint(
    alloc: Global,
    day: Day,
    feed: &[u8],
) -> Result<Option<String>, AllocError>
    ensures { IfOk result (λ hint. is_some hint ≡ is_no_feed feed.now) }
{
    if !is_no_feed(alloc, feed)? {
        return Ok(None);
    }
    let hint = match explanation(alloc, FileKind::Feed, feed)? {
        Some(hint) => hint,
        None => no_role(alloc, day, feed)?,
    };
    Ok(Some(hint))
}

// What is said of a feed of which no record begins with a role, where nothing else explains it: what is wrong with its
// first record, if that is short enough, and else what the roles are.
fn no_role(alloc: Global, day: Day, feed: &[u8]) -> Result<String, AllocError> {
    let mut rows = Rows::new(alloc, feed);
    rows.read()?;
    let hint = no_role_in(alloc, day, rows.row())?;
    if hint.len() <= STANDING_COLUMNS {
        return Ok(hint);
    }
    String::from_str(
        alloc,
        "no record begins with a role: AO (operator), GH (handler), AP (airport), ATC (tower) or NM (Network Manager)",
    )
}

// What is said of such a feed by its first record.
fn no_role_in(alloc: Global, day: Day, row: &ByteRecord) -> Result<String, AllocError> {
    let word = if row.len() < 2 {
        RefusalWord::Fields
    } else {
        RefusalWord::Role
    };
    let cause = cause_in_record(alloc, FileKind::Feed, day, row, word)?;
    format!(in alloc; "no record begins with a role; record 1: {cause}")
}

// What is to be said of a whole file that explains each of its records, if there is something.
fn explanation(alloc: Global, file: FileKind, text: &[u8]) -> Result<Option<String>, AllocError> {
    if is_utf16(text) {
        return Ok(Some(String::from_str(alloc, "it is UTF-16; save it as UTF-8")?));
    }
    if text.starts_with(b"\0\0") {
        return Ok(Some(String::from_str(alloc, "it begins with NUL bytes; the file is damaged")?));
    }
    let mut rows = Rows::new(alloc, text);
    if rows.read()? {
        explanation_by(alloc, file, &rows)
    } else {
        Ok(None)
    }
}

// What the first record, which was read last, says of a whole file that explains each of its records.
fn explanation_by(
    alloc: Global,
    file: FileKind,
    rows: &Rows<'_>,
) -> Result<Option<String>, AllocError> {
    let row = rows.row();
    if let Some(separator) = wrong_separator(row) {
        return Ok(Some(format!(in alloc; "fields are separated by {separator}, not commas")?));
    }
    match looks_like(row) {
        Some(other) if other == file => Ok(None),
        Some(other) => {
            let name = name_of(other);
            Ok(Some(format!(in alloc; "this looks like {name}")?))
        }
        None => heading(alloc, file, rows),
    }
}

// What the first record says where it is a heading.
fn heading(alloc: Global, file: FileKind, rows: &Rows<'_>) -> Result<Option<String>, AllocError> {
    if !is_heading(alloc, file, rows.row())? {
        return Ok(None);
    }
    let line = rows.line();
    Ok(Some(format!(in alloc; "line {line} looks like a heading")?))
}

// Puts behind hints what else is to be said of a whole file.
fn push_others(alloc: Global, text: &[u8], hints: &mut Vec<String>) -> Result<(), AllocError> {
    if is_utf16(text) {
        return Ok(());
    }
    if !Rows::new(alloc, text).read()? {
        return push_hint(alloc, hints, "it has no record");
    }
    if let Some(line) = open_quote(without_mark(text)) {
        hints.push(format!(in alloc; "a quote opened on line {line} never closes")?)?;
    }
    if matches!(text.last(), Some(b'\n' | b'\r')) {
        return Ok(());
    }
    push_hint(alloc, hints, "its last line has no end")
}

// Puts a hint behind others.
fn push_hint(alloc: Global, hints: &mut Vec<String>, hint: &str) -> Result<(), AllocError> {
    hints.push(String::from_str(alloc, hint)?)?;
    Ok(())
}

// A file as hints name it.
fn name_of(file: FileKind) -> &'static str {
    match file {
        FileKind::Airport => "an airport file",
        FileKind::Feed => "a feed",
        FileKind::Scenarios => "a scenario file",
        FileKind::Questions => "questions to a served day",
    }
}

// Whether a text is UTF-16: it begins with a mark of it, or every other byte at its beginning is 0, and no other.
fn is_utf16(text: &[u8]) -> bool {
    match text {
        [0xFF, 0xFE, ..] | [0xFE, 0xFF, ..] => true,
        [first, second, third, fourth, ..] => is_wide(&[*first, *second, *third, *fourth]),
        _ => false,
    }
}

/// Whether every other byte of a text is 0, and no other, as in UTF-16.
pub(crate) fn is_wide(text: &[u8]) -> bool {
    has_zeros_at(text, 0) || has_zeros_at(text, 1)
}

// Whether the bytes at even places are those that are 0, if `first` is 0, or those at odd places, if it is 1.
fn has_zeros_at(text: &[u8], first: usize) -> bool {
    for (place, byte) in text.iter().enumerate() {
        if (*byte == 0) != (place % 2 == first) {
            return false;
        }
    }
    true
}

// What stands between the fields of a first record that has no comma.
fn wrong_separator(row: &ByteRecord) -> Option<&'static str> {
    let field = field_at(row, 0);
    if row.len() > 1 {
        None
    } else if field.contains(&b'\t') {
        Some("tabs")
    } else if field.contains(&b';') {
        Some("semicolons")
    } else {
        None
    }
}

// Whether a first record names the fields: no digit stands in it, each field begins with a letter, and its first
// is neither a role nor a kind, in small letters either.
fn is_heading(alloc: Global, file: FileKind, row: &ByteRecord) -> Result<bool, AllocError> {
    if row.len() < 2 {
        return Ok(false);
    }
    for field in row.iter() {
        if !is_name(field) {
            return Ok(false);
        }
    }
    let first = field_at(row, 0).trim_ascii().to_ascii_uppercase(alloc)?;
    Ok(role_of(&first).is_none() && file.kind_of(&first).is_none())
}

// Whether a field begins with a letter, and no digit stands in it.
fn is_name(field: &[u8]) -> bool {
    for byte in field {
        if byte.is_ascii_digit() {
            return false;
        }
    }
    matches!(field.trim_ascii().first(), Some(byte) if byte.is_ascii_alphabetic())
}

// The file whose first record this is.
fn looks_like(row: &ByteRecord) -> Option<FileKind> {
    let (first, second) = (field_at(row, 0), field_at(row, 1));
    if first == b"DAY".as_slice() {
        Some(FileKind::Airport)
    } else if first == b"SCENARIO".as_slice() {
        Some(FileKind::Scenarios)
    } else if role_of(first).is_some() && FileKind::Feed.kind_of(second).is_some() {
        Some(FileKind::Feed)
    } else {
        None
    }
}
