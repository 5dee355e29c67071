//! The lines of a check.
ghost use Rattle.std.specs.Prelude.{◌≡◌, ◌≤◌, length, take, filter, IfOk};
ghost use Rattle.std.specs.String.{string_bytes};
ghost use Rattle.cdm_files.specs.Input.{input_limit};
ghost use Rattle.cdm_files.specs.Records.{records_of};
ghost use Rattle.cdm_check.specs.Check.{IsHintOf, IsLineOf, IsSentence, IsStanding, IsStandingHintOf, finding_text, hint_line, is_printable, last_line, last_text};
ghost use Rattle.cdm_check.specs.Findings.{finding};

use crate::objects::{finding_object, hint_object, last_object};
use crate::place::Cause;
use cdm_files::RecordReader;
use cdm_flight::RefusalWord;
use cdm_kinds::Format;
use csv::ByteRecord;
use std::alloc::{AllocError, Global};
use std::fmt::Write;

/// How many lines of records are told at most.
pub(crate) const MOST_TOLD: usize = 1000;

/// The columns of a sentence at most.
const COLUMNS: usize = 160;

/// The columns of a hint at most behind which the number of the records follows for which it stands.
pub(crate) const STANDING_COLUMNS: usize = 130;

// Whether a byte is printable ASCII.
fn is_printable(byte: u8) -> bool
    ensures { result ≡ is_printable byte }
{
    byte >= 32 && byte <= 126
}

// The printable bytes of a text, so many at most.
fn cut(alloc: Global, text: &[u8], columns: usize) -> Result<Vec<u8>, AllocError>
    ensures { IfOk result (λ sentence. sentence.items ≡ take columns (filter is_printable text.now)) }
{
    text.iter()
        .copied()
        .filter(|byte| is_printable(*byte))
        .take(columns)
        .collect(alloc)
}

/// A text as a sentence.
pub(crate) fn sentence_of(alloc: Global, text: &str) -> Result<String, AllocError>
    ensures { IfOk result (λ sentence. IsSentence (string_bytes sentence)) }
{
    let sentence = cut(alloc, text.as_bytes(), COLUMNS)?;
    Ok(String::from_utf8(sentence).unwrap())
}

// A text as a hint that stands for all records of a file, which are so many.
fn standing_of(alloc: Global, text: &str, records: usize) -> Result<String, AllocError>
    requires { records ≤ input_limit }
    ensures { IfOk result (λ sentence. IsStanding records (string_bytes sentence)) }
{
    let words = cut(alloc, text.as_bytes(), STANDING_COLUMNS)?;
    let words = String::from_utf8(words).unwrap();
    format!(in alloc; "{words} (all {records} records refused)")
}

// The line of a refused record as text.
fn finding_text(
    alloc: Global,
    path: &str,
    line: u64,
    number: usize,
    word: RefusalWord,
    sentence: &str,
) -> Result<Vec<u8>, AllocError>
    ensures { IfOk result (λ text. text.items ≡ finding_text (finding path.now (number, word)) line sentence.now) }
{
    let mut text = String::new(alloc);
    writeln!(text, "{path}:{line}: record {number}: {word}: {sentence}")?;
    Ok(text.into_bytes())
}

/// The line of a refused record: its file's path, the line on which it begins, its number, its word and why
/// it is refused.
pub(crate) fn line_of(
    alloc: Global,
    format: Format,
    path: &str,
    number: usize,
    word: RefusalWord,
    cause: &Cause,
) -> Result<Vec<u8>, AllocError>
    ensures { IfOk result (λ text. IsLineOf format (finding path.now (number, word)) text.items) }
{
    let line = cause.line;
    let sentence = sentence_of(alloc, &cause.sentence)?;
    match format {
        Format::Text => finding_text(alloc, path, line, number, word, &sentence),
        Format::Json => finding_object(alloc, path, line, number, word, &sentence),
    }
}

// The line of a hint as text.
fn hint_text(alloc: Global, path: &str, hint: &str) -> Result<Vec<u8>, AllocError>
    ensures { IfOk result (λ text. text.items ≡ hint_line Format.Text path.now hint.now) }
{
    let mut text = String::new(alloc);
    writeln!(text, "{path}: {hint}")?;
    Ok(text.into_bytes())
}

// The line of a sentence on a file.
fn hint_told(alloc: Global, format: Format, path: &str, hint: &str) -> Result<Vec<u8>, AllocError>
    ensures { IfOk result (λ text. text.items ≡ hint_line format path.now hint.now) }
{
    match format {
        Format::Text => hint_text(alloc, path, hint),
        Format::Json => hint_object(alloc, path, hint),
    }
}

/// The line of a hint on a file.
pub(crate) fn hint_line(
    alloc: Global,
    format: Format,
    path: &str,
    hint: &str,
) -> Result<Vec<u8>, AllocError>
    ensures { IfOk result (λ text. IsHintOf format path.now text.items) }
{
    let sentence = sentence_of(alloc, hint)?;
    hint_told(alloc, format, path, &sentence)
}

/// The line of a hint on a file that stands for all its records, which are so many.
pub(crate) fn standing_line(
    alloc: Global,
    format: Format,
    path: &str,
    hint: &str,
    records: usize,
) -> Result<Vec<u8>, AllocError>
    requires { records ≤ input_limit }
    ensures { IfOk result (λ text. IsStandingHintOf format path.now records text.items) }
{
    let sentence = standing_of(alloc, hint, records)?;
    hint_told(alloc, format, path, &sentence)
}

// The last line as text.
#[tactic(auto, unfolding(crate::specs::Check::last_text))]
fn last_text(
    alloc: Global,
    records: usize,
    refused: usize,
    told: usize,
) -> Result<Vec<u8>, AllocError>
    ensures { IfOk result (λ text. text.items ≡ last_text records refused told) }
{
    let mut text = String::new(alloc);
    if told <= MOST_TOLD {
        writeln!(text, "{records} records, {refused} refused")?;
    } else {
        let hidden = told - MOST_TOLD;
        writeln!(
            text,
            "{records} records, {refused} refused, {hidden} of them not shown"
        )?;
    }
    Ok(text.into_bytes())
}

/// The last line: how many records there are, how many of them are refused, and how many of these are told one by one.
pub(crate) fn last_line(
    alloc: Global,
    format: Format,
    records: usize,
    refused: usize,
    told: usize,
) -> Result<Vec<u8>, AllocError>
    ensures { IfOk result (λ text. text.items ≡ last_line format records refused told) }
{
    match format {
        Format::Text => last_text(alloc, records, refused, told),
        Format::Json => last_object(alloc, records, refused),
    }
}

/// How many records a text has.
pub(crate) fn record_count(alloc: Global, text: &[u8]) -> Result<usize, AllocError>
    ensures count { IfOk result (λ count. count ≡ length (records_of text.now)) }
    ensures few { IfOk result (λ count. count ≤ length text.now) }
{
    let mut reader = RecordReader::new(alloc, text);
    let mut row = ByteRecord::new(alloc);
    let mut count = 0;
    'records: while reader.read(&mut row)? {
        count += 1;
    }
    Ok(count)
}
