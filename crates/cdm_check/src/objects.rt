//! The lines of a check as JSON.
ghost use Rattle.std.specs.Prelude.{◌≡◌, ◌++◌, IfOk, OnOk, flat_map};
ghost use Rattle.cdm_row.specs.Json.{member_tokens};
ghost use Rattle.cdm_check.specs.Check.{cause_members, finding_json, hint_line, hint_members, last_json, last_members, place_members};
ghost use Rattle.cdm_check.specs.Findings.{finding};

use cdm_flight::RefusalWord;
use cdm_json::{begin_line, end_line};
use cdm_kinds::Format;
use cdm_row::{push_count, push_text};
use json::Writer;
use std::alloc::{AllocError, Global};

// Writes where a record is: its file, the line of it on which it begins, and its number.
#[tactic(auto, using(crate::proofs::ObjectLemmas::place_tokens))]
fn push_place(
    writer: &mut Writer<Global>,
    path: &str,
    line: u64,
    number: usize,
) -> Result<(), AllocError>
    ensures tokens { OnOk result (writer.new.tokens ≡ writer.old.tokens ++ flat_map member_tokens (place_members path.now line number)) }
    ensures before { writer.new.before ≡ writer.old.before }
{
    push_text(writer, "path", path)?;
    push_count(writer, "line", line)?;
    push_count(writer, "record", number as u64)
}

/// Writes why a record is refused: the word, and a sentence.
pub fn push_cause(
    writer: &mut Writer<Global>,
    word: RefusalWord,
    sentence: &str,
) -> Result<(), AllocError>
    ensures tokens { OnOk result (writer.new.tokens ≡ writer.old.tokens ++ flat_map member_tokens (cause_members word sentence.now)) }
    ensures before { writer.new.before ≡ writer.old.before }
{
    push_text(writer, "word", word.text())?;
    push_text(writer, "sentence", sentence)
}

/// The line of a refused record.
pub(crate) fn finding_object(
    alloc: Global,
    path: &str,
    line: u64,
    number: usize,
    word: RefusalWord,
    sentence: &str,
) -> Result<Vec<u8>, AllocError>
    ensures { IfOk result (λ text. text.items ≡ finding_json (finding path.now (number, word)) line sentence.now) }
{
    let mut writer = begin_line(alloc, None, "")?;
    push_place(&mut writer, path, line, number)?;
    push_cause(&mut writer, word, sentence)?;
    end_line(writer)
}

// Writes a hint on a file.
#[tactic(auto, using(crate::proofs::ObjectLemmas::hint_tokens))]
fn push_hint(writer: &mut Writer<Global>, path: &str, hint: &str) -> Result<(), AllocError>
    ensures tokens { OnOk result (writer.new.tokens ≡ writer.old.tokens ++ flat_map member_tokens (hint_members path.now hint.now)) }
    ensures before { writer.new.before ≡ writer.old.before }
{
    push_text(writer, "path", path)?;
    push_text(writer, "hint", hint)
}

/// The line of a hint on a file.
pub(crate) fn hint_object(alloc: Global, path: &str, hint: &str) -> Result<Vec<u8>, AllocError>
    ensures { IfOk result (λ text. text.items ≡ hint_line Format.Json path.now hint.now) }
{
    let mut writer = begin_line(alloc, None, "")?;
    push_hint(&mut writer, path, hint)?;
    end_line(writer)
}

// Writes how many records there are, and how many of them are refused.
#[tactic(auto, using(crate::proofs::ObjectLemmas::last_tokens))]
fn push_counts(
    writer: &mut Writer<Global>,
    records: usize,
    refused: usize,
) -> Result<(), AllocError>
    ensures tokens { OnOk result (writer.new.tokens ≡ writer.old.tokens ++ flat_map member_tokens (last_members records refused)) }
    ensures before { writer.new.before ≡ writer.old.before }
{
    push_count(writer, "records", records as u64)?;
    push_count(writer, "refused", refused as u64)
}

/// The last line.
pub(crate) fn last_object(
    alloc: Global,
    records: usize,
    refused: usize,
) -> Result<Vec<u8>, AllocError>
    ensures { IfOk result (λ text. text.items ≡ last_json records refused) }
{
    let mut writer = begin_line(alloc, None, "")?;
    push_counts(&mut writer, records, refused)?;
    end_line(writer)
}
