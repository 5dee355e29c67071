//! Replies to records, as JSON.
ghost use Rattle.std.specs.Prelude.{◌≡◌, ◌++◌, IfOk, OnOk, flat_map};
ghost use Rattle.cdm_row.specs.Json.{member_tokens};
ghost use Rattle.cdm_json.specs.Records.{accepted_line, accepted_members, refused_line, reply_line};

use crate::lines::{begin_line, end_line};
use cdm_desk::RowReply;
use cdm_flight::RefusalWord;
use cdm_row::{Row, push_count, push_rows, push_text};
use cdm_time::Day;
use json::Writer;
use std::alloc::{AllocError, Global};

// Writes how many updates there are, and the Rows that changed.
fn push_changes(
    writer: &mut Writer<Global>,
    day: Day,
    count: usize,
    rows: &[Row],
) -> Result<(), AllocError>
    ensures tokens { OnOk result (writer.new.tokens ≡ writer.old.tokens ++ flat_map member_tokens (accepted_members day count rows.now)) }
    ensures before { writer.new.before ≡ writer.old.before }
{
    push_count(writer, "accepted", count as u64)?;
    writer.key("changes")?;
    push_rows(writer, day, rows)
}

// The line of a record that a word refuses.
fn refused_line(alloc: Global, number: u32, word: RefusalWord) -> Result<Vec<u8>, AllocError>
    ensures { IfOk result (λ text. text.items ≡ refused_line number word) }
{
    let mut writer = begin_line(alloc, Some(number), "REFUSED")?;
    push_text(&mut writer, "word", word.text())?;
    end_line(writer)
}

// The line of a record that is accepted.
fn accepted_line(
    alloc: Global,
    day: Day,
    number: u32,
    count: usize,
    rows: &[Row],
) -> Result<Vec<u8>, AllocError>
    ensures { IfOk result (λ text. text.items ≡ accepted_line day number count rows.now) }
{
    let mut writer = begin_line(alloc, Some(number), "ACCEPTED")?;
    push_changes(&mut writer, day, count, rows)?;
    end_line(writer)
}

/// The line of a reply to the record of this number, where the day has so many updates then: the Rows that changed, or the word
/// that refuses the record. Only want of memory makes it fail.
pub fn reply_line(
    alloc: Global,
    day: Day,
    number: u32,
    count: usize,
    reply: &RowReply,
) -> Result<Vec<u8>, AllocError>
    ensures { IfOk result (λ text. text.items ≡ reply_line day number count reply.now) }
{
    match reply {
        RowReply::Refused(word) => refused_line(alloc, number, *word),
        RowReply::Accepted(changed) => {
            accepted_line(alloc, day, number, count, changed.as_slice())
        }
    }
}
