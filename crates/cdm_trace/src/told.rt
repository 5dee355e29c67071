//! What is told of a record, as text.
ghost use Rattle.std.specs.Prelude.{◌≡◌, IfOk};
ghost use Rattle.std.specs.Option.{option_copied};
ghost use Rattle.std.specs.String.{string_bytes};
ghost use Rattle.csv.specs.Records.{fields_of};
ghost use Rattle.cdm_desk.specs.Replies.{changed_line};
ghost use Rattle.cdm_trace.specs.Traces.{moved_text, standing_in, told, told_of_all};

use cdm_desk::{DeskReply, push_reply};
use cdm_flight::FlightName;
use cdm_journal::push_record_text;
use cdm_time::Day;
use cdm_view::{Standing, push_standing};
use csv::ByteRecord;
use std::alloc::{AllocError, Global};
use std::fmt::Write;

// What is told of a record with this reply: nothing where it is accepted and no flight stands otherwise.
fn told_of_all(
    alloc: Global,
    day: Day,
    number: u32,
    reply: &DeskReply,
) -> Result<String, AllocError>
    ensures { IfOk result (λ text. string_bytes text ≡ told_of_all day number reply.now) }
{
    let mut text = String::new(alloc);
    if let DeskReply::Accepted(changed) = reply {
        if changed.as_slice().is_empty() {
            return Ok(text);
        }
    }
    push_reply(&mut text, day, number, reply)?;
    Ok(text)
}

// Where a flight stands, among those that changed.
fn standing_in(changed: &[Standing], name: FlightName) -> Option<&Standing>
    ensures { option_copied result ≡ standing_in name changed.now }
{
    changed.iter().find(|standing| standing.flight() == name)
}

// The line of a standing.
fn changed_line(alloc: Global, day: Day, standing: &Standing) -> Result<String, AllocError>
    ensures { IfOk result (λ text. string_bytes text ≡ changed_line day standing.now) }
{
    let mut text = String::new(alloc);
    push_standing(&mut text, day, standing)?;
    writeln!(text)?;
    Ok(text)
}

// A record by its number, and where a flight stands after it.
#[tactic(auto, unfolding(crate::specs::Traces::moved_text))]
fn moved_text(
    alloc: Global,
    day: Day,
    number: u32,
    row: &ByteRecord,
    standing: &Standing,
) -> Result<Vec<u8>, AllocError>
    ensures { IfOk result (λ text. text.items ≡ moved_text day number (fields_of row.now) standing.now) }
{
    let number = format!(in alloc; "{number} ")?;
    let mut text = number.into_bytes();
    push_record_text(&mut text, row)?;
    text.push(b'\n')?;
    let line = changed_line(alloc, day, standing)?;
    text.extend_from_slice(line.as_bytes())?;
    Ok(text)
}

/// What is told of a record with this reply: of each record, or of those that move one flight.
pub(crate) fn told(
    alloc: Global,
    asked: Option<FlightName>,
    day: Day,
    number: u32,
    row: &ByteRecord,
    reply: &DeskReply,
) -> Result<Vec<u8>, AllocError>
    ensures { IfOk result (λ text. text.items ≡ told asked day number (fields_of row.now) reply.now) }
{
    let Some(name) = asked else {
        let told = told_of_all(alloc, day, number, reply)?;
        return Ok(told.into_bytes());
    };
    let DeskReply::Accepted(changed) = reply else {
        return Ok(Vec::new(alloc));
    };
    match standing_in(changed.as_slice(), name) {
        Some(standing) => moved_text(alloc, day, number, row, standing),
        None => Ok(Vec::new(alloc)),
    }
}
