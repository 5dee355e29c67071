//! The records of a feed, one after the other.
ghost use Rattle.std.specs.Prelude.{◌≡◌, ◌≤◌, length, IfOk, OnOk};
ghost use Rattle.csv.specs.Records.{fields_of};
ghost use Rattle.cdm_desk.specs.Replies.{day_after};
ghost use Rattle.cdm_files.specs.FeedDay.{day_in, refusals_in};
ghost use Rattle.cdm_files.specs.Input.{input_limit};
ghost use Rattle.cdm_files.specs.Parsing.{parse_of};
ghost use Rattle.cdm_trace.specs.Traces.{IsPiece, IsPieceFrom, IsTrace};

use crate::batched::BatchedDay;
use crate::lines::{line_of_all, line_of_flight};
use crate::told::told;
use cdm_day::{Airport, Records};
use cdm_desk::DeskDay;
use cdm_files::{RecordReader, day_of, parse_record};
use cdm_flight::FlightName;
use cdm_kinds::Format;
use cdm_time::Minute;
use csv::ByteRecord;
use std::alloc::{AllocError, Global};

// What is asked of a trace: what is told of all records or of a flight, from which minute on, and in which format.
#[derive(Clone, Copy)]
struct Asked {
    flight: Option<FlightName>,
    from: Minute,
    format: Format,
}

// Posts a record to a day, and what is told of it as text.
fn text_piece(
    alloc: Global,
    desk: &mut DeskDay,
    asked: Option<FlightName>,
    number: u32,
    row: &ByteRecord,
) -> Result<Vec<u8>, AllocError>
    ensures piece { IfOk result (λ piece. IsPiece Format.Text asked desk.old number (fields_of row.now) piece.items) }
    ensures ok { OnOk result (desk.new ≡ day_after desk.old (parse_of desk.old.airport.day (fields_of row.now))) }
{
    let day = *desk.state().day();
    let reply = desk.post(alloc, &parse_record(day, row))?;
    told(alloc, asked, day, number, row, &reply)
}

// Posts a record to a day, and what is told of it as JSON.
fn json_piece(
    alloc: Global,
    desk: &mut DeskDay,
    asked: Option<FlightName>,
    number: u32,
    row: &ByteRecord,
) -> Result<Vec<u8>, AllocError>
    ensures piece { IfOk result (λ piece. IsPiece Format.Json asked desk.old number (fields_of row.now) piece.items) }
    ensures ok { OnOk result (desk.new ≡ day_after desk.old (parse_of desk.old.airport.day (fields_of row.now))) }
{
    let day = *desk.state().day();
    let reply = desk.post_rows(alloc, &parse_record(day, row))?;
    match asked {
        Some(name) => line_of_flight(alloc, name, day, number, row, &reply),
        None => line_of_all(alloc, day, number, desk.state().accepted(), &reply),
    }
}

// Posts a record to a day, and what is told of it.
fn piece_of(
    alloc: Global,
    format: Format,
    desk: &mut DeskDay,
    asked: Option<FlightName>,
    number: u32,
    row: &ByteRecord,
) -> Result<Vec<u8>, AllocError>
    ensures piece { IfOk result (λ piece. IsPiece format asked desk.old number (fields_of row.now) piece.items) }
    ensures ok { OnOk result (desk.new ≡ day_after desk.old (parse_of desk.old.airport.day (fields_of row.now))) }
{
    match format {
        Format::Text => text_piece(alloc, desk, asked, number, row),
        Format::Json => json_piece(alloc, desk, asked, number, row),
    }
}

// Posts a record to a day, and what is told of it, where the clock is not before the minute that is asked for after it.
fn piece_from(
    alloc: Global,
    asked: &Asked,
    desk: &mut DeskDay,
    number: u32,
    row: &ByteRecord,
) -> Result<Vec<u8>, AllocError>
    ensures piece { IfOk result (λ piece. IsPieceFrom asked.now.from asked.now.format asked.now.flight desk.old number (fields_of row.now) piece.items) }
    ensures ok { OnOk result (desk.new ≡ day_after desk.old (parse_of desk.old.airport.day (fields_of row.now))) }
{
    let piece = piece_of(alloc, asked.format, desk, asked.flight, number, row)?;
    if desk.state().values().clock.get() < asked.from.get() {
        return Ok(Vec::new(alloc));
    }
    Ok(piece)
}

// The day after a record, and what is told of it. A record that leaves the clock before the minute that is asked for only
// joins the batch.
fn traced(
    alloc: Global,
    asked: &Asked,
    day: BatchedDay,
    number: u32,
    row: &ByteRecord,
) -> Result<(BatchedDay, Vec<u8>), AllocError>
    ensures piece { IfOk result (λ r. IsPieceFrom asked.now.from asked.now.format asked.now.flight day number (fields_of row.now) r.1.items) }
    ensures day { IfOk result (λ r. r.0 ≡ day_after day (parse_of day.airport.day (fields_of row.now))) }
{
    let spelled = parse_record(day.day(), row);
    if day.latest_after(&spelled).get() < asked.from.get() {
        let next = day.with_record(alloc, &spelled)?;
        return Ok((next, Vec::new(alloc)));
    }
    let mut desk = day.taken(alloc)?;
    let piece = piece_from(alloc, asked, &mut desk, number, row)?;
    Ok((BatchedDay::new(alloc, desk), piece))
}

/// What is told of the records of a feed, and the day that they make.
#[derive(Drop)]
pub struct Trace {
    /// What is told of the records.
    pub text: Vec<u8>,
    /// The desk of the day after all of them.
    pub desk: DeskDay,
    /// How many of them were refused.
    pub refused: usize,
}

/// Posts the records of a feed one after the other to the day of an airport, and tells of each what it changed, from the
/// first record on after which the clock is this minute or later. Without a flight that is the reply to each record that is
/// refused or by which a flight stands otherwise; of a flight, each record by which it stands otherwise, and where it stands
/// then. As JSON it is told of Rows: the reply to each record that is refused or changes a Row, or each record that changes
/// the flight's Row, and that Row. The records before the first that can bring the clock to this minute are posted as one
/// batch, so they cost one plan.
pub fn trace_of(
    alloc: Global,
    airport: Airport,
    feed: &[u8],
    flight: Option<FlightName>,
    from: Minute,
    format: Format,
) -> Result<Trace, AllocError>
    requires { length feed.now ≤ input_limit }
    ensures told { IfOk result (λ traced. IsTrace format flight from airport feed.now traced.text.items) }
    ensures day { IfOk result (λ traced. traced.desk ≡ day_in airport feed.now) }
    ensures refused { IfOk result (λ traced. traced.refused ≡ length (refusals_in airport feed.now)) }
{
    let asked = Asked {
        flight,
        from,
        format,
    };
    let mut reader = RecordReader::new(alloc, feed);
    let mut row = ByteRecord::new(alloc);
    let state = day_of(alloc, airport)?;
    let mut day = BatchedDay::new(alloc, DeskDay::new(state));
    let mut text = Vec::new(alloc);
    let mut number = 0;
    'records: loop {
        if !reader.read(&mut row)? {
            let desk = day.taken(alloc)?;
            let refused = number as usize - desk.state().accepted();
            return Ok(Trace {
                text,
                desk,
                refused,
            });
        }
        number += 1;
        let (next, piece) = traced(alloc, &asked, day, number, &row)?;
        day = next;
        text.extend_from_slice(&piece)?;
    }
}
