//! What a line of the input asks for.
ghost use Rattle.std.specs.Prelude.{◌≡◌};
ghost use Rattle.csv.specs.Records.{fields_of};
ghost use Rattle.cdm_files.specs.Fields.{counted};
ghost use Rattle.cdm_journal.specs.Lines.{read_as};
ghost use Rattle.cdm_serve.specs.Requests.{asked_by, flight_asked, options_asked, request_in, request_of, runway_asked};

use crate::asked::Asked;
use cdm_files::{field_at, parse_record};
use cdm_flight::{FlightName, RefusalWord, Role, RunwayName, Update};
use cdm_journal::LineRead;
use cdm_time::Day;
use cdm_view::Question;
use csv::ByteRecord;

/// What a line of the input asks for (local profile).
#[derive(Clone, Copy, PartialEq, Eq, Debug)]
pub enum Request {
    /// Nothing: the line is blank.
    Nothing,
    /// A record is posted: its role and its update, or the word that refuses it whatever the day is.
    Post(Result<(Role, Update), RefusalWord>),
    /// A question is asked.
    Ask(Asked),
}

// The question what holds a flight.
#[tactic(auto, unfolding(cdm_files::specs::Fields::name_field))]
fn flight_asked(name: &[u8]) -> Result<Asked, RefusalWord>
    ensures { result ≡ flight_asked name.now }
{
    let flight = FlightName::new(name).ok_or(RefusalWord::Text)?;
    Ok(Asked::View(Question::Why(flight)))
}

// The question how full a runway is.
#[tactic(auto, unfolding(cdm_files::specs::Fields::name_field))]
fn runway_asked(name: &[u8]) -> Result<Asked, RefusalWord>
    ensures { result ≡ runway_asked name.now }
{
    let runway = RunwayName::new(name).ok_or(RefusalWord::Text)?;
    Ok(Asked::View(Question::Load(Some(runway))))
}

// The question what could help a flight.
#[tactic(auto, unfolding(cdm_files::specs::Fields::name_field))]
fn options_asked(name: &[u8]) -> Result<Asked, RefusalWord>
    ensures { result ≡ options_asked name.now }
{
    let flight = FlightName::new(name).ok_or(RefusalWord::Text)?;
    Ok(Asked::Options(flight))
}

// The request of a question of so many fields, which are to be so many.
fn ask(wanted: usize, count: usize, asked: Result<Asked, RefusalWord>) -> Request
    ensures { result ≡ asked_by (counted wanted count asked) }
{
    if count != wanted {
        return Request::Post(Err(RefusalWord::Fields));
    }
    match asked {
        Ok(asked) => Request::Ask(asked),
        Err(word) => Request::Post(Err(word)),
    }
}

// What a record asks for.
#[tactic(auto, unfolding(crate::specs::Requests::request_in))]
fn request_in(day: Day, row: &ByteRecord) -> Request
    ensures { result ≡ request_in day (fields_of row.now) }
{
    let (word, name) = (field_at(row, 0), field_at(row, 1));
    if word == b"PLAN".as_slice() {
        ask(1, row.len(), Ok(Asked::Plan))
    } else if word == b"WHY".as_slice() {
        ask(2, row.len(), flight_asked(name))
    } else if word == b"LOAD".as_slice() {
        ask(2, row.len(), runway_asked(name))
    } else if word == b"OPTIONS".as_slice() {
        ask(2, row.len(), options_asked(name))
    } else {
        Request::Post(parse_record(day, row))
    }
}

/// What a line that was read asks for: a question if its first field is `PLAN`, `WHY`, `LOAD` or `OPTIONS`, otherwise a record. A line with
/// several records is refused with Fields.
pub fn request_of(day: Day, read: &LineRead) -> Request
    ensures { result ≡ request_of day (read_as read.now) }
{
    match read {
        LineRead::Blank => Request::Nothing,
        LineRead::One(row) => request_in(day, row),
        LineRead::Several => Request::Post(Err(RefusalWord::Fields)),
    }
}
