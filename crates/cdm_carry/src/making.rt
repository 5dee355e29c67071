//! What carries a day over, made of whole inputs.
ghost use Rattle.std.specs.Prelude.{◌≡◌, false, IfOk, IfErr, OnOk, OnErr, Ok};
ghost use Rattle.cdm_files.specs.AirportFile.{airport_in};
ghost use Rattle.cdm_files.specs.Refused.{updates_in};
ghost use Rattle.cdm_carry.specs.Carry.{carry};
ghost use Rattle.cdm_carry.specs.CarriedFeed.{IsNextDay};
ghost use Rattle.cdm_carry.specs.Noticed.{IsCarryText};
ghost use Rattle.cdm_carry.specs.Texts.{feed_text};
ghost use Rattle.cdm_carry.specs.Uncarried.{IsUncarried};
ghost use Rattle.cdm_carry.specs.inner.Steps.{AreMade, IsNextAirportFault};

use crate::carry_text::CarryText;
use crate::carrying::carry_of;
use crate::noticed::{need_care, notices_of, notices_text};
use crate::writing::feed_text;
use cdm_day::Airport;
use cdm_files::{
    CommonFault, DaysApart, FileFault, Inputs, RunError, airport_of, read_airport, read_feed,
    updates_of,
};
use cdm_flight::{RefusalWord, Role, Update};
use cdm_kinds::Format;
use cdm_time::{Day, Minute};
use std::alloc::{AllocError, Global};

// The next airport that its file says, or `NextAirport` or `Memory`.
fn next_airport(alloc: Global, text: &[u8]) -> Result<Airport, RunError>
    ensures said { IfOk result (λ h. airport_in text.now ≡ Ok h) }
    ensures fault { IfErr result (IsNextAirportFault text.now) }
{
    match read_airport(alloc, text) {
        Ok(airport) => Ok(airport),
        Err(FileFault::Refused(number, word)) => Err(RunError::NextAirport(number, word)),
        Err(FileFault::Memory) => Err(RunError::Common(CommonFault::Memory)),
    }
}

// The day of the next airport, where it is the one after this day. Its first minute is then minute 1440 of this day.
fn day_after(day: Day, next: Day) -> Result<Day, DaysApart>
    ensures day { IfOk result (λ d. d ≡ next) }
    ensures after { OnOk result (IsNextDay day next) }
    ensures fault { IfErr result (λ days. days ≡ record { day = day; next = next }) }
    ensures other { OnErr result (¬ IsNextDay day next) }
{
    if next.time_text(Minute::at(0)) == day.time_text(Minute::at(1440)) {
        Ok(next)
    } else {
        Err(DaysApart { day, next })
    }
}

/// A text that carries a day over, and whether a person has to see to something that it tells.
#[derive(Drop)]
pub struct Carried {
    /// The text.
    pub text: Vec<u8>,
    /// Whether a person has to see to something that it tells.
    pub needs_care: bool,
}

// The feed of the next day that the records of a feed make.
fn feed_made(
    alloc: Global,
    airport: Airport,
    records: &[Result<(Role, Update), RefusalWord>],
    next: Airport,
) -> Result<Carried, AllocError>
    ensures text { IfOk result (λ made. made.text.items ≡ feed_text next.day (carry airport (updates_in records.now) next)) }
    ensures care { IfOk result (λ made. made.needs_care ≡ false) }
{
    let day = *next.day();
    let updates = updates_of(alloc, records)?;
    let carried = carry_of(alloc, airport, &updates, next)?;
    let text = feed_text(alloc, day, &carried)?;
    Ok(Carried {
        text: text.into_bytes(),
        needs_care: false,
    })
}

// The text of the notices that the records of a feed make.
fn notices_made(
    alloc: Global,
    format: Format,
    airport: Airport,
    records: &[Result<(Role, Update), RefusalWord>],
    next: Airport,
) -> Result<Carried, AllocError>
    ensures { IfOk result (λ made. AreMade format airport records.now next made.text.items made.needs_care) }
{
    let (day, next_day) = (*airport.day(), *next.day());
    let notices = notices_of(alloc, airport, records, next)?;
    Ok(Carried {
        text: notices_text(alloc, format, day, next_day, &notices)?,
        needs_care: need_care(&notices),
    })
}

/// What is asked for, made of whole inputs: an airport file, a feed and the next airport file, which is for the day after. This is
/// what the next airport has of the feed's accepted records, as a feed, one a line; or the notices, what a person must know before the
/// next day begins.
///
/// Faults in their order: `Airport`, the first faulty record of the airport file and its word; `NextAirport`, the same of the next
/// airport file; `NextDay`, where its day isn't the day after; `Memory`, wherever memory was first refused.
pub fn carried_text(alloc: Global, asked: CarryText, inputs: &Inputs) -> Result<Carried, RunError>
    ensures made { IfOk result (λ made. IsCarryText asked made.needs_care inputs.now.airport.items inputs.now.second.items inputs.now.third.items made.text.items) }
    ensures fault { IfErr result (IsUncarried inputs.now.airport.items inputs.now.third.items) }
{
    let airport = airport_of(alloc, &inputs.airport)?;
    let next = next_airport(alloc, &inputs.third)?;
    if let Err(days) = day_after(*airport.day(), *next.day()) {
        return Err(RunError::NextDay(days));
    }
    let records = read_feed(alloc, airport.day(), &inputs.second)?;
    let made = match asked {
        CarryText::Feed => feed_made(alloc, airport, &records, next)?,
        CarryText::Notices(format) => notices_made(alloc, format, airport, &records, next)?,
    };
    Ok(made)
}
