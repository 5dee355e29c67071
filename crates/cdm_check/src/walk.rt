//! The records of a feed, gone through once more for what is known before each refused one.

use crate::day_words::{Before, cause_of_day, flight_of};
use crate::kinds::FileKind;
use crate::known::{Known, Source};
use crate::place::Cause;
use crate::record_words::cause_in_record;
use crate::rows::Rows;
use cdm_day::Airport;
use cdm_files::parse_record;
use cdm_flight::{FlightName, RefusalWord, Role, Update};
use cdm_time::Day;
use csv::ByteRecord;
use std::alloc::{AllocError, Global};
use std::collections::BTreeMap;

/// The most flights of a day.
const MOST_FLIGHTS: usize = 2000;

/// Where the FLT of a flight is: its record's number and the line on which it begins.
#[derive(Clone, Copy)]
struct FltPlace {
    number: u32,
    line: u64,
}

/// Where the FLTs of a feed are.
#[derive(Drop)]
struct Flts {
    places: BTreeMap<FlightName, FltPlace>,
}

impl Flts {
    // No FLT.
    fn new(alloc: Global) -> Flts {
        Flts {
            places: BTreeMap::new(alloc),
        }
    }

    // How many flights have one.
    fn count(&self) -> usize {
        self.places.len()
    }

    // Where the FLT of a flight is.
    fn place(&self, name: FlightName) -> Option<FltPlace> {
        self.places.get(&name).copied()
    }

    // Puts where the FLT of a flight is, unless it has one before.
    fn put(&mut self, name: FlightName, place: FltPlace) -> Result<(), AllocError> {
        if self.place(name).is_some() {
            return Ok(());
        }
        self.places.insert(name, place)?;
        Ok(())
    }

    // Takes an update that is in this place, if it is an FLT.
    fn take_update(&mut self, update: &Update, place: FltPlace) -> Result<(), AllocError> {
        match *update {
            Update::Flt { flight, .. } => self.put(flight, place),
            _ => Ok(()),
        }
    }

    // Takes a record of a feed that is in this place, if it is well-formed and by the role that makes FLTs.
    fn take(&mut self, day: Day, row: &ByteRecord, place: FltPlace) -> Result<(), AllocError> {
        match parse_record(day, row) {
            Ok((role, update)) => {
                if role == Role::AirportOperator {
                    self.take_update(&update, place)
                } else {
                    Ok(())
                }
            }
            Err(_) => Ok(()),
        }
    }

    // Takes all records of a feed.
    fn take_all(&mut self, day: Day, rows: &mut Rows<'_>) -> Result<(), AllocError> {
        for number in 1..u32::MAX {
            if !rows.read()? || self.count() >= MOST_FLIGHTS {
                break;
            }
            let line = rows.line();
            self.take(day, rows.row(), FltPlace { number, line })?;
        }
        Ok(())
    }
}

// Where the first FLT of each flight is.
fn flts_of(alloc: Global, day: Day, feed: &[u8]) -> Result<Flts, AllocError> {
    let mut flts = Flts::new(alloc);
    flts.take_all(day, &mut Rows::new(alloc, feed))?;
    Ok(flts)
}

/// Goes through the records of a feed.
pub(crate) struct FeedWalk<'a> {
    alloc: Global,
    airport: &'a Airport,
    text: &'a [u8],
    rows: Rows<'a>,
    // How many records were read.
    read: u32,
    known: Known,
    // Where the FLTs are, once an unknown flight was met.
    flts: Option<Flts>,
}

// One call drops it, in place of its fields one by one at each exit of each function that owns it.
impl Drop for FeedWalk<'_> {
    fn drop(self) {
        let FeedWalk {
            alloc: _,
            airport: _,
            text: _,
            rows: _,
            read: _,
            known: _,
            flts: _,
        } = self;
    }
}

impl<'a> FeedWalk<'a> {
    /// Stands before the first record.
    pub fn new(alloc: Global, airport: &'a Airport, feed: &'a [u8]) -> FeedWalk<'a> {
        FeedWalk {
            alloc,
            airport,
            text: feed,
            rows: Rows::new(alloc, feed),
            read: 0,
            known: Known::new(alloc),
            flts: None,
        }
    }

    // Reads one more record, if there is one.
    fn read_next(&mut self) -> Result<bool, AllocError> {
        let found = self.rows.read()?;
        self.read = self.read.saturating_add(1);
        Ok(found)
    }

    // Takes the record that was read last, which was accepted.
    fn take(&mut self) -> Result<(), AllocError> {
        match parse_record(*self.airport.day(), self.rows.row()) {
            Ok((_, update)) => self.known.take(Source::Record(self.read), &update),
            Err(_) => Ok(()),
        }
    }

    // Takes the records before the one of this number, which were accepted.
    fn take_before(&mut self, number: u32) -> Result<(), AllocError> {
        for _ in self.read.saturating_add(1)..number {
            if !self.read_next()? {
                break;
            }
            self.take()?;
        }
        Ok(())
    }

    /// Why the record of this number is refused, by this word. The records that come before it and after those that
    /// were asked for were accepted.
    pub fn cause_of(&mut self, number: u32, word: RefusalWord) -> Result<Cause, AllocError> {
        self.take_before(number)?;
        self.read_next()?;
        if word == RefusalWord::Unknown && self.flts.is_none() {
            self.flts = Some(flts_of(self.alloc, *self.airport.day(), self.text)?);
        }
        let sentence = self.sentence(word)?;
        Ok(self.rows.cause(sentence))
    }

    /// Takes the whole feed, of which these records were refused.
    pub fn take_all(&mut self, refused: &[(u32, RefusalWord)]) -> Result<(), AllocError> {
        for refusal in refused {
            self.take_before(refusal.0)?;
            self.read_next()?;
        }
        self.take_before(u32::MAX)
    }

    /// What is known after the records that were taken.
    pub fn known(&self) -> &Known {
        &self.known
    }

    // The line of the FLT of an update's flight, if it comes later than the record that was read last.
    fn later_line(&self, update: &Update) -> Option<u64> {
        let flight = flight_of(update)?;
        let place = self.flts.as_ref()?.place(flight)?;
        if place.number > self.read {
            Some(place.line)
        } else {
            None
        }
    }

    // Why the record that was read last is refused by this word.
    fn sentence(&self, word: RefusalWord) -> Result<String, AllocError> {
        let day = *self.airport.day();
        let row = self.rows.row();
        match parse_record(day, row) {
            Err(word) => cause_in_record(self.alloc, FileKind::Feed, day, row, word),
            Ok((role, update)) => {
                let before = Before {
                    airport: self.airport,
                    known: &self.known,
                    later: self.later_line(&update),
                };
                cause_of_day(self.alloc, before, Some(role), &update, word)
            }
        }
    }
}
