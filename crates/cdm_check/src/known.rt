//! What is known before a record of a feed, and since which record.

use cdm_flight::{FlightName, Ice, Place, RunwayName, StandName, TaxiMinutes, Update, push_last};
use cdm_time::Minute;
use std::alloc::{AllocError, Global};
use std::collections::BTreeMap;
use std::fmt;

/// Where an accepted update is.
#[derive(Clone, Copy)]
pub(crate) enum Source {
    /// The record of the feed that has this number.
    Record(u32),
    /// The scenario that is told.
    Scenario,
}

impl fmt::Display for Source {
    fn fmt<W: fmt::Write>(&self, f: &mut fmt::Formatter<W>) -> fmt::Result {
        match *self {
            Source::Record(number) => write!(f, "record {number}"),
            Source::Scenario => f.write_str("an update of this scenario"),
        }
    }
}

/// How a flight's day ended.
#[derive(Clone, Copy)]
pub(crate) enum Ending {
    /// It took off.
    Airborne,
    /// It was cancelled.
    Cancelled,
}

// How long a flight is de-iced on the way to its runway.
fn remote_minutes(ice: Ice) -> u16 {
    match ice {
        Ice::Remote(minutes) => minutes.get(),
        Ice::NoIce | Ice::AtStand(_) => 0,
    }
}

/// What is known of a flight.
#[derive(Clone, Copy)]
pub(crate) struct KnownFlight {
    /// Where its FLT is.
    pub since: Source,
    /// Its stand, if it has one.
    pub stand: Option<StandName>,
    /// Its runway, if it has one.
    pub runway: Option<RunwayName>,
    /// How long it is de-iced on the way to its runway.
    pub remote: u16,
    /// Where its OFF is, and its AOBT.
    pub off: Option<(Source, Minute)>,
    /// Where its AIR or CNL is.
    pub ended: Option<(Source, Ending)>,
}

impl KnownFlight {
    // A flight of which this is the FLT.
    fn new(since: Source) -> KnownFlight {
        KnownFlight {
            since,
            stand: None,
            runway: None,
            remote: 0,
            off: None,
            ended: None,
        }
    }

    // The flight after an accepted update of it.
    fn after(&self, source: Source, update: &Update) -> KnownFlight {
        let mut flight = *self;
        match *update {
            Update::Stand { stand, .. } => flight.stand = Some(stand),
            Update::Rwy { runway, .. } => flight.runway = Some(runway),
            Update::Ice { ice, .. } => flight.remote = remote_minutes(ice),
            Update::Off { aobt, .. } => flight.off = Some((source, aobt)),
            Update::Air { .. } => flight.ended = Some((source, Ending::Airborne)),
            Update::Cnl { .. } => flight.ended = Some((source, Ending::Cancelled)),
            _ => {}
        }
        flight
    }
}

/// What the accepted records of a feed say, and updates of a scenario after them.
#[derive(Drop)]
pub(crate) struct Known {
    flights: BTreeMap<FlightName, KnownFlight>,
    taxi: Vec<(Place, RunwayName, TaxiMinutes)>,
    /// Where the last CLOCK is, and its time.
    pub clock: Option<(Source, Minute)>,
    /// How many updates were accepted.
    pub accepted: usize,
}

impl Known {
    /// What is known before the first record.
    pub fn new(alloc: Global) -> Known {
        Known {
            flights: BTreeMap::new(alloc),
            taxi: Vec::new(alloc),
            clock: None,
            accepted: 0,
        }
    }

    /// What is known after these updates, which are the first records of a feed.
    pub fn after(alloc: Global, updates: &[Update]) -> Result<Known, AllocError> {
        let mut known = Known::new(alloc);
        let mut number: u32 = 0;
        for update in updates {
            number = number.saturating_add(1);
            known.take(Source::Record(number), update)?;
        }
        Ok(known)
    }

    /// The same, to which more can be added.
    pub fn copy(&self, alloc: Global) -> Result<Known, AllocError> {
        let mut flights = BTreeMap::new(alloc);
        for (name, flight) in &self.flights {
            flights.insert(*name, *flight)?;
        }
        Ok(Known {
            flights,
            taxi: Vec::from_slice(alloc, &self.taxi)?,
            clock: self.clock,
            accepted: self.accepted,
        })
    }

    /// What is known of each flight, by name.
    pub fn flights(&self) -> &BTreeMap<FlightName, KnownFlight> {
        &self.flights
    }

    /// What is known of a flight.
    pub fn flight(&self, name: FlightName) -> Option<&KnownFlight> {
        self.flights.get(&name)
    }

    /// The taxi time from the place to the runway that the feed gave last.
    pub fn taxi(&self, place: &Place, runway: &RunwayName) -> Option<TaxiMinutes> {
        for row in self.taxi.iter().rev() {
            if row.0 == *place && row.1 == *runway {
                return Some(row.2);
            }
        }
        None
    }

    /// Takes an accepted update.
    pub fn take(&mut self, source: Source, update: &Update) -> Result<(), AllocError> {
        self.accepted = self.accepted.saturating_add(1);
        match *update {
            Update::Flt { flight, .. } => self.put(flight, KnownFlight::new(source)),
            Update::Taxi {
                place,
                runway,
                minutes,
            } => push_last(&mut self.taxi, (place, runway, minutes)),
            Update::Clock { now } => {
                self.clock = Some((source, now));
                Ok(())
            }
            Update::Stand { flight, .. }
            | Update::Rwy { flight, .. }
            | Update::Ice { flight, .. }
            | Update::Off { flight, .. }
            | Update::Air { flight, .. }
            | Update::Cnl { flight } => self.change(source, flight, update),
            _ => Ok(()),
        }
    }

    // Changes a flight by an accepted update.
    fn change(
        &mut self,
        source: Source,
        name: FlightName,
        update: &Update,
    ) -> Result<(), AllocError> {
        let changed = match self.flight(name) {
            Some(flight) => flight.after(source, update),
            None => return Ok(()),
        };
        self.put(name, changed)
    }

    // Puts what is known of a flight.
    fn put(&mut self, name: FlightName, flight: KnownFlight) -> Result<(), AllocError> {
        self.flights.insert(name, flight)?;
        Ok(())
    }
}
