//! Flights whose stands have no taxi time of their own.

use crate::day_words::{Before, taxi_of};
use crate::known::KnownFlight;
use crate::walk::FeedWalk;
use cdm_files::Judged;
use cdm_flight::{FlightName, Place, RunwayName, StandName};
use std::alloc::{AllocError, Global};

// A flight on a stand, and its runway.
#[derive(Clone, Copy)]
struct OnStand {
    name: FlightName,
    stand: StandName,
    runway: RunwayName,
}

/// A hint on the flights on stands that have no taxi time to their runways, so that the one of all stands counts, where other flights
/// are on stands that have one.
pub(crate) fn stand_hints(
    alloc: Global,
    judged: &Judged,
    feed: &[u8],
) -> Result<Vec<String>, AllocError> {
    let airport = judged.state.airport();
    let mut walk = FeedWalk::new(alloc, airport, feed);
    walk.take_all(&judged.refused)?;
    let before = Before {
        airport,
        known: walk.known(),
        later: None,
    };
    let mut hints = Vec::new(alloc);
    if let Some(hint) = hint_on(alloc, before)? {
        hints.push(hint)?;
    }
    Ok(hints)
}

// The hint on these flights after a feed.
fn hint_on(alloc: Global, before: Before<'_>) -> Result<Option<String>, AllocError> {
    let mut has_own = false;
    let mut first = None;
    let mut count: u32 = 0;
    for (name, flight) in before.known.flights() {
        match waiting(*name, flight) {
            Some(found) if has_time(before, found) => has_own = true,
            Some(found) if has_default(before, found) => {
                first = first.or(Some(found));
                count = count.saturating_add(1);
            }
            _ => {}
        }
    }
    match first {
        Some(found) if has_own => Ok(Some(found.words(alloc, count)?)),
        _ => Ok(None),
    }
}

// A flight that is on its stand, if its stand and its runway are known.
fn waiting(name: FlightName, flight: &KnownFlight) -> Option<OnStand> {
    if flight.off.is_some() || flight.ended.is_some() {
        return None;
    }
    Some(OnStand {
        name,
        stand: flight.stand?,
        runway: flight.runway?,
    })
}

// Whether there is a taxi time from a flight's stand.
fn has_time(before: Before<'_>, found: OnStand) -> bool {
    taxi_of(before, Place::Stand(found.stand), found.runway).is_some()
}

// Whether there is a taxi time for all stands to a flight's runway.
fn has_default(before: Before<'_>, found: OnStand) -> bool {
    taxi_of(before, Place::Default, found.runway).is_some()
}

impl OnStand {
    // What is said of this flight, the first of so many.
    fn words(self, alloc: Global, count: u32) -> Result<String, AllocError> {
        let (name, stand, runway) = (self.name.text(), self.stand.text(), self.runway.text());
        if count < 2 {
            return format!(in alloc;
                "stand {stand} of {name} has no TAXI row for {runway}, so that of * counts"
            );
        }
        format!(in alloc;
            "stand {stand} of {name} has no TAXI row for {runway}, so that of * counts (the first of {count} such flights)"
        )
    }
}
