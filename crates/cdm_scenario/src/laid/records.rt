//! What a day and further updates say, as its records.
ghost use Rattle.std.specs.Prelude.{◌≡◌, slice_get};

use super::Laid;
use cdm_day::Records;
use cdm_flight::{DayValues, Flight, FlightName};
use cdm_plan::Brief;
use cdm_runway::Runway;
use cdm_taxi::TaxiTable;

// The name at a place.
fn name_at(names: &[FlightName], place: usize) -> Option<FlightName>
    ensures { result ≡ slice_get names.now place }
{
    names.get(place).copied()
}

impl Records for Laid<'_> {
    ghost day = { λ d. d };

    fn flight(&self, name: FlightName) -> Option<&Flight> {
        match self.flights.get(&name) {
            Some(changed) => Some(changed),
            None => self.base.flight(name),
        }
    }

    fn flights(&self) -> usize {
        self.base.flights() + self.new_flights.len()
    }

    // The base's flights stand first.
    fn flight_at(&self, place: usize) -> Option<&Flight> {
        let known = self.base.flights();
        if place < known {
            let first = self.base.flight_at(place)?;
            return match self.flights.get(&first.name) {
                Some(changed) => Some(changed),
                None => Some(first),
            };
        }
        self.flight(name_at(&self.new_flights, place - known)?)
    }

    // A flight of the base that no update changed is in brief as it was, unless a taxi time changed.
    fn known_at(&self, place: usize) -> Option<(&Flight, Brief)> {
        // What the base's table tells, it tells also with the updates, unless one of them is a TAXI.
        let _taxi = self.base.taxi();
        if let Some((first, brief)) = self.base.known_at(place)
            && self.taxi.is_none()
            && self.flights.get(&first.name).is_none()
        {
            return Some((first, brief));
        }
        let flight = self.flight_at(place)?;
        Some((flight, Brief::of(flight, self.taxi())))
    }

    // What the base keeps in brief may have changed, so none is lent. The records are read, since they are sound.
    fn briefs(&self) -> &[Brief] {
        let _values = self.values;
        &[]
    }

    fn runways(&self) -> usize {
        self.base.runways()
    }

    fn runway_at(&self, place: usize) -> Option<&Runway> {
        let runway = self.base.runway_at(place)?;
        match self.runways.get(&runway.name()) {
            Some(changed) => Some(changed),
            None => Some(runway),
        }
    }

    fn taxi(&self) -> &TaxiTable {
        match &self.taxi {
            Some(taxi) => taxi,
            None => self.base.taxi(),
        }
    }

    fn values(&self) -> DayValues {
        self.values
    }

    fn accepted(&self) -> usize {
        self.base.accepted() + self.accepted.len()
    }
}
