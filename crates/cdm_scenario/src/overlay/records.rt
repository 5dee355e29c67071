//! The records of a day with further updates.
use super::Overlay;
use cdm_day::Records;
use cdm_flight::{DayValues, Flight, FlightName};
use cdm_plan::Brief;
use cdm_runway::Runway;
use cdm_taxi::TaxiTable;

impl Records for Overlay<'_> {
    ghost day = { λ d. d };

    fn flight(&self, name: FlightName) -> Option<&Flight> {
        self.laid.flight(name)
    }

    fn flights(&self) -> usize {
        self.laid.flights()
    }

    fn flight_at(&self, place: usize) -> Option<&Flight> {
        self.laid.flight_at(place)
    }

    fn known_at(&self, place: usize) -> Option<(&Flight, Brief)> {
        self.laid.known_at(place)
    }

    fn briefs(&self) -> &[Brief] {
        self.laid.briefs()
    }

    fn runways(&self) -> usize {
        self.laid.runways()
    }

    fn runway_at(&self, place: usize) -> Option<&Runway> {
        self.laid.runway_at(place)
    }

    fn taxi(&self) -> &TaxiTable {
        self.laid.taxi()
    }

    fn values(&self) -> DayValues {
        self.laid.values()
    }

    fn accepted(&self) -> usize {
        self.laid.accepted()
    }
}
