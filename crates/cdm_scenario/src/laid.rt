//! What a day and further updates say.
ghost use Rattle.std.specs.Prelude.{◌≡◌};

mod records;

use crate::changes::{change_over, set_over};
use crate::scenario::push_reserved;
use cdm_day::{Change, DayState, Records, Takes, runway_named};
use cdm_flight::{DayValues, Flight, FlightName, RunwayName, Update};
use cdm_runway::Runway;
use cdm_taxi::TaxiTable;
use indexmap::IndexMap;
use std::alloc::{AllocError, Global};
use std::marker::Model;

/// What a day says with further updates. It has a record of its own for each flight and each runway that these updates
/// changed, and taxi times of its own once one of them is a TAXI.
#[derive(Drop)]
pub(crate) struct Laid<'a> {
    base: &'a DayState,
    accepted: Vec<Update>,
    values: DayValues,
    // The flights that were changed or made known.
    flights: IndexMap<FlightName, Flight>,
    // Those that were made known, which stand behind the base's.
    new_flights: Vec<FlightName>,
    // The runways that were changed.
    runways: IndexMap<RunwayName, Runway>,
    taxi: Option<TaxiTable>,
}

impl<'a> Model for Laid<'a> {
    ghost use Rattle.std.specs.Prelude.{◌++◌};
    ghost use Rattle.std.specs.Coded.{codes};
    ghost use Rattle.cdm_day.specs.inner.AirportCode.{airport_code};
    ghost use Rattle.cdm_plan.specs.Day.{DayRecord};

    ghost Value = { DayRecord };

    ghost coded = { Prim.hlevel (codes, airport_code) };

    ghost use Rattle.cdm_scenario.specs.Overlay.{with_updates};
    ghost use Rattle.cdm_scenario.specs.inner.Changed.{TellChanged};

    ghost view = { λ o. with_updates o.base.now o.accepted.items };

    ghost invariant = { λ o. TellChanged o.base.now.airport o.base.now.journal (o.base.now.journal ++ o.accepted.items)
        o.flights o.new_flights.items o.runways o.taxi o.values };
}

impl<'a> Laid<'a> {
    /// The day without further updates. It takes no memory.
    pub(crate) fn over(alloc: Global, base: &'a DayState) -> Laid<'a>
        ensures { result ≡ base.now }
    {
        Laid {
            base,
            accepted: Vec::new(alloc),
            values: base.values(),
            flights: IndexMap::new(alloc),
            new_flights: Vec::new(alloc),
            runways: IndexMap::new(alloc),
            taxi: None,
        }
    }
}

impl Takes for Laid<'_> {
    // What must grow grows before anything changes.
    fn take(&mut self, alloc: Global, update: Update, change: Change) -> Result<(), AllocError> {
        self.accepted.reserve(1)?;
        match change {
            Change::NewFlight(flight) => {
                self.new_flights.reserve(1)?;
                self.flights.insert(flight.name, flight)?;
                push_reserved(&mut self.new_flights, flight.name);
            }
            Change::NextRecord(flight) => {
                self.flights.insert(flight.name, flight)?;
            }
            Change::Runway(name, change) => {
                let Some(base) = runway_named(self.base, name) else {
                    unreachable!()
                };
                change_over(alloc, &mut self.runways, name, base, change)?;
            }
            Change::TaxiRow(place, runway, minutes) => {
                set_over(&mut self.taxi, self.base.taxi(), place, runway, minutes)?;
            }
            Change::Values(values) => self.values = values,
        }
        push_reserved(&mut self.accepted, update);
        Ok(())
    }
}
