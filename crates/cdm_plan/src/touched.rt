//! Which runways updates touch.
ghost use Rattle.std.specs.Prelude.{◌≡◌, ℕ, List, false, not, OnOk};
ghost use Rattle.std.specs.List.{list_any};
ghost use Rattle.std.specs.Option.{option_map_or};
ghost use Rattle.cdm_flight.specs.Names.{same_name};
ghost use Rattle.cdm_flight.specs.Reach.{reach_of};
ghost use Rattle.cdm_flight.specs.declared.reach.Reach.TheVariants as reach;
ghost use Rattle.cdm_plan.specs.Kept.{Adds, is_counted, is_noted, is_touched};

use crate::brief::counts;
use crate::records::Records;
use cdm_flight::{Flight, FlightName, Reach, RunwayName, Update};
use std::alloc::{AllocError, Global};

/// The flights whose updates touch the runway that the flight has.
#[derive(Clone, Copy, PartialEq, Eq, Debug)]
pub enum Noting {
    /// All of them.
    EachFlight,
    /// Those that count on their runway: they have left their stands, or have a TOBT. The others are in no sequence.
    CountedFlights,
}

/// The runways that updates touched.
#[derive(Drop)]
pub enum Touched {
    /// All of them.
    All,
    /// Those of these names.
    Named(Vec<RunwayName>),
}

impl Noting {
    // Whether the flight is one of them.
    fn has(self, flight: &Flight) -> bool
        ensures { result ≡ is_counted self flight.now }
    {
        match self {
            Noting::EachFlight => true,
            Noting::CountedFlights => counts(flight),
        }
    }

    // The runway that an update of the flight touches, if it touches one.
    fn runway_of<R: Records>(self, records: &R, flight: FlightName) -> Option<RunwayName>
        ensures { (r : List ℕ) → option_map_or (λ s. same_name s r) result false ≡ is_noted self (R.day records.now) (reach.Flight flight) r }
    {
        let record = records.flight(flight)?;
        if self.has(record) {
            record.runway
        } else {
            None
        }
    }
}

// Whether the name is one of these.
fn is_among(names: &[RunwayName], name: RunwayName) -> bool
    ensures { result ≡ list_any (λ n. same_name n name) names.now }
{
    names.iter().any(|known| *known == name)
}

// The same, at once where there is no name or one.
#[inline(always)]
fn is_named(names: &[RunwayName], name: RunwayName) -> bool
    ensures { result ≡ list_any (λ n. same_name n name) names.now }
{
    match names {
        [] => false,
        [only] => *only == name,
        _ => is_among(names, name),
    }
}

// Adds a name, where it isn't there yet.
fn add_name(names: &mut Vec<RunwayName>, name: RunwayName) -> Result<(), AllocError>
    ensures { OnOk result ((r : List ℕ) → list_any (λ n. same_name n r) names.new.items ≡ false
        → (list_any (λ n. same_name n r) names.old.items ≡ false) × (same_name name r ≡ false)) }
{
    if !is_named(names, name) {
        names.push(name)?;
    }
    Ok(())
}

impl Touched {
    /// No runway.
    pub fn none(alloc: Global) -> Touched
        ensures { (r : List ℕ) → is_touched result r ≡ false }
    {
        Touched::Named(Vec::new(alloc))
    }

    /// Whether the runway is one of them.
    pub fn has(&self, runway: RunwayName) -> bool
        ensures { result ≡ is_touched self.now runway }
    {
        match self {
            Touched::All => true,
            Touched::Named(names) => is_named(names, runway),
        }
    }

    /// Whether a flight need not be asked anew that counts on this runway: it is none of them.
    #[inline(always)]
    pub(crate) fn keeps(&self, counted_on: Option<RunwayName>) -> bool
        ensures { result ≡ option_map_or (λ r. not (is_touched self.now r)) counted_on false }
    {
        match counted_on {
            Some(runway) => !self.has(runway),
            None => false,
        }
    }

    // Adds a runway.
    fn add(&mut self, runway: RunwayName) -> Result<(), AllocError>
        ensures { OnOk result (Adds self.old (λ r. same_name runway r) self.new) }
    {
        match self {
            Touched::All => Ok(()),
            Touched::Named(names) => add_name(names, runway),
        }
    }

    /// Adds the runway of the update, or the runway that its flight has, if the flight is one of those.
    pub fn note<R: Records>(
        &mut self,
        records: &R,
        update: &Update,
        noting: Noting,
    ) -> Result<(), AllocError>
        ensures { OnOk result (Adds self.old (is_noted noting (R.day records.now) (reach_of update.now)) self.new) }
    {
        match update.reach() {
            Reach::Flight(flight) => match noting.runway_of(records, flight) {
                Some(runway) => self.add(runway),
                None => Ok(()),
            },
            Reach::Runway(runway) | Reach::Taxi(runway) => self.add(runway),
            Reach::Day => {
                *self = Touched::All;
                Ok(())
            }
        }
    }
}
