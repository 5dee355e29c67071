//! What the accepted updates of a day say, however it is kept.

use crate::brief::Brief;
use cdm_flight::{DayValues, Flight, FlightName};
use cdm_runway::Runway;
use cdm_taxi::TaxiTable;

/// What an airport and accepted updates say of flights, runways, taxi times and the whole day. No call
/// takes memory.
pub trait Records {
    ghost use Rattle.std.specs.Prelude.{◌≡◌, ℕ, length, slice_get, IfSome, Some};
    ghost use Rattle.std.specs.Option.{option_and_then, option_copied, option_map};
    ghost use Rattle.cdm_flight.specs.Journal.{flight_of, taxi_of, values_of};
    ghost use Rattle.cdm_plan.specs.Brief.{brief_of};
    ghost use Rattle.cdm_plan.specs.Day.{DayRecord, flights_in};
    ghost use Rattle.cdm_plan.specs.DayPlan.{IsRunwayAt};
    ghost use Rattle.cdm_plan.specs.Sound.{IsSound, TellTaxi};

    // The airport and the accepted updates.
    ghost day: { Self → DayRecord };

    /// What is known of a flight.
    fn flight(&self, name: FlightName) -> Option<&Flight>
        ensures sound { IsSound (day self.now) }
        ensures value { let d = day self.now in option_copied result ≡ flight_of d.airport d.journal name };

    /// How many flights are known.
    fn flights(&self) -> usize
        ensures sound { IsSound (day self.now) }
        ensures value { result ≡ length (flights_in (day self.now).journal) };

    /// The flight at a place in the order of first appearance.
    fn flight_at(&self, place: usize) -> Option<&Flight>
        ensures sound { IsSound (day self.now) }
        ensures value { let d = day self.now in
            option_copied result ≡ option_and_then (flight_of d.airport d.journal) (slice_get (flights_in d.journal) place) };

    /// The same with the flight in brief.
    fn known_at(&self, place: usize) -> Option<(&Flight, Brief)>
        ensures sound { IsSound (day self.now) }
        ensures flight { let d = day self.now in
            option_map (λ k. k.0.now) result ≡ option_and_then (flight_of d.airport d.journal) (slice_get (flights_in d.journal) place) }
        ensures brief { let d = day self.now in IfSome result (λ k. k.1 ≡ brief_of (taxi_of d.airport d.journal) k.0.now) };

    /// The first of these flights in brief, as many as are kept so.
    fn briefs(&self) -> &[Brief]
        ensures sound { IsSound (day self.now) }
        ensures each { let d = day self.now in (place : ℕ) → IfSome (slice_get result.now place) (λ brief.
            option_map (brief_of (taxi_of d.airport d.journal))
            (option_and_then (flight_of d.airport d.journal) (slice_get (flights_in d.journal) place)) ≡ Some brief) };

    /// How many runways there are.
    fn runways(&self) -> usize
        ensures sound { IsSound (day self.now) }
        ensures value { result ≡ length (day self.now).airport.runways };

    /// The runway at a place in the order of names.
    fn runway_at(&self, place: usize) -> Option<&Runway>
        ensures sound { IsSound (day self.now) }
        ensures value { IsRunwayAt (day self.now) place (option_copied result) };

    /// The taxi times.
    fn taxi(&self) -> &TaxiTable
        ensures sound { IsSound (day self.now) }
        ensures value { TellTaxi (day self.now).airport (day self.now).journal result.now };

    /// The values of the day.
    fn values(&self) -> DayValues
        ensures sound { IsSound (day self.now) }
        ensures value { result ≡ values_of (day self.now).journal };

    /// How many updates were accepted.
    fn accepted(&self) -> usize
        ensures sound { IsSound (day self.now) }
        ensures value { result ≡ length (day self.now).journal };
}
