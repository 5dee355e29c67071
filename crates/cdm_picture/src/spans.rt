//! Which hours a picture shows.
ghost use Rattle.std.specs.Prelude.{◌<◌, ◌≤◌, ℕ, All};

use crate::bars::first_of;
use crate::hours::Hours;
use cdm_day::Records;
use cdm_runway::Runway;
use cdm_scenario::Outcome;
use cdm_sequence::{Plan, RunwayPlan, Slot};
use cdm_time::{HORIZON_MINUTES, Minute};

/// The minutes that there is something at, from the first up to an end.
#[derive(Clone, Copy)]
pub(crate) struct Span {
    first: u16,
    end: u16,
    ghost within: { end ≤ 2880 },
}

impl Span {
    ghost use Rattle.cdm_picture.specs.Places.{IsWithin};
    ghost use Rattle.cdm_picture.specs.inner.Spans.{Has, HasOutcome, HasPlan, HasSlots, Keeps};

    /// No minute.
    pub(crate) const NONE: Span = Span {
        first: HORIZON_MINUTES,
        end: 0,
    };

    // With the minutes from one to another.
    fn with(self, first: u16, last: Minute) -> Span
        ensures keeps { Keeps self result }
        ensures last { Has result last }
    {
        let last = last.get();
        Span {
            first: self.first.min(first).min(last),
            end: self.end.max(last + 1),
        }
    }

    // With those of the flights of a runway.
    fn with_slots(self, slots: &[Slot]) -> Span
        ensures keeps { Keeps self result }
        ensures slots { HasSlots result slots.now }
    {
        let mut span = self;
        for slot in slots {
            span = span.with(first_of(slot), slot.ttot);
        }
        span
    }

    // With those of the flights of runways.
    fn with_runways(self, runways: &[RunwayPlan]) -> Span
        ensures keeps { Keeps self result }
        ensures runways { All (λ p. HasSlots result p.slots) runways.now }
    {
        let mut span = self;
        for runway in runways {
            span = span.with_slots(runway.slots.as_slice());
        }
        span
    }

    /// With those of the flights of a plan.
    pub(crate) fn with_plan(self, plan: &Plan) -> Span
        ensures keeps { Keeps self result }
        ensures plan { HasPlan result plan.entry.now }
    {
        self.with_runways(plan.runways.as_slice())
    }

    // With those at which the runway is closed.
    fn with_closed(self, runway: &Runway) -> Span
        ensures { Keeps self result }
    {
        let mut span = self;
        for number in 0..HORIZON_MINUTES {
            if let Some(minute) = Minute::new(number)
                && runway.closed(minute)
            {
                span = span.with(number, minute);
            }
        }
        span
    }

    /// With those at which a runway of the day is closed.
    pub(crate) fn with_closures<R: Records>(self, records: &R) -> Span
        ensures { Keeps self result }
    {
        let mut span = self;
        for place in 0..records.runways() {
            if let Some(runway) = records.runway_at(place) {
                span = span.with_closed(runway);
            }
        }
        span
    }

    // With those of the flights of an outcome that is a plan.
    fn with_outcome(self, outcome: &Outcome) -> Span
        ensures keeps { Keeps self result }
        ensures outcome { HasOutcome result outcome.now }
    {
        match outcome {
            Outcome::Planned(plan, _) => self.with_plan(plan),
            Outcome::Refused(..) => self,
        }
    }

    /// With those of the flights of the outcomes that are plans.
    pub(crate) fn with_outcomes(self, outcomes: &[Outcome]) -> Span
        ensures keeps { Keeps self result }
        ensures outcomes { All (HasOutcome result) outcomes.now }
    {
        let mut span = self;
        for outcome in outcomes {
            span = span.with_outcome(outcome);
        }
        span
    }

    /// The hours round these minutes, or the first day where there is none.
    pub(crate) fn hours(self) -> Hours
        ensures { (minute : ℕ) → Has self minute → IsWithin result minute }
    {
        if self.first < self.end {
            Hours::around(self.first, self.end)
        } else {
            Hours::DAY
        }
    }
}
