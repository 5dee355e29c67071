//! What is drawn of one day.
ghost use Rattle.std.specs.Prelude.{◌≡◌, ◌++◌, IfOk, OnOk, map, flat_map};
ghost use Rattle.cdm_view.specs.Turns.{AreTurns};
ghost use Rattle.cdm_picture.specs.Places.{HaveTakeOffs, runway_places, slot_place};
ghost use Rattle.cdm_picture.specs.Sections.{ShowsPlan, place_of};

use crate::axis::{push_lines, push_now, push_times};
use crate::bands::{Band, CELLS};
use crate::bars::{LANE, bar_of, first_of};
use crate::hours::Hours;
use crate::lanes::Lanes;
use crate::marks::{BlockedMark, FlightMark, Section};
use crate::shape::{Paint, Shape, number_of};
use crate::words::Words;
use cdm_day::{Records, runway_named};
use cdm_flight::{FlightName, RunwayName, push_last};
use cdm_report::indicators;
use cdm_sequence::{BlockedFlight, Plan, RunwayPlan, Slot};
use cdm_time::Day;
use cdm_view::{Run, Standing, Standings, Turns, waits_among};
use std::alloc::{AllocError, Global};

/// From a section's top to its bands, and from one band to the next.
const HEAD: u32 = 62;

const GAP: u32 = 22;

/// How many blocked flights stand in a line, and how wide each is, in tenths of a pixel.
const BLOCKED_IN_LINE: usize = 10;

const BLOCKED_WIDTH: u32 = 1400;

/// What a section is drawn for: the day, the hours, and where the flights stood before, if that is to be
/// marked.
#[derive(Clone, Copy)]
pub(crate) struct Page<'a> {
    pub(crate) day: Day,
    pub(crate) hours: Hours,
    pub(crate) before: Option<&'a Standings>,
}

// Whether two slots have the same line.
fn are_alike(old: &Slot, new: &Slot) -> bool {
    old.tobt == new.tobt
        && old.exot == new.exot
        && old.ctot == new.ctot
        && old.tsat == new.tsat
        && old.ttot == new.ttot
        && old.mark == new.mark
}

// Whether a flight with this slot stood otherwise before.
fn is_moved(before: Option<&Standings>, runway: RunwayName, slot: &Slot) -> bool {
    let Some(before) = before else {
        return false;
    };
    match before.of_flight(slot.name) {
        Some(Standing::OnRunway(name, old)) => *name != runway || !are_alike(old, slot),
        _ => true,
    }
}

// What the flight of a slot of these turns waits for, if it has a delay.
fn runs_of<R: Records>(
    alloc: Global,
    records: &R,
    turns: &Turns<'_>,
    slot: &Slot,
) -> Result<Vec<Run>, AllocError>
    requires { AreTurns (R.day records.now) turns.now }
{
    if slot.delay.unwrap_or(0) == 0 {
        return Ok(Vec::new(alloc));
    }
    let Some(flight) = records.flight(slot.name) else {
        return Ok(Vec::new(alloc));
    };
    match flight.runway {
        Some(runway) if runway == turns.runway() => waits_among(alloc, records, turns, flight),
        _ => Ok(Vec::new(alloc)),
    }
}

// How wide a name is, with its mark, in tenths of a pixel.
fn name_width(name: FlightName) -> u32 {
    number_of(name.bytes().len())
        .saturating_mul(84)
        .saturating_add(180)
}

// What is drawn of the runways of a plan: the shapes that lie behind the flights, and the marks of these.
#[derive(Drop)]
struct Drawn {
    shapes: Vec<Shape>,
    flights: Vec<FlightMark>,
}

// A page, and the day that is drawn on it: its records and its plan.
#[derive(Clone, Copy)]
struct Drawing<'a, R: Records> {
    page: &'a Page<'a>,
    records: &'a R,
    plan: &'a Plan,
}

impl<R: Records> Drawing<'_, R> {
    // The mark of a flight, in the first lane that has room for it below `top`.
    fn flight_mark(
        &self,
        alloc: Global,
        turns: &Turns<'_>,
        slot: &Slot,
        lanes: &mut Lanes,
        top: u32,
    ) -> Result<FlightMark, AllocError>
        requires { AreTurns (R.day self.now.records.now) turns.now }
        ensures { IfOk result (λ mark. place_of mark ≡ slot_place self.now.page.now.hours turns.now.runway slot.now) }
    {
        let Page { day, hours, before } = *self.page;
        let runway = turns.runway();
        let runs = runs_of(alloc, self.records, turns, slot)?;
        let waits = Words::waits(alloc, day, &runs)?;
        let x = hours.x_of(slot.ttot.get());
        let end = x.saturating_add(name_width(slot.name));
        let lane = number_of(lanes.take(hours.x_of(first_of(slot)), end)?);
        let y = top.saturating_add(lane.saturating_mul(LANE));
        let bar = bar_of(alloc, hours, slot, &runs, y)?;
        let paint = if is_moved(before, runway, slot) {
            Paint::Moved
        } else {
            Paint::TakeOff
        };
        Ok(FlightMark {
            runway,
            slot: *slot,
            x,
            y,
            paint,
            waits,
            bar,
        })
    }

    // Marks the flights of a runway below `top`, and answers how many lanes they take.
    fn push_flights(
        &self,
        alloc: Global,
        runway: &RunwayPlan,
        flights: &mut Vec<FlightMark>,
        top: u32,
    ) -> Result<usize, AllocError>
        ensures { OnOk result (map place_of flights.new.items
            ≡ map place_of flights.old.items ++ runway_places self.now.page.now.hours runway.now) }
    {
        let mut lanes = Lanes::new(alloc);
        let turns = Turns::of(alloc, self.records, self.plan, runway.runway)?;
        for slot in runway.slots.as_slice() {
            flights.push(self.flight_mark(alloc, &turns, slot, &mut lanes, top)?)?;
        }
        Ok(lanes.count())
    }

    // Draws the band of a runway and marks its flights, and answers where the next band begins.
    fn push_runway(
        &self,
        alloc: Global,
        runway: &RunwayPlan,
        drawn: &mut Drawn,
        y: u32,
    ) -> Result<u32, AllocError>
        ensures { OnOk result (map place_of drawn.new.flights.items
            ≡ map place_of drawn.old.flights.items ++ runway_places self.now.page.now.hours runway.now) }
    {
        let Page { day, hours, .. } = *self.page;
        let shapes = &mut drawn.shapes;
        push_times(alloc, shapes, day, hours, y)?;
        let top = y.saturating_add(CELLS);
        let lanes = number_of(self.push_flights(alloc, runway, &mut drawn.flights, top)?);
        let height = lanes.max(1).saturating_mul(LANE).saturating_add(CELLS + 4);
        if let Some(rules) = runway_named(self.records, runway.runway) {
            let band = Band {
                hours,
                runway: rules,
                slots: runway.slots.as_slice(),
                y,
                height,
            };
            band.push(alloc, shapes)?;
        }
        push_lines(shapes, hours, y, height)?;
        if lanes == 0 {
            let words = Words::fixed(alloc, "no departure")?;
            shapes.push(Shape::label(Paint::Plain, 1060, top.saturating_add(11), words))?;
        }
        Ok(y.saturating_add(height).saturating_add(GAP))
    }

    // Draws the bands of the runways of the plan and marks its flights, and answers where the last band ends.
    fn push_runways(&self, alloc: Global, drawn: &mut Drawn, top: u32) -> Result<u32, AllocError>
        ensures { OnOk result (map place_of drawn.new.flights.items
            ≡ map place_of drawn.old.flights.items
            ++ flat_map (runway_places self.now.page.now.hours) self.now.plan.now.runways) }
    {
        let plan = self.plan;
        let mut y = top;
        for runway in plan.runways.as_slice() {
            y = self.push_runway(alloc, runway, drawn, y)?;
        }
        Ok(y)
    }
}

// Whether a blocked flight wasn't blocked by this rule before.
fn is_newly_blocked(before: Option<&Standings>, flight: &BlockedFlight) -> bool {
    let Some(before) = before else {
        return false;
    };
    match before.of_flight(flight.name) {
        Some(Standing::Blocked(old)) => old.rule != flight.rule,
        _ => true,
    }
}

// The line of a blocked flight by its number, from 0.
fn blocked_mark(page: &Page<'_>, flight: &BlockedFlight, number: usize, top: u32) -> BlockedMark
    ensures { result.flight ≡ flight.now }
{
    let paint = if is_newly_blocked(page.before, flight) {
        Paint::Moved
    } else {
        Paint::Plain
    };
    let column = number_of(number % BLOCKED_IN_LINE);
    let line = number_of(number / BLOCKED_IN_LINE);
    BlockedMark {
        flight: *flight,
        paint,
        x: column.saturating_mul(BLOCKED_WIDTH).saturating_add(1000),
        y: line.saturating_mul(LANE).saturating_add(top),
    }
}

// The lines of the blocked flights.
fn blocked_marks(
    alloc: Global,
    page: &Page<'_>,
    flights: &[BlockedFlight],
    top: u32,
) -> Result<Vec<BlockedMark>, AllocError>
    ensures { IfOk result (λ marks. map (λ m. m.flight) marks.items ≡ flights.now) }
{
    let mut marks = Vec::new(alloc);
    for (number, flight) in flights.iter().enumerate() {
        push_last(&mut marks, blocked_mark(page, flight, number, top))?;
    }
    Ok(marks)
}

/// Draws a day with its plan under a heading, from `y` down.
pub(crate) fn plan_section<R: Records>(
    alloc: Global,
    page: &Page<'_>,
    records: &R,
    plan: &Plan,
    heading: Words,
    y: u32,
) -> Result<Section, AllocError>
    requires { HaveTakeOffs page.now.hours plan.now }
    ensures heading { IfOk result (λ section. section.heading ≡ heading) }
    ensures shown { IfOk result (ShowsPlan page.now.hours plan.entry.now) }
{
    let drawing = Drawing {
        page,
        records,
        plan,
    };
    let mut drawn = Drawn {
        shapes: Vec::new(alloc),
        flights: Vec::new(alloc),
    };
    let top = y.saturating_add(HEAD);
    let end = drawing.push_runways(alloc, &mut drawn, top)?;
    let Drawn {
        mut shapes,
        flights,
    } = drawn;
    let bottom = end.saturating_sub(GAP);
    push_now(alloc, &mut shapes, page.hours, plan.clock, top, bottom)?;
    let counts = Words::counts(alloc, &indicators(plan))?;
    shapes.push(Shape::label(Paint::Plain, 100, y.saturating_add(36), counts))?;
    let listed = end.saturating_add(14);
    let blocked = blocked_marks(alloc, page, plan.blocked.as_slice(), listed)?;
    push_blocked_heading(alloc, &mut shapes, blocked.len(), listed)?;
    let lines = number_of(blocked.len().div_ceil(BLOCKED_IN_LINE));
    let end = lines
        .saturating_mul(LANE)
        .saturating_add(listed)
        .saturating_add(GAP);
    Ok(Section {
        heading,
        y,
        end,
        shapes,
        flights,
        blocked,
    })
}

// Writes what the lines of the blocked flights are, if there are any.
fn push_blocked_heading(
    alloc: Global,
    shapes: &mut Vec<Shape>,
    count: usize,
    y: u32,
) -> Result<(), AllocError> {
    if count > 0 {
        let words = Words::fixed(alloc, "BLOCKED")?;
        shapes.push(Shape::label(Paint::Plain, 100, y, words))?;
    }
    Ok(())
}
