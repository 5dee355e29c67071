//! Worked values, as calls.
use crate::tests::asserts::{assert_found, assert_holds};
use crate::tests::days::{THREE_FLIGHTS, day_of};
use crate::tests::memory::is_planned;
use crate::tests::memory::runway::{two_in_ten, window_of};
use cdm_day::{Change, DayState, Records, Reply, judge, plan_of};
use cdm_flight::{FlightName, Group, RefusalWord, Update};
use cdm_runway::{Blocked, Runway, RunwayFault, RunwayLoad};
use cdm_scenario::{Overlay, Scenario, ScenarioName};
use cdm_sequence::Plan;
use cdm_time::{Bound, Minute, Tolerance, Window, ctot_window};
use std::alloc::Global;

// The minutes from one up to another.
fn window(from: u16, to: u16) -> Option<Window> {
    Window::new(Minute::new(from)?, Bound::new(to)?)
}

/// The earliest minute of a window, or why there is none.
type Earliest = Result<Minute, Blocked>;

// Those of a wide and a narrow window behind two flights at a minute, and that of the narrow one when a window is closed.
fn earliest(
    runway: &mut Runway,
    taken: Minute,
    wide: Window,
    narrow: Window,
    closed: (Minute, Bound),
) -> Option<(Earliest, Earliest, Earliest)> {
    let mut load = RunwayLoad::empty(runway);
    load.take(runway, taken, Group::Medium);
    load.take(runway, taken, Group::Medium);
    let in_wide = load.earliest(runway, wide, Group::Medium);
    let in_narrow = load.earliest(runway, narrow, Group::Medium);
    runway.close(closed.0, closed.1).ok()?;
    let in_closed = load.earliest(runway, narrow, Group::Medium);
    Some((in_wide, in_narrow, in_closed))
}

// Those of the windows from 06:15 to 06:30 and to 06:20 behind two flights at 06:15, with a closure from 06:10 to 06:20.
fn earliest_of(runway: &mut Runway) -> Option<(Earliest, Earliest, Earliest)> {
    let closed = (Minute::new(370)?, Bound::new(380)?);
    let (wide, narrow) = (window(375, 390)?, window(375, 380)?);
    earliest(runway, Minute::new(375)?, wide, narrow, closed)
}

// Whether a window off the grid is one of a rate, and the answer to such a rate.
fn off_grid(runway: &mut Runway) -> Option<(bool, Result<(), RunwayFault>)> {
    let (from, to, cap) = window_of(365, 380, 2)?;
    let is_ordered = runway.ordered_rate(from, to);
    Some((is_ordered, runway.rate(from, to, cap)))
}

/// Two flights in the cell of 06:10, a closure of its second half, and a rate off the grid.
#[test]
fn a_load_fills_its_cells(rt: HostRuntime) {
    let free = Minute::new(380).expect(&rt, "no minute");
    let mut runway = two_in_ten(rt.alloc()).expect(&rt, "no runway");
    let found = earliest_of(&mut runway);
    let wanted = (Ok(free), Err(Blocked::Rate), Err(Blocked::Closure));
    assert_found(&rt, found, Some(wanted), "earliest");
    let found = off_grid(&mut runway);
    let wanted = (false, Err(RunwayFault::Order));
    assert_found(&rt, found, Some(wanted), "off the grid");
}

// From where to where the window of a CTOT is.
fn window_around(ctot: u16, tolerance: Tolerance) -> Option<(u16, u16)> {
    let window = ctot_window(Minute::new(ctot)?, tolerance);
    Some((window.from().get(), window.to().get()))
}

/// The tolerance of a CTOT near both ends of the horizon, the usual one and a wider one.
#[test]
fn a_ctot_window_is_cut_to_the_horizon(rt: HostRuntime) {
    let usual = Tolerance::usual();
    let wide = Tolerance::new(15, 30).expect(&rt, "no tolerance");
    for (ctot, tolerance, from, to) in [
        (0, usual, 0, 11),
        (3, usual, 0, 14),
        (5, usual, 0, 16),
        (6, usual, 1, 17),
        (375, usual, 370, 386),
        (2869, usual, 2864, 2880),
        (2875, usual, 2870, 2880),
        (2879, usual, 2874, 2880),
        (0, wide, 0, 31),
        (2879, wide, 2864, 2880),
    ] {
        let found = window_around(ctot, tolerance);
        assert_found(&rt, found, Some((from, to)), ("CTOT", ctot));
    }
}

// Whether a TOBT of an unknown flight is refused, which leaves nine updates accepted.
fn refuses_unknown(alloc: Global, overlay: &mut Overlay) -> Option<bool> {
    let (flight, tobt) = (FlightName::new(b"XY9")?, Minute::new(360)?);
    let unknown = Update::Tobt { flight, tobt };
    let is_judged = matches!(judge(overlay, &unknown), Err(RefusalWord::Unknown));
    let reply = overlay.apply(alloc, &unknown).ok()?;
    let is_refused = reply == Reply::Refused(RefusalWord::Unknown);
    Some(is_judged && is_refused && overlay.accepted() == 9)
}

// Whether a later TOBT of AB1 is the tenth update.
fn takes_later(alloc: Global, overlay: &mut Overlay) -> Option<bool> {
    let (flight, tobt) = (FlightName::new(b"AB1")?, Minute::new(375)?);
    let later = Update::Tobt { flight, tobt };
    let is_judged = matches!(judge(overlay, &later), Ok(Change::NextRecord(_)));
    let reply = overlay.apply(alloc, &later).ok()?;
    Some(is_judged && reply == Reply::Accepted && overlay.accepted() == 10)
}

// The TOBT of AB1.
fn tobt(overlay: &Overlay) -> Option<u16> {
    let flight = FlightName::new(b"AB1")?;
    Some(overlay.flight(flight)?.tobt?.get())
}

// Whether AB1 takes off last, at 06:30.
fn is_last(plan: &Plan) -> Option<bool> {
    let last = plan.runways.as_slice().first()?.slots.as_slice().last()?;
    Some(last.name.text() == "AB1" && is_planned(plan, (&[375, 375, 390], 0)))
}

// Whether it does so in the plan over the day, and in that which is made anew.
fn is_last_over(alloc: Global, overlay: &Overlay) -> Option<(bool, bool)> {
    let over = is_last(&overlay.plan(alloc).ok()?)?;
    let anew = is_last(&plan_of(alloc, overlay).ok()?)?;
    Some((over, anew))
}

/// Whether a TOBT of an unknown flight is refused over a day, whether a later one of AB1 is taken, which TOBT it then has, and
/// whether it takes off last, also in a plan that is made anew.
type Laid = (
    Option<bool>,
    Option<bool>,
    Option<u16>,
    Option<(bool, bool)>,
);

// What is found so over this day.
fn laid_over(alloc: Global, base: &DayState) -> Laid {
    let mut overlay = Overlay::over(alloc, base);
    let is_refused = refuses_unknown(alloc, &mut overlay);
    let is_taken = takes_later(alloc, &mut overlay);
    let later = tobt(&overlay);
    (is_refused, is_taken, later, is_last_over(alloc, &overlay))
}

/// Over the day of three flights a TOBT of an unknown flight is refused, and a later one of AB1 is taken: then AB1 takes off
/// at 06:30. The day itself still has it at 06:15.
#[test]
fn an_overlay_is_judged_and_planned(rt: HostRuntime) {
    let base = day_of(rt.alloc(), &THREE_FLIGHTS).expect(&rt, "no day");
    let found = laid_over(rt.alloc(), &base);
    let last = Some((true, true));
    let wanted = (Some(true), Some(true), Some(375), last);
    assert_found(&rt, found, wanted, "over the day");
    let stays = is_planned(base.plan(), (&[375, 375, 380], 0));
    assert_holds(&rt, stays, "the day");
}

// How many updates a scenario of so many has, if there is one.
fn scenario_of(alloc: Global, count: usize) -> Option<Option<usize>> {
    let name = ScenarioName::new(b"SHUT")?;
    let (flight, tobt) = (FlightName::new(b"AB1")?, Minute::new(360)?);
    let mut updates = Vec::new(alloc);
    for _ in 0..count {
        updates.push(Update::Tobt { flight, tobt }).ok()?;
    }
    match Scenario::new(name, updates) {
        Some(scenario) => Some(Some(scenario.updates().len())),
        None => Some(None),
    }
}

/// A scenario has 64 updates at most, however it is made.
#[test]
fn a_scenario_has_64_updates(rt: HostRuntime) {
    for (count, is_one) in [(0, true), (64, true), (65, false)] {
        let found = scenario_of(rt.alloc(), count);
        assert_found(&rt, found, Some(is_one.then_some(count)), count);
    }
}
