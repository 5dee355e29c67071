//! A day that many workers plan: that the pieces of a phase run side by side, and which pieces there
//! are.
use super::updates::{Short, batch_of};
use crate::tests::asserts::assert_found;
use crate::tests::days::day_with;
use cdm_day::DayState;
use cdm_flight::{FlightName, Priority, Role, Update};
use cdm_phase::{Gate, PhaseName, Workers};
use std::alloc::Global;
use std::sync::atomic::{AtomicBool, AtomicUsize, Ordering};
use std::thread;
use std::thread::Threads;

/// Holds each of the pieces 0 and 1 of a phase until the other has come, for so many turns at most.
/// It counts the pieces of both phases that pass, and those of other numbers apart.
#[derive(Drop)]
struct Meeting {
    phase: PhaseName,
    targets: [AtomicUsize; 2],
    runways: [AtomicUsize; 2],
    others: AtomicUsize,
    missed: AtomicBool,
}

impl Meeting {
    fn of(phase: PhaseName) -> Meeting {
        Meeting {
            phase,
            targets: [AtomicUsize::new(0), AtomicUsize::new(0)],
            runways: [AtomicUsize::new(0), AtomicUsize::new(0)],
            others: AtomicUsize::new(0),
            missed: AtomicBool::new(false),
        }
    }

    fn passes(&self, phase: PhaseName, piece: usize) -> &AtomicUsize {
        match (phase, piece) {
            (PhaseName::Targets, 0) => &self.targets[0],
            (PhaseName::Targets, 1) => &self.targets[1],
            (PhaseName::Runways, 0) => &self.runways[0],
            (PhaseName::Runways, 1) => &self.runways[1],
            _ => &self.others,
        }
    }

    // How often pieces 0 and 1 of the flights passed, those of the runways, and all others.
    fn counts(&self) -> [usize; 5] {
        [
            self.targets[0].load(Ordering::SeqCst),
            self.targets[1].load(Ordering::SeqCst),
            self.runways[0].load(Ordering::SeqCst),
            self.runways[1].load(Ordering::SeqCst),
            self.others.load(Ordering::SeqCst),
        ]
    }

    fn is_missed(&self) -> bool {
        self.missed.load(Ordering::SeqCst)
    }
}

impl Gate for Meeting {
    fn pass(&self, phase: PhaseName, piece: usize) {
        self.passes(phase, piece).fetch_add(1, Ordering::SeqCst);
        if phase != self.phase || piece > 1 {
            return;
        }
        let other = self.passes(phase, 1 - piece);
        for _ in 0..1_000_000 {
            if other.load(Ordering::SeqCst) > 0 {
                return;
            }
            thread::yield_now();
        }
        self.missed.store(true, Ordering::SeqCst);
    }
}

/// One of 100 flights of which nothing but its priority is known.
fn other_flight(number: u8) -> Option<(Role, Update)> {
    let name = [b'F', b'0' + number / 10 % 10, b'0' + number % 10];
    let flight = FlightName::new(&name)?;
    let priority = Priority::new(5)?;
    Some((Role::AirportOperator, Update::Flt { flight, priority }))
}

/// So many of them.
fn other_flights(alloc: Global, count: u8) -> Option<Vec<(Role, Update)>> {
    (0..count).filter_map(other_flight).collect(alloc).ok()
}

const ON_TWO_RUNWAYS: [Short; 6] = [
    ("FLT", "AB1", "27L", 5),
    ("RWY", "AB1", "27L", 0),
    ("TOBT", "AB1", "27L", 360),
    ("FLT", "AB2", "09", 5),
    ("RWY", "AB2", "09", 0),
    ("TOBT", "AB2", "09", 360),
];

/// The day of an airport with two runways, of which the second is the first by name, after a batch.
fn day_after(alloc: Global, batch: &[(Role, Update)]) -> Option<DayState> {
    let mut day = day_with(alloc, &["27L", "09"])?;
    day.apply(alloc, batch).ok()?;
    Some(day)
}

/// Whether so many workers plan the batch behind the gate.
fn is_planned<R: Threads + Sync>(
    rt: &R,
    alloc: Global,
    day: &mut DayState,
    batch: &[(Role, Update)],
    count: usize,
    gate: &Meeting,
) -> bool {
    match Workers::new(count) {
        Some(workers) => day.apply_all(rt, alloc, batch, workers, gate).is_ok(),
        None => false,
    }
}

/// Whether two workers, who meet in the phase, plan the updates.
fn meet<R: Threads + Sync>(
    rt: &R,
    alloc: Global,
    day: &mut DayState,
    updates: &[Short],
    phase: PhaseName,
) -> Option<bool> {
    let batch = batch_of(alloc, updates)?;
    let gate = Meeting::of(phase);
    Some(is_planned(rt, alloc, day, &batch, 2, &gate) && !gate.is_missed())
}

/// Whether they do so with a flight on each of two runways, on a day with so many flights more, and then with a
/// flight that moves to the other's runway.
fn meet_twice<R: Threads + Sync>(
    rt: &R,
    alloc: Global,
    phase: PhaseName,
    others: u8,
) -> Option<bool> {
    let mut day = day_after(alloc, &other_flights(alloc, others)?)?;
    let change = [("RWY", "AB2", "27L", 0)];
    let first = meet(rt, alloc, &mut day, &ON_TWO_RUNWAYS, phase)?;
    let second = meet(rt, alloc, &mut day, &change, phase)?;
    Some(first && second)
}

/// Two workers meet at the two runways, and with 63 flights more at two pieces of flights.
#[test]
fn pieces_run_side_by_side(rt: HostRuntime) {
    for (phase, others) in [(PhaseName::Runways, 0), (PhaseName::Targets, 63)] {
        let met = meet_twice(&rt, rt.alloc(), phase, others);
        assert_found(&rt, met, Some(true), phase);
    }
}

/// Which pieces pass where so many workers plan a batch over a day after another.
fn passes<R: Threads + Sync>(
    rt: &R,
    alloc: Global,
    before: &[(Role, Update)],
    batch: &[(Role, Update)],
    count: usize,
) -> Option<[usize; 5]> {
    let mut day = day_after(alloc, before)?;
    let gate = Meeting::of(PhaseName::Desks);
    is_planned(rt, alloc, &mut day, batch, count, &gate).then_some(gate.counts())
}

/// 64 flights on their stands are one piece, and 65 are two. They have no runway, so they touch none.
#[test]
fn each_piece_passes_once(rt: HostRuntime) {
    for (flights, second) in [(64, 0), (65, 1)] {
        let batch = other_flights(rt.alloc(), flights).expect(&rt, "no batch");
        for workers in [1, 2, 7, 64] {
            let counts = passes(&rt, rt.alloc(), &[], &batch, workers);
            assert_found(&rt, counts, Some([1, second, 0, 0, 0]), (flights, workers));
        }
    }
}

/// Only touched runways are pieces: that of a flight, those before and after its move, all after a
/// CLOCK. A batch of which nothing is accepted, and one without updates, plan nothing.
#[test]
fn touched_runways_are_the_pieces(rt: HostRuntime) {
    let table: [(&[Short], [usize; 5]); 5] = [
        (&[("PRIO", "AB1", "27L", 1)], [1, 0, 1, 0, 0]),
        (&[("RWY", "AB2", "27L", 0)], [1, 0, 1, 1, 0]),
        (&[("CLOCK", "AB1", "27L", 300)], [1, 0, 1, 1, 0]),
        (&[("TOBT", "AB3", "27L", 300)], [0, 0, 0, 0, 0]),
        (&[], [0, 0, 0, 0, 0]),
    ];
    let before = batch_of(rt.alloc(), &ON_TWO_RUNWAYS).expect(&rt, "no batch");
    for (updates, wanted) in table {
        let batch = batch_of(rt.alloc(), updates).expect(&rt, "no batch");
        for workers in [1, 2, 7, 64] {
            let counts = passes(&rt, rt.alloc(), &before, &batch, workers);
            assert_found(&rt, counts, Some(wanted), workers);
        }
    }
}
