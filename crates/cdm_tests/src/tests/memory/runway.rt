//! Runways.
use crate::tests::asserts::assert_found;
use cdm_flight::{Cap, CellLength, RunwayName};
use cdm_runway::{Runway, RunwayFault};
use cdm_time::{Bound, Minute};
use std::alloc::{AllocError, Global};

/// A runway with 2 flights in each cell of 10 minutes. Nothing for want of memory.
pub fn two_in_ten(alloc: Global) -> Option<Runway> {
    let name = RunwayName::new(b"27L")?;
    Runway::new(alloc, name, CellLength::new(10)?, Cap::new(2)?).ok()
}

/// A window and a capacity.
pub fn window_of(from: u16, to: u16, cap: u16) -> Option<(Minute, Bound, Cap)> {
    Some((Minute::new(from)?, Bound::new(to)?, Cap::new(cap)?))
}

// The capacity of a minute's cell, and whether the minute is closed.
fn allowed(runway: &Runway, minute: Minute) -> (u16, bool) {
    (runway.cap_at(minute).get(), runway.closed(minute))
}

// Whether two runways are alike at each minute.
fn agree(runway: &Runway, other: &Runway) -> bool {
    for number in 0..2880 {
        let Some(minute) = Minute::new(number) else {
            return false;
        };
        if allowed(runway, minute) != allowed(other, minute) {
            return false;
        }
    }
    runway.name() == other.name() && runway.cell() == other.cell()
}

/// Sets a rate of so many flights, closes or opens.
pub fn set_window(
    runway: &mut Runway,
    word: &str,
    from: Minute,
    to: Bound,
    cap: Cap,
) -> Result<(), RunwayFault> {
    match word {
        "RATE" => runway.rate(from, to, cap),
        "CLOSE" => runway.close(from, to),
        _ => runway.reopen(from, to),
    }
}

// A copy that is alike.
fn copied(alloc: Global, runway: &Runway) -> Option<Runway> {
    let copied = again!(runway.copy(alloc), AllocError, true)?;
    agree(runway, &copied).then_some(copied)
}

// Changes a window of a runway, which is as before where memory is refused.
fn change(
    runway: &mut Runway,
    before: &Runway,
    word: &str,
    window: (u16, u16),
    number: u16,
) -> Option<()> {
    let (from, to, cap) = window_of(window.0, window.1, number)?;
    again!(
        set_window(runway, word, from, to, cap),
        RunwayFault::Memory,
        agree(runway, before)
    )
}

// What the runway allows at the first minute of a changed window.
fn changed(
    alloc: Global,
    runway: &mut Runway,
    word: &str,
    window: (u16, u16),
    number: u16,
) -> Option<(u16, bool)> {
    let before = copied(alloc, runway)?;
    change(runway, &before, word, window, number)?;
    Some(allowed(runway, Minute::new(window.0)?))
}

// A runway, made anew where memory was refused.
fn made(alloc: Global) -> Option<Runway> {
    match two_in_ten(alloc) {
        Some(runway) => Some(runway),
        None => two_in_ten(alloc),
    }
}

/// Changes of a window, each with what the runway then allows at its first minute.
const CHANGES: [(&str, u16, u16, u16, (u16, bool)); 7] = [
    ("CLOSE", 372, 391, 0, (2, true)),
    ("RATE", 370, 400, 1, (1, false)),
    ("OPEN", 375, 376, 0, (1, false)),
    ("RATE", 380, 390, 3, (3, true)),
    ("CLOSE", 0, 2880, 0, (2, true)),
    ("OPEN", 360, 380, 0, (2, false)),
    ("RATE", 0, 2880, 0, (0, true)),
];

/// Each change is made, and the runway then allows what it should.
#[test]
fn refused_memory_leaves_a_runway(rt: HostRuntime) {
    let alloc = rt.alloc();
    let mut runway = made(alloc).expect(&rt, "no runway");
    for (word, from, to, number, after) in &CHANGES {
        let found = changed(alloc, &mut runway, word, (*from, *to), *number);
        assert_found(&rt, found, Some(*after), (*word, *from, *to));
    }
}
