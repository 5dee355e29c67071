//! Readers of files, of lines and of journals.
use crate::tests::asserts::{assert_found, assert_holds};
use crate::tests::devices::Source;
use cdm_day::{Airport, DayState};
use cdm_feed::{
    Device, FileFault, InputFault, read_airport, read_feed, read_input, read_scenarios,
};
use cdm_flight::RefusalWord;
use cdm_journal::{LineRead, journal_line, own_lines, read_journal, read_line};
use cdm_phase::{OpenGate, Workers};
use cdm_time::Day;
use std::alloc::{AllocError, Global};
use std::thread::Threads;

const AIRPORT: &[u8] =
    b"DAY,2025-03-10\nRUNWAY,27L,10,2\nTAXI,*,27L,15\nTAXI,A1,27L,10\nSPACE,27L,H,3\n";

/// Its last record is of a runway that there isn't.
const UNKNOWN: &[u8] = b"DAY,2025-03-10\nRUNWAY,27L,10,2\nTAXI,*,09,15\n";

/// Of its four records the last spells no update.
const FEED: &[u8] =
    b"AP,FLT,AB1,5\nATC,RWY,AB1,27L\nAO,TOBT,AB1,2025-03-10T06:00Z\nAO,TOBT,AB1,now\n";

/// The same without the last.
const JOURNAL: &[u8] = b"AP,FLT,AB1,5\nATC,RWY,AB1,27L\nAO,TOBT,AB1,2025-03-10T06:00Z\n";

/// The records of the same as a person may write them, the last without its end.
const UNTIDY: &[u8] =
    b"\nAP,\"FLT\",AB1,5\r\n\r\nATC,RWY,\"AB1\",27L\rAO,TOBT,AB1,2025-03-10T06:00Z";

const SCENARIOS: &[u8] =
    b"SCENARIO,SHUT\nCLOSE,27L,2025-03-10T06:10Z,2025-03-10T06:30Z\nPRIO,AB1,1\nSCENARIO,SAME\n";

// All that a reader gives.
fn input_of(alloc: Global, text: &[u8]) -> Result<Vec<u8>, InputFault> {
    read_input(alloc, &mut Device::new(Source::new(text, 7, 0)))
}

// Whether a reader gives the whole text.
fn is_read(alloc: Global, text: &[u8]) -> bool {
    match again!(input_of(alloc, text), InputFault::Memory) {
        Ok(found) => found.as_slice() == text,
        Err(_) => false,
    }
}

/// The airport of a file.
pub fn airport_of(alloc: Global, text: &[u8]) -> Result<Airport, FileFault> {
    again!(read_airport(alloc, text), FileFault::Memory)
}

// The number of the record and the word by which an airport file is refused.
fn airport_fault(alloc: Global, text: &[u8]) -> Option<(usize, RefusalWord)> {
    match airport_of(alloc, text) {
        Err(FileFault::Refused(number, word)) => Some((number, word)),
        _ => None,
    }
}

// How many records a feed has, and whether its last is refused for its text and the others aren't.
fn records(alloc: Global, day: &Day, text: &[u8]) -> Option<(usize, bool)> {
    let feed = again!(read_feed(alloc, day, text), AllocError).ok()?;
    let (last, others) = feed.split_last()?;
    let is_last = *last == Err(RefusalWord::Text) && others.iter().all(|record| record.is_ok());
    Some((feed.len(), is_last))
}

// How many updates the first and the last scenario of a file have, or the record and the word by which it is refused.
fn scenarios(
    alloc: Global,
    day: &Day,
    text: &[u8],
) -> Option<Result<(usize, usize), (usize, RefusalWord)>> {
    match again!(read_scenarios(alloc, day, text), FileFault::Memory) {
        Ok(scenarios) => {
            let (first, last) = (scenarios.first()?, scenarios.last()?);
            Some(Ok((first.updates().len(), last.updates().len())))
        }
        Err(FileFault::Refused(number, word)) => Some(Err((number, word))),
        Err(_) => None,
    }
}

// The day of the airport file, and how many runways it has.
fn day_and_runways(alloc: Global) -> Option<(Day, usize)> {
    match airport_of(alloc, AIRPORT) {
        Ok(airport) => Some((*airport.day(), airport.runways().len())),
        Err(_) => None,
    }
}

/// An airport file, a feed and a scenario file are read whole, or the first faulty record is told.
#[test]
fn refused_memory_in_files(rt: HostRuntime) {
    let alloc = rt.alloc();
    assert_holds(&rt, is_read(alloc, AIRPORT), "the input");
    let (day, runways) = day_and_runways(alloc).expect(&rt, "no airport");
    assert_found(&rt, runways, 1, "runways");
    let fault = airport_fault(alloc, UNKNOWN);
    assert_found(&rt, fault, Some((3, RefusalWord::Unknown)), "an airport");
    let feed = records(alloc, &day, FEED);
    assert_found(&rt, feed, Some((4, true)), "a feed");
    for (file, wanted) in [
        (SCENARIOS, Ok((2, 0))),
        (b"CNL,AB1\n".as_slice(), Err((1, RefusalWord::Order))),
    ] {
        let found = scenarios(alloc, &day, file);
        assert_found(&rt, found, Some(wanted), "scenarios");
    }
}

// The line of a journal that a record makes.
fn line_of(alloc: Global, record: &LineRead) -> Option<Vec<u8>> {
    match record {
        LineRead::One(row) => again!(journal_line(alloc, row), AllocError).ok(),
        _ => None,
    }
}

// Whether the record of a line makes this line of a journal.
fn is_line(alloc: Global, line: &[u8], wanted: &[u8]) -> bool {
    match again!(read_line(alloc, line), AllocError) {
        Ok(record) => line_of(alloc, &record).as_deref() == Some(wanted),
        Err(_) => false,
    }
}

// Whether a journal's own lines are these.
fn has_lines(alloc: Global, journal: &[u8], wanted: &[u8]) -> bool {
    match again!(own_lines(alloc, journal), AllocError) {
        Ok(lines) => lines.as_slice() == wanted,
        Err(_) => false,
    }
}

/// The bytes of the longest journal of a test.
const LONGEST_JOURNAL: usize = 1_000;

// The day of a journal, whose airport goes with it.
fn day_of<R: Threads + Sync>(
    rt: &R,
    alloc: Global,
    airport: &Airport,
    journal: &[u8],
) -> Result<DayState, FileFault> {
    let workers = Workers::new(1).unwrap();
    let airport = airport.copy(alloc)?;
    if journal.len() > LONGEST_JOURNAL {
        return Err(FileFault::Memory);
    }
    read_journal(rt, alloc, airport, journal, workers, &OpenGate)
}

// How many updates it has, or the record and the word by which it is refused.
fn updates<R: Threads + Sync>(
    rt: &R,
    alloc: Global,
    airport: &Airport,
    journal: &[u8],
) -> Option<Result<usize, (usize, RefusalWord)>> {
    match again!(day_of(rt, alloc, airport, journal), FileFault::Memory) {
        Ok(day) => Some(Ok(day.journal().len())),
        Err(FileFault::Refused(number, word)) => Some(Err((number, word))),
        Err(_) => None,
    }
}

/// A line and the line of the journal that it makes, and the day of a journal.
#[test]
fn refused_memory_in_a_journal(rt: HostRuntime) {
    let alloc = rt.alloc();
    let is_line = is_line(alloc, b"AP,\"FLT\",AB1,5\r", b"AP,FLT,AB1,5\n");
    assert_holds(&rt, is_line, "a line");
    assert_holds(&rt, has_lines(alloc, UNTIDY, JOURNAL), "own lines");
    let airport = airport_of(alloc, AIRPORT).ok().expect(&rt, "no airport");
    for (journal, wanted) in [(JOURNAL, Ok(3)), (FEED, Err((4, RefusalWord::Text)))] {
        let found = updates(&rt, alloc, &airport, journal);
        assert_found(&rt, found, Some(wanted), "updates");
    }
}
