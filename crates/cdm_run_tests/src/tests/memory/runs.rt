//! Whole runs.
use crate::tests::asserts::assert_found;
use crate::tests::devices::{Page, Source};
use cdm_feed::{CommonFault, Device, RunCounts, RunError, run};
use cdm_live::{LiveCounts, LiveError, run_live};
use cdm_phase::{OpenGate, Workers};
use std::process::Abort;
use std::sync::Wait;
use std::thread::Threads;

pub const AIRPORT: &str = "\
DAY,2025-03-10
RUNWAY,27L,10,2
TAXI,*,27L,15
TAXI,A1,27L,10
";

/// Three flights that want one cell.
pub const FEED: &str = "\
AP,FLT,AB1,5
ATC,RWY,AB1,27L
AO,TOBT,AB1,2025-03-10T06:00Z
AP,FLT,AB2,5
ATC,RWY,AB2,27L
AO,TOBT,AB2,2025-03-10T06:00Z
AP,FLT,AB3,5
ATC,RWY,AB3,27L
AO,TOBT,AB3,2025-03-10T06:00Z
";

const SCENARIOS: &str = "\
SCENARIO,SHUT
CLOSE,27L,2025-03-10T06:10Z,2025-03-10T06:30Z
SCENARIO,SHUT2
CLOSE,27L,2025-03-10T06:10Z,2025-03-10T06:30Z
SCENARIO,BAD
PRIO,AB3,1
TOBT,XY9,2025-03-10T06:00Z
SCENARIO,SAME
";

const REPORT: &str = "\
DAY 2025-03-10 NOW 100000
RUNWAY 27L
AB1     100600   15 ------ 100600 100615 P    0
AB2     100600   15 ------ 100600 100615 P    0
AB3     100600   15 ------ 100605 100620 P    5
TOTAL PLACED 3 DELAY 5 MAX 5 LATE 0 BLOCKED 0
";

/// Of both closures.
const SHUT: &str = "\
DAY 2025-03-10 NOW 100000
RUNWAY 27L
AB1     100600   15 ------ 100615 100630 P   15
AB2     100600   15 ------ 100615 100630 P   15
AB3     100600   15 ------ 100625 100640 P   25
TOTAL PLACED 3 DELAY 55 MAX 25 LATE 1 BLOCKED 0
DELTA PLACED +0 DELAY +50 MAX +20 LATE +1 BLOCKED +0
";

/// Whether a text is made of these parts.
pub fn is_made_of(text: &[u8], parts: &[&str]) -> bool {
    let mut left = text;
    for part in parts {
        match left.strip_prefix(part.as_bytes()) {
            Some(rest) => left = rest,
            None => return false,
        }
    }
    left.is_empty()
}

// What a run with so many workers answers, and what it has written.
fn plan<R: AllocGlobal + Threads + Sync + Abort>(
    rt: &R,
    count: usize,
) -> (Result<RunCounts, RunError>, Page) {
    let workers = Workers::new(count).expect(rt, "workers");
    let mut out = Device::new(Page::new());
    let answer = run(
        rt,
        rt.alloc(),
        &mut Device::new(Source::whole(AIRPORT.as_bytes())),
        &mut Device::new(Source::whole(FEED.as_bytes())),
        &mut Device::new(Source::whole(SCENARIOS.as_bytes())),
        workers,
        &OpenGate,
        &mut out,
    );
    (answer, out.into_inner())
}

/// What a run with scenarios writes.
const PARTS: [&str; 8] = [
    REPORT,
    "SCENARIO SHUT\n",
    SHUT,
    "SCENARIO SHUT2\n",
    SHUT,
    "SCENARIO BAD\nREFUSED 2 UNKNOWN\nSCENARIO SAME\n",
    REPORT,
    "DELTA PLACED +0 DELAY +0 MAX +0 LATE +0 BLOCKED +0\n",
];

/// What it counts.
const COUNTS: RunCounts = RunCounts {
    accepted: 9,
    refused: 0,
    scenarios: 4,
};

// What such a run answers, and whether it has written its text. Nothing where it was refused memory and has written nothing.
fn told<R: AllocGlobal + Threads + Sync + Abort>(
    rt: &R,
    count: usize,
) -> Option<(Result<RunCounts, RunError>, bool)> {
    let (answer, out) = plan(rt, count);
    let text = out.text();
    if text.is_empty() && answer == Err(RunError::Common(CommonFault::Memory)) {
        None
    } else {
        Some((answer, is_made_of(text, &PARTS)))
    }
}

// The same, made once more where there is nothing.
fn told_again<R: AllocGlobal + Threads + Sync + Abort>(
    rt: &R,
    count: usize,
) -> Option<(Result<RunCounts, RunError>, bool)> {
    match told(rt, count) {
        Some(told) => Some(told),
        None => told(rt, count),
    }
}

/// Runs of one text with 1, 2, 7 and 64 workers: nothing for want of memory, and then the whole text.
#[test]
fn refused_memory_in_a_run(rt: HostRuntime) {
    for count in [1, 2, 7, 64] {
        let found = told_again(&rt, count);
        assert_found(&rt, found, Some((Ok(COUNTS), true)), (count, "workers"));
    }
}

/// What a live run of a feed with a flight and of an empty one writes.
const LIVE: &str = "\
DAY 2025-03-10 NOW 100000
RUNWAY 27L
AB1     100600   15 ------ 100600 100615 P    0
TOTAL PLACED 1 DELAY 0 MAX 0 LATE 0 BLOCKED 0
DESK 1 POSTS 1 REFUSED 0
DESK 2 POSTS 0 REFUSED 0
";

// What a live run of two feeds answers, and what it has written.
fn live<R: AllocGlobal + Threads + Wait + Sync + Abort>(
    rt: &R,
    feed1: &[u8],
    feed2: &[u8],
) -> (Result<LiveCounts, LiveError>, Page) {
    let mut out = Device::new(Page::new());
    let answer = run_live(
        rt,
        rt.alloc(),
        &mut Device::new(Source::whole(AIRPORT.as_bytes())),
        &mut Device::new(Source::whole(feed1)),
        &mut Device::new(Source::whole(feed2)),
        &OpenGate,
        &mut out,
    );
    (answer, out.into_inner())
}

// What a live run of a feed and an empty one answers, and whether it has written its text. Nothing where it was refused
// memory and has written nothing.
fn live_told<R: AllocGlobal + Threads + Wait + Sync + Abort>(
    rt: &R,
    feed: &[u8],
) -> Option<(Result<LiveCounts, LiveError>, bool)> {
    let (answer, out) = live(rt, feed, b"");
    let text = out.text();
    if text.is_empty() && answer == Err(LiveError::Common(CommonFault::Memory)) {
        None
    } else {
        Some((answer, text == LIVE.as_bytes()))
    }
}

// The same, made once more where there is nothing.
fn live_told_again<R: AllocGlobal + Threads + Wait + Sync + Abort>(
    rt: &R,
    feed: &[u8],
) -> Option<(Result<LiveCounts, LiveError>, bool)> {
    match live_told(rt, feed) {
        Some(told) => Some(told),
        None => live_told(rt, feed),
    }
}

/// A post and two looks are three calls.
#[test]
fn refused_memory_in_a_live_run(rt: HostRuntime) {
    let feed = FEED.get(..59).unwrap_or(FEED);
    let counts = LiveCounts {
        accepted: 3,
        refused: 0,
        calls: 3,
    };
    let found = live_told_again(&rt, feed.as_bytes());
    assert_found(&rt, found, Some((Ok(counts), true)), "a live run");
}
