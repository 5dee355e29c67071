//! Live runs: two desks that meet, what a desk has done at its gate, and devices that fail.
mod gate;

use super::asserts::{assert_found, assert_holds};
use super::devices::{Given, Meeting, Sink, Source, Stop};
use cdm_feed::{CommonFault, Device, Input};
use cdm_live::{LiveCounts, LiveError, run_live};
use cdm_phase::{Gate, OpenGate, PhaseName};
use std::alloc::Global;
use std::process::Abort;
use std::sync::Wait;
use std::thread::Threads;

/// An airport with one runway, on which two flights take off in ten minutes.
const AIRPORT: &str = "\
DAY,2025-03-10
RUNWAY,27L,10,2
TAXI,*,27L,15
TAXI,A1,27L,10
";

/// A flight for the first desk, ready at 06:00.
const FEED1: &str = "\
AP,FLT,AB1,5
ATC,RWY,AB1,27L
AO,TOBT,AB1,2025-03-10T06:00Z
";

/// A flight for the second desk, ready at 06:00.
const FEED2: &str = "\
AP,FLT,CD2,5
ATC,RWY,CD2,27L
AO,TOBT,CD2,2025-03-10T06:00Z
";

/// What a live run of the two writes.
const TEXT: &str = "\
DAY 2025-03-10 NOW 100000
RUNWAY 27L
AB1     100600   15 ------ 100600 100615 P    0
CD2     100600   15 ------ 100600 100615 P    0
TOTAL PLACED 2 DELAY 0 MAX 0 LATE 0 BLOCKED 0
DESK 1 POSTS 1 REFUSED 0
DESK 2 POSTS 1 REFUSED 0
";

// The files of two desks, a byte at a time, each of which fails at one of its reads.
fn files(fails_at: [usize; 3]) -> [Given<'static>; 3] {
    [
        (AIRPORT.as_bytes(), 1, fails_at[0]),
        (FEED1.as_bytes(), 1, fails_at[1]),
        (FEED2.as_bytes(), 1, fails_at[2]),
    ]
}

// What a live run answers, and what it has written.
fn run_of<R: AllocGlobal + Threads + Wait + Sync + Abort>(
    rt: &R,
    files: [Given<'_>; 3],
    gate: &impl Gate,
    stop: Stop,
) -> (Result<LiveCounts, LiveError>, Vec<u8>) {
    let [airport, feed1, feed2] = files;
    let mut out = Device::new(Sink::new(rt.alloc(), stop));
    let answer = run_live(
        rt,
        rt.alloc(),
        &mut Device::new(Source::of(airport)),
        &mut Device::new(Source::of(feed1)),
        &mut Device::new(Source::of(feed2)),
        gate,
        &mut out,
    );
    (answer, out.into_inner().text)
}

// What a live run counts: the accepted and the refused updates, and the calls.
fn counted(counts: LiveCounts) -> (usize, usize, usize) {
    (counts.accepted, counts.refused, counts.calls)
}

// What a live run of two desks counts, or why it ends, and whether it has written the text of both.
fn told<R: AllocGlobal + Threads + Wait + Sync + Abort>(
    rt: &R,
    gate: &impl Gate,
) -> (Result<(usize, usize, usize), LiveError>, bool) {
    let (answer, text) = run_of(rt, files([0; 3]), gate, Stop::Never);
    (answer.map(counted), text.as_slice() == TEXT.as_bytes())
}

// Desks that ran one after the other, on one thread or under one lock, would meet every clause.
#[test]
fn desks_meet(rt: HostRuntime) {
    let gate = Meeting::new(PhaseName::Desks, 1_000_000);
    assert_found(&rt, told(&rt, &gate), (Ok((6, 0, 4)), true), "told");
    let found = (gate.came(), gate.others(), gate.is_missed());
    assert_found(&rt, found, ([1, 1], 0, false), "pieces");
}

// The feed of so many cancellations of an unknown flight.
fn cancellations(alloc: Global, count: usize) -> Option<Vec<u8>> {
    let mut feed = Vec::new(alloc);
    for _ in 0..count {
        feed.extend_from_slice(b"AO,CNL,A\n").ok()?;
    }
    Some(feed)
}

// What a live run counts whose desks have the same feed, or why it ends.
fn told_of_both<R: AllocGlobal + Threads + Wait + Sync + Abort>(
    rt: &R,
    feed: &[u8],
) -> Result<(usize, usize, usize), LiveError> {
    let files = [AIRPORT.as_bytes(), feed, feed].map(|text| (text, usize::MAX, 0));
    let (answer, _) = run_of(rt, files, &OpenGate, Stop::Never);
    answer.map(counted)
}

// Two desks that post 2,047 full batches each and look once have filled their board.
#[test]
fn a_full_board_is_counted(rt: HostRuntime) {
    let feed = cancellations(rt.alloc(), 524_032).expect(&rt, "no memory");
    let found = told_of_both(&rt, &feed);
    assert_found(&rt, found, Ok((0, 1_048_064, 4_096)), "told");
}

// The fault of a run whose read of this number fails in this input, and whether nothing was written before it. Without one,
// whether the desks' text was.
fn fault_at<R: AllocGlobal + Threads + Wait + Sync + Abort>(
    rt: &R,
    input: Input,
    read: usize,
) -> (Option<LiveError>, bool) {
    let fails_at = match input {
        Input::Airport => [read, 0, 0],
        Input::Feed1 => [0, read, 0],
        _ => [0, 0, read],
    };
    let (answer, text) = run_of(rt, files(fails_at), &OpenGate, Stop::Never);
    let wanted = if answer.is_ok() { TEXT } else { "" };
    (answer.err(), text.as_slice() == wanted.as_bytes())
}

// Each read of each input fails in turn, the one at its end too.
#[test]
fn failing_reads(rt: HostRuntime) {
    let table = [
        (Input::Airport, AIRPORT.len()),
        (Input::Feed1, FEED1.len()),
        (Input::Feed2, FEED2.len()),
    ];
    for (input, len) in table {
        for read in 0..=len.saturating_add(1) {
            let fault = (read > 0).then_some(LiveError::Common(CommonFault::Read(input)));
            let found = fault_at(&rt, input, read);
            assert_found(&rt, found, (fault, true), (input, read));
        }
    }
}

// Whether a run on a writer that stops here leaves this text, whole or a prefix.
fn writes<R: AllocGlobal + Threads + Wait + Sync + Abort>(rt: &R, stop: Stop, text: &[u8]) -> bool {
    let (answer, written) = run_of(rt, files([0; 3]), &OpenGate, stop);
    let fault = (stop != Stop::Never).then_some(LiveError::Common(CommonFault::Write));
    answer.err() == fault && written.as_slice() == text
}

// Each write fails in turn or takes no byte, and then the flush fails: a prefix was written.
#[test]
fn failing_writes(rt: HostRuntime) {
    let text = TEXT.as_bytes();
    assert_holds(&rt, writes(&rt, Stop::Never, text), "whole");
    assert_holds(&rt, writes(&rt, Stop::Flush, text), "no flush");
    for at in 0..text.len() {
        let prefix = &text[..at];
        for stop in [Stop::Error(at + 1), Stop::NoByte(at + 1)] {
            assert_holds(&rt, writes(&rt, stop, prefix), stop);
        }
    }
}
