//! Whole runs, from the bytes of files to the bytes of a report.
use crate::tests::asserts::assert_holds;
use crate::tests::devices::{Given, Meeting, Sink, Source, Stop};
use cdm_feed::{CommonFault, Device, Input, RunCounts, RunError, run};
use cdm_phase::{Gate, OpenGate, PhaseName, Workers};
use std::process::Abort;
use std::thread::Threads;

/// An airport with two runways, on each of which two flights take off in ten minutes.
const AIRPORT: &str = "\
DAY,2025-03-10
RUNWAY,27L,10,2
TAXI,*,27L,15
RUNWAY,09,10,2
TAXI,*,09,15
";

/// A flight on each runway, ready at 06:00, and a CTOT of an operator.
const FEED: &str = "\
AP,FLT,AB1,5
ATC,RWY,AB1,27L
AO,TOBT,AB1,2025-03-10T06:00Z
AP,FLT,AB2,5
ATC,RWY,AB2,09
AO,TOBT,AB2,2025-03-10T06:00Z
AO,CTOT,AB1,2025-03-10T06:40Z
";

/// Their report.
const REPORT: &str = "\
DAY 2025-03-10 NOW 100000
RUNWAY 09
AB2     100600   15 ------ 100600 100615 P    0
RUNWAY 27L
AB1     100600   15 ------ 100600 100615 P    0
TOTAL PLACED 2 DELAY 0 MAX 0 LATE 0 BLOCKED 0
REFUSED 7 AUTHORITY
";

/// Two questions, of which the second can't be answered.
const SCENARIOS: &str = "\
SCENARIO,SHUT
CLOSE,27L,2025-03-10T06:10Z,2025-03-10T06:30Z
SCENARIO,BAD
PRIO,AB2,1
TOBT,XY9,2025-03-10T06:00Z
";

/// Their answers.
const ANSWERS: &str = "\
SCENARIO SHUT
DAY 2025-03-10 NOW 100000
RUNWAY 09
AB2     100600   15 ------ 100600 100615 P    0
RUNWAY 27L
AB1     100600   15 ------ 100615 100630 P   15
TOTAL PLACED 2 DELAY 15 MAX 15 LATE 0 BLOCKED 0
DELTA PLACED +0 DELAY +15 MAX +15 LATE +0 BLOCKED +0
SCENARIO BAD
REFUSED 2 UNKNOWN
";

// A scenario file without a scenario.
const BLANK: &str = "\n\r\n\n";

// The files of a day without scenarios, a byte at a time, each of which fails at one of its reads.
fn files(fails_at: [usize; 3]) -> [Given<'static>; 3] {
    [
        (AIRPORT.as_bytes(), 1, fails_at[0]),
        (FEED.as_bytes(), 1, fails_at[1]),
        (BLANK.as_bytes(), 1, fails_at[2]),
    ]
}

// What a run with so many workers answers, and its writer, which stops here.
fn run_of<R: AllocGlobal + Threads + Sync + Abort>(
    rt: &R,
    files: [Given<'_>; 3],
    count: usize,
    gate: &impl Gate,
    stop: Stop,
) -> (Result<RunCounts, RunError>, Device<Sink>) {
    let workers = Workers::new(count).expect(rt, "workers");
    let [airport, feed, scenarios] = files;
    let mut out = Device::new(Sink::new(rt.alloc(), stop));
    let answer = run(
        rt,
        rt.alloc(),
        &mut Device::new(Source::of(airport)),
        &mut Device::new(Source::of(feed)),
        &mut Device::new(Source::of(scenarios)),
        workers,
        gate,
        &mut out,
    );
    (answer, out)
}

// What a run with scenarios counts, or why it ends, and whether it has written the report and the answers.
type Told = (Result<(usize, usize, usize), RunError>, bool);

// Those of a run with so many workers.
fn told<R: AllocGlobal + Threads + Sync + Abort>(rt: &R, count: usize, gate: &impl Gate) -> Told {
    let files = [AIRPORT, FEED, SCENARIOS].map(|text| (text.as_bytes(), usize::MAX, 0));
    let (answer, out) = run_of(rt, files, count, gate, Stop::Never);
    let text = out.into_inner().text;
    let answers = text.strip_prefix(REPORT.as_bytes());
    let counts = answer.map(|counts| (counts.accepted, counts.refused, counts.scenarios));
    (counts, answers == Some(ANSWERS.as_bytes()))
}

// The same, how often each of the first two pieces of the phase came, and whether one waited in vain.
fn meet<R: AllocGlobal + Threads + Sync + Abort>(
    rt: &R,
    phase: PhaseName,
    count: usize,
) -> (Told, [usize; 2], bool) {
    let turns = if count == 1 { 2_000 } else { 1_000_000 };
    let gate = Meeting::new(phase, turns);
    let told = told(rt, count, &gate);
    (told, gate.came(), gate.is_missed())
}

// Whether so many workers, with this phase held, write the report and meet, unless there is one alone.
fn meets<R: AllocGlobal + Threads + Sync + Abort>(
    rt: &R,
    phase: PhaseName,
    workers: usize,
) -> bool {
    meet(rt, phase, workers) == ((Ok((6, 1, 2)), true), [1, 1], workers == 1)
}

// One worker takes one runway after the other, and one scenario after the other, and more meet.
#[test]
fn workers_meet_and_write_one_text(rt: HostRuntime) {
    let table = [
        (PhaseName::Runways, 1),
        (PhaseName::Runways, 2),
        (PhaseName::Runways, 7),
        (PhaseName::Runways, 64),
        (PhaseName::Scenarios, 1),
        (PhaseName::Scenarios, 2),
        (PhaseName::Scenarios, 7),
        (PhaseName::Scenarios, 64),
    ];
    for (phase, workers) in table {
        assert_holds(&rt, meets(&rt, phase, workers), (phase, workers));
    }
}

// The fault of a run whose read of this number fails in this input, and whether nothing was written before it. Without one,
// whether the day's report was.
fn fault_at<R: AllocGlobal + Threads + Sync + Abort>(
    rt: &R,
    input: Input,
    read: usize,
) -> (Option<RunError>, bool) {
    let fails_at = match input {
        Input::Airport => [read, 0, 0],
        Input::Feed => [0, read, 0],
        _ => [0, 0, read],
    };
    let (answer, out) = run_of(rt, files(fails_at), 1, &OpenGate, Stop::Never);
    let text = if answer.is_ok() { REPORT } else { "" };
    let is_told = out.into_inner().text.as_slice() == text.as_bytes();
    (answer.err(), is_told)
}

// Whether a run whose read of this number fails in this input ends with that fault, and without one writes the report.
fn fails_at<R: AllocGlobal + Threads + Sync + Abort>(rt: &R, input: Input, read: usize) -> bool {
    let fault = (read > 0).then_some(RunError::Common(CommonFault::Read(input)));
    fault_at(rt, input, read) == (fault, true)
}

// A byte comes at a time, and each read in turn fails, the one at the end too.
#[test]
fn failing_reads(rt: HostRuntime) {
    let table = [
        (Input::Airport, AIRPORT.len()),
        (Input::Feed, FEED.len()),
        (Input::Scenarios, BLANK.len()),
    ];
    for (input, len) in table {
        for read in 0..=len.saturating_add(1) {
            assert_holds(&rt, fails_at(&rt, input, read), (input, read));
        }
    }
}

// The fault of a run on a writer that stops here, whether its device has failed then, whether it has this text, and how
// often it was flushed since its last write.
fn write_to<R: AllocGlobal + Threads + Sync + Abort>(
    rt: &R,
    stop: Stop,
    text: &[u8],
) -> (Option<RunError>, bool, bool, usize) {
    let (answer, out) = run_of(rt, files([0; 3]), 1, &OpenGate, stop);
    let failed = out.failed();
    let sink = out.into_inner();
    let has_text = sink.text.as_slice() == text;
    (answer.err(), failed, has_text, sink.flushes_since_write)
}

// Whether a run on a writer that stops here leaves this text, whole and flushed or a prefix.
fn writes<R: AllocGlobal + Threads + Sync + Abort>(rt: &R, stop: Stop, text: &[u8]) -> bool {
    let is_whole = stop == Stop::Never;
    let fault = (!is_whole).then_some(RunError::Common(CommonFault::Write));
    write_to(rt, stop, text) == (fault, !is_whole, true, usize::from(is_whole))
}

#[test]
fn failing_writes(rt: HostRuntime) {
    let report = REPORT.as_bytes();
    assert_holds(&rt, writes(&rt, Stop::Never, report), "whole");
    assert_holds(&rt, writes(&rt, Stop::Flush, report), "no flush");
    for at in 0..report.len() {
        let prefix = &report[..at];
        for stop in [Stop::Error(at + 1), Stop::NoByte(at + 1)] {
            assert_holds(&rt, writes(&rt, stop, prefix), stop);
        }
    }
}
