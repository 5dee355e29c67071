//! What a desk of a live run has done when it passes its gate.
use super::{AIRPORT, cancellations, counted, run_of};
use crate::tests::asserts::{assert_found, assert_holds};
use crate::tests::devices::Stop;
use cdm_live::LiveError;
use cdm_phase::{Gate, PhaseName};
use std::alloc::{AllocGlobal, Global};
use std::fs;
use std::process::Abort;
use std::rt::Files;
use std::sync::Wait;
use std::sync::atomic::{AtomicBool, Ordering};
use std::thread::{Threads, yield_now};

// How many threads the program has, as Linux tells it, or 0 where it doesn't.
fn thread_count<R: AllocGlobal + Files>(rt: &R) -> usize {
    let Ok(status) = fs::read_to_string(rt, "/proc/self/status") else {
        return 0;
    };
    for line in status.lines() {
        if let Some(count) = line.strip_prefix("Threads:") {
            return count.trim().parse().unwrap_or(0);
        }
    }
    0
}

// Holds desk 2, which the caller runs, until desk 1 has come and its thread has ended.
#[derive(Drop)]
struct AfterDesk1<'a, R> {
    rt: &'a R,
    threads: usize,
    came: AtomicBool,
    missed: AtomicBool,
}

impl<R: AllocGlobal + Files + Sync> Gate for AfterDesk1<'_, R> {
    fn pass(&self, _phase: PhaseName, piece: usize) {
        if piece == 0 {
            self.came.store(true, Ordering::SeqCst);
            return;
        }
        for _ in 0..1_000_000 {
            if self.came.load(Ordering::SeqCst) && thread_count(self.rt) == self.threads {
                return;
            }
            yield_now();
        }
        self.missed.store(true, Ordering::SeqCst);
    }
}

// The feed of desk 1, a hundred full batches and a clock.
fn long_feed(alloc: Global) -> Option<Vec<u8>> {
    let mut feed = cancellations(alloc, 25_600)?;
    let clock = b"ATC,CLOCK,2025-03-10T06:10Z\n";
    feed.extend_from_slice(clock).ok()?;
    Some(feed)
}

// What a live run of this feed and an earlier clock counts, or why it ends, and whether desk 2's clock is refused.
fn told<R: AllocGlobal + Threads + Wait + Sync + Abort>(
    rt: &R,
    feed: &[u8],
    gate: &impl Gate,
) -> (Result<(usize, usize, usize), LiveError>, bool) {
    let clock = b"ATC,CLOCK,2025-03-10T06:05Z\n".as_slice();
    let files = [AIRPORT.as_bytes(), feed, clock].map(|text| (text, usize::MAX, 0));
    let (answer, text) = run_of(rt, files, gate, Stop::Never);
    let is_refused = text.ends_with(b"DESK 2 POSTS 1 REFUSED 1\nREFUSED 1 ORDER\n");
    (answer.map(counted), is_refused)
}

// A desk that posted before it passed its gate would set the clock while desk 1 is at its first batches.
#[test]
fn a_desk_that_is_held_has_posted_nothing(rt: HostRuntime) {
    let gate = AfterDesk1 {
        rt: &rt,
        threads: thread_count(&rt),
        came: AtomicBool::new(false),
        missed: AtomicBool::new(false),
    };
    let feed = long_feed(rt.alloc()).expect(&rt, "no memory");
    let told = told(&rt, &feed, &gate);
    assert_found(&rt, told, (Ok((1, 25_601, 104)), true), "told");
    let is_met = gate.threads > 0 && !gate.missed.load(Ordering::SeqCst);
    assert_holds(&rt, is_met, "the gate");
}
