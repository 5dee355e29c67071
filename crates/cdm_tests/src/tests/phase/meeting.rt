//! Pieces that wait for each other.
ghost use Rattle.std.specs.Prelude.{◌≡◌};
ghost use Rattle.std.proofs.Common.{sym, ◌∙◌};
ghost use Rattle.cdm_phase.specs.declared.job.PhaseName.TheVariants.{Runways};

use super::numbers;
use crate::tests::asserts::assert_found;
use cdm_phase::{Job, OpenGate, PhaseName, Workers, run_phase};
use std::alloc::{AllocError, Global};
use std::sync::atomic::{AtomicBool, AtomicUsize, Ordering};
use std::thread;
use std::thread::Threads;

/// Each item waits until all have begun, for so many turns at most.
#[derive(Drop)]
struct Meeting {
    all: usize,
    turns: usize,
    begun: AtomicUsize,
    missed: AtomicBool,
}

impl Job for Meeting {
    type Item = u32;

    type Out = u32;

    ghost gives = { λ _ item out. out ≡ item };

    ghost phase_name = { Runways };

    fn run(&self, _alloc: Global, item: &u32) -> Result<u32, AllocError> {
        self.begun.fetch_add(1, Ordering::SeqCst);
        for _ in 0..self.turns {
            if self.begun.load(Ordering::SeqCst) >= self.all {
                return Ok(*item);
            }
            thread::yield_now();
        }
        self.missed.store(true, Ordering::SeqCst);
        Ok(*item)
    }

    fn phase(&self) -> PhaseName {
        PhaseName::Runways
    }

    ghost one_value = { λ _ _ x y _ a b. a ∙ sym b };
}

// Whether so many workers give each of the items as it is, and whether one of the items waited in vain.
fn met<R: Threads + Sync>(
    rt: &R,
    alloc: Global,
    count: usize,
    all: usize,
    turns: usize,
) -> Option<(bool, bool)> {
    let workers = Workers::new(count)?;
    let items = numbers(alloc, u32::try_from(all).ok()?).ok()?;
    let meeting = Meeting {
        all,
        turns,
        begun: AtomicUsize::new(0),
        missed: AtomicBool::new(false),
    };
    let outs = run_phase(rt, alloc, workers, 1, &meeting, &items, &OpenGate).ok()?;
    Some((outs == items, meeting.missed.load(Ordering::SeqCst)))
}

/// A phase that ran its pieces one after another, on one thread or under one lock, would meet every
/// clause, and so would one that started more threads than it has workers. Here as many pieces as
/// there are workers meet, and one piece more than that doesn't.
#[test]
fn as_many_pieces_run_side_by_side_as_there_are_workers(rt: HostRuntime) {
    let table = [
        (2, 2, 10_000_000, false),
        (7, 7, 10_000_000, false),
        (64, 64, 10_000_000, false),
        (1, 2, 2_000, true),
        (2, 3, 2_000, true),
    ];
    for (count, all, turns, is_missed) in table {
        let found = met(&rt, rt.alloc(), count, all, turns);
        assert_found(&rt, found, Some((true, is_missed)), (count, "workers"));
    }
}
