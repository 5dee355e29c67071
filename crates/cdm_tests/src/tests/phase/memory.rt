//! A worker without memory.
ghost use Rattle.std.specs.Prelude.{◌≡◌};
ghost use Rattle.std.proofs.Common.{sym, ◌∙◌};
ghost use Rattle.cdm_phase.specs.declared.job.PhaseName.TheVariants.{Runways};

use super::{WORKERS, numbers};
use crate::tests::asserts::{assert_found, assert_holds};
use cdm_phase::{Job, OpenGate, PhaseName, Workers, run_phase};
use std::alloc::{AllocError, Global};
use std::sync::atomic::{AtomicBool, AtomicUsize, Ordering};
use std::thread;
use std::thread::Threads;

/// Has no memory for item 5 when it is first run.
#[derive(Drop)]
struct FailsAtFive {
    failed: AtomicBool,
    begun: AtomicUsize,
    ended: AtomicUsize,
}

impl Job for FailsAtFive {
    type Item = u32;

    type Out = u32;

    ghost gives = { λ _ item out. out ≡ item };

    ghost phase_name = { Runways };

    fn run(&self, _alloc: Global, item: &u32) -> Result<u32, AllocError> {
        self.begun.fetch_add(1, Ordering::SeqCst);
        let fails = *item == 5 && !self.failed.swap(true, Ordering::SeqCst);
        thread::yield_now();
        self.ended.fetch_add(1, Ordering::SeqCst);
        if fails { Err(AllocError) } else { Ok(*item) }
    }

    fn phase(&self) -> PhaseName {
        PhaseName::Runways
    }

    ghost one_value = { λ _ _ x y _ a b. a ∙ sym b };
}

// Whether so many workers answer that there is no memory, and how many items were begun and ended.
fn answered<R: Threads + Sync>(
    rt: &R,
    alloc: Global,
    count: usize,
) -> Option<(bool, usize, usize)> {
    let workers = Workers::new(count)?;
    let items = numbers(alloc, 20).ok()?;
    let job = FailsAtFive {
        failed: AtomicBool::new(false),
        begun: AtomicUsize::new(0),
        ended: AtomicUsize::new(0),
    };
    let is_refused = run_phase(rt, alloc, workers, 1, &job, &items, &OpenGate).is_err();
    let begun = job.begun.load(Ordering::SeqCst);
    Some((is_refused, begun, job.ended.load(Ordering::SeqCst)))
}

#[test]
fn want_of_memory_in_one_worker_is_the_answer(rt: HostRuntime) {
    for count in WORKERS {
        let found = answered(&rt, rt.alloc(), count);
        let (is_refused, begun, ended) = found.expect(&rt, "not run");
        assert_holds(&rt, is_refused, (count, "workers"));
        assert_found(&rt, begun, ended, (count, "workers"));
    }
}
