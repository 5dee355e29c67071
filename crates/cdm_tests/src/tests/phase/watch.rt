//! What the gate sees, and when.
ghost use Rattle.std.specs.Prelude.{◌≡◌};
ghost use Rattle.std.proofs.Common.{sym, ◌∙◌};
ghost use Rattle.cdm_phase.specs.declared.job.PhaseName.TheVariants.{Scenarios};

use super::{WORKERS, numbers};
use crate::tests::asserts::assert_found;
use cdm_phase::{Gate, Job, PhaseName, Workers, run_phase};
use std::alloc::{AllocError, Global};
use std::sync::atomic::{AtomicUsize, Ordering};
use std::thread::Threads;

/// A job that is its own gate. It counts how often each piece passes and how many items are run. A
/// pass in another phase or of no piece is a fault, and so is an item that is run before its piece
/// has passed.
#[derive(Drop)]
struct Watch {
    grain: usize,
    passes: Vec<AtomicUsize>,
    runs: AtomicUsize,
    faults: AtomicUsize,
}

impl Watch {
    fn new(alloc: Global, grain: usize, pieces: usize) -> Result<Watch, AllocError> {
        let mut passes = Vec::new(alloc);
        for _ in 0..pieces {
            passes.push(AtomicUsize::new(0))?;
        }
        Ok(Watch {
            grain,
            passes,
            runs: AtomicUsize::new(0),
            faults: AtomicUsize::new(0),
        })
    }

    fn passes_of(&self, item: u32) -> usize {
        let piece = (item as usize).checked_div(self.grain);
        match piece.and_then(|piece| self.passes.get(piece)) {
            Some(passes) => passes.load(Ordering::SeqCst),
            None => 0,
        }
    }

    // Whether each piece has passed once.
    fn passed_once(&self) -> bool {
        self.passes.iter().all(|n| n.load(Ordering::SeqCst) == 1)
    }
}

impl Gate for Watch {
    fn pass(&self, phase: PhaseName, piece: usize) {
        let counter = match self.passes.get(piece) {
            Some(passes) if phase == PhaseName::Scenarios => passes,
            _ => &self.faults,
        };
        counter.fetch_add(1, Ordering::SeqCst);
    }
}

impl Job for Watch {
    type Item = u32;

    type Out = u32;

    ghost gives = { λ _ item out. out ≡ item };

    ghost phase_name = { Scenarios };

    fn run(&self, _alloc: Global, item: &u32) -> Result<u32, AllocError> {
        self.runs.fetch_add(1, Ordering::SeqCst);
        if self.passes_of(*item) != 1 {
            self.faults.fetch_add(1, Ordering::SeqCst);
        }
        Ok(*item)
    }

    fn phase(&self) -> PhaseName {
        PhaseName::Scenarios
    }

    ghost one_value = { λ _ _ x y _ a b. a ∙ sym b };
}

// Whether so many workers give each of so many items as it is, each piece having passed once; how many items were run, and
// how many faults there were. Nothing for a grain of none.
fn watched<R: Threads + Sync>(
    rt: &R,
    alloc: Global,
    count: usize,
    len: u32,
    grain: usize,
    pieces: usize,
) -> Option<(bool, usize, usize)> {
    if grain == 0 {
        return None;
    }
    let workers = Workers::new(count)?;
    let items = numbers(alloc, len).ok()?;
    let watch = Watch::new(alloc, grain, pieces).ok()?;
    let outs = run_phase(rt, alloc, workers, grain, &watch, &items, &watch).ok()?;
    let runs = watch.runs.load(Ordering::SeqCst);
    let faults = watch.faults.load(Ordering::SeqCst);
    Some((outs == items && watch.passed_once(), runs, faults))
}

#[test]
fn each_piece_passes_once_before_its_items_run(rt: HostRuntime) {
    let table = [(1000, 1, 1000), (1000, 64, 16), (1000, 2000, 1), (0, 1, 0)];
    for count in WORKERS {
        for (len, grain, pieces) in table {
            let found = watched(&rt, rt.alloc(), count, len, grain, pieces);
            let wanted = Some((true, len as usize, 0));
            assert_found(&rt, found, wanted, (count, len, grain));
        }
    }
}
