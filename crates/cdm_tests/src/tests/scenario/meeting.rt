//! A gate at which two workers meet.
use cdm_phase::{Gate, PhaseName};
use std::sync::atomic::{AtomicBool, Ordering};
use std::thread;

/// Holds each of the pieces 0 and 1 of phase `Scenarios` until the other has come, for so many turns at
/// most.
#[derive(Drop)]
pub struct Meeting {
    turns: usize,
    first: AtomicBool,
    second: AtomicBool,
    missed: AtomicBool,
}

impl Meeting {
    /// Nobody has come yet.
    pub fn new(turns: usize) -> Meeting {
        Meeting {
            turns,
            first: AtomicBool::new(false),
            second: AtomicBool::new(false),
            missed: AtomicBool::new(false),
        }
    }

    /// Whether one of them went on alone.
    pub fn is_missed(&self) -> bool {
        self.missed.load(Ordering::SeqCst)
    }
}

impl Gate for Meeting {
    fn pass(&self, phase: PhaseName, piece: usize) {
        let (mine, other) = match (phase, piece) {
            (PhaseName::Scenarios, 0) => (&self.first, &self.second),
            (PhaseName::Scenarios, 1) => (&self.second, &self.first),
            _ => return,
        };
        mine.store(true, Ordering::SeqCst);
        for _ in 0..self.turns {
            if other.load(Ordering::SeqCst) {
                return;
            }
            thread::yield_now();
        }
        self.missed.store(true, Ordering::SeqCst);
    }
}
