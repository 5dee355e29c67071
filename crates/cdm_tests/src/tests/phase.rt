//! What no clause says: that workers run side by side, what the gate sees, and that memory which
//! runs out in one worker is the phase's answer.
use std::alloc::{AllocError, Global};

mod meeting;
mod memory;
mod watch;

const WORKERS: [usize; 4] = [1, 2, 7, 64];

fn numbers(alloc: Global, count: u32) -> Result<Vec<u32>, AllocError> {
    (0..count).collect(alloc)
}
