//! Rows of bars, of which no two overlap.

use cdm_flight::push_last;
use std::alloc::{AllocError, Global};

/// The lanes of a runway's band: for each where its last bar ends, in tenths of a pixel.
#[derive(Drop)]
pub(crate) struct Lanes {
    ends: Vec<u32>,
}

impl Lanes {
    /// No lane yet.
    pub(crate) fn new(alloc: Global) -> Lanes {
        Lanes {
            ends: Vec::new(alloc),
        }
    }

    /// How many lanes there are.
    pub(crate) fn count(&self) -> usize {
        self.ends.len()
    }

    /// The first lane with room from one place to another, which it then hasn't any more.
    pub(crate) fn take(&mut self, from: u32, to: u32) -> Result<usize, AllocError> {
        for (lane, end) in self.ends.iter_mut().enumerate() {
            if *end <= from {
                *end = to;
                return Ok(lane);
            }
        }
        let lane = self.ends.len();
        push_last(&mut self.ends, to)?;
        Ok(lane)
    }
}
