//! What a run is lent.
use cdm_phase::Workers;
use std::alloc::Global;

/// What a run is lent: what starts its threads, where it takes memory, how many workers share its phases, and the gate
/// that these pass.
pub struct Lent<'a, R, G> {
    /// The runtime, which starts threads.
    pub rt: &'a R,
    /// Where memory is taken.
    pub alloc: Global,
    /// How many workers plan and answer scenarios.
    pub workers: Workers,
    /// What each piece of a phase passes before it runs.
    pub gate: &'a G,
}

impl<R, G> Drop for Lent<'_, R, G> {
    fn drop(self) {
        let Lent {
            rt: _,
            alloc: _,
            workers: _,
            gate: _,
        } = self;
    }
}
