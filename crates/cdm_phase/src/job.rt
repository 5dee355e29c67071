//! What a phase runs.
ghost use Rattle.std.specs.Prelude.{◌≡◌, IfOk};
ghost use Rattle.cdm_phase.specs.declared.job.PhaseName.{PhaseName};

use std::alloc::{AllocError, Global};

/// The phases in which workers share the work, by which a gate tells them apart.
#[derive(Clone, Copy, PartialEq, Eq, Debug)]
pub enum PhaseName {
    /// The target of each planned flight.
    Targets,
    /// The pre-departure sequence of each runway.
    Runways,
    /// The answer to each what-if scenario.
    Scenarios,
    /// The desks of a live run, each one piece.
    Desks,
}

/// Work that is done item by item, by workers that share the job and what it borrows.
///
/// A job states one value for each item. `gives` is that statement, a relation of the job, the item
/// and the value: an equation where the value is a function of the other two, else what is ensured
/// by the function that the job calls. Each implementation proves that an `Ok` of `run` is the
/// stated value, and that there is no other, so it makes no difference which worker runs an item, or
/// how often it is run.
///
/// A job that waits holds the handle that waiting needs.
pub trait Job: Sync {
    /// What the work is done on.
    type Item: Sync;

    /// The value of an item.
    type Out: Send + Drop;

    // The job may be run at the item. A job that leaves this out can be run at every item.
    ghost can_run: { Self → Self.Item → Type 0 } = { λ _ _. Unit {0} };

    // The stated value of the item.
    ghost gives: { Self → Self.Item → Self.Out → Type 0 };

    // The one phase to which the job belongs.
    ghost phase_name: { PhaseName };

    /// The value of one item. The only error is want of memory.
    fn run(&self, alloc: Global, item: &Self::Item) -> Result<Self::Out, AllocError>
        requires { can_run self.now item.now }
        ensures { IfOk result (λ out. gives self.now item.now out) };

    /// The job's one phase, which the gate is told.
    fn phase(&self) -> PhaseName
        ensures { result ≡ phase_name };

    // Each item has one value.
    ghost one_value: { (job : Self) (item : Self.Item) (x y : Self.Out) → can_run job item → gives job item x → gives job item y → x ≡ y };
}
