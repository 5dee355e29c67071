//! Runs a job over a list of items by several threads. The items are cut into numbered pieces, each
//! worker claims pieces until none is left, and the answer is the list of the job's values, in the
//! order of the items, whoever ran which piece.
#![tactic(auto)]

mod assembly;
mod gate;
mod job;
mod phase;
mod piece;
mod workers;

pub use assembly::assemble;
pub use gate::{Gate, OpenGate};
pub use job::{Job, PhaseName};
pub use phase::{run_here, run_phase};
pub use piece::Piece;
pub use workers::{MOST_WORKERS, Workers};
