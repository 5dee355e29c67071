//! The running board: desks on any threads share one day, and its history is one that a single thread
//! could have made.
#![tactic(auto)]

mod board;
mod close;
mod desk;
mod fault;
mod history;
mod receipt;
mod snapshot;
mod state;

pub use board::Board;
pub use close::{Closed, MOST_DESKS, OpenFault};
pub use desk::Desk;
pub use fault::BoardError;
pub use history::History;
pub use receipt::{Entry, Receipt};
pub use snapshot::{Snapshot, what_if};
pub use state::{BoardState, MOST_BATCH_UPDATES, MOST_CALLS};
