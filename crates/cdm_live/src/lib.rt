//! The live run: two desks post a feed each to one board, at the same time.
#![tactic(auto)]

mod desk_text;
mod desks;
mod live_error;
mod live_run;

pub use live_error::LiveError;
pub use live_run::{LiveCounts, run_live};
