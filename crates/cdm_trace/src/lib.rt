//! Which record of a feed moved whose start-up.
#![tactic(auto)]

mod batched;
mod lines;
mod since;
mod told;
mod tracing;

pub use since::{Since, from_minute};
pub use tracing::{Trace, trace_of};
