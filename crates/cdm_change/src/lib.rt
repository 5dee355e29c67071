//! The change of day: laws of what is carried, and of the plans before and after it. No program uses this crate.
#![tactic(auto)]

mod laws;

pub use laws::{all_accepted, flights_go_on, nobody_notices};
