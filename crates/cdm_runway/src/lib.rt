//! One runway: the capacity of its cells, its closures, how long a flight of each group occupies
//! it, and the minutes that are taken on it.
//!
//! Cells, rates, closures and occupancies are local profile: a runway's time is cut into cells of
//! one length, counted from minute 0 of the horizon, and each cell takes a number of flights; a
//! flight occupies the runway for some minutes from its take-off on.
#![tactic(auto)]

mod intervals;
mod load;
mod passed;
mod runway;

pub use load::{Blocked, MOST_FLIGHTS, RunwayLoad, Taken};
pub use passed::PassedOver;
pub use runway::{Runway, RunwayFault};
