//! Minutes, windows and days of the horizon.
//!
//! The horizon is the 48 hours from 00:00 UTC of the airport's day. Each time of the airport is one
//! of its 2,880 whole minutes, as the local profile has it.
#![tactic(auto)]

mod bound;
mod calendar;
mod day;
mod digits;
mod minute;
mod tolerance;
mod window;

pub use bound::{Bound, HORIZON_MINUTES};
pub use calendar::CalendarDate;
pub use day::{Day, TimeFault};
pub use digits::number_of;
pub use minute::Minute;
pub use tolerance::Tolerance;
pub use window::{Window, ctot_window};
