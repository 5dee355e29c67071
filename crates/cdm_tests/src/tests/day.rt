//! A day that many workers plan.

mod parallel;
mod updates;
