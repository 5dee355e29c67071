//! One desk: a day that takes records one at a time, and replies to each what it changed.
#![tactic(auto)]

mod desk_day;
mod laws;
mod posting;
mod reply;

pub use desk_day::DeskDay;
pub use laws::replies_suffice;
pub use reply::{DeskReply, RowReply, push_reply};
