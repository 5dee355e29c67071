//! The pre-departure sequence: what each departure could have, what each runway gives it, and why
//! a flight is left without a minute.
#![tactic(auto)]

mod aims;
mod decision;
mod fixed;
mod laws;
mod plan;
mod rule;
mod sequencing;
mod shared;
mod slot;
mod target;
mod turns;

pub use aims::{AimResult, aim, aim_by, own_exot};
pub use fixed::fixed_of;
pub use laws::{
    any_order, one_aim, one_is_earlier, one_is_first, one_plan, one_sequence, plans_are_first,
    some_aim, spaced_in_order_is_spaced,
};
pub use plan::{Plan, RunwayPlan};
pub use rule::Rule;
pub use sequencing::sequence;
pub use shared::SharedList;
pub use slot::{BlockedFlight, Mark, Slot};
pub use target::Target;
