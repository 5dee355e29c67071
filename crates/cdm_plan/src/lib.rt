//! The plan of a day: from what an airport and accepted updates say to the plan that follows from it, by
//! the caller alone or by many workers.
#![tactic(auto)]

mod aimed;
mod brief;
mod jobs;
mod kept;
mod laws;
mod planning;
mod records;
mod runner;
mod touched;
mod work;

pub use brief::Brief;
pub use kept::Kept;
pub use laws::{
    one_is_first_in_a_day, one_plan_of_a_day, plans_of_a_day_are_first, runways_make_the_day,
};
pub use planning::{plan_keeping, plan_of};
pub use records::Records;
pub use runner::Runner;
pub use touched::{Noting, Touched};
