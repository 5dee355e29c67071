//! Answers for programs: the plan of a day, what holds a flight, how full runways are, and replies to records, each as JSON on a
//! line of its own.
#![tactic(auto)]

mod answering;
mod laws;
mod lines;
mod load;
mod plan;
mod record;
mod why;

pub use answering::json_answer;
pub use laws::one_json_answer;
pub use lines::{begin_line, end_line};
pub use load::load_lines;
pub use plan::{PlanOf, plan_line, plan_line_around, push_counts};
pub use record::reply_line;
pub use why::why_line;
