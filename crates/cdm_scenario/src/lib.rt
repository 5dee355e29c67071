//! What-if questions: scenarios, each a name and further updates, and what becomes of a day by them.
#![tactic(auto)]

mod answers;
mod changes;
mod laid;
mod name;
mod outcome;
mod overlay;
mod scenario;

pub use answers::{answer, answer_all};
pub use name::ScenarioName;
pub use outcome::Outcome;
pub use overlay::Overlay;
pub use scenario::{MOST_SCENARIO_UPDATES, Scenario, ScenarioFault, scenario_named};
