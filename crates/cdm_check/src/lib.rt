//! The check of files: each refused record by its line, its word and a sentence that says what is wrong,
//! and hints on whole files.
#![tactic(auto)]

mod airport_words;
mod check_run;
mod counts;
mod day_words;
mod fields;
mod forms;
mod hints;
mod kinds;
mod known;
mod laws;
mod lines;
mod objects;
mod partners;
mod paths;
mod place;
mod quotes;
mod record_words;
mod refused;
mod rows;
mod scenario_updates;
mod scenario_words;
mod shown;
mod stands;
mod time_words;
mod times;
mod walk;

pub use check_run::{Checked, check_of};
pub use counts::CheckCounts;
pub use laws::no_feed_is_refused;
pub use objects::push_cause;
pub use paths::FilePaths;
pub use refused::refused_sentence;
